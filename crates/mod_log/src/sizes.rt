// How large the spelling of an entry is; a number past the greatest stands as the greatest.
ghost use Rattle.std.specs.Prelude.{◌≡◌, ◌++◌, length, IfOk};
ghost use Rattle.std.specs.List.{sum_by};
ghost use Rattle.byte_fields.specs.Numbers.{as_u64};
ghost use Rattle.tree_values.specs.Effects.{contents_size as contents_total};
ghost use Rattle.tree_values.specs.Spelling.{effect, effects, base, bases};
ghost use Rattle.mod_log.specs.Origin.{made_by};

use crate::origin::{Origin, made_by_size};
use std::alloc::{AllocError, Global};
use vol_tree::{Base, Bases, Effect, Effects};

/// The bytes of all contents.
pub(crate) fn contents_size(effects: &[Effect]) -> u64
    ensures { result ≡ as_u64 (contents_total effects.now) }
{
    let mut size = 0u64;
    for effect in effects {
        size = size.saturating_add(effect.content_size());
    }
    size
}

/// The bytes of the spellings of these effects.
pub fn effects_size(effects: &[Effect]) -> u64
    ensures { result ≡ as_u64 (sum_by (λ e. length (effect e)) effects.now) }
{
    let mut size = 0u64;
    for effect in effects {
        size = size.saturating_add(effect.size());
    }
    size
}

/// The bytes of the spellings of these bases.
pub fn bases_size(bases: &[Base]) -> u64
    ensures { result ≡ as_u64 (sum_by (λ b. length (base b)) bases.now) }
{
    let mut size = 0u64;
    for base in bases {
        size = size.saturating_add(base.size());
    }
    size
}

/// The bytes of the spelling of an entry: what made it, and the two lists behind their counts.
pub(crate) fn entry_size(
    alloc: Global,
    origin: &Option<Origin>,
    changes: &Effects,
    versions: &Bases,
) -> Result<u64, AllocError>
    ensures { IfOk result (λ size. size ≡ as_u64 (length (made_by origin.now ++ (effects changes.now ++ bases versions.now)))) }
{
    let made = made_by_size(alloc, origin)?;
    let counts = 8u64;
    Ok(
        counts
            .saturating_add(made)
            .saturating_add(effects_size(changes.as_slice()))
            .saturating_add(bases_size(versions.as_slice())),
    )
}
