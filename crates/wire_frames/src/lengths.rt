//! How long the frame of the store of one entry is, and that of its operation; a number past the greatest stands as the
//! greatest.

ghost use Rattle.std.specs.Prelude.{ℕ, ◌≡◌, ◌≤◌, [], ◌∷◌, length, IfOk};
ghost use Rattle.std.specs.Option.{IsSome};
ghost use Rattle.std.specs.List.{AllByRecursion, sum_by};
ghost use Rattle.byte_fields.specs.Numbers.{as_u64};
ghost use Rattle.file_paths.specs.Limits.{max_file};
ghost use Rattle.tree_values.specs.Effects.{content_size};
ghost use Rattle.mod_log.specs.declared.sketching.SketchEntry.{SketchEntry};
ghost use Rattle.mod_log.specs.Origin.{origin as spelled_origin};
ghost use Rattle.mod_log.specs.Sketched.{IsSketchOf};
ghost use Rattle.wire_frames.specs.declared.message.Message.TheVariants.{Store, Operate};
ghost use Rattle.wire_frames.specs.Frame.{frame};
ghost use Rattle.wire_frames.specs.Parts.{part_of};
ghost use Rattle.wire_frames.specs.Inside.{sketched_length};

use mod_log::{Entry, Origin, bases_size, effects_size};
use rs_parity::BLOCK;
use std::alloc::{AllocError, Global};
use vol_tree::{Bases, Effect, Effects};

/// The bytes of a frame before its body.
const HEAD: u64 = 15;

/// The bytes of the counts of effects and of bases.
const COUNTS: u64 = 8;

/// The bytes of the number of a store's entries.
const PARTS: u64 = 1;

/// The bytes of the length and of the print in a sketch.
const SKETCH_HEAD: u64 = 36;

/// The bytes of the parity of a block.
const PARITY_BYTES: u64 = 64;

/// How long the frame of a store of one entry with these effects and this base list is. The frame is not made.
pub fn store_size(effects: &Effects, base: &Bases) -> u64
    ensures { (client number : ℕ) → result ≡ as_u64 (length (frame (Store client number (part_of effects.now base.now ∷ [])))) }
{
    (HEAD + PARTS + COUNTS)
        .saturating_add(effects_size(effects.as_slice()))
        .saturating_add(bases_size(base.as_slice()))
}

/// How long the frame of the operation is that a command's entry is sent as. Neither the frame nor a sketch is made.
///
/// # Errors
///
/// `AllocError` where there is no memory for the spelling of the command.
pub fn operation_size(alloc: Global, entry: &Entry) -> Result<u64, AllocError>
    requires made { IsSome entry.now.origin }
    requires sizes { AllByRecursion (λ effect. content_size effect ≤ max_file) entry.now.effects }
    ensures { IfOk result (λ size. (client : ℕ) (sketched : SketchEntry) → IsSketchOf entry.now sketched
        → size ≡ as_u64 (length (frame (Operate client sketched)))) }
{
    let origin = match &entry.origin {
        Some(origin) => origin_size(alloc, origin)?,
        None => unreachable!(),
    };
    Ok(
        (HEAD + COUNTS)
            .saturating_add(origin)
            .saturating_add(sketched_sizes(entry.effects.as_slice()))
            .saturating_add(bases_size(entry.base.as_slice())),
    )
}

/// The bytes of the spelling of an origin.
fn origin_size(alloc: Global, origin: &Origin) -> Result<u64, AllocError>
    ensures { IfOk result (λ size. size ≡ length (spelled_origin origin.now)) }
{
    let mut spelling = Vec::new(alloc);
    Origin::spell(origin, &mut spelling)?;
    Ok(spelling.len() as u64)
}

/// The bytes of the spelled sketched effects of these effects.
fn sketched_sizes(effects: &[Effect]) -> u64
    ensures { result ≡ as_u64 (sum_by sketched_length effects.now) }
{
    let mut size = 0u64;
    for effect in effects {
        size = size.saturating_add(sketched_size(effect));
    }
    size
}

/// The bytes of the spelled sketched effect of an effect.
fn sketched_size(effect: &Effect) -> u64
    ensures { result ≡ sketched_length effect.now }
{
    match effect {
        Effect::Put(path, content) => {
            let blocks = content.bytes().len().div_ceil(BLOCK) as u64;
            1 + path.size() + SKETCH_HEAD + PARITY_BYTES * blocks
        }
        Effect::Make(_) | Effect::Remove(_) | Effect::Move(_, _) | Effect::Mode(_, _) => {
            effect.size()
        }
    }
}
