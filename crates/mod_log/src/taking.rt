//! Taking an entry from the bytes that spell it.

ghost use Rattle.byte_fields.specs.Field.{Gives, two};
ghost use Rattle.tree_values.specs.Effects.{touched_all, distinct};
ghost use Rattle.tree_values.specs.Reading.{effects_at, bases_at};
ghost use Rattle.mod_log.specs.Reading.{entry_at};

use crate::log::Entry;
use crate::origin::take_made_by;
use byte_fields::TakeError;
use std::alloc::Global;
use vol_tree::{Bases, Effects};

impl Entry {
    /// Takes the entry of this number at the place, and gives the place after it.
    ///
    /// Refuses `At` with the place of the first faulty field: also at a first byte that is neither 0 nor 1, in a
    /// command that breaks a rule, and where the base list is not that of the paths that the effects touch.
    #[tactic(auto, unfolding(crate::specs::Reading::entry_at))]
    pub fn take(
        alloc: Global,
        bytes: &[u8],
        at: usize,
        seq: u64,
    ) -> Result<(Entry, usize), TakeError>
        ensures { Gives result (entry_at seq bytes.now at) }
    {
        let (origin, start) = take_made_by(alloc, bytes, at)?;
        match take_changes(alloc, bytes, start) {
            Ok(((effects, base), next)) => {
                let entry = Entry {
                    seq,
                    origin,
                    effects,
                    base,
                };
                Ok((entry, next))
            }
            Err(fault) => {
                drop(origin);
                Err(fault)
            }
        }
    }
}

/// Takes effects and the versions of just the paths that they touch, and gives the place after them.
fn take_changes(
    alloc: Global,
    bytes: &[u8],
    at: usize,
) -> Result<((Effects, Bases), usize), TakeError>
    ensures { Gives result (two effects_at (λ es. bases_at (distinct (touched_all es))) (λ es bs. (es, bs)) bytes.now at) }
{
    let (effects, middle) = Effects::take(alloc, bytes, at)?;
    match take_bases(alloc, bytes, middle, &effects) {
        Ok((base, next)) => Ok(((effects, base), next)),
        Err(fault) => {
            drop(effects);
            Err(fault)
        }
    }
}

/// Takes the versions of just the paths that the effects touch, and gives the place after them.
fn take_bases(
    alloc: Global,
    bytes: &[u8],
    at: usize,
    effects: &Effects,
) -> Result<(Bases, usize), TakeError>
    ensures { Gives result (bases_at (distinct (touched_all effects.now)) bytes.now at) }
{
    let touched = effects.touched()?;
    let taken = Bases::take(alloc, bytes, at, &touched);
    drop(touched);
    taken
}
