//! Operations: an entry with sketches in its contents' places, in bytes and from them.

ghost use Rattle.std.specs.Prelude.{◌≡◌, ◌++◌, OnOk};
ghost use Rattle.byte_fields.specs.Field.{Gives};
ghost use Rattle.wire_frames.specs.Operation.{operation, sketches_at, operation_at};

use byte_fields::TakeError;
use mod_log::{Origin, SketchEffects, SketchEntry};
use std::alloc::{AllocError, Global};
use vol_tree::{Bases, MAX_EFFECTS, MAX_FILES};

/// Appends the spelling: the origin, the sketched effects and the base list. The number is not spelled.
pub(crate) fn spell_operation(value: &SketchEntry, out: &mut Vec<u8>) -> Result<(), AllocError>
    ensures { OnOk result (out.new.items ≡ out.old.items ++ operation value.now) }
{
    Origin::spell(&value.origin, out)?;
    SketchEffects::spell(&value.effects, out)?;
    Bases::spell(&value.base, out)
}

/// Takes the operation of this number at the place, and gives the place after it.
#[tactic(auto, unfolding(crate::specs::Operation::operation_at))]
pub(crate) fn operation_at(
    alloc: Global,
    bytes: &[u8],
    at: usize,
    number: u64,
) -> Result<(SketchEntry, usize), TakeError>
    ensures { Gives result (operation_at number bytes.now at) }
{
    let (origin, effects_at) = Origin::take(alloc, bytes, at)?;
    let (sketched, next) = sketches_at(alloc, bytes, effects_at)?;
    let (effects, base) = sketched;
    Ok((
        SketchEntry {
            seq: number,
            origin,
            base,
            effects,
        },
        next,
    ))
}

/// The sketched effects at the place with the base list behind them, and the place after it.
#[tactic(auto, unfolding(crate::specs::Operation::sketches_at))]
fn sketches_at(
    alloc: Global,
    bytes: &[u8],
    at: usize,
) -> Result<((SketchEffects, Bases), usize), TakeError>
    ensures { Gives result (sketches_at bytes.now at) }
{
    let (effects, base_at) = SketchEffects::take_within(
        alloc,
        bytes,
        at,
        MAX_EFFECTS as u32,
        MAX_FILES as u32,
    )?;
    let touched = effects.touched()?;
    let (base, next) = Bases::take(alloc, bytes, base_at, &touched)?;
    Ok(((effects, base), next))
}
