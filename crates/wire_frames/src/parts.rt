//! The entries of a store, in bytes and from them.

ghost use Rattle.std.specs.Prelude.{◌≡◌, ◌-◌, ◌++◌, length, min, OnOk};
ghost use Rattle.std.specs.List.{flat_map, AllByRecursion};
ghost use Rattle.byte_fields.specs.Field.{Gives};
ghost use Rattle.tree_values.specs.Effects.{contents_size};
ghost use Rattle.wire_frames.specs.Parts.{part, parts, PartFits, part_at, room_behind, parts_at, count_rule, PartsFit};

use byte_fields::{Item, TakeError, take_each, u8_at};
use std::alloc::{AllocError, Global};
use vol_tree::{Bases, Effect, Effects, List, MAX_EFFECTS, MAX_FILES, TryCopy};

/// The most entries that a store carries.
pub const MAX_PARTS: usize = 8;

/// An entry as a store carries it: its effects, and the versions that they rest on.
#[derive(Debug, Drop)]
pub struct Part {
    pub effects: Effects,
    pub base: Bases,
}

/// The entries of a store, in order.
pub type Parts = List<Part>;

impl TryCopy for Part {
    fn copy(&self) -> Result<Part, AllocError> {
        Ok(Part {
            effects: self.effects.copy()?,
            base: self.base.copy()?,
        })
    }
}

/// For how many effects, and for how many bytes of content, a store has still room.
#[derive(Drop)]
struct Room {
    effects: u32,
    content: usize,
}

/// How much of the room is left behind the contents of these effects.
fn content_left(room: usize, effects: &[Effect]) -> usize
    ensures { result ≡ room - contents_size effects.now }
{
    let mut left = room;
    for effect in effects {
        left = left.saturating_sub(effect.content_size() as usize);
    }
    left
}

/// The part at the place, where there is still so much room, and the place after it.
#[tactic(auto, unfolding(crate::specs::Parts::part_at))]
fn part_at(alloc: Global, bytes: &[u8], at: usize, room: &Room) -> Result<(Part, usize), TakeError>
    ensures { Gives result (part_at room.now bytes.now at) }
{
    let most = room.effects.min(MAX_EFFECTS as u32);
    let content = room.content.min(MAX_FILES);
    let (effects, middle) = Effects::take_within(alloc, bytes, at, most, content)?;
    let touched = effects.touched()?;
    let (base, next) = Bases::take(alloc, bytes, middle, &touched)?;
    Ok((Part { effects, base }, next))
}

// The state is the room that the parts before leave.
impl Item<Room> for Part {
    ghost item_at = { part_at };

    ghost after = { room_behind };

    fn take_next(
        alloc: Global,
        bytes: &[u8],
        at: usize,
        room: &mut Room,
    ) -> Result<(Part, usize), TakeError> {
        let (part, next) = part_at(alloc, bytes, at, room)?;
        let effects = part.effects.as_slice();
        room.effects = room.effects.saturating_sub(effects.len() as u32);
        room.content = content_left(room.content, effects);
        Ok((part, next))
    }
}

/// Whether so many entries may stand behind a number.
fn takes_count(number: u64, count: u8) -> bool
    ensures { result ≡ count_rule number count }
{
    count >= 1 && count <= MAX_PARTS as u8 && number <= u64::MAX - (count as u64 - 1)
}

/// Takes the entries of the store with this number at the place, and gives the place after them.
#[tactic(auto, unfolding(crate::specs::Parts::parts_at, byte_fields::specs::Field::ruled))]
pub(crate) fn parts_at(
    alloc: Global,
    bytes: &[u8],
    at: usize,
    number: u64,
) -> Result<(Parts, usize), TakeError>
    ensures { Gives result (parts_at number bytes.now at) }
{
    let (count, start) = u8_at(bytes, at)?;
    if !takes_count(number, count) {
        return Err(TakeError::At(at));
    }
    let mut room = Room {
        effects: MAX_EFFECTS as u32,
        content: MAX_FILES,
    };
    let (items, next) = take_each::<Room, Part>(alloc, bytes, start, count as u32, &mut room)?;
    Ok((Parts::from_vec(items), next))
}

/// Appends the spellings of the entries, behind their number.
pub(crate) fn spell_parts(number: u64, entries: &Parts, out: &mut Vec<u8>) -> Result<(), AllocError>
    requires { PartsFit number entries.now }
    ensures { OnOk result (out.new.items ≡ out.old.items ++ parts entries.now) }
{
    out.extend_from_slice(&[entries.len() as u8])?;
    spell_each(entries.as_slice(), out)
}

/// Appends the spellings of these entries.
fn spell_each(entries: &[Part], out: &mut Vec<u8>) -> Result<(), AllocError>
    requires { AllByRecursion PartFits entries.now }
    ensures { OnOk result (out.new.items ≡ out.old.items ++ flat_map part entries.now) }
{
    for entry in entries {
        spell_part(entry, out)?;
    }
    Ok(())
}

/// Appends the spelling of an entry.
fn spell_part(entry: &Part, out: &mut Vec<u8>) -> Result<(), AllocError>
    requires { PartFits entry.now }
    ensures { OnOk result (out.new.items ≡ out.old.items ++ part entry.now) }
{
    Effects::spell(&entry.effects, out)?;
    Bases::spell(&entry.base, out)
}
