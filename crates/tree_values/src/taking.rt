//! Taking values from the bytes that spell them, with the place of the first faulty field.

ghost use Rattle.std.specs.Prelude.{◌≡◌, length, ◌≤◌, ◌<◌, ◌^◌, ◌-◌, IfOk};
ghost use Rattle.byte_fields.specs.Field.{Gives, each_at};
ghost use Rattle.tree_values.specs.Limits.{max_files};
ghost use Rattle.tree_values.specs.Tree.{IsTree, total_size};
ghost use Rattle.file_paths.specs.Reading.{path_at, content_at};
ghost use Rattle.tree_values.specs.Reading.{effect_at, effect_in, make_at, put_at, remove_at, move_at};
ghost use Rattle.tree_values.specs.Reading.{mode_at, bit_at, room_after, effects_at, effects_within};
ghost use Rattle.tree_values.specs.Reading.{base_at, first_base_at, others_after, bases_at, may_stand, standing_at, file_at};
ghost use Rattle.tree_values.specs.Reading.{room_beside, next_row_at, with_next, rows_at};

use crate::format::Format;
use crate::limits::{MAX_EFFECTS, MAX_FILES};
use crate::lists::{Bases, Effects};
use crate::node::{Base, Effect};
use byte_fields::{Item, TakeError, take_each, u8_at, u32_at, u64_at};
use file_paths::{Content, MAX_FILE, Path, Paths};
use std::alloc::Global;
use std::marker::Model;

#[tactic(auto, unfolding(crate::specs::Reading::make_at))]
fn make_at(alloc: Global, bytes: &[u8], at: usize) -> Result<(Effect, usize), TakeError>
    ensures { Gives result (make_at bytes.now at) }
{
    let (path, next) = Path::take(alloc, bytes, at)?;
    Ok((Effect::Make(path), next))
}

#[tactic(auto, unfolding(crate::specs::Reading::put_at))]
fn put_at(alloc: Global, bytes: &[u8], at: usize, room: usize) -> Result<(Effect, usize), TakeError>
    ensures { Gives result (put_at room bytes.now at) }
{
    let (path, middle) = Path::take(alloc, bytes, at)?;
    let (content, next) = Content::take_within(alloc, bytes, middle, room.min(MAX_FILE))?;
    Ok((Effect::Put(path, content), next))
}

#[tactic(auto, unfolding(crate::specs::Reading::remove_at))]
fn remove_at(alloc: Global, bytes: &[u8], at: usize) -> Result<(Effect, usize), TakeError>
    ensures { Gives result (remove_at bytes.now at) }
{
    let (path, next) = Path::take(alloc, bytes, at)?;
    Ok((Effect::Remove(path), next))
}

#[tactic(auto, unfolding(crate::specs::Reading::move_at))]
fn move_at(alloc: Global, bytes: &[u8], at: usize) -> Result<(Effect, usize), TakeError>
    ensures { Gives result (move_at bytes.now at) }
{
    let (from, middle) = Path::take(alloc, bytes, at)?;
    let (to, next) = Path::take(alloc, bytes, middle)?;
    Ok((Effect::Move(from, to), next))
}

#[tactic(auto, unfolding(crate::specs::Reading::mode_at))]
fn mode_at(alloc: Global, bytes: &[u8], at: usize) -> Result<(Effect, usize), TakeError>
    ensures { Gives result (mode_at bytes.now at) }
{
    let (path, middle) = Path::take(alloc, bytes, at)?;
    let (exec, next) = bit_at(bytes, middle)?;
    Ok((Effect::Mode(path, exec), next))
}

/// Takes a byte that is 1 for yes and 0 for no, and gives the place after it.
#[tactic(auto, unfolding(crate::specs::Reading::bit_at))]
pub fn bit_at(bytes: &[u8], at: usize) -> Result<(bool, usize), TakeError>
    ensures { Gives result (bit_at bytes.now at) }
{
    let (byte, next) = u8_at(bytes, at)?;
    match byte {
        0 => Ok((false, next)),
        1 => Ok((true, next)),
        _ => Err(TakeError::At(at)),
    }
}

impl Effect {
    /// Takes the effect at the place, as `take_in` does of the second format, where there is room for 32 MiB of content.
    pub fn take(alloc: Global, bytes: &[u8], at: usize) -> Result<(Effect, usize), TakeError>
        ensures { Gives result (effect_at max_files bytes.now at) }
    {
        Effect::take_in(Format::Second, alloc, bytes, at, MAX_FILES)
    }

    /// Takes the effect of a format at the place, where there is still room for so many bytes of content, and gives the
    /// place after it.
    #[tactic(auto, unfolding(crate::specs::Reading::effect_in))]
    pub fn take_in(
        format: Format,
        alloc: Global,
        bytes: &[u8],
        at: usize,
        room: usize,
    ) -> Result<(Effect, usize), TakeError>
        ensures { Gives result (effect_in format room bytes.now at) }
    {
        let (kind, start) = u8_at(bytes, at)?;
        match (kind, format) {
            (1, _) => make_at(alloc, bytes, start),
            (2, _) => put_at(alloc, bytes, start, room),
            (3, _) => remove_at(alloc, bytes, start),
            (4, _) => move_at(alloc, bytes, start),
            (5, Format::Second) => mode_at(alloc, bytes, start),
            _ => Err(TakeError::At(at)),
        }
    }
}

// The state is the bytes of content for which there is still room.
impl Item<usize> for Effect {
    ghost item_at = { effect_at };

    ghost after = { room_after };

    fn take_next(
        alloc: Global,
        bytes: &[u8],
        at: usize,
        room: &mut usize,
    ) -> Result<(Effect, usize), TakeError> {
        let (effect, next) = Effect::take_in(Format::Second, alloc, bytes, at, *room)?;
        *room = room.saturating_sub(effect.content_size() as usize);
        Ok((effect, next))
    }
}

impl Effects {
    /// Takes the effects at the place, and gives the place after them.
    ///
    /// # Errors
    ///
    /// As those of `take_within`, for 1 to 4,096 effects, and 32 MiB for the contents together.
    #[tactic(auto, unfolding(crate::specs::Reading::effects_at))]
    pub fn take(alloc: Global, bytes: &[u8], at: usize) -> Result<(Effects, usize), TakeError>
        ensures { Gives result (effects_at bytes.now at) }
    {
        Effects::take_within(alloc, bytes, at, MAX_EFFECTS as u32, MAX_FILES)
    }

    /// Takes 1 to `most` effects at the place, whose contents have at most `room` bytes together, and gives the place
    /// after them.
    ///
    /// # Errors
    ///
    /// `At` the first faulty field: the count, where it is 0 or above `most`; the length with which the contents have
    /// more than `room` bytes together; or a field of an effect. `Memory` where memory runs out.
    #[tactic(auto, unfolding(crate::specs::Reading::effects_within, byte_fields::specs::Field::ruled))]
    pub fn take_within(
        alloc: Global,
        bytes: &[u8],
        at: usize,
        most: u32,
        room: usize,
    ) -> Result<(Effects, usize), TakeError>
        ensures { Gives result (effects_within most room bytes.now at) }
    {
        let (count, start) = u32_at(bytes, at)?;
        if count < 1 || count > most {
            return Err(TakeError::At(at));
        }
        let mut left = room;
        let (items, next) = take_each::<usize, Effect>(alloc, bytes, start, count, &mut left)?;
        Ok((Effects::from_vec(items), next))
    }
}

/// The version of a path that is known.
#[tactic(auto, unfolding(crate::specs::Reading::base_at, byte_fields::specs::Field::ruled))]
fn base_at(alloc: Global, bytes: &[u8], at: usize, known: &Path) -> Result<(Base, usize), TakeError>
    ensures { Gives result (base_at known.now bytes.now at) }
{
    let (path, middle) = Path::take(alloc, bytes, at)?;
    if !known.cmp(&path).is_eq() {
        return Err(TakeError::At(at));
    }
    let (version, next) = u64_at(bytes, middle)?;
    Ok((Base { path, version }, next))
}

/// The paths whose versions are still to come.
#[derive(Drop)]
struct Known<'a> {
    paths: &'a [Path],
}

impl<'a> Model for Known<'a> {
    ghost use Rattle.std.specs.Prelude.{List};
    ghost use Rattle.file_paths.specs.Path.{FilePath};

    ghost Value = { List FilePath };

    ghost view = { λ known. known.paths.now };
}

impl<'a> Item<Known<'a>> for Base {
    ghost item_at = { first_base_at };

    ghost after = { others_after };

    #[tactic(auto, unfolding(crate::specs::Reading::first_base_at))]
    fn take_next(
        alloc: Global,
        bytes: &[u8],
        at: usize,
        known: &mut Known<'a>,
    ) -> Result<(Base, usize), TakeError> {
        let Some((first, others)) = known.paths.split_first() else {
            return Err(TakeError::At(at));
        };
        let taken = base_at(alloc, bytes, at, first)?;
        known.paths = others;
        Ok(taken)
    }
}

impl Bases {
    /// Takes the versions of the touched paths at the place, and gives the place after them.
    ///
    /// Refuses `At` also at a count other than that of the touched paths, and at the first path that is not the
    /// touched one.
    #[tactic(auto, unfolding(crate::specs::Reading::bases_at, byte_fields::specs::Field::ruled))]
    pub fn take(
        alloc: Global,
        bytes: &[u8],
        at: usize,
        touched: &Paths,
    ) -> Result<(Bases, usize), TakeError>
        ensures { Gives result (bases_at touched.now bytes.now at) }
    {
        let (count, start) = u32_at(bytes, at)?;
        if count as usize != touched.len() {
            return Err(TakeError::At(at));
        }
        let mut known = Known {
            paths: touched.as_slice(),
        };
        let (items, next) = take_each::<Known, Base>(alloc, bytes, start, count, &mut known)?;
        Ok((Bases::from_vec(items), next))
    }
}
