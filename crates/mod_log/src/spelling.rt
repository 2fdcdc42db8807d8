//! Spelling sketched effects in bytes, and taking them from the bytes.

ghost use Rattle.std.specs.Prelude.{◌≡◌, ◌++◌, ◌∷◌, ◌<◌, ◌^◌, length, OnOk, OnErr};
ghost use Rattle.byte_fields.specs.Field.{Gives, IsFront, one, two};
ghost use Rattle.file_paths.specs.Reading.{path_at};
ghost use Rattle.file_paths.specs.Spelling.{path};
ghost use Rattle.tree_values.specs.Limits.{max_effects, max_files};
ghost use Rattle.tree_values.specs.Reading.{bit_at};
ghost use Rattle.tree_values.specs.Spelling.{bit};
ghost use Rattle.rs_parity.specs.Spelling.{sketch_spelling};
ghost use Rattle.mod_log.specs.Spelling.{sketch_effect, sketch_effects};
ghost use Rattle.mod_log.specs.Reading.{sketch_put_at, sketch_effect_at, sketch_room_after, sketch_effects_within};
ghost use Rattle.mod_log.specs.declared.sketched.SketchEffect.TheVariants.{Make, Remove, Move, Mode};

use crate::sketched::{SketchEffect, SketchEffects};
use byte_fields::{Item, Spelled, TakeError, put_each, put_u32, take_each, u8_at, u32_at};
use rs_parity::Sketch;
use std::alloc::{AllocError, Global};
use vol_tree::{MAX_EFFECTS, MAX_FILES, Path, bit_at, spell_bit};

impl SketchEffect {
    /// Appends the spelling: a byte for the kind, and the paths and the sketch.
    ///
    /// # Errors
    ///
    /// `AllocError` where memory runs out. A front of the spelling is then appended.
    pub fn spell(value: &SketchEffect, out: &mut Vec<u8>) -> Result<(), AllocError>
        ensures ok { OnOk result (out.new.items ≡ out.old.items ++ sketch_effect value.now) }
        ensures err { OnErr result (IsFront out.old.items out.new.items (sketch_effect value.now)) }
    {
        match value {
            SketchEffect::Make(path) => put_path(1, path, out),
            SketchEffect::Put(path, sketch) => put_sketched(path, sketch, out),
            SketchEffect::Remove(path) => put_path(3, path, out),
            SketchEffect::Move(from, to) => put_paths(from, to, out),
            SketchEffect::Mode(path, exec) => put_mode(path, *exec, out),
        }
    }

    /// Takes the sketched effect at the place, and gives the place after it.
    ///
    /// # Errors
    ///
    /// As those of `take_within`, with room for 32 MiB.
    pub fn take(alloc: Global, bytes: &[u8], at: usize) -> Result<(SketchEffect, usize), TakeError>
        ensures { Gives result (sketch_effect_at max_files bytes.now at) }
    {
        SketchEffect::take_within(alloc, bytes, at, MAX_FILES as u32)
    }

    /// Takes the sketched effect at the place, where there is still room for so many bytes of content, and gives the
    /// place after it.
    ///
    /// # Errors
    ///
    /// `At` the first faulty field: also a kind that is not 1 to 5, and a length above the room or above 8 MiB. Want
    /// of memory.
    #[tactic(auto, unfolding(crate::specs::Reading::sketch_effect_at))]
    pub fn take_within(
        alloc: Global,
        bytes: &[u8],
        at: usize,
        room: u32,
    ) -> Result<(SketchEffect, usize), TakeError>
        ensures { Gives result (sketch_effect_at room bytes.now at) }
    {
        let (kind, start) = u8_at(bytes, at)?;
        match kind {
            1 => make_at(alloc, bytes, start),
            2 => put_at(alloc, bytes, start, room),
            3 => remove_at(alloc, bytes, start),
            4 => move_at(alloc, bytes, start),
            5 => mode_at(alloc, bytes, start),
            _ => Err(TakeError::At(at)),
        }
    }
}

/// Appends a kind and the path that it names.
fn put_path(kind: u8, value: &Path, out: &mut Vec<u8>) -> Result<(), AllocError>
    ensures ok { OnOk result (out.new.items ≡ out.old.items ++ (kind ∷ path value.now)) }
    ensures err { OnErr result (IsFront out.old.items out.new.items (kind ∷ path value.now)) }
{
    out.push(kind)?;
    Path::spell(value, out)
}

/// Appends the kind of a put, its path and the sketch of its content.
fn put_sketched(at: &Path, sketch: &Sketch, out: &mut Vec<u8>) -> Result<(), AllocError>
    ensures ok { OnOk result (out.new.items ≡ out.old.items ++ (2 ∷ (path at.now ++ sketch_spelling sketch.now))) }
    ensures err { OnErr result (IsFront out.old.items out.new.items (2 ∷ (path at.now ++ sketch_spelling sketch.now))) }
{
    put_path(2, at, out)?;
    Sketch::spell(sketch, out)
}

/// Appends the kind of a move and its paths.
fn put_paths(from: &Path, to: &Path, out: &mut Vec<u8>) -> Result<(), AllocError>
    ensures ok { OnOk result (out.new.items ≡ out.old.items ++ (4 ∷ (path from.now ++ path to.now))) }
    ensures err { OnErr result (IsFront out.old.items out.new.items (4 ∷ (path from.now ++ path to.now))) }
{
    put_path(4, from, out)?;
    Path::spell(to, out)
}

/// Appends the kind of a change of mode, its path, and whether the file may be run.
fn put_mode(at: &Path, exec: bool, out: &mut Vec<u8>) -> Result<(), AllocError>
    ensures ok { OnOk result (out.new.items ≡ out.old.items ++ (5 ∷ (path at.now ++ bit exec))) }
    ensures err { OnErr result (IsFront out.old.items out.new.items (5 ∷ (path at.now ++ bit exec))) }
{
    put_path(5, at, out)?;
    spell_bit(exec, out)
}

fn make_at(alloc: Global, bytes: &[u8], at: usize) -> Result<(SketchEffect, usize), TakeError>
    ensures { Gives result (one path_at Make bytes.now at) }
{
    let (path, next) = Path::take(alloc, bytes, at)?;
    Ok((SketchEffect::Make(path), next))
}

fn put_at(
    alloc: Global,
    bytes: &[u8],
    at: usize,
    room: u32,
) -> Result<(SketchEffect, usize), TakeError>
    ensures { Gives result (sketch_put_at room bytes.now at) }
{
    let (path, middle) = Path::take(alloc, bytes, at)?;
    let (sketch, next) = Sketch::take_within(alloc, bytes, middle, room)?;
    Ok((SketchEffect::Put(path, sketch), next))
}

fn remove_at(alloc: Global, bytes: &[u8], at: usize) -> Result<(SketchEffect, usize), TakeError>
    ensures { Gives result (one path_at Remove bytes.now at) }
{
    let (path, next) = Path::take(alloc, bytes, at)?;
    Ok((SketchEffect::Remove(path), next))
}

fn move_at(alloc: Global, bytes: &[u8], at: usize) -> Result<(SketchEffect, usize), TakeError>
    ensures { Gives result (two path_at (λ from. path_at) Move bytes.now at) }
{
    let (from, middle) = Path::take(alloc, bytes, at)?;
    let (to, next) = Path::take(alloc, bytes, middle)?;
    Ok((SketchEffect::Move(from, to), next))
}

fn mode_at(alloc: Global, bytes: &[u8], at: usize) -> Result<(SketchEffect, usize), TakeError>
    ensures { Gives result (two path_at (λ path. bit_at) Mode bytes.now at) }
{
    let (path, middle) = Path::take(alloc, bytes, at)?;
    let (exec, next) = bit_at(bytes, middle)?;
    Ok((SketchEffect::Mode(path, exec), next))
}

impl Spelled for SketchEffect {
    ghost spelling = { sketch_effect };

    ghost fits = { λ _. Unit {0} };

    fn put(&self, out: &mut Vec<u8>) -> Result<(), AllocError> {
        SketchEffect::spell(self, out)
    }
}

// The state is the bytes of content for which there is still room.
impl Item<u32> for SketchEffect {
    ghost item_at = { sketch_effect_at };

    ghost after = { sketch_room_after };

    fn take_next(
        alloc: Global,
        bytes: &[u8],
        at: usize,
        room: &mut u32,
    ) -> Result<(SketchEffect, usize), TakeError> {
        let (effect, next) = SketchEffect::take_within(alloc, bytes, at, *room)?;
        *room = room.saturating_sub(effect.content_size());
        Ok((effect, next))
    }
}

impl SketchEffects {
    /// Appends the spelling: four bytes for the number of sketched effects, and the sketched effects.
    ///
    /// # Errors
    ///
    /// `AllocError` where memory runs out. A front of the spelling is then appended.
    pub fn spell(value: &SketchEffects, out: &mut Vec<u8>) -> Result<(), AllocError>
        ensures ok { OnOk result (out.new.items ≡ out.old.items ++ sketch_effects value.now) }
        ensures err { OnErr result (IsFront out.old.items out.new.items (sketch_effects value.now)) }
    {
        let items = value.as_slice();
        put_u32(out, value.len() as u32)?;
        put_each(items, out)
    }

    /// Takes the sketched effects at the place, and gives the place after them.
    ///
    /// # Errors
    ///
    /// As those of `take_within`, for 1 to 4,096 sketched effects, and 32 MiB for the contents together.
    pub fn take(alloc: Global, bytes: &[u8], at: usize) -> Result<(SketchEffects, usize), TakeError>
        ensures { Gives result (sketch_effects_within max_effects max_files bytes.now at) }
    {
        SketchEffects::take_within(alloc, bytes, at, MAX_EFFECTS as u32, MAX_FILES as u32)
    }

    /// Takes 1 to `most` sketched effects, for contents of at most `room` bytes together, from the place, and gives
    /// the place after them.
    ///
    /// # Errors
    ///
    /// `At` the first faulty field: also another count, and the length with which the contents have more than `room`
    /// bytes. Want of memory.
    #[tactic(auto, unfolding(crate::specs::Reading::sketch_effects_within, byte_fields::specs::Field::ruled))]
    pub fn take_within(
        alloc: Global,
        bytes: &[u8],
        at: usize,
        most: u32,
        room: u32,
    ) -> Result<(SketchEffects, usize), TakeError>
        ensures { Gives result (sketch_effects_within most room bytes.now at) }
    {
        let (count, start) = u32_at(bytes, at)?;
        if count < 1 || count > most {
            return Err(TakeError::At(at));
        }
        let mut left = room;
        let (items, next) = take_each::<u32, SketchEffect>(alloc, bytes, start, count, &mut left)?;
        Ok((SketchEffects::from_vec(items), next))
    }
}
