// A keeper in memory.
ghost use Rattle.std.specs.Prelude.{◌≡◌, ◌↔◌, [], None, Some, position, IfOk, OnOk, OnErr, IsErr, IsErrOf, IsTrue};
ghost use Rattle.std.specs.Option.{option_copied};
ghost use Rattle.outside.specs.Outside.{Told, CountsFault};
ghost use Rattle.outside.specs.Keeper.{IsPut, Loads, Saves, Appends, followed_by};
ghost use Rattle.outside.specs.Memory.{after_call};
ghost use Rattle.outside.specs.MemoryKeeper.{KeeperInMemory, has_name, images_of, fail_of, keeping_fails_now, has_failed, SavesAs};
ghost use Rattle.outside.specs.MemoryKeeper.{left_of, AppendsAs};

use crate::calls::Calls;
use crate::{KeepError, Keeper};
use std::alloc::{AllocError, Global};
use std::marker::Model;

/// A call of a keeper that fails, counted from 0 over all its calls.
#[derive(Clone, Copy, Debug, PartialEq, Eq)]
pub struct KeepFail {
    pub call: u32,
    /// Whether the call leaves the new image, where it is a save, and the whole piece, where it is an append.
    pub leaves_new: bool,
    /// How many bytes of its piece an append leaves that does not leave the whole: at most all.
    pub part: u32,
}

/// An image beside its name.
#[derive(Drop)]
struct NamedImage {
    name: Vec<u8>,
    image: Vec<u8>,
}

/// A keeper of images in memory. Contracts see what is kept, the calls made, which of them fail, and the faults.
#[derive(Drop)]
pub struct MemKeeper {
    slots: Vec<NamedImage>,
    fails: Vec<KeepFail>,
    calls: Calls,
}

impl Model for MemKeeper {
    ghost Value = { KeeperInMemory };

    ghost view = { λ k. record { slots = k.slots.items; fails = k.fails.items; calls = k.calls } };
}

impl MemKeeper {
    /// A keeper of nothing that fails in the named calls, counted from 0 over all its calls.
    pub fn new(alloc: Global, fails: Vec<KeepFail>) -> MemKeeper
        ensures { result ≡ record { slots = []; fails = fails.items; calls = record { made = 0; faults = 0 } } }
    {
        MemKeeper {
            slots: Vec::new(alloc),
            fails,
            calls: Calls::new(),
        }
    }

    /// The image that is kept under the name.
    pub fn image(&self, name: &[u8]) -> Option<&[u8]>
        ensures { option_copied result ≡ images_of self.now.slots name.now }
    {
        image_of(&self.slots, name)
    }
}

fn image_of<'a>(slots: &'a [NamedImage], name: &[u8]) -> Option<&'a [u8]>
    ensures { option_copied result ≡ images_of slots.now name.now }
{
    match slots.iter().find(|slot| slot.name.as_slice() == name) {
        Some(slot) => Some(slot.image.as_slice()),
        None => None,
    }
}

/// How the call fails, where it is a named one.
fn fail_of(fails: &[KeepFail], call: u64) -> Option<&KeepFail>
    ensures { option_copied result ≡ fail_of fails.now call }
{
    fails.iter().find(|fail| u64::from(fail.call) == call)
}

/// What a call that fails so leaves of the piece that it appends.
fn left_of<'a>(fail: &KeepFail, piece: &'a [u8]) -> &'a [u8]
    ensures { result.now ≡ left_of fail.now piece.now }
{
    if fail.leaves_new {
        return piece;
    }
    &piece[..piece.len().min(fail.part as usize)]
}

impl Keeper for MemKeeper {
    ghost images = { λ k. Some (images_of k.slots) };

    ghost faults = { λ k. k.calls.faults };

    /// Gives a copy of the image, but in the named calls.
    fn load(&mut self, name: &[u8]) -> Result<Option<Vec<u8>>, KeepError>
        ensures images { Told (Some (images_of self.old.slots)) (Some (images_of self.new.slots))
            (λ old new. Loads name.now result old new) }
        ensures cause { CountsFault KeepError.Failed self.old.calls.faults self.new.calls.faults result }

        ensures exactly { IsErrOf result KeepError.Failed ↔ IsTrue (keeping_fails_now self.old) }
        ensures counted { self.new ≡ record self.old { calls = after_call (has_failed result) self.old.calls } }
    {
        let call = self.calls.count();
        if fail_of(&self.fails, call).is_some() {
            self.calls.fail();
            return Err(KeepError::Failed);
        }
        match image_of(&self.slots, name) {
            Some(image) => Ok(Some(image.to_vec(*self.slots.allocator())?)),
            None => Ok(None),
        }
    }

    /// Keeps a copy of the image, but in the named calls.
    fn save(&mut self, name: &[u8], image: &[u8]) -> Result<(), KeepError>
        ensures images { Told (Some (images_of self.old.slots)) (Some (images_of self.new.slots))
            (λ old new. Saves name.now image.now result old new) }
        ensures cause { CountsFault KeepError.Failed self.old.calls.faults self.new.calls.faults result }

        ensures exactly { IsErrOf result KeepError.Failed → IsTrue (keeping_fails_now self.old) }
        // A named call fails, or memory ran out before the image that it leaves was there.
        ensures always { IsTrue (keeping_fails_now self.old) → IsErr result }
        ensures left { SavesAs name.now image.now result self.old self.new.slots }
        ensures counted { self.new ≡ record self.old { slots = self.new.slots; calls = after_call (has_failed result) self.old.calls } }
    {
        let call = self.calls.count();
        match fail_of(&self.fails, call) {
            None => {
                put(&mut self.slots, name, image)?;
                Ok(())
            }
            Some(fail) => {
                if fail.leaves_new {
                    put(&mut self.slots, name, image)?;
                }
                self.calls.fail();
                Err(KeepError::Failed)
            }
        }
    }

    /// Puts a copy of the piece behind what is kept; in the named calls a copy of what they leave of it.
    fn append(&mut self, name: &[u8], piece: &[u8]) -> Result<(), KeepError>
        ensures images { Told (Some (images_of self.old.slots)) (Some (images_of self.new.slots))
            (λ old new. Appends name.now piece.now result old new) }
        ensures cause { CountsFault KeepError.Failed self.old.calls.faults self.new.calls.faults result }

        ensures exactly { IsErrOf result KeepError.Failed → IsTrue (keeping_fails_now self.old) }
        // A named call fails, or memory ran out before what it leaves was there.
        ensures always { IsTrue (keeping_fails_now self.old) → IsErr result }
        ensures left { AppendsAs name.now piece.now result self.old self.new.slots }
        ensures counted { self.new ≡ record self.old { slots = self.new.slots; calls = after_call (has_failed result) self.old.calls } }
    {
        let call = self.calls.count();
        match fail_of(&self.fails, call) {
            None => {
                add(&mut self.slots, name, piece)?;
                Ok(())
            }
            Some(fail) => {
                add(&mut self.slots, name, left_of(fail, piece))?;
                self.calls.fail();
                Err(KeepError::Failed)
            }
        }
    }
}

/// Keeps a copy of the piece under the name, behind what is kept there.
fn add(slots: &mut Vec<NamedImage>, name: &[u8], piece: &[u8]) -> Result<(), AllocError>
    ensures ok { OnOk result
        (IsPut name.now (followed_by piece.now (images_of slots.old.items name.now)) (images_of slots.old.items)
        (images_of slots.new.items)) }
    ensures err { OnErr result (slots.new.items ≡ slots.old.items) }
{
    let whole = followed_by(slots, name, piece)?;
    put(slots, name, &whole)
}

/// A copy of what is kept under the name, and of the piece behind it.
fn followed_by(slots: &Vec<NamedImage>, name: &[u8], piece: &[u8]) -> Result<Vec<u8>, AllocError>
    ensures { IfOk result (λ whole. whole.items ≡ followed_by piece.now (images_of slots.now.items name.now)) }
{
    let alloc = *slots.allocator();
    let mut whole = match image_of(slots, name) {
        Some(image) => image.to_vec(alloc)?,
        None => Vec::new(alloc),
    };
    whole.extend_from_slice(piece)?;
    Ok(whole)
}

/// Keeps a copy of the image under the name, in place of what is kept there.
fn put(slots: &mut Vec<NamedImage>, name: &[u8], image: &[u8]) -> Result<(), AllocError>
    ensures ok { OnOk result (IsPut name.now image.now (images_of slots.old.items) (images_of slots.new.items)) }
    ensures err { OnErr result (slots.new.items ≡ slots.old.items) }
{
    let alloc = *slots.allocator();
    let image = image.to_vec(alloc)?;
    match place_of(slots, name) {
        Some(i) => slots[i].image = image,
        None => {
            let name = name.to_vec(alloc)?;
            slots.push(NamedImage { name, image })?;
        }
    }
    Ok(())
}

/// Where the slot of this name stands.
fn place_of(slots: &[NamedImage], name: &[u8]) -> Option<usize>
    ensures { result ≡ position (has_name name.now) slots.now }
{
    slots.iter().position(|slot| slot.name.as_slice() == name)
}
