// Images as files.
ghost use Rattle.std.specs.Prelude.{◌≡◌, ◌↔◌, None, Ok, IfOk, IsOk, OnErr, IsErr};
ghost use Rattle.outside.specs.Outside.{Told, CountsFault};
ghost use Rattle.outside.specs.Keeper.{Images, Loads, Saves, Appends};
ghost use Rattle.real_edge.specs.Held.{Holds, HoldsAt, StayHeld};

use crate::lock::HeldLock;
use crate::trouble::{FileStep, Refusal, Trouble, Troubled, Troubles, at};
use outside::{KeepError, Keeper};
use std::alloc::Global;
use std::fs::File;
use std::io::{self, ErrorKind};
use std::rt::Files;

/// Images as files. A save writes beside the old file, under its name with `.new` added, and renames over it. An append writes
/// behind what the file has. Under the name with `.lock` added stands the lock: of all keepers that are alive one alone has it. A
/// keeper has the lock of each image that it was asked for, until it is dropped.
///
/// What it makes is for its owner alone; the rights that a user gave an image stay. What stood under the name with `.new` is removed
/// before, and never written through; what was written there in part, on a full disk, is removed behind it. Where an image is a link,
/// a save puts a file in the link's place.
#[derive(Drop)]
pub struct FileKeeper<'a, R: Files<File = File>> {
    alloc: Global,
    files: &'a R,
    held: Vec<HeldLock>,
    troubles: Troubles,
}

impl<'a, R: Files<File = File>> FileKeeper<'a, R> {
    /// A keeper that has not failed yet. It opens nothing.
    pub fn new(alloc: Global, files: &'a R) -> FileKeeper<'a, R>
        ensures { result.troubles.count ≡ 0 }
    {
        FileKeeper {
            alloc,
            files,
            held: Vec::new(alloc),
            troubles: Troubles::none(),
        }
    }

    /// What failed last; none where no call has failed.
    pub fn trouble(&self) -> Option<&Trouble>
        ensures { (result ≡ None) ↔ (self.now.troubles.count ≡ 0) }
    {
        self.troubles.last()
    }

    /// Takes the image's lock, where it is not held already, and gives its place among those that are held. A call that cannot
    /// take it lets go of none.
    fn hold(&mut self, name: &[u8]) -> Result<usize, Refusal>
        ensures place { IfOk result (λ place. HoldsAt place self.new.held.items name.now) }
        ensures held { IfOk result (λ _. Holds self.new.held.items name.now) }
        ensures still { StayHeld self.old.held.items self.new.held.items }
        ensures once { Holds self.old.held.items name.now → IsOk result × (self.new.held ≡ self.old.held) }
        ensures same { self.new.troubles ≡ self.old.troubles }
    {
        match self.held.iter().position(|held| held.is_of(name)) {
            Some(place) => Ok(place),
            None => self.take_lock(name),
        }
    }

    /// Takes the image's lock, and gives its place, behind those that are held.
    fn take_lock(&mut self, name: &[u8]) -> Result<usize, Refusal>
        ensures place { IfOk result (λ place. HoldsAt place self.new.held.items name.now) }
        ensures still { StayHeld self.old.held.items self.new.held.items }
        ensures same { self.new.troubles ≡ self.old.troubles }
    {
        let place = self.held.len();
        let held = at(FileStep::Lock, HeldLock::take(self.alloc, self.files, name))?;
        at(
            FileStep::Lock,
            self.held.push(held).map_err(io::Error::from),
        )?;
        Ok(place)
    }

    /// Takes the image's lock, and reads the image.
    fn read_image(&mut self, name: &[u8]) -> Result<Option<Vec<u8>>, Refusal>
        ensures held { IfOk result (λ _. Holds self.new.held.items name.now) }
        ensures still { StayHeld self.old.held.items self.new.held.items }
        ensures same { self.new.troubles ≡ self.old.troubles }
    {
        let place = self.hold(name)?;
        at(
            FileStep::Read,
            self.held[place].read(self.alloc, self.files),
        )
    }

    /// Takes the image's lock, and writes the image.
    fn write_image(&mut self, name: &[u8], bytes: &[u8]) -> Result<(), Refusal>
        ensures held { IfOk result (λ _. Holds self.new.held.items name.now) }
        ensures still { StayHeld self.old.held.items self.new.held.items }
        ensures same { self.new.troubles ≡ self.old.troubles }
    {
        let place = self.hold(name)?;
        self.held[place].write(self.alloc, self.files, bytes)
    }

    /// Takes the image's lock, and writes the piece behind the image.
    fn write_piece(&mut self, name: &[u8], piece: &[u8]) -> Result<(), Refusal>
        ensures held { IfOk result (λ _. Holds self.new.held.items name.now) }
        ensures still { StayHeld self.old.held.items self.new.held.items }
        ensures same { self.new.troubles ≡ self.old.troubles }
    {
        let place = self.hold(name)?;
        at(FileStep::Append, self.held[place].append(self.files, piece))
    }
}

/// What came of a call on an image, where a failure is counted and told.
fn counted<T>(
    alloc: Global,
    came: Result<T, Refusal>,
    name: &[u8],
    troubles: &mut Troubles,
) -> Result<T, KeepError>
    ensures ok { IfOk came (λ value. result ≡ Ok value) }
    ensures err { OnErr came (IsErr result) }
    ensures cause { CountsFault KeepError.Failed troubles.old.count troubles.new.count result }
{
    match came {
        Ok(value) => Ok(value),
        Err(refusal) if refusal.error.kind() == ErrorKind::OutOfMemory => Err(KeepError::Memory),
        Err(refusal) => {
            troubles.count(Trouble::OfImage {
                step: refusal.step,
                image: name_of(alloc, name),
                error: refusal.error,
            });
            Err(KeepError::Failed)
        }
    }
}

/// The image's name as text. None of it, where memory for that is wanted.
fn name_of(alloc: Global, name: &[u8]) -> String {
    let copied = str::from_utf8(name).map(|name| String::from_str(alloc, name));
    match copied {
        Ok(Ok(name)) => name,
        _ => String::new(alloc),
    }
}

impl<'a, R: Files<File = File>> Troubled for FileKeeper<'a, R> {
    fn trouble(&self) -> Option<&Trouble> {
        FileKeeper::trouble(self)
    }
}

impl<'a, R: Files<File = File>> Keeper for FileKeeper<'a, R> {
    ghost images = { λ _. None };

    ghost faults = { λ keeper. keeper.troubles.count };

    fn load(&mut self, name: &[u8]) -> Result<Option<Vec<u8>>, KeepError>
        ensures images { Told {A = Images} None None (λ old new. Loads name.now result old new) }
        ensures cause { CountsFault KeepError.Failed self.old.troubles.count self.new.troubles.count result }

        ensures held { IfOk result (λ _. Holds self.new.held.items name.now) }
        ensures still { StayHeld self.old.held.items self.new.held.items }
    {
        let read = self.read_image(name);
        counted(self.alloc, read, name, &mut self.troubles)
    }

    fn save(&mut self, name: &[u8], bytes: &[u8]) -> Result<(), KeepError>
        ensures images { Told {A = Images} None None (λ old new. Saves name.now bytes.now result old new) }
        ensures cause { CountsFault KeepError.Failed self.old.troubles.count self.new.troubles.count result }

        ensures held { IfOk result (λ _. Holds self.new.held.items name.now) }
        ensures still { StayHeld self.old.held.items self.new.held.items }
    {
        let written = self.write_image(name, bytes);
        counted(self.alloc, written, name, &mut self.troubles)
    }

    fn append(&mut self, name: &[u8], piece: &[u8]) -> Result<(), KeepError>
        ensures images { Told {A = Images} None None (λ old new. Appends name.now piece.now result old new) }
        ensures cause { CountsFault KeepError.Failed self.old.troubles.count self.new.troubles.count result }

        ensures held { IfOk result (λ _. Holds self.new.held.items name.now) }
        ensures still { StayHeld self.old.held.items self.new.held.items }
    {
        let written = self.write_piece(name, piece);
        counted(self.alloc, written, name, &mut self.troubles)
    }
}
