// Images that are read, and not touched.
ghost use Rattle.std.specs.Prelude.{◌≡◌, ◌+◌, None, Ok, IfOk, IfSome, OnErr, IsErr, take};
ghost use Rattle.outside.specs.Outside.{Told, CountsFault};
ghost use Rattle.outside.specs.Keeper.{Images, Loads, Saves, Appends};
ghost use Rattle.store_image.specs.declared.image.TheConstants.{MAX_LOADED};

use outside::{KeepError, Keeper};
use real_edge::{FileStep, Trouble, Troubled};
use std::alloc::Global;
use std::fs::File;
use std::io::{self, ErrorKind, Read};
use std::rt::Files;
use store_image::MAX_LOADED;

/// One byte more than a server has to load, so that a file that is longer is read as no image.
const MOST_READ: u64 = MAX_LOADED as u64 + 1;

/// Images as files, for reading alone. It takes no lock, makes no file and removes none, so it reads an image that a running server
/// keeps, too: that puts a whole image in the place of another, or a record behind it, which is no part of it until it is whole.
#[derive(Drop)]
pub(crate) struct ReadKeeper<'a, R: Files<File = File>> {
    alloc: Global,
    files: &'a R,
    faults: u64,
    trouble: Option<Trouble>,
    is_missing: bool,
}

impl<'a, R: Files<File = File>> ReadKeeper<'a, R> {
    /// A keeper that has not failed yet. It opens nothing.
    pub(crate) fn new(alloc: Global, files: &'a R) -> ReadKeeper<'a, R> {
        ReadKeeper {
            alloc,
            files,
            faults: 0,
            trouble: None,
            is_missing: false,
        }
    }

    /// Whether the last load found no image.
    pub(crate) fn is_missing(&self) -> bool {
        self.is_missing
    }

    /// What came of a call, where a failure is counted and told.
    fn counted<T>(
        &mut self,
        step: FileStep,
        came: io::Result<T>,
        name: &[u8],
    ) -> Result<T, KeepError>
        ensures ok { IfOk came (λ value. result ≡ Ok value) }
        ensures err { OnErr came (IsErr result) }
        ensures cause { CountsFault KeepError.Failed self.old.faults self.new.faults result }
    {
        match came {
            Ok(value) => Ok(value),
            Err(error) if error.kind() == ErrorKind::OutOfMemory => Err(KeepError::Memory),
            Err(error) => {
                self.faults = self.faults.saturating_add(1);
                let image = name_of(self.alloc, name);
                self.trouble = Some(Trouble::OfImage { step, image, error });
                Err(KeepError::Failed)
            }
        }
    }
}

/// The name as text. None of it, where memory for that is wanted.
fn name_of(alloc: Global, name: &[u8]) -> String {
    let copied = str::from_utf8(name).map(|name| String::from_str(alloc, name));
    match copied {
        Ok(Ok(name)) => name,
        _ => String::new(alloc),
    }
}

/// Reads the image, where there is one, as far as one may reach.
fn read_image<R: Files<File = File>>(
    alloc: Global,
    files: &R,
    name: &[u8],
) -> io::Result<Option<Vec<u8>>> {
    let name = str::from_utf8(name).map_err(|_| io::Error::from(ErrorKind::InvalidFilename))?;
    match File::open(files, name) {
        Ok(file) => Ok(Some(read_bytes(alloc, file)?)),
        Err(error) if error.kind() == ErrorKind::NotFound => Ok(None),
        Err(error) => Err(error),
    }
}

/// Reads the file's bytes, as far as an image may reach.
fn read_bytes<F: Read + Drop>(alloc: Global, file: F) -> io::Result<Vec<u8>>
    ensures { IfOk result (λ bytes. IfSome (F.remaining file) (λ all. bytes.items ≡ take (MAX_LOADED + 1) all)) }
{
    let mut bytes = Vec::new(alloc);
    match file.take(MOST_READ).read_to_end(&mut bytes) {
        Ok(_count) => Ok(bytes),
        Err(error) => {
            drop(bytes);
            Err(error)
        }
    }
}

/// The refusal of a call that writes.
fn refusal<T>() -> io::Result<T>
    ensures { IsErr result }
{
    Err(io::Error::from(ErrorKind::Unsupported))
}

impl<'a, R: Files<File = File>> Troubled for ReadKeeper<'a, R> {
    fn trouble(&self) -> Option<&Trouble> {
        self.trouble.as_ref()
    }
}

impl<'a, R: Files<File = File>> Keeper for ReadKeeper<'a, R> {
    ghost images = { λ _. None };

    ghost faults = { λ keeper. keeper.faults };

    fn load(&mut self, name: &[u8]) -> Result<Option<Vec<u8>>, KeepError>
        ensures images { Told {A = Images} None None (λ old new. Loads name.now result old new) }
        ensures cause { CountsFault KeepError.Failed self.old.faults self.new.faults result }
    {
        let read = read_image(self.alloc, self.files, name);
        self.is_missing = matches!(&read, Ok(None));
        self.counted(FileStep::Read, read, name)
    }

    /// Is refused, and touches nothing.
    fn save(&mut self, name: &[u8], bytes: &[u8]) -> Result<(), KeepError>
        ensures images { Told {A = Images} None None (λ old new. Saves name.now bytes.now result old new) }
        ensures cause { CountsFault KeepError.Failed self.old.faults self.new.faults result }

        ensures refused { IsErr result }
    {
        self.counted(FileStep::Write, refusal(), name)
    }

    /// Is refused, and touches nothing.
    fn append(&mut self, name: &[u8], piece: &[u8]) -> Result<(), KeepError>
        ensures images { Told {A = Images} None None (λ old new. Appends name.now piece.now result old new) }
        ensures cause { CountsFault KeepError.Failed self.old.faults self.new.faults result }

        ensures refused { IsErr result }
    {
        self.counted(FileStep::Append, refusal(), name)
    }
}
