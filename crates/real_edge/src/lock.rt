// The lock beside an image, and what is done with the image under it.
ghost use Rattle.std.specs.Prelude.{◌≡◌, ◌+◌, ◌↔◌, IsTrue, IfOk, IfSome, take};
ghost use Rattle.store_image.specs.declared.image.TheConstants.{MAX_LOADED};

use crate::names::{beside, folder_of, name_text};
use crate::trouble::{FileStep, Refusal, at};
use std::alloc::Global;
use std::fs::{self, File, Files, OpenFile, OpenOptions, Permissions};
use std::io::{self, ErrorKind, Read, Write};
use std::os::unix::fs::OpenOptionsExt;
use store_image::MAX_LOADED;

/// One byte more than a keeper has to load, so that a file that is longer is read as no image.
const MOST_READ: u64 = MAX_LOADED as u64 + 1;

/// Images are read and written by their owner alone.
const OWNERS_ALONE: u32 = 0o600;

/// The lock of an image: its file beside the image, which no other program has locked. It ends with this value. The image is read
/// and written by who has its lock alone.
#[derive(Drop)]
pub(crate) struct HeldLock {
    name: Vec<u8>,
    _file: File,
}

impl HeldLock {
    /// Takes the lock of the image with this name.
    pub(crate) fn take<R: Files<File = File>>(
        alloc: Global,
        files: &R,
        name: &[u8],
    ) -> io::Result<HeldLock>
        ensures { IfOk result (λ held. held.name.items ≡ name.now) }
    {
        let file = lock_beside(alloc, files, name)?;
        match Vec::from_slice(alloc, name) {
            Ok(name) => Ok(HeldLock { name, _file: file }),
            Err(error) => {
                drop(file);
                Err(io::Error::from(error))
            }
        }
    }

    /// Whether it is the lock of the image with this name.
    pub(crate) fn is_of(&self, name: &[u8]) -> bool
        ensures { IsTrue result ↔ self.now.name.items ≡ name.now }
    {
        self.name.as_slice() == name
    }

    /// Reads the image, where there is one.
    pub(crate) fn read<R: Files>(&self, alloc: Global, files: &R) -> io::Result<Option<Vec<u8>>> {
        match File::open(files, name_text(&self.name)?) {
            Ok(file) => Ok(Some(read_bytes(alloc, file)?)),
            Err(error) if error.kind() == ErrorKind::NotFound => Ok(None),
            Err(error) => Err(error),
        }
    }

    /// Writes a file beside the image, and renames it over that.
    pub(crate) fn write<R: Files>(
        &self,
        alloc: Global,
        files: &R,
        bytes: &[u8],
    ) -> Result<(), Refusal> {
        let name = at(FileStep::Write, name_text(&self.name))?;
        let beside = at(
            FileStep::Write,
            beside(alloc, name, ".new").map_err(io::Error::from),
        )?;
        let written = write_over(files, beside.as_str(), name, bytes);
        drop(beside);
        written
    }

    /// Writes the piece behind what the image has; where there is none, it is made.
    pub(crate) fn append<R: Files>(&self, files: &R, piece: &[u8]) -> io::Result<()> {
        let mut file = OpenOptions::new()
            .append(true)
            .create(true)
            .mode(OWNERS_ALONE)
            .open(files, name_text(&self.name)?)?;
        let written = write_down(&mut file, piece);
        drop(file);
        written
    }
}

/// Locks the file that stands for the image with this name.
fn lock_beside<R: Files<File = File>>(alloc: Global, files: &R, name: &[u8]) -> io::Result<File> {
    let path = beside(alloc, name_text(name)?, ".lock")?;
    let locked = lock_file(files, path.as_str());
    drop(path);
    locked
}

/// Opens a file, which is made where there is none, and locks it for as long as it is open.
fn lock_file<R: Files<File = File>>(files: &R, path: &str) -> io::Result<File> {
    let file = OpenOptions::new()
        .write(true)
        .create(true)
        .mode(OWNERS_ALONE)
        .open(files, path)?;
    match file.try_lock() {
        Ok(()) => Ok(file),
        Err(error) => {
            drop(file);
            Err(io::Error::from(error))
        }
    }
}

/// Reads the file's bytes, as far as an image may reach.
fn read_bytes<F: Read + Drop>(alloc: Global, file: F) -> io::Result<Vec<u8>>
    ensures { IfOk result (λ bytes. IfSome (F.remaining file) (λ all. bytes.items ≡ take (MAX_LOADED + 1) all)) }
{
    let mut bytes = Vec::new(alloc);
    match file.take(MOST_READ).read_to_end(&mut bytes) {
        Ok(_count) => Ok(bytes),
        Err(error) => {
            drop(bytes);
            Err(error)
        }
    }
}

/// Writes the file beside an image, and renames it over that.
fn write_over<R: Files>(files: &R, beside: &str, name: &str, bytes: &[u8]) -> Result<(), Refusal> {
    at(FileStep::Write, write_fresh(files, beside, name, bytes))?;
    at(FileStep::Replace, fs::rename(files, beside, name))?;
    at(FileStep::Settle, sync_folder(files, folder_of(name)))
}

/// Writes the file anew, never through a link that stands there. It is for its owner alone, or has the rights of the image. Where
/// writing it fails it is removed, so that it takes no room from others.
fn write_fresh<R: Files>(files: &R, beside: &str, name: &str, bytes: &[u8]) -> io::Result<()> {
    remove_old(files, beside)?;
    let mut file = OpenOptions::new()
        .write(true)
        .create_new(true)
        .mode(OWNERS_ALONE)
        .open(files, beside)?;
    let written = fill(&mut file, rights_of(files, name), bytes);
    drop(file);
    if written.is_err() {
        let _removed = fs::remove_file(files, beside);
    }
    written
}

/// Removes what stands at the name: a file, or a link as a link.
fn remove_old<R: Files>(files: &R, name: &str) -> io::Result<()> {
    match fs::remove_file(files, name) {
        Err(error) if error.kind() == ErrorKind::NotFound => Ok(()),
        removed => removed,
    }
}

/// The rights that the image has, where it is a file, and no link.
fn rights_of<R: Files>(files: &R, name: &str) -> Option<Permissions> {
    match fs::symlink_metadata(files, name) {
        Ok(found) if found.is_file() => Some(found.permissions()),
        _ => None,
    }
}

/// Gives a file that was made these rights, and writes the bytes.
fn fill<F: Write + OpenFile>(
    file: &mut F,
    rights: Option<Permissions>,
    bytes: &[u8],
) -> io::Result<()> {
    if let Some(rights) = rights {
        file.set_permissions(rights)?;
    }
    write_down(file, bytes)
}

/// Writes the bytes, and waits until the platform has written them down.
///
/// # Errors
///
/// The platform's.
pub fn write_down<F: Write + OpenFile>(file: &mut F, bytes: &[u8]) -> io::Result<()> {
    file.write_all(bytes)?;
    file.sync_all()
}

/// Has the platform write down what stands in the folder. One that does so for files alone has done it.
fn sync_folder<R: Files>(files: &R, folder: &str) -> io::Result<()> {
    match File::open(files, folder).and_then(|file| file.sync_all()) {
        Err(error) if is_for_files_alone(&error) => Ok(()),
        synced => synced,
    }
}

/// Whether this is how a platform refuses a folder that is opened, or synced, as a file is.
fn is_for_files_alone(error: &io::Error) -> bool {
    matches!(
        error.kind(),
        ErrorKind::IsADirectory
            | ErrorKind::PermissionDenied
            | ErrorKind::InvalidInput
            | ErrorKind::Unsupported
    )
}
