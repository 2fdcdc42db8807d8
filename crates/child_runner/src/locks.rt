// The lock that a run holds while it lasts, and a removal while it goes on.
use crate::names::lock_place;
use crate::trouble::{RunTrouble, answered, refused};
use folder_reading::are_same;
use std::alloc::AllocGlobal;
use std::fs::{self, File, Files, TryLockError};
use std::io::ErrorKind;
use std::os::unix::fs::{MetadataExt, OpenOptionsExt};

/// What the owner of a lock may do with its file, and no other user.
pub const LOCK_RIGHTS: u32 = 0o600;

/// How often a lock is opened anew whose file another program has just removed.
const MAX_OPENED: u32 = 64;

/// A lock that no other program holds. It ends with this value.
#[derive(Drop)]
pub(crate) struct Lock {
    place: String,
    file: File,
}

impl Lock {
    /// Takes the lock of this user beside the folder; none where it is held, or what is no lock or another user's stands there.
    pub(crate) fn take<R: Files<File = File> + AllocGlobal>(
        host: &R,
        folder: &str,
        user: u32,
    ) -> Result<Option<Lock>, RunTrouble> {
        let place = lock_place(host.alloc(), folder)?;
        match take_at(host, place.as_str(), user) {
            Ok(Some(file)) => Ok(Some(Lock { place, file })),
            Ok(None) => Ok(None),
            Err(error) => {
                drop(place);
                Err(error)
            }
        }
    }

    /// Removes the file, while the lock is still held: who opened it meanwhile sees that it is gone, and opens another.
    pub(crate) fn remove<R: Files + AllocGlobal>(self, host: &R) -> Result<(), RunTrouble> {
        let removed = match is_there(host, self.place.as_str(), &self.file) {
            true => fs::remove_file(host, self.place.as_str()),
            false => Ok(()),
        };
        let removed = answered(host.alloc(), "remove", self.place.as_str(), removed);
        drop(self);
        removed
    }

    /// The place of its file, and the file. The lock lasts as long as anybody has that open.
    pub(crate) fn into_parts(self) -> (String, File) {
        (self.place, self.file)
    }

    /// The number of the device that it stands on.
    pub(crate) fn device<R: AllocGlobal>(&self, host: &R) -> Result<u64, RunTrouble> {
        let seen = self.file.metadata();
        Ok(answered(host.alloc(), "look at", self.place.as_str(), seen)?.dev())
    }
}

/// Locks the file at the place. Between its opening and its locking another program may have removed it, so that it is no longer
/// what stands there: then whatever stands there now is opened.
fn take_at<R: Files<File = File> + AllocGlobal>(
    host: &R,
    place: &str,
    user: u32,
) -> Result<Option<File>, RunTrouble> {
    for _ in 0..MAX_OPENED {
        let Some(file) = open_at(host, place, user)? else {
            return Ok(None);
        };
        if !is_locked(host, place, &file)? {
            return Ok(None);
        }
        if is_there(host, place, &file) {
            return Ok(Some(file));
        }
    }
    Ok(None)
}

/// Whether the file was not locked by another, and is now.
fn is_locked<R: AllocGlobal>(host: &R, place: &str, file: &File) -> Result<bool, RunTrouble> {
    match file.try_lock() {
        Ok(()) => Ok(true),
        Err(TryLockError::WouldBlock) => Ok(false),
        Err(TryLockError::Error(error)) => Err(refused(host.alloc(), "lock", place, error)),
    }
}

/// Opens the file of a lock, which is made where nothing stands there; none where what stands there is another user's, or no file.
fn open_at<R: Files<File = File> + AllocGlobal>(
    host: &R,
    place: &str,
    user: u32,
) -> Result<Option<File>, RunTrouble> {
    for _ in 0..MAX_OPENED {
        let made = File::options()
            .read(true)
            .write(true)
            .create_new(true)
            .mode(LOCK_RIGHTS)
            .open(host, place);
        match made {
            Err(error) if error.kind() == ErrorKind::AlreadyExists => {}
            made => return Ok(Some(answered(host.alloc(), "make", place, made)?)),
        }
        if !is_file(host, place) {
            return Ok(None);
        }
        match File::options().read(true).write(true).open(host, place) {
            Ok(file) => return Ok(own_file(file, user)),
            Err(error) if error.kind() == ErrorKind::NotFound => {}
            Err(error) if error.kind() == ErrorKind::PermissionDenied => return Ok(None),
            Err(error) => return Err(refused(host.alloc(), "open", place, error)),
        }
    }
    Ok(None)
}

/// The file where it is this user's: another user's could be taken from its place while it is locked.
fn own_file(file: File, user: u32) -> Option<File> {
    match file.metadata() {
        Ok(seen) if seen.uid() == user => Some(file),
        Ok(_) => None,
        Err(error) => {
            drop(error);
            None
        }
    }
}

/// Whether a file stands there, or nothing any more.
fn is_file<R: Files>(host: &R, place: &str) -> bool {
    match fs::symlink_metadata(host, place) {
        Ok(seen) => seen.is_file(),
        Err(error) => error.kind() == ErrorKind::NotFound,
    }
}

/// Whether the open file is what stands at the place.
fn is_there<R: Files>(host: &R, place: &str, file: &File) -> bool {
    match (file.metadata(), fs::symlink_metadata(host, place)) {
        (Ok(opened), Ok(seen)) => are_same(&opened, &seen),
        (Ok(_) | Err(_), Ok(_) | Err(_)) => false,
    }
}
