// A file that is opened to be read back. What the command left running may put something else in its place at any time.
use crate::sameness::are_same;
use crate::trouble::{HostTrouble, answered, odd, refused};
use std::alloc::AllocGlobal;
use std::fs::{self, File, Files, Metadata, Permissions};
use std::io::{self, ErrorKind};
use std::os::unix::fs::{MetadataExt, PermissionsExt};

/// The rights that a file is given to be read back.
const READING_RIGHTS: u32 = 0o600;

/// The rights that a folder is given to be listed.
const LISTING_RIGHTS: u32 = 0o700;

/// All rights that a file can have.
pub(crate) const ALL_RIGHTS: u32 = 0o7777;

/// The system's number of the error that a program which runs is not to be written.
const IS_RUN: i32 = 26;

/// Opens the file at the place, which was seen there, and has this path: whatever is opened is that file, before a byte of it is read.
pub(crate) fn open_seen<R: Files<File = File> + AllocGlobal>(
    host: &R,
    place: &str,
    path: &str,
    seen: &Metadata,
) -> Result<File, HostTrouble> {
    let file = match open_both(host, place) {
        Err(error) if error.kind() == ErrorKind::PermissionDenied => {
            give_rights(host, place, path, seen)?;
            open_both(host, place)
        }
        Err(error) if error.raw_os_error() == Some(IS_RUN) => File::open(host, place),
        opened => opened,
    };
    let file = answered(host.alloc(), "open", path, file)?;
    match file.metadata() {
        Ok(opened) if opened.is_file() && are_same(&opened, seen) => Ok(file),
        Ok(_) => Err(changed(host, path)),
        Err(error) => Err(refused(host.alloc(), "look at", path, error)),
    }
}

/// Opens for reading and writing: so the opening of a pipe that nobody writes does not wait.
fn open_both<R: Files<File = File>>(host: &R, place: &str) -> io::Result<File> {
    File::options().read(true).write(true).open(host, place)
}

/// Gives the file that was seen its owner's rights.
fn give_rights<R: Files<File = File> + AllocGlobal>(
    host: &R,
    place: &str,
    path: &str,
    seen: &Metadata,
) -> Result<(), HostTrouble> {
    let now = answered(
        host.alloc(),
        "look at",
        path,
        fs::symlink_metadata(host, place),
    )?;
    if !now.is_file() || !are_same(&now, seen) {
        return Err(changed(host, path));
    }
    let rights = (now.mode() & ALL_RIGHTS) | READING_RIGHTS;
    let given = fs::set_permissions(host, place, Permissions::from_mode(rights));
    answered(host.alloc(), "open", path, given)
}

/// Gives the folder that was seen its owner's rights, where it has not all of them.
pub(crate) fn open_folder<R: Files + AllocGlobal>(
    host: &R,
    place: &str,
    path: &str,
    seen: &Metadata,
) -> Result<(), HostTrouble> {
    let rights = seen.mode() & ALL_RIGHTS;
    if rights & LISTING_RIGHTS == LISTING_RIGHTS {
        return Ok(());
    }
    let all = Permissions::from_mode(rights | LISTING_RIGHTS);
    let given = fs::set_permissions(host, place, all);
    answered(host.alloc(), "open", path, given)
}

/// Something else stands at the path.
fn changed<R: AllocGlobal>(host: &R, path: &str) -> HostTrouble {
    odd(host.alloc(), path, "changed while it was read")
}
