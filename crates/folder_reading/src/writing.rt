// The rows of a job, written down, each with the same time of change. Who may run a file is its owner, or nobody.
ghost use Rattle.std.specs.Prelude.{◌≡◌, Some, IfSome};
ghost use Rattle.std.specs.Time.{system_time_nanos};
ghost use Rattle.folder_reading.specs.Inputs.{input_nanos};

use crate::found::OWNER_RUNS;
use crate::opening::ALL_RIGHTS;
use crate::texts::place_in;
use crate::trouble::{HostTrouble, answered, refused};
use cmd_capture::JobRow;
use std::alloc::AllocGlobal;
use std::fs::{self, File, Files, Permissions};
use std::io::{self, Write};
use std::os::unix::fs::{MetadataExt, PermissionsExt};
use std::time::{Duration, SystemTime, UNIX_EPOCH};
use tree_values::Node;

/// When all inputs of a run were changed, in seconds since 1970: 1 January 2000, 00:00 UTC.
pub const INPUT_SECONDS: u64 = 946_684_800;

/// Makes the folders and files of the rows in the folder, in their order, and gives all of them one time. Rows whose paths are no texts
/// are passed over.
pub fn write_rows<R: Files<File = File> + AllocGlobal>(
    host: &R,
    folder: &str,
    rows: &[JobRow],
) -> Result<(), HostTrouble> {
    for row in rows {
        write_row(host, folder, row)?;
    }
    // what is made in a folder changes its time, and so folders come behind all that they hold
    for row in rows.iter().rev() {
        date_folder(host, folder, row)?;
    }
    answered(host.alloc(), "date", folder, set_time(host, folder))
}

fn write_row<R: Files<File = File> + AllocGlobal>(
    host: &R,
    folder: &str,
    row: &JobRow,
) -> Result<(), HostTrouble> {
    let text = row.path.text()?;
    let Ok(path) = str::from_utf8(text.bytes()) else {
        return Ok(());
    };
    let place = place_in(host.alloc(), folder, path)?;
    let written = match &row.node {
        Node::Folder => fs::create_dir(host, place.as_str()),
        Node::File { content, exec } => write_file(host, place.as_str(), content.bytes(), *exec),
    };
    answered(host.alloc(), "make", path, written)
}

/// Writes a file that was not there, which may be run or not.
fn write_file<R: Files<File = File>>(
    host: &R,
    place: &str,
    bytes: &[u8],
    exec: bool,
) -> io::Result<()> {
    let mut file = File::create_new(host, place)?;
    file.write_all(bytes)?;
    if exec {
        allow_running(&file)?;
    }
    file.set_modified(input_time())
}

/// Lets the file's owner run it. Its other rights stay as it was made with, where nobody may run it.
fn allow_running(file: &File) -> io::Result<()> {
    let rights = file.metadata()?.mode() & ALL_RIGHTS;
    file.set_permissions(Permissions::from_mode(rights | OWNER_RUNS))
}

/// Gives the row its time, where it is a folder.
fn date_folder<R: Files<File = File> + AllocGlobal>(
    host: &R,
    folder: &str,
    row: &JobRow,
) -> Result<(), HostTrouble> {
    match &row.node {
        Node::Folder => {
            let text = row.path.text()?;
            let Ok(path) = str::from_utf8(text.bytes()) else {
                return Ok(());
            };
            let place = place_in(host.alloc(), folder, path)?;
            match set_time(host, place.as_str()) {
                Ok(()) => Ok(()),
                Err(error) => Err(refused(host.alloc(), "date", path, error)),
            }
        }
        Node::File { .. } => Ok(()),
    }
}

fn set_time<R: Files<File = File>>(host: &R, folder: &str) -> io::Result<()> {
    File::open(host, folder)?.set_modified(input_time())
}

/// The time of change of all inputs.
fn input_time() -> SystemTime
    ensures { system_time_nanos result ≡ input_nanos }
{
    UNIX_EPOCH + Duration::from_secs(INPUT_SECONDS)
}
