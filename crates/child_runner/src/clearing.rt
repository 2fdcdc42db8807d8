// What programs left behind that did not end by themselves.
use crate::limits::Stopwatch;
use crate::locks::Lock;
use crate::names::{lock_place, run_of};
use crate::removing::{
    Left, MAX_LEFT, NO_REMOVER, can_remove, left_place, put_aside, removal_watch, stands,
};
use crate::texts::place_in;
use crate::trouble::{RunTrouble, odd, refused};
use crate::works::Work;
use std::alloc::AllocGlobal;
use std::fs::{self, DirEntry, File, Files};
use std::io::{self, Eprint, ErrorKind};
use std::os::unix::fs::MetadataExt;
use std::process::Processes;
use std::time::Clock;

/// Removes the folders and locks of runs in `work` whose lock nobody holds, and what waits there for a removal that nobody does, all in
/// one time: what is not removed by then is removed beside. The first trouble is told once all have been tried.
pub(crate) fn remove_left<R: Files<File = File> + Processes + AllocGlobal + Clock + Eprint>(
    host: &R,
    work: &Work<'_>,
) -> Result<(), RunTrouble> {
    let watch = removal_watch(host)?;
    let waiting = remove_waiting(host, work, &watch);
    let runs = remove_runs(host, work, &watch);
    first_of(waiting, runs)
}

/// The first trouble of the two.
fn first_of(one: Result<(), RunTrouble>, other: Result<(), RunTrouble>) -> Result<(), RunTrouble> {
    one?;
    other
}

fn remove_runs<R: Files<File = File> + Processes + AllocGlobal + Clock + Eprint>(
    host: &R,
    work: &Work<'_>,
    watch: &Stopwatch,
) -> Result<(), RunTrouble> {
    let entries = match fs::read_dir(&host, work.place) {
        Ok(entries) => entries,
        Err(error) if error.kind() == ErrorKind::NotFound => return Ok(()),
        Err(error) => return Err(refused(host.alloc(), "read", work.place, error)),
    };
    let mut removed = Ok(());
    for entry in entries {
        removed = first_of(removed, remove_entry(host, work, entry, watch));
    }
    removed
}

fn remove_entry<R: Files<File = File> + Processes + AllocGlobal + Clock + Eprint>(
    host: &R,
    work: &Work<'_>,
    entry: io::Result<DirEntry<&R>>,
    watch: &Stopwatch,
) -> Result<(), RunTrouble> {
    match entry {
        Ok(entry) => match run_of(entry.file_name()) {
            Some(folder) => {
                let folder = place_in(host.alloc(), work.place, folder)?;
                remove_run(host, work, folder.as_str(), watch)
            }
            None => Ok(()),
        },
        // such a name is none of a run
        Err(error) if error.kind() == ErrorKind::InvalidFilename => Ok(()),
        Err(error) => Err(refused(host.alloc(), "read", work.place, error)),
    }
}

/// Puts the folder aside and removes it and its lock, where nobody holds that.
fn remove_run<R: Files<File = File> + Processes + AllocGlobal + Clock + Eprint>(
    host: &R,
    work: &Work<'_>,
    folder: &str,
    watch: &Stopwatch,
) -> Result<(), RunTrouble> {
    if is_another_s(host, work, folder) {
        return Ok(());
    }
    let Some(lock) = Lock::take(host, folder, work.user)? else {
        return Ok(());
    };
    let put = put_run_aside(host, work, folder);
    let unlocked = lock.remove(host);
    match put? {
        Some(left) => first_of(left.remove(host, watch, false), unlocked),
        None => unlocked,
    }
}

/// Puts aside what a run left there, where it is a folder.
fn put_run_aside<R: Files<File = File> + AllocGlobal>(
    host: &R,
    work: &Work<'_>,
    folder: &str,
) -> Result<Option<Left>, RunTrouble> {
    if !is_folder(host, folder) {
        return Ok(None);
    }
    if !can_remove(host) {
        return Err(odd(host.alloc(), folder, NO_REMOVER));
    }
    put_aside(host, work, folder)
}

/// Removes what waits for it.
fn remove_waiting<R: Files<File = File> + Processes + AllocGlobal + Clock + Eprint>(
    host: &R,
    work: &Work<'_>,
    watch: &Stopwatch,
) -> Result<(), RunTrouble> {
    let mut removed = Ok(());
    for number in 0..MAX_LEFT {
        removed = first_of(removed, remove_numbered(host, work, number, watch));
    }
    removed
}

/// Removes what waits under this number, where nobody does.
fn remove_numbered<R: Files<File = File> + Processes + AllocGlobal + Clock + Eprint>(
    host: &R,
    work: &Work<'_>,
    number: u32,
    watch: &Stopwatch,
) -> Result<(), RunTrouble> {
    let place = left_place(host.alloc(), work, number)?;
    let lock = lock_place(host.alloc(), place.as_str())?;
    let is_free = !stands(host, place.as_str()) && !stands(host, lock.as_str());
    drop(lock);
    if is_free || is_another_s(host, work, place.as_str()) {
        return Ok(());
    }
    match Left::take(host, work, place)? {
        Some(left) => left.remove(host, watch, false),
        None => Ok(()),
    }
}

/// Whether it belongs to another user, whose programs remove it.
fn is_another_s<R: Files>(host: &R, work: &Work<'_>, place: &str) -> bool {
    match fs::symlink_metadata(host, place) {
        Ok(seen) => !work.may_remove(seen.uid()),
        Err(error) => {
            drop(error);
            false
        }
    }
}

/// Whether a folder stands there, and no link.
fn is_folder<R: Files>(host: &R, place: &str) -> bool {
    match fs::symlink_metadata(host, place) {
        Ok(seen) => seen.is_dir(),
        Err(error) => {
            drop(error);
            false
        }
    }
}
