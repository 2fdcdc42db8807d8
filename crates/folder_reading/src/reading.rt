// A folder that is read back.
ghost use Rattle.std.specs.Prelude.{◌≡◌, ◌≤◌, ◌+◌, [], length, IfOk, OnOk};
ghost use Rattle.tree_values.specs.Limits.{max_rows};
ghost use Rattle.folder_reading.specs.Found.{HasTreeSize};
ghost use Rattle.folder_reading.specs.Withheld.{withheld_in, told_back};

use crate::found::{Found, OWNER_RUNS, TOO_MANY_BYTES, TOO_MANY_ROWS};
use crate::opening::{open_folder, open_seen};
use crate::texts::{path_in, place_in};
use crate::trouble::{HostTrouble, answered, odd, refused};
use crate::watches::Stopwatch;
use crate::withholding::{check_folders, told_back};
use cmd_capture::{RawRow, RawRows};
use file_paths::{Content, MAX_DEPTH};
use std::alloc::{AllocGlobal, Global};
use std::fs::{self, DirEntry, File, Files, Metadata};
use std::io::{self, ErrorKind, Read};
use std::os::unix::fs::MetadataExt;
use std::time::Clock;

const TOO_DEEP: &str = "more than 32 folders deep";

const _: () = prove!(MAX_DEPTH == 32);

/// The folder that is read, the device that its files stand on, how long that may take, and the rows that were withheld when it was
/// written, in path order.
#[derive(Drop)]
pub struct Reading<'a, R> {
    pub host: &'a R,
    pub folder: &'a str,
    pub device: u64,
    pub watch: Stopwatch,
    pub withheld: &'a [RawRow],
}

impl<'a, R: Files<File = File> + AllocGlobal + Clock> Reading<'a, R> {
    /// Reads what stands in the folder, in the order of its paths, and tells the withheld rows back among them. Where one of those has
    /// no folder any more that is refused.
    #[tactic(auto, using(crate::proofs::ToldBack::told_as_it_was))]
    pub fn rows(&self) -> Result<RawRows, HostTrouble>
        ensures small { IfOk result (λ rows. HasTreeSize rows) }
        ensures withheld { IfOk result (λ rows. withheld_in rows ≡ withheld_in self.now.withheld.now) }
    {
        let read = self.read()?;
        if self.withheld.is_empty() {
            return Ok(read);
        }
        let told = self.told_with(read.as_slice());
        drop(read);
        Ok(told?.into_rows())
    }

    /// The rows that were read, with those that were withheld.
    fn told_with(&self, read: &[RawRow]) -> Result<Found, HostTrouble>
        ensures { IfOk result (λ rows. rows ≡ told_back read.now self.now.withheld.now) }
    {
        check_folders(self.host.alloc(), read, self.withheld)?;
        told_back(self.host.alloc(), read, self.withheld)
    }

    /// Reads what stands in the folder.
    fn read(&self) -> Result<RawRows, HostTrouble>
        ensures small { IfOk result (λ rows. HasTreeSize rows) }
        ensures text { IfOk result (λ rows. withheld_in rows ≡ []) }
    {
        let mut found = Found::new(self.host.alloc());
        match self.read_all(&mut found) {
            Ok(()) => Ok(found.into_rows()),
            Err(error) => {
                drop(found);
                Err(error)
            }
        }
    }

    /// Adds what stands in the folder. The paths that are still to be read are `pending`, the next one last.
    fn read_all(&self, found: &mut Found) -> Result<(), HostTrouble>
        ensures { OnOk result (withheld_in found.new ≡ withheld_in found.old) }
    {
        let alloc = self.host.alloc();
        let seen = fs::symlink_metadata(self.host, self.folder);
        let seen = answered(alloc, "look at", self.folder, seen)?;
        if !seen.is_dir() {
            return Err(odd(alloc, self.folder, "is no folder any more"));
        }
        open_folder(self.host, self.folder, self.folder, &seen)?;
        let mut pending = Vec::new(alloc);
        self.add_names(self.folder, "", &mut pending, found.rows_left())?;
        while let Some(path) = pending.pop() {
            self.watch.check(self.host)?;
            self.read_entry(path.as_str(), &mut pending, found)?;
        }
        Ok(())
    }

    /// Adds what stands at the path, and what it holds to what is still to be read.
    fn read_entry(
        &self,
        path: &str,
        pending: &mut Vec<String>,
        found: &mut Found,
    ) -> Result<(), HostTrouble>
        ensures one { OnOk result (length found.new ≡ length found.old + 1) }
        ensures few { OnOk result (length found.new ≤ max_rows) }
        ensures text { OnOk result (withheld_in found.new ≡ withheld_in found.old) }
    {
        let alloc = self.host.alloc();
        let place = place_in(alloc, self.folder, path)?;
        let seen = fs::symlink_metadata(self.host, place.as_str());
        let seen = answered(alloc, "look at", path, seen)?;
        if seen.is_dir() {
            if depth_of(path) > MAX_DEPTH {
                return Err(HostTrouble::Told(TOO_DEEP));
            }
            found.add_folder(path)?;
            open_folder(self.host, place.as_str(), path, &seen)?;
            return self.add_names(place.as_str(), path, pending, found.rows_left());
        }
        if !seen.is_file() || seen.dev() != self.device {
            return Err(odd(alloc, path, "is no file or folder"));
        }
        if seen.len() > found.bytes_left() as u64 {
            return Err(HostTrouble::Told(TOO_MANY_BYTES));
        }
        let content = self.read_content(place.as_str(), path, &seen)?;
        let exec = seen.mode() & OWNER_RUNS != 0;
        found.add_file(path, content, exec)
    }

    /// Reads the file that was seen, as far as it went then: so no call is made that only finds its end.
    fn read_content(
        &self,
        place: &str,
        path: &str,
        seen: &Metadata,
    ) -> Result<Content, HostTrouble> {
        let file = open_seen(self.host, place, path, seen)?;
        let mut bytes = Vec::new(self.host.alloc());
        match file.take(seen.len()).read_to_end(&mut bytes) {
            Ok(_count) => Ok(Content::from_vec(bytes)?),
            Err(error) => {
                drop(bytes);
                Err(refused(self.host.alloc(), "read", path, error))
            }
        }
    }

    /// Adds the paths of what stands in the folder at `place`, which has the path `path`, the first one last.
    fn add_names(
        &self,
        place: &str,
        path: &str,
        pending: &mut Vec<String>,
        rows_left: usize,
    ) -> Result<(), HostTrouble> {
        let alloc = self.host.alloc();
        let mut paths = Vec::new(alloc);
        let entries = match fs::read_dir(&self.host, place) {
            Ok(entries) => entries,
            Err(error) => return Err(refused(alloc, "read", place, error)),
        };
        for entry in entries {
            if pending.len().saturating_add(paths.len()) >= rows_left {
                return Err(HostTrouble::Told(TOO_MANY_ROWS));
            }
            paths.push(path_of(alloc, path, entry)?)?;
        }
        paths.sort()?;
        paths.reverse();
        pending.append(&mut paths)?;
        Ok(())
    }
}

/// The path of what stands in the folder with this path.
fn path_of<R: Files>(
    alloc: Global,
    path: &str,
    entry: io::Result<DirEntry<&R>>,
) -> Result<String, HostTrouble> {
    match entry {
        Ok(entry) => Ok(path_in(alloc, path, entry.file_name())?),
        Err(error) if error.kind() == ErrorKind::InvalidFilename => {
            let folder = if path.is_empty() { "." } else { path };
            Err(odd(alloc, folder, "holds a name that is no text of UTF-8"))
        }
        Err(error) => Err(refused(alloc, "read", path, error)),
    }
}

/// The number of names of the path.
fn depth_of(path: &str) -> usize {
    if path.is_empty() {
        return 0;
    }
    path.as_bytes()
        .iter()
        .filter(|b| **b == b'/')
        .count()
        .saturating_add(1)
}
