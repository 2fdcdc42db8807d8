// A folder that is removed. The library walks down from the top again for each folder that it removes, and looks at no clock. So
// programs of the system remove: they take a time that grows with what there is, and they can be ended.
use crate::limits::Stopwatch;
use crate::locks::Lock;
use crate::names::left_name;
use crate::texts::place_in;
use crate::trouble::{RunTrouble, answered, odd, refused};
use crate::works::Work;
use programs_apart::{LEADER, ends_well, is_file};
use std::alloc::{AllocError, AllocGlobal, Global};
use std::fs::{self, File, Files};
use std::io::{self, Eprint, ErrorKind};
use std::process::{Processes, Stdio};
use std::thread;
use std::time::{Clock, Duration};

/// The most folders that wait for their removal in one WORK.
pub const MAX_LEFT: u32 = 64;

/// How long removals are waited for, in seconds: what takes longer goes on beside.
pub const REMOVAL_SECONDS: u64 = 2;

/// How often a removal is tried, since what a program left running may write there meanwhile.
const REMOVAL_TRIES: u32 = 8;

/// The pause between two tries, in milliseconds.
const REMOVAL_PAUSE: u64 = 20;

/// What removes a folder with all that it holds, links as links, whatever its names are.
pub(crate) const REMOVER: &str = "/bin/rm";

/// What gives a folder, and those in it, their owner's rights.
const OPENER: &str = "/bin/chmod";

/// What does all of a removal that nothing waits for.
const SHELL: &str = "/bin/sh";

/// What is told where it is missing.
pub(crate) const NO_REMOVER: &str = "stays, since there is no /bin/rm";

/// What is told where none of its tries removes it.
const CANNOT_GO: &str = "cannot be removed";

/// What is told where a removal is not waited for any longer.
const GOES_ON: &str = "takes long to remove: that goes on beside";

/// A removal of the folder `$1`, and then of its lock `$2`.
const REMOVAL: &str =
    "/bin/rm -rf -- \"$1\" || { /bin/chmod -R u+rwX -- \"$1\"; /bin/rm -rf -- \"$1\"; }; \
    /bin/rm -f -- \"$2\"";

/// What lets a removal that nothing waits for have only what other programs leave of the processor and of the disk.
const LAST: [&[&str]; 2] = [
    &["/usr/bin/nice", "-n", "19"],
    &["/usr/bin/ionice", "-t", "-c", "3"],
];

/// A folder that waits for its removal, and the lock beside it. Whoever holds the lock removes the folder.
#[derive(Drop)]
pub(crate) struct Left {
    place: String,
    lock: Lock,
}

/// The time that removals are waited for.
pub(crate) fn removal_watch<C: Clock>(clock: &C) -> Result<Stopwatch, RunTrouble> {
    let longest = Duration::from_secs(REMOVAL_SECONDS);
    Stopwatch::begin(clock, "removing took", Some(longest))
}

/// Gives what stands there a name that no run has; none where nothing stands there.
pub(crate) fn put_aside<R: Files<File = File> + AllocGlobal>(
    host: &R,
    work: &Work<'_>,
    folder: &str,
) -> Result<Option<Left>, RunTrouble> {
    for number in 0..MAX_LEFT {
        let place = left_place(host.alloc(), work, number)?;
        if stands(host, place.as_str()) {
            continue;
        }
        let Some(left) = Left::take(host, work, place)? else {
            continue;
        };
        let renamed = fs::rename(host, folder, left.place.as_str());
        match put_there(host, folder, left, renamed)? {
            Put::There(left) => return Ok(Some(left)),
            Put::Nothing => return Ok(None),
            Put::Taken => {}
        }
    }
    Err(RunTrouble::Told("64 folders wait for their removal"))
}

/// What came of a folder that is put aside.
#[derive(Drop)]
enum Put {
    /// It has that place.
    There(Left),
    /// There is no such folder.
    Nothing,
    /// The place is taken.
    Taken,
}

/// What came of it by the system's answer.
fn put_there<R: Files + AllocGlobal>(
    host: &R,
    folder: &str,
    left: Left,
    renamed: io::Result<()>,
) -> Result<Put, RunTrouble> {
    let error = match renamed {
        Ok(()) => return Ok(Put::There(left)),
        Err(error) => error,
    };
    let kind = error.kind();
    let unlocked = left.unlock(host);
    if kind != ErrorKind::NotFound && !is_taken(kind) {
        drop(unlocked);
        return Err(refused(host.alloc(), "put aside", folder, error));
    }
    drop(error);
    unlocked?;
    Ok(if kind == ErrorKind::NotFound {
        Put::Nothing
    } else {
        Put::Taken
    })
}

/// Whether something has the name by now.
fn is_taken(kind: ErrorKind) -> bool {
    kind == ErrorKind::DirectoryNotEmpty
        || kind == ErrorKind::AlreadyExists
        || kind == ErrorKind::NotADirectory
        || kind == ErrorKind::IsADirectory
}

/// The place of a folder that waits for its removal.
pub(crate) fn left_place(
    alloc: Global,
    work: &Work<'_>,
    number: u32,
) -> Result<String, AllocError> {
    let name = left_name(alloc, number)?;
    place_in(alloc, work.place, name.as_str())
}

/// Whether something stands there.
pub(crate) fn stands<R: Files>(host: &R, place: &str) -> bool {
    match fs::symlink_metadata(host, place) {
        Ok(_) => true,
        Err(error) => error.kind() != ErrorKind::NotFound,
    }
}

impl Left {
    /// Takes the lock of the place; none where another program has it.
    pub(crate) fn take<R: Files<File = File> + AllocGlobal>(
        host: &R,
        work: &Work<'_>,
        place: String,
    ) -> Result<Option<Left>, RunTrouble> {
        Left::take_for(host, work.user, place)
    }

    /// The same for the user with this number.
    pub(crate) fn take_for<R: Files<File = File> + AllocGlobal>(
        host: &R,
        user: u32,
        place: String,
    ) -> Result<Option<Left>, RunTrouble> {
        match Lock::take(host, place.as_str(), user)? {
            Some(lock) => Ok(Some(Left { place, lock })),
            None => Ok(None),
        }
    }

    /// Its place, the place of its lock, and the file of that: the lock lasts as long as anybody has it open.
    pub(crate) fn into_parts(self) -> (String, String, File) {
        let Left { place, lock } = self;
        let (lock, file) = lock.into_parts();
        (place, lock, file)
    }

    /// Removes the folder as long as the watch goes; then its removal goes on beside. Where no program removes, the library does if
    /// the folder `is_read`: one that was read back whole is neither deep nor full.
    pub(crate) fn remove<R: Files<File = File> + Processes + AllocGlobal + Clock + Eprint>(
        self,
        host: &R,
        watch: &Stopwatch,
        is_read: bool,
    ) -> Result<(), RunTrouble> {
        match is_removed_in_time(host, self.place.as_str(), watch, is_read) {
            Ok(true) => self.unlock(host),
            Ok(false) => self.hand_over(host),
            Err(trouble) => {
                let _unlocked = self.unlock(host);
                Err(trouble)
            }
        }
    }

    fn unlock<R: Files + AllocGlobal>(self, host: &R) -> Result<(), RunTrouble> {
        let Left { place, lock } = self;
        drop(place);
        lock.remove(host)
    }

    /// Starts a removal that nothing waits for and that gives rights where those are missing, and tells of it. It reads the file of
    /// the lock, and so holds the lock as long as it goes on.
    pub(crate) fn hand_over<R: Files<File = File> + Processes + AllocGlobal + Clock + Eprint>(
        self,
        host: &R,
    ) -> Result<(), RunTrouble> {
        let (place, lock, file) = self.into_parts();
        let begun = is_begun_beside(host, place.as_str(), lock.as_str(), Stdio::from(file));
        drop(lock);
        let told = match begun {
            Ok(true) => odd(host.alloc(), place.as_str(), GOES_ON),
            Ok(false) => odd(host.alloc(), place.as_str(), CANNOT_GO),
            Err(trouble) => trouble,
        };
        drop(place);
        Err(told)
    }
}

/// Whether the folder was removed before the watch was over.
fn is_removed_in_time<R: Files + Processes + AllocGlobal + Clock + Eprint>(
    host: &R,
    left: &str,
    watch: &Stopwatch,
    is_read: bool,
) -> Result<bool, RunTrouble> {
    if !can_remove(host) {
        return is_removed_by_library(host, left, is_read);
    }
    for _ in 0..REMOVAL_TRIES {
        if is_removed(host, left, watch) || is_opened_and_removed(host, left, watch) {
            return Ok(true);
        }
        if !watch.goes_on(host) {
            return Ok(false);
        }
        thread::sleep(host, Duration::from_millis(REMOVAL_PAUSE));
    }
    Err(odd(host.alloc(), left, CANNOT_GO))
}

/// Whether there is a program that removes.
pub(crate) fn can_remove<R: Files>(host: &R) -> bool {
    is_file(host, REMOVER)
}

fn is_removed_by_library<R: Files + AllocGlobal>(
    host: &R,
    left: &str,
    is_read: bool,
) -> Result<bool, RunTrouble> {
    if !is_read {
        return Err(odd(host.alloc(), left, NO_REMOVER));
    }
    answered(host.alloc(), "remove", left, fs::remove_dir_all(host, left))?;
    Ok(true)
}

fn is_removed<R: Files + Processes + AllocGlobal + Clock + Eprint>(
    host: &R,
    left: &str,
    watch: &Stopwatch,
) -> bool {
    let words = ["-rf", "--", left];
    watch.goes_on(host) && ends_well(host, REMOVER, &words, watch, Stdio::null())
}

/// The same for folders without rights.
fn is_opened_and_removed<R: Files + Processes + AllocGlobal + Clock + Eprint>(
    host: &R,
    left: &str,
    watch: &Stopwatch,
) -> bool {
    let words = ["-R", "u+rwX", "--", left];
    watch.goes_on(host)
        && ends_well(host, OPENER, &words, watch, Stdio::null())
        && is_removed(host, left, watch)
}

/// Whether a removal was started that nothing waits for. It has this input.
fn is_begun_beside<'x, R: Files + Processes + AllocGlobal + Clock + Eprint>(
    host: &R,
    left: &'x str,
    lock: &'x str,
    input: Stdio,
) -> Result<bool, RunTrouble> {
    let watch = removal_watch(host)?;
    let mut words = Vec::new(host.alloc());
    words.push("--fork")?;
    for program in LAST {
        if is_file(host, program[0]) {
            words.extend_from_slice(program)?;
        }
    }
    words.extend_from_slice(&[SHELL, "-c", REMOVAL, SHELL, left, lock])?;
    let begun = ends_well(host, LEADER, words.as_slice(), &watch, input);
    drop(words);
    Ok(begun)
}
