// The places of runs below WORK: each a folder of its own with a lock beside it.
use crate::beside::Removals;
use crate::limits::Stopwatch;
use crate::locks::Lock;
use crate::names::{MAX_TRIED, folder_name};
use crate::removing::{Left, put_aside, removal_watch};
use crate::texts::{place_in, text_of};
use crate::trouble::{RunTrouble, refused};
use crate::works::Work;
use std::alloc::AllocGlobal;
use std::fs::{self, DirBuilder, File, Files};
use std::io::{Eprint, ErrorKind};
use std::os::unix::fs::DirBuilderExt;
use std::process::Processes;
use std::time::Clock;

/// What the owner of a run's folder may do: all. Another user may do nothing.
pub const FOLDER_RIGHTS: u32 = 0o700;

/// A folder that stands empty, and the lock beside it, which is held.
#[derive(Drop)]
pub(crate) struct Place {
    pub(crate) folder: String,
    pub(crate) lock: Lock,
    /// What stood there before, and waits for its removal.
    before: Option<Left>,
}

impl Place {
    /// Takes the first name of the job with this print that is free in `work`. A name is taken as long as its lock is held, and as
    /// long as what stands there cannot be put aside.
    pub(crate) fn take<R: Files<File = File> + AllocGlobal + Clock>(
        host: &R,
        work: &Work<'_>,
        print: &[u8; 32],
        watch: &Stopwatch,
    ) -> Result<Place, RunTrouble> {
        let fresh = fresh_place(host, work, print, watch)?;
        for number in 0..MAX_TRIED {
            let name = folder_name(host.alloc(), print, number)?;
            let folder = place_in(host.alloc(), work.place, text_of(name.as_slice())?)?;
            if let Some(place) = taken(host, work, folder, fresh.as_str())? {
                return Ok(place);
            }
            watch.check(host)?;
        }
        Err(RunTrouble::Told("each name for its folder is taken"))
    }

    /// Puts the folder aside, so that its name is free.
    pub(crate) fn give_up<R: Files<File = File> + AllocGlobal>(
        self,
        host: &R,
        work: &Work<'_>,
    ) -> GivenUp {
        let Place {
            folder,
            lock,
            before,
        } = self;
        let put = put_aside(host, work, folder.as_str());
        drop(folder);
        GivenUp {
            put,
            before,
            unlocked: lock.remove(host),
        }
    }
}

/// A place that is free for the next run, with what waits for its removal.
#[derive(Drop)]
pub(crate) struct GivenUp {
    /// The folder of the run.
    put: Result<Option<Left>, RunTrouble>,
    /// What stood there before it.
    before: Option<Left>,
    /// Whether its lock could be removed.
    unlocked: Result<(), RunTrouble>,
}

impl GivenUp {
    /// Removes what waits. The run's folder `is_read` where it was read back whole.
    pub(crate) fn remove<R: Files<File = File> + Processes + AllocGlobal + Clock + Eprint>(
        self,
        host: &R,
        is_read: bool,
    ) -> Result<(), RunTrouble> {
        let GivenUp {
            put,
            before,
            unlocked,
        } = self;
        let watch = removal_watch(host)?;
        let removed = removed_aside(host, put, &watch, is_read);
        let removed_before = removed_aside(host, Ok(before), &watch, false);
        removed?;
        removed_before?;
        unlocked
    }

    /// The same of a folder that was read back whole: its removal is started and not waited for, where that can be done.
    pub(crate) fn remove_behind<R: Files<File = File> + Processes + AllocGlobal + Clock + Eprint>(
        self,
        host: &R,
        work: &Work<'_>,
        removals: &mut Removals<R>,
    ) -> Result<(), RunTrouble> {
        let GivenUp {
            put,
            before,
            unlocked,
        } = self;
        let put = match put {
            Ok(Some(left)) => removals.begin(host, work, left),
            Ok(None) => Ok(None),
            Err(trouble) => Err(trouble),
        };
        let rest = GivenUp {
            put,
            before,
            unlocked,
        };
        rest.remove(host, true)
    }
}

/// Removes what was put aside.
fn removed_aside<R: Files<File = File> + Processes + AllocGlobal + Clock + Eprint>(
    host: &R,
    put: Result<Option<Left>, RunTrouble>,
    watch: &Stopwatch,
    is_read: bool,
) -> Result<(), RunTrouble> {
    match put? {
        Some(left) => left.remove(host, watch, is_read),
        None => Ok(()),
    }
}

/// Takes the lock and makes the folder; none where the name is taken.
fn taken<R: Files<File = File> + AllocGlobal>(
    host: &R,
    work: &Work<'_>,
    folder: String,
    fresh: &str,
) -> Result<Option<Place>, RunTrouble> {
    let Some(lock) = Lock::take(host, folder.as_str(), work.user)? else {
        return Ok(None);
    };
    match made_anew(host, work, folder.as_str(), fresh) {
        Ok(
            Made {
                is_made: true,
                before,
            },
        ) => Ok(Some(Place {
            folder,
            lock,
            before,
        })),
        Ok(
            Made {
                is_made: false,
                before,
            },
        ) => {
            drop(before);
            lock.remove(host)?;
            Ok(None)
        }
        Err(error) => {
            drop(lock);
            Err(error)
        }
    }
}

/// Whether a folder was made, and what stood there before.
#[derive(Drop)]
struct Made {
    is_made: bool,
    before: Option<Left>,
}

/// Makes the folder, and tells whether it did. What a run left there that was cut off is put aside first.
fn made_anew<R: Files<File = File> + AllocGlobal>(
    host: &R,
    work: &Work<'_>,
    folder: &str,
    fresh: &str,
) -> Result<Made, RunTrouble> {
    if is_made(host, folder, fresh)? {
        return Ok(Made {
            is_made: true,
            before: None,
        });
    }
    match put_aside(host, work, folder) {
        Ok(before) => Ok(Made {
            is_made: is_made(host, folder, fresh)?,
            before,
        }),
        Err(RunTrouble::Memory) => Err(RunTrouble::Memory),
        Err(trouble) => {
            drop(trouble);
            Ok(Made {
                is_made: false,
                before: None,
            })
        }
    }
}

/// A name of the job's runs that none of them is given, and that is another one each time.
fn fresh_place<R: Clock + AllocGlobal>(
    host: &R,
    work: &Work<'_>,
    print: &[u8; 32],
    watch: &Stopwatch,
) -> Result<String, RunTrouble> {
    let number = MAX_TRIED.saturating_add(watch.spent(host)?.subsec_nanos());
    let name = folder_name(host.alloc(), print, number)?;
    Ok(place_in(host.alloc(), work.place, text_of(name.as_slice())?)?)
}

/// Makes the folder, and tells whether it did: something may stand there. It has the fresh name first, by which a file system may choose
/// where on its disk it stands.
fn is_made<R: Files + AllocGlobal>(
    host: &R,
    folder: &str,
    fresh: &str,
) -> Result<bool, RunTrouble> {
    if is_created(host, fresh)? {
        match fs::rename(host, fresh, folder) {
            Ok(()) => return Ok(true),
            Err(error) => drop(error),
        }
        let _removed = fs::remove_dir(host, fresh);
    }
    is_created(host, folder)
}

/// Makes a folder there, and tells whether it did.
fn is_created<R: Files + AllocGlobal>(host: &R, folder: &str) -> Result<bool, RunTrouble> {
    match DirBuilder::new().mode(FOLDER_RIGHTS).create(host, folder) {
        Ok(()) => Ok(true),
        Err(error) if error.kind() == ErrorKind::AlreadyExists => Ok(false),
        Err(error) => Err(refused(host.alloc(), "make", folder, error)),
    }
}
