// WORK, the folder in which runs have their places: one in which no other user puts anything in their way.
ghost use Rattle.std.specs.Prelude.{◌≡◌, ◌↔◌, IsNone, IsTrue};
ghost use Rattle.child_runner.specs.Works.{is_safe, is_owned, is_kept};

use crate::trouble::{RunTrouble, answered, odd};
use programs_apart::helped;
use std::alloc::AllocGlobal;
use std::fs::{self, DirBuilder, Files, Metadata};
use std::io::{Eprint, ErrorKind};
use std::os::unix::fs::{DirBuilderExt, MetadataExt};
use std::process::Processes;
use std::time::Clock;

/// What may be done in a WORK that is made: others may look, and only its owner may write.
pub const WORK_RIGHTS: u32 = 0o755;

/// What has the user of this process as its owner.
const SELF: &str = "/proc/self";

/// What has a file system choose anew where on its disk each folder of WORK stands, if it can. At one place it takes long to make as
/// many files as were removed there a moment ago.
const SPREADER: &str = "/usr/bin/chattr";

/// The number of the user who may do everything.
const ROOT: u32 = 0;

/// The rights to write that users have who are not the owner.
const OTHERS_WRITE: u32 = 0o22;

/// The mode of a folder in which each user removes and renames what is their own alone.
const STICKY: u32 = 0o1000;

/// The folder in which runs have their places, which was looked at.
#[derive(Clone, Copy)]
pub(crate) struct Work<'a> {
    pub(crate) place: &'a str,
    /// The number of the user of this process.
    pub(crate) user: u32,
}

impl<'a> Work<'a> {
    /// Makes the folder where it is missing, and looks at it.
    pub(crate) fn made<R: Files + Processes + AllocGlobal + Clock + Eprint>(
        host: &R,
        place: &'a str,
    ) -> Result<Work<'a>, RunTrouble> {
        match DirBuilder::new().mode(WORK_RIGHTS).create(host, place) {
            Err(error) if error.kind() == ErrorKind::AlreadyExists => {}
            made => {
                answered(host.alloc(), "make", place, made)?;
                let _spread = helped(host, SPREADER, &["+T", "--", place]);
            }
        }
        match Work::found(host, place)? {
            Some(work) => Ok(work),
            None => Err(odd(host.alloc(), place, "was removed")),
        }
    }

    /// Looks at the folder; none where nothing stands there.
    pub(crate) fn found<R: Files + AllocGlobal>(
        host: &R,
        place: &'a str,
    ) -> Result<Option<Work<'a>>, RunTrouble> {
        let looked = match fs::symlink_metadata(host, bare(place)) {
            Ok(seen) => Looked::of(&seen),
            Err(error) if error.kind() == ErrorKind::NotFound => return Ok(None),
            seen => Looked::of(&answered(host.alloc(), "look at", place, seen)?),
        };
        let user = own_user(host)?;
        match fault_of(&looked, user) {
            Some(is) => Err(odd(host.alloc(), place, is)),
            None => Ok(Some(Work { place, user })),
        }
    }

    /// Whether this user may do everything.
    pub(crate) fn is_root(&self) -> bool {
        self.user == ROOT
    }

    /// Whether this user may remove what belongs to that user.
    pub(crate) fn may_remove(&self, owner: u32) -> bool {
        owner == self.user || self.is_root()
    }
}

/// The name without what follows a link at its end.
fn bare(place: &str) -> &str {
    let bare = place.trim_end_matches('/');
    if bare.is_empty() { place } else { bare }
}

/// The number of the user of this process.
fn own_user<R: Files + AllocGlobal>(host: &R) -> Result<u32, RunTrouble> {
    let seen = answered(host.alloc(), "look at", SELF, fs::metadata(host, SELF))?;
    Ok(seen.uid())
}

/// What a look at a name shows.
#[derive(Clone, Copy)]
pub(crate) struct Looked {
    is_folder: bool,
    is_link: bool,
    owner: u32,
    mode: u32,
}

impl Looked {
    fn of(seen: &Metadata) -> Looked {
        Looked {
            is_folder: seen.is_dir(),
            is_link: seen.is_symlink(),
            owner: seen.uid(),
            mode: seen.mode(),
        }
    }
}

/// Why the user does not use it as WORK, where they do not.
fn fault_of(looked: &Looked, user: u32) -> Option<&'static str>
    ensures { IsNone result ↔ IsTrue (is_safe looked.now user) }
{
    if !looked.is_folder {
        return Some(if looked.is_link {
            "is a link"
        } else {
            "is no folder"
        });
    }
    if !is_owned(looked, user) {
        return Some("belongs to another user");
    }
    if !is_kept(looked) {
        return Some("may be written by other users, and is not sticky");
    }
    None
}

/// Whether it belongs to the user or to root.
fn is_owned(looked: &Looked, user: u32) -> bool
    ensures { result ≡ is_owned looked.now user }
{
    looked.owner == user || looked.owner == ROOT
}

/// Whether no other user takes away what its user puts there.
fn is_kept(looked: &Looked) -> bool
    ensures { result ≡ is_kept looked.now }
{
    looked.mode & OTHERS_WRITE == 0 || looked.mode & STICKY != 0
}
