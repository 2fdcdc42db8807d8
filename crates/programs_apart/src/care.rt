// How programs are started, and what becomes of them beside their folder.
ghost use Rattle.std.specs.Prelude.{◌≡◌, false};
ghost use Rattle.programs_apart.specs.declared.ways.Way.TheVariants.{Plain, Led};

use crate::apart::{may_start, tried};
use crate::groups::Groups;
use crate::ways::Way;
use crate::wishes::ApartWish;
use folder_reading::{HostTrouble, odd};
use std::alloc::{AllocGlobal, Global};
use std::fs::Files;
use std::io::Eprint;
use std::process::Processes;
use std::time::Clock;

/// What is told where programs are kept apart.
const APART: &str = "runs programs apart: processes, network, files";

/// The same where files are not.
const SPLIT: &str =
    "runs programs apart: processes, network; not files: there is no /usr/bin/bwrap that can be used";

/// The same where nothing is.
const NOT_APART: &str =
    "does not run programs apart: what they leave running can read and write later runs, and reach the server";

/// Why a program is not started that is to be kept apart.
const NOT_STARTED: &str = "is no program that can be started apart";

/// How programs are started, and what becomes of them beside their folder.
#[derive(Drop)]
pub struct Care {
    /// Whether what a program prints is passed on; else it is not kept.
    pub(crate) is_shown: bool,
    /// How it is started. Whoever ends this process by its group ends a program that is started by itself, too. What is left of a
    /// group, or of what is kept apart, ends with its program.
    pub(crate) way: Way,
    /// What helps to start it so, where the system has that.
    groups: Option<Groups>,
    /// The files that are empty for a program that is kept apart from files.
    files: Vec<String>,
}

impl Care {
    /// Programs are started by themselves, and what they print is passed on to standard error.
    pub fn plain(alloc: Global) -> Care
        ensures { result.way ≡ Plain }
    {
        Care {
            is_shown: true,
            way: Way::Plain,
            groups: None,
            files: Vec::new(alloc),
        }
    }

    /// Each program is the head of a group of its own, which ends with it, where the system has what that takes. What it prints is not
    /// kept.
    pub fn led<R: Files + Processes + AllocGlobal + Clock + Eprint>(host: &R) -> Care
        ensures { result.way ≡ Led false }
    {
        Care {
            is_shown: false,
            way: Way::Led(false),
            groups: Groups::find(host),
            files: Vec::new(host.alloc()),
        }
    }

    /// Keeps programs apart from other processes, from the network and from files from now on, as far as that can be done: it is tried in
    /// `folder`, an empty one in `work`.
    pub fn keep_apart<R: Files + Processes + AllocGlobal + Clock + Eprint>(
        &mut self,
        host: &R,
        work: &str,
        folder: &str,
        is_root: bool,
        wish: &ApartWish,
    ) -> Result<(), HostTrouble> {
        self.groups = Groups::find(host);
        self.way = tried(host, work, folder, is_root, wish)?;
        Ok(())
    }

    /// Has these files be empty from now on for a program that is kept apart from files.
    pub fn empty(&mut self, files: Vec<String>) {
        self.files = files;
    }

    /// Looks which of those files are there now. A run begins with that.
    pub fn begin<R: Files + AllocGlobal>(&mut self, host: &R) -> Result<(), HostTrouble> {
        self.way.mask(host, self.files.as_slice())
    }

    /// How far programs are kept apart, as it is told.
    pub fn kept(&self) -> &'static str {
        match (&self.groups, &self.way) {
            (Some(_), Way::Apart(_)) => APART,
            (Some(_), Way::Split(_)) => SPLIT,
            (Some(_) | None, Way::Apart(_) | Way::Split(_) | Way::Led(_) | Way::Plain) => NOT_APART,
        }
    }

    /// How the program is started. Where it cannot head a group it is started by itself, so that it is refused as ever; but a program
    /// that is to be kept apart is started so, or not at all.
    pub(crate) fn way_of<R: Files + Processes + AllocGlobal + Clock + Eprint>(
        &self,
        host: &R,
        folder: &str,
        program: &str,
    ) -> Result<Option<&Way>, HostTrouble> {
        let Some(groups) = &self.groups else {
            return Ok(None);
        };
        match &self.way {
            Way::Plain => Ok(None),
            Way::Led(_) if groups.can_lead(host, program) => Ok(Some(&self.way)),
            Way::Led(_) => Ok(None),
            Way::Split(_) | Way::Apart(_) => {
                let run_by = groups.programs_of(host, program);
                let may = match &run_by {
                    Some(programs) => may_start(host, &self.way, folder, programs.as_slice()),
                    None => false,
                };
                drop(run_by);
                match may {
                    true => Ok(Some(&self.way)),
                    false => Err(odd(host.alloc(), program, NOT_STARTED)),
                }
            }
        }
    }
}
