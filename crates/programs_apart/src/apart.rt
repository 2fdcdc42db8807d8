// How far programs are kept apart on this machine, which is tried.
use crate::groups::{TESTER, is_file};
use crate::helping::helped_by;
use crate::ways::{Bounds, Walls, Way, called};
use crate::wishes::ApartWish;
use cmd_capture::Env;
use folder_reading::{HostTrouble, answered};
use std::alloc::{AllocError, AllocGlobal, Global};
use std::fs::{self, Files};
use std::io::Eprint;
use std::process::{Command, Processes};
use std::time::Clock;

/// What prints its variables: as what is tried it has to end well, and to have none.
const PRINTER: &str = "/usr/bin/env";

/// The folders of which each program has its own.
const OWN: [&str; 2] = ["/tmp", "/var/tmp"];

/// The same among the devices, which are made anew.
const OWN_DEVICE: &str = "/dev/shm";

/// The folders that each program finds empty.
const HIDDEN: [&str; 3] = ["/home", "/root", "/run"];

/// Tries how far programs can be kept apart in `folder`, an empty one in `work`: the way that keeps most apart.
pub(crate) fn tried<R: Files + Processes + AllocGlobal + Clock + Eprint>(
    host: &R,
    work: &str,
    folder: &str,
    is_root: bool,
    wish: &ApartWish,
) -> Result<Way, HostTrouble> {
    let bounds = Bounds {
        is_root,
        is_limited: can_be_limited(host),
    };
    let real = real_of(host, folder)?;
    let walls = walls_of(host, work, bounds, wish)?;
    Ok(way_in(host, real.as_str(), walls, bounds))
}

/// What stands there, named without links.
fn real_of<R: Files + AllocGlobal>(host: &R, place: &str) -> Result<String, HostTrouble> {
    let real = fs::canonicalize(host, place);
    Ok(answered(host.alloc(), "look at", place, real)?.into_string())
}

/// The first way that does in this folder, from the one that keeps most apart.
fn way_in<R: Files + Processes + AllocGlobal + Clock + Eprint>(
    host: &R,
    folder: &str,
    walls: Walls,
    bounds: Bounds,
) -> Way {
    let way = Way::Apart(walls);
    if does(host, &way, folder) {
        return way;
    }
    drop(way);
    let way = Way::Split(bounds);
    if does(host, &way, folder) {
        return way;
    }
    drop(way);
    Way::Led(bounds.is_limited)
}

/// Whether a program that is started so has no variable but those that it is given.
fn does<R: Files + Processes + AllocGlobal + Clock + Eprint>(
    host: &R,
    way: &Way,
    folder: &str,
) -> bool {
    match printed_so(host, way, folder, PRINTER, &[]) {
        Some(printed) => printed.is_empty(),
        None => false,
    }
}

/// Whether the system lets what is started so run these programs.
pub(crate) fn may_start<R: Files + Processes + AllocGlobal + Clock + Eprint>(
    host: &R,
    way: &Way,
    folder: &str,
    programs: &[String],
) -> bool {
    match test_words(host.alloc(), programs) {
        Ok(words) => printed_so(host, way, folder, TESTER, words.as_slice()).is_some(),
        Err(_) => false,
    }
}

/// The words that ask whether all of these may be run.
fn test_words<'a>(alloc: Global, programs: &'a [String]) -> Result<Vec<&'a str>, AllocError> {
    let mut words = Vec::new(alloc);
    for program in programs {
        if !words.is_empty() {
            words.push("-a")?;
        }
        words.push("-x")?;
        words.push(program.as_str())?;
    }
    Ok(words)
}

/// What the program prints that is started so in the folder; none where it does not end with status 0.
fn printed_so<R: Files + Processes + AllocGlobal + Clock + Eprint>(
    host: &R,
    way: &Way,
    folder: &str,
    program: &str,
    words: &[&str],
) -> Option<Vec<u8>> {
    match start_so(host.alloc(), way, folder, program, words) {
        Ok(start) => helped_by(host, start),
        Err(trouble) => {
            drop(trouble);
            None
        }
    }
}

fn start_so(
    alloc: Global,
    way: &Way,
    folder: &str,
    program: &str,
    words: &[&str],
) -> Result<Command, HostTrouble> {
    let none = Env::new(alloc);
    let start = called(alloc, way, folder, folder, &none, program);
    drop(none);
    let mut start = start?;
    for word in words {
        start.arg(*word)?;
    }
    start.current_dir(folder)?;
    Ok(start)
}

/// Whether the limits can be set.
fn can_be_limited<R: Files + Processes + AllocGlobal + Clock + Eprint>(host: &R) -> bool {
    let way = Way::Led(true);
    let can = does(host, &way, "/");
    drop(way);
    can
}

/// What programs find in this WORK.
fn walls_of<R: Files + AllocGlobal>(
    host: &R,
    work: &str,
    bounds: Bounds,
    wish: &ApartWish,
) -> Result<Walls, HostTrouble> {
    let alloc = host.alloc();
    let mut own = Vec::new(alloc);
    add_real(host, &mut own, &OWN)?;
    own.push(String::from_str(alloc, OWN_DEVICE)?)?;
    let mut hidden = Vec::new(alloc);
    add_real(host, &mut hidden, &HIDDEN)?;
    Ok(Walls {
        bounds,
        work: real_of(host, work)?,
        own,
        hidden,
        shown: wish.shown.clone()?,
        masked: Vec::new(alloc),
    })
}

/// Adds those of these folders that are there, without links.
fn add_real<R: Files + AllocGlobal>(
    host: &R,
    all: &mut Vec<String>,
    places: &[&str],
) -> Result<(), HostTrouble> {
    for place in places {
        if let Some(real) = real_place(host, *place) {
            all.push(real)?;
        }
    }
    Ok(())
}

/// The place without links, where a folder or a file stands there.
pub(crate) fn real_place<R: Files + AllocGlobal>(host: &R, place: &str) -> Option<String> {
    match fs::canonicalize(host, place) {
        Ok(real) => Some(real.into_string()),
        Err(error) => {
            drop(error);
            None
        }
    }
}

impl Way {
    /// Hides these files as far as they are there now.
    pub(crate) fn mask<R: Files + AllocGlobal>(
        &mut self,
        host: &R,
        files: &[String],
    ) -> Result<(), HostTrouble> {
        let Way::Apart(walls) = self else {
            return Ok(());
        };
        walls.masked.clear();
        for file in files {
            if is_file(host, file.as_str()) {
                if let Some(real) = real_place(host, file.as_str()) {
                    walls.masked.push(real)?;
                }
            }
        }
        Ok(())
    }
}
