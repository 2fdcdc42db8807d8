// What a command left running in its group ends with it. The library has no groups, and so programs of the system help.
ghost use Rattle.std.specs.Prelude.{◌≡◌};

use crate::helping::{MAX_HELP, helped};
use std::alloc::AllocGlobal;
use std::fs::{self, Files};
use std::io::Eprint;
use std::process::Processes;
use std::time::Clock;

/// What starts a program as the head of a group of its own, in its own place.
pub const LEADER: &str = "/usr/bin/setsid";

/// What ends a group.
const KILLER: &str = "/bin/kill";

/// What tells whether this process may run a program.
pub(crate) const TESTER: &str = "/usr/bin/test";

/// What prints the front of a program.
const PRINTER: &str = "/usr/bin/head";

/// The most programs that are looked at of which each is run by the next.
const MAX_INTERPRETERS: u32 = 5;

/// Where programs of the form that the system runs differ from others: what it is, and for which machine.
const FORM: usize = 6;

const MACHINE: usize = 18;

const BEHIND_MACHINE: usize = 20;

/// The helpers, which are all there.
#[derive(Drop)]
pub(crate) struct Groups {
    /// The front of a program that the system runs.
    form: Vec<u8>,
}

impl Groups {
    /// Looks for the helpers.
    pub(crate) fn find<R: Files + Processes + AllocGlobal + Clock + Eprint>(
        host: &R,
    ) -> Option<Groups> {
        for helper in [LEADER, KILLER, TESTER, PRINTER] {
            if !is_file(host, helper) {
                return None;
            }
        }
        let form = front_of(host, LEADER)?;
        Some(Groups { form })
    }

    /// Whether the program can be started as the head of a group and then does what it does by itself. Where that is not sure it is
    /// started by itself, so that it is refused as ever.
    pub(crate) fn can_lead<R: Files + Processes + AllocGlobal + Clock + Eprint>(
        &self,
        host: &R,
        program: &str,
    ) -> bool {
        match self.programs_of(host, program) {
            Some(programs) => {
                let may = may_run_all(host, programs.as_slice());
                drop(programs);
                may
            }
            None => false,
        }
    }

    /// The program, what runs it, and so on up to one that the system itself runs; none where that is not sure.
    pub(crate) fn programs_of<R: Files + Processes + AllocGlobal + Clock + Eprint>(
        &self,
        host: &R,
        program: &str,
    ) -> Option<Vec<String>> {
        let mut programs = Vec::new(host.alloc());
        programs
            .push(String::from_str(host.alloc(), program).ok()?)
            .ok()?;
        for _ in 0..MAX_INTERPRETERS {
            let last = programs.last()?;
            if !is_file(host, last.as_str()) {
                return None;
            }
            let front = front_of(host, last.as_str())?;
            if has_form(self.form.as_slice(), front.as_slice()) {
                return Some(programs);
            }
            let next = String::from_str(host.alloc(), interpreter_of(front.as_slice())?);
            drop(front);
            programs.push(next.ok()?).ok()?;
        }
        None
    }
}

/// Ends what is left of the group that the program with this number headed. There may be nothing left.
pub(crate) fn end_group<R: Files + Processes + AllocGlobal + Clock + Eprint>(
    host: &R,
    number: u32,
) {
    if let Ok(group) = format!(in host.alloc(); "-{number}") {
        let _ = helped(host, KILLER, &["-KILL", "--", group.as_str()]);
    }
}

/// Whether a file stands there, or a link to one.
pub fn is_file<R: Files>(host: &R, place: &str) -> bool {
    match fs::metadata(host, place) {
        Ok(seen) => seen.is_file(),
        Err(error) => {
            drop(error);
            false
        }
    }
}

fn may_run_all<R: Files + Processes + AllocGlobal + Clock + Eprint>(
    host: &R,
    programs: &[String],
) -> bool {
    for program in programs {
        if !may_run(host, program.as_str()) {
            return false;
        }
    }
    true
}

fn may_run<R: Files + Processes + AllocGlobal + Clock + Eprint>(host: &R, program: &str) -> bool {
    helped(host, TESTER, &["-x", program]).is_some()
}

/// The first bytes of the program, read by a helper, so that nothing waits that cannot be ended.
fn front_of<R: Files + Processes + AllocGlobal + Clock + Eprint>(
    host: &R,
    program: &str,
) -> Option<Vec<u8>> {
    helped(host, PRINTER, &["-c", "256", program])
}

const _: () = prove!(MAX_HELP == 256);

/// Whether a program with this front is of the form that one with that front has, and for the same machine.
fn has_form(form: &[u8], front: &[u8]) -> bool {
    front.len() >= BEHIND_MACHINE
        && form.len() >= BEHIND_MACHINE
        && front[..FORM] == form[..FORM]
        && front[MACHINE..BEHIND_MACHINE] == form[MACHINE..BEHIND_MACHINE]
}

/// The program that runs one with this front, where that says so and names it whole, from the root.
fn interpreter_of(front: &[u8]) -> Option<&str> {
    let line = front.strip_prefix(b"#!")?;
    let name = line.trim_ascii_start();
    let end = name.iter().position(|b| b.is_ascii_whitespace())?;
    let name = str::from_utf8(&name[..end]).ok()?;
    if !name.starts_with('/') {
        return None;
    }
    Some(name)
}
