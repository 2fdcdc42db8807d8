// Programs of the system that help a runner: what they print is short, and so is their time.
use crate::pipes::pipe;
use crate::waiting::{end, wait_within};
use folder_reading::{HostTrouble, Stopwatch, answered};
use std::alloc::{AllocGlobal, Global};
use std::fs::Files;
use std::io::Eprint;
use std::process::{Child, Command, Processes, Stdio};
use std::time::{Clock, Duration};

/// How long a helper may run, in seconds.
const HELP_SECONDS: u64 = 10;

/// The most bytes that are read of what a helper prints.
pub(crate) const MAX_HELP: usize = 256;

/// What the program printed, at most the first 256 bytes; none where it did not end with status 0.
pub fn helped<R: Files + Processes + AllocGlobal + Clock + Eprint>(
    host: &R,
    program: &str,
    words: &[&str],
) -> Option<Vec<u8>> {
    let longest = Some(Duration::from_secs(HELP_SECONDS));
    match Stopwatch::begin(host, "a helper took", longest) {
        Ok(watch) => printed_soon(host, program, words, &watch, Stdio::null()),
        Err(trouble) => {
            drop(trouble);
            None
        }
    }
}

/// Whether the program ended with status 0 while the watch went. It reads `input`.
pub fn ends_well<R: Files + Processes + AllocGlobal + Clock + Eprint>(
    host: &R,
    program: &str,
    words: &[&str],
    watch: &Stopwatch,
    input: Stdio,
) -> bool {
    printed_soon(host, program, words, watch, input).is_some()
}

/// A helper that was started, for which nothing waits. It reads `input`, has no variables, and prints nowhere.
pub fn begun<R: Files + Processes + AllocGlobal>(
    host: &R,
    program: &str,
    words: &[&str],
    input: Stdio,
) -> Result<Child<R::Started>, HostTrouble> {
    let mut start = start_of(host.alloc(), program, words)?;
    start.env_clear();
    start.stdin(input);
    start.stdout(Stdio::null());
    start.stderr(Stdio::null());
    let child = start.spawn(host);
    drop(start);
    answered(host.alloc(), "start", program, child)
}

/// What this prints, which runs a helper without input; none where that did not end with status 0.
pub(crate) fn helped_by<R: Files + Processes + AllocGlobal + Clock + Eprint>(
    host: &R,
    mut start: Command,
) -> Option<Vec<u8>> {
    start.stdin(Stdio::null());
    let longest = Some(Duration::from_secs(HELP_SECONDS));
    let watch = Stopwatch::begin(host, "a helper took", longest);
    let printed = match watch {
        Ok(watch) => printed_by(host, "a helper", start, &watch),
        Err(trouble) => {
            drop(start);
            Err(trouble)
        }
    };
    match printed {
        Ok(printed) => printed,
        Err(trouble) => {
            drop(trouble);
            None
        }
    }
}

fn printed_soon<R: Files + Processes + AllocGlobal + Clock + Eprint>(
    host: &R,
    program: &str,
    words: &[&str],
    watch: &Stopwatch,
    input: Stdio,
) -> Option<Vec<u8>> {
    match printed(host, program, words, watch, input) {
        Ok(printed) => printed,
        Err(trouble) => {
            drop(trouble);
            None
        }
    }
}

fn printed<R: Files + Processes + AllocGlobal + Clock + Eprint>(
    host: &R,
    program: &str,
    words: &[&str],
    watch: &Stopwatch,
    input: Stdio,
) -> Result<Option<Vec<u8>>, HostTrouble> {
    let mut start = start_of(host.alloc(), program, words)?;
    start.stdin(input);
    printed_by(host, program, start, watch)
}

/// What this prints, which runs the program and reads what it is told to.
fn printed_by<R: Files + Processes + AllocGlobal + Clock + Eprint>(
    host: &R,
    program: &str,
    mut start: Command,
    watch: &Stopwatch,
) -> Result<Option<Vec<u8>>, HostTrouble> {
    start.env_clear();
    start.stderr(Stdio::null());
    let (writer, mut reader) = pipe(host)?;
    start.stdout(Stdio::from(writer));
    let child = start.spawn(host);
    drop(start);
    let mut child = answered(host.alloc(), "start", program, child)?;
    let ended = wait_within(host, &mut child, watch, &mut None);
    end(&mut child);
    drop(child);
    if !ended?.success() {
        return Ok(None);
    }
    let mut piece = [0u8; MAX_HELP];
    let count = reader.read(&mut piece);
    Ok(Some(Vec::from_slice(host.alloc(), &piece[..count])?))
}

/// The helper with its words.
fn start_of(alloc: Global, program: &str, words: &[&str]) -> Result<Command, HostTrouble> {
    let mut start = Command::new(alloc, program)?;
    for word in words {
        start.arg(*word)?;
    }
    Ok(start)
}
