// How numbers, paths and causes are told to people.
use std::alloc::{AllocError, Global};
use std::fmt::{self, Display, Formatter, Write};
use vol_tree::{Content, Path};
use wire_frames::{Cause, Kind};

/// What the groups of three figures of a number count.
const GROUPS: [u64; 7] = [
    1_000_000_000_000_000_000,
    1_000_000_000_000_000,
    1_000_000_000_000,
    1_000_000_000,
    1_000_000,
    1_000,
    1,
];

/// A number, with a comma between groups of three figures.
#[derive(Clone, Copy, Debug, Drop)]
pub(crate) struct Grouped(pub(crate) u64);

impl Display for Grouped {
    fn fmt<W: fmt::Write>(&self, f: &mut Formatter<W>) -> fmt::Result {
        let mut is_begun = false;
        for group in GROUPS {
            let figures = self.0.checked_div(group).unwrap_or(0) % 1_000;
            if is_begun {
                write!(f, ",{figures:03}")?;
            } else if self.0 >= group || group == 1 {
                is_begun = true;
                write!(f, "{figures}")?;
            }
        }
        Ok(())
    }
}

/// So many bytes, as a number with commas.
pub(crate) fn bytes(count: usize) -> Grouped {
    Grouped(count as u64)
}

/// Bytes as text, of which a terminal shows each character in its place: what is no text, and what would steer it, is a `?`.
#[derive(Clone, Copy, Debug, Drop)]
pub(crate) struct Shown<'a>(pub(crate) &'a [u8]);

impl<'a> Display for Shown<'a> {
    fn fmt<W: fmt::Write>(&self, f: &mut Formatter<W>) -> fmt::Result {
        match str::from_utf8(self.0) {
            Ok(text) => show_text(text, f),
            Err(_) => show_bytes(self.0, f),
        }
    }
}

/// Shows a text.
fn show_text<W: fmt::Write>(text: &str, f: &mut Formatter<W>) -> fmt::Result {
    for letter in text.chars() {
        f.write_char(if letter.is_control() { '?' } else { letter })?;
    }
    Ok(())
}

/// Shows bytes of which some are no text.
fn show_bytes<W: fmt::Write>(bytes: &[u8], f: &mut Formatter<W>) -> fmt::Result {
    for &byte in bytes {
        let is_shown = byte == b' ' || byte.is_ascii_graphic();
        f.write_char(if is_shown { byte as char } else { '?' })?;
    }
    Ok(())
}

/// What a command is said to read.
#[derive(Debug, Drop)]
pub(crate) enum Reads {
    /// All that stands in its folder, which has this name.
    Folder(Content),
    /// What its options name.
    Inputs,
    /// That is not known.
    Unknown,
}

impl Display for Reads {
    fn fmt<W: fmt::Write>(&self, f: &mut Formatter<W>) -> fmt::Result {
        match self {
            Reads::Folder(folder) => write!(
                f,
                "what the command read in /{}; name what it reads by in=",
                Shown(folder.bytes())
            ),
            Reads::Inputs => f.write_str("what its in= name"),
            Reads::Unknown => f.write_str("what the command read"),
        }
    }
}

/// A cause in words, with its path or its fault, of a command that reads this.
///
/// # Errors
///
/// Where memory runs out.
pub(crate) fn cause_text(
    alloc: Global,
    cause: &Cause,
    reads: &Reads,
) -> Result<String, AllocError> {
    match cause {
        Cause::OtherJob { .. } => {
            format!(in alloc; "OtherJob: the server has another version of {reads}")
        }
        Cause::NoJob { code: 1, .. } => String::from_str(alloc, "NoJob folder"),
        Cause::NoJob { index, .. } => format!(in alloc; "NoJob input {index}"),
        Cause::NoServer => String::from_str(alloc, "NoServer"),
        Cause::NotRun => String::from_str(alloc, "NotRun"),
        Cause::Status { logged, replayed } => {
            format!(in alloc; "Status {replayed} in place of {logged}")
        }
        Cause::OddTree(row) => format!(in alloc; "OddTree row {row}"),
        Cause::Mismatch(path) => path_text(alloc, "Mismatch", path),
        Cause::Clash(path) => path_text(alloc, "Clash", path),
        Cause::NotFit { index, fault } => format!(in alloc; "NotFit effect {index}: {fault}"),
        Cause::Refused(code) => refused_text(alloc, *code),
        Cause::NoMemory => String::from_str(alloc, "NoMemory"),
    }
}

/// A cause with its path.
fn path_text(alloc: Global, cause: &str, path: &Path) -> Result<String, AllocError> {
    let path = path.text()?;
    let text = format!(in alloc; "{cause} {}", Shown(path.bytes()));
    drop(path);
    text
}

/// That the server refused a store, and how.
fn refused_text(alloc: Global, code: u8) -> Result<String, AllocError> {
    match Kind::of(code) {
        Some(kind) => format!(in alloc; "Refused {kind:?}"),
        None => format!(in alloc; "Refused {code}"),
    }
}
