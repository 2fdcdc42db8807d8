// What is found otherwise than it is wanted, as text.

use crate::fault::Fault;
use std::alloc::{AllocError, Global};

/// How many bytes of a line are shown.
const SHOWN: usize = 200;

/// What is written of a file.
#[derive(Drop)]
pub struct Report {
    pub(crate) alloc: Global,
    /// The file's name.
    pub(crate) file: String,
    /// The name of the scene that is played, as it stands before what is wrong; nothing before the first one.
    pub(crate) scene: String,
    pub(crate) scenes: u32,
    /// The number of the line that is followed, counted from 1.
    pub(crate) line: u32,
    pub(crate) text: String,
    /// How many lines were no line of the language, or wanted what is not so.
    pub(crate) wrong: u32,
    /// How much was looked at in the scene.
    pub(crate) looks: u32,
}

impl Report {
    /// A report of the file in which nothing is wrong yet.
    pub(crate) fn new(alloc: Global, file: &str) -> Result<Report, AllocError> {
        let file = String::from_str(alloc, file)?;
        Ok(Report {
            alloc,
            file,
            scene: String::new(alloc),
            scenes: 0,
            line: 0,
            text: String::new(alloc),
            wrong: 0,
            looks: 0,
        })
    }

    /// A scene begins, in which nothing is looked at yet.
    pub(crate) fn begin_scene(&mut self, name: &str) -> Result<(), AllocError> {
        self.looks = 0;
        self.scenes = self.scenes.saturating_add(1);
        self.scene.clear();
        self.scene.push_str(name)?;
        self.scene.push_str(": ")
    }

    /// Something was looked at.
    pub fn look(&mut self) {
        self.looks = self.looks.saturating_add(1);
    }

    /// Tells what is wrong with the line of this number, where it was not followed.
    pub(crate) fn note(&mut self, line: u32, done: Result<(), Fault>) -> Result<(), AllocError> {
        match done {
            Ok(()) => Ok(()),
            Err(Fault::Line(what)) => {
                self.line = line;
                self.tell(what)
            }
            Err(Fault::Memory) => Err(AllocError),
        }
    }

    /// Tells what is wrong with the line, which is looked at by that.
    pub fn tell(&mut self, what: &str) -> Result<(), AllocError> {
        self.look();
        self.wrong = self.wrong.saturating_add(1);
        let line = self.line.to_string(self.alloc)?;
        let told = tell_at(&mut self.text, &self.file, &line, &self.scene, what);
        drop(line);
        told
    }

    /// Looks whether what is found is what is wanted, line by line, and tells the first line that is not.
    pub fn compare(&mut self, found: &[u8], wanted: &[u8]) -> Result<(), AllocError> {
        if found == wanted {
            return Ok(());
        }
        let (mut found, mut wanted) = (Some(found), Some(wanted));
        for number in 1..u32::MAX {
            let (left, found_behind) = next_line(found);
            let (right, wanted_behind) = next_line(wanted);
            if left != right || left.is_none() {
                return self.differ(number, left, right);
            }
            found = found_behind;
            wanted = wanted_behind;
        }
        self.tell("more lines than can be counted")
    }

    fn differ(
        &mut self,
        number: u32,
        found: Option<&[u8]>,
        wanted: Option<&[u8]>,
    ) -> Result<(), AllocError> {
        let found = shown(self.alloc, found)?;
        let wanted = shown(self.alloc, wanted)?;
        let what = format!(in self.alloc; "line {number}: wanted {wanted}, found {found}")?;
        let told = self.tell(&what);
        drop(what);
        told
    }

    /// Looks whether two numbers are equal.
    pub fn compare_numbers(&mut self, found: u64, wanted: u64) -> Result<(), AllocError> {
        if found == wanted {
            return Ok(());
        }
        let what = format!(in self.alloc; "wanted {wanted}, found {found}")?;
        let told = self.tell(&what);
        drop(what);
        told
    }
}

/// Adds a line that tells what is wrong, behind its place.
fn tell_at(
    text: &mut String,
    file: &str,
    line: &str,
    scene: &str,
    what: &str,
) -> Result<(), AllocError> {
    for part in [file, ":", line, ": ", scene, what, "\n"] {
        text.push_str(part)?;
    }
    Ok(())
}

/// The first line of the bytes, and what stands behind its end, where it has one.
fn next_line(bytes: Option<&[u8]>) -> (Option<&[u8]>, Option<&[u8]>) {
    let Some(bytes) = bytes else {
        return (None, None);
    };
    match bytes.iter().position(|byte| *byte == b'\n') {
        Some(end) => (Some(&bytes[..end]), Some(&bytes[end + 1..])),
        None => (Some(bytes), None),
    }
}

/// A line in quotes, where it is text, and else its bytes as digits.
fn shown(alloc: Global, line: Option<&[u8]>) -> Result<String, AllocError> {
    let Some(line) = line else {
        return String::from_str(alloc, "nothing");
    };
    let front = &line[..line.len().min(SHOWN)];
    match str::from_utf8(front) {
        Ok(text) if !text.bytes().any(|byte| byte < b' ') => {
            let length = line.len();
            if length > SHOWN {
                format!(in alloc; "'{text}'.. of {length} bytes")
            } else {
                format!(in alloc; "'{text}'")
            }
        }
        _ => digits_of(alloc, front),
    }
}

fn digits_of(alloc: Global, bytes: &[u8]) -> Result<String, AllocError> {
    let mut text = String::new(alloc);
    for byte in bytes {
        text.push_str(&format!(in alloc; "{byte:02x}")?)?;
    }
    Ok(text)
}
