// What lines tell, and what it is judged to be.

use crate::clashes::clash_told;
use crate::field::element_told;
use crate::given::{Given, Side, given_by, may_stand};
use crate::judging::verdict_told;
use crate::names::{fit_told, pairs_told, renamed_told};
use crate::parts::{Part, Want};
use crate::repairs::{repair_told, sketch_told, taken_told};
use std::alloc::{AllocError, Global};
use t_scene_files::{Fault, Line, Report};

/// What the lines of a scene gave.
#[derive(Drop)]
pub(crate) struct Judgements {
    alloc: Global,
    given: Vec<Given>,
    /// Whose rows are told.
    side: Side,
    is_looked_at: bool,
}

impl Judgements {
    /// Nothing is given.
    pub(crate) fn new(alloc: Global) -> Judgements {
        Judgements {
            alloc,
            given: Vec::new(alloc),
            side: Side::Job,
            is_looked_at: true,
        }
    }

    /// Nothing is given.
    pub(crate) fn begin(&mut self) {
        self.given.clear();
        self.side = Side::Job;
        self.is_looked_at = true;
    }

    pub(crate) fn is_looked_at(&self) -> bool {
        self.is_looked_at
    }

    /// Keeps what the line tells.
    pub(crate) fn give(&mut self, part: Part, line: Line<'_>) -> Result<(), Fault> {
        if !may_stand(part, self.side) {
            return Err(Fault::Line("this is not told here"));
        }
        let side = side_behind(part, self.side);
        let one = given_by(self.alloc, part, side, line.words, line.block)?;
        self.side = side;
        self.is_looked_at = false;
        self.given.push(one)?;
        Ok(())
    }

    /// Looks at what the line wants.
    pub(crate) fn look(
        &mut self,
        report: &mut Report,
        want: Want,
        line: Line<'_>,
    ) -> Result<(), Fault> {
        self.is_looked_at = true;
        report.look();
        let found = found(self.alloc, &self.given, want, line.words)?;
        let compared = compare(self.alloc, report, &found, line);
        drop(found);
        Ok(compared?)
    }
}

/// What is told behind a line that gives this.
fn side_behind(part: Part, side: Side) -> Side {
    match part {
        Part::Beside => Side::Beside,
        Part::Run => Side::Client,
        Part::Logged => Side::Entry,
        Part::Replay => Side::Replay,
        Part::Template
        | Part::Folder
        | Part::File
        | Part::Program
        | Part::Make
        | Part::Put
        | Part::Remove
        | Part::Move
        | Part::Mode
        | Part::Bytes
        | Part::Parity
        | Part::Spelling => side,
    }
}

/// What is found, told as the line that wants it and its block.
fn found(alloc: Global, given: &[Given], want: Want, words: &[&str]) -> Result<Vec<u8>, Fault> {
    match want {
        Want::Verdict => verdict_told(alloc, given),
        Want::Clash => clash_told(alloc, given),
        Want::Pairs => pairs_told(alloc, given),
        Want::Renamed => renamed_told(alloc, given),
        Want::Repair => repair_told(alloc, given),
        Want::Sketch => sketch_told(alloc, given),
        Want::Taken => taken_told(alloc, given),
        Want::Fit => fit_told(alloc, words),
        Want::Element(law) => element_told(alloc, law, words),
    }
}

/// Looks whether the line and its block tell what is found.
fn compare(
    alloc: Global,
    report: &mut Report,
    found: &[u8],
    line: Line<'_>,
) -> Result<(), AllocError> {
    let wanted = wanted_by(alloc, line)?;
    let compared = report.compare(found, &wanted);
    drop(wanted);
    compared
}

/// The line and its block.
fn wanted_by(alloc: Global, line: Line<'_>) -> Result<Vec<u8>, AllocError> {
    let mut wanted = Vec::new(alloc);
    for (place, word) in line.words.iter().enumerate() {
        if place > 0 {
            wanted.push(b' ')?;
        }
        wanted.extend_from_slice(word.as_bytes())?;
    }
    wanted.push(b'\n')?;
    wanted.extend_from_slice(line.block)?;
    Ok(wanted)
}
