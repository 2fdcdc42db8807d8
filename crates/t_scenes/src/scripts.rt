// What commands come to.

use crate::lines::{OTHER_WORDS, two};
use cmd_capture::{Outcome, RawRow, RawRows, ScriptAnswer};
use std::alloc::{AllocError, Global};
use std::mem;
use t_scene_files::{Fault, number, small};
use vol_tree::{Content, Node};

/// What is wrong with a row that no run leaves.
const NO_RUN: Fault = Fault::Line("no run leaves this");

/// Whose run it is.
#[derive(Clone, Copy)]
pub(crate) enum Whose {
    Client,
    Surrogate,
}

/// What a run leaves at a path.
#[derive(Clone, Copy)]
pub(crate) enum Left<'a> {
    Folder,
    File(&'a [u8]),
    /// A file that may be run.
    Program(&'a [u8]),
}

/// What the next commands come to.
#[derive(Drop)]
pub(crate) struct Scripts {
    client: Vec<ScriptAnswer>,
    surrogate: Vec<ScriptAnswer>,
    /// Whose run was told last.
    last: Whose,
}

impl Scripts {
    /// Nothing is told.
    pub(crate) fn new(alloc: Global) -> Scripts {
        Scripts {
            client: Vec::new(alloc),
            surrogate: Vec::new(alloc),
            last: Whose::Client,
        }
    }

    /// Whether each was given to a runner.
    pub(crate) fn is_met(&self) -> bool {
        self.client.is_empty() && self.surrogate.is_empty()
    }

    fn of(&mut self, whose: Whose) -> &mut Vec<ScriptAnswer> {
        match whose {
            Whose::Client => &mut self.client,
            Whose::Surrogate => &mut self.surrogate,
        }
    }

    /// Takes what was told since it was taken last.
    pub(crate) fn take(&mut self, alloc: Global, whose: Whose) -> Vec<ScriptAnswer> {
        mem::replace(self.of(whose), Vec::new(alloc))
    }

    /// The next run that has no answer yet comes to what these words say.
    pub(crate) fn answer(
        &mut self,
        alloc: Global,
        whose: Whose,
        words: &[&str],
    ) -> Result<(), Fault> {
        self.last = whose;
        let answer = answer_of(alloc, words)?;
        Ok(self.of(whose).push(answer)?)
    }

    /// The run that was told last leaves this at the path.
    pub(crate) fn leave(&mut self, alloc: Global, path: &str, left: Left<'_>) -> Result<(), Fault> {
        match self.of(self.last).last_mut() {
            Some(ScriptAnswer::Give(outcome)) => add_row(alloc, &mut outcome.rows, path, left),
            Some(ScriptAnswer::Fail) | None => Err(NO_RUN),
        }
    }

    /// It leaves a folder for each of the numbers that these words tell.
    pub(crate) fn leave_folders(&mut self, alloc: Global, words: &[&str]) -> Result<(), Fault> {
        let (first, last) = two(words)?;
        let (first, last) = (number(first)?, number(last)?);
        for number in first..=last {
            let name = number.to_string(alloc)?;
            let left = self.leave(alloc, &name, Left::Folder);
            drop(name);
            left?;
        }
        Ok(())
    }
}

fn answer_of(alloc: Global, words: &[&str]) -> Result<ScriptAnswer, Fault> {
    match *words {
        ["fails"] => Ok(ScriptAnswer::Fail),
        ["gives", status] => Ok(ScriptAnswer::Give(Outcome {
            status: small(status)?,
            rows: RawRows::new(alloc),
        })),
        _ => Err(OTHER_WORDS),
    }
}

fn add_row(alloc: Global, rows: &mut RawRows, path: &str, left: Left<'_>) -> Result<(), Fault> {
    let row = row_of(alloc, path, left)?;
    Ok(rows.push(row)?)
}

fn row_of(alloc: Global, path: &str, left: Left<'_>) -> Result<RawRow, AllocError> {
    let path = Content::of(alloc, path.as_bytes())?;
    match node_of(alloc, left) {
        Ok(node) => Ok(RawRow { path, node }),
        Err(refused) => {
            drop(path);
            Err(refused)
        }
    }
}

fn node_of(alloc: Global, left: Left<'_>) -> Result<Node, AllocError> {
    match left {
        Left::Folder => Ok(Node::Folder),
        Left::File(bytes) => file_of(alloc, bytes, false),
        Left::Program(bytes) => file_of(alloc, bytes, true),
    }
}

fn file_of(alloc: Global, bytes: &[u8], exec: bool) -> Result<Node, AllocError> {
    let content = Content::of(alloc, bytes)?;
    Ok(Node::File { content, exec })
}
