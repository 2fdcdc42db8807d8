// What came of the acts of a scene, until it is looked at.

use crate::lines::{Came, none, one};
use std::alloc::Global;
use std::mem;
use t_scene_files::{Fault, Report, number, small};

/// What a run came to.
#[derive(Drop)]
pub(crate) struct Told {
    status: u8,
    bytes: Vec<u8>,
}

/// What was answered last.
#[derive(Drop)]
pub(crate) enum Reply {
    Frame(Vec<u8>),
    /// The ask failed, eight times where it was asked so often.
    Failed,
}

/// What came of the last acts.
#[derive(Drop)]
pub(crate) struct Answers {
    told: Option<Told>,
    reply: Option<Reply>,
    /// What the connections of the last program that served got, the next to be looked at last.
    given: Vec<Option<Vec<u8>>>,
    /// How many rows the copy of the surrogate has that was asked last.
    copied: u32,
}

impl Answers {
    /// Nothing was done.
    pub(crate) fn new(alloc: Global) -> Answers {
        Answers {
            told: None,
            reply: None,
            given: Vec::new(alloc),
            copied: 0,
        }
    }

    /// Whether all that was answered was looked at.
    pub(crate) fn is_looked_at(&self) -> bool {
        self.told.is_none() && self.reply.is_none() && self.given.is_empty()
    }

    /// A run wrote these bytes, and ended so.
    pub(crate) fn tell(&mut self, alloc: Global, status: u8, bytes: &[u8]) -> Result<(), Fault> {
        let bytes = bytes.to_vec(alloc)?;
        drop(mem::replace(&mut self.told, Some(Told { status, bytes })));
        Ok(())
    }

    /// A frame was answered so.
    pub(crate) fn reply(&mut self, reply: Reply) {
        drop(mem::replace(&mut self.reply, Some(reply)));
    }

    /// A surrogate answered a frame by this one, and its copy has so many rows.
    pub(crate) fn reply_of_surrogate(&mut self, reply: Vec<u8>, copied: u32) {
        self.reply(Reply::Frame(reply));
        self.copied = copied;
    }

    /// The connections of a program that served got this, the first one last.
    pub(crate) fn give(&mut self, given: Vec<Option<Vec<u8>>>) {
        drop(mem::replace(&mut self.given, given));
    }

    /// Looks at what came of the last acts.
    pub(crate) fn look(
        &mut self,
        report: &mut Report,
        came: Came,
        words: &[&str],
        block: &[u8],
    ) -> Result<(), Fault> {
        report.look();
        match came {
            Came::Ends => self.look_at_run(report, words, block),
            Came::Copies => self.look_at_copy(report, words),
            Came::Replies => self.look_at_reply(report, words, Some(block)),
            Came::Fails => self.look_at_reply(report, words, None),
            Came::Answer => self.look_at_connection(report, words, Some(block)),
            Came::Unanswered => self.look_at_connection(report, words, None),
        }
    }

    /// The run that was not looked at yet wrote this, and ended so.
    fn look_at_run(
        &mut self,
        report: &mut Report,
        words: &[&str],
        block: &[u8],
    ) -> Result<(), Fault> {
        let status = small(one(words)?)?;
        let Some(told) = self.told.take() else {
            return Err(Fault::Line("no run is behind this"));
        };
        let first = report.compare_numbers(u64::from(told.status), u64::from(status));
        let second = report.compare(&told.bytes, block);
        drop(told);
        first?;
        Ok(second?)
    }

    fn look_at_copy(&self, report: &mut Report, words: &[&str]) -> Result<(), Fault> {
        let rows = number(one(words)?)?;
        Ok(report.compare_numbers(u64::from(self.copied), u64::from(rows))?)
    }

    /// The ask that was not looked at yet had this answer, or failed.
    fn look_at_reply(
        &mut self,
        report: &mut Report,
        words: &[&str],
        wanted: Option<&[u8]>,
    ) -> Result<(), Fault> {
        none(words)?;
        let Some(reply) = self.reply.take() else {
            return Err(Fault::Line("nothing was asked before this"));
        };
        let found = match &reply {
            Reply::Frame(frame) => Some(frame.as_slice()),
            Reply::Failed => None,
        };
        let compared = compare(report, found, wanted);
        drop(reply);
        compared
    }

    /// The next connection whose answer was not looked at got this, or nothing.
    fn look_at_connection(
        &mut self,
        report: &mut Report,
        words: &[&str],
        wanted: Option<&[u8]>,
    ) -> Result<(), Fault> {
        none(words)?;
        let Some(given) = self.given.pop() else {
            return Err(Fault::Line("no connection is left"));
        };
        let found = match &given {
            Some(answer) => Some(answer.as_slice()),
            None => None,
        };
        let compared = compare(report, found, wanted);
        drop(given);
        compared
    }
}

/// Looks whether there is an answer where one is wanted, and it is this.
fn compare(report: &mut Report, found: Option<&[u8]>, wanted: Option<&[u8]>) -> Result<(), Fault> {
    let compared = match (found, wanted) {
        (Some(answer), Some(block)) => report.compare(answer, block),
        (None, None) => Ok(()),
        (Some(_), None) => report.tell("there is an answer"),
        (None, Some(_)) => report.tell("there is no answer"),
    };
    Ok(compared?)
}
