// What scenes of calls are played on.

use crate::bytes::Bytes;
use crate::certificates::Certificates;
use crate::judgements::Judgements;
use crate::words::{Act, Topic, meaning_of, takes_words};
use std::alloc::Global;
use t_scene_files::{Fault, Line, Report, Stage};

/// What a scene speaks of; `Line` before a line says so.
#[derive(Drop)]
pub(crate) struct Calls {
    topic: Topic,
    bytes: Bytes,
    certificates: Certificates,
    judgements: Judgements,
}

impl Calls {
    /// Nothing is spoken of.
    pub(crate) fn new(alloc: Global) -> Calls {
        Calls {
            topic: Topic::Line,
            bytes: Bytes::new(alloc),
            certificates: Certificates::new(alloc),
            judgements: Judgements::new(alloc),
        }
    }
}

impl Stage for Calls {
    /// Nothing is spoken of.
    fn begin(&mut self) {
        self.topic = Topic::Line;
        self.bytes.begin();
        self.certificates.begin();
        self.judgements.begin();
    }

    fn takes_block(&self, words: &[&str]) -> bool {
        match words.first() {
            Some(first) => matches!(meaning_of(first, self.topic), Ok((_, _, true))),
            None => false,
        }
    }

    fn follow(&mut self, report: &mut Report, line: Line<'_>) -> Result<(), Fault> {
        let (topic, act, _) = meaning_of(line.first, self.topic)?;
        self.topic = topic;
        if !line.rest.is_empty() && !takes_words(act) {
            return Err(Fault::Line("no word stands behind this"));
        }
        match act {
            Act::Read(kind) => self.bytes.give_block(kind, &line),
            Act::Payload => self.bytes.give_payload(line.block),
            Act::Look(look) => self.bytes.look(report, look, &line),
            Act::Edit(edit) => self.certificates.edit(edit, line),
            Act::Claim(claim) => self.certificates.claim(claim, line),
            Act::View(view) => self.certificates.look(report, view, line),
            Act::Tell(part) => self.judgements.give(part, line),
            Act::Judge(want) => self.judgements.look(report, want, line),
        }
    }

    fn is_looked_at(&self) -> bool {
        self.bytes.is_looked_at()
            && self.certificates.is_looked_at()
            && self.judgements.is_looked_at()
    }
}
