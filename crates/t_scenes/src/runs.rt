// Runs of clients, and what the next program is to meet.

use crate::answers::Answers;
use crate::counted::Counted;
use crate::keeping::remember;
use crate::lines::{OTHER_WORDS, two};
use crate::outside_clients::OutsideClients;
use crate::place::{Place, started};
use client_prog::client_run;
use cmd_capture::ScriptRunner;
use mem_net::LiarLink;
use outside::{MemSink, MemSource};
use std::alloc::{AllocError, Global};
use std::mem;
use t_scene_files::{Fault, calls};

/// The calls of an object of the next program that fail.
#[derive(Drop)]
pub(crate) struct Fails {
    calls: Vec<u32>,
    /// How many lines say so.
    lines: u32,
    /// Whether a line made no call of an earlier program fail.
    is_missed: bool,
}

impl Fails {
    fn new(alloc: Global) -> Fails {
        Fails {
            calls: Vec::new(alloc),
            lines: 0,
            is_missed: false,
        }
    }

    /// The calls that the words behind `fails` tell are among them.
    pub(crate) fn add(&mut self, words: &[&str]) -> Result<(), Fault> {
        let (fails, which) = two(words)?;
        if fails != "fails" {
            return Err(OTHER_WORDS);
        }
        let (first, last) = calls(which)?;
        self.lines = self.lines.saturating_add(1);
        for call in first..=last {
            self.calls.push(call)?;
        }
        Ok(())
    }

    /// Takes them for a program.
    pub(crate) fn take(&mut self, alloc: Global) -> Vec<u32> {
        mem::replace(&mut self.calls, Vec::new(alloc))
    }

    /// So many calls of the program failed.
    pub(crate) fn meet(&mut self, failed: u32) {
        self.is_missed = self.is_missed || failed < self.lines;
        self.lines = 0;
    }

    /// Whether each line made a call fail.
    fn is_met(&self) -> bool {
        self.lines == 0 && !self.is_missed
    }
}

/// What the next program is to meet.
#[derive(Drop)]
pub(crate) struct NextProgram {
    pub(crate) source: Fails,
    pub(crate) sink: Fails,
    pub(crate) port: Fails,
    /// What its connections bring.
    pub(crate) connections: Vec<Vec<u8>>,
    /// What a liar answers that it asks in place of the network, where there are such replies.
    pub(crate) lies: Vec<Vec<u8>>,
    /// Whether a liar of an earlier program was not asked for each of its replies.
    is_unasked: bool,
}

impl NextProgram {
    /// Nothing fails.
    pub(crate) fn new(alloc: Global) -> NextProgram {
        NextProgram {
            source: Fails::new(alloc),
            sink: Fails::new(alloc),
            port: Fails::new(alloc),
            connections: Vec::new(alloc),
            lies: Vec::new(alloc),
            is_unasked: false,
        }
    }

    /// Whether programs met all of it.
    pub(crate) fn is_met(&self) -> bool {
        self.source.is_met()
            && self.sink.is_met()
            && self.port.is_met()
            && self.connections.is_empty()
            && self.lies.is_empty()
            && !self.is_unasked
    }
}

impl OutsideClients {
    /// Runs a client.
    pub(crate) fn run(&mut self, words: &[&str], input: &[u8]) -> Result<(), Fault> {
        let alloc = self.alloc;
        self.renew_runner();
        if let Some(image) = words.get(2) {
            remember(alloc, &mut self.names, image)?;
        }
        let place = started(
            alloc,
            &mut self.prepared,
            &mut self.scripts,
            &mut self.place,
        )?;
        let words = owned_words(alloc, words)?;
        let told = tell_run(
            alloc,
            &words,
            input,
            &mut self.next,
            &mut self.runner,
            place,
            &mut self.answers,
        );
        drop(words);
        told
    }
}

/// Runs a client on these words, and tells what it wrote and how it ended.
fn tell_run(
    alloc: Global,
    words: &[String],
    input: &[u8],
    next: &mut NextProgram,
    runner: &mut ScriptRunner,
    place: &mut Place,
    answers: &mut Answers,
) -> Result<(), Fault> {
    let bytes = input.to_vec(alloc)?;
    let mut source = Counted::new(MemSource::new(alloc, bytes, next.source.take(alloc)));
    let mut output = Counted::new(MemSink::new(alloc, next.sink.take(alloc)));
    let status = status_of(alloc, words, &mut source, &mut output, next, runner, place);
    next.source.meet(source.failed);
    next.sink.meet(output.failed);
    drop(source);
    let told = answers.tell(alloc, status, output.inner.bytes());
    drop(output);
    told
}

/// The status by which a client ends that asks the network, or a liar in its place.
fn status_of(
    alloc: Global,
    words: &[String],
    source: &mut Counted<MemSource>,
    output: &mut Counted<MemSink>,
    next: &mut NextProgram,
    runner: &mut ScriptRunner,
    place: &mut Place,
) -> u8 {
    let keeper = &mut place.keeper;
    if next.lies.is_empty() {
        return client_run(alloc, words, source, output, keeper, runner, &mut place.net);
    }
    let lies = mem::replace(&mut next.lies, Vec::new(alloc));
    let mut liar = LiarLink::new(alloc, lies);
    let status = client_run(alloc, words, source, output, keeper, runner, &mut liar);
    next.is_unasked = next.is_unasked || liar.replies_left() > 0;
    status
}

/// The words, of which `''` is the empty one.
pub(crate) fn owned_words(alloc: Global, words: &[&str]) -> Result<Vec<String>, AllocError> {
    let mut owned = Vec::new(alloc);
    for word in words {
        let text = if *word == "''" { "" } else { *word };
        let text = String::from_str(alloc, text)?;
        owned.push(text)?;
    }
    Ok(owned)
}
