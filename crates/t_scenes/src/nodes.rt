// Programs that serve connections.

use crate::answers::Answers;
use crate::counted::Counted;
use crate::keeping::remember;
use crate::lines::OTHER_WORDS;
use crate::outside_clients::OutsideClients;
use crate::place::{Place, started};
use crate::runs::{NextProgram, owned_words};
use cmd_capture::ScriptRunner;
use outside::{MemPort, MemSink};
use server_prog::server_run;
use std::alloc::{AllocError, Global};
use std::mem;
use surrogate_prog::surrogate_run;
use t_scene_files::Fault;

/// Which program it is.
#[derive(Clone, Copy)]
enum Node {
    /// A server of its own: what it keeps is what is kept.
    Server,
    /// A surrogate of its own, whose link is the network and whose runner is that of the clients.
    Surrogate,
}

impl OutsideClients {
    /// A program that the first word tells, with the others as its words, serves the connections.
    pub(crate) fn serve_connections(&mut self, words: &[&str]) -> Result<(), Fault> {
        match words {
            ["server", words @ ..] => {
                if let Some(image) = words.get(2) {
                    remember(self.alloc, &mut self.names, image)?;
                }
                self.end_serving(Node::Server, words)
            }
            ["surrogate", words @ ..] => self.end_serving(Node::Surrogate, words),
            _ => Err(OTHER_WORDS),
        }
    }

    fn end_serving(&mut self, node: Node, words: &[&str]) -> Result<(), Fault> {
        let alloc = self.alloc;
        self.renew_runner();
        let place = started(
            alloc,
            &mut self.prepared,
            &mut self.scripts,
            &mut self.place,
        )?;
        let words = owned_words(alloc, words)?;
        let told = tell_serving(
            alloc,
            node,
            &words,
            &mut self.next,
            &mut self.runner,
            place,
            &mut self.answers,
        );
        drop(words);
        told
    }
}

/// Serves the connections by a program, and tells what it wrote, how it ended, and what each connection got.
fn tell_serving(
    alloc: Global,
    node: Node,
    words: &[String],
    next: &mut NextProgram,
    runner: &mut ScriptRunner,
    place: &mut Place,
    answers: &mut Answers,
) -> Result<(), Fault> {
    let connections = mem::replace(&mut next.connections, Vec::new(alloc));
    let count = connections.len();
    let fails = next.port.take(alloc);
    let mut port = Counted::new(MemPort::new(alloc, connections, fails));
    let mut output = Counted::new(MemSink::new(alloc, next.sink.take(alloc)));
    let status = status_of(alloc, node, words, &mut port, runner, place, &mut output);
    next.port.meet(port.failed);
    next.sink.meet(output.failed);
    let told = answers.tell(alloc, status, output.inner.bytes());
    drop(output);
    let given = answers_of(alloc, &port.inner, count);
    drop(port);
    answers.give(given?);
    told
}

/// The status by which the program ends.
fn status_of(
    alloc: Global,
    node: Node,
    words: &[String],
    port: &mut Counted<MemPort>,
    runner: &mut ScriptRunner,
    place: &mut Place,
    output: &mut Counted<MemSink>,
) -> u8 {
    match node {
        Node::Server => server_run(alloc, words, port, &mut place.keeper, output),
        Node::Surrogate => surrogate_run(alloc, words, port, &mut place.net, runner, output),
    }
}

/// What each of so many connections got, the first one last.
fn answers_of(
    alloc: Global,
    port: &MemPort,
    count: usize,
) -> Result<Vec<Option<Vec<u8>>>, AllocError> {
    let mut given = Vec::new(alloc);
    let mut place = u32::try_from(count).unwrap_or(u32::MAX);
    for _ in 0..count {
        place = place.saturating_sub(1);
        let answer = copy_of(alloc, port.answered(place))?;
        given.push(answer)?;
    }
    Ok(given)
}

fn copy_of(alloc: Global, answer: Option<&[u8]>) -> Result<Option<Vec<u8>>, AllocError> {
    match answer {
        Some(bytes) => Ok(Some(bytes.to_vec(alloc)?)),
        None => Ok(None),
    }
}
