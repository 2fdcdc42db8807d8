// Frames that are asked and answered.
ghost use Rattle.std.specs.Prelude.{IfSome};
ghost use Rattle.world_rules.specs.Asking.{IsRequest};

use crate::answers::Reply;
use crate::lines::{OTHER_WORDS, none};
use crate::outside_clients::OutsideClients;
use crate::place::{Pooled, started};
use cmd_capture::ScriptRunner;
use std::alloc::Global;
use surrogate_core::Surrogate;
use t_scene_files::Fault;
use wire_frames::{Message, read, write};
use world_rules::{AskError, Link, LinkError, Peer, ask_eight};

/// What is wrong with a block that is no frame.
const NO_FRAME: Fault = Fault::Line("that is no frame");

/// How an ask goes.
#[derive(Clone, Copy)]
enum Times {
    Once,
    Eight,
}

impl OutsideClients {
    /// The server, before it is in a network, answers a frame.
    pub(crate) fn serve(&mut self, words: &[&str], frame: &[u8]) -> Result<(), Fault> {
        none(words)?;
        if self.place.is_some() {
            return Err(Fault::Line("the server is in its network"));
        }
        let reply = self.prepared.server.serve_frame(frame)?;
        self.answers.reply(Reply::Frame(reply));
        Ok(())
    }

    /// Client 1 asks whom the frame is for.
    pub(crate) fn ask(&mut self, words: &[&str], frame: &[u8]) -> Result<(), Fault> {
        let times = match *words {
            [] => Times::Once,
            ["eight"] => Times::Eight,
            _ => return Err(OTHER_WORDS),
        };
        let place = started(
            self.alloc,
            &mut self.prepared,
            &mut self.scripts,
            &mut self.place,
        )?;
        let reply = asked(self.alloc, &mut place.net, frame, times)?;
        self.answers.reply(reply);
        Ok(())
    }

    /// A new surrogate beside the network, which is its link, handles the frame of a message.
    pub(crate) fn operate(&mut self, words: &[&str], frame: &[u8]) -> Result<(), Fault> {
        none(words)?;
        self.renew_runner();
        let place = started(
            self.alloc,
            &mut self.prepared,
            &mut self.scripts,
            &mut self.place,
        )?;
        let (reply, copied) = handled(self.alloc, frame, &mut self.runner, &mut place.net)?;
        self.answers.reply_of_surrogate(reply, copied);
        Ok(())
    }
}

/// Whom the message is for, where it is a request.
fn peer_of(message: &Message) -> Option<Peer>
    ensures { IfSome result (λ peer. IsRequest peer message.now) }
{
    match message {
        Message::Operate { .. } => Some(Peer::Surrogate),
        Message::Store { .. } | Message::Pull { .. } => Some(Peer::Server),
        _ => None,
    }
}

/// What asking whom the frame is for comes to.
fn asked(alloc: Global, net: &mut Pooled, frame: &[u8], times: Times) -> Result<Reply, Fault> {
    let Ok(message) = read(alloc, frame) else {
        return Err(NO_FRAME);
    };
    let peer = peer_of(&message);
    drop(message);
    match peer {
        Some(to) => match times {
            Times::Once => once(net.ask(to, b"there", frame)),
            Times::Eight => settled(ask_eight(net, to, b"there", frame)),
        },
        None => Err(Fault::Line("that is no request")),
    }
}

fn once(reply: Result<Vec<u8>, LinkError>) -> Result<Reply, Fault> {
    match reply {
        Ok(frame) => Ok(Reply::Frame(frame)),
        Err(LinkError::Failed) => Ok(Reply::Failed),
        Err(LinkError::Memory) => Err(Fault::Memory),
    }
}

fn settled(reply: Result<Vec<u8>, AskError>) -> Result<Reply, Fault> {
    match reply {
        Ok(frame) => Ok(Reply::Frame(frame)),
        Err(AskError::Troubles) => Ok(Reply::Failed),
        Err(AskError::Memory) => Err(Fault::Memory),
    }
}

/// The frame of a new surrogate's reply to the frame, and how many rows its copy then has.
fn handled(
    alloc: Global,
    frame: &[u8],
    runner: &mut ScriptRunner,
    net: &mut Pooled,
) -> Result<(Vec<u8>, u32), Fault> {
    let Ok(request) = read(alloc, frame) else {
        return Err(NO_FRAME);
    };
    let mut surrogate = Surrogate::new(alloc);
    let reply = surrogate.serve(request, b"work", runner, net, b"server");
    let copied = surrogate.copy_tree().count();
    drop(surrogate);
    let Ok(reply) = reply else {
        return Err(Fault::Memory);
    };
    let written = write(alloc, &reply);
    drop(reply);
    Ok((written?, copied))
}
