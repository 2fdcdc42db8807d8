// Asks of one request, at each of several addresses.
ghost use Rattle.std.specs.Prelude.{◌≡◌, IfOk, OnOk};
ghost use Rattle.outside.specs.Outside.{HasCause};
ghost use Rattle.wire_frames.specs.declared.message.Message.{Message};
ghost use Rattle.wire_frames.specs.Frame.{Spells};
ghost use Rattle.world_rules.specs.Telling.{ToldWorlds, IsCalm};
ghost use Rattle.world_rules.specs.Asking.{IsRequest, IsReplyTo, IsDirect};
ghost use Rattle.surrogate_pool.specs.Rounds.{is_done, is_done_kind};
ghost use Rattle.surrogate_pool.specs.Inside.{HasAsked, is_answer_of};

use crate::addresses::{addresses_in, part_at};
use std::alloc::Global;
use wire_frames::{Kind, head_of};
use world_rules::{Link, LinkError, Peer};

/// What asks of one request came to: how many were answered or failed, and what is made of them.
#[derive(Drop)]
pub(crate) struct Tries {
    pub(crate) count: usize,
    pub(crate) answer: Result<Vec<u8>, LinkError>,
}

impl Tries {
    /// Whether memory did not run out in them.
    pub(crate) fn is_answered(&self) -> bool
        ensures { result ≡ is_answer_of self.now.answer }
    {
        !matches!(self.answer, Err(LinkError::Memory))
    }
}

/// Asks the server once, or the surrogate at each of the addresses that are joined by commas, until one tells that the operation is
/// done.
pub(crate) fn ask_link<L: Link>(
    alloc: Global,
    link: &mut L,
    to: Peer,
    address: &[u8],
    frame: &[u8],
) -> Tries
    requires { (request : Message) × Spells request frame.now × IsRequest to request }
    ensures reply { (request : Message) → Spells request frame.now
        → IfOk result.answer (λ bytes. IsReplyTo request bytes.items) }
    ensures asked { (request : Message) → Spells request frame.now → ToldWorlds (L.tells link.old) (L.tells link.new)
        (HasAsked to address.now request result.count result.answer) }
    ensures direct { (request : Message) → Spells request frame.now → to ≡ Peer.Server → IsCalm (L.tells link.old) (L.tells link.new)
        → ToldWorlds (L.tells link.old) (L.tells link.new)
        (λ old new. IsDirect to address.now request old new result.answer) }
    ensures once { to ≡ Peer.Server → OnOk result.answer (result.count ≡ 1) }
    ensures cause { HasCause LinkError.Failed (L.tells link.old).troubles (L.tells link.new).troubles result.answer }
    ensures kept { L.keeps link.old link.new }
{
    match to {
        Peer::Server => pass_on(link, address, frame),
        Peer::Surrogate => ask_each(alloc, link, address, frame),
    }
}

/// Asks the server once.
fn pass_on<L: Link>(link: &mut L, address: &[u8], frame: &[u8]) -> Tries
    requires { (request : Message) × Spells request frame.now × IsRequest Peer.Server request }
    ensures reply { (request : Message) → Spells request frame.now
        → IfOk result.answer (λ bytes. IsReplyTo request bytes.items) }
    ensures asked { (request : Message) → Spells request frame.now → ToldWorlds (L.tells link.old) (L.tells link.new)
        (HasAsked Peer.Server address.now request result.count result.answer) }
    ensures direct { (request : Message) → Spells request frame.now → IsCalm (L.tells link.old) (L.tells link.new)
        → ToldWorlds (L.tells link.old) (L.tells link.new)
        (λ old new. IsDirect Peer.Server address.now request old new result.answer) }
    ensures cause { HasCause LinkError.Failed (L.tells link.old).troubles (L.tells link.new).troubles result.answer }
    ensures kept { L.keeps link.old link.new }
    ensures once { OnOk result.answer (result.count ≡ 1) }
{
    let answer = link.ask(Peer::Server, address, frame);
    let count = match &answer {
        Ok(_) | Err(LinkError::Failed) => 1,
        Err(LinkError::Memory) => 0,
    };
    Tries { count, answer }
}

/// Asks the surrogate at each of the addresses in order, until one tells that the operation is done. Where none does, the result is
/// the first reply that came. Want of memory ends the asking.
fn ask_each<L: Link>(alloc: Global, link: &mut L, address: &[u8], frame: &[u8]) -> Tries
    requires { (request : Message) × Spells request frame.now × IsRequest Peer.Surrogate request }
    ensures reply { (request : Message) → Spells request frame.now
        → IfOk result.answer (λ bytes. IsReplyTo request bytes.items) }
    ensures asked { (request : Message) → Spells request frame.now → ToldWorlds (L.tells link.old) (L.tells link.new)
        (HasAsked Peer.Surrogate address.now request result.count result.answer) }
    ensures cause { HasCause LinkError.Failed (L.tells link.old).troubles (L.tells link.new).troubles result.answer }
    ensures kept { L.keeps link.old link.new }
{
    let Ok(addresses) = addresses_in(alloc, address) else {
        return Tries {
            count: 0,
            answer: Err(LinkError::Memory),
        };
    };
    let many = addresses.len();
    let mut first: Option<Vec<u8>> = None;
    for tried in 0..many {
        let part = part_at(&addresses, tried);
        match link.ask(Peer::Surrogate, part, frame) {
            Ok(reply) => {
                if is_done(&reply) {
                    return Tries {
                        count: tried + 1,
                        answer: Ok(reply),
                    };
                }
                first = Some(first.unwrap_or(reply));
            }
            Err(LinkError::Failed) => {}
            Err(LinkError::Memory) => {
                return Tries {
                    count: tried,
                    answer: Err(LinkError::Memory),
                };
            }
        }
    }
    Tries {
        count: many,
        answer: first.ok_or(LinkError::Failed),
    }
}

/// Whether the frame of a reply tells that an operation is done.
fn is_done(frame: &[u8]) -> bool
    ensures { (reply : Message) → Spells reply frame.now → result ≡ is_done reply }
{
    match head_of(frame) {
        Some(head) => is_done_kind(head.kind),
        None => false,
    }
}

/// Whether replies of a kind tell it.
fn is_done_kind(kind: Kind) -> bool
    ensures { result ≡ is_done_kind kind }
{
    matches!(kind, Kind::Done)
}
