// The way to a peer, and up to eight asks over it.
ghost use Rattle.std.specs.Prelude.{◌≡◌, ◌≤◌, Option, Result, IfOk};
ghost use Rattle.std.specs.declared.alloc.AllocError.{AllocError};
ghost use Rattle.outside.specs.Outside.{HasCause};
ghost use Rattle.wire_frames.specs.declared.message.Message.{Message};
ghost use Rattle.wire_frames.specs.Frame.{Spells};
ghost use Rattle.world_rules.specs.Telling.{LinkTelling, ToldWorlds, IsCalm};
ghost use Rattle.world_rules.specs.Asking.{IsRequest, IsReplyTo, AsksOnce, IsDirect};
ghost use Rattle.world_rules.specs.Settling.{Settled, IsReadAs};

use crate::Peer;
use std::alloc::AllocError;
use thiserror::Error;

/// How many asks of a request fail before it is given up.
pub const MAX_ASKS: u32 = 8;

/// Why an ask has no answer.
#[derive(Clone, Copy, Debug, PartialEq, Eq, Error)]
pub enum LinkError {
    /// No reply came, or none that spells a reply to the request.
    #[error("no reply came")]
    Failed,
    #[error("out of memory")]
    Memory,
}

impl From<AllocError> for LinkError {
    ghost use Rattle.world_rules.specs.declared.link.LinkError.TheVariants.{Memory};

    ghost from_gives = { λ _ e. e ≡ Memory };

    fn from(_: AllocError) -> Self {
        LinkError::Memory
    }
}

/// Why a request is unanswered after up to eight asks.
#[derive(Clone, Copy, Debug, PartialEq, Eq, Error)]
pub enum AskError {
    /// Eight asks failed.
    #[error("no reply came to eight asks")]
    Troubles,
    #[error("out of memory")]
    Memory,
}

/// The way to the peers. It may lose, repeat and reorder messages, and others may use it, too.
pub trait Link {
    /// What the link tells of itself.
    ghost tells: { Self → LinkTelling };

    /// What else an ask keeps of the link, and asks in a row: what a caller over any link hands on to one who knows this link.
    ghost keeps: { Self → Self → Type 0 };

    /// Asks a peer once: sends the frame of a request to an address, and gives the frame of a reply to it. `Failed` comes
    /// only where the link had trouble in this call; after `Memory` the request may have been sent or not.
    fn ask(&mut self, to: Peer, address: &[u8], frame: &[u8]) -> Result<Vec<u8>, LinkError>
        requires { (request : Message) × Spells request frame.now × IsRequest to request }
        ensures reply { (request : Message) → Spells request frame.now
            → IfOk result (λ bytes. IsReplyTo request bytes.items) }
        ensures world { (request : Message) → Spells request frame.now
            → ToldWorlds (tells self.old) (tells self.new)
            (λ old new. AsksOnce to address.now request old new result) }
        // without trouble the reply is the server's answer at a moment of this call
        ensures direct { (request : Message) → Spells request frame.now → to ≡ Peer.Server
            → IsCalm (tells self.old) (tells self.new)
            → ToldWorlds (tells self.old) (tells self.new)
            (λ old new. IsDirect to address.now request old new result) }
        ensures cause { HasCause LinkError.Failed (tells self.old).troubles (tells self.new).troubles result }
        ensures kept { keeps self.old self.new };

    ghost keeps_none: { (x : Self) → keeps x x };

    ghost keeps_then: { (x y z : Self) → keeps x y → keeps y z → keeps x z };
}

/// Asks a peer up to eight times, until an ask does not fail, and gives the frame of a reply to the request.
///
/// # Errors
///
/// `Troubles` after eight asks that failed; `Memory` ends the asking.
pub fn ask_eight<L: Link>(
    link: &mut L,
    to: Peer,
    address: &[u8],
    frame: &[u8],
) -> Result<Vec<u8>, AskError>
    requires { (request : Message) × Spells request frame.now × IsRequest to request }
    ensures settled { (request : Message) → Spells request frame.now → (came : Result (Option Message) AllocError)
        × IsReadAs result came × Settled to address.now request (L.tells link.old) (L.tells link.new) came }
    // without trouble there was one ask, and its reply is the server's answer at a moment of this call
    ensures direct { (request : Message) → Spells request frame.now → to ≡ Peer.Server
        → IsCalm (L.tells link.old) (L.tells link.new)
        → ToldWorlds (L.tells link.old) (L.tells link.new)
        (λ old new. IsDirect to address.now request old new result) }
    ensures later { (L.tells link.old).troubles ≤ (L.tells link.new).troubles }
    ensures kept { L.keeps link.old link.new }
{
    for _tried in 0..MAX_ASKS {
        match link.ask(to, address, frame) {
            Ok(reply) => return Ok(reply),
            Err(LinkError::Memory) => return Err(AskError::Memory),
            Err(LinkError::Failed) => {}
        }
    }
    Err(AskError::Troubles)
}
