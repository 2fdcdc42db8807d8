// Settling a request with a peer.
ghost use Rattle.std.specs.Prelude.{◌≡◌, ◌≤◌, IfOk, IfSome};
ghost use Rattle.wire_frames.specs.declared.message.Message.{Message};
ghost use Rattle.wire_frames.specs.Frame.{IsValid, Spells};
ghost use Rattle.world_rules.specs.Telling.{ToldWorlds, IsCalm};
ghost use Rattle.world_rules.specs.Asking.{IsRequest};
ghost use Rattle.world_rules.specs.Settling.{Settled, IsFreshReply};

use crate::{AskError, Link, Peer, ask_eight};
use std::alloc::{AllocError, Global};
use wire_frames::{Message, read, write};

/// Asks a peer up to eight times, and gives its reply. `None`: eight asks failed.
///
/// # Errors
///
/// Where memory runs out. The request may have been asked, and a reply may have come.
pub fn settle<L: Link>(
    alloc: Global,
    link: &mut L,
    to: Peer,
    address: &[u8],
    request: &Message,
) -> Result<Option<Message>, AllocError>
    requires valid { IsValid request.now }
    requires request { IsRequest to request.now }
    ensures settled { Settled to address.now request.now (L.tells link.old) (L.tells link.new) result }
    // without trouble the reply is the server's answer at a moment of this call
    ensures direct { to ≡ Peer.Server → IsCalm (L.tells link.old) (L.tells link.new)
        → ToldWorlds (L.tells link.old) (L.tells link.new)
        (λ old new. IfOk result (λ reply. IfSome reply (IsFreshReply request.now old new))) }
    ensures later { (L.tells link.old).troubles ≤ (L.tells link.new).troubles }
    ensures kept { L.keeps link.old link.new }
{
    let frame = write(alloc, request)?;
    match ask_eight(link, to, address, &frame) {
        Ok(bytes) => match read_reply(alloc, &bytes) {
            Ok(reply) => Ok(Some(reply)),
            Err(refused) => Err(refused),
        },
        Err(AskError::Troubles) => Ok(None),
        Err(AskError::Memory) => Err(AllocError),
    }
}

/// The reply that bytes spell.
fn read_reply(alloc: Global, bytes: &[u8]) -> Result<Message, AllocError>
    requires { (reply : Message) × Spells reply bytes.now }
    ensures { IfOk result (λ found. (reply : Message) → Spells reply bytes.now → reply ≡ found) }
{
    match read(alloc, bytes) {
        Ok(reply) => Ok(reply),
        Err(_refused) => Err(AllocError),
    }
}
