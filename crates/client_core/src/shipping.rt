// Shipping what is pending: the first entry as an operation where that is shorter, else a window of entries as a store.
ghost use Rattle.std.specs.Prelude.{◌≡◌, ◌≤◌};
ghost use Rattle.mod_log.specs.Log.{IsLog};
ghost use Rattle.wire_frames.specs.Frame.{IsValid};
ghost use Rattle.world_rules.specs.declared.asking.Peer.TheVariants.{Surrogate};
ghost use Rattle.world_rules.specs.Asking.{IsRequest};
ghost use Rattle.client_core.specs.Syncing.{IsFirst};
ghost use Rattle.client_core.specs.Inside.{AskedFor, OperatesTo, SettlesWindow, ShipsTo, TellsDone, says_done};

use crate::Route;
use crate::window::{is_light, window_of};
use mod_log::{Entry, Log, sketch_entry};
use std::alloc::{AllocError, Global};
use wire_frames::Message;
use world_rules::{Link, Peer, settle};

/// Ships what is pending, from the first entry on, which is this one: as an operation to the surrogate where the entry is light, and
/// where it is not or the operation is not done, with those behind it that its window has as a store to the server. `None`: eight asks
/// of the store failed.
pub(crate) fn ship<L: Link>(
    alloc: Global,
    client: u8,
    route: &Route,
    log: &Log,
    entry: &Entry,
    link: &mut L,
) -> Result<Option<Message>, AllocError>
    requires own_number { (1 ≤ client) × (client ≤ 64) }
    requires first { IsFirst entry.now log.now.pending }
    requires log { IsLog log.now }
    ensures shipped { AskedFor client route.now log.now (ShipsTo client route.now log.now.pending entry.now result)
        (L.tells link.old) (L.tells link.new) }
    ensures later { (L.tells link.old).troubles ≤ (L.tells link.new).troubles }
{
    match operate(alloc, client, route, log, entry, link) {
        Ok(true) => Ok(Some(Message::Done {
            client,
            number: entry.seq,
        })),
        Ok(false) => settle_window(alloc, client, route, log, entry, link),
        Err(refused) => Err(refused),
    }
}

/// Whether a light entry's operation, settled with the surrogate, is done. Of a heavy entry nothing is asked.
fn operate<L: Link>(
    alloc: Global,
    client: u8,
    route: &Route,
    log: &Log,
    entry: &Entry,
    link: &mut L,
) -> Result<bool, AllocError>
    requires own_number { (1 ≤ client) × (client ≤ 64) }
    requires first { IsFirst entry.now log.now.pending }
    requires log { IsLog log.now }
    ensures operated { AskedFor client route.now log.now (OperatesTo client route.now log.now.pending entry.now result)
        (L.tells link.old) (L.tells link.new) }
    ensures later { (L.tells link.old).troubles ≤ (L.tells link.new).troubles }
{
    let Some(address) = &route.surrogate else {
        return Ok(false);
    };
    let light = is_light(alloc, route, entry)?;
    if !light {
        return Ok(false);
    }
    let sketched = sketch_entry(alloc, entry)?;
    let operation = Message::Operate {
        client,
        entry: sketched,
    };
    settle_operation(alloc, address.bytes(), operation, link)
}

/// Settles an operation with the surrogate, and tells whether it is done.
fn settle_operation<L: Link>(
    alloc: Global,
    address: &[u8],
    operation: Message,
    link: &mut L,
) -> Result<bool, AllocError>
    requires valid { IsValid operation }
    requires request { IsRequest Surrogate operation }
    ensures settled { TellsDone address.now operation (L.tells link.old) (L.tells link.new) result }
    ensures later { (L.tells link.old).troubles ≤ (L.tells link.new).troubles }
{
    let settled = settle(alloc, link, Peer::Surrogate, address, &operation);
    drop(operation);
    match settled {
        Ok(reply) => Ok(is_done(reply)),
        Err(refused) => Err(refused),
    }
}

/// Whether the reply says that an operation is done.
fn is_done(reply: Option<Message>) -> bool
    ensures { result ≡ says_done reply }
{
    let done = matches!(&reply, Some(Message::Done { .. }));
    drop(reply);
    done
}

/// Settles the store of the window of what is pending with the server. `None`: eight asks failed.
fn settle_window<L: Link>(
    alloc: Global,
    client: u8,
    route: &Route,
    log: &Log,
    entry: &Entry,
    link: &mut L,
) -> Result<Option<Message>, AllocError>
    requires own_number { (1 ≤ client) × (client ≤ 64) }
    requires first { IsFirst entry.now log.now.pending }
    requires log { IsLog log.now }
    ensures settled { AskedFor client route.now log.now (SettlesWindow client route.now log.now.pending entry.now result)
        (L.tells link.old) (L.tells link.new) }
    ensures later { (L.tells link.old).troubles ≤ (L.tells link.new).troubles }
{
    let entries = window_of(alloc, client, route, log, entry)?;
    let store = Message::Store {
        client,
        number: entry.seq,
        entries,
    };
    let settled = settle(alloc, link, Peer::Server, route.server.bytes(), &store);
    drop(store);
    settled
}
