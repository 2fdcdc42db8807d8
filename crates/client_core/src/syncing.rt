// Shipping the pending entries, one after the other.
ghost use Rattle.std.specs.Prelude.{◌≡◌, ◌⊎◌, ◌≤◌, ◌<◌, ◌+◌, true, [], length, is_some};
ghost use Rattle.outside.specs.Outside.{Rose, RisesWhere, CountsFault};
ghost use Rattle.mod_log.specs.Log.{acknowledged};
ghost use Rattle.world_rules.specs.Telling.{IsCalm};
ghost use Rattle.client_core.specs.Syncing.{taken_upto, end_by, unkept_end};
ghost use Rattle.client_core.specs.Goes.{Went};
ghost use Rattle.client_core.specs.Causes.{HasSyncCause, AcknowledgesSome, SyncKeeps};
ghost use Rattle.client_core.specs.Keeping.{IsReady, IsKeptReady};
ghost use Rattle.client_core.specs.Noting.{SyncsNoting};
ghost use Rattle.client_core.specs.Journal.{next_notes};
ghost use Rattle.client_core.specs.Inside.{MayKeep, IsCountedBy, KeepsUpto};
ghost use Rattle.client_core.specs.Honest.{FromInStepApart, IsTrueSync, IsComplete};

use crate::keeping::{Journal, keep_log};
use crate::shipping::ship;
use crate::{Client, Route};
use mod_log::Log;
use outside::{KeepError, Keeper};
use vol_tree::{Path, TreeError};
use wire_frames::Message;
use world_rules::Link;

/// How a sync ends. Each end but `Synced`, `KeepFault` and `Memory` leaves entry `seq` as the first pending one.
#[derive(Debug, Drop)]
pub enum SyncEnd {
    /// Nothing is pending; the number of the last acknowledged entry.
    Synced(u64),
    /// The path whose version is no longer the one that the entry rests on.
    Stale {
        seq: u64,
        path: Path,
        /// The server's version.
        theirs: u64,
        /// The entry's.
        ours: u64,
    },
    /// Effect `index`, counted from 0, is refused for another cause than want of room.
    Unfit {
        seq: u64,
        index: u32,
        fault: TreeError,
    },
    /// Effect `index`, counted from 0, is refused since the server has no room for it.
    Full {
        seq: u64,
        index: u32,
        fault: TreeError,
    },
    /// Eight asks of the store failed.
    Unanswered {
        seq: u64,
    },
    /// The server has accepted entries up to `last` alone.
    Behind {
        seq: u64,
        last: u64,
    },
    /// The keeper failed. The log is that after the last acknowledgement, and what is kept is this log or the one before it.
    KeepFault,
    /// Memory ran out. The log is that after the last acknowledgement, and what is kept is this log or the one before it.
    Memory,
}

impl Client {
    /// Ships the pending entries, the first ones first, until none is left or one is not accepted. An entry that a command
    /// made is settled with the surrogate as an operation first, where there is one and the operation's frame is shorter than
    /// that of the store of it alone; its store is settled with the server only where the operation was declined or eight asks
    /// of it failed. A store carries a window: up to eight entries, none but the first of which is such a one. The client is
    /// kept after each reply that tells entries to be taken, before the next request is sent.
    ///
    /// Over a keeper that tells its images this very client is kept under the route's image, or nothing is and the client
    /// is new; and it may go on there (`keep`).
    pub fn sync<L: Link, K: Keeper>(
        &mut self,
        route: &Route,
        link: &mut L,
        keeper: &mut K,
    ) -> SyncEnd
        requires { IsKeptReady (K.images keeper.old) route.now.image self.old }
        // where it was not broken off, each acknowledgement was kept by itself
        ensures did { Went self.old.number (is_some route.now.surrogate) route.now.image
            (SyncsNoting self.old.number route.now self.old result self.new (K.images keeper.old) (K.images keeper.new))
            self.old.log self.new.log (K.images keeper.old) (K.images keeper.new) (L.tells link.old) (L.tells link.new) }
        ensures cause { HasSyncCause result self.new.log (L.tells link.old).troubles (L.tells link.new).troubles
            (K.faults keeper.old) (K.faults keeper.new) }
        ensures log { AcknowledgesSome self.old.log self.new.log }
        // what is kept is the client, or, where the sync was broken off, perhaps the client before the last acknowledgement
        ensures keeps { SyncKeeps route.now.image self.old.number self.old.log result self.new.log
            (K.images keeper.old) (K.images keeper.new) }
        // to a client in step the server is never behind, and a refusal shows what others wrote
        ensures honest { FromInStepApart self.old.number self.old.log (L.tells link.old) (L.tells link.new)
            (IsTrueSync result self.old.number self.new.log) }
        // without trouble and faults, and where others wrote nothing newer, all is acknowledged
        ensures complete { IsCalm (L.tells link.old) (L.tells link.new)
            → (Rose (K.faults keeper.old) (K.faults keeper.new) → ⊥)
            → FromInStepApart self.old.number self.old.log (L.tells link.old) (L.tells link.new)
            (IsComplete result self.old.number self.new.log) }
        // and where nothing is pending at the end and no keeping failed, that is how it ends, but for want of memory
        ensures settled { self.new.log.pending ≡ [] → (Rose (K.faults keeper.old) (K.faults keeper.new) → ⊥)
            → (result ≡ SyncEnd.Synced self.new.log.acked) ⊎ (result ≡ SyncEnd.Memory) }
        ensures ready { IsReady (K.images keeper.new) route.now.image self.new }
        ensures number { self.new.number ≡ self.old.number }
        ensures later { (L.tells link.old).troubles ≤ (L.tells link.new).troubles }
        // the keeper failed once where the sync ends so, and else never
        ensures faults { RisesWhere (result ≡ SyncEnd.KeepFault) (K.faults keeper.old) (K.faults keeper.new) }
    {
        let client = self.number;
        let alloc = self.log.tree().allocator();
        while let Some(entry) = self.log.entry(0) {
            let reply = match ship(alloc, client, route, &self.log, entry, link) {
                Ok(reply) => reply,
                Err(_refused) => return SyncEnd::Memory,
            };
            let upto = taken_upto(self.log.acked(), &reply);
            let image = route.image.bytes();
            if let Err(refused) = keep_upto(
                client,
                &mut self.log,
                upto,
                &mut self.journal,
                image,
                keeper,
            ) {
                drop(reply);
                return unkept_end(refused);
            }
            if let Some(end) = end_by(upto.saturating_add(1), reply) {
                return end;
            }
        }
        SyncEnd::Synced(self.log.acked())
    }
}

/// Acknowledges the entries up to this number, and keeps the client then. Where they are acknowledged already, it does nothing.
fn keep_upto<K: Keeper>(
    client: u8,
    log: &mut Log,
    upto: u64,
    journal: &mut Option<Journal>,
    name: &[u8],
    keeper: &mut K,
) -> Result<(), KeepError>
    requires low { 1 ≤ client }
    requires high { client ≤ 64 }
    requires from { log.old.acked ≤ upto }
    requires pending { upto ≤ log.old.acked + length log.old.pending }
    requires ready { log.old.acked < upto → MayKeep (next_notes journal.old true (acknowledged upto log.old))
        (K.images keeper.old) name.now client (acknowledged upto log.old) }
    requires counted { IsCountedBy (K.images keeper.old) name.now journal.old }
    ensures log { log.new ≡ acknowledged upto log.old }
    ensures kept { KeepsUpto name.now client log.old upto journal.old journal.new result
        (K.images keeper.old) (K.images keeper.new) }
    ensures counted { IsCountedBy (K.images keeper.new) name.now journal.new }
    ensures cause { CountsFault KeepError.Failed (K.faults keeper.old) (K.faults keeper.new) result }
{
    if upto <= log.acked() {
        return Ok(());
    }
    log.acknowledge(upto);
    keep_log(client, log, journal, true, name, keeper)
}

/// Up to which number a reply tells the client's entries to be taken; where it tells none, the given number.
fn taken_upto(acked: u64, reply: &Option<Message>) -> u64
    ensures { result ≡ taken_upto acked reply.now }
{
    match reply {
        Some(
            Message::Accepted { upto, .. }
            | Message::Stale { upto, .. }
            | Message::Unfit { upto, .. }
            | Message::Full { upto, .. },
        ) => *upto,
        Some(Message::Done { number, .. }) => *number,
        _ => acked,
    }
}

/// How a sync ends whose log could not be kept.
fn unkept_end(refused: KeepError) -> SyncEnd
    ensures { result ≡ unkept_end refused }
{
    match refused {
        KeepError::Failed => SyncEnd::KeepFault,
        KeepError::Memory => SyncEnd::Memory,
    }
}

/// How a sync ends whose next entry has this number, by what shipping came to; `None`: it goes on.
fn end_by(number: u64, reply: Option<Message>) -> Option<SyncEnd>
    ensures { result ≡ end_by number reply }
{
    match reply {
        None => Some(SyncEnd::Unanswered { seq: number }),
        Some(Message::Accepted { .. } | Message::Done { .. }) => None,
        Some(
            Message::Stale {
                path,
                theirs,
                ours,
                ..
            },
        ) => Some(SyncEnd::Stale {
            seq: number,
            path,
            theirs,
            ours,
        }),
        Some(Message::Unfit { index, fault, .. }) => Some(SyncEnd::Unfit {
            seq: number,
            index,
            fault,
        }),
        Some(Message::Full { index, fault, .. }) => Some(SyncEnd::Full {
            seq: number,
            index,
            fault,
        }),
        Some(Message::Gap { last, .. }) => Some(SyncEnd::Behind { seq: number, last }),
        Some(other) => {
            drop(other);
            Some(SyncEnd::Unanswered { seq: number })
        }
    }
}
