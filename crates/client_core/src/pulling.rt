// Pulling the server's rows.
ghost use Rattle.std.specs.Prelude.{◌≡◌, ◌≢◌, ◌⊎◌, ◌↔◌, ℕ, ◌≤◌, false, [], is_some, Option, IfOk, IfSome, IsTrue};
ghost use Rattle.std.specs.Option.{option_copied};
ghost use Rattle.outside.specs.Outside.{RisesWhere};
ghost use Rattle.outside.specs.Keeper.{Images};
ghost use Rattle.tree_values.specs.Tree.{version_at, IsTree};
ghost use Rattle.wire_frames.specs.Frame.{IsValid};
ghost use Rattle.world_rules.specs.declared.asking.Peer.TheVariants.{Server};
ghost use Rattle.world_rules.specs.Telling.{ToldWorlds, IsCalm};
ghost use Rattle.world_rules.specs.Settling.{Settled, IsFreshReply};
ghost use Rattle.client_core.specs.Pulling.{IsKeptBase, PullAsks, PullEnds, pulled_end, is_broken_pull};
ghost use Rattle.client_core.specs.Goes.{Goes, Went, no_runner};
ghost use Rattle.client_core.specs.Causes.{HasPullCause, PullKeeps, PullWrites};
ghost use Rattle.client_core.specs.Keeping.{IsKept, IsReady, IsKeptReady};
ghost use Rattle.client_core.specs.Honest.{FromInStep, FromInStepApart, IsNotOtherLast, IsNotOlder};
ghost use Rattle.client_core.specs.Inside.{end_of, first_lower, MeetsEnds, PullLeaves, snapshot_of};

use crate::keeping::keep_log;
use crate::{Client, Route};
use mod_log::Log;
use outside::{KeepError, Keeper};
use std::alloc::{AllocError, Global};
use vol_tree::{Node, Path, Row, Rows, Tree, TryCopy};
use wire_frames::Message;
use world_rules::{Link, Peer, settle};

/// How a pull ends. Each end but `Pulled`, `KeepFault` and `Memory` leaves the log as before.
#[derive(Debug, Drop)]
pub enum PullEnd {
    /// The server's rows are the client's base now; how many rows.
    Pulled(u32),
    /// So many entries are pending, and nothing was asked.
    Pending(u32),
    /// The server's last accepted entry of the client is not the last acknowledged one.
    OtherLast {
        last: u64,
        acked: u64,
    },
    /// The first path at which the server told a lower version than the client's.
    Older {
        path: Path,
        /// The server's version.
        theirs: u64,
        /// The client's.
        ours: u64,
    },
    /// Eight asks failed.
    Unanswered,
    /// The keeper failed. The server's rows are the client's base now. What is kept is its whole image, or each byte as it was before.
    KeepFault,
    /// Memory ran out. The log is as before, and so is what is kept; or it is as after a `KeepFault`.
    Memory,
}

/// What a pull comes to before anything is kept.
#[derive(Drop)]
enum Pulling {
    /// So many rows became the base, which is to be kept.
    Replaced(u32),
    /// The log is as before, and nothing is to be kept.
    Ended(PullEnd),
}

impl Client {
    /// Asks the server for its rows, and takes them as base and tree, where nothing is pending, no entry was accepted that
    /// is not acknowledged, and no version is lower than the client's. The client is saved then as a whole image. Where the
    /// rows, versions too, are those of the base already, nothing is written; but a client that has neither rows nor an
    /// acknowledged entry is saved all the same, since of a new one nothing may be kept.
    ///
    /// Over a keeper that tells its images this very client is kept under the route's image, or nothing is and the client
    /// is new; and it may go on there (`keep`). So after a refused keeping `keep` comes first.
    pub fn pull<L: Link, K: Keeper>(
        &mut self,
        route: &Route,
        link: &mut L,
        keeper: &mut K,
    ) -> PullEnd
        requires { IsKeptReady (K.images keeper.old) route.now.image self.old }
        ensures did { Went self.old.number (is_some route.now.surrogate) route.now.image
            (PullEnds self.old.number route.now self.old.log result self.new.log) self.old.log self.new.log
            (K.images keeper.old) (K.images keeper.new) (L.tells link.old) (L.tells link.new) }
        ensures cause { HasPullCause result self.old.log self.new.log
            (L.tells link.old).troubles (L.tells link.new).troubles (K.faults keeper.old) (K.faults keeper.new) }
        // what is kept is the client, or, where the pull was broken off, perhaps the client before it
        ensures keeps { PullKeeps route.now.image self.old.number self.old.log result self.new.log
            (K.images keeper.old) (K.images keeper.new) }
        // the image is written just where the rows are not kept already; a save that is refused leaves all bytes, or this image
        ensures writes { PullWrites route.now.image self.old.number self.old.log result self.new.log
            (K.images keeper.old) (K.images keeper.new) }
        // where they are, neither the client nor the keeper is touched
        ensures untouched { IsKeptBase self.old.log self.new.log.base → (self.new ≡ self.old) × (keeper.new ≡ keeper.old) }
        // where it took no rows, the client and what is kept are as before
        ensures unchanged { is_broken_pull result ≡ false → ((count : ℕ) → result ≢ PullEnd.Pulled count)
            → (self.new ≡ self.old) × (K.images keeper.new ≡ K.images keeper.old) }
        // where entries are pending, nothing is asked
        ensures waits { self.old.log.pending ≢ [] → link.new ≡ link.old }
        // to a client in step the server has no other last number
        ensures honest { FromInStepApart self.old.number self.old.log (L.tells link.old) (L.tells link.new) (λ new. IsNotOtherLast result) }
        // and without trouble no older rows
        ensures fresh { IsCalm (L.tells link.old) (L.tells link.new)
            → FromInStep self.old.number self.old.log (L.tells link.old) (L.tells link.new) (λ new. IsNotOlder result) }
        ensures ready { IsReady (K.images keeper.new) route.now.image self.new }
        ensures number { self.new.number ≡ self.old.number }
        ensures later { (L.tells link.old).troubles ≤ (L.tells link.new).troubles }
        // the keeper failed once where the pull ends so, and else never
        ensures faults { RisesWhere (result ≡ PullEnd.KeepFault) (K.faults keeper.old) (K.faults keeper.new) }
    {
        let count = match pull_log(self.number, route, &mut self.log, link) {
            Pulling::Replaced(count) => count,
            Pulling::Ended(end) => return end,
        };
        self.journal = None;
        let kept = keep_log(
            self.number,
            &self.log,
            &mut self.journal,
            false,
            route.image.bytes(),
            keeper,
        );
        pulled_end(count, kept)
    }
}

/// How a pull ends that took so many rows, by whether its log was kept.
fn pulled_end(count: u32, kept: Result<(), KeepError>) -> PullEnd
    ensures { result ≡ pulled_end count kept }
{
    match kept {
        Ok(()) => PullEnd::Pulled(count),
        Err(KeepError::Failed) => PullEnd::KeepFault,
        Err(KeepError::Memory) => PullEnd::Memory,
    }
}

/// Settles a pull with the server, where nothing is pending, and takes the rows of its snapshot as base and tree.
fn pull_log<L: Link>(client: u8, route: &Route, log: &mut Log, link: &mut L) -> Pulling
    requires low { 1 ≤ client }
    requires high { client ≤ 64 }
    ensures did { (images : Option Images) → IsKept images route.now.image client log.old
        → Goes client (is_some route.now.surrogate) route.now.image
        (PullAsks client route.now log.old (end_of result) log.new) log.old log.new log.old
        images images no_runner no_runner (L.tells link.old) (L.tells link.new) }
    ensures cause { (faults now : ℕ)
        → HasPullCause (end_of result) log.old log.new (L.tells link.old).troubles (L.tells link.new).troubles faults now }
    ensures leaves { PullLeaves result log.old log.new }
    ensures waits { log.old.pending ≢ [] → link.new ≡ link.old }
    ensures fresh { IsCalm (L.tells link.old) (L.tells link.new)
        → FromInStep client log.old (L.tells link.old) (L.tells link.new) (λ new. IsNotOlder (end_of result)) }
    ensures later { (L.tells link.old).troubles ≤ (L.tells link.new).troubles }
{
    let pending = log.pending();
    if pending > 0 {
        return Pulling::Ended(PullEnd::Pending(pending));
    }
    let alloc = log.tree().allocator();
    let reply = match settle_pull(alloc, client, log.acked(), route, link) {
        Ok(reply) => reply,
        Err(_refused) => return Pulling::Ended(PullEnd::Memory),
    };
    match snapshot_of(reply) {
        Some((last, rows)) => take_snapshot(alloc, log, last, rows),
        None => Pulling::Ended(PullEnd::Unanswered),
    }
}

/// Settles a pull with the server, which tells the number that the client knows to be accepted. `None`: eight asks
/// failed.
fn settle_pull<L: Link>(
    alloc: Global,
    client: u8,
    number: u64,
    route: &Route,
    link: &mut L,
) -> Result<Option<Message>, AllocError>
    requires { IsValid (Message.Pull client number) }
    ensures settled { Settled Server route.now.server (Message.Pull client number) (L.tells link.old) (L.tells link.new) result }
    ensures direct { IsCalm (L.tells link.old) (L.tells link.new)
        → ToldWorlds (L.tells link.old) (L.tells link.new)
        (λ old new. IfOk result (λ reply. IfSome reply (IsFreshReply (Message.Pull client number) old new))) }
    ensures later { (L.tells link.old).troubles ≤ (L.tells link.new).troubles }
{
    let pull = Message::Pull { client, number };
    let settled = settle(alloc, link, Peer::Server, route.server.bytes(), &pull);
    drop(pull);
    settled
}

/// What a snapshot tells: the client's last number at the server, and the rows.
fn snapshot_of(reply: Option<Message>) -> Option<(u64, Rows)>
    ensures { result ≡ snapshot_of reply }
{
    match reply {
        Some(Message::Snapshot { last, rows, .. }) => Some((last, rows)),
        other => {
            drop(other);
            None
        }
    }
}

/// What a log with nothing pending makes of a snapshot.
fn take_snapshot(alloc: Global, log: &mut Log, last: u64, rows: Rows) -> Pulling
    requires { log.old.pending ≡ [] }
    ensures { MeetsEnds log.old last rows result log.new }
{
    let acked = log.acked();
    if last != acked {
        return Pulling::Ended(PullEnd::OtherLast { last, acked });
    }
    match log.tree().rows() {
        Ok(base) => take_rows(alloc, log, &base, rows),
        Err(_refused) => {
            drop(rows);
            Pulling::Ended(PullEnd::Memory)
        }
    }
}

/// What it makes of the snapshot's rows, beside those of its base.
fn take_rows(alloc: Global, log: &mut Log, base: &Rows, rows: Rows) -> Pulling
    requires idle { log.old.pending ≡ [] }
    requires base { base.now ≡ log.old.base }
    requires tree { IsTree base.now }
    ensures { MeetsEnds log.old log.old.acked rows result log.new }
{
    if is_kept_base(log, base, &rows) {
        drop(rows);
        return Pulling::Ended(PullEnd::Pulled(log.tree().count()));
    }
    match Tree::from_rows(alloc, rows) {
        Ok(seen) => take_tree(log, base, seen),
        Err(_refused) => Pulling::Ended(PullEnd::Memory),
    }
}

/// Takes a tree that is not kept already, where it is at no path older than the base.
fn take_tree(log: &mut Log, base: &Rows, seen: Tree) -> Pulling
    requires idle { log.old.pending ≡ [] }
    requires base { base.now ≡ log.old.base }
    requires tree { IsTree base.now }
    requires other { IsKeptBase log.old seen → ⊥ }
    ensures { MeetsEnds log.old log.old.acked seen result log.new }
{
    match first_lower(base.as_slice(), &seen) {
        Some(row) => Pulling::Ended(older_at(row, &seen)),
        None => {
            let count = seen.count();
            log.replace(seen);
            Pulling::Replaced(count)
        }
    }
}

/// Whether rows are kept already: versions too, they are those of the base, and the log is no new one.
fn is_kept_base(log: &Log, base: &Rows, rows: &Rows) -> bool
    requires idle { log.now.pending ≡ [] }
    requires base { base.now ≡ log.now.base }
    ensures { IsTrue result ↔ IsKeptBase log.now rows.now }
{
    let is_new = log.acked() == 0 && base.is_empty();
    !is_new && are_same(rows.as_slice(), base.as_slice())
}

/// Whether rows are the same, versions and contents too. No content is copied.
fn are_same(rows: &[Row], others: &[Row]) -> bool
    ensures { IsTrue result ↔ (rows.now ≡ others.now) }
{
    if rows.len() != others.len() {
        return false;
    }
    for i in 0..rows.len() {
        if !is_same(&rows[i], &others[i]) {
            return false;
        }
    }
    true
}

fn is_same(row: &Row, other: &Row) -> bool
    ensures { IsTrue result ↔ (row.now ≡ other.now) }
{
    row.version == other.version
        && row.path == other.path
        && is_same_node(row.node.as_ref(), other.node.as_ref())
}

fn is_same_node(node: Option<&Node>, other: Option<&Node>) -> bool
    ensures { IsTrue result ↔ (option_copied node.entry ≡ option_copied other.entry) }
{
    match (node, other) {
        (None, None) => true,
        (Some(node), Some(other)) => is_node(node, other),
        (None, Some(_)) | (Some(_), None) => false,
    }
}

fn is_node(node: &Node, other: &Node) -> bool
    ensures { IsTrue result ↔ (node.now ≡ other.now) }
{
    match (node, other) {
        (Node::Folder, Node::Folder) => true,
        (
            Node::File { content, exec },
            Node::File {
                content: bytes,
                exec: bit,
            },
        ) => exec == bit && content == bytes,
        (Node::Folder, Node::File { .. }) | (Node::File { .. }, Node::Folder) => false,
    }
}

/// The end of a pull that met a lower version at the row's path.
fn older_at(row: &Row, seen: &Tree) -> PullEnd
    ensures { (result ≡ PullEnd.Older row.now.path (version_at seen.now row.now.path) row.now.version) ⊎ (result ≡ PullEnd.Memory) }
{
    match row.path.copy() {
        Ok(path) => PullEnd::Older {
            path,
            theirs: seen.version(&row.path),
            ours: row.version,
        },
        Err(_refused) => PullEnd::Memory,
    }
}

/// The first row at whose path the tree has a lower version.
fn first_lower<'a>(base: &'a [Row], seen: &Tree) -> Option<&'a Row>
    ensures { option_copied result ≡ first_lower base.now seen.now }
{
    base.iter()
        .find(|row| seen.version(&row.path) < row.version)
}
