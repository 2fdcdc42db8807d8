//! What stands before a frame's body, and how many entries a store carries.

ghost use Rattle.std.specs.Prelude.{◌≡◌, ◌↔◌, ◌+◌, ◌<◌, ◌≤◌, IsTrue, length, take, Some};
ghost use Rattle.std.specs.Int.{w64, from_be_bytes};
ghost use Rattle.wire_frames.specs.declared.message.Message.{Message};
ghost use Rattle.wire_frames.specs.Frame.{Spells, entry_count, speaks_upto};
ghost use Rattle.wire_frames.specs.Laws.{IsReplyKind};
ghost use Rattle.wire_frames.specs.Head.{head_of, head_at, entries_told, IsEchoedBy};

use crate::message::{Kind, Message};

/// Of which kind a message is, of which client and of which number, and how many entries it carries.
#[derive(Clone, Copy, Debug)]
pub struct Head {
    pub kind: Kind,
    pub client: u8,
    pub number: u64,
    /// The entries of a store; 1 for any other message.
    pub entries: u64,
}

/// The head of a frame. Of the body only the number of a store's entries is looked at. `None` where the bytes are no frame, as
/// they are too few or of no known kind. It takes no memory.
pub fn head_of(frame: &[u8]) -> Option<Head>
    ensures exact { result ≡ head_at frame.now }
    ensures told { (message : Message) → Spells message frame.now → result ≡ Some (head_of message) }
{
    head_at(frame)
}

/// What the bytes say between the version and the body.
fn head_at(bytes: &[u8]) -> Option<Head>
    ensures { result ≡ head_at bytes.now }
{
    if bytes.len() < 15 {
        return None;
    }
    let kind = Kind::of(bytes[5])?;
    Some(Head {
        kind,
        client: bytes[6],
        number: number_behind(&bytes[7..]),
        entries: entries_told(bytes, kind),
    })
}

/// How many entries a frame of this kind says that it carries: a store tells it behind its number, and any other message
/// counts as one.
fn entries_told(bytes: &[u8], kind: Kind) -> u64
    ensures { result ≡ entries_told bytes.now kind }
{
    match kind {
        Kind::Store => bytes.get(15).copied().unwrap_or(0) as u64,
        Kind::Operate
        | Kind::Pull
        | Kind::Accepted
        | Kind::Stale
        | Kind::Unfit
        | Kind::Gap
        | Kind::Snapshot
        | Kind::Done
        | Kind::Declined
        | Kind::Full
        | Kind::Malformed => 1,
    }
}

/// The number in the first eight bytes.
fn number_behind(bytes: &[u8]) -> u64
    requires { 8 ≤ length bytes.now }
    ensures { result ≡ from_be_bytes w64 (take 8 bytes.now) }
{
    u64::from_be_bytes([
        bytes[0], bytes[1], bytes[2], bytes[3], bytes[4], bytes[5], bytes[6], bytes[7],
    ])
}

impl Message {
    /// The head of the message's frame.
    pub fn head(&self) -> Head
        ensures { result ≡ head_of self.now }
    {
        Head {
            kind: self.kind(),
            client: self.client(),
            number: self.number(),
            entries: self.entries(),
        }
    }

    /// How many entries a store carries; 1 for any other message.
    fn entries(&self) -> u64
        ensures { result ≡ entry_count self.now }
    {
        match self {
            Message::Store { entries, .. } => entries.len() as u64,
            Message::Operate { .. }
            | Message::Pull { .. }
            | Message::Accepted { .. }
            | Message::Stale { .. }
            | Message::Unfit { .. }
            | Message::Gap { .. }
            | Message::Snapshot { .. }
            | Message::Done { .. }
            | Message::Declined { .. }
            | Message::Full { .. }
            | Message::Malformed { .. } => 1,
        }
    }

    /// The greatest number of an entry of which a reply to a store speaks: the last that is taken, or the one behind it,
    /// which is refused; 0 for any other message.
    fn speaks_upto(&self) -> u128
        ensures { result ≡ speaks_upto self.now }
    {
        match self {
            Message::Accepted { upto, .. } => *upto as u128,
            Message::Stale { upto, .. }
            | Message::Unfit { upto, .. }
            | Message::Full { upto, .. } => *upto as u128 + 1,
            Message::Store { .. }
            | Message::Operate { .. }
            | Message::Pull { .. }
            | Message::Gap { .. }
            | Message::Snapshot { .. }
            | Message::Done { .. }
            | Message::Declined { .. }
            | Message::Malformed { .. } => 0,
        }
    }
}

impl Head {
    /// Whether the reply answers the request with this head, as [`crate::echoes`] says of the request. It takes no memory.
    pub fn is_echoed_by(self, reply: &Message) -> bool
        ensures { IsTrue result ↔ IsEchoedBy self reply.now }
    {
        is_reply_kind(self.kind, reply.kind())
            && self.client == reply.client()
            && self.number == reply.number()
            && reply.speaks_upto() < self.number as u128 + self.entries as u128
    }
}

/// Whether a message of a kind may be answered by one of another, whatever their clients and numbers.
fn is_reply_kind(request: Kind, reply: Kind) -> bool
    ensures { IsTrue result ↔ IsReplyKind request reply }
{
    match request {
        Kind::Store => matches!(
            reply,
            Kind::Accepted | Kind::Stale | Kind::Unfit | Kind::Gap | Kind::Full
        ),
        Kind::Operate => matches!(reply, Kind::Done | Kind::Declined),
        Kind::Pull => matches!(reply, Kind::Snapshot),
        Kind::Accepted
        | Kind::Stale
        | Kind::Unfit
        | Kind::Gap
        | Kind::Snapshot
        | Kind::Done
        | Kind::Declined
        | Kind::Full
        | Kind::Malformed => false,
    }
}
