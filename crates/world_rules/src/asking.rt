//! What a client asks, of whom, and what comes back.

use vol_tree::Content;
use wire_frames::Message;

/// Who is asked.
#[derive(Clone, Copy, Debug, PartialEq, Eq)]
pub enum Peer {
    Server,
    Surrogate,
}

/// What came back of one ask.
#[derive(Debug, Drop)]
pub enum Answer {
    Reply(Message),
    /// No reply came, or none that echoes the request.
    Failed,
    /// Memory ran out on the way.
    Memory,
}

/// A request that was asked of a peer at an address, and what came back.
#[derive(Debug, Drop)]
pub struct Ask {
    pub to: Peer,
    pub address: Content,
    pub request: Message,
    pub answer: Answer,
}
