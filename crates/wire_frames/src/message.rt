//! What client and server say to each other, and why a frame is refused.

use crate::cause::Cause;
use crate::parts::Parts;
use mod_log::SketchEntry;
use thiserror::Error;
use vol_tree::{Path, Rows, TreeError};

/// The most bytes that a frame has.
pub const MAX_FRAME: usize = 67_108_864;

/// The greatest number of a client; clients are numbered from 1.
pub const CLIENTS: u8 = 64;

/// A message. `Store` and `Pull` are requests to the server, `Operate` is one to a surrogate, and all others are replies.
/// Each but `Malformed` is of one client, 1 to `CLIENTS`; a reply repeats the number of the request that it answers.
#[derive(Debug, Drop)]
pub enum Message {
    /// Entries of the client, the first of which has this number, and each later one the next.
    Store {
        client: u8,
        number: u64,
        entries: Parts,
    },
    /// The client's entry with sketches in its contents' places, to be made again by its command.
    Operate {
        client: u8,
        entry: SketchEntry,
    },
    /// Asks for all rows. `number` is the last number that the client knows to be accepted.
    Pull {
        client: u8,
        number: u64,
    },
    /// The entries are part of the volume, from this delivery or an earlier one.
    Accepted {
        client: u8,
        number: u64,
        /// The number of the last entry of the store.
        upto: u64,
    },
    /// The entry behind number `upto` has a base whose first path with another version than the server's is this one. Those
    /// up to `upto` are part of the volume.
    Stale {
        client: u8,
        number: u64,
        upto: u64,
        path: Path,
        /// The server's version.
        theirs: u64,
        /// The version in the base.
        ours: u64,
    },
    /// Effect `index`, counted from 0, of the entry behind number `upto` is refused by the volume for another cause than want
    /// of room. Those up to `upto` are part of the volume.
    Unfit {
        client: u8,
        number: u64,
        upto: u64,
        index: u32,
        fault: TreeError,
    },
    /// The number is beyond the next. `last` is the last accepted one.
    Gap {
        client: u8,
        number: u64,
        last: u64,
    },
    /// The volume's rows in path order, and the number of the client's last accepted entry.
    Snapshot {
        client: u8,
        number: u64,
        last: u64,
        rows: Rows,
    },
    /// The command of the operation was run again, agreed, and its entry was accepted.
    Done {
        client: u8,
        number: u64,
    },
    /// The operation was not carried out, and why.
    Declined {
        client: u8,
        number: u64,
        cause: Cause,
    },
    /// Effect `index`, counted from 0, of the entry behind number `upto` is refused since the volume has no room for it. Those
    /// up to `upto` are part of the volume.
    Full {
        client: u8,
        number: u64,
        upto: u64,
        index: u32,
        fault: TreeError,
    },
    /// The bytes were no frame (codes 1 to 6, the number of the refusal), or the message was not for this node (7).
    Malformed {
        code: u8,
        offset: u32,
    },
}

/// Which message it is.
#[derive(Clone, Copy, Debug, PartialEq, Eq)]
pub enum Kind {
    Store,
    Operate,
    Pull,
    Accepted,
    Stale,
    Unfit,
    Gap,
    Snapshot,
    Done,
    Declined,
    Full,
    Malformed,
}

/// The first rule that the bytes of a frame break.
#[derive(Debug, Drop, Error)]
pub enum FrameError {
    #[error("the frame is too short, too long, or not as long as it says")]
    BadLength,
    #[error("the frame has another version")]
    BadVersion,
    #[error("the frame is of no known kind")]
    BadKind,
    #[error("the frame's client number does not fit its kind")]
    BadClient,
    /// The place where the first faulty field begins.
    #[error("the field at byte {0} is faulty")]
    BadField(u32),
    /// The place of the first byte after the last field.
    #[error("bytes are left from byte {0} on")]
    Trailing(u32),
    #[error("out of memory")]
    Memory,
}
