// Why an ask got no reply.
ghost use Rattle.std.specs.Prelude.{◌≡◌, Ok, IfOk};
ghost use Rattle.real_edge.specs.Patience.{is_break};

use crate::texts::Shown;
use paced_talks::MAX_FRAME;
use std::alloc::Global;
use std::fmt::{self, Display, Formatter};
use std::io::{self, ErrorKind};
use wire_frames::{FrameError, Message};
use world_rules::{LinkError, Peer};

/// How many bytes tell the length of a frame.
const LENGTH_BYTES: usize = 4;

/// The number by which a peer refuses a request that is none for it.
const OTHER_NODE: u8 = 7;

/// The number by which it refuses a frame of another version.
const OTHER_VERSION: u8 = 2;

/// How a name is refused that nobody has.
const NOBODYS: [&str; 2] = [
    "failed to lookup address information: Name or service not known",
    "failed to lookup address information: No address associated with hostname",
];

/// Why an ask got no reply.
#[derive(Debug, Drop)]
pub enum Missed {
    /// The address has another form than HOST:PORT.
    NoForm,
    /// Nobody has the host's name.
    NoName,
    /// The host's name could not be looked up.
    NoLookup(io::Error),
    /// There was no connection.
    NoConnection(io::Error),
    /// The connection failed.
    Broken(io::Error),
    /// No byte came within so many seconds.
    Silent(u64),
    /// So many bytes came, and then the end, before a frame was whole.
    Closed(usize),
    /// The peer says that the request is for another node.
    OtherNode,
    /// It says that the request has another version.
    OtherVersion,
    /// What came is no reply to the request.
    NoReply,
    /// It is not sealed by the key by which the request was, as the answer to it.
    Unsealed,
    /// There is no key to seal the request by.
    NoKey,
    /// The request is too long to be sealed.
    Oversize,
    /// Memory ran out.
    Memory,
}

impl Missed {
    /// Why an address leads to no peer.
    pub(crate) fn of_lookup(alloc: Global, error: io::Error) -> Missed {
        match error.kind() {
            ErrorKind::OutOfMemory => Missed::Memory,
            ErrorKind::InvalidInput => Missed::NoForm,
            _ if is_nobodys(alloc, &error) => Missed::NoName,
            _ => Missed::NoLookup(error),
        }
    }

    /// Why there is no connection.
    pub(crate) fn of_connection(error: io::Error) -> Missed {
        match error.kind() {
            ErrorKind::OutOfMemory => Missed::Memory,
            _ => Missed::NoConnection(error),
        }
    }

    /// Why a connection failed.
    pub(crate) fn of_talk(error: io::Error) -> Missed {
        match error.kind() {
            ErrorKind::OutOfMemory => Missed::Memory,
            _ => Missed::Broken(error),
        }
    }

    /// Why bytes that are no frame are no reply.
    pub(crate) fn of_bytes(refused: &FrameError, bytes: &[u8]) -> Missed {
        match refused {
            FrameError::Memory => Missed::Memory,
            FrameError::BadLength if is_cut(bytes) => Missed::Closed(bytes.len()),
            FrameError::BadLength
            | FrameError::BadVersion
            | FrameError::BadKind
            | FrameError::BadClient
            | FrameError::BadField(_)
            | FrameError::Trailing(_) => Missed::NoReply,
        }
    }

    /// Why bytes without the seal of an answer are no reply.
    pub(crate) fn of_unsealed(bytes: &[u8]) -> Missed {
        if is_cut(bytes) {
            Missed::Closed(bytes.len())
        } else {
            Missed::Unsealed
        }
    }

    /// Why a message that is no reply to the request came.
    pub(crate) fn of_message(message: &Message) -> Missed {
        match message {
            Message::Malformed {
                code: OTHER_NODE,
                ..
            } => Missed::OtherNode,
            Message::Malformed {
                code: OTHER_VERSION,
                ..
            } => Missed::OtherVersion,
            Message::Store { .. }
            | Message::Operate { .. }
            | Message::Pull { .. }
            | Message::Accepted { .. }
            | Message::Stale { .. }
            | Message::Unfit { .. }
            | Message::Gap { .. }
            | Message::Snapshot { .. }
            | Message::Done { .. }
            | Message::Declined { .. }
            | Message::Full { .. }
            | Message::Malformed { .. } => Missed::NoReply,
        }
    }

    /// Whether the try broke: there was a connection, which failed, or ended before the answer was whole.
    pub(crate) fn is_break(&self) -> bool
        ensures { result ≡ is_break self.now }
    {
        match self {
            Missed::Broken(_) | Missed::Closed(_) => true,
            Missed::NoForm
            | Missed::NoName
            | Missed::NoLookup(_)
            | Missed::NoConnection(_)
            | Missed::Silent(_)
            | Missed::OtherNode
            | Missed::OtherVersion
            | Missed::NoReply
            | Missed::Unsealed
            | Missed::NoKey
            | Missed::Oversize
            | Missed::Memory => false,
        }
    }

    /// What it is to who asked over a link.
    pub(crate) fn to_link(&self) -> LinkError {
        match self {
            Missed::Memory => LinkError::Memory,
            Missed::NoForm
            | Missed::NoName
            | Missed::NoLookup(_)
            | Missed::NoConnection(_)
            | Missed::Broken(_)
            | Missed::Silent(_)
            | Missed::Closed(_)
            | Missed::OtherNode
            | Missed::OtherVersion
            | Missed::NoReply
            | Missed::Unsealed
            | Missed::NoKey
            | Missed::Oversize => LinkError::Failed,
        }
    }
}

/// Whether an error says that nobody has a name.
fn is_nobodys(alloc: Global, error: &io::Error) -> bool {
    let text = format!(in alloc; "{error}");
    let is_known = match &text {
        Ok(text) => NOBODYS.contains(&text.as_str()),
        Err(_) => false,
    };
    drop(text);
    is_known
}

/// Whether these bytes are the front of a frame that a peer may send, and not all of it.
fn is_cut(bytes: &[u8]) -> bool {
    match bytes.first_chunk::<LENGTH_BYTES>() {
        Some(said) => {
            let all = (u32::from_be_bytes(*said) as usize).saturating_add(LENGTH_BYTES);
            all <= MAX_FRAME && bytes.len() < all
        }
        None => true,
    }
}

/// What came of an ask, to who asked over a link.
pub(crate) fn to_link(reply: Result<Vec<u8>, Missed>) -> Result<Vec<u8>, LinkError>
    ensures { IfOk result (λ bytes. reply ≡ Ok bytes) }
{
    match reply {
        Ok(bytes) => Ok(bytes),
        Err(missed) => {
            let refused = missed.to_link();
            drop(missed);
            Err(refused)
        }
    }
}

/// Why asks of a peer at an address got no reply, for people.
#[derive(Clone, Copy)]
pub(crate) struct ToldMiss<'a> {
    pub(crate) to: Peer,
    pub(crate) address: &'a [u8],
    pub(crate) missed: &'a Missed,
}

impl<'a> Display for ToldMiss<'a> {
    fn fmt<W: fmt::Write>(&self, f: &mut Formatter<W>) -> fmt::Result {
        write!(f, "{}: ", Shown(self.address))?;
        match self.missed {
            Missed::NoForm => f.write_str("no address of the form HOST:PORT"),
            Missed::NoName => f.write_str("no such name"),
            Missed::NoLookup(error) => write!(f, "{error}"),
            Missed::NoConnection(error) => tell_connection(error, f),
            Missed::Broken(error) => tell_break(error, f),
            Missed::Silent(seconds) => write!(f, "silent for {seconds} s"),
            Missed::Closed(bytes) => write!(f, "closed after {bytes} bytes"),
            Missed::OtherNode => f.write_str(other_node(self.to)),
            Missed::OtherVersion => f.write_str("it is of another version"),
            Missed::NoReply => f.write_str(no_reply(self.to)),
            Missed::Unsealed => f.write_str("the answer is not sealed by this client's key"),
            Missed::NoKey => f.write_str("this client has no key here"),
            Missed::Oversize => f.write_str("it is too long to be sealed"),
            Missed::Memory => f.write_str("memory ran out"),
        }
    }
}

/// That another node than the right one answers.
fn other_node(to: Peer) -> &'static str {
    match to {
        Peer::Server => "the answer is no server's: is it a surrogate's address?",
        Peer::Surrogate => "the answer is no surrogate's: is it the server's address?",
    }
}

/// That something else answers.
fn no_reply(to: Peer) -> &'static str {
    match to {
        Peer::Server => "the answer is no server's",
        Peer::Surrogate => "the answer is no surrogate's",
    }
}

/// Tells why there is no connection.
fn tell_connection<W: fmt::Write>(error: &io::Error, f: &mut Formatter<W>) -> fmt::Result {
    match error.kind() {
        ErrorKind::ConnectionRefused => f.write_str("connection refused"),
        ErrorKind::TimedOut => f.write_str("no connection in time"),
        _ => write!(f, "no connection: {error}"),
    }
}

/// Tells why a connection failed.
fn tell_break<W: fmt::Write>(error: &io::Error, f: &mut Formatter<W>) -> fmt::Result {
    match error.kind() {
        ErrorKind::TimedOut => f.write_str("too slow"),
        ErrorKind::ConnectionReset => f.write_str("connection reset"),
        _ => write!(f, "{error}"),
    }
}
