// A port that tells of its requests.
ghost use Rattle.std.specs.Prelude.{◌≡◌, ◌-◌, ◌↔◌, None, Ok};
ghost use Rattle.outside.specs.Outside.{Told, CountsFault};
ghost use Rattle.outside.specs.Port.{AddsTalks, talks_begun, AnswersLast};

use crate::moment::{Moment, moment_now};
use crate::texts::bytes;
use outside::{MemPort, Port, PortError};
use sealed_frames::SealError;
use sealed_port::SealedPort;
use std::fmt::{self, Display, Formatter};
use std::net::SocketAddr;
use std::time::{Clock, Instant};
use wire_frames::{Head, Kind, head_of};

/// A port that knows its peers.
pub trait PeerPort: Port {
    /// Whose connection the last take was about, where that is known.
    fn peer(&self) -> Option<SocketAddr>;

    /// Why the last take refused what came whole, where it did.
    fn refusal(&self) -> Option<SealError>;
}

/// A port in memory has peers of no address, and takes whatever comes.
impl PeerPort for MemPort {
    fn peer(&self) -> Option<SocketAddr> {
        None
    }

    fn refusal(&self) -> Option<SealError> {
        None
    }
}

/// A sealed port has the peers of the port that it stands over.
impl<'a, P: PeerPort + Drop> PeerPort for SealedPort<'a, P> {
    fn peer(&self) -> Option<SocketAddr> {
        self.port().peer()
    }

    fn refusal(&self) -> Option<SealError> {
        self.refusal()
    }
}

/// A request that was taken and not answered yet.
#[derive(Clone, Copy)]
struct LoggedRequest {
    head: Option<Head>,
    peer: Option<SocketAddr>,
    bytes: usize,
    at: Option<Instant>,
}

/// What stands before what a line tells: when that is, and of which peer, as far as both are known.
#[derive(Clone, Copy)]
struct LineHead {
    moment: Option<Moment>,
    peer: Option<SocketAddr>,
}

impl Display for LineHead {
    fn fmt<W: fmt::Write>(&self, f: &mut Formatter<W>) -> fmt::Result {
        match (self.moment, self.peer) {
            (Some(moment), Some(peer)) => write!(f, "{moment} {peer}: "),
            (Some(moment), None) => write!(f, "{moment}: "),
            (None, Some(peer)) => write!(f, "{peer}: "),
            (None, None) => Ok(()),
        }
    }
}

/// What is told of requests.
#[derive(Drop)]
struct PortLog<'a, R: Eprint + Clock> {
    rt: &'a R,
    program: &'static str,
    is_logged: bool,
    taken: Option<LoggedRequest>,
}

/// A port over another one, which tells each request on standard error where it is logged: when, from where, of which client and of
/// which number, how it was answered, the bytes both ways, and how long that took. It does what that port does.
#[derive(Drop)]
pub struct LoggedPort<'a, R: Eprint + Clock, P: PeerPort + Drop> {
    log: PortLog<'a, R>,
    port: P,
}

impl<'a, R: Eprint + Clock, P: PeerPort + Drop> LoggedPort<'a, R, P> {
    /// Tells what comes over the port, where it is logged. Each line begins with the program's name.
    pub fn new(rt: &'a R, program: &'static str, port: P, is_logged: bool) -> LoggedPort<'a, R, P>
        ensures { result.port ≡ port }
    {
        LoggedPort {
            log: PortLog {
                rt,
                program,
                is_logged,
                taken: None,
            },
            port,
        }
    }

    /// The port that it stands over.
    pub fn into_port(self) -> P
        ensures { result ≡ self.entry.port }
    {
        let LoggedPort { log, port } = self;
        drop(log);
        port
    }
}

impl<'a, R: Eprint + Clock> PortLog<'a, R> {
    /// What stands before a line about this peer that is told now.
    fn line_head(&self, peer: Option<SocketAddr>) -> LineHead {
        LineHead {
            moment: moment_now(self.rt),
            peer,
        }
    }

    /// Takes note of a frame of this peer, and tells where none could be taken, and why it was refused, where it was.
    fn take(
        &mut self,
        came: &Result<Option<Vec<u8>>, PortError>,
        peer: Option<SocketAddr>,
        refusal: Option<SealError>,
    ) {
        if !self.is_logged {
            return;
        }
        self.taken = None;
        let program = self.program;
        match came {
            Ok(Some(frame)) => {
                self.taken = Some(LoggedRequest {
                    head: head_of(frame.as_slice()),
                    peer,
                    bytes: frame.len(),
                    at: Instant::now(self.rt).ok(),
                });
            }
            Ok(None) => {}
            Err(PortError::Failed) => {
                let line = self.line_head(peer);
                let _ = match refusal {
                    Some(why) => eprintln!(self.rt; "{program}: {line}refused: {why}"),
                    None => eprintln!(self.rt;
                        "{program}: {line}a connection was lost before its request came"
                    ),
                };
            }
            Err(PortError::Memory) => {
                let line = self.line_head(peer);
                let _ = eprintln!(self.rt;
                    "{program}: {line}a request was lost for want of memory"
                );
            }
        }
    }

    /// Tells how the frame that was taken last was answered.
    fn answer(&mut self, frame: &[u8], sent: &Result<(), PortError>) {
        let Some(taken) = self.taken.take() else {
            return;
        };
        let (program, came, went) = (self.program, bytes(taken.bytes), bytes(frame.len()));
        let millis = self.millis_since(taken.at);
        let line = self.line_head(taken.peer);
        let end = match sent {
            Ok(()) => "",
            Err(PortError::Failed) => ", and the connection was lost",
            Err(PortError::Memory) => ", and memory for the answer was wanted",
        };
        let _ = match (taken.head, head_of(frame)) {
            (Some(request), Some(reply)) if is_request(request.kind) => {
                let (client, number) = (request.client, request.number);
                let (what, how) = (what_is_asked(request.kind), reply.kind);
                eprintln!(self.rt;
                    "{program}: {line}client {client} {what} {number}: {how:?}, {came} bytes in, {went} out, {millis} ms{end}"
                )
            }
            _ => eprintln!(self.rt;
                "{program}: {line}malformed, {came} bytes in, {went} out, {millis} ms{end}"
            ),
        };
    }

    /// How many milliseconds have passed; none where the clock fails.
    fn millis_since(&self, at: Option<Instant>) -> u128 {
        match (at, Instant::now(self.rt)) {
            (Some(at), Ok(now)) => now.duration_since(at).as_millis(),
            _ => 0,
        }
    }
}

/// Whether a frame of this kind asks for something.
fn is_request(kind: Kind) -> bool {
    matches!(kind, Kind::Store | Kind::Operate | Kind::Pull)
}

/// What a request of a kind is about.
fn what_is_asked(kind: Kind) -> &'static str {
    if kind == Kind::Pull { "pull" } else { "entry" }
}

impl<'a, R: Eprint + Clock, P: PeerPort + Drop> Port for LoggedPort<'a, R, P> {
    ghost tells = { λ logged. P.tells logged.port };

    fn take(&mut self) -> Result<Option<Vec<u8>>, PortError> {
        let came = self.port.take();
        self.log.take(&came, self.port.peer(), self.port.refusal());
        came
    }

    fn answer(&mut self, frame: &[u8]) -> Result<(), PortError> {
        let sent = self.port.answer(frame);
        self.log.answer(frame, &sent);
        sent
    }
}
