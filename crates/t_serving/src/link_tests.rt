//! How long an ask over TCP waits, by the clock of a network of this process: its time goes on where a read waits in vain, and where the
//! link sleeps. No clause says which time the link asks for.
ghost use Rattle.std.specs.Prelude.{IfSome};
ghost use Rattle.wire_frames.specs.declared.message.Message.{Message};
ghost use Rattle.wire_frames.specs.Frame.{Spells};
ghost use Rattle.world_rules.specs.Asking.{IsRequest};

use real_edge::{Missed, TcpLink, Teller, Untold};
use std::alloc::Global;
use std::cell::Cell;
use std::io::{self, ErrorKind, Read, Write};
use std::net::{Net, OpenListener, OpenStream, Shutdown, SocketAddr};
use std::os::fd::{AsRawFd, RawFd};
use std::test::Fail;
use std::time::{Clock, Duration};
use wire_frames::{Head, Message, read};
use world_rules::{Link, Peer};

/// Entry 1 of client 1 ran `/bin/x` in the root, which made the folder `a` and gave status 0.
const OPERATION: [u8; 91] = [
    0, 0, 0, 87, 3, 2, 1, 0, 0, 0, 0, 0, 0, 0, 1, 75, 10, 227, 216, 211, 4, 147, 250, 206, 43, 76,
    146, 122, 42, 212, 244, 77, 204, 121, 143, 98, 20, 227, 181, 55, 244, 79, 113, 70, 178, 30,
    122, 0, 0, 0, 0, 6, 47, 98, 105, 110, 47, 120, 0, 0, 0, 0, 0, 0, 0, 0, 0, 0, 0, 0, 0, 1, 1, 0,
    1, 97, 0, 0, 0, 1, 0, 1, 97, 0, 0, 0, 0, 0, 0, 0, 0,
];

/// Where the number of its entry ends.
const NUMBER: usize = 14;

/// Client 1 asks for all rows.
const PULL: &[u8] = &[0, 0, 0, 11, 3, 3, 1, 0, 0, 0, 0, 0, 0, 0, 0];

/// Two addresses.
const ONE: &str = "127.0.0.1:7001";

const OTHER: &str = "127.0.0.2:7001";

/// The time of a network, and how long its next read may wait.
#[derive(Drop)]
struct Time {
    now: Cell<Duration>,
    limit: Cell<Duration>,
}

impl Time {
    fn new() -> Time {
        Time {
            now: Cell::new(Duration::from_secs(1)),
            limit: Cell::new(Duration::from_secs(0)),
        }
    }

    /// So much of it goes by.
    fn pass(&self, wait: Duration) {
        self.now.set(self.now.get().saturating_add(wait));
    }

    /// What a read meets that waits in vain, until its limit.
    fn wait(&self) -> io::Error {
        self.pass(self.limit.get());
        io::Error::from(ErrorKind::WouldBlock)
    }
}

/// What the peers of a network do.
#[derive(Clone, Copy, Debug, PartialEq, Eq, Drop)]
enum Manner {
    /// They take all and give nothing.
    Silent,
    /// They refuse each connection.
    Refusing,
    /// They reset each connection that they have taken all of.
    Breaking,
}

/// A peer that takes all and gives nothing.
#[derive(Drop)]
struct Peered<'t> {
    time: &'t Time,
    manner: Manner,
}

impl<'t> Peered<'t> {
    /// What a read meets.
    fn wait(&self) -> io::Error {
        if self.manner == Manner::Breaking {
            return io::Error::from(ErrorKind::ConnectionReset);
        }
        self.time.wait()
    }
}

impl<'t> Read for Peered<'t> {
    fn read(&mut self, _buf: &mut [u8]) -> io::Result<usize> {
        Err(self.wait())
    }
}

impl<'t> Write for Peered<'t> {
    fn write(&mut self, buf: &[u8]) -> io::Result<usize> {
        Ok(buf.len())
    }

    fn flush(&mut self) -> io::Result<()> {
        Ok(())
    }
}

impl<'t> OpenStream for Peered<'t> {
    fn shutdown(&self, _how: Shutdown) -> io::Result<()> {
        Ok(())
    }

    fn set_nonblocking(&self, _nonblocking: bool) -> io::Result<()> {
        Ok(())
    }

    fn set_read_timeout(&self, wait: Option<Duration>) -> io::Result<()> {
        if let Some(limit) = wait {
            self.time.limit.set(limit);
        }
        Ok(())
    }

    fn set_write_timeout(&self, _wait: Option<Duration>) -> io::Result<()> {
        Ok(())
    }

    fn peek(&self, _buf: &mut [u8]) -> io::Result<usize> {
        Err(self.wait())
    }
}

impl<'t> AsRawFd for Peered<'t> {
    fn as_raw_fd(&self) -> RawFd {
        -1
    }
}

/// A network of such peers.
#[derive(Clone, Copy, Drop)]
struct Peers<'t> {
    time: &'t Time,
    manner: Manner,
}

impl<'t> Net for Peers<'t> {
    type Stream = Peered<'t>;

    type Listener = Peers<'t>;

    fn bind(&self, _address: SocketAddr) -> io::Result<Peers<'t>> {
        Ok(*self)
    }

    fn connect(&self, _address: SocketAddr) -> io::Result<Peered<'t>> {
        Err(io::Error::from(ErrorKind::Unsupported))
    }

    fn connect_timeout(&self, _address: SocketAddr, _wait: Duration) -> io::Result<Peered<'t>> {
        if self.manner == Manner::Refusing {
            return Err(io::Error::from(ErrorKind::ConnectionRefused));
        }
        Ok(Peered {
            time: self.time,
            manner: self.manner,
        })
    }
}

impl<'t> OpenListener for Peers<'t> {
    type Stream = Peered<'t>;

    fn accept(&self) -> io::Result<(Peered<'t>, SocketAddr)> {
        Err(io::Error::from(ErrorKind::Unsupported))
    }
}

impl<'t> AsRawFd for Peers<'t> {
    fn as_raw_fd(&self) -> RawFd {
        -1
    }
}

impl<'t> Clock for Peers<'t> {
    fn monotonic(&self) -> io::Result<Duration> {
        Ok(self.time.now.get())
    }

    fn since_1970(&self) -> io::Result<Duration> {
        self.monotonic()
    }

    fn sleep(&self, duration: Duration) {
        self.time.pass(duration);
    }
}

/// What is known of a network's time.
trait Timed {
    /// Its time.
    fn now(&self) -> Duration;

    /// So much of it goes by.
    fn pass(&self, wait: Duration);
}

impl<'t> Timed for Peers<'t> {
    fn now(&self) -> Duration {
        self.time.now.get()
    }

    fn pass(&self, wait: Duration) {
        self.time.pass(wait);
    }
}

/// Counts how often it is told that an ask is waited for.
#[derive(Drop)]
struct Counting<'c> {
    waits: &'c Cell<u64>,
}

impl<'c> Teller for Counting<'c> {
    fn begin(&mut self, _to: Peer, _request: Head, _frame: &[u8]) {}

    fn sent(&mut self, _bytes: usize) {}

    fn waits(&mut self) {
        self.waits.set(self.waits.get().saturating_add(1));
    }

    fn came(&mut self, _bytes: usize) {}

    fn end(&mut self, _address: &[u8], _reply: Result<&[u8], &Missed>) {}
}

/// Whom the message is for, where it is a request.
fn peer_of(message: &Message) -> Option<Peer>
    ensures { IfSome result (λ peer. IsRequest peer message.now) }
{
    match message {
        Message::Operate { .. } => Some(Peer::Surrogate),
        Message::Store { .. } | Message::Pull { .. } => Some(Peer::Server),
        _ => None,
    }
}

/// Whom the frame is for, where it spells a request.
fn asked_peer(alloc: Global, frame: &[u8]) -> Option<Peer>
    ensures { IfSome result (λ peer. (request : Message) × Spells request frame.now × IsRequest peer request) }
{
    match read(alloc, frame) {
        Ok(message) => {
            let peer = peer_of(&message);
            drop(message);
            peer
        }
        Err(refused) => {
            drop(refused);
            None
        }
    }
}

/// How long each of these asks takes over one new link: of an address, with a frame. None gets an answer.
fn waits<N: Net + Clock + Timed>(
    alloc: Global,
    net: &N,
    asks: &[(&str, &[u8]); 5],
) -> [Duration; 5] {
    told_waits(alloc, net, Untold, Duration::from_secs(0), asks)
}

/// The same of a link that tells this one, where so much time goes by behind each ask.
fn told_waits<N: Net + Clock + Timed, T: Teller + Drop>(
    alloc: Global,
    net: &N,
    teller: T,
    between: Duration,
    asks: &[(&str, &[u8]); 5],
) -> [Duration; 5] {
    let mut link = TcpLink::telling(alloc, net, teller);
    let mut waits = [Duration::MAX; 5];
    for (wait, (address, frame)) in waits.iter_mut().zip(asks) {
        let start = net.now();
        if let Some(to) = asked_peer(alloc, frame) {
            let reply = link.ask(to, address.as_bytes(), frame);
            if reply.is_err() {
                *wait = net.now().saturating_sub(start);
            }
            drop(reply);
            net.pass(between);
        }
    }
    drop(link);
    waits
}

#[test]
fn a_silent_surrogate_is_waited_for_long_once(rt: HostRuntime) -> Result<(), Fail> {
    let time = Time::new();
    let peers = Peers {
        time: &time,
        manner: Manner::Silent,
    };
    let first = OPERATION;
    let mut second = OPERATION;
    second[NUMBER] = 2;
    // That a server is silent is not remembered.
    let asks: [(&str, &[u8]); 5] = [
        (ONE, &first),
        (ONE, &first),
        (ONE, &second),
        (OTHER, PULL),
        (OTHER, &first),
    ];
    let [long, short] = [Duration::from_secs(600), Duration::from_secs(30)];
    assert!(rt; waits(rt.alloc(), &peers, &asks) == [long, short, short, short, long]);
    Ok(())
}

#[test]
fn an_address_that_refused_is_left_alone_for_a_moment(rt: HostRuntime) -> Result<(), Fail> {
    let time = Time::new();
    let peers = Peers {
        time: &time,
        manner: Manner::Refusing,
    };
    let asks = [
        (ONE, PULL),
        (ONE, PULL),
        (OTHER, PULL),
        (ONE, PULL),
        (OTHER, PULL),
    ];
    let [none, moment] = [Duration::from_millis(0), Duration::from_millis(250)];
    assert!(rt; waits(rt.alloc(), &peers, &asks) == [none, moment, none, moment, moment]);
    Ok(())
}

#[test]
fn each_try_that_breaks_is_followed_by_a_longer_pause(rt: HostRuntime) -> Result<(), Fail> {
    let time = Time::new();
    let peers = Peers {
        time: &time,
        manner: Manner::Breaking,
    };
    let [none, one] = [Duration::from_secs(0), Duration::from_secs(1)];
    let [two, four] = [Duration::from_secs(2), Duration::from_secs(4)];
    let asks: [(&str, &[u8]); 5] = [(ONE, PULL); 5];
    let eight = Duration::from_secs(8);
    assert!(rt; waits(rt.alloc(), &peers, &asks) == [none, one, two, four, eight]);
    let asks = [
        (ONE, PULL),
        (ONE, PULL),
        (OTHER, PULL),
        (OTHER, PULL),
        (ONE, PULL),
    ];
    assert!(rt; waits(rt.alloc(), &peers, &asks) == [none, one, none, one, two]);
    Ok(())
}

#[test]
fn a_pause_runs_off_and_is_told(rt: HostRuntime) -> Result<(), Fail> {
    let time = Time::new();
    let peers = Peers {
        time: &time,
        manner: Manner::Breaking,
    };
    let asks: [(&str, &[u8]); 5] = [(ONE, PULL); 5];
    let three = Duration::from_secs(3);
    let told = Cell::new(0);
    let teller = Counting { waits: &told };
    let waited = told_waits(rt.alloc(), &peers, teller, three, &asks);
    let [none, one] = [Duration::from_secs(0), Duration::from_secs(1)];
    // Of pauses of 1, 2, 4 and 8 s three went by already.
    assert!(rt; waited == [none, none, none, one, Duration::from_secs(5)]);
    assert!(rt; told.get() == 5 + 25);
    Ok(())
}
