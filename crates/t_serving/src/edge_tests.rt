//! The real edge over peers of this process: which connections are made, and what becomes of a call of a peer that failed. Each
//! link and each port ends in the function that made it, so that the tests hold truths alone.
ghost use Rattle.std.specs.Prelude.{IfOk};
ghost use Rattle.wire_frames.specs.declared.message.Message.TheVariants.{Pull};
ghost use Rattle.wire_frames.specs.Frame.{Spells};

use outside::{Port, PortError};
use real_edge::{PeerPort, TcpLink, TcpPort};
use std::alloc::{AllocError, Global};
use std::cell::Cell;
use std::io::{self, ErrorKind, Read, Write};
use std::net::{
    IpAddr, Ipv4Addr, Net, OpenListener, OpenStream, Shutdown, SocketAddr, TcpListener,
};
use std::os::fd::{AsRawFd, RawFd};
use std::test::Fail;
use std::time::{Clock, Duration, Instant};
use wire_frames::{Message, write};
use world_rules::{Link, Peer};

/// What a peer sends: the rows of a server without any, as it answers entry 1 of client 1's pull.
const SENT: &[u8] = &[
    0, 0, 0, 23, 3, 21, 1, 0, 0, 0, 0, 0, 0, 0, 1, 0, 0, 0, 0, 0, 0, 0, 0, 0, 0, 0, 0,
];

/// Linux's number of a connection that was broken off before it was taken.
const LOST: i32 = 103;

/// How many bytes the pull has.
const PULL_BYTES: usize = 15;

/// A peer that takes so many bytes, and no more, and gives what it sends. Behind that it ends, or is silent.
#[derive(Drop)]
struct Other {
    room: usize,
    gives: &'static [u8],
    is_silent: bool,
}

impl Read for Other {
    fn read(&mut self, buf: &mut [u8]) -> io::Result<usize> {
        if self.gives.is_empty() && self.is_silent {
            return Err(io::Error::from(ErrorKind::WouldBlock));
        }
        let count = self.gives.len().min(buf.len());
        buf[..count].copy_from_slice(&self.gives[..count]);
        self.gives = &self.gives[count..];
        Ok(count)
    }
}

impl Write for Other {
    fn write(&mut self, buf: &[u8]) -> io::Result<usize> {
        let count = buf.len().min(self.room);
        if count == 0 {
            return Err(io::Error::from(ErrorKind::BrokenPipe));
        }
        self.room -= count;
        Ok(count)
    }

    fn flush(&mut self) -> io::Result<()> {
        Ok(())
    }
}

impl OpenStream for Other {
    fn shutdown(&self, _how: Shutdown) -> io::Result<()> {
        Ok(())
    }

    fn set_nonblocking(&self, _nonblocking: bool) -> io::Result<()> {
        Ok(())
    }

    fn set_read_timeout(&self, _wait: Option<Duration>) -> io::Result<()> {
        Ok(())
    }

    fn set_write_timeout(&self, _wait: Option<Duration>) -> io::Result<()> {
        Ok(())
    }

    fn peek(&self, _buf: &mut [u8]) -> io::Result<usize> {
        Ok(0)
    }
}

impl AsRawFd for Other {
    fn as_raw_fd(&self) -> RawFd {
        -1
    }
}

/// A network whose peers take so many bytes. Its names have four addresses, and only the last of them answers.
#[derive(Clone, Copy, Drop)]
struct Others {
    room: usize,
}

impl Net for Others {
    type Stream = Other;

    type Listener = Others;

    fn bind(&self, _address: SocketAddr) -> io::Result<Others> {
        Ok(*self)
    }

    fn connect(&self, _address: SocketAddr) -> io::Result<Other> {
        Err(io::Error::from(ErrorKind::Unsupported))
    }

    fn connect_timeout(&self, address: SocketAddr, _wait: Duration) -> io::Result<Other> {
        if address.ip() != address_of(4).ip() {
            return Err(io::Error::from(ErrorKind::ConnectionRefused));
        }
        Ok(Other {
            room: self.room,
            gives: SENT,
            is_silent: false,
        })
    }

    fn lookup_host(&self, _host: &str, _port: u16, found: &mut [SocketAddr]) -> io::Result<usize> {
        for (place, number) in found.iter_mut().zip(1..=4_u8) {
            *place = address_of(number);
        }
        Ok(found.len().min(4))
    }
}

impl OpenListener for Others {
    type Stream = Other;

    fn accept(&self) -> io::Result<(Other, SocketAddr)> {
        let other = Other {
            room: self.room,
            gives: SENT,
            is_silent: false,
        };
        Ok((other, address_of(4)))
    }

    fn set_nonblocking(&self, _nonblocking: bool) -> io::Result<()> {
        Ok(())
    }
}

impl AsRawFd for Others {
    fn as_raw_fd(&self) -> RawFd {
        -1
    }
}

impl Clock for Others {
    fn monotonic(&self) -> io::Result<Duration> {
        Ok(Duration::from_secs(1))
    }

    fn since_1970(&self) -> io::Result<Duration> {
        Ok(Duration::from_secs(1))
    }
}

fn address_of(number: u8) -> SocketAddr {
    SocketAddr::new(IpAddr::V4(Ipv4Addr::new(127, 0, 0, number)), 7001)
}

/// What becomes of an answer: of the first one, of which a peer takes so many bytes, and of a second one.
type Answered = (Result<(), PortError>, Result<(), PortError>);

/// Whether what a peer sends is taken, and what becomes of two answers to it.
fn answered(rt: &HostRuntime, room: usize) -> Result<(bool, Answered), Fail> {
    let others = Others { room };
    let mut port = TcpPort::bind(rt.alloc(), &others, "127.0.0.1:7001")?;
    let taken = port.take();
    let came = matches!(&taken, Ok(Some(frame)) if frame.as_slice() == SENT);
    drop(taken);
    let first = port.answer(SENT);
    let second = port.answer(SENT);
    drop(port);
    Ok((came, (first, second)))
}

#[test]
fn an_answer_that_is_not_taken_whole_is_a_fault(rt: HostRuntime) -> Result<(), Fail> {
    let fault = Err(PortError::Failed);
    assert!(rt; answered(&rt, SENT.len())? == (true, (Ok(()), fault)));
    assert!(rt; answered(&rt, SENT.len() - 1)? == (true, (fault, fault)));
    Ok(())
}

/// A listener to which come, one after the other, a connection that is lost before it is taken, a peer that sends nothing, and one
/// that sends a frame.
#[derive(Drop)]
struct Door {
    came: Cell<u8>,
}

impl OpenListener for Door {
    type Stream = Other;

    fn accept(&self) -> io::Result<(Other, SocketAddr)> {
        let number = self.came.get();
        self.came.set(number.saturating_add(1));
        let gives = match number {
            0 => return Err(io::Error::from_raw_os_error(LOST)),
            1 => &[],
            2 => SENT,
            _ => return Err(io::Error::from(ErrorKind::WouldBlock)),
        };
        let other = Other {
            room: 0,
            gives,
            is_silent: true,
        };
        Ok((other, address_of(number)))
    }

    fn set_nonblocking(&self, _nonblocking: bool) -> io::Result<()> {
        Ok(())
    }
}

impl AsRawFd for Door {
    fn as_raw_fd(&self) -> RawFd {
        -1
    }
}

/// A network with such a listener, whose clock goes on by so many seconds each time that it is asked.
#[derive(Drop)]
struct Town {
    now: Cell<u64>,
    step: u64,
}

impl Net for Town {
    type Stream = Other;

    type Listener = Door;

    fn bind(&self, _address: SocketAddr) -> io::Result<Door> {
        Ok(Door { came: Cell::new(0) })
    }

    fn connect(&self, _address: SocketAddr) -> io::Result<Other> {
        Err(io::Error::from(ErrorKind::Unsupported))
    }

    fn connect_timeout(&self, _address: SocketAddr, _wait: Duration) -> io::Result<Other> {
        Err(io::Error::from(ErrorKind::Unsupported))
    }

    fn lookup_host(&self, _host: &str, _port: u16, _found: &mut [SocketAddr]) -> io::Result<usize> {
        Err(io::Error::from(ErrorKind::Unsupported))
    }
}

impl Clock for Town {
    fn monotonic(&self) -> io::Result<Duration> {
        let now = self.now.get().saturating_add(self.step);
        self.now.set(now);
        Ok(Duration::from_secs(now))
    }

    fn since_1970(&self) -> io::Result<Duration> {
        Ok(Duration::from_secs(1))
    }
}

/// Whether the first frame that is taken is the one that comes.
fn is_taken(alloc: Global) -> Result<bool, Fail> {
    let town = Town {
        now: Cell::new(1),
        step: 0,
    };
    let mut port = TcpPort::bind(alloc, &town, "127.0.0.1:7001")?;
    let taken = port.take();
    drop(port);
    let is_taken = matches!(&taken, Ok(Some(frame)) if frame.as_slice() == SENT);
    drop(taken);
    Ok(is_taken)
}

#[test]
fn a_lost_connection_and_a_silent_peer_hold_nothing_up(rt: HostRuntime) -> Result<(), Fail> {
    assert!(rt; is_taken(rt.alloc())?);
    Ok(())
}

/// Whose connections two takes are about, of which the second one fails.
fn peers_of_takes(alloc: Global) -> Result<[Option<SocketAddr>; 2], Fail> {
    let town = Town {
        now: Cell::new(1),
        step: 10,
    };
    let mut port = TcpPort::bind(alloc, &town, "127.0.0.1:7001")?;
    drop(port.take());
    let first = port.peer();
    drop(port.take());
    let second = port.peer();
    drop(port);
    Ok([first, second])
}

#[test]
fn a_peer_is_named_whose_frame_is_taken_or_never_came(rt: HostRuntime) -> Result<(), Fail> {
    let peers = [Some(address_of(2)), Some(address_of(1))];
    assert!(rt; peers_of_takes(rt.alloc())? == peers);
    Ok(())
}

/// The frame of a pull.
fn pull(alloc: Global) -> Result<Vec<u8>, AllocError>
    ensures { IfOk result (λ bytes. Spells (Pull 1 1) bytes.items) }
{
    let request = Message::Pull {
        client: 1,
        number: 1,
    };
    let frame = write(alloc, &request);
    drop(request);
    frame
}

/// Whether what comes back to a pull, over a new link, is what peers send.
fn is_pulled<N: Net + Clock>(alloc: Global, net: &N, address: &str) -> Result<bool, AllocError> {
    let frame = pull(alloc)?;
    let mut link = TcpLink::new(alloc, net);
    let reply = link.ask(Peer::Server, address.as_bytes(), &frame);
    drop(frame);
    drop(link);
    let is_pulled = matches!(&reply, Ok(bytes) if bytes.as_slice() == SENT);
    drop(reply);
    Ok(is_pulled)
}

#[test]
fn a_request_is_sent_once(rt: HostRuntime) -> Result<(), Fail> {
    let others = Others { room: PULL_BYTES };
    assert!(rt; is_pulled(rt.alloc(), &others, "127.0.0.4:7001")?);
    Ok(())
}

/// A listener has connections made for it, which it does not take.
#[test]
fn a_silent_server_is_waited_for_half_a_minute(rt: HostRuntime) -> Result<(), Fail> {
    let listener = TcpListener::bind(&rt, "127.0.0.1:0")?;
    let number = listener.local_addr()?.port();
    let address = format!(in rt.alloc(); "127.0.0.1:{number}")?;
    let start = Instant::now(&rt)?;
    assert!(rt; !is_pulled(rt.alloc(), &rt, address.as_str())?);
    assert!(rt; start.elapsed(&rt)? >= Duration::from_secs(30));
    Ok(())
}

#[test]
fn the_last_of_four_addresses_is_tried(rt: HostRuntime) -> Result<(), Fail> {
    let others = Others { room: PULL_BYTES };
    assert!(rt; is_pulled(rt.alloc(), &others, "peer:7001")?);
    assert!(rt; !is_pulled(rt.alloc(), &others, "127.0.0.3:7001")?);
    Ok(())
}
