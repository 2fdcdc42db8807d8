// The connections of a listener.
ghost use Rattle.std.specs.Prelude.{◌≡◌, None, IsErr};

use crate::talks::Talks;
use crate::wants::{Hindrance, why_none_came};
use std::alloc::Global;
use std::io;
use std::io::ErrorKind;
use std::net::{Net, OpenListener, SocketAddr, TcpListener};
use std::time::{Clock, Duration, Instant};

/// How many connections are let in before what they brought is read.
const BATCH: usize = 64;

/// How often handles or buffers may be wanted, one time after the other, before that counts as a fault.
const MOST_WANTS: u32 = 100;

/// How long a want of handles or buffers is given to pass, in milliseconds.
const PAUSE_MILLIS: u64 = 100;

/// The connections of a listener, side by side.
#[derive(Drop)]
pub(crate) struct Connections<'a, N: Net + Clock> {
    listener: N::Listener,
    talks: Talks<'a, N>,
    /// The connection whose frame was taken last, until it is answered.
    taken: Option<N::Stream>,
    /// Whose connection was taken last, or lost without its frame.
    peer: Option<SocketAddr>,
    /// How often handles or buffers were wanted since the last connection was let in.
    wants: u32,
    /// When they were wanted last, in that time.
    wanted_at: Option<Instant>,
}

impl<'a, N: Net + Clock> Connections<'a, N> {
    /// Listens at the address.
    ///
    /// # Errors
    ///
    /// The platform's, where the address is of no form or in use.
    pub(crate) fn listen(
        alloc: Global,
        net: &'a N,
        address: &str,
    ) -> io::Result<Connections<'a, N>> {
        let listener = TcpListener::bind(net, address)?;
        listener.set_nonblocking(true)?;
        let talks = Talks::new(alloc, net, &listener)?;
        Ok(Connections {
            listener,
            talks,
            taken: None,
            peer: None,
            wants: 0,
            wanted_at: None,
        })
    }

    /// The number of the port at which it listens.
    pub(crate) fn number(&self) -> io::Result<u16> {
        Ok(self.listener.local_addr()?.port())
    }

    /// Lets no connection more in, sends what is left of the answers, and lets their peers end.
    pub(crate) fn finish(self) {
        let Connections {
            listener,
            mut talks,
            taken,
            ..
        } = self;
        drop(listener);
        drop(taken);
        let _ended = talks.finish();
    }

    /// Whose connection the last take was about, where that is known.
    pub(crate) fn peer(&self) -> Option<SocketAddr> {
        self.peer
    }

    /// Waits for the next frame that is whole. A connection that was taken before and not answered is closed.
    ///
    /// # Errors
    ///
    /// `TimedOut` where a connection was let go without its frame, and the platform's.
    pub(crate) fn take(&mut self) -> io::Result<Vec<u8>> {
        self.taken = None;
        self.peer = None;
        let came = self.next_frame();
        self.talks.leave();
        let (stream, frame, peer) = came?;
        self.taken = Some(stream);
        self.peer = Some(peer);
        Ok(frame)
    }

    /// Answers the connection whose frame was taken last.
    ///
    /// # Errors
    ///
    /// `NotConnected` where there is none without an answer, the stream's, and want of memory.
    pub(crate) fn answer(&mut self, frame: &[u8]) -> io::Result<()>
        ensures { self.old.taken ≡ None → IsErr result }
    {
        match self.taken.take() {
            Some(stream) => {
                let sent = self.talks.answer(stream, frame);
                self.talks.leave();
                sent
            }
            None => Err(io::Error::from(ErrorKind::NotConnected)),
        }
    }

    /// Waits for the next frame that is whole, and gives it with its connection and its peer. Meanwhile all connections go on.
    fn next_frame(&mut self) -> io::Result<(N::Stream, Vec<u8>, SocketAddr)> {
        let mut now = self.talks.come_back()?;
        for _ in 0..u64::MAX {
            let waits = self.let_in(now)?;
            let moved = self.talks.step(now);
            if let Some(whole) = self.talks.take_whole() {
                return Ok(whole);
            }
            if self.talks.take_lost() {
                self.peer = self.talks.take_lost_peer();
                break;
            }
            let pause = self.pause(now);
            now = self.talks.rest(now, waits || moved, pause)?;
        }
        Err(io::Error::from(ErrorKind::TimedOut))
    }

    /// Lets connections in that wait, unless handles or buffers were wanted a moment before. Answers whether more may wait.
    fn let_in(&mut self, now: Instant) -> io::Result<bool> {
        if self.pause(now).is_some() {
            return Ok(false);
        }
        for _ in 0..BATCH {
            if !self.talks.has_place() {
                break;
            }
            match self.listener.accept() {
                Ok((stream, peer)) => {
                    self.wants = 0;
                    self.wanted_at = None;
                    self.talks.admit(stream, peer, now);
                }
                Err(error) => return self.hindered(error, now),
            }
        }
        Ok(true)
    }

    /// Takes note of what hindered a connection at this moment. Answers whether more may wait.
    fn hindered(&mut self, error: io::Error, now: Instant) -> io::Result<bool> {
        match why_none_came(error)? {
            Hindrance::NoneWaits => Ok(false),
            Hindrance::WasLost => Ok(true),
            Hindrance::Wants if self.wants < MOST_WANTS => {
                self.wants += 1;
                self.wanted_at = Some(now);
                Ok(false)
            }
            Hindrance::Wants => {
                self.wants = 0;
                Err(io::Error::from(ErrorKind::TimedOut))
            }
        }
    }

    /// For how long no connection is let in: a moment, where handles or buffers were wanted.
    fn pause(&self, now: Instant) -> Option<Duration> {
        let wanted_for = now.duration_since(self.wanted_at?);
        let left = Duration::from_millis(PAUSE_MILLIS).saturating_sub(wanted_for);
        if left.is_zero() {
            return None;
        }
        Some(left)
    }
}
