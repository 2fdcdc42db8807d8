// Sleeping until a socket can go on.
use mio::unix::SourceFd;
use mio::{Events, Interest, Poll, Token};
use paced_talks::is_passing;
use std::alloc::Global;
use std::net::Net;
use std::os::fd::AsRawFd;
use std::time::{Clock, Duration};
use std::{io, thread};

/// How many sockets one sleep tells of. Which they are is not looked at: after a sleep all are tried.
const EVENTS: usize = 64;

/// For how long it sleeps at most once there is a socket that the system does not watch, in milliseconds.
const BLIND_MILLIS: u64 = 10;

/// Sleeps until a socket can go on, among those that it watches.
#[derive(Drop)]
pub(crate) struct Watch {
    poll: Poll,
    events: Events<Global>,
    /// Whether there was a socket that the system does not watch.
    is_blind: bool,
}

impl Watch {
    /// Watches no socket.
    pub(crate) fn new<N: Net>(alloc: Global, net: &N) -> io::Result<Watch> {
        Ok(Watch {
            poll: Poll::new(net)?,
            events: Events::with_capacity(alloc, EVENTS)?,
            is_blind: false,
        })
    }

    /// Watches a socket too, until it is closed. It does not wait, and is told when a call of it that would have waited may be made
    /// again.
    pub(crate) fn add<F: AsRawFd>(&mut self, socket: &F) {
        let descriptor = socket.as_raw_fd();
        let registered = self.poll.registry().register(
            &mut SourceFd(&descriptor),
            Token(0),
            Interest::READABLE | Interest::WRITABLE,
        );
        if registered.is_err() {
            self.is_blind = true;
        }
    }

    /// Sleeps until a socket can go on, a signal comes, or for so long.
    pub(crate) fn sleep<C: Clock>(
        &mut self,
        clock: &C,
        longest: Option<Duration>,
    ) -> io::Result<()> {
        if self.is_blind {
            let blind = Duration::from_millis(BLIND_MILLIS);
            thread::sleep(clock, longest.map_or(blind, |longest| longest.min(blind)));
            return Ok(());
        }
        match self.poll.poll(&mut self.events, longest) {
            Err(error) if is_passing(&error) => Ok(()),
            slept => slept,
        }
    }
}
