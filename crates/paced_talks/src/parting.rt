// Connections that were answered.
ghost use Rattle.std.specs.Prelude.{◌≡◌};
ghost use Rattle.std.specs.Duration.{as_nanos};
ghost use Rattle.paced_talks.specs.Talks.{parting_left};

use crate::frames::BLOCK;
use crate::step::{Progress, passing, sooner};
use std::alloc::{AllocError, Global};
use std::io;
use std::io::Read;
use std::net::{OpenStream, Shutdown};
use std::time::{Duration, Instant};

/// The most connections that were answered and may still send.
const MOST_PARTING: usize = 64;

/// How long a peer that was answered may be silent, in milliseconds.
const SILENCE_MILLIS: u64 = 200;

/// How long a peer that was answered may go on sending, in milliseconds.
const PARTING_MILLIS: u64 = 2_000;

/// A connection that was answered. Its peer may still send for a moment, since one that is closed with unread bytes may lose its
/// answer.
#[derive(Drop)]
struct Parting<S: Read + Drop> {
    stream: S,
    since: Instant,
    heard_at: Instant,
}

impl<S: Read + Drop> Parting<S> {
    /// Reads what has come, a block at most, and drops it. The block is one that several use.
    fn step(&mut self, now: Instant, block: &mut [u8; BLOCK]) -> io::Result<Progress> {
        let step = match self.stream.read(block) {
            Ok(0) => Progress::Ended,
            Ok(_) => {
                self.heard_at = now;
                Progress::Moved
            }
            Err(error) => passing(error)?,
        };
        if self.left(now).is_zero() {
            return Ok(Progress::Ended);
        }
        Ok(step)
    }

    /// How long it may go on, if it stays silent.
    fn left(&self, now: Instant) -> Duration
        ensures { as_nanos result ≡ parting_left self.now.since self.now.heard_at now }
    {
        let silent = now.duration_since(self.heard_at);
        let spent = now.duration_since(self.since);
        Duration::from_millis(PARTING_MILLIS)
            .saturating_sub(spent)
            .min(Duration::from_millis(SILENCE_MILLIS).saturating_sub(silent))
    }
}

/// The connections that were answered and may still send, those that were answered first at the front.
#[derive(Drop)]
pub struct Partings<S: Read + OpenStream + Drop> {
    talks: Vec<Parting<S>>,
}

impl<S: Read + OpenStream + Drop> Partings<S> {
    /// No connection.
    pub fn new(alloc: Global) -> Partings<S> {
        Partings {
            talks: Vec::new(alloc),
        }
    }

    /// Whether there is no connection.
    pub fn is_empty(&self) -> bool {
        self.talks.is_empty()
    }

    /// Ends what is written to a stream, and leaves its peer a moment to end, too. Where all places are taken the first one is
    /// closed.
    ///
    /// # Errors
    ///
    /// The stream's, and want of memory: it is closed then.
    pub fn admit(&mut self, stream: S, now: Instant) -> io::Result<()> {
        stream.shutdown(Shutdown::Write)?;
        if self.talks.len() >= MOST_PARTING {
            drop(self.talks.remove(0));
        }
        self.talks.push(Parting {
            stream,
            since: now,
            heard_at: now,
        })?;
        Ok(())
    }

    /// Has each connection read what has come, and closes those that are over. Answers whether more may have come.
    pub fn step(&mut self, now: Instant) -> bool {
        let mut moved = false;
        let mut block = [0; BLOCK];
        let mut place = 0;
        while place < self.talks.len() {
            match self.talks[place].step(now, &mut block) {
                Ok(Progress::Moved) => {
                    moved = true;
                    place += 1;
                }
                Ok(Progress::Waits) => place += 1,
                Ok(Progress::Ended) | Err(_) => drop(self.talks.remove(place)),
            }
        }
        moved
    }

    /// The shorter of a wait and what is left of the time of a connection.
    pub fn soonest(&self, now: Instant, wait: Option<Duration>) -> Option<Duration> {
        let mut soonest = wait;
        for talk in &self.talks {
            soonest = sooner(soonest, talk.left(now));
        }
        soonest
    }
}
