// How long a connection may take.
ghost use Rattle.std.specs.Prelude.{◌≡◌, ◌-◌, ◌*◌, ◌≤◌, ◌<◌, min, true, false, None, Some, IfOk, OnOk, OnErr, MatchOption};
ghost use Rattle.std.specs.Duration.{as_nanos};
ghost use Rattle.std.specs.Io.{ReadsAtMost, WritesAtMost};
ghost use Rattle.std.specs.Io.KnownBytes.{Keeps, ReadConsumes, WriteAppends};
ghost use Rattle.paced_talks.specs.Window.{fresh, sending, after_bytes, StartsBy, LeadsOn, MovesBytes, Lasts, HasWaited};

use crate::telling::Teller;
use paced_talks::{Window, is_passing};
use std::io;
use std::io::{ErrorKind, Read, Write};
use std::net::OpenStream;
use std::time::{Clock, Duration, Instant};

/// How often a call that broke off without a fault is made again.
const TRIES: usize = 1_000;

/// How often a wait goes on: each second, and where a signal broke it off.
const WAITS: usize = 10_000;

/// For how many seconds a wait goes on before it is told.
const TOLD_SECONDS: u64 = 1;

/// A stream whose calls fail once its time is over. One window follows the other from its start, and each has to move its
/// share.
#[derive(Drop)]
pub(crate) struct Paced<'a, S: Read + Write + OpenStream + Drop, C: Clock> {
    stream: S,
    clock: &'a C,
    window: Window,
}

impl<'a, S: Read + Write + OpenStream + Drop, C: Clock> Paced<'a, S, C> {
    /// Starts the time of a stream.
    pub(crate) fn start(stream: S, clock: &'a C) -> io::Result<Paced<'a, S, C>>
        ensures { IfOk result (λ paced. (paced.stream ≡ stream) × StartsBy fresh paced.window) }
    {
        let window = Window::new(Instant::now(clock)?);
        Ok(Paced {
            stream,
            clock,
            window,
        })
    }

    /// Starts the stream's time anew.
    pub(crate) fn restart(&mut self) -> io::Result<()>
        ensures window { OnOk result (StartsBy fresh self.new.window) }
        ensures stream { self.new.stream ≡ self.old.stream }
    {
        self.window = Window::new(Instant::now(self.clock)?);
        Ok(())
    }

    /// Starts the stream's time anew for so many bytes that go out.
    pub(crate) fn begin_sending(&mut self, bytes: usize) -> io::Result<()>
        ensures window { OnOk result (StartsBy (sending bytes) self.new.window) }
        ensures stream { self.new.stream ≡ self.old.stream }
    {
        self.window = Window::sending(Instant::now(self.clock)?, bytes);
        Ok(())
    }

    /// Waits for the peer's next byte, or its end, and starts the stream's time anew there. Answers whether one of them came
    /// within so many seconds. Meanwhile it is told each second that it waits.
    pub(crate) fn wait<T: Teller>(&mut self, seconds: u64, teller: &mut T) -> io::Result<bool>
        ensures window { IfOk result (λ came. came ≡ true → StartsBy fresh self.new.window) }
        ensures vain { IfOk result (λ came. came ≡ false → HasWaited seconds self.new.window) }
        ensures stream { self.new.stream ≡ self.old.stream }
    {
        self.window = Window::waiting(Instant::now(self.clock)?, seconds);
        for _ in 0..WAITS {
            let left = self.window.left(Instant::now(self.clock)?);
            if left.is_zero() {
                return Ok(false);
            }
            self.stream
                .set_read_timeout(Some(left.min(Duration::from_secs(TOLD_SECONDS))))?;
            match self.stream.peek(&mut [0]) {
                Ok(_) => {
                    self.restart()?;
                    return Ok(true);
                }
                Err(error) if is_passing(&error) => teller.waits(),
                Err(error) => return Err(error),
            }
        }
        Err(io::Error::from(ErrorKind::TimedOut))
    }

    /// The longest wait of the next call: what is left of the window.
    fn time_left(&mut self) -> io::Result<Duration>
        ensures left { IfOk result (λ left. Lasts self.new.window (as_nanos left)) }
        ensures window { LeadsOn self.old.window self.new.window }
        ensures stream { self.new.stream ≡ self.old.stream }
    {
        let now = Instant::now(self.clock)?;
        match self.window.at(now) {
            Some(window) => {
                self.window = window;
                Ok(window.left(now))
            }
            None => Err(io::Error::from(ErrorKind::TimedOut)),
        }
    }

    /// Gives the next read what is left of the window.
    fn limit_read(&mut self) -> io::Result<()>
        ensures window { LeadsOn self.old.window self.new.window }
        ensures stream { self.new.stream ≡ self.old.stream }
    {
        let left = self.time_left()?;
        self.stream.set_read_timeout(Some(left))
    }

    /// Gives the next write what is left of the window.
    fn limit_write(&mut self) -> io::Result<()>
        ensures window { LeadsOn self.old.window self.new.window }
        ensures stream { self.new.stream ≡ self.old.stream }
    {
        let left = self.time_left()?;
        self.stream.set_write_timeout(Some(left))
    }

    /// Counts what a call moved.
    fn count(&mut self, moved: usize)
        ensures { self.new ≡ record self.old { window = after_bytes moved self.old.window } }
    {
        self.window = self.window.after(moved);
    }
}

impl<'a, S: Read + Write + OpenStream + Drop, C: Clock> Read for Paced<'a, S, C> {
    ghost remaining = { λ paced. S.remaining paced.stream };

    #[tactic(auto, using(crate::proofs::Pacing::keeps_same, crate::proofs::Pacing::reads_then, crate::proofs::Pacing::stays, crate::proofs::Pacing::goes_on, crate::proofs::Pacing::moved))]
    fn read(&mut self, buf: &mut [u8]) -> io::Result<usize>
        ensures bound { ReadsAtMost result buf.new }
        ensures bytes { ReadConsumes (S.remaining self.old.stream) (S.remaining self.new.stream) result buf.new }

        ensures window { MovesBytes result self.old.window self.new.window }
    {
        for _ in 0..TRIES {
            self.limit_read()?;
            match self.stream.read(buf) {
                Ok(count) => {
                    self.count(count);
                    return Ok(count);
                }
                Err(error) if is_passing(&error) => {}
                Err(error) => return Err(error),
            }
        }
        Err(io::Error::from(ErrorKind::TimedOut))
    }
}

impl<'a, S: Read + Write + OpenStream + Drop, C: Clock> Write for Paced<'a, S, C> {
    ghost contents = { λ paced. S.contents paced.stream };

    #[tactic(auto, using(crate::proofs::Pacing::keeps_same, crate::proofs::Pacing::writes_then, crate::proofs::Pacing::stays, crate::proofs::Pacing::goes_on, crate::proofs::Pacing::moved))]
    fn write(&mut self, buf: &[u8]) -> io::Result<usize>
        ensures bound { WritesAtMost result buf.now }
        ensures bytes { WriteAppends (S.contents self.old.stream) (S.contents self.new.stream) result buf.now }

        ensures window { MovesBytes result self.old.window self.new.window }
    {
        for _ in 0..TRIES {
            self.limit_write()?;
            match self.stream.write(buf) {
                Ok(count) => {
                    self.count(count);
                    return Ok(count);
                }
                Err(error) if is_passing(&error) => {}
                Err(error) => return Err(error),
            }
        }
        Err(io::Error::from(ErrorKind::TimedOut))
    }

    fn flush(&mut self) -> io::Result<()>
        ensures bytes { Keeps (S.contents self.old.stream) (S.contents self.new.stream) }
    {
        self.stream.flush()
    }
}
