// What is told while an ask goes on.
ghost use Rattle.std.specs.Prelude.{◌≡◌, ◌≤◌};
ghost use Rattle.std.specs.Io.{ReadsAtMost, WritesAtMost};
ghost use Rattle.std.specs.Io.KnownBytes.{Keeps, ReadConsumes, WriteAppends};

use crate::missed::Missed;
use std::io;
use std::io::{Read, Write};
use wire_frames::Head;
use world_rules::Peer;

/// The most bytes of a request that are sent before it is told.
const PIECE: usize = 4_096;

/// Is told how an ask goes on.
pub trait Teller {
    /// A request is asked, which this frame spells.
    fn begin(&mut self, to: Peer, request: Head, frame: &[u8]);

    /// So many more bytes of the request were sent.
    fn sent(&mut self, bytes: usize);

    /// The answer is waited for.
    fn waits(&mut self);

    /// So many more bytes of the answer came.
    fn came(&mut self, bytes: usize);

    /// The ask at this address is over: with these bytes, which spell a reply to the request, or without, and why.
    fn end(&mut self, address: &[u8], reply: Result<&[u8], &Missed>);
}

/// Tells nobody.
#[derive(Clone, Copy, Debug, Drop)]
pub struct Untold;

impl Teller for Untold {
    fn begin(&mut self, _to: Peer, _request: Head, _frame: &[u8]) {}

    fn sent(&mut self, _bytes: usize) {}

    fn waits(&mut self) {}

    fn came(&mut self, _bytes: usize) {}

    fn end(&mut self, _address: &[u8], _reply: Result<&[u8], &Missed>) {}
}

/// A stream of which each call is told.
#[derive(Drop)]
pub(crate) struct ToldStream<'s, 't, S: Read + Write, T: Teller> {
    pub(crate) stream: &'s mut S,
    pub(crate) teller: &'t mut T,
}

impl<'s, 't, S: Read + Write, T: Teller> Read for ToldStream<'s, 't, S, T> {
    ghost remaining = { λ told. S.remaining told.stream.now };

    fn read(&mut self, buf: &mut [u8]) -> io::Result<usize>
        ensures bound { ReadsAtMost result buf.new }
        ensures bytes { ReadConsumes (S.remaining self.old.stream.now) (S.remaining self.new.stream.now) result buf.new }
    {
        let read = self.stream.read(buf);
        if let Ok(count) = &read {
            self.teller.came(*count);
        }
        read
    }
}

impl<'s, 't, S: Read + Write, T: Teller> Write for ToldStream<'s, 't, S, T> {
    ghost contents = { λ told. S.contents told.stream.now };

    /// Sends a piece at most.
    #[tactic(auto, using(crate::proofs::Pacing::piece_written, crate::proofs::Pacing::piece_short))]
    fn write(&mut self, buf: &[u8]) -> io::Result<usize> {
        let written = self.stream.write(&buf[..buf.len().min(PIECE)]);
        if let Ok(count) = &written {
            self.teller.sent(*count);
        }
        written
    }

    fn flush(&mut self) -> io::Result<()> {
        self.stream.flush()
    }
}
