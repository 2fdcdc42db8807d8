// A connection whose frame comes in.
ghost use Rattle.std.specs.Prelude.{◌≡◌, ◌≤◌, ◌<◌, ◌+◌, [], length, true, false, nat_le, Ok, OnOk, OnErr};
ghost use Rattle.std.specs.Io.KnownBytes.{Keeps, prepend_known};
ghost use Rattle.paced_talks.specs.Frames.{block_bytes};
ghost use Rattle.paced_talks.specs.Talks.{IsBegun, IsFirstFrame, HasMoved, MovedAt};
ghost use Rattle.paced_talks.specs.Window.{length_bytes, of_request};

use crate::frames::{BLOCK, missing, read_at_once};
use crate::step::Progress;
use crate::window::{HEAD_BYTES, Window, later};
use std::alloc::Global;
use std::io;
use std::io::Read;
use std::net::SocketAddr;
use std::time::{Duration, Instant};

/// A connection whose frame comes in.
#[derive(Drop)]
pub(crate) struct Asking<S: Read + Drop> {
    pub(crate) stream: S,
    pub(crate) peer: SocketAddr,
    pub(crate) frame: Vec<u8>,
    pub(crate) window: Window,
    pub(crate) moved_at: Instant,
    pub(crate) is_whole: bool,
    ghost begun: { IsBegun frame.items },
    ghost whole: { is_whole ≡ true → IsFirstFrame frame.items (S.remaining stream) },
}

impl<S: Read + Drop> Asking<S> {
    /// A connection of this peer that was taken at this moment.
    pub(crate) fn new(alloc: Global, stream: S, peer: SocketAddr, now: Instant) -> Asking<S>
        ensures frame { result.frame.items ≡ [] }
        ensures stream { result.stream ≡ stream }
        ensures peer { result.peer ≡ peer }
        ensures window { result.window ≡ of_request now }
        ensures moved_at { result.moved_at ≡ now }
    {
        Asking {
            stream,
            peer,
            frame: Vec::new(alloc),
            window: Window::of_request(now),
            moved_at: now,
            is_whole: false,
        }
    }

    /// Reads what has come, a block at most, over a block that several use. A stream that ends makes its frame whole.
    ///
    /// # Errors
    ///
    /// `TimedOut` where its time is over, the stream's, and want of memory.
    #[tactic(auto, using(crate::proofs::Pieces::begun_after, crate::proofs::Pieces::same_after, crate::proofs::Pieces::grows_after, crate::proofs::Pieces::same_waiting, crate::proofs::Pieces::same_self, crate::proofs::Pieces::ends_after, crate::proofs::Pieces::whole_is_first, crate::proofs::Moving::stays, crate::proofs::Moving::moves_none, crate::proofs::Moving::moves_some, crate::proofs::Moving::moved_now, crate::proofs::Moving::moved_before))]
    pub(crate) fn step(&mut self, now: Instant, block: &mut [u8; BLOCK]) -> io::Result<Progress>
        ensures same { OnOk result (Keeps (prepend_known self.old.frame.items (S.remaining self.old.stream))
            (prepend_known self.new.frame.items (S.remaining self.new.stream))) }
        ensures window { OnOk result
            (HasMoved (length self.old.frame.items) (length self.new.frame.items) self.old.window self.new.window) }
        ensures moved_at { OnOk result
            (MovedAt (length self.old.frame.items) (length self.new.frame.items) now self.old.moved_at self.new.moved_at) }
        ensures few { length self.new.frame.items ≤ length self.old.frame.items + block_bytes }
        ensures whole { self.old.is_whole ≡ true → (self.new ≡ self.old) × (result ≡ Ok Progress.Ended) }
        ensures failed { OnErr result (self.new.is_whole ≡ false) }
    {
        if self.is_whole {
            return Ok(Progress::Ended);
        }
        let wanted = missing(&self.frame);
        if wanted == 0 {
            self.is_whole = true;
            return Ok(Progress::Ended);
        }
        self.window = self.window.go_on(now)?;
        match read_at_once(&mut self.stream, block, wanted, &mut self.frame)? {
            Ok(0) => {
                self.is_whole = true;
                Ok(Progress::Moved)
            }
            Ok(count) => {
                self.window = self.window.after(count);
                self.moved_at = now;
                self.is_whole = missing(&self.frame) == 0;
                Ok(Progress::Moved)
            }
            Err(step) => Ok(step),
        }
    }

    /// Whether it has brought its head.
    pub(crate) fn has_head(&self) -> bool
        ensures { result ≡ nat_le length_bytes (length self.now.frame.items) }
    {
        self.frame.len() as u64 >= HEAD_BYTES
    }

    /// Gives it so much time more, in which nobody looked at it.
    pub(crate) fn delay(&mut self, by: Duration)
        ensures frame { self.new.frame.items ≡ self.old.frame.items }
        ensures whole { self.new.is_whole ≡ self.old.is_whole }
    {
        self.window = self.window.delayed(by);
        self.moved_at = later(self.moved_at, by);
    }
}
