//! The bytes of an input, cut into lines.

ghost use Rattle.std.specs.Prelude.{◌≡◌, ◌≤◌, ◌<◌, ◌+◌, ◌^◌, [], ◌++◌, drop, length, position, OnOk, OnErr};
ghost use Rattle.std.specs.Option.{option_copied, option_map};
ghost use Rattle.shell_lang.specs.Lines.{is_line_end, FirstLine, Buffered};

use memchr::memchr;
use std::alloc::{AllocError, Global};
use std::marker::Model;

/// The bytes of an input that no line was cut from yet, behind those of cut lines that are kept until the next piece; and
/// the place of the first line end among them, so that no byte is searched twice.
#[derive(Debug, Drop)]
pub struct LineBuffer {
    bytes: Vec<u8>,
    start: usize,
    end: Option<usize>,
}

impl Model for LineBuffer {
    ghost use Rattle.std.specs.Prelude.{◌≡◌, ◌≤◌, drop, length, position};
    ghost use Rattle.shell_lang.specs.Lines.{is_line_end, Buffered};

    ghost Value = { Buffered };

    ghost view = { λ buffer. record { bytes = drop buffer.start buffer.bytes.items; passed = buffer.start } };

    ghost invariant = { λ buffer. (buffer.start ≤ length buffer.bytes.items)
        × (buffer.end ≡ position is_line_end (drop buffer.start buffer.bytes.items)) };
}

impl LineBuffer {
    /// No bytes. It takes no memory.
    pub fn new(alloc: Global) -> LineBuffer
        ensures { result ≡ record { bytes = []; passed = 0 } }
    {
        LineBuffer {
            bytes: Vec::new(alloc),
            start: 0,
            end: None,
        }
    }

    /// Adds the next piece of the input. Of the lines that were cut no byte is kept any more.
    ///
    /// # Errors
    ///
    /// Want of memory; the piece is not added then.
    pub fn add(&mut self, piece: &[u8]) -> Result<(), AllocError>
        ensures ok { OnOk result (self.new.bytes ≡ self.old.bytes ++ piece.now) }
        ensures err { OnErr result (self.new.bytes ≡ self.old.bytes) }
        ensures passed { self.new.passed ≡ 0 }
    {
        self.compact();
        let count = self.bytes.len();
        self.bytes.extend_from_slice(piece)?;
        if self.end.is_none() {
            self.end = line_end_behind(count, piece);
        }
        Ok(())
    }

    /// Gives back the room of the lines that were cut.
    fn compact(&mut self)
        ensures { self.new ≡ record { bytes = self.old.bytes; passed = 0 } }
    {
        self.bytes.drain(..self.start);
        self.start = 0;
    }

    /// Lends the first line that has its end, without the end; `None` where there is none.
    #[tactic(auto, using(crate::proofs::Cutting::line_at_end, crate::proofs::Cutting::no_line))]
    pub fn first_line(&self) -> Option<&[u8]>
        ensures { FirstLine self.now.bytes (option_copied result) }
    {
        let bytes = self.bytes();
        match self.end {
            Some(end) => Some(&bytes[..end]),
            None => None,
        }
    }

    /// Drops so many bytes from the front, as a line and its end. It moves none of the others.
    pub fn pass(&mut self, count: usize)
        requires { count ≤ length self.old.bytes }
        ensures { self.new ≡ record { bytes = drop count self.old.bytes; passed = self.old.passed + count } }
    {
        self.start += count;
        self.end = first_line_end(&self.bytes[self.start..]);
    }

    /// Lends the bytes. Once no line is left, they are what stands behind the last line end.
    pub fn bytes(&self) -> &[u8]
        ensures { result.now ≡ self.now.bytes }
    {
        &self.bytes[self.start..]
    }
}

/// The place of the first line end of a piece behind so many bytes that have none.
fn line_end_behind(count: usize, piece: &[u8]) -> Option<usize>
    requires { count + length piece.now < 2 ^ 64 }
    ensures { result ≡ option_map (λ end. count + end) (position is_line_end piece.now) }
{
    match first_line_end(piece) {
        Some(end) => Some(count + end),
        None => None,
    }
}

/// The place of the first line end.
fn first_line_end(bytes: &[u8]) -> Option<usize>
    ensures { result ≡ position is_line_end bytes.now }
{
    memchr(b'\n', bytes)
}
