//! Reading the input: pieces, and the lines that they are cut into.

ghost use Rattle.std.specs.Prelude.{◌≡◌, ◌≤◌, ◌+◌, ◌-◌, ◌++◌, ℕ, List, [], Ok, Some, IfOk, OnOk, OnErr, length, take, drop};
ghost use Rattle.std.specs.Option.{option_copied};
ghost use Rattle.outside.specs.Outside.{Takes, RisesWhere};
ghost use Rattle.shell_lang.specs.Lines.{FirstLine};
ghost use Rattle.client_lines.specs.Input.{Reading, ReadsPiece};
ghost use Rattle.client_lines.specs.Limits.{max_input};
ghost use Rattle.client_lines.specs.InsideRun.{end_by_count};

use outside::{INPUT_PIECE, Source};
use shell_lang::LineBuffer;
use std::alloc::{AllocError, Global};
use std::marker::Model;

/// The most bytes of an input that are cut into lines.
pub const MAX_INPUT: usize = 16_777_216;

/// How reading an input ended.
#[derive(Clone, Copy, Debug, PartialEq, Eq)]
pub enum InputEnd {
    /// It was read to its end, or to a line that quits.
    Read,
    /// The source failed.
    Failed,
    /// A byte past the most that an input may have was read.
    TooLong,
}

/// Reads an input piece by piece and cuts it into lines, so that each can be answered before more is waited for.
#[derive(Drop)]
pub(crate) struct LineReader {
    buffer: LineBuffer,
    count: usize,
}

impl Model for LineReader {
    ghost use Rattle.std.specs.Prelude.{◌≤◌, ◌+◌};
    ghost use Rattle.client_lines.specs.Input.{Reading};
    ghost use Rattle.client_lines.specs.Limits.{max_input};

    ghost Value = { Reading };

    ghost view = { λ reader. record { bytes = reader.buffer.bytes; count = reader.count } };

    ghost invariant = { λ reader. reader.count ≤ max_input + 1 };
}

impl LineReader {
    /// Nothing is read yet. It takes no memory.
    pub(crate) fn new(alloc: Global) -> LineReader
        ensures { result ≡ record { bytes = []; count = 0 } }
    {
        LineReader {
            buffer: LineBuffer::new(alloc),
            count: 0,
        }
    }

    /// Reads the next piece of the input, and says how the input ended where it did. Its bytes past the limit are dropped.
    ///
    /// # Errors
    ///
    /// Want of memory; the piece is lost then.
    pub(crate) fn read_piece<I: Source>(
        &mut self,
        input: &mut I,
    ) -> Result<Option<InputEnd>, AllocError>
        requires { self.old.count ≤ max_input }
        ensures ok { IfOk result (λ end. ReadsPiece (I.left input.old) (I.left input.new) self.old self.new end) }
        ensures err { OnErr result ((piece : List ℕ) × Takes (I.left input.old) (I.left input.new) piece
            × (self.old.count + length piece ≤ max_input + 1)) }
        ensures same { OnErr result (self.new ≡ self.old) }
        ensures failed { result ≡ Ok (Some InputEnd.Failed) → self.new ≡ self.old }
        ensures cause { RisesWhere (result ≡ Ok (Some InputEnd.Failed)) (I.faults input.old) (I.faults input.new) }
    {
        let mut chunk = [0; INPUT_PIECE];
        let room = (MAX_INPUT + 1 - self.count).min(INPUT_PIECE);
        let buf = &mut chunk[..room];
        let count = match input.read(buf) {
            Ok(0) => return Ok(Some(InputEnd::Read)),
            Ok(count) => count,
            Err(_) => return Ok(Some(InputEnd::Failed)),
        };
        match self.add(&buf[..count]) {
            Ok(()) => Ok(self.end_by_count()),
            Err(refused) => Err(refused),
        }
    }

    /// Adds the bytes of a piece that are within the limit, and counts all of them.
    #[tactic(auto, using(std::proofs::lemmas::List::take_min))]
    fn add(&mut self, piece: &[u8]) -> Result<(), AllocError>
        requires few { self.old.count + length piece.now ≤ max_input + 1 }
        requires within { self.old.count ≤ max_input }
        ensures ok { OnOk result (self.new ≡ record {
          bytes = self.old.bytes ++ take (max_input - self.old.count) piece.now;
          count = self.old.count + length piece.now;
        }) }
        ensures err { OnErr result (self.new ≡ self.old) }
        ensures fits { self.old.count + length piece.now ≤ max_input + 1 }
    {
        let within = (MAX_INPUT - self.count).min(piece.len());
        self.buffer.add(&piece[..within])?;
        self.count += piece.len();
        Ok(())
    }

    /// How the input ended, where a byte past the limit was read.
    fn end_by_count(&self) -> Option<InputEnd>
        ensures { result ≡ end_by_count self.now.count }
    {
        (self.count > MAX_INPUT).then_some(InputEnd::TooLong)
    }

    /// Lends the first line that has its end, without the end; `None` where there is none.
    pub(crate) fn first_line(&self) -> Option<&[u8]>
        ensures { FirstLine self.now.bytes (option_copied result) }
    {
        self.buffer.first_line()
    }

    /// Drops so many bytes from the front, as a line and its end.
    pub(crate) fn pass(&mut self, count: usize)
        requires { count ≤ length self.old.bytes }
        ensures { self.new ≡ record self.old { bytes = drop count self.old.bytes } }
    {
        self.buffer.pass(count);
    }

    /// Lends the bytes that no line was cut from.
    pub(crate) fn bytes(&self) -> &[u8]
        ensures { result.now ≡ self.now.bytes }
    {
        self.buffer.bytes()
    }
}
