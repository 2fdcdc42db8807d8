// What a program prints, passed on as it comes.
ghost use Rattle.std.specs.Prelude.{◌≤◌, length};

use crate::pipes::Reader;
use std::alloc::{AllocError, AllocGlobal, Global};
use std::io::Eprint;

/// The most bytes that are passed on at once.
const PIECE: usize = 4_096;

/// The most pieces that are passed on behind the end of a program: more than a pipe holds. What it left running may go on writing.
const MAX_LAST: u32 = 512;

/// The output of a program that runs.
#[derive(Drop)]
pub(crate) struct Passing {
    reader: Reader,
    /// The front of a character whose end is still to come.
    held: Vec<u8>,
}

impl Passing {
    pub(crate) fn new(alloc: Global, reader: Reader) -> Passing {
        Passing {
            reader,
            held: Vec::new(alloc),
        }
    }

    /// Passes on what is there; whether something was. What is lost for want of memory is no matter of the run.
    pub(crate) fn pass<R: AllocGlobal + Eprint>(&mut self, host: &R) -> bool {
        let mut piece = [0u8; PIECE];
        let count = self.reader.read(&mut piece);
        if count == 0 {
            return false;
        }
        if self.held.extend_from_slice(&piece[..count]).is_ok() {
            let whole = whole_front(self.held.as_slice());
            let _ = self.write(host, whole);
        }
        true
    }

    /// Passes on all that is there once the program has ended.
    pub(crate) fn finish<R: AllocGlobal + Eprint>(&mut self, host: &R) {
        for _ in 0..MAX_LAST {
            if !self.pass(host) {
                break;
            }
        }
        let count = self.held.len();
        let _ = self.write(host, count);
    }

    /// Writes the first bytes that are held to standard error. Where that takes none the program goes on all the same.
    fn write<R: AllocGlobal + Eprint>(&mut self, host: &R, count: usize) -> Result<(), AllocError> {
        let count = count.min(self.held.len());
        let text = String::from_utf8_lossy(host.alloc(), &self.held[..count])?;
        let _ = eprint!(host; "{text}");
        self.held.drain(..count);
        Ok(())
    }
}

/// The length of the bytes without a character that begins at their end and is cut there.
fn whole_front(bytes: &[u8]) -> usize
    ensures { result ≤ length bytes.now }
{
    let end = bytes.len();
    for back in 1..=end.min(3) {
        let first = bytes[end - back];
        if back < char_length(first) {
            return end - back;
        }
        if first < 0x80 || first >= 0xc0 {
            return end;
        }
    }
    end
}

/// How many bytes a character has that begins with this byte; none begins with those that continue one.
fn char_length(first: u8) -> usize {
    match first {
        0xf0..=0xff => 4,
        0xe0..=0xef => 3,
        0xc0..=0xdf => 2,
        0..=0xbf => 1,
    }
}
