// A reader of which contracts are told nothing.
ghost use Rattle.std.specs.Prelude.{None, refl};
ghost use Rattle.std.specs.Io.{ReadsAtMost};
ghost use Rattle.std.specs.Io.KnownBytes.{ReadConsumes};

use real_edge::SteadyRead;
use std::io;
use std::io::Read;

/// A reader that gives what its reader gives, and tells contracts none of it. What standard input tells is its own affair.
#[derive(Drop)]
pub(crate) struct UntoldReader<R: Read + Drop> {
    reader: R,
}

impl<R: Read + Drop> UntoldReader<R> {
    /// Tells nothing of this reader.
    pub(crate) fn new(reader: R) -> UntoldReader<R> {
        UntoldReader { reader }
    }
}

impl<R: Read + Drop> Read for UntoldReader<R> {
    ghost remaining = { λ _. None };

    fn read(&mut self, buf: &mut [u8]) -> io::Result<usize>
        ensures bound { ReadsAtMost result buf.new }
        ensures bytes { ReadConsumes None None result buf.new }
    {
        self.reader.read(buf)
    }
}

impl<R: Read + Drop> SteadyRead for UntoldReader<R> {
    ghost steady = { λ _ _ _. refl };
}
