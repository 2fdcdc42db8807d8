// The standard streams as a source and a sink.
ghost use Rattle.std.specs.Prelude.{◌≡◌, ◌<◌, ◌≤◌, ◌↔◌, None, length, IfOk};
ghost use Rattle.outside.specs.Outside.{Told, Reads, Writes, CountsFault};

use crate::steady::{SteadyRead, SteadyWrite};
use crate::trouble::{Trouble, Troubled, Troubles};
use outside::{Failed, Sink, SinkError, Source};
use std::io::{self, ErrorKind, Read, Write};

/// What the streams are called.
const INPUT: &str = "standard input";

const OUTPUT: &str = "standard output";

/// A reader, as standard input. It gives the bytes that the reader gives, and ends where the reader ends. It tells the bytes that the
/// reader tells.
#[derive(Drop)]
pub struct StdSource<R: Read + Drop> {
    reader: R,
    troubles: Troubles,
}

impl<R: Read + Drop> StdSource<R> {
    /// The bytes that the reader gives.
    pub fn new(reader: R) -> StdSource<R>
        ensures over { result.reader ≡ reader }
        ensures none { result.troubles.count ≡ 0 }
    {
        StdSource {
            reader,
            troubles: Troubles::none(),
        }
    }

    /// What failed last; none where no call has failed.
    pub fn trouble(&self) -> Option<&Trouble>
        ensures { (result ≡ None) ↔ (self.now.troubles.count ≡ 0) }
    {
        self.troubles.last()
    }
}

impl<R: Read + Drop> Troubled for StdSource<R> {
    fn trouble(&self) -> Option<&Trouble> {
        StdSource::trouble(self)
    }
}

impl<R: SteadyRead + Drop> Source for StdSource<R> {
    ghost left = { λ s. R.remaining s.reader };

    ghost faults = { λ s. s.troubles.count };

    fn read(&mut self, buf: &mut [u8]) -> Result<usize, Failed>
        requires { 0 < length buf.old }
        ensures within { IfOk result (λ count. count ≤ length buf.old) }
        ensures bytes { Told (R.remaining self.old.reader) (R.remaining self.new.reader) (λ old new. Reads old new buf.new result) }
        ensures cause { CountsFault (record {}) self.old.troubles.count self.new.troubles.count result }
    {
        match self.reader.read(buf) {
            Ok(count) => Ok(count),
            Err(error) => {
                self.troubles.count(Trouble::OfStream {
                    stream: INPUT,
                    error,
                });
                Err(Failed)
            }
        }
    }
}

/// A writer, as standard output. What it takes is written to the writer. It tells what the writer tells.
#[derive(Drop)]
pub struct StdSink<W: Write + Drop> {
    writer: W,
    troubles: Troubles,
}

impl<W: Write + Drop> StdSink<W> {
    /// What is written goes to the writer.
    pub fn new(writer: W) -> StdSink<W>
        ensures over { result.writer ≡ writer }
        ensures none { result.troubles.count ≡ 0 }
    {
        StdSink {
            writer,
            troubles: Troubles::none(),
        }
    }

    /// What failed last; none where no call has failed.
    pub fn trouble(&self) -> Option<&Trouble>
        ensures { (result ≡ None) ↔ (self.now.troubles.count ≡ 0) }
    {
        self.troubles.last()
    }
}

impl<W: Write + Drop> Troubled for StdSink<W> {
    fn trouble(&self) -> Option<&Trouble> {
        StdSink::trouble(self)
    }
}

impl<W: SteadyWrite + Drop> Sink for StdSink<W> {
    ghost written = { λ s. W.contents s.writer };

    ghost faults = { λ s. s.troubles.count };

    /// A write that takes nothing is a fault, too.
    fn write(&mut self, piece: &[u8]) -> Result<usize, SinkError>
        requires { 0 < length piece.now }
        ensures within { IfOk result (λ count. (0 < count) × (count ≤ length piece.now)) }
        ensures bytes { Told (W.contents self.old.writer) (W.contents self.new.writer) (λ old new. Writes old new piece.now result) }
        ensures cause { CountsFault SinkError.Failed self.old.troubles.count self.new.troubles.count result }
    {
        let error = match self.writer.write(piece) {
            Ok(count) if count > 0 => return Ok(count),
            Ok(_) => io::Error::from(ErrorKind::WriteZero),
            Err(error) => error,
        };
        self.troubles.count(Trouble::OfStream {
            stream: OUTPUT,
            error,
        });
        Err(SinkError::Failed)
    }
}
