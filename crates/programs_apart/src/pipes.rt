// Pipes that are read without waiting.
ghost use Rattle.std.specs.Prelude.{◌≤◌, length};

use folder_reading::{HostTrouble, answered, refused};
use std::alloc::AllocGlobal;
use std::fs::Files;
use std::io::{self, PipeWriter, Read};
use std::os::fd::OwnedFd;
use std::os::unix::net::UnixStream;
use std::process::ChildStdout;

/// The end of a pipe at which it is read.
#[derive(Drop)]
pub(crate) struct Reader {
    from: ChildStdout,
}

/// A pipe, both of its ends.
pub(crate) fn pipe<R: Files + AllocGlobal>(host: &R) -> Result<(PipeWriter, Reader), HostTrouble> {
    let alloc = host.alloc();
    let (reader, writer) = answered(alloc, "make", "a pipe", io::pipe(host))?;
    // whether a read waits is a mode of the open file, whatever it is, and the handles of sockets can set it
    let stream = UnixStream::from(OwnedFd::from(reader));
    match stream.set_nonblocking(true) {
        Ok(()) => {
            let from = ChildStdout::from(OwnedFd::from(stream));
            Ok((writer, Reader { from }))
        }
        Err(error) => {
            drop(stream);
            drop(writer);
            Err(refused(alloc, "read", "a pipe", error))
        }
    }
}

impl Reader {
    /// Reads what is there into the front of the piece, and gives the number of bytes.
    pub(crate) fn read(&mut self, piece: &mut [u8]) -> usize
        ensures { result ≤ length piece.new }
    {
        match self.from.read(piece) {
            Ok(count) => count,
            Err(error) => {
                drop(error);
                0
            }
        }
    }
}
