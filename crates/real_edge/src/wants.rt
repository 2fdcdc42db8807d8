// What hinders a connection without being its fault.
use std::io;
use std::io::ErrorKind;

/// Linux's numbers of a want of memory, of handles on the machine and in the program, and of buffers.
const WANTS: [i32; 4] = [12, 23, 24, 105];

/// Linux's numbers of a connection that ended before it was taken: broken off, or lost on its way.
const LOST: [i32; 9] = [64, 71, 92, 95, 100, 101, 103, 112, 113];

/// Why no connection was taken, where that is no fault.
#[derive(Clone, Copy, Debug, PartialEq, Eq)]
pub(crate) enum Hindrance {
    /// None waits.
    NoneWaits,
    /// It was lost before it was taken: the next one may wait.
    WasLost,
    /// Handles or buffers are wanted, which may pass.
    Wants,
}

/// Why no connection was taken.
///
/// # Errors
///
/// The error, where it is a fault.
pub(crate) fn why_none_came(error: io::Error) -> io::Result<Hindrance> {
    if error.kind() == ErrorKind::WouldBlock {
        return Ok(Hindrance::NoneWaits);
    }
    match error.raw_os_error() {
        Some(code) if LOST.contains(&code) => Ok(Hindrance::WasLost),
        Some(code) if WANTS.contains(&code) => Ok(Hindrance::Wants),
        _ if error.kind() == ErrorKind::Interrupted => Ok(Hindrance::WasLost),
        _ => Err(error),
    }
}
