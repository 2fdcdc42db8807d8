// One step of a connection: what can be done at once.
ghost use Rattle.std.specs.Prelude.{◌≡◌, IfOk};

use std::io;
use std::io::ErrorKind;
use std::time::Duration;

/// What a step came to.
#[derive(Clone, Copy, Debug, PartialEq, Eq)]
pub(crate) enum Progress {
    /// Nothing can be done before the peer does something.
    Waits,
    /// Something was done, and more may be at once.
    Moved,
    /// Nothing is left to be done.
    Ended,
}

/// Whether a call that failed is made again: a signal broke it off, or its peer has to do something before.
pub fn is_passing(error: &io::Error) -> bool {
    matches!(error.kind(), ErrorKind::Interrupted | ErrorKind::WouldBlock)
}

/// What a call came to that moved nothing, where that is no fault: that is never the end.
pub(crate) fn passing(error: io::Error) -> io::Result<Progress>
    ensures { IfOk result (λ step. step ≡ Progress.Ended → ⊥) }
{
    match error.kind() {
        ErrorKind::Interrupted => Ok(Progress::Moved),
        ErrorKind::WouldBlock => Ok(Progress::Waits),
        _ => Err(error),
    }
}

/// The shorter of two waits, of which the first may have no end.
pub fn sooner(wait: Option<Duration>, other: Duration) -> Option<Duration> {
    match wait {
        Some(wait) if wait <= other => Some(wait),
        _ => Some(other),
    }
}
