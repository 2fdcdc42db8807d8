// Why the surrogate ends.
ghost use Rattle.std.specs.Prelude.{◌≡◌};
ghost use Rattle.std.specs.Process.{exit_status};

use crate::program::NAME;
use program_words::{Status, end, tell_plainly};
use real_edge::{Trouble, tell_trouble};
use std::process::ExitCode;

/// Ends the program with the status of its run. Where it is not 0, standard error says why, where that is known: by what the
/// output met.
pub(crate) fn end_told<R: Eprint>(rt: &R, status: u8, output: Option<&Trouble>) -> ExitCode
    ensures { exit_status result ≡ status }
{
    if let Some(status) = Status::of(status) {
        tell_why(rt, status, output);
    }
    end(rt, NAME, status)
}

/// Tells why a run ended with this status.
fn tell_why<R: Eprint>(rt: &R, status: Status, output: Option<&Trouble>) {
    match status {
        Status::SinkFailed => tell_trouble(rt, NAME, output),
        Status::Done
        | Status::CannotListen
        | Status::NoForm
        | Status::SourceFailed
        | Status::KeeperFailed
        | Status::OtherImage
        | Status::NoMemory
        | Status::TooLong
        | Status::Refused => tell_plainly(rt, NAME, status),
    }
}
