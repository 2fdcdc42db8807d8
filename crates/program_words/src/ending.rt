// The end of a program.
ghost use Rattle.std.specs.Prelude.{◌≡◌};
ghost use Rattle.std.specs.Process.{exit_status};
ghost use Rattle.program_words.specs.Status.{code};

use crate::{Status, tell_plainly};
use std::process::ExitCode;

/// Ends a program with this status, which standard error tells where it is not 0.
pub fn end<R: Eprint>(rt: &R, program: &str, status: u8) -> ExitCode
    ensures { exit_status result ≡ status }
{
    if status != 0 {
        let _ = eprintln!(rt; "{program}: status {status}");
    }
    ExitCode::from(status)
}

/// Ends a program with this status, behind the reason that the status alone has, where it has one.
pub fn end_plainly<R: Eprint>(rt: &R, program: &str, status: Status) -> ExitCode
    ensures { exit_status result ≡ code status }
{
    tell_plainly(rt, program, status);
    end(rt, program, status.code())
}
