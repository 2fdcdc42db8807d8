//! The surrogate program.
#![tactic(auto)]

use std::process::ExitCode;
use surrogate_prog::surrogate_program;

fn main(rt: HostRuntime) -> ExitCode {
    surrogate_program(&rt)
}
