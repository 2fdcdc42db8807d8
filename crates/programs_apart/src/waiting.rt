// A program that is waited for.
ghost use Rattle.std.specs.Prelude.{◌≡◌, Some, IfOk, option_map};
ghost use Rattle.std.specs.Duration.{as_nanos};
ghost use Rattle.std.specs.Process.{child_status};
ghost use Rattle.programs_apart.specs.Waiting.{next_pause, pause_behind as pause_nanos};

use crate::passing::Passing;
use folder_reading::{HostTrouble, Stopwatch, refused};
use std::alloc::AllocGlobal;
use std::io::Eprint;
use std::process::{Child, ExitStatus, OpenProcess};
use std::thread;
use std::time::{Clock, Duration};

/// The shortest and the longest pause between two looks at a program that runs, in milliseconds.
const SHORTEST_PAUSE: u64 = 1;

const LONGEST_PAUSE: u64 = 20;

/// A pause is this part of the time that the program has run.
const PAUSE_PART: u32 = 8;

/// Waits until the program has ended by itself, as long as the watch goes, and gives its status. What it prints is passed on
/// meanwhile.
pub(crate) fn wait_within<R: Clock + AllocGlobal + Eprint, P: OpenProcess>(
    host: &R,
    child: &mut Child<P>,
    watch: &Stopwatch,
    passing: &mut Option<Passing>,
) -> Result<ExitStatus, HostTrouble>
    ensures { IfOk result (λ status. child_status child.new ≡ Some status) }
{
    let own = Stopwatch::begin(host, "", None)?;
    for _ in 0..u64::MAX {
        let is_busy = match passing {
            Some(passing) => passing.pass(host),
            None => false,
        };
        if let Some(status) = ended(host, child)? {
            return Ok(status);
        }
        match pause_after(own.spent(host)?, watch.left(host)?) {
            Some(pause) if !is_busy => thread::sleep(host, pause),
            Some(_) => {}
            None => break,
        }
    }
    Err(watch.over())
}

/// The status of the program, where it has ended: then it is asked for, and nothing is left of it.
pub fn ended<R: AllocGlobal, P: OpenProcess>(
    host: &R,
    child: &mut Child<P>,
) -> Result<Option<ExitStatus>, HostTrouble>
    ensures { IfOk result (λ status. child_status child.new ≡ status) }
{
    match child.try_wait() {
        Ok(status) => Ok(status),
        Err(error) => Err(refused(host.alloc(), "wait for", "the program", error)),
    }
}

/// Ends the program, where it runs.
pub(crate) fn end<P: OpenProcess>(child: &mut Child<P>) {
    if child.kill().is_ok() {
        let _killed = child.wait();
    }
}

/// The pause before the next look at a program that has run for so long; none where no time is left.
pub(crate) fn pause_after(spent: Duration, left: Option<Duration>) -> Option<Duration>
    ensures { option_map as_nanos result ≡ next_pause (as_nanos spent) (option_map as_nanos left) }
{
    let pause = pause(spent);
    match left {
        None => Some(pause),
        Some(left) if left.is_zero() => None,
        Some(left) => Some(left.min(pause)),
    }
}

/// Long enough not to keep a processor busy, and short beside what the program took.
fn pause(spent: Duration) -> Duration
    ensures { as_nanos result ≡ pause_nanos (as_nanos spent) }
{
    let part = spent.checked_div(PAUSE_PART).unwrap_or(Duration::ZERO);
    part.max(Duration::from_millis(SHORTEST_PAUSE))
        .min(Duration::from_millis(LONGEST_PAUSE))
}
