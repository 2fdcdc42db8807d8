// Times that run.
ghost use Rattle.std.specs.Prelude.{◌≡◌, ◌-◌, IfOk, option_map};
ghost use Rattle.std.specs.Duration.{as_nanos};

use crate::trouble::HostTrouble;
use std::time::{Clock, Duration, Instant};

/// A time that runs.
#[derive(Clone, Copy)]
pub struct Stopwatch {
    what: &'static str,
    start: Instant,
    /// How long it may run, where that has a limit.
    pub longest: Option<Duration>,
}

impl Stopwatch {
    /// Begins now. `what` takes so long, where it is too long.
    pub fn begin<C: Clock>(
        clock: &C,
        what: &'static str,
        longest: Option<Duration>,
    ) -> Result<Stopwatch, HostTrouble>
        ensures { IfOk result (λ watch. watch.longest ≡ longest) }
    {
        Ok(Stopwatch {
            what,
            start: now(clock)?,
            longest,
        })
    }

    /// The time since its begin.
    pub fn spent<C: Clock>(&self, clock: &C) -> Result<Duration, HostTrouble> {
        Ok(now(clock)?.duration_since(self.start))
    }

    /// The time that is left, where there is a limit.
    pub fn left<C: Clock>(&self, clock: &C) -> Result<Option<Duration>, HostTrouble> {
        Ok(time_left(self.spent(clock)?, self.longest))
    }

    /// Whether there is no limit, or some time is left.
    pub fn goes_on<C: Clock>(&self, clock: &C) -> bool {
        match self.left(clock) {
            Ok(Some(left)) => !left.is_zero(),
            Ok(None) => true,
            Err(error) => {
                drop(error);
                false
            }
        }
    }

    /// Refuses to go on where no time is left.
    pub fn check<C: Clock>(&self, clock: &C) -> Result<(), HostTrouble> {
        match self.left(clock)? {
            Some(left) if left.is_zero() => Err(self.over()),
            Some(_) | None => Ok(()),
        }
    }

    /// No time is left.
    pub fn over(&self) -> HostTrouble {
        HostTrouble::Long {
            what: self.what,
            longest: self.longest.unwrap_or(Duration::ZERO),
        }
    }
}

fn now<C: Clock>(clock: &C) -> Result<Instant, HostTrouble> {
    match Instant::now(clock) {
        Ok(now) => Ok(now),
        Err(error) => {
            drop(error);
            Err(HostTrouble::Told("cannot read the clock"))
        }
    }
}

/// What is left of the longest time.
fn time_left(spent: Duration, longest: Option<Duration>) -> Option<Duration>
    ensures { option_map as_nanos result ≡ option_map (λ longest. as_nanos longest - as_nanos spent) longest }
{
    match longest {
        Some(longest) => Some(longest.saturating_sub(spent)),
        None => None,
    }
}
