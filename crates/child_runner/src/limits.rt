// How long a run may take.
ghost use Rattle.std.specs.Prelude.{◌≡◌, Some, option_map};
ghost use Rattle.std.specs.Duration.{as_nanos};
ghost use Rattle.child_runner.specs.Waiting.{reading_nanos};
ghost use Rattle.child_runner.specs.Judging.{longest_run};

use crate::judging::judging;
use cmd_capture::JobRow;
pub(crate) use folder_reading::Stopwatch;
use std::time::Duration;

/// How long a client reads what a program left behind its end, in seconds.
pub const READING_SECONDS: u64 = 60;

/// How long the parts of a run may take.
#[derive(Clone, Copy)]
pub(crate) struct Limits {
    /// The whole run.
    pub(crate) whole: Option<Duration>,
    /// Reading what the program left, behind its end.
    pub(crate) reading: Option<Duration>,
}

impl Limits {
    /// A user can end what takes too long, and so a program has no limit.
    pub(crate) fn of_client() -> Limits
        ensures whole { result.whole ≡ None }
        ensures reading { option_map as_nanos result.reading ≡ Some reading_nanos }
    {
        Limits {
            whole: None,
            reading: Some(Duration::from_secs(READING_SECONDS)),
        }
    }

    /// Nobody ends what takes too long.
    pub(crate) fn of_surrogate(longest: Duration) -> Limits
        ensures { result ≡ record { whole = Some longest; reading = None } }
    {
        Limits {
            whole: Some(longest),
            reading: None,
        }
    }

    /// How long a run of a job with these rows may take.
    pub(crate) fn whole_of(&self, rows: &[JobRow]) -> Option<Duration>
        ensures { option_map as_nanos result ≡ longest_run (option_map as_nanos self.now.whole) rows.now }
    {
        match self.whole {
            Some(longest) => Some(longest.saturating_sub(judging(rows))),
            None => None,
        }
    }
}
