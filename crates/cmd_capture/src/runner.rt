//! What runs jobs.

ghost use Rattle.std.specs.Prelude.{◌≡◌, ℕ, List, Option};
ghost use Rattle.outside.specs.Outside.{Told, CountsFault};
ghost use Rattle.cmd_capture.specs.declared.runner.Run.{Run};
ghost use Rattle.cmd_capture.specs.declared.runner.RunError.TheVariants.{Memory};
ghost use Rattle.cmd_capture.specs.Runs.{AddsRun, IsAskedOnce};

use crate::job::{Job, Outcome};
use std::alloc::{AllocError, AllocFailed};
use thiserror::Error;
use vol_tree::Content;

/// Why a job was not run.
#[derive(Clone, Copy, Debug, PartialEq, Eq, Error)]
pub enum RunError {
    /// The runner failed, and counted it.
    #[error("the run failed")]
    Failed,
    /// Memory ran out.
    #[error("out of memory")]
    Memory,
}

impl From<AllocError> for RunError {
    ghost from_gives = { λ _ e. e ≡ Memory };

    fn from(_: AllocError) -> RunError {
        RunError::Memory
    }
}

impl<T: Drop> From<AllocFailed<T>> for RunError {
    ghost from_gives = { λ _ e. e ≡ Memory };

    fn from(_: AllocFailed<T>) -> RunError {
        RunError::Memory
    }
}

/// What was handed to a runner, and what it gave.
#[derive(Debug, Drop)]
pub struct Run {
    /// The folder that the runner worked in.
    pub work: Content,
    pub job: Job,
    pub outcome: Outcome,
}

/// What runs a job. Nothing is promised of an outcome.
pub trait Runner {
    /// The runs so far, where the runner tells them.
    ghost runs: { Self → Option (List Run) };

    /// How often the runner has failed.
    ghost faults: { Self → ℕ };

    /// How often it was asked for a run, also where memory ran out. The count stands still at the end of its type.
    ghost calls: { Self → ℕ };

    /// Runs the job in a folder of its own in the folder `work`.
    ///
    /// # Errors
    ///
    /// `Failed` is counted. After it and after `Memory` the runs are as before. Each call is counted, whatever comes of it.
    fn run(&mut self, work: &[u8], job: &Job) -> Result<Outcome, RunError>
        ensures runs { Told (runs self.old) (runs self.new) (AddsRun work.now job.now result) }
        ensures cause { CountsFault RunError.Failed (faults self.old) (faults self.new) result }
        ensures called { IsAskedOnce (calls self.old) (calls self.new) };
}
