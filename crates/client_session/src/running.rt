// The turns of lines that run commands.
ghost use Rattle.std.specs.Prelude.{◌≡◌, ◌≤◌, Err, IfOk};
ghost use Rattle.outside.specs.Outside.{CountsFault};
ghost use Rattle.cmd_capture.specs.Spelling.{IsCommand};
ghost use Rattle.client_core.specs.Keeping.{IsKeptReady};
ghost use Rattle.client_core.specs.Noting.{KeepsLogged};
ghost use Rattle.cmd_capture.specs.Runs.{telling, IsAskedAtMostOnce};
ghost use Rattle.client_core.specs.Running.{has_logged};
ghost use Rattle.client_session.specs.Session.{state_of, capture_answer, job_answer, run_answer};
ghost use Rattle.client_session.specs.Inside.{RunsLine, RunsMade};
ghost use Rattle.client_session.specs.Stops.{or_memory};

use crate::session::{Session, local_refusal};
use crate::stop::LineStop;
use client_core::{Route, RunEnd};
use cmd_capture::{CaptureError, Command, Runner, Words, capture};
use outside::Keeper;
use shell_lang::{Fault, LineAnswer};
use std::alloc::Global;
use work_area::JobError;

impl Session {
    /// Runs the command that a line's words make in the current folder, or answers why they make none.
    pub(crate) fn run<K: Keeper, R: Runner>(
        &mut self,
        alloc: Global,
        words: &Words,
        route: &Route,
        keeper: &mut K,
        runner: &mut R,
    ) -> Result<LineAnswer, LineStop>
        requires { IsKeptReady (K.images keeper.old) route.now.image self.old.client }
        ensures runs { RunsLine route.now words.now (state_of self.old) result (state_of self.new) (K.images keeper.old)
            (K.images keeper.new)
            (telling (R.runs runner.old) (R.faults runner.old)) (telling (R.runs runner.new) (R.faults runner.new)) }
        ensures kept { IfOk result (λ answer. IsKeptReady (K.images keeper.new) route.now.image self.new.client) }
        ensures records { IfOk result (λ answer. KeepsLogged route.now.image self.old.client self.new.client
            (K.images keeper.old) (K.images keeper.new)) }
        ensures later { R.faults runner.old ≤ R.faults runner.new }
        ensures keeper { CountsFault LineStop.Keeper (K.faults keeper.old) (K.faults keeper.new) result }
        ensures asked { IsAskedAtMostOnce (R.calls runner.old) (R.calls runner.new) }
    {
        match capture(alloc, words, &self.folder) {
            Ok(command) => self.run_command(command, route, keeper, runner),
            Err(refusal) => capture_answer(refusal),
        }
    }

    /// Runs a command, keeps the client where the run is logged, and answers how it ended.
    fn run_command<K: Keeper, R: Runner>(
        &mut self,
        command: Command,
        route: &Route,
        keeper: &mut K,
        runner: &mut R,
    ) -> Result<LineAnswer, LineStop>
        requires command { IsCommand command }
        requires kept { IsKeptReady (K.images keeper.old) route.now.image self.old.client }
        ensures runs { RunsMade route.now command (state_of self.old) result (state_of self.new) (K.images keeper.old) (K.images keeper.new)
            (telling (R.runs runner.old) (R.faults runner.old)) (telling (R.runs runner.new) (R.faults runner.new)) }
        ensures kept { IfOk result (λ answer. IsKeptReady (K.images keeper.new) route.now.image self.new.client) }
        ensures records { IfOk result (λ answer. KeepsLogged route.now.image self.old.client self.new.client
            (K.images keeper.old) (K.images keeper.new)) }
        ensures later { R.faults runner.old ≤ R.faults runner.new }
        ensures keeper { CountsFault LineStop.Keeper (K.faults keeper.old) (K.faults keeper.new) result }
        ensures asked { IsAskedAtMostOnce (R.calls runner.old) (R.calls runner.new) }
    {
        let end = self.client.run_command(command, route.work.bytes(), runner);
        if !has_logged(&end) {
            return run_answer(end);
        }
        if let Err(refused) = self.client.keep(route.image.bytes(), keeper) {
            drop(end);
            return Err(LineStop::from(refused));
        }
        run_answer(end)
    }
}

/// Whether a run that ends so is an entry of the log now.
fn has_logged(end: &RunEnd) -> bool
    ensures { result ≡ has_logged end.now }
{
    matches!(end, RunEnd::Logged { .. })
}

/// How words that make no command are answered.
fn capture_answer(refusal: CaptureError) -> Result<LineAnswer, LineStop>
    ensures { result ≡ or_memory (capture_answer refusal) }
{
    match refusal {
        CaptureError::Memory => Err(LineStop::Memory),
        refusal => Ok(LineAnswer::Refused(Fault::Capture(refusal))),
    }
}

/// How a command without a job is answered.
fn job_answer(refusal: JobError) -> Result<LineAnswer, LineStop>
    ensures { result ≡ or_memory (job_answer refusal) }
{
    match refusal {
        JobError::Memory => Err(LineStop::Memory),
        refusal => Ok(LineAnswer::Refused(Fault::Job(refusal))),
    }
}

/// How a run is answered.
fn run_answer(end: RunEnd) -> Result<LineAnswer, LineStop>
    ensures { result ≡ or_memory (run_answer end) }
{
    match end {
        RunEnd::Logged { seq, status } => Ok(LineAnswer::Ran { seq, status }),
        RunEnd::Nothing { status } => Ok(LineAnswer::Nothing { status }),
        RunEnd::NoJob(refusal) => job_answer(refusal),
        RunEnd::NotRun => Ok(LineAnswer::NotRun),
        RunEnd::OddTree(i) => Ok(LineAnswer::OddTree(i)),
        RunEnd::Clash(path) => Ok(LineAnswer::Clash(path)),
        RunEnd::Refused(refusal) => local_refusal(refusal),
        RunEnd::Memory => Err(LineStop::Memory),
    }
}
