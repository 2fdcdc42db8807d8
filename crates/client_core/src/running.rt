// Running a command, and logging what the run changed.
ghost use Rattle.std.specs.Prelude.{◌≡◌, ◌≢◌, ◌⊎◌, ℕ, List, Option, [], false, Ok, IfOk, IfErr, OnOk};
ghost use Rattle.outside.specs.Outside.{RisesWhere};
ghost use Rattle.outside.specs.Keeper.{Images};
ghost use Rattle.cmd_capture.specs.declared.runner.Run.{Run};
ghost use Rattle.cmd_capture.specs.Rows.{AreLegal, AreJobRows, read_rows};
ghost use Rattle.cmd_capture.specs.Spelling.{IsCommand};
ghost use Rattle.work_area.specs.Changes as rules;
ghost use Rattle.work_area.specs.Jobs as jobs;
ghost use Rattle.work_area.specs.Outcomes.{IsRowsFault};
ghost use Rattle.mod_log.specs.Log.{IsLog, tree_of};
ghost use Rattle.client_core.specs.Running.{RunsCommand, IsLoggable, changes_of, has_logged};
ghost use Rattle.client_core.specs.Inside.{ran, RanEnds, IsToLog, IsUnlogged, unrun_end, jobless_end, odd_end};
ghost use Rattle.cmd_capture.specs.Runs.{telling, IsAskedOnce, IsAskedAtMostOnce};
ghost use Rattle.client_core.specs.Keeping.{IsReady};

use crate::Client;
use cmd_capture::{Command, Job, Outcome, RunError, Runner};
use mod_log::{Log, LogError, Origin};
use std::alloc::Global;
use vol_tree::{Effect, Effects, Path, TryCopy};
use work_area::{JobError, RowsFault, changes, clashing, first_path, job_of, rows_of};

/// How a command ends that was to be run. Each end but `Logged` leaves the log as before.
#[derive(Debug, Drop)]
pub enum RunEnd {
    /// What the run changed is entry `seq` now; the status that the command ended with.
    Logged { seq: u64, status: u8 },
    /// The run changed nothing.
    Nothing { status: u8 },
    /// The client's tree has no job of the command, and nothing was run.
    NoJob(JobError),
    /// The runner failed, and counted it.
    NotRun,
    /// The first row, counted from 0, of those that the run left that may not stand behind the ones before it.
    OddTree(u32),
    /// The path of the first change that clashes with what stands beside the job.
    Clash(Path),
    /// Why the changes are not logged.
    Refused(LogError),
    /// Memory ran out. The job may have been run.
    Memory,
}

impl Client {
    /// Has the runner run a command's job on the client's tree, in a folder of its own in the folder `work`, and logs what the run
    /// changed as one entry that tells the command, the print of the job and the status.
    ///
    /// The runner is asked once, where there is a job, and for just this job; else it is not asked. A call in which memory ran out is not
    /// made again.
    pub fn run_command<R: Runner>(
        &mut self,
        command: Command,
        work: &[u8],
        runner: &mut R,
    ) -> RunEnd
        requires { IsCommand command }
        ensures turn { RunsCommand work.now command self.old.log result self.new.log
            (telling (R.runs runner.old) (R.faults runner.old)) (telling (R.runs runner.new) (R.faults runner.new)) }
        ensures unchanged { has_logged result ≡ false → self.new ≡ self.old }
        ensures number { self.new.number ≡ self.old.number }
        ensures log { IsLog self.new.log }
        ensures journal { self.new.journal ≡ self.old.journal }
        // where the client may go on under a name, it still may
        ensures ready { (images : Option Images) (name : List ℕ) → IsReady images name self.old → IsReady images name self.new }
        // the runner failed once where it ends so, and else never
        ensures faults { RisesWhere (result ≡ RunEnd.NotRun) (R.faults runner.old) (R.faults runner.new) }
        ensures asked { IsAskedAtMostOnce (R.calls runner.old) (R.calls runner.new) }
    {
        let tree = self.log.tree();
        let job = match job_of(tree.allocator(), tree, &command) {
            Ok(job) => job,
            Err(fault) => {
                drop(command);
                return jobless_end(fault);
            }
        };
        let end = run_job(&mut self.log, command, &job, work, runner);
        drop(job);
        end
    }
}

/// How a command ends that has no job.
fn jobless_end(fault: JobError) -> RunEnd
    ensures { result ≡ jobless_end fault }
{
    match fault {
        JobError::Memory => RunEnd::Memory,
        fault => RunEnd::NoJob(fault),
    }
}

/// Has the job of a command run, and logs what the run changed.
fn run_job<R: Runner>(
    log: &mut Log,
    command: Command,
    job: &Job,
    work: &[u8],
    runner: &mut R,
) -> RunEnd
    requires command { IsCommand command }
    requires job { jobs.job_of (tree_of log.old) command ≡ Ok job.now }
    requires rows { AreJobRows job.now.rows }
    ensures turn { RunsCommand work.now command log.old result log.new
        (telling (R.runs runner.old) (R.faults runner.old)) (telling (R.runs runner.new) (R.faults runner.new)) }
    ensures log { IsLog log.new }
    ensures faults { RisesWhere (result ≡ RunEnd.NotRun) (R.faults runner.old) (R.faults runner.new) }
    ensures asked { IsAskedOnce (R.calls runner.old) (R.calls runner.new) }
{
    match runner.run(work, job) {
        Ok(outcome) => {
            let end = log_run(log, command, job, &outcome);
            drop(outcome);
            end
        }
        Err(error) => {
            let _acked = log.acked();
            drop(command);
            unrun_end(error)
        }
    }
}

/// How a command ends for whose job the runner has no outcome.
fn unrun_end(error: RunError) -> RunEnd
    ensures { result ≡ unrun_end error }
{
    match error {
        RunError::Failed => RunEnd::NotRun,
        RunError::Memory => RunEnd::Memory,
    }
}

/// Logs what a run changed.
fn log_run(log: &mut Log, command: Command, job: &Job, outcome: &Outcome) -> RunEnd
    requires command { IsCommand command }
    requires rows { AreJobRows job.now.rows }
    ensures ends { (work : List ℕ) → RanEnds command log.old (ran work job.now outcome.now) result log.new }
    ensures log { IsLog log.new }
{
    match changes_to_log(log, job, outcome) {
        Ok(effects) => log_changes(log, command, job, outcome.status, effects),
        Err(end) => {
            let _acked = log.acked();
            drop(command);
            end
        }
    }
}

/// The changes of a run that are to be logged, or how it ends without them.
fn changes_to_log(log: &Log, job: &Job, outcome: &Outcome) -> Result<Effects, RunEnd>
    requires { AreJobRows job.now.rows }
    ensures { (work : List ℕ) → IsToLog log.now (ran work job.now outcome.now) result }
{
    let tree = log.tree();
    let effects = match changes_left(tree.allocator(), job, outcome) {
        Ok(effects) => effects,
        Err(fault) => return Err(odd_end(fault)),
    };
    match unlogged_end(log, job, outcome.status, &effects) {
        Some(end) => {
            drop(effects);
            Err(end)
        }
        None => Ok(effects),
    }
}

/// What a run changed, where it left legal rows.
fn changes_left(alloc: Global, job: &Job, outcome: &Outcome) -> Result<Effects, RowsFault>
    requires { AreJobRows job.now.rows }
    ensures legal { OnOk result (AreLegal outcome.now.rows) }
    ensures ok { IfOk result (λ effects. effects ≡ rules.changes job.now.rows (read_rows outcome.now.rows)) }
    ensures err { IfErr result (IsRowsFault outcome.now.rows) }
{
    let rows = rows_of(alloc, &outcome.rows)?;
    let effects = changes(alloc, job.rows(), &rows);
    drop(rows);
    Ok(effects?)
}

/// How a run ends that left rows which are not legal.
fn odd_end(fault: RowsFault) -> RunEnd
    ensures { result ≡ odd_end fault }
{
    match fault {
        RowsFault::OddTree(i) => RunEnd::OddTree(i),
        RowsFault::Memory => RunEnd::Memory,
    }
}

/// How a run ends that changed nothing, or of whose changes one clashes.
fn unlogged_end(log: &Log, job: &Job, status: u8, effects: &Effects) -> Option<RunEnd>
    requires { AreJobRows job.now.rows }
    ensures { (run : Run) → run.job ≡ job.now → run.outcome.status ≡ status → changes_of run ≡ effects.now → IsUnlogged log.now run result }
{
    if effects.is_empty() {
        return Some(RunEnd::Nothing { status });
    }
    let effect = clashing(log.tree(), job, effects)?;
    Some(clash_end(effect))
}

/// How a run ends whose first change that clashes is this one.
fn clash_end(effect: &Effect) -> RunEnd
    ensures { (result ≡ RunEnd.Clash (rules.first_path effect.now)) ⊎ (result ≡ RunEnd.Memory) }
{
    match first_path(effect).copy() {
        Ok(path) => RunEnd::Clash(path),
        Err(_refused) => RunEnd::Memory,
    }
}

/// Logs the changes of a run as one entry.
fn log_changes(log: &mut Log, command: Command, job: &Job, status: u8, effects: Effects) -> RunEnd
    requires command { IsCommand command }
    requires some { effects ≢ [] }
    ensures ends { (run : Run) → run.job ≡ job.now → run.outcome.status ≡ status → IsLoggable log.old run → effects ≡ changes_of run
        → RanEnds command log.old run result log.new }
    ensures log { IsLog log.new }
{
    let origin = Origin::new(command, job.print(), status);
    match log.append(Some(origin), effects) {
        Ok(seq) => RunEnd::Logged { seq, status },
        Err(LogError::Memory) => RunEnd::Memory,
        Err(refusal) => RunEnd::Refused(refusal),
    }
}
