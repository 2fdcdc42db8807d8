//! A runner of given outcomes.

ghost use Rattle.std.specs.Prelude.{◌≡◌, ◌≤◌, ◌↔◌, ℕ, List, [], ◌∷◌, ◌++◌, Some};
ghost use Rattle.std.specs.Prelude.{None, map, reverse, length, IfOk, IfErr, OnOk, OnErr, IsErrOf};
ghost use Rattle.outside.specs.Outside.{Told, CountsFault, raised};
ghost use Rattle.outside.specs.Memory.{one_more};
ghost use Rattle.cmd_capture.specs.Runs.{AddsRun, IsAskedOnce, InScript, raw_row, unchanged, outcome_of, after_run};

use crate::job::{Job, JobRow, Outcome, RawRow, RawRows};
use crate::runner::{Run, RunError, Runner};
use std::alloc::{AllocError, Global};
use std::marker::Model;
use vol_tree::{Content, TryCopy};

/// What the next run of a script does.
#[derive(Debug, Drop)]
pub enum ScriptAnswer {
    Give(Outcome),
    Fail,
}

/// Gives the outcomes of a script, and behind them each job's own rows with status 0. Contracts see the answers left,
/// the runs given, the faults and the calls.
#[derive(Drop)]
pub struct ScriptRunner {
    alloc: Global,
    // the next one last
    answers: Vec<ScriptAnswer>,
    runs: Vec<Run>,
    faults: u64,
    calls: u64,
}

impl Model for ScriptRunner {
    ghost Value = { InScript };

    ghost view = { λ s. record { answers = reverse s.answers.items; runs = s.runs.items; faults = s.faults; calls = s.calls } };
}

impl ScriptRunner {
    /// A runner of these answers, in order. It takes no memory.
    pub fn new(alloc: Global, answers: Vec<ScriptAnswer>) -> ScriptRunner
        ensures { result ≡ record { answers = answers.items; runs = []; faults = 0; calls = 0 } }
    {
        let mut answers = answers;
        answers.reverse();
        ScriptRunner {
            alloc,
            answers,
            runs: Vec::new(alloc),
            faults: 0,
            calls: 0,
        }
    }

    /// How many of the answers were not given yet.
    pub fn answers_left(&self) -> usize
        ensures { result ≡ length self.now.answers }
    {
        self.answers.len()
    }

    /// The outcome of the next run; `None` where it fails.
    fn next_outcome(&self, job: &Job) -> Result<Option<Outcome>, AllocError>
        ensures { IfOk result (λ outcome. outcome ≡ outcome_of self.now.answers job.now) }
    {
        match self.answers.last() {
            Some(ScriptAnswer::Give(outcome)) => Ok(Some(outcome.copy()?)),
            Some(ScriptAnswer::Fail) => Ok(None),
            None => Ok(Some(unchanged(self.alloc, job)?)),
        }
    }

    /// Keeps the run that gave the outcome.
    fn tell(&mut self, work: &[u8], job: &Job, outcome: &Outcome) -> Result<(), RunError>
        ensures ok { OnOk result (self.new ≡ record self.old {
          runs = self.old.runs ++ record { work = work.now; job = job.now; outcome = outcome.now } ∷ [];
        }) }
        ensures err { OnErr result (self.new ≡ self.old) }
        ensures cause { IfErr result (λ e. e ≡ RunError.Memory) }
    {
        let run = run_of(self.alloc, work, job, outcome)?;
        self.runs.push(run)?;
        Ok(())
    }
}

impl Runner for ScriptRunner {
    ghost runs = { λ s. Some s.runs };

    ghost faults = { λ s. s.faults };

    ghost calls = { λ s. s.calls };

    /// Takes the next answer, and keeps the run; where memory runs out only the call is counted.
    fn run(&mut self, work: &[u8], job: &Job) -> Result<Outcome, RunError>
        ensures runs { Told (Some self.old.runs) (Some self.new.runs) (AddsRun work.now job.now result) }
        ensures cause { CountsFault RunError.Failed self.old.faults self.new.faults result }
        ensures called { IsAskedOnce self.old.calls self.new.calls }

        ensures gives { IfOk result (λ outcome. outcome_of self.old.answers job.now ≡ Some outcome) }
        ensures fails { IsErrOf result RunError.Failed → outcome_of self.old.answers job.now ≡ None }
        ensures after { self.new ≡ after_run self.old work.now job.now result }
    {
        count(&mut self.calls);
        let Some(outcome) = self.next_outcome(job)? else {
            drop(self.answers.pop());
            count(&mut self.faults);
            return Err(RunError::Failed);
        };
        if let Err(error) = self.tell(work, job, &outcome) {
            drop(outcome);
            return Err(error);
        }
        drop(self.answers.pop());
        Ok(outcome)
    }
}

/// Counts one more. The count stands still at the end of its type.
fn count(many: &mut u64)
    ensures counted { many.new ≡ one_more many.old }
    ensures raised { many.new ≡ raised 1 many.old }
    ensures later { many.old ≤ many.new }
{
    *many = many.saturating_add(1);
}

/// The run of the job that gave the outcome.
fn run_of(alloc: Global, work: &[u8], job: &Job, outcome: &Outcome) -> Result<Run, AllocError>
    ensures { IfOk result (λ run. run ≡ record { work = work.now; job = job.now; outcome = outcome.now }) }
{
    let work = Content::of(alloc, work)?;
    let job = job.copy()?;
    match outcome.copy() {
        Ok(outcome) => Ok(Run { work, job, outcome }),
        Err(error) => {
            drop(job);
            Err(error)
        }
    }
}

/// Status 0 and the job's own rows.
fn unchanged(alloc: Global, job: &Job) -> Result<Outcome, AllocError>
    ensures { IfOk result (λ outcome. outcome ≡ unchanged job.now) }
{
    let mut rows = RawRows::new(alloc);
    for row in job.rows().as_slice() {
        rows.push(raw(row)?)?;
    }
    Ok(Outcome { status: 0, rows })
}

/// The row with the text of its path.
fn raw(row: &JobRow) -> Result<RawRow, AllocError>
    ensures { IfOk result (λ raw. raw ≡ raw_row row.now) }
{
    Ok(RawRow {
        path: row.path.text()?,
        node: row.node.copy()?,
    })
}
