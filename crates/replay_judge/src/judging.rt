//! The judgement of an outcome.

ghost use Rattle.std.specs.Prelude.{◌≡◌, IfOk};
ghost use Rattle.std.specs.List.{AllByRecursion};
ghost use Rattle.file_paths.specs.Path.{IsPath};
ghost use Rattle.cmd_capture.specs.Rows.{AreJobRows};
ghost use Rattle.mod_log.specs.Sketched.{sketch_paths, sketches_touch};
ghost use Rattle.replay_judge.specs.Inside.{IsComparison};
ghost use Rattle.replay_judge.specs.Judgement as rules;
ghost use Rattle.replay_judge.specs.Judgement.{IsJudgement, replay_changes};

use crate::agreement::compare;
use crate::verdict::Verdict;
use cmd_capture::{Job, JobRows, Outcome};
use mod_log::{SketchEffect, SketchEntry};
use std::alloc::{AllocError, Global};
use temp_names::{rename, renaming};
use work_area::{RowsFault, changes, rows_of};

/// States that the paths of a sketched effect are paths.
fn has_paths(effect: &SketchEffect)
    ensures { AllByRecursion IsPath (sketch_paths effect.now) }
{
    match effect {
        SketchEffect::Make(p)
        | SketchEffect::Put(p, _)
        | SketchEffect::Remove(p)
        | SketchEffect::Mode(p, _) => {
            p.names();
        }
        SketchEffect::Move(p, q) => {
            p.names();
            q.names();
        }
    }
}

/// States that the paths of sketched effects are paths.
fn have_paths(effects: &[SketchEffect])
    ensures { AllByRecursion IsPath (sketches_touch effects.now) }
{
    for effect in effects {
        has_paths(effect);
    }
}

/// The replay's rows under the client's names.
fn under_client_names(
    alloc: Global,
    sketched: &SketchEntry,
    job: &Job,
    rows: JobRows,
) -> Result<JobRows, AllocError>
    requires { AreJobRows rows }
    ensures names { IfOk result (λ renamed. renamed ≡ rules.under_client_names sketched.now job.now rows) }
    ensures legal { IfOk result AreJobRows }
{
    have_paths(sketched.effects.as_slice());
    let renaming = renaming(alloc, sketched, job, &rows)?;
    let renamed = rename(alloc, rows, &renaming)?;
    Ok(renamed)
}

/// Compares what the rows changed with the entry's effects.
fn judge_rows(
    alloc: Global,
    sketched: &SketchEntry,
    job: &Job,
    rows: JobRows,
) -> Result<Verdict, AllocError>
    requires job { AreJobRows job.now.rows }
    requires rows { AreJobRows rows }
    ensures { IfOk result (IsComparison sketched.now.effects (replay_changes sketched.now job.now rows)) }
{
    let renamed = under_client_names(alloc, sketched, job, rows)?;
    let found = changes(alloc, job.rows(), &renamed)?;
    compare(alloc, sketched.effects.as_slice(), found.as_slice())
}

/// Judges the outcome of a replay of the job by the entry: its status first, then its rows, and then what it changed,
/// place by place. It changes nothing.
///
/// # Errors
///
/// `AllocError` where memory runs out.
pub fn judge(
    alloc: Global,
    sketched: &SketchEntry,
    job: &Job,
    outcome: &Outcome,
) -> Result<Verdict, AllocError>
    requires { AreJobRows job.now.rows }
    ensures { IfOk result (IsJudgement sketched.now job.now outcome.now) }
{
    if outcome.status != sketched.origin.status {
        return Ok(Verdict::Status {
            logged: sketched.origin.status,
            replayed: outcome.status,
        });
    }
    match rows_of(alloc, &outcome.rows) {
        Ok(rows) => judge_rows(alloc, sketched, job, rows),
        Err(RowsFault::OddTree(i)) => Ok(Verdict::OddTree(i)),
        Err(RowsFault::Memory) => Err(AllocError),
    }
}
