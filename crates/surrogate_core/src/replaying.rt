// The job of an operation, and what its outcome comes to on the copy.
ghost use Rattle.std.specs.Prelude.{◌≡◌, ℕ, [], ◌∷◌, find, if◌then◌else◌, Ok, Err, IfOk, IfErr, OnErr};
ghost use Rattle.std.specs.Str.{bytes_eq};
ghost use Rattle.byte_fields.specs.Codec.{IsBytes};
ghost use Rattle.tree_values.specs.Spelling.{EffectsFit};
ghost use Rattle.cmd_capture.specs.Spelling.{IsCommand};
ghost use Rattle.cmd_capture.specs.Rows.{AreJobRows};
ghost use Rattle.work_area.specs.Changes.{clashes, first_path as path_of};
ghost use Rattle.wire_frames.specs.Cause.{CauseFits};
ghost use Rattle.wire_frames.specs.declared.cause.Cause.TheVariants.{OtherJob, Clash};
ghost use Rattle.wire_frames.specs.Frame.{IsValid};
ghost use Rattle.wire_frames.specs.Parts.{part_of};
ghost use Rattle.wire_frames.specs.declared.message.Message.TheVariants.{Operate};
ghost use Rattle.surrogate_core.specs.Handling.{job_for, unless_clash};
ghost use Rattle.surrogate_core.specs.Serving.{failed_cause};
ghost use Rattle.surrogate_core.specs.Inside.{IsHeld, IsJudgedReplay};

use cmd_capture::{Job, Outcome};
use mod_log::SketchEntry;
use replay_judge::{Verdict, judge};
use std::alloc::{AllocError, Global};
use vol_tree::{ApplyAllError, Bases, Effect, Effects, Tree, TryCopy, Undo, apply_all};
use wire_frames::{Cause, Part, Parts};
use work_area::{JobError, clashing, first_path, job_of};

/// Agreed effects that the copy has taken, and how they are undone.
#[derive(Drop)]
pub(crate) struct Held {
    /// The one entry of the store.
    pub(crate) entries: Parts,
    pub(crate) undos: Vec<Undo>,
}

/// The operation's job on the copy, or why there is none.
pub(crate) fn prepare(
    alloc: Global,
    copy: &Tree,
    sketched: &SketchEntry,
) -> Result<Result<Job, Cause>, AllocError>
    requires { IsCommand sketched.now.origin.command }
    ensures job { IfOk result (λ job. job ≡ job_for copy.now sketched.now) }
    ensures rows { IfOk result (λ job. IfOk job (λ job. AreJobRows job.rows)) }
    ensures fits { IfOk result (λ job. IfErr job CauseFits) }
    ensures none_failed { IfOk result (λ job. IfErr job (λ cause. failed_cause cause ≡ 0)) }
{
    let job = match job_of(alloc, copy, &sketched.origin.command) {
        Ok(job) => job,
        Err(JobError::NoFolder(_)) => return Ok(Err(Cause::NoJob { code: 1, index: 0 })),
        Err(JobError::NoInput(index)) => return Ok(Err(Cause::NoJob { code: 2, index })),
        Err(JobError::Memory) => return Err(AllocError),
    };
    let found = job.print();
    Ok(if_printed(job, sketched.origin.job_print, found))
}

/// The job, where the print that was found is the logged one.
fn if_printed(job: Job, logged: [u8; 32], found: [u8; 32]) -> Result<Job, Cause>
    ensures job { result ≡ (if bytes_eq found logged then Ok job else Err (OtherJob logged found)) }
    ensures fits { IfErr result CauseFits }
    ensures none_failed { IfErr result (λ cause. failed_cause cause ≡ 0) }
{
    if found == logged {
        return Ok(job);
    }
    drop(job);
    are_bytes(&logged);
    are_bytes(&found);
    Err(Cause::OtherJob { logged, found })
}

/// States what the type of a slice says of its numbers. It takes no time.
fn are_bytes(bytes: &[u8])
    ensures { IsBytes bytes.now }
{}

/// Judges the outcome, and puts what it agrees on into the copy; or says why not.
pub(crate) fn replay(
    alloc: Global,
    copy: &mut Tree,
    sketched: &SketchEntry,
    job: &Job,
    outcome: &Outcome,
) -> Result<Result<Held, Cause>, AllocError>
    requires rows { AreJobRows job.now.rows }
    requires valid { (client : ℕ) × IsValid (Operate client sketched.now) }
    ensures ok { IfOk result (IsJudgedReplay copy.old copy.new sketched.now job.now outcome.now) }
    ensures err { OnErr result (copy.new ≡ copy.old) }
    ensures fits { IfOk result (λ held. IfErr held CauseFits) }
    ensures none_failed { IfOk result (λ held. IfErr held (λ cause. failed_cause cause ≡ 0)) }
{
    match judge(alloc, sketched, job, outcome) {
        Ok(Verdict::Agree(effects)) => take(alloc, copy, job, effects, &sketched.base),
        Ok(Verdict::Status { logged, replayed }) => Ok(Err(Cause::Status { logged, replayed })),
        Ok(Verdict::OddTree(index)) => Ok(Err(Cause::OddTree(index))),
        Ok(Verdict::Mismatch(path)) => {
            path.names();
            Ok(Err(Cause::Mismatch(path)))
        }
        Err(refused) => Err(refused),
    }
}

/// Applies the effects to the copy, unless one of them meets what the job did not have. The store's list is made before, since behind
/// the applying nothing may fail.
fn take(
    alloc: Global,
    copy: &mut Tree,
    job: &Job,
    effects: Effects,
    base: &Bases,
) -> Result<Result<Held, Cause>, AllocError>
    requires rows { AreJobRows job.now.rows }
    requires effects { EffectsFit effects }
    ensures ok { IfOk result (IsHeld copy.old copy.new base.now
        (unless_clash copy.old effects (find (clashes copy.old job.now.rows) effects))) }
    ensures err { OnErr result (copy.new ≡ copy.old) }
    ensures fits { IfOk result (λ held. IfErr held CauseFits) }
    ensures none_failed { IfOk result (λ held. IfErr held (λ cause. failed_cause cause ≡ 0)) }
{
    copy.count();
    if let Some(effect) = clashing(copy, job, &effects) {
        let clash = clash_at(effect);
        drop(effects);
        return match clash {
            Ok(cause) => Ok(Err(cause)),
            Err(refused) => Err(refused),
        };
    }
    let entries = one_entry(alloc, effects, base)?;
    match apply_all(copy, &entries.as_slice()[0].effects) {
        Ok(undos) => Ok(Ok(Held { entries, undos })),
        Err(ApplyAllError::At(index, fault)) => {
            drop(entries);
            Ok(Err(Cause::NotFit { index, fault }))
        }
        Err(ApplyAllError::Memory) => {
            drop(entries);
            Err(AllocError)
        }
    }
}

/// A store's list of one entry: these effects on this base.
fn one_entry(alloc: Global, effects: Effects, base: &Bases) -> Result<Parts, AllocError>
    ensures { IfOk result (λ entries. entries ≡ part_of effects base.now ∷ []) }
{
    let base = base.copy()?;
    let mut entries = Parts::new(alloc);
    entries.push(Part { effects, base })?;
    Ok(entries)
}

/// The cause that names the effect.
fn clash_at(effect: &Effect) -> Result<Cause, AllocError>
    ensures cause { IfOk result (λ cause. cause ≡ Clash (path_of effect.now)) }
    ensures fits { IfOk result CauseFits }
    ensures none_failed { IfOk result (λ cause. failed_cause cause ≡ 0) }
{
    let path = first_path(effect).copy()?;
    path.names();
    Ok(Cause::Clash(path))
}
