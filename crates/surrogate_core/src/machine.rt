//! The surrogate's machine: its copy, and what it waits for.

ghost use Rattle.std.specs.Prelude.{◌≡◌, Bool, [], None, false, true, Ok, Err, IfOk, IfErr, IfSome, OnErr};
ghost use Rattle.cmd_capture.specs.Rows.{AreJobRows};
ghost use Rattle.tree_values.specs.Tree.{Volume};
ghost use Rattle.vol_tree.specs.Undos.{undone_all, CanUndoAll};
ghost use Rattle.wire_frames.specs.Cause.{CauseFits};
ghost use Rattle.wire_frames.specs.declared.cause.Cause.TheVariants.{Refused};
ghost use Rattle.wire_frames.specs.Frame.{IsValid};
ghost use Rattle.wire_frames.specs.declared.message.Message.TheVariants.{Store, Operate, Done, Declined};
ghost use Rattle.surrogate_core.specs.declared.step.NextStep.TheVariants as steps;
ghost use Rattle.surrogate_core.specs.declared.machine.Stage.TheVariants as states;
ghost use Rattle.surrogate_core.specs.Handling.{Idle, Fetching, IsAsking, is_fetching, idle, copy_before, job_for};
ghost use Rattle.surrogate_core.specs.Handling.{closed, refusal_kind, Tries, Operates, AfterJob, Expects, HandlesReply};
ghost use Rattle.surrogate_core.specs.Handling.{IsSilenced, IsFitStep};
ghost use Rattle.cmd_capture.specs.Runs.{telling, IsAskedOnce, IsAskedAtMostOnce};
ghost use Rattle.surrogate_core.specs.Serving.{Steps, failed_cause, failed_step};
ghost use Rattle.surrogate_core.specs.Inside.{IsSound, IsConcluded, Starves, phase_of, reaction_of, operation_in, snapshot_rows};

use crate::replaying::{Held, prepare, replay};
use crate::step::NextStep;
use cmd_capture::{Job, RunError, Runner};
use mod_log::SketchEntry;
use std::alloc::{AllocError, Global};
use std::marker::Model;
use std::mem;
use vol_tree::{Rows, Tree, Undo, undo_all};
use wire_frames::{Cause, Message, not_for_this_node};

/// What the surrogate waits for.
#[derive(Drop)]
enum Stage {
    Idle,
    /// For a snapshot, to try this client's operation on it.
    Fetching {
        client: u8,
        sketched: SketchEntry,
    },
    /// For the reply to this client's store of this number, whose effects the copy has.
    Holding {
        client: u8,
        number: u64,
        undos: Vec<Undo>,
    },
}

/// A copy of the server's volume, on which operations are tried. Contracts see the copy, and what the surrogate waits for.
#[derive(Drop)]
pub struct Surrogate {
    alloc: Global,
    copy: Tree,
    state: Stage,
}

impl Model for Surrogate {
    ghost use Rattle.surrogate_core.specs.Handling.{Machine};
    ghost use Rattle.surrogate_core.specs.Inside.{phase_of, IsSound};

    ghost Value = { Machine };

    ghost view = { λ s. record { copy = s.copy; phase = phase_of s.state s.copy } };

    ghost invariant = { λ s. IsSound s.state s.copy };
}

impl Surrogate {
    /// A surrogate that waits for an operation, with a copy without rows. It takes no memory.
    pub fn new(alloc: Global) -> Surrogate
        ensures { result ≡ idle [] }
    {
        Surrogate {
            alloc,
            copy: Tree::new(alloc),
            state: Stage::Idle,
        }
    }

    /// The copy.
    pub fn copy_tree(&self) -> &Tree
        ensures { result.now ≡ self.now.copy }
    {
        &self.copy
    }

    /// The allocator that it takes memory from.
    pub(crate) fn allocator(&self) -> Global {
        self.alloc
    }

    /// Begins to handle an operation, for which the runner is asked once at most, and not where a snapshot is awaited then.
    /// Any other message is malformed.
    pub fn on_operate<R: Runner>(
        &mut self,
        request: Message,
        work: &[u8],
        runner: &mut R,
    ) -> NextStep
        requires idle { self.old.phase ≡ Idle }
        requires valid { IsValid request }
        ensures steps { Steps (Operates self.old.copy work.now request) (record {
          step = result;
          after = self.new;
        })
            (telling (R.runs runner.old) (R.faults runner.old)) (telling (R.runs runner.new) (R.faults runner.new)) }
        ensures sent { IsFitStep result }
        ensures asked { IsAskedAtMostOnce (R.calls runner.old) (R.calls runner.new) }
        ensures unasked { is_fetching self.new.phase ≡ true → R.calls runner.new ≡ R.calls runner.old }
    {
        match operation(request) {
            Some((client, sketched)) => self.try_on(false, client, sketched, work, runner),
            None => NextStep::Answer(not_for_this_node()),
        }
    }

    /// Goes on with the server's reply. The runner is asked once at most, and only where a snapshot was awaited.
    pub fn on_server<R: Runner>(&mut self, reply: Message, work: &[u8], runner: &mut R) -> NextStep
        requires { Expects self.old.phase reply }
        ensures steps { Steps (HandlesReply self.old.phase self.old.copy reply work.now) (record {
          step = result;
          after = self.new;
        })
            (telling (R.runs runner.old) (R.faults runner.old)) (telling (R.runs runner.new) (R.faults runner.new)) }
        ensures sent { IsFitStep result }
        ensures asked { IsAskedAtMostOnce (R.calls runner.old) (R.calls runner.new) }
        ensures unasked { is_fetching self.old.phase ≡ false → R.calls runner.new ≡ R.calls runner.old }
    {
        match mem::replace(&mut self.state, Stage::Idle) {
            Stage::Idle => NextStep::Answer(reply),
            Stage::Fetching { client, sketched } => {
                self.on_snapshot(client, sketched, reply, work, runner)
            }
            Stage::Holding {
                client,
                number,
                undos,
            } => {
                let kind = refusal_kind(&reply);
                drop(reply);
                close(&mut self.copy, client, number, undos, kind)
            }
        }
    }

    /// Gives up, since no reply came. It takes no memory.
    pub fn on_silence(&mut self) -> NextStep
        requires { IsAsking self.old.phase }
        ensures silenced { IsSilenced self.old.phase self.old.copy (record { step = result; after = self.new }) }
        ensures sent { IsFitStep result }
    {
        match mem::replace(&mut self.state, Stage::Idle) {
            Stage::Idle => unreachable!(),
            Stage::Fetching { client, sketched } => {
                let number = sketched.seq;
                drop(sketched);
                declined(client, number, Cause::NoServer)
            }
            Stage::Holding {
                client,
                number,
                undos,
            } => {
                undo_all(&mut self.copy, undos);
                declined(client, number, Cause::NoServer)
            }
        }
    }

    /// Takes back what is open, and waits for an operation again. It takes no memory.
    pub(crate) fn give_up(&mut self)
        ensures { self.new ≡ idle (copy_before self.old) }
    {
        match mem::replace(&mut self.state, Stage::Idle) {
            Stage::Idle => {}
            Stage::Fetching { sketched, .. } => drop(sketched),
            Stage::Holding { undos, .. } => undo_all(&mut self.copy, undos),
        }
    }

    /// Takes the snapshot for the copy, and tries the operation again.
    fn on_snapshot<R: Runner>(
        &mut self,
        client: u8,
        sketched: SketchEntry,
        reply: Message,
        work: &[u8],
        runner: &mut R,
    ) -> NextStep
        requires idle { self.old.phase ≡ Idle }
        requires valid { IsValid (Operate client sketched) }
        requires snapshot { Expects (Fetching client sketched) reply }
        ensures steps { Steps (HandlesReply (Fetching client sketched) self.old.copy reply work.now)
            (record {
              step = result;
              after = self.new;
            }) (telling (R.runs runner.old) (R.faults runner.old))
            (telling (R.runs runner.new) (R.faults runner.new)) }
        ensures sent { IsFitStep result }
        ensures asked { IsAskedAtMostOnce (R.calls runner.old) (R.calls runner.new) }
    {
        let number = sketched.seq;
        let Some(rows) = snapshot_rows(reply) else {
            unreachable!()
        };
        match Tree::from_rows(self.alloc, rows) {
            Ok(copy) => {
                self.copy = copy;
                self.try_on(true, client, sketched, work, runner)
            }
            Err(_refused) => {
                drop(sketched);
                declined(client, number, Cause::NoMemory)
            }
        }
    }

    /// Tries the operation on the copy, which is a snapshot of this handling where one was pulled.
    fn try_on<R: Runner>(
        &mut self,
        pulled: bool,
        client: u8,
        sketched: SketchEntry,
        work: &[u8],
        runner: &mut R,
    ) -> NextStep
        requires idle { self.old.phase ≡ Idle }
        requires valid { IsValid (Operate client sketched) }
        ensures steps { Steps (Tries pulled self.old.copy client sketched work.now) (record {
          step = result;
          after = self.new;
        })
            (telling (R.runs runner.old) (R.faults runner.old)) (telling (R.runs runner.new) (R.faults runner.new)) }
        ensures sent { IsFitStep result }
        ensures asked { IsAskedAtMostOnce (R.calls runner.old) (R.calls runner.new) }
        ensures unasked { is_fetching self.new.phase ≡ true → R.calls runner.new ≡ R.calls runner.old }
    {
        let number = sketched.seq;
        match advance(
            self.alloc,
            pulled,
            &mut self.copy,
            client,
            sketched,
            work,
            runner,
        ) {
            Ok((step, state)) => {
                self.state = state;
                step
            }
            Err(_refused) => declined(client, number, Cause::NoMemory),
        }
    }
}

/// The step that answers that the operation is declined.
#[tactic(auto, using(crate::proofs::Valid::declined_valid))]
fn declined(client: u8, number: u64, cause: Cause) -> NextStep
    requires valid { IsValid (Done client number) }
    requires cause { CauseFits cause }
    ensures step { result ≡ steps.Answer (Declined client number cause) }
    ensures sent { IsFitStep result }
{
    NextStep::Answer(Message::Declined {
        client,
        number,
        cause,
    })
}

/// Tries the operation on the copy, up to the first step. After want of memory the copy is as before.
fn advance<R: Runner>(
    alloc: Global,
    pulled: bool,
    copy: &mut Tree,
    client: u8,
    sketched: SketchEntry,
    work: &[u8],
    runner: &mut R,
) -> Result<(NextStep, Stage), AllocError>
    requires { IsValid (Operate client sketched) }
    ensures ok { IfOk result (λ x. Steps (Tries pulled copy.old client sketched work.now) (reaction_of x.0 x.1 copy.new)
        (telling (R.runs runner.old) (R.faults runner.old)) (telling (R.runs runner.new) (R.faults runner.new))) }
    ensures sound { IfOk result (λ x. IsSound x.1 copy.new) }
    ensures sent { IfOk result (λ x. IsFitStep x.0) }
    ensures err { OnErr result (Starves work.now (job_for copy.old sketched) (telling (R.runs runner.old) (R.faults runner.old))
        (telling (R.runs runner.new) (R.faults runner.new))) }
    ensures unchanged { OnErr result (copy.new ≡ copy.old) }
    ensures asked { IsAskedAtMostOnce (R.calls runner.old) (R.calls runner.new) }
    ensures unasked { IfOk result (λ x. is_fetching (phase_of x.1 copy.new) ≡ true → R.calls runner.new ≡ R.calls runner.old) }
{
    match prepare(alloc, copy, &sketched) {
        Ok(Ok(job)) => perform(alloc, copy, client, sketched, job, work, runner),
        Ok(Err(cause)) => Ok(without_job(pulled, client, sketched, cause)),
        Err(refused) => {
            drop(sketched);
            Err(refused)
        }
    }
}

/// The step where the copy has no such job, for this cause.
#[tactic(auto, using(crate::proofs::Valid::pull_valid, crate::proofs::Valid::done_valid))]
fn without_job(pulled: bool, client: u8, sketched: SketchEntry, cause: Cause) -> (NextStep, Stage)
    requires valid { IsValid (Operate client sketched) }
    requires cause { CauseFits cause }
    requires none_failed { failed_cause cause ≡ 0 }
    ensures came { (copy : Volume) → AfterJob pulled copy client sketched (Err cause) None (reaction_of result.0 result.1 copy) }
    ensures sound { (copy : Volume) → IsSound result.1 copy }
    ensures sent { IsFitStep result.0 }
    ensures none_failed { failed_step result.0 ≡ 0 }
{
    if pulled {
        let number = sketched.seq;
        drop(sketched);
        return (declined(client, number, cause), Stage::Idle);
    }
    drop(cause);
    let number = sketched.seq.saturating_sub(1);
    (
        NextStep::Ask(Message::Pull { client, number }),
        Stage::Fetching { client, sketched },
    )
}

/// Runs the job, and puts what it comes to into the copy.
#[tactic(auto, using(crate::proofs::Valid::done_valid))]
fn perform<R: Runner>(
    alloc: Global,
    copy: &mut Tree,
    client: u8,
    sketched: SketchEntry,
    job: Job,
    work: &[u8],
    runner: &mut R,
) -> Result<(NextStep, Stage), AllocError>
    requires valid { IsValid (Operate client sketched) }
    requires job { job_for copy.old sketched ≡ Ok job }
    requires rows { AreJobRows job.rows }
    ensures ok { IfOk result (λ x. (pulled : Bool) → Steps (Tries pulled copy.old client sketched work.now)
        (reaction_of x.0 x.1 copy.new) (telling (R.runs runner.old) (R.faults runner.old))
        (telling (R.runs runner.new) (R.faults runner.new))) }
    ensures sound { IfOk result (λ x. IsSound x.1 copy.new) }
    ensures sent { IfOk result (λ x. IsFitStep x.0) }
    ensures err { OnErr result (Starves work.now (Ok job) (telling (R.runs runner.old) (R.faults runner.old))
        (telling (R.runs runner.new) (R.faults runner.new))) }
    ensures unchanged { OnErr result (copy.new ≡ copy.old) }
    ensures asked { IsAskedOnce (R.calls runner.old) (R.calls runner.new) }
    ensures ran { IfOk result (λ x. is_fetching (phase_of x.1 copy.new) ≡ false) }
{
    match runner.run(work, &job) {
        Ok(outcome) => {
            let replayed = replay(alloc, copy, &sketched, &job, &outcome);
            drop(outcome);
            drop(job);
            match replayed {
                Ok(held) => Ok(conclude(client, sketched, held)),
                Err(refused) => {
                    drop(sketched);
                    Err(refused)
                }
            }
        }
        Err(error) => {
            let number = sketched.seq;
            drop(job);
            drop(sketched);
            match error {
                RunError::Failed => Ok((declined(client, number, Cause::NotRun), Stage::Idle)),
                RunError::Memory => Err(AllocError),
            }
        }
    }
}

/// The step behind a run: the store of what the copy has taken, or why it has taken nothing.
#[tactic(auto, using(crate::proofs::Valid::done_valid))]
fn conclude(client: u8, sketched: SketchEntry, held: Result<Held, Cause>) -> (NextStep, Stage)
    requires valid { IsValid (Operate client sketched) }
    requires store { IfOk held (λ held. IsValid (Store client sketched.seq held.entries)) }
    requires cause { IfErr held CauseFits }
    requires none_failed { IfErr held (λ cause. failed_cause cause ≡ 0) }
    ensures held { IsConcluded client sketched held result.0 result.1 }
    ensures sent { IsFitStep result.0 }
    ensures none_failed { failed_step result.0 ≡ 0 }
    ensures ran { (copy : Volume) → is_fetching (phase_of result.1 copy) ≡ false }
{
    match held {
        Ok(held) => hold(client, sketched, held),
        Err(cause) => {
            let number = sketched.seq;
            drop(sketched);
            (declined(client, number, cause), Stage::Idle)
        }
    }
}

/// Asks for the store of effects that the copy has taken.
fn hold(client: u8, sketched: SketchEntry, held: Held) -> (NextStep, Stage)
    requires { IsValid (Store client sketched.seq held.entries) }
    ensures step { result.0 ≡ steps.Ask (Store client sketched.seq held.entries) }
    ensures state { result.1 ≡ states.Holding client sketched.seq held.undos }
    ensures sent { IsFitStep result.0 }
{
    let number = sketched.seq;
    drop(sketched);
    let Held { entries, undos } = held;
    (
        NextStep::Ask(Message::Store {
            client,
            number,
            entries,
        }),
        Stage::Holding {
            client,
            number,
            undos,
        },
    )
}

/// Keeps the effects where the server accepted them, and else takes them back. It takes no memory.
fn close(copy: &mut Tree, client: u8, number: u64, undos: Vec<Undo>, kind: Option<u8>) -> NextStep
    requires valid { IsValid (Done client number) }
    requires kind { IfSome kind (λ kind. CauseFits (Refused kind)) }
    requires can_undo { CanUndoAll undos.items copy.old }
    ensures closed { record {
      step = result;
      after = idle copy.new;
    } ≡ closed copy.old client number
        (undone_all undos.items copy.old) kind }
    ensures sent { IsFitStep result }
{
    match kind {
        None => {
            drop(undos);
            NextStep::Answer(Message::Done { client, number })
        }
        Some(kind) => {
            undo_all(copy, undos);
            declined(client, number, Cause::Refused(kind))
        }
    }
}

/// The number of a reply's kind, where it refuses a store.
fn refusal_kind(reply: &Message) -> Option<u8>
    ensures kind { result ≡ refusal_kind reply.now }
    ensures fits { IfSome result (λ kind. CauseFits (Refused kind)) }
{
    match reply {
        Message::Stale { .. } => Some(18),
        Message::Unfit { .. } => Some(19),
        Message::Gap { .. } => Some(20),
        Message::Full { .. } => Some(24),
        Message::Store { .. }
        | Message::Operate { .. }
        | Message::Pull { .. }
        | Message::Accepted { .. }
        | Message::Snapshot { .. }
        | Message::Done { .. }
        | Message::Declined { .. }
        | Message::Malformed { .. } => None,
    }
}

/// The client of an operation, and what it sends in place of an entry.
fn operation(request: Message) -> Option<(u8, SketchEntry)>
    ensures { result ≡ operation_in request }
{
    match request {
        Message::Operate { client, entry } => Some((client, entry)),
        other => {
            drop(other);
            None
        }
    }
}

/// The rows of a snapshot.
fn snapshot_rows(reply: Message) -> Option<Rows>
    ensures { result ≡ snapshot_rows reply }
{
    match reply {
        Message::Snapshot { rows, .. } => Some(rows),
        other => {
            drop(other);
            None
        }
    }
}
