//! What holds of every handling: functions that do nothing, whose contracts are laws.

ghost use Rattle.surrogate_core.specs.Laws.{HandlingsAskTheServer, HandlingsRunOnce};
ghost use Rattle.surrogate_core.specs.Laws.{BrokenHandlingsAskTheServer, BrokenHandlingsRunOnce};
ghost use Rattle.surrogate_core.specs.Laws.{HandlingsKeepTheCopy, BrokenHandlingsKeepTheCopy, DeclinesHaveCauses, SilencesAreOfOneRequest};
ghost use Rattle.surrogate_core.specs.Laws.{UnpreparedTriesAreDeclined, UnrunTriesAreDeclined, JudgedTriesGoOn, AcceptedHandlingsAreDone};
ghost use Rattle.surrogate_core.specs.Laws.{RefusedHandlingsAreDeclined};
ghost use Rattle.surrogate_core.specs.Free.{HandlingsMoveAlone, RepliesAreFree};

/// States that a handling asks the server alone, for what its operation may ask, and runs at most the operation's job,
/// also where it is broken off for want of memory.
pub fn handlings_are_of_their_operation()
    ensures asks { HandlingsAskTheServer }
    ensures runs { HandlingsRunOnce }
    ensures broken_asks { BrokenHandlingsAskTheServer }
    ensures broken_runs { BrokenHandlingsRunOnce }
{}

/// States that a decline, and want of memory, leave the copy from before or the snapshot that was pulled, and that an
/// operation that is done leaves it with the effects that the server accepted.
pub fn handlings_keep_the_copy()
    ensures answered { HandlingsKeepTheCopy }
    ensures broken { BrokenHandlingsKeepTheCopy }
{}

/// States what each cause of a decline rests on, and that the server is wanted only where one request failed eight times.
pub fn declines_have_causes()
    ensures causes { DeclinesHaveCauses }
    ensures silences { SilencesAreOfOneRequest }
{}

/// States what each try comes to, unless memory is wanted: a snapshot without the job is declined for that cause, what the
/// runner failed to run is declined as not run, and each judgement of a run has its one consequence.
pub fn tries_have_one_end()
    ensures unprepared { UnpreparedTriesAreDeclined }
    ensures unrun { UnrunTriesAreDeclined }
    ensures judged { JudgedTriesGoOn }
{}

/// States that an operation is done where the server accepts its store.
pub fn accepted_stores_are_done()
    ensures { AcceptedHandlingsAreDone }
{}

/// States that an operation is declined where the server refuses its store, by that refusal.
pub fn refused_stores_are_declined()
    ensures { RefusedHandlingsAreDeclined }
{}

/// States that to the world about a client, whose operation it has seen, a handling is no sending of the client, and that
/// its answer is one that a surrogate may send.
pub fn handlings_are_no_sendings()
    ensures moves { HandlingsMoveAlone }
    ensures replies { RepliesAreFree }
{}
