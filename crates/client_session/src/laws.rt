// Laws of sessions.
ghost use Rattle.client_session.specs.Laws.{SessionsChangeSo, AsksAndRunsMakeSessions, UnrunLinesAreCounted};
ghost use Rattle.client_session.specs.Laws.{LinesRunOnce, AsksAreOfTheRoute, BrokenSessionsAskTheRoute, UnansweredLinesCostAsks};
ghost use Rattle.client_session.specs.Laws.{AsksAreOfTurns, BrokenSessionsAskInTurns, SessionsAreLicensed, BrokenSessionsAreLicensed};
ghost use Rattle.client_session.specs.Contents.{DistinctContentsDoNotCollide, BrokenSessionsDoNotCollide};

/// Law: what a session changes of the log are entries that it logs, acknowledgements of one or more of the first pending ones and
/// pulls, one after the other, and its log is what they lead to.
pub fn sessions_change_so()
    ensures { SessionsChangeSo }
{}

/// Law: a session is what its lines, its asks and its runs make it, and which of its lines were not run; since each settling ends
/// with its first reply or with eight failures, and what becomes of a run is told by the run.
pub fn asks_and_runs_make_sessions()
    ensures { AsksAndRunsMakeSessions }
{}

/// Law: the lines that were answered `not run` are just the runs that failed, and each other run is of one line `run`.
pub fn unrun_lines_are_counted()
    ensures unrun { UnrunLinesAreCounted }
    ensures once { LinesRunOnce }
{}

/// Law: each sync and each pull that is answered `unanswered` cost eight asks that failed.
pub fn unanswered_lines_cost_asks()
    ensures { UnansweredLinesCostAsks }
{}

/// Law: where no two contents, one of a session and one of the packets, have one print, no content that the client ships as an
/// operation is taken for another. For an entry of a command writes what its run left.
pub fn distinct_contents_do_not_collide()
    ensures whole { DistinctContentsDoNotCollide }
    ensures broken { BrokenSessionsDoNotCollide }
{}

/// Law: each ask of a session goes to a peer of its route, at that peer's address: to the server, or to the surrogate where there is
/// one.
pub fn asks_are_of_the_route()
    ensures whole { AsksAreOfTheRoute }
    ensures broken { BrokenSessionsAskTheRoute }
{}

/// Law: each ask of a session is of the turn of one of its lines, or of the last line, where that was broken off, in a state that
/// the session reached. Where it began with a log, that turn asks for a store that carries a light entry only once the entry's
/// operation was not done on this line, and for nothing but the operation of an entry that is done so.
pub fn asks_are_of_turns()
    ensures whole { AsksAreOfTurns }
    ensures broken { BrokenSessionsAskInTurns }
{}

/// Law: a session that began with a log asks for a store that carries a light entry, one that was pending then or that it logged,
/// only once the entry's operation was declined in it, or eight asks of it failed, and the entry is the store's first one.
pub fn sessions_are_licensed()
    ensures whole { SessionsAreLicensed }
    ensures broken { BrokenSessionsAreLicensed }
{}
