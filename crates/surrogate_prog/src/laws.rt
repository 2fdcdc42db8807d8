// What holds of every run: functions that do nothing, whose contracts are laws.
ghost use Rattle.surrogate_prog.specs.Laws.{SurrogateFallsAreBounded, SurrogateFramesAreCounted, SilentServersFailedEight};
ghost use Rattle.surrogate_prog.specs.Laws.{FailedRunsAreTold, ServingsKeepTheirRoute, BrokenServingsKeepTheirRoute, RunsMoveAlone, TurnsMoveAlone};

/// Law: how many connections a run uses up, and how the frames taken and answered, the faults of the port and the last line
/// follow from one another.
pub fn connections_are_counted()
    ensures falls { SurrogateFallsAreBounded }
    ensures frames { SurrogateFramesAreCounted }
{}

/// Law: for each operation that is declined since no server answered, eight asks failed.
pub fn silence_has_its_cause()
    ensures { SilentServersFailedEight }
{}

/// Law: as many operations are declined as not run as runs failed.
pub fn failed_runs_are_told()
    ensures { FailedRunsAreTold }
{}

/// Law: each run is in the work folder, and each ask goes to the server at its address, also of a frame whose serving was broken
/// off for want of memory.
pub fn servings_keep_their_route()
    ensures whole { ServingsKeepTheirRoute }
    ensures broken { BrokenServingsKeepTheirRoute }
{}

/// Law: where each operation of the world's client that was taken had been sent, the world moves as a surrogate may move it, and
/// its client sends nothing. Of a client that sends between the frames: it sends no others than it sent itself.
pub fn worlds_move_alone()
    ensures run { RunsMoveAlone }
    ensures turns { TurnsMoveAlone }
{}
