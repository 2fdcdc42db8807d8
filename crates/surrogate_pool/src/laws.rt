// What a pool passes on, as the contract of a call that does nothing.
ghost use Rattle.surrogate_pool.specs.Laws.{RefusalsAreOfAll, FailuresAreOfAll, DoneIsPassedOn};

/// That an operation is declined is passed on only where each surrogate declined it or failed, and a pool fails only where each failed.
/// Where one has done the operation, that is passed on.
pub fn pools_ask_each_surrogate()
    ensures refusals { RefusalsAreOfAll }
    ensures failures { FailuresAreOfAll }
    ensures done { DoneIsPassedOn }
{}
