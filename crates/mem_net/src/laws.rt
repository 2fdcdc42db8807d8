// How a network in memory begins, and what one that is handed on keeps, as contracts of calls that do nothing.
ghost use Rattle.std.specs.Prelude.{◌≡◌};
ghost use Rattle.mem_net.specs.Handed.{FewAsksFailInARow};
ghost use Rattle.mem_net.specs.Laws.{NewNetworksAreInStep, StopsStay};
ghost use Rattle.mem_net.specs.Limits.{max_job};
ghost use Rattle.mem_net.specs.declared.drill.TheConstants.{MAX_JOB};

/// The limit of the code is that of the definitions.
pub fn limits_agree()
    ensures { MAX_JOB ≡ max_job }
{}

/// A client's new log is in step with a network that was just made, where its server has taken nothing of the client.
pub fn new_networks_are_in_step()
    ensures { NewNetworksAreInStep }
{}

/// Law: of any four asks in a row over a network that is handed on by its rule one did not fail, or was not of the server.
pub fn few_asks_fail_in_a_row()
    ensures { FewAsksFailInARow }
{}

/// Law: an ask that meets a stop fails, unless memory runs out, is noted and counted as a trouble, and leaves all else as it is.
pub fn stops_stay()
    ensures { StopsStay }
{}
