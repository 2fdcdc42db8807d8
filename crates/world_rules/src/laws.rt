// What holds of every run of a client in its world, as contracts of calls that do nothing.
ghost use Rattle.std.specs.Prelude.{◌≡◌};
ghost use Rattle.world_rules.specs.declared.link.TheConstants.{MAX_ASKS};
ghost use Rattle.world_rules.specs.Settling.{max_asks};
ghost use Rattle.world_rules.specs.Laws.{RunsStayInStep, RelaysKeepInStep, RestartsStayInStep};
ghost use Rattle.world_rules.specs.Laws.{OperationsNeedASurrogate, ClientsWithoutOperationsNeverCollide};
ghost use Rattle.world_rules.specs.Laws.{NewClientsAreInStep, AsksArePossible, PendingStoresAreValid};
ghost use Rattle.world_rules.specs.Laws.{PendingFrontsMayBeSent, SendingsAreValid};
ghost use Rattle.world_rules.specs.Laws.{PendingOperationsAreValid, RunsNeedNoSurrogate, RunsJoin, RestartsEndRuns};
ghost use Rattle.world_rules.specs.Laws.{SilentClientsRun, EntriesAreTakenOnce, LaterEntriesArePending};
ghost use Rattle.world_rules.specs.Laws.{LoneClientsEntriesAreTaken, SparedPathsAreTheClients, SparedPathsAreKept};
ghost use Rattle.world_rules.specs.Laws.{LoneClientsAreServedTheirTree, LoneClientsTreeIsKept};
ghost use Rattle.world_rules.specs.Laws.{LoneClientsAreNotRefused, ServedIsReplayed, RunsServeWhatIsTaken};
ghost use Rattle.world_rules.specs.Laws.{RunsAnswersStand, RunsSendWhatIsAsked, RunsTellWhatIsTaken};
ghost use Rattle.world_rules.specs.Laws.{RunsTellWhatIsAsked, AskedRequestsWereSent, FreeAsksAreNoSends, PacketsStay};
ghost use Rattle.world_rules.specs.Laws.{AcceptedEntriesWereTaken, DoneEntriesWereTaken, NoGapComes};
ghost use Rattle.world_rules.specs.Laws.{StaleNamesAPathAhead, RefusalsShowAPathAhead, PullsFindTheirNumber};
ghost use Rattle.world_rules.specs.Laws.{FreshPullsAreNotOlder};

/// The limit of the code is that of the definitions.
pub fn limits_agree()
    ensures { MAX_ASKS ≡ max_asks }
{}

/// Every run from a log in step ends in step, with what is kept of the log, and so does a new beginning with that, and what a
/// surrogate sends. A client without a surrogate sends no operation. A new client begins in step, asking is a run. The first
/// pending entries can be sent as one store, each pending entry as a store of its own, and as an operation where a command made it.
pub fn runs_stay_in_step()
    ensures runs { RunsStayInStep }
    ensures relays { RelaysKeepInStep }
    ensures operations { OperationsNeedASurrogate }
    ensures apart { ClientsWithoutOperationsNeverCollide }
    ensures restarts { RestartsStayInStep }
    ensures beginning { NewClientsAreInStep }
    ensures asking { AsksArePossible }
    ensures fronts { PendingFrontsMayBeSent }
    ensures valid { SendingsAreValid }
    ensures stores { PendingStoresAreValid }
    ensures shipping { PendingOperationsAreValid }
{}

/// Runs one after the other are a run, also where the client begins anew with what is kept, where others went on without it in
/// between, and where it has a surrogate in one of them alone.
pub fn runs_go_on()
    ensures joined { RunsJoin }
    ensures restarted { RestartsEndRuns }
    ensures alone { SilentClientsRun }
    ensures surrogate { RunsNeedNoSurrogate }
{}

/// The server takes the client's entries in order, each once, and those that are not acknowledged are
/// pending.
pub fn entries_are_taken_once()
    ensures order { EntriesAreTakenOnce }
    ensures pending { LaterEntriesArePending }
    ensures alone { LoneClientsEntriesAreTaken }
{}

/// Where no other client writes, the server has what the client's tree had, and what the kept tree has, and it refuses
/// nothing.
pub fn unshared_paths_are_the_clients()
    ensures spared { SparedPathsAreTheClients }
    ensures spared_kept { SparedPathsAreKept }
    ensures alone { LoneClientsAreServedTheirTree }
    ensures alone_kept { LoneClientsTreeIsKept }
    ensures unrefused { LoneClientsAreNotRefused }
{}

/// A world tells what was taken, asked and sent in a run, and what is served follows from it. What was asked was sent, and what was
/// answered stands.
pub fn worlds_tell_what_happened()
    ensures served { ServedIsReplayed }
    ensures served_after { RunsServeWhatIsTaken }
    ensures answered { RunsAnswersStand }
    ensures sends { RunsSendWhatIsAsked }
    ensures taken { RunsTellWhatIsTaken }
    ensures asked { RunsTellWhatIsAsked }
    ensures requests { AskedRequestsWereSent }
    ensures free { FreeAsksAreNoSends }
    ensures sent { PacketsStay }
{}

/// What a reply tells a client in step is so: what was accepted was taken, what was refused met a newer
/// version, and a pull finds the client's own number and, where it is fresh, nothing older.
pub fn replies_are_true()
    ensures accepted { AcceptedEntriesWereTaken }
    ensures done { DoneEntriesWereTaken }
    ensures gap { NoGapComes }
    ensures stale { StaleNamesAPathAhead }
    ensures refused { RefusalsShowAPathAhead }
    ensures number { PullsFindTheirNumber }
    ensures fresh { FreshPullsAreNotOlder }
{}
