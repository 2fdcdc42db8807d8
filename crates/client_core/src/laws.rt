// What the ends of syncs and pulls tell of the world, and what a sync may ask, as contracts of calls that do nothing.
ghost use Rattle.client_core.specs.Laws.{NoSyncIsBehind, SyncEndsAreTrue, PullsMeetTheirLast, CalmSyncsAreComplete};
ghost use Rattle.client_core.specs.Laws.{OvertakenEntriesAreNeverTaken};
ghost use Rattle.client_core.specs.Overtaken.{OvertakenClientsStaySo, RefusedClientsAreOvertaken};
ghost use Rattle.client_core.specs.Licence.{SyncsAreLicensed, DoneEntriesCostOperations, UnansweredStoresFailed};

/// What a sync or a pull ends with is so in each world in which its answers stand, also when more came after it: a server is
/// never behind, a refusal shows what others wrote, and where nobody else wrote all is acknowledged.
pub fn ends_are_true()
    ensures behind { NoSyncIsBehind }
    ensures refused { SyncEndsAreTrue }
    ensures pulled { PullsMeetTheirLast }
    ensures complete { CalmSyncsAreComplete }
{}

/// In each sync a store that carries a light entry is asked only once its operation was declined, or eight asks of it failed, in
/// this sync, and the entry is its first one. An entry that was answered by Done has cost asks of its operation alone, which is
/// shorter than a store of it alone. And a sync that ends unanswered has asked the store of its window eight times at its end.
pub fn syncs_are_licensed()
    ensures licensed { SyncsAreLicensed }
    ensures done { DoneEntriesCostOperations }
    ensures unanswered { UnansweredStoresFailed }
{}

/// Law: an entry that others overtook is never taken. Where the first pending entry was not taken, and rests at some path on a
/// version below the one that is served, it stays so whatever comes: it is never acknowledged, and no reply tells it to be taken.
pub fn overtaken_entries_are_never_taken()
    ensures { OvertakenEntriesAreNeverTaken }
{}

/// Law: a client that some path is ahead of stays so until a pull brings it a version. And where an entry that it had not
/// acknowledged is refused, some path is ahead of it from then on until then, whatever is taken later.
pub fn overtaken_clients_stay_so()
    ensures stay { OvertakenClientsStaySo }
    ensures refused { RefusedClientsAreOvertaken }
{}
