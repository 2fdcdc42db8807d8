// What a server makes of stores: functions that do nothing, whose contracts are laws.
ghost use Rattle.server_core.specs.Laws.{RepeatsChangeNothing, GapsChangeNothing, KnownEntriesArePassed, StaleEntriesEndStores};
ghost use Rattle.server_core.specs.Laws.{FullEntriesEndStores, UnfitEntriesEndStores, OtherEntriesAreTaken};
ghost use Rattle.server_core.specs.Laws.{PullsTellTheRows, OthersAreMalformed, StoresAreTakenInOrder, VersionsCountTouches};
ghost use Rattle.server_core.specs.Laws.{TakenEntriesTellTheState, FramesActAsTheirMessages, FramesAreAnswered, OtherBytesAreMalformed};
ghost use Rattle.server_core.specs.Laws.{TakenFramesChangeTheState, EntriesTellWhatChanges};
ghost use Rattle.server_core.specs.Keeping.{OneStateIsKept, RecordsLeadOn, TornRecordsAreDropped, WholeIsKept};

/// States the answer to a message and what is held then, case by case.
pub fn messages_are_answered()
    ensures repeated { RepeatsChangeNothing }
    ensures early { GapsChangeNothing }
    ensures known { KnownEntriesArePassed }
    ensures stale { StaleEntriesEndStores }
    ensures full { FullEntriesEndStores }
    ensures unfit { UnfitEntriesEndStores }
    ensures taken { OtherEntriesAreTaken }
    ensures pulled { PullsTellTheRows }
    ensures others { OthersAreMalformed }
{}

/// States what becomes of messages that come in any order and any number of times: the entries of
/// each client are taken in the order of their numbers, each once, and a path's version counts how
/// often their effects touch it. What is served follows from the taken entries. Frames do what their
/// messages do.
pub fn stores_are_taken_once()
    ensures order { StoresAreTakenInOrder }
    ensures versions { VersionsCountTouches }
    ensures replayed { TakenEntriesTellTheState }
    ensures frames { FramesActAsTheirMessages }
{}

/// States how frames are answered, those that spell a message and those that do not, and what is taken of them.
pub fn frames_are_answered()
    ensures spelled { FramesAreAnswered }
    ensures others { OtherBytesAreMalformed }
    ensures taken { TakenFramesChangeTheState }
    ensures entry { EntriesTellWhatChanges }
{}

/// States that what is kept is kept for one served state.
pub fn one_state_is_kept()
    ensures { OneStateIsKept }
{}

/// States that a record behind what is kept whole leads to the next state, and that a torn one changes nothing.
pub fn records_lead_on()
    ensures whole { WholeIsKept }
    ensures records { RecordsLeadOn }
    ensures torn { TornRecordsAreDropped }
{}
