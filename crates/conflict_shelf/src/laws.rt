// What holds of shelves: functions that do nothing, whose contracts are laws.
ghost use Rattle.conflict_shelf.specs.Laws.{PutsAreSetAside, ShelvesHoldThemInOrder, FilesDiffer, ShelvesFit, ShelvesStand};

/// States that a shelf holds just the contents that pending entries put, each once and in order, in a file of its own, in entries of as
/// many effects and bytes as an entry may have; and that there is one where each file has a path.
pub fn shelves_hold_what_was_put()
    ensures puts { PutsAreSetAside }
    ensures order { ShelvesHoldThemInOrder }
    ensures files { FilesDiffer }
    ensures fits { ShelvesFit }
    ensures stand { ShelvesStand }
{}
