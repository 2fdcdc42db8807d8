// What holds of trees and effects: functions that do nothing, whose contracts are laws.
ghost use Rattle.tree_laws.specs.Laws.{EffectsCountTouches, EffectsLeaveTheRest, MakingGivesAFolder, PuttingGivesAFile};
ghost use Rattle.tree_laws.specs.Laws.{RemovingLeavesNothing, MovingCarriesTheNode, TreesAreWhatTheyHold, ApplyingKeepsTrees};
ghost use Rattle.tree_laws.specs.Laws.{UndoingRestores, FoldersAloneHaveChildren, TheRootHasNoNode, ListsThatApplyChange};
ghost use Rattle.tree_laws.specs.Laws.{TheFirstRefusalStops, OnlyTheFirstRefusalStops, DistinctPathsDiffer, DistinctPathsAreTheSame};
ghost use Rattle.tree_laws.specs.Laws.{DistinctPathsKeepTheirOrder, BehindIsAnOrder, EffectsLeadForward, EffectsKeepBehind};
ghost use Rattle.tree_laws.specs.Laws.{SomePathIsAheadOrNone, NoneAheadIsTheSame, RefusedWhereAhead, ModesSetTheBit, PuttingKeepsTheBit};

/// States what an applied effect does to each path, touched or not.
pub fn effects_change_what_they_touch()
    ensures touched { EffectsCountTouches }
    ensures others { EffectsLeaveTheRest }
    ensures made { MakingGivesAFolder }
    ensures put { PuttingGivesAFile }
    ensures removed { RemovingLeavesNothing }
    ensures moved { MovingCarriesTheNode }
    ensures mode { ModesSetTheBit }
    ensures bit { PuttingKeepsTheBit }
{}

/// States that versions and nodes are all that a tree is.
pub fn trees_are_what_they_hold()
    ensures { TreesAreWhatTheyHold }
{}

/// States that an applied effect leaves a tree, and that its undo puts the old one back.
pub fn applying_keeps_trees()
    ensures keeps { ApplyingKeepsTrees }
    ensures undoes { UndoingRestores }
{}

/// States that what is no folder has no children, and that no node stands at the root.
pub fn folders_alone_have_children()
    ensures children { FoldersAloneHaveChildren }
    ensures root { TheRootHasNoNode }
{}

/// States that each effect of a list meets what those before it have left, up to the first that is refused.
pub fn lists_are_applied_in_order()
    ensures applied { ListsThatApplyChange }
    ensures refused { TheFirstRefusalStops }
    ensures only { OnlyTheFirstRefusalStops }
{}

/// States that distinct paths are those of a list, each once, at its first place.
pub fn distinct_paths_keep_their_order()
    ensures differ { DistinctPathsDiffer }
    ensures same { DistinctPathsAreTheSame }
    ensures order { DistinctPathsKeepTheirOrder }
{}

/// States how trees compare by the versions of their paths, and what effects leave of that.
pub fn trees_behind()
    ensures order { BehindIsAnOrder }
    ensures forward { EffectsLeadForward }
    ensures keeps { EffectsKeepBehind }
    ensures ahead { SomePathIsAheadOrNone }
    ensures same { NoneAheadIsTheSame }
    ensures refused { RefusedWhereAhead }
{}
