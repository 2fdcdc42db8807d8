// What holds of folders that are changed here and in a log: functions that do nothing, whose contracts are laws.
ghost use Rattle.folder_sides.specs.Laws.{ConflictsAreTold, SidesAreATree, LaidIsTheTree, NothingIsLost, NothingIsTakenBack};
ghost use Rattle.folder_sides.specs.Laws.{StepsLead, LaysGoOn, TakesAreOfWhatWasLaid, TakenIsTheFolder, TakesSpareOthers};
ghost use Rattle.folder_sides.specs.Laws.{OwnIsTaken, LayBehindTakeIsIdle, TakeBehindLayIsIdle};

/// States that a laying leaves the rows of a tree: what the log has, and what is the user's own; and that it loses nothing that was changed
/// here, and takes nothing back that others changed.
pub fn laying_merges_what_was_changed()
    ensures told { ConflictsAreTold }
    ensures tree { SidesAreATree }
    ensures laid { LaidIsTheTree }
    ensures kept { NothingIsLost }
    ensures spared { NothingIsTakenBack }
{}

/// States that the steps of a laying lead to what is to be laid, and that one that was stopped comes to the same once it goes on.
pub fn laying_goes_on()
    ensures leads { StepsLead }
    ensures goes_on { LaysGoOn }
{}

/// States that a taking logs what stands here where nothing is left out, and leaves all else as it is in the log.
pub fn taking_logs_the_folder()
    ensures laid { TakesAreOfWhatWasLaid }
    ensures folder { TakenIsTheFolder }
    ensures spared { TakesSpareOthers }
{}

/// States that a take behind a lay logs just what is the user's own, and that a lay behind a take has nothing to do.
pub fn one_behind_the_other_is_idle()
    ensures own { OwnIsTaken }
    ensures lay { LayBehindTakeIsIdle }
    ensures take { TakeBehindLayIsIdle }
{}
