//! What holds of renamings: functions that do nothing, whose contracts are laws.

ghost use Rattle.temp_names.specs.Laws.{RenamingsAreOneToOne, GroupsKeepTheirNames, OnlyNewFilesAreRenamed, EqualPathsStay};
ghost use Rattle.temp_names.specs.Laws.{RenamingsMoveContents, RenamedRowsAreLegal};

/// States that no path is renamed twice, and that no two become one.
pub fn renamings_are_one_to_one()
    ensures { RenamingsAreOneToOne }
{}

/// States that a path stays in its folder, and its name keeps the first template that fits it.
pub fn groups_keep_their_names()
    ensures { GroupsKeepTheirNames }
{}

/// States that only new files of the replay are renamed, and only to those of the client.
pub fn only_new_files_are_renamed()
    ensures { OnlyNewFilesAreRenamed }
{}

/// States that a path that both have is neither given away nor taken.
pub fn equal_paths_stay()
    ensures { EqualPathsStay }
{}

/// States that each content stands under its new path alone, and that all else is as before.
pub fn renamings_move_contents()
    ensures { RenamingsMoveContents }
{}

/// States that the renamed rows of a job are rows of one.
pub fn renamed_rows_are_legal()
    ensures { RenamedRowsAreLegal }
{}
