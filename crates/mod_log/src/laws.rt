// What holds of logs and of sketched effects: functions that do nothing, whose contracts are laws.
ghost use Rattle.std.specs.Prelude.{◌≡◌};
ghost use Rattle.file_paths.specs.Limits.{max_file};
ghost use Rattle.rs_parity.specs.Limits.{max_len};
ghost use Rattle.mod_log.specs.Sketched.{SketchesAreFilled, FillingsAreEqual, FillingsTouchAlike, OneSketchList, OneSketchOf};
ghost use Rattle.mod_log.specs.Spelling.{FillingsFit, SketchesOfEffectsFit};
ghost use Rattle.mod_log.specs.Laws.{AppendingAddsAnEntry, EntriesThatFitAreAppended, AcknowledgingKeepsTheTree};
ghost use Rattle.mod_log.specs.Laws.{PullingReplacesTheTree, TreesAreLogs, LogsHoldTrees, PendingEntriesFit};

/// States what logging, acknowledging and pulling leave of a log and its tree, and that each pending entry has a
/// spelling.
pub fn logs_keep_their_trees()
    ensures appending { AppendingAddsAnEntry }
    ensures fitting { EntriesThatFitAreAppended }
    ensures acknowledging { AcknowledgingKeepsTheTree }
    ensures pulling { PullingReplacesTheTree }
    ensures new { TreesAreLogs }
    ensures trees { LogsHoldTrees }
    ensures entries { PendingEntriesFit }
{}

/// States that a sketch stands for as long a content as a file may have.
pub fn sketches_stand_for_each_file()
    ensures { max_len ≡ max_file }
{}

/// States what stands for effects that are sent without their contents, and which effects may stand for it.
pub fn sketches_stand_for_contents()
    ensures filled { SketchesAreFilled }
    ensures equal { FillingsAreEqual }
    ensures alike { FillingsTouchAlike }
    ensures fillings_fit { FillingsFit }
    ensures sketches_fit { SketchesOfEffectsFit }
    ensures one { OneSketchList }
    ensures one_of_entry { OneSketchOf }
{}
