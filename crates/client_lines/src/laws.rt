//! What holds of whole runs of a client, as laws.

ghost use Rattle.client_lines.specs.Composing.{RunsCompose, StoresNeverCollide, MovesLeave};
ghost use Rattle.client_lines.specs.FirstRuns.{FirstRunsLeave, FirstRunsGoOn, FirstStoresNeverCollide};
ghost use Rattle.client_lines.specs.Contents.{DistinctContentsNeverCollide, DistinctContentsLeave};
ghost use Rattle.client_lines.specs.Completing.{LastSyncsComplete};
ghost use Rattle.client_lines.specs.Laws.{QuitIsTheLast, AllCountWithoutQuit};

/// Law: the lines of a session end with the first that quits, and all of them count where none does.
pub fn sessions_end_with_the_first_quit()
    ensures last { QuitIsTheLast }
    ensures all { AllCountWithoutQuit }
{}

/// Law: two runs, the second begun on what the first left kept, leave together what one run leaves, whatever stopped them, where no
/// content that was sent is taken for another; without a surrogate none is. And so do any number of runs.
pub fn runs_compose()
    ensures two { RunsCompose }
    ensures stores { StoresNeverCollide }
    ensures many { MovesLeave }
{}

/// Law: any number of runs of a client that was new, each begun on what the last one kept, leave together what one run leaves, whatever
/// stopped them, where no content that was sent is taken for another; without a surrogate none is. And a next run may begin there.
pub fn first_runs_leave()
    ensures leave { FirstRunsLeave }
    ensures go_on { FirstRunsGoOn }
    ensures stores { FirstStoresNeverCollide }
{}

/// Law: where no content that a run's operations may stand for has the print of another one among the packets, none that was sent is
/// taken for another. So a run that began in step leaves what it is to leave.
pub fn distinct_contents_leave()
    ensures apart { DistinctContentsNeverCollide }
    ensures leaves { DistinctContentsLeave }
{}

/// Law: where the client's tree after its last taken entry was served at first, nobody else wrote since, no content that was sent is
/// taken for another, and the last eight asks did not fail, nothing is pending behind a sync that is the last line.
pub fn last_syncs_complete()
    ensures { LastSyncsComplete }
{}
