//! What holds of jobs and of change lists: functions that do nothing, whose contracts are laws.

ghost use Rattle.work_area.specs.Laws.{JobsHaveJobRows, JobsHoldTheTree, ChangesLead, ChangesLeaveTheRest, NothingChanges};
ghost use Rattle.work_area.specs.Laws.{ChangesAreInOrder, NoClashSparesTheRest};

/// States that the rows of a job are what the tree has at the job's paths.
pub fn jobs_hold_the_tree()
    ensures rows { JobsHaveJobRows }
    ensures nodes { JobsHoldTheTree }
{}

/// States that a change list makes a volume that holds the rows before to one that holds those after, and touches
/// nothing else.
pub fn change_lists_lead_to_what_is_left()
    ensures leads { ChangesLead }
    ensures leaves { ChangesLeaveTheRest }
    ensures nothing { NothingChanges }
{}

/// States that a change list first removes, a folder after what is in it, and then makes, a folder before what is in
/// it; and that each of its effects changes something.
pub fn change_lists_are_in_order()
    ensures { ChangesAreInOrder }
{}

/// States that a change list that does not clash leaves what stands beside the job as it is.
pub fn no_clash_spares_the_rest()
    ensures { NoClashSparesTheRest }
{}
