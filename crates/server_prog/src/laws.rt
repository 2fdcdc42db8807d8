// What holds of every run: functions that do nothing, whose contracts are laws.
ghost use Rattle.server_prog.specs.Laws.{FallsAreBounded, FramesAreCounted, KeptImagesAreServed, LaterChangesAreRecords};

/// Law: how many connections a run uses up, and how the frames taken and answered, the faults of the port and the last line
/// follow from one another.
pub fn connections_are_counted()
    ensures falls { FallsAreBounded }
    ensures frames { FramesAreCounted }
{}

/// Law: what is kept at the end of a run is the state after the frames that were taken; where the keeper failed or memory ran
/// out, perhaps without the change of the frame at hand. Where serving came to its end, each change behind the first is kept by
/// its record alone, as long as the records are few.
pub fn kept_images_are_served()
    ensures kept { KeptImagesAreServed }
    ensures records { LaterChangesAreRecords }
{}
