//! What holds of parts and of what is kept of them: functions that do nothing, whose contracts are laws.

ghost use Rattle.frame_parts.specs.Laws.{LimitsAgree, BytesAreOnePart, BytesAreOneAnswer, FrontsAreKept, LaterAreFronts, OthersAreFronts};
ghost use Rattle.frame_parts.specs.Laws.{OneIsKept, LaterAreOne, OthersAreOne};
ghost use Rattle.frame_parts.specs.Laws.{FrameIsHandedOn, LastPartHandsOn, OthersStay, RoomIsKept, LaterHaveRoom, OthersHaveRoom};

/// States that the limits of the code are those of the definitions.
pub fn limits_agree()
    ensures { LimitsAgree }
{}

/// States that bytes are the frame of one part with one piece at most, and of one answer.
pub fn bytes_are_one_part()
    ensures parts { BytesAreOnePart }
    ensures answers { BytesAreOneAnswer }
{}

/// States that what is there of a frame is a front of it, perhaps of no bytes, whatever parts come, so long as those of its client are
/// pieces of it, where `drop_older` lets some go, and where memory is wanted.
pub fn fronts_are_kept()
    ensures puts { FrontsAreKept }
    ensures later { LaterAreFronts }
    ensures lost { OthersAreFronts }
{}

/// States that then the parts of the frame hand on this frame and no other, and that the part does which ends where the frame does and
/// begins behind what is there.
pub fn whole_frames_are_handed_on()
    ensures frame { FrameIsHandedOn }
    ensures last { LastPartHandsOn }
{}

/// States that a part leaves the front of another client as it is, where there is room for both.
pub fn others_stay()
    ensures { OthersStay }
{}

/// States that there is room for the fronts that are kept, whatever part comes, where `drop_older` lets some go, and where memory is
/// wanted.
pub fn room_is_kept()
    ensures puts { RoomIsKept }
    ensures later { LaterHaveRoom }
    ensures lost { OthersHaveRoom }
{}

/// States that a client has one front at most, whatever part comes, where `drop_older` lets some go, and where memory is
/// wanted.
pub fn a_client_has_one_front()
    ensures puts { OneIsKept }
    ensures later { LaterAreOne }
    ensures lost { OthersAreOne }
{}
