//! What holds of sealed ports: functions that do nothing, whose contracts are laws.

ghost use Rattle.sealed_port.specs.Laws.{HandedOnFramesWereMade};

/// States that each frame that a take hands on is of a client with a key here, and that, where nobody makes a seal who has not the key, it
/// was made by who has that one, for this way.
pub fn handed_on_frames_were_sealed()
    ensures { HandedOnFramesWereMade }
{}
