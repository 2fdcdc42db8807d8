//! What holds of sealed frames: functions that do nothing, whose contracts are laws.

ghost use Rattle.sealed_frames.specs.Laws.{LimitsAgree, SealedAsksAreOpened, SealedAnswersAreOpened, BytesAreOneFrame};
ghost use Rattle.sealed_frames.specs.Laws.{SealsAreOfOneFrame, TextsAreApart, OpenedFramesWereMade};

/// States that the limits of the code are those of the definitions.
pub fn limits_agree()
    ensures { LimitsAgree }
{}

/// States that what `seal` makes of a frame by the key of its client is that frame, sealed by that key, so that `open_sealed` opens it,
/// and that what it makes of an answer, whatever client this names, is one that `open_answer` opens.
pub fn seals_are_opened()
    ensures asks { SealedAsksAreOpened }
    ensures answers { SealedAnswersAreOpened }
{}

/// States that bytes are one frame with its seal, by one key where this is the client's, so that nothing else is opened.
pub fn one_frame_a_seal()
    ensures keys { BytesAreOneFrame }
    ensures frames { SealsAreOfOneFrame }
{}

/// States that tags are made of texts that no other way and no other frame has.
pub fn frames_have_one_text()
    ensures { TextsAreApart }
{}

/// States that, where nobody makes a seal who has not the key, a frame that is opened was made by who has its client's key, for this
/// very way.
pub fn opened_frames_were_made()
    ensures { OpenedFramesWereMade }
{}
