//! What holds at this edge: a function that does nothing, whose contract is a law.

ghost use Rattle.std.specs.Prelude.{◌≡◌, ◌+◌};
ghost use Rattle.sealed_frames.specs.Limits.{seal_bytes, max_sealed, max_frame as longest_sealed};
ghost use Rattle.paced_talks.specs.Frames.{frame_limit};
ghost use Rattle.wire_frames.specs.Limits.{max_frame};

/// States that one limit holds for what is written as a frame, for what is gathered as one, and for one with its seal before it.
pub fn frames_have_one_limit()
    ensures gathered { frame_limit ≡ max_frame }
    ensures longest { longest_sealed ≡ max_frame }
    ensures sealed { seal_bytes + max_sealed ≡ max_frame }
{}
