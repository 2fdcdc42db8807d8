// What is answered to bytes that are refused.
ghost use Rattle.std.specs.Prelude.{◌≡◌, ◌≢◌};
ghost use Rattle.wire_frames.specs.Frame.{IsValid};
ghost use Rattle.wire_frames.specs.Malformed.{refusal_code, refusal_offset};

use crate::message::{FrameError, Message};

/// What is answered to bytes that are refused, but for want of memory, which no message tells.
pub fn malformed(refusal: &FrameError) -> Message
    requires { refusal.now ≢ FrameError.Memory }
    ensures reply { result ≡ Message.Malformed (refusal_code refusal.now) (refusal_offset refusal.now) }
    ensures valid { IsValid result }
{
    let (code, offset) = match refusal {
        FrameError::BadLength => (1, 0),
        FrameError::BadVersion => (2, 0),
        FrameError::BadKind => (3, 0),
        FrameError::BadClient => (4, 0),
        FrameError::BadField(offset) => (5, *offset),
        FrameError::Trailing(offset) => (6, *offset),
        FrameError::Memory => unreachable!(),
    };
    Message::Malformed { code, offset }
}

/// What is answered to a message that is not for the node that it came to.
pub fn not_for_this_node() -> Message
    ensures reply { result ≡ Message.Malformed 7 0 }
    ensures valid { IsValid result }
{
    Message::Malformed { code: 7, offset: 0 }
}
