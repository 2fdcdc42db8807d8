// What is there of a frame, as bytes: the answer to a part.
ghost use Rattle.std.specs.Prelude.{◌≡◌, ◌↔◌, IsTrue, IfSome, IfNone};
ghost use Rattle.frame_parts.specs.declared.have.Have.{Have};
ghost use Rattle.frame_parts.specs.Spelling.{have_spelled, HasHave, IsHave};

use crate::part::{MARK, number_at};

/// What an answer to a part has behind the mark.
const HAVE: u8 = 2;

/// How many bytes an answer to a part has.
pub const HAVE_BYTES: usize = 11;

/// How many bytes of a frame of this client are there, from its first on.
#[derive(Clone, Copy)]
pub struct Have {
    pub client: u8,
    pub count: u32,
}

/// The frame of an answer to a part.
pub fn put_have(have: Have) -> [u8; HAVE_BYTES]
    ensures spelled { result ≡ have_spelled have }
    ensures is { IsHave result have }
{
    let count = have.count.to_be_bytes();
    [
        0,
        0,
        0,
        7,
        MARK,
        HAVE,
        have.client,
        count[0],
        count[1],
        count[2],
        count[3],
    ]
}

/// The answer to a part that the bytes are the frame of; `None` where they are that of none.
pub fn read_have(bytes: &[u8]) -> Option<Have>
    ensures read { IfSome result (IsHave bytes.now) }
    ensures none { IfNone result ((have : Have) → IsHave bytes.now have → ⊥) }
{
    if !has_have(bytes) {
        return None;
    }
    Some(Have {
        client: bytes[6],
        count: number_at(bytes, 7),
    })
}

/// Whether the bytes have the form of an answer to a part.
fn has_have(bytes: &[u8]) -> bool
    ensures { IsTrue result ↔ HasHave bytes.now }
{
    bytes.len() == HAVE_BYTES
        && bytes[0] == 0
        && bytes[1] == 0
        && bytes[2] == 0
        && bytes[3] == 7
        && bytes[4] == MARK
        && bytes[5] == HAVE
}
