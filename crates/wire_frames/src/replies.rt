//! Which replies answer a request.

ghost use Rattle.std.specs.Prelude.{◌≡◌, ◌↔◌, IsTrue};
ghost use Rattle.wire_frames.specs.Frame.{Echoes};

use crate::message::Message;

/// Whether the reply answers the request: it is one that may, of the same client and number. It takes no memory.
pub fn echoes(request: &Message, reply: &Message) -> bool
    ensures { IsTrue result ↔ Echoes request.now reply.now }
{
    request.head().is_echoed_by(reply)
}
