// A message that was sent, with its frame.
ghost use Rattle.std.specs.Prelude.{◌≡◌, IfOk};
ghost use Rattle.wire_frames.specs.declared.message.Message.{Message};
ghost use Rattle.wire_frames.specs.Frame.{IsValid, Spells, frame};

use std::alloc::{AllocError, Global};
use std::marker::Model;
use vol_tree::TryCopy;
use wire_frames::{Message, write};

/// A message that was sent. Contracts see the message.
#[derive(Drop)]
pub struct Packet {
    message: Message,
    frame: Vec<u8>,
}

impl Model for Packet {
    ghost Value = { Message };

    ghost view = { λ packet. packet.message };

    ghost invariant = { λ packet. Spells packet.message packet.frame.items };
}

impl Packet {
    /// The packet of a message.
    pub(crate) fn of(alloc: Global, message: Message) -> Result<Packet, AllocError>
        requires { IsValid message }
        ensures { IfOk result (λ packet. packet ≡ message) }
    {
        match write(alloc, &message) {
            Ok(frame) => Ok(Packet { message, frame }),
            Err(refused) => {
                drop(message);
                Err(refused)
            }
        }
    }

    /// The message.
    pub(crate) fn message(&self) -> &Message
        ensures message { result.now ≡ self.now }
        ensures valid { IsValid self.now }
    {
        let _frame = &self.frame;
        &self.message
    }

    /// The frame of the message.
    pub(crate) fn frame(&self) -> &[u8]
        ensures frame { result.now ≡ frame self.now }
        ensures valid { IsValid self.now }
    {
        &self.frame
    }

    /// The message and its frame.
    pub(crate) fn open(self) -> (Message, Vec<u8>)
        ensures message { result.0 ≡ self }
        ensures frame { Spells self result.1.items }
    {
        (self.message, self.frame)
    }
}

impl TryCopy for Packet {
    fn copy(&self) -> Result<Packet, AllocError> {
        let frame = Vec::from_slice(*self.frame.allocator(), &self.frame)?;
        let message = self.message.copy()?;
        Ok(Packet { message, frame })
    }
}
