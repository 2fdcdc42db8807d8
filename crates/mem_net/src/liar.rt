// A link that gives replies of its own, whatever it is asked.
ghost use Rattle.std.specs.Prelude.{◌≡◌, ◌↔◌, IsTrue, IfOk};
ghost use Rattle.wire_frames.specs.declared.message.Message.{Message};
ghost use Rattle.wire_frames.specs.Frame.{Spells};
ghost use Rattle.world_rules.specs.Asking.{IsReplyTo};

use std::alloc::{AllocError, Global};
use std::collections::VecDeque;
use std::marker::Model;
use wire_frames::{FrameError, Message, echoes, read};
use world_rules::{Link, LinkError, Peer};

/// A link that gives replies of its own, whatever it is asked. It tells no world. Contracts see the replies that it has yet to
/// give, and the troubles.
#[derive(Drop)]
pub struct LiarLink {
    alloc: Global,
    replies: VecDeque<Vec<u8>>,
    troubles: u64,
}

impl Model for LiarLink {
    ghost use Rattle.mem_net.specs.Lying.{Liar};

    ghost Value = { Liar };

    ghost view = { λ liar. record { replies = liar.replies.items; troubles = liar.troubles } };
}

impl LiarLink {
    ghost use Rattle.std.specs.Prelude.{◌≤◌, ◌∷◌, [], length, IfSome, IfNone};
    ghost use Rattle.outside.specs.Outside.{Rose, raised};

    /// A link that gives these replies, in their order: each is the frame of one message, or other bytes. It takes no memory.
    pub fn new(alloc: Global, replies: Vec<Vec<u8>>) -> LiarLink
        ensures { result ≡ record { replies = replies.items; troubles = 0 } }
    {
        LiarLink {
            alloc,
            replies: VecDeque::from_vec(replies),
            troubles: 0,
        }
    }

    /// How many replies it has yet to give.
    pub fn replies_left(&self) -> usize
        ensures { result ≡ length self.now.replies }
    {
        self.replies.len()
    }

    /// How many asks failed. The count stands still at the end of its type.
    pub fn troubles(&self) -> u64
        ensures { result ≡ self.now.troubles }
    {
        self.troubles
    }

    /// Takes the next of its replies; `None` where none is left.
    fn take_reply(&mut self) -> Option<Vec<u8>>
        ensures some { IfSome result (λ bytes. self.old.replies ≡ bytes ∷ self.new.replies) }
        ensures none { IfNone result ((self.old.replies ≡ []) × (self.new.replies ≡ [])) }
        ensures rest { self.new ≡ record self.old { replies = self.new.replies } }
    {
        self.replies.pop_front()
    }

    /// A trouble is counted.
    fn fail(&mut self) -> LinkError
        ensures error { result ≡ LinkError.Failed }
        ensures counted { self.new ≡ record self.old { troubles = raised 1 self.old.troubles } }
        ensures later { self.old.troubles ≤ self.new.troubles }
        ensures rose { Rose self.old.troubles self.new.troubles }
    {
        self.troubles = self.troubles.saturating_add(1);
        LinkError::Failed
    }
}

impl Link for LiarLink {
    ghost use Rattle.std.specs.Prelude.{None, drop};
    ghost use Rattle.outside.specs.Outside.{Told, Rose, HasCause, CountsFault};
    ghost use Rattle.world_rules.specs.Asking.{IsRequest, AsksOnce, IsDirect};
    ghost use Rattle.mem_net.specs.Lying.{LiesTo, GivesReplies, gives_none, gives_then};

    ghost tells = { λ liar. record { world = None; troubles = liar.troubles } };

    ghost keeps = { λ old new. GivesReplies old.replies new.replies };

    ghost keeps_none = { λ liar. gives_none liar.replies };

    ghost keeps_then = { λ a b c. gives_then a.replies b.replies c.replies };

    /// Takes the next of its replies, and gives it where it is one to the request.
    ///
    /// # Errors
    ///
    /// `Failed` where it is none, or none is left: each raises the troubles. `Memory` where that could not be seen.
    fn ask(&mut self, _to: Peer, _address: &[u8], frame: &[u8]) -> Result<Vec<u8>, LinkError>
        requires { (request : Message) × Spells request frame.now × IsRequest _to request }
        ensures reply { (request : Message) → Spells request frame.now
            → IfOk result (λ bytes. IsReplyTo request bytes.items) }
        ensures world { (request : Message) → Spells request frame.now
            → Told None None (λ old new. AsksOnce _to _address.now request old new result) }
        ensures direct { (request : Message) → Spells request frame.now → _to ≡ Peer.Server
            → (Rose self.old.troubles self.new.troubles → ⊥)
            → Told None None (λ old new. IsDirect _to _address.now request old new result) }
        ensures cause { HasCause LinkError.Failed self.old.troubles self.new.troubles result }
        ensures kept { GivesReplies self.old.replies self.new.replies }

        // What it answers, and what is left.
        ensures lies { (request : Message) → Spells request frame.now → LiesTo request self.old.replies result }
        ensures taken { self.new.replies ≡ drop 1 self.old.replies }
        ensures troubles { CountsFault LinkError.Failed self.old.troubles self.new.troubles result }
    {
        let Some(bytes) = self.take_reply() else {
            return Err(self.fail());
        };
        match is_reply(self.alloc, frame, &bytes) {
            Ok(true) => Ok(bytes),
            Ok(false) => Err(self.fail()),
            Err(_refused) => Err(LinkError::Memory),
        }
    }
}

/// Whether the bytes spell a reply to the request that this frame spells. Fails where memory runs out.
fn is_reply(alloc: Global, frame: &[u8], bytes: &[u8]) -> Result<bool, AllocError>
    requires { (request : Message) × Spells request frame.now }
    ensures { (request : Message) → Spells request frame.now
        → IfOk result (λ is. IsTrue is ↔ IsReplyTo request bytes.now) }
{
    match read(alloc, frame) {
        Ok(request) => {
            let is = answers(alloc, &request, bytes);
            drop(request);
            is
        }
        Err(_refused) => Err(AllocError),
    }
}

/// Whether the bytes spell a reply to the request. Fails where memory runs out.
fn answers(alloc: Global, request: &Message, bytes: &[u8]) -> Result<bool, AllocError>
    ensures { IfOk result (λ is. IsTrue is ↔ IsReplyTo request.now bytes.now) }
{
    match read(alloc, bytes) {
        Ok(reply) => {
            let is = echoes(request, &reply);
            drop(reply);
            Ok(is)
        }
        Err(FrameError::Memory) => Err(AllocError),
        Err(_refusal) => Ok(false),
    }
}
