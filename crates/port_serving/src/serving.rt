// One connection of a port: its frame, and the answer to it.
ghost use Rattle.std.specs.Prelude.{◌≡◌, ◌<◌, ◌+◌, List, ℕ, [], ◌∷◌, IfOk, OnErr};
ghost use Rattle.outside.specs.Port.{PortTelling, most_connections};
ghost use Rattle.port_serving.specs.Serving.{IsAtHand, TakesConnection, Replies, tallied};

use outside::{Port, PortError};
use std::alloc::AllocError;

/// What a take came to.
#[derive(Debug, Drop)]
pub enum Taking {
    /// No connection is left.
    NoConnection,
    /// The port failed to take a frame.
    Missed,
    /// The frame that was taken.
    Taken(Vec<u8>),
}

/// What became of a connection.
#[derive(Clone, Copy, Debug)]
pub enum Came {
    /// No connection was left.
    NoConnection,
    /// The port failed to take a frame.
    Missed,
    /// A frame was taken and served, and the port failed to answer.
    Unanswered,
    /// A frame was taken, served and answered.
    Answered,
}

/// How many frames were taken, and how many calls of the port failed.
#[derive(Clone, Copy, Debug)]
pub struct Tally {
    pub frames: u32,
    pub faults: u32,
}

impl Tally {
    /// Nothing was taken yet.
    pub fn new() -> Tally
        ensures { result ≡ record { frames = 0; faults = 0 } }
    {
        Tally {
            frames: 0,
            faults: 0,
        }
    }
}

/// Takes the frame of the next connection.
///
/// # Errors
///
/// Want of memory, which uses the connection up.
pub fn take_frame<P: Port>(port: &mut P) -> Result<Taking, AllocError>
    ensures ok { IfOk result (λ taking. TakesConnection taking (P.tells port.old) (P.tells port.new)) }
    ensures err { OnErr result (IsAtHand [] (P.tells port.old) (P.tells port.new)) }
{
    match port.take() {
        Ok(Some(frame)) => Ok(Taking::Taken(frame)),
        Ok(None) => Ok(Taking::NoConnection),
        Err(PortError::Failed) => Ok(Taking::Missed),
        Err(PortError::Memory) => Err(AllocError),
    }
}

/// Answers the connection at hand, whatever its frame is: the answer goes to no other.
///
/// # Errors
///
/// Want of memory, which leaves the connection unanswered.
pub fn answer_frame<P: Port>(port: &mut P, reply: &[u8]) -> Result<Came, AllocError>
    ensures ok { (frame : List ℕ) (before : PortTelling) → IsAtHand (frame ∷ []) before (P.tells port.old)
        → IfOk result (λ came. Replies came frame reply.now before (P.tells port.new)) }
    ensures err { (frame : List ℕ) (before : PortTelling) → IsAtHand (frame ∷ []) before (P.tells port.old)
        → OnErr result (IsAtHand (frame ∷ []) before (P.tells port.new)) }
{
    match port.answer(reply) {
        Ok(()) => Ok(Came::Answered),
        Err(PortError::Failed) => Ok(Came::Unanswered),
        Err(PortError::Memory) => Err(AllocError),
    }
}

/// The tally with one more take.
pub fn tallied(tally: Tally, came: Came) -> Tally
    requires frames { tally.frames < most_connections }
    requires faults { tally.faults < most_connections }
    ensures { result ≡ tallied tally came }
{
    let (frames, faults) = match came {
        Came::NoConnection => (0, 0),
        Came::Missed => (0, 1),
        Came::Unanswered => (1, 1),
        Came::Answered => (1, 0),
    };
    Tally {
        frames: tally.frames + frames,
        faults: tally.faults + faults,
    }
}
