//! The wires between one client and one server in memory: every message that was sent is kept, and lost, repeated, delayed,
//! injected or cut off for good as a list of fates says.
#![tactic(auto)]

mod fate;
mod packet;
mod taken;
mod wires;

pub use fate::Fate;
pub use packet::Packet;
pub use wires::Wires;
