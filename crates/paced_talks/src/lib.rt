//! Talks over streams, each within its time: a frame comes in, its answer goes out, and the stream ends. No call waits for a peer,
//! so that many talks go on side by side.
#![tactic(auto)]

mod answering;
mod answers;
mod asking;
mod frames;
mod gathering;
mod parting;
mod step;
mod window;

pub use answers::Answers;
pub use frames::{MAX_FRAME, read_frame};
pub use gathering::Gathering;
pub use parting::Partings;
pub use step::{is_passing, sooner};
pub use window::{Window, in_buffers};
