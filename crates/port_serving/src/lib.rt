//! Serving the connections of a port: a frame is taken, its node replies, and the reply goes to the connection that it belongs
//! to, before the next one is taken. What became of the connections is counted, and told in one line.
#![tactic(auto)]

mod laws;
mod line;
mod serving;
mod words;

pub use laws::talks_are_exchanges;
pub use line::write_last;
pub use serving::{Came, Taking, Tally, answer_frame, take_frame, tallied};
pub use words::connection_count;
