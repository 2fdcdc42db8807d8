//! The judgement of a replay: whether it did what the client's entry says.
#![tactic(auto)]

mod agreement;
mod judging;
mod laws;
mod mending;
mod verdict;

pub use judging::judge;
pub use laws::{agreements_fill, one_judgement};
pub use verdict::Verdict;
