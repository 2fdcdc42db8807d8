//! A drill: a large run of a client that follows from a number, worked off over a network in memory, and what is told of it.
#![tactic(auto)]

mod drilling;
mod fates;
mod laws;
mod numbers;
mod script;
mod session;
mod summary;

pub use drilling::{drill, drill_on};
pub use laws::drills_begin_by_rule;
pub use script::MAX_STEPS;
