//! The rows of a tree, held as slots: each folder has its slots in the order of their names.
#![tactic(auto)]

mod arena;
mod counted;
mod head;

pub use arena::{Arena, slots_lead_to_rows};
pub use counted::Counted;
