//! Lists of numbers in parts. To put a number in or to take one out, only the numbers of one part are moved, and one of each part
//! behind it.
#![tactic(auto)]

mod list;
mod part;

pub use list::PartedList;
