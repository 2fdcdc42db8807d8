//! Numbers in one to four bytes, of which the first tells how many.
#![tactic(auto)]

mod laws;
mod numbers;

pub use laws::{limits_agree, numbers_are_read, numbers_are_spelled_once};
pub use numbers::{MAX_NUMBER, put_number, split_number};
