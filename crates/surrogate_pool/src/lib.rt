//! Several surrogates behind one link: an operation is asked of each in turn, until one has done it.
#![tactic(auto)]

mod addresses;
mod laws;
mod pool;
mod tries;

pub use addresses::{MAX_ADDRESSES, are_addresses};
pub use laws::pools_ask_each_surrogate;
pub use pool::{Pool, PoolRound};
