//! Programs of this machine that are started, and waited for: by themselves, as the head of a group, or apart from other processes, from
//! the network and from files, as far as the system lets them. By what words each is started is a contract.
#![tactic(auto)]

mod apart;
mod care;
mod groups;
mod helping;
mod passing;
mod pipes;
mod starting;
mod waiting;
mod ways;
mod wishes;

pub use care::Care;
pub use groups::{LEADER, is_file};
pub use helping::{begun, ends_well, helped};
pub use starting::{run_there, start_of};
pub use waiting::ended;
pub use ways::{Bounds, Walls, Way};
pub use wishes::{ApartWish, WishError};
