//! A network in memory: one client, one server, one surrogate, and the messages between them, which it loses, repeats,
//! delays, injects and cuts off for good as a list of fates says. Beside it, a link that gives replies of its own, and the
//! parts of a drill: a runner whose answers follow from the jobs, and a link in which a network is handed on by a rule.
#![tactic(auto)]

mod drill;
mod handed;
mod laws;
mod liar;
mod net;
mod parts;

pub use drill::{DrillRunner, MAX_JOB};
pub use handed::Handed;
pub use laws::{few_asks_fail_in_a_row, limits_agree, new_networks_are_in_step, stops_stay};
pub use liar::LiarLink;
pub use mem_wires::Fate;
pub use net::MemNet;
