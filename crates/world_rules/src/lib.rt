//! What clients and a server do to one another over a network that loses, repeats and reorders messages: the served
//! state and its answers, the world about one client, the way to a peer, and the laws that hold of every run.
#![tactic(auto)]

mod asking;
mod laws;
mod link;
mod settling;

pub use asking::{Answer, Ask, Peer};
pub use laws::{
    entries_are_taken_once, limits_agree, replies_are_true, runs_go_on, runs_stay_in_step,
    unshared_paths_are_the_clients, worlds_tell_what_happened,
};
pub use link::{AskError, Link, LinkError, MAX_ASKS, ask_eight};
pub use settling::settle;
