//! A client without its shell: it logs effects, ships them to a server over a link, and pulls what the server has.
#![tactic(auto)]

mod client;
mod keeping;
mod laws;
mod pulling;
mod route;
mod running;
mod shipping;
mod syncing;
mod window;

pub use client::Client;
pub use laws::{
    ends_are_true, overtaken_clients_stay_so, overtaken_entries_are_never_taken, syncs_are_licensed,
};
pub use pulling::PullEnd;
pub use route::Route;
pub use running::RunEnd;
pub use syncing::SyncEnd;
pub use window::{MAX_BESIDE, WINDOW};
