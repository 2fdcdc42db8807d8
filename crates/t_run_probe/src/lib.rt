//! A network in memory, and what stands in it, as text: what the programs that play whole runs share.
#![tactic(auto)]

mod account;
mod networks;

pub use account::{account_of_network, rows_of_server, sent_packets};
pub use networks::{Network, network};
