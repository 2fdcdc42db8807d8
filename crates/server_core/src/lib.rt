//! The server: it holds the volume, and takes each client's stores once, in their order.
#![tactic(auto)]

mod laws;
mod server;

pub use laws::{
    frames_are_answered, messages_are_answered, one_state_is_kept, records_lead_on,
    stores_are_taken_once,
};
pub use server::Server;
