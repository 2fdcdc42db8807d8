//! The keys of clients, as files, and who may be reached without them. They are read once, at a program's start. Nothing is written.
#![tactic(auto)]

mod key_file;
mod keys;
mod listening;
#[cfg(test)]
mod tests;

pub use key_file::key_in;
pub use keys::{KeyFault, Keys, KeysError, sealing};
pub use listening::{OpenError, is_loopback, may_be_open};
