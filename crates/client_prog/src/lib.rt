//! The client program: what its words ask for, over the standard streams, files, programs and TCP.
#![tactic(auto)]

mod program;
mod reasons;
mod run;
mod untold;
mod wishing;
mod words;
mod wrong_word;

pub use program::{client_main, client_program};
pub use real_edge::Terminals;
pub use run::client_run;
