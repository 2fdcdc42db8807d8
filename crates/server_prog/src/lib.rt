//! The server program: connections of a port, each with one frame in and one frame out; and what is written of a kept volume.
#![tactic(auto)]

mod journal;
mod laws;
mod program;
mod reading;
mod reasons;
mod run;
mod serving;
mod telling;
mod words;
mod wrong_word;

pub use laws::{connections_are_counted, kept_images_are_served};
pub use program::{PAGES, served, server_main, server_program};
pub use real_edge::Troubled;
pub use run::server_run;
pub use words::{Form, RunWords, form_of};
