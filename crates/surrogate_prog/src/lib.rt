//! The surrogate program: connections of a port, each with one frame in and one frame out, and commands that are run again.
#![tactic(auto)]

mod laws;
mod program;
mod reasons;
mod run;
mod serving;
mod wishing;
mod words;
mod wrong_word;

pub use laws::{
    connections_are_counted, failed_runs_are_told, servings_keep_their_route,
    silence_has_its_cause, worlds_move_alone,
};
pub use program::{PAGES, served, surrogate_main, surrogate_program};
pub use real_edge::Troubled;
pub use run::surrogate_run;
pub use words::{Form, RunWords, form_of};
