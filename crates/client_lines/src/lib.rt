//! A client's session over the lines of an input, from what is kept to what is kept, and what holds of whole runs of a client.
#![tactic(auto)]

mod beginning;
mod input;
mod laws;
mod objects;
mod opening;
mod run;

pub use beginning::new_sessions_are_in_step;
pub use input::{InputEnd, MAX_INPUT};
pub use laws::{
    distinct_contents_leave, first_runs_leave, last_syncs_complete, runs_compose,
    sessions_end_with_the_first_quit,
};
pub use opening::{Unopened, open, opened};
pub use run::{Stop, session_run};
