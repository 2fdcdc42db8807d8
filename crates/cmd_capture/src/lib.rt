//! Commands from their words, the jobs that are run, and the trait of what runs them.
#![tactic(auto)]

mod capturing;
mod command;
mod environment;
mod job;
mod laws;
mod limits;
mod rules;
mod runner;
mod script;
mod spelling;
mod taking;

pub use capturing::{CaptureError, capture};
pub use command::{Command, Template, Templates, Words};
pub use environment::Env;
pub use job::{Job, JobRow, JobRows, Outcome, RawRow, RawRows};
pub use laws::{
    broken_commands_are_refused_at_their_field, captured_commands_have_a_spelling,
    commands_are_spelled_once, commands_end_with_their_bytes,
};
pub use limits::{MAX_COMMAND, MAX_TEMPLATE, MAX_VARIABLES};
pub use runner::{Run, RunError, Runner};
pub use script::{ScriptAnswer, ScriptRunner};
