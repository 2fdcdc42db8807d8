//! Scenes: tests that are data. A program that plays them says what its lines mean (`Stage`); what all of them have in common,
//! files, blocks of bytes and what is told of differences, stands here. docs/TESTING.md has the languages.
#![tactic(auto)]

mod blocks;
mod fault;
mod folder;
mod player;
mod report;
mod stage;

pub use blocks::{calls, number, small};
pub use fault::Fault;
pub use folder::play_folder;
pub use report::Report;
pub use stage::{Line, Stage};
