//! Tests of what the server program and the surrogate program show beside their runs, and of the real edge over peers of its own.
#![tactic(auto)]

#[cfg(test)]
mod edge_tests;
#[cfg(test)]
mod keeper_tests;
#[cfg(test)]
mod link_tests;
#[cfg(test)]
mod probe;
#[cfg(test)]
mod program_tests;
#[cfg(test)]
mod telling_tests;
