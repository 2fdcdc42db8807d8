//! Tests of calls: a client's over a keeper that fails; asks over a link; and the objects in memory.
#![tactic(auto)]

#[cfg(test)]
mod asking_tests;
#[cfg(test)]
mod keeping;
#[cfg(test)]
mod outside_tests;
