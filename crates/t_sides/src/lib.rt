//! Tests of what no clause says of the sides of a folder.
#![tactic(auto)]

#[cfg(test)]
mod sides;
