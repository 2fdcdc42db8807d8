//! Tests of what no clause says of pieces.
#![tactic(auto)]

#[cfg(test)]
mod contents;
#[cfg(test)]
mod parcels;
#[cfg(test)]
mod spellings;
