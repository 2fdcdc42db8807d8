//! Tests of what is no value in bytes and no whole run, where scenes have the others: fields read with a state, lines cut from pieces,
//! copies, a record by itself, rows, a shelf, and the texts of refusals.
#![tactic(auto)]

#[cfg(test)]
mod fields;
#[cfg(test)]
mod lines;
#[cfg(test)]
mod records;
#[cfg(test)]
mod rows;
#[cfg(test)]
mod shelves;
#[cfg(test)]
mod texts;
