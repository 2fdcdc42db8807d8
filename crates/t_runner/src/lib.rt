//! Tests of programs that are run as jobs, and of builds that two runners do, one after the other.
#![tactic(auto)]

#[cfg(test)]
mod apart;
#[cfg(test)]
mod builds;
#[cfg(test)]
mod rights;
#[cfg(test)]
mod rows;
#[cfg(test)]
mod tests;
