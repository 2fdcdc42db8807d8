//! Tests of the volume tree that no line of a session makes: undos, a tree at its most rows, contents that share their bytes, and the
//! lists in parts below it.
#![tactic(auto)]

#[cfg(test)]
mod contents;
#[cfg(test)]
mod filled;
#[cfg(test)]
mod kept;
#[cfg(test)]
mod lists;
#[cfg(test)]
mod modes;
#[cfg(test)]
mod undone;
