//! A certificate that an input holds, checked against the root of a volume, and the line that tells what it says of a path.
#![tactic(auto)]

mod laws;
mod reading;
mod run;
mod telling;
mod words;

pub use laws::roots_are_written;
pub use run::check_run;
pub use words::root_of_word;
