//! A client's stuck log, set aside: a new client pulls the server's rows, and logs what the pending entries of the old one put as files.
#![tactic(auto)]

mod apart;
mod asked;
mod ends;
mod found;
mod laws;
mod logging;
mod run;
mod texts;

pub use apart::are_apart;
pub use asked::Shelving;
pub use ends::Ending;
pub use laws::{one_end_is_due, shelves_are_pending};
pub use run::shelve;
