//! A folder that is changed here and in a log: what was laid last, what stands here, and what the log's tree has.
#![tactic(auto)]

mod ends;
mod laws;
mod merging;
mod rows;
mod sides;
mod steps;
mod taking;

pub use ends::End;
pub use laws::{
    laying_goes_on, laying_merges_what_was_changed, one_behind_the_other_is_idle,
    taking_logs_the_folder,
};
pub use merging::merged;
pub use sides::{Sides, conflicts, end_of};
pub use steps::{Step, Steps, laying};
pub use taking::{TakeError, taken};
