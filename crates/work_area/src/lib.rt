//! The rows that a command is run on, the rows that it leaves, and the effects that lead from the one to the other.
#![tactic(auto)]

mod changing;
mod jobs;
mod laws;
mod rows;

pub use changing::{changes, clash, clashing, first_path};
pub use jobs::{JobError, job_of};
pub use laws::{
    change_lists_are_in_order, change_lists_lead_to_what_is_left, jobs_hold_the_tree,
    no_clash_spares_the_rest,
};
pub use rows::{RowsFault, rows_of};
