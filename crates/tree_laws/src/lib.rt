//! What holds of trees and effects, and of the spellings of their parts: functions that do nothing, whose contracts
//! are laws.
#![tactic(auto)]

mod laws;
mod spelling_laws;

pub use laws::{
    applying_keeps_trees, distinct_paths_keep_their_order, effects_change_what_they_touch,
    folders_alone_have_children, lists_are_applied_in_order, trees_are_what_they_hold,
    trees_behind,
};
pub use spelling_laws::{
    broken_parts_are_refused_at_their_field, parts_are_spelled_in_bytes, parts_are_spelled_once,
    parts_end_with_their_bytes,
};
