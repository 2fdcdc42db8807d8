//! Temporary names: which new files of a replay are those of the client under other names.
#![tactic(auto)]

mod candidate;
mod classes;
mod laws;
mod pairs;
mod rows;
mod template;

pub use laws::{
    equal_paths_stay, groups_keep_their_names, only_new_files_are_renamed, renamed_rows_are_legal,
    renamings_are_one_to_one, renamings_move_contents,
};
pub use pairs::{Renamed, renaming, renaming_of};
pub use rows::rename;
pub use template::fits;
