//! The volume tree: rows of files and folders, and the effects that change them.
#![tactic(auto)]

mod effects;
mod tree;

pub use effects::{ApplyAllError, apply_all, undo_all};
pub use file_paths::{
    Content, List, MAX_DEPTH, MAX_FILE, MAX_NAME, MAX_TEXT, Names, Path, PathError, Paths,
    TakeError, TryCopy, is_name,
};
pub use tree::{Tree, Undo};
pub use tree_values::{
    Base, Bases, Effect, Effects, Format, MAX_EFFECTS, MAX_FILES, MAX_ROWS, Node, Row, Rows,
    RowsError, TreeError, bit_at, is_exec, spell_bit,
};
