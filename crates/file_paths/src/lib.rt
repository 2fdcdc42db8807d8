//! Contents, lists and paths, and their spellings.
#![tactic(auto)]

mod content;
mod laws;
mod list;
mod path;
mod spelling;
mod taking;

pub use byte_fields::TakeError;
pub use content::{Content, MAX_FILE};
pub use laws::{
    broken_paths_are_refused_at_their_field, paths_are_read_from_their_texts,
    paths_are_spelled_in_bytes, paths_are_spelled_once, paths_end_with_their_bytes,
};
pub use list::{List, TryCopy};
pub use path::{MAX_DEPTH, MAX_NAME, MAX_TEXT, Path, PathError, is_name};

/// Names, as those of a path or in a folder.
pub type Names = List<Content>;

/// Paths, as those that effects touch.
pub type Paths = List<Path>;
