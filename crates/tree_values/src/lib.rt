//! What stands at paths and what changes it, as values: rows, effects, refusals, their lists and their spellings.
#![tactic(auto)]

mod effects;
mod faults;
mod format;
mod limits;
mod lists;
mod node;
mod rows;
mod spelling;
mod taking;
mod taking_rows;

pub use effects::distinct_paths;
pub use format::Format;
pub use limits::{MAX_EFFECTS, MAX_FILES, MAX_ROWS};
pub use lists::{Bases, Effects, Rows};
pub use node::{Base, Effect, Node, Row, TreeError, copy_node, is_exec, size_of};
pub use rows::RowsError;
pub use spelling::{spell_bit, spell_row};
pub use taking::bit_at;
