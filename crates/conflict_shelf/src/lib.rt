//! What a stuck log is set aside as: the contents that its pending entries put, as entries that put them into a folder.
#![tactic(auto)]

mod laws;
mod shelf;

pub use laws::shelves_hold_what_was_put;
pub use shelf::{EffectLists, Shelf, ShelfError, Shelved, ShelvedList, shelf_of};
