//! A client's log: the acknowledged tree and the entries that wait; and effects with sketches for contents.
#![tactic(auto)]

mod laws;
mod limits;
mod log;
mod origin;
mod sizes;
mod sketched;
mod sketching;
mod spelling;
mod spelling_laws;
mod taking;

pub use laws::{logs_keep_their_trees, sketches_stand_for_contents, sketches_stand_for_each_file};
pub use limits::{MAX_ENTRIES, MAX_LOG};
pub use log::{Entry, Log, LogError, base_of};
pub use origin::{Origin, take_made_by};
pub use sizes::{bases_size, effects_size};
pub use sketched::{SketchEffect, SketchEffects};
pub use sketching::{SketchEntry, sketch_entry};
pub use spelling_laws::{
    broken_entries_are_refused_at_their_field, broken_sketched_effects_are_refused_at_their_field,
    entries_are_spelled_once, entries_end_with_their_bytes, origins_are_bytes,
    sketched_effects_are_spelled_once, sketched_effects_end_with_their_bytes,
};
