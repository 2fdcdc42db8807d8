//! Parcels: the frame of a store as pieces of files that the server has.
#![tactic(auto)]

mod front;
mod known;
mod laws;
mod limits;
mod opening;
mod packing;
mod repeats;

pub use front::{NamedStore, named_store};
pub use laws::{parcels_are_apart, parcels_are_true};
pub use limits::{MAX_SOURCES, MAX_STEPS};
pub use opening::opened;
pub use packing::parcel_of;
