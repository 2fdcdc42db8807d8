//! Exact repair: from a content and the sketch of a content near it, the one content within 16 symbols of each block that has the
//! sketch's parities, or the answer that there is none.
#![tactic(auto)]

mod block;
mod content;
mod elimination;
mod errors;
mod laws;

pub use content::repair;
pub use laws::{near_contents_are_repaired, one_repair};
