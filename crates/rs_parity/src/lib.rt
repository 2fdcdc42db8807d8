//! Sketches of contents: the length, the SHA-256 print, and for each block of bytes the 32 check symbols of a Reed-Solomon code
//! over GF(2^16), by which a content that differs in few places is corrected.
#![tactic(auto)]

mod encoder;
mod laws;
mod parities;
mod sketch;
mod spelling;

pub use encoder::{PARITY, parity, symbol_at};
pub use laws::{
    broken_sketches_are_refused_at_their_field, code_words_are_apart, one_parity, one_sketch,
    one_spelling, sketches_end_with_their_bytes, sketches_fit,
};
pub use parities::Parities;
pub use sketch::{BLOCK, Sketch, block, print, sketch_of};
