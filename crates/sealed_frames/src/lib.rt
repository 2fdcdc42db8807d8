//! Frames with a tag, by which who has a client's key tells its frames from those of strangers.
#![tactic(auto)]

mod hmac;
mod laws;
mod opening;
mod sealing;
#[cfg(test)]
mod tests;

pub use hmac::Hmac;
pub use laws::{
    frames_have_one_text, limits_agree, one_frame_a_seal, opened_frames_were_made, seals_are_opened,
};
pub use opening::{Opened, SealError, open_answer, open_sealed};
pub use sealing::{
    MAX_SEALED, SEAL_BYTES, Way, drop_seal, is_sealable, key_of, put_seal, seal, tag_of,
};
