//! Long frames in parts, of which a port keeps what has come, so that a link that breaks goes on where it broke.
#![tactic(auto)]

mod front;
mod fronts;
mod have;
mod laws;
mod part;
mod sizes;
#[cfg(test)]
mod tests;

pub use front::{Front, Fronts, Put};
pub use fronts::{MOST_BYTES, MOST_KEYED, MOST_UNKEYED};
pub use have::{HAVE_BYTES, Have, put_have, read_have};
pub use laws::{
    a_client_has_one_front, bytes_are_one_part, fronts_are_kept, limits_agree, others_stay,
    room_is_kept, whole_frames_are_handed_on,
};
pub use part::{MAX_FRAME, PART_BYTES, Part, put_part, read_part};
pub use sizes::{FIRST_SIZE, LEAST_SIZE, MOST_SIZE, Outcome, next_size};
