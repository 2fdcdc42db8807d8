//! Messages of client, server and surrogate, as frames of bytes.
#![tactic(auto)]

mod cause;
mod cause_spelling;
mod copies;
mod faults;
mod head;
mod kind;
mod laws;
mod lengths;
mod message;
mod operation;
mod parts;
mod reading;
mod refused;
mod replies;
mod writing;

pub use cause::Cause;
pub use head::{Head, head_of};
pub use laws::{
    broken_rules_name_their_field, causes_are_spelled_once, faults_are_spelled_once,
    frames_are_apart, kinds_decide_replies, limits_agree, operations_stand_for_stores,
    refusals_name_the_first_fault,
};
pub use lengths::{operation_size, store_size};
pub use message::{CLIENTS, FrameError, Kind, MAX_FRAME, Message};
pub use parts::{MAX_PARTS, Part, Parts};
pub use reading::read;
pub use refused::{malformed, not_for_this_node};
pub use replies::echoes;
pub use writing::write;
