//! Fields of bytes: reading them one after the other with the place of the first faulty one, and appending them.
#![tactic(auto)]

mod each;
mod error;
mod field;
mod laws;
mod numbers;
mod put;
mod records;

pub use each::{Item, Spelled, Taken, put_each, take_all, take_each};
pub use error::TakeError;
pub use field::{span_at, u8_at, u16_at, u32_at, u64_at};
pub use laws::{
    broken_rules_are_refused_at_their_field, fields_are_spelled_once, fields_end_with_their_bytes,
    records_are_read_until_the_end,
};
pub use numbers::saturate_u32;
pub use put::{put_u16, put_u32, put_u64};
pub use records::{is_torn, take_until_end};
