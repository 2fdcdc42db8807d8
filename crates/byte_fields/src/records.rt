//! Records to the end of the bytes, where the last one may be torn.

ghost use Rattle.std.specs.Prelude.{◌≡◌, ◌<◌, ◌≤◌, ◌+◌, length, false, IfOk};
ghost use Rattle.byte_fields.specs.Field.{GivesInto, passed};
ghost use Rattle.byte_fields.specs.Records.{framed_at, is_torn, until_end};

use crate::each::Taken;
use crate::error::TakeError;
use crate::field::{span_at, u32_at};
use std::alloc::Global;

/// Whether the bytes end inside the record at the place: in the four of its length, or before so many more.
#[tactic(auto, unfolding(crate::specs::Records::is_torn, crate::specs::Records::frame_at, crate::specs::Field::number_at, crate::specs::Field::span_at))]
pub fn is_torn(bytes: &[u8], at: usize) -> bool
    ensures torn { result ≡ is_torn bytes.now at }
    ensures left { result ≡ false → at + 4 ≤ length bytes.now }
{
    if at > bytes.len() || bytes.len() - at < 4 {
        return true;
    }
    let start = at + 4;
    let span = &bytes[at..start];
    let size = u32::from_be_bytes([span[0], span[1], span[2], span[3]]);
    bytes.len() - start < size as usize
}

/// Takes the item that stands behind the number of its bytes into the state, and gives the place after it.
///
/// The state may be any after a refusal.
///
/// # Errors
///
/// `At` the first faulty field, which may be the number, its bytes, or what the item leaves of them; or `Memory`.
#[tactic(auto, unfolding(crate::specs::Records::framed_at))]
fn take_framed<T, S: Taken<T>>(
    alloc: Global,
    bytes: &[u8],
    at: usize,
    state: &mut S,
) -> Result<usize, TakeError>
    ensures into { GivesInto state.new (S.after state.old) result (framed_at (S.item_at state.old) bytes.now at) }
    ensures further { IfOk result (λ next. at < next) }
{
    let (size, start) = u32_at(bytes, at)?;
    let (_span, end) = span_at(bytes, start, size as usize)?;
    let next = state.take_next(alloc, &bytes[..end], start)?;
    if next != end {
        return Err(TakeError::At(next));
    }
    Ok(next)
}

/// Takes the records from the place `start` on into the state, and gives the place where the torn one begins.
///
/// Each record stands behind the number of its bytes, in four of them. Where the bytes end inside a record, its appending
/// was broken off, and it is left. Where no record is torn, the place is the end of the bytes. The state may be any after
/// a refusal.
///
/// # Errors
///
/// `At` the first faulty field of the first whole record that is faulty, or `Memory`.
pub fn take_until_end<T, S: Taken<T>>(
    alloc: Global,
    bytes: &[u8],
    start: usize,
    state: &mut S,
) -> Result<usize, TakeError>
    ensures { GivesInto state.new (passed S.after state.old) result (until_end S.item_at S.after state.old bytes.now start) }
{
    let mut at = start;
    while !is_torn(bytes, at) {
        at = take_framed::<T, S>(alloc, bytes, at, state)?;
    }
    Ok(at)
}
