//! Single fields at a place of the bytes.

ghost use Rattle.std.specs.Prelude.{◌≡◌, length, IfOk};
ghost use Rattle.std.specs.Int.{w8, w16, w32, w64};
ghost use Rattle.byte_fields.specs.Field.{Gives, Lends, span_at, number_at};

use crate::error::TakeError;

/// So many bytes from the place on, and the place after them.
///
/// Refuses `At(at)` where the bytes end before that.
#[tactic(auto, unfolding(crate::specs::Field::span_at))]
pub fn span_at(bytes: &[u8], at: usize, count: usize) -> Result<(&[u8], usize), TakeError>
    ensures exact { Lends (λ x. (x.0.now, x.1)) result (span_at count bytes.now at) }
    ensures length { IfOk result (λ x. length x.0.now ≡ count) }
{
    if at > bytes.len() || bytes.len() - at < count {
        return Err(TakeError::At(at));
    }
    let next = at + count;
    Ok((&bytes[at..next], next))
}

/// The byte at the place, and the place after it.
///
/// Refuses `At(at)` where the bytes end before it.
#[tactic(auto, unfolding(crate::specs::Field::number_at))]
pub fn u8_at(bytes: &[u8], at: usize) -> Result<(u8, usize), TakeError>
    ensures { Gives result (number_at w8 bytes.now at) }
{
    let (span, next) = span_at(bytes, at, 1)?;
    Ok((span[0], next))
}

/// The number of two bytes at the place, the high byte first, and the place after it.
///
/// Refuses `At(at)` where the bytes end before it.
#[tactic(auto, unfolding(crate::specs::Field::number_at))]
pub fn u16_at(bytes: &[u8], at: usize) -> Result<(u16, usize), TakeError>
    ensures { Gives result (number_at w16 bytes.now at) }
{
    let (span, next) = span_at(bytes, at, 2)?;
    Ok((u16::from_be_bytes([span[0], span[1]]), next))
}

/// The number of four bytes at the place, the high byte first, and the place after it.
///
/// Refuses `At(at)` where the bytes end before it.
#[tactic(auto, unfolding(crate::specs::Field::number_at))]
pub fn u32_at(bytes: &[u8], at: usize) -> Result<(u32, usize), TakeError>
    ensures { Gives result (number_at w32 bytes.now at) }
{
    let (span, next) = span_at(bytes, at, 4)?;
    let number = u32::from_be_bytes([span[0], span[1], span[2], span[3]]);
    Ok((number, next))
}

/// The number of eight bytes at the place, the high byte first, and the place after it.
///
/// Refuses `At(at)` where the bytes end before it.
#[tactic(auto, unfolding(crate::specs::Field::number_at))]
pub fn u64_at(bytes: &[u8], at: usize) -> Result<(u64, usize), TakeError>
    ensures { Gives result (number_at w64 bytes.now at) }
{
    let (span, next) = span_at(bytes, at, 8)?;
    let number = u64::from_be_bytes([
        span[0], span[1], span[2], span[3], span[4], span[5], span[6], span[7],
    ]);
    Ok((number, next))
}
