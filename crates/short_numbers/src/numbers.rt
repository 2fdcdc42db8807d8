// Writing a number, and reading one.
ghost use Rattle.std.specs.Prelude.{◌≡◌, ◌≤◌, ◌++◌, OnOk, IfSome};
ghost use Rattle.std.specs.Option.{option_map};
ghost use Rattle.short_numbers.specs.Numbers.{number_spelled, first_number, number_of_two, number_of_three, number_of_four};

use std::alloc::AllocError;

/// The largest number that has a spelling.
pub const MAX_NUMBER: u32 = 135_798_975;

/// The smallest number of two bytes.
pub(crate) const TWO_FROM: u32 = 192;

/// The smallest number of three bytes.
pub(crate) const THREE_FROM: u32 = 8_384;

/// The smallest number of four bytes.
pub(crate) const FOUR_FROM: u32 = 1_581_248;

/// The smallest first byte of a number of two bytes.
pub(crate) const TWO: u8 = 192;

/// The smallest first byte of a number of three bytes.
pub(crate) const THREE: u8 = 224;

/// The smallest first byte of a number of four bytes.
pub(crate) const FOUR: u8 = 248;

/// Appends the spelling of a number.
///
/// # Errors
///
/// Want of memory.
pub fn put_number(number: u32, out: &mut Vec<u8>) -> Result<(), AllocError>
    requires { number ≤ MAX_NUMBER }
    ensures { OnOk result (out.new.items ≡ out.old.items ++ number_spelled number) }
{
    if number < TWO_FROM {
        return out.extend_from_slice(&[number as u8]);
    }
    if number < THREE_FROM {
        let above = number - TWO_FROM;
        return out.extend_from_slice(&[TWO + (above / 256) as u8, (above % 256) as u8]);
    }
    if number < FOUR_FROM {
        let above = number - THREE_FROM;
        return out.extend_from_slice(&[
            THREE + (above / 65_536) as u8,
            (above / 256 % 256) as u8,
            (above % 256) as u8,
        ]);
    }
    let above = number - FOUR_FROM;
    out.extend_from_slice(&[
        FOUR + (above / 16_777_216) as u8,
        (above / 65_536 % 256) as u8,
        (above / 256 % 256) as u8,
        (above % 256) as u8,
    ])
}

/// The number at the front, and the bytes behind it; `None` where its bytes are wanting.
pub fn split_number(bytes: &[u8]) -> Option<(u32, &[u8])>
    ensures read { option_map (λ x. (x.0, x.1.now)) result ≡ first_number bytes.now }
    ensures small { IfSome result (λ x. x.0 ≤ MAX_NUMBER) }
{
    let (first, rest) = bytes.split_first()?;
    if *first < TWO {
        return Some((*first as u32, rest));
    }
    number_of_two(*first, rest)
}

/// The number whose first byte this is, where that tells of more bytes.
fn number_of_two(first: u8, bytes: &[u8]) -> Option<(u32, &[u8])>
    requires { TWO ≤ first }
    ensures read { option_map (λ x. (x.0, x.1.now)) result ≡ number_of_two first bytes.now }
    ensures small { IfSome result (λ x. x.0 ≤ MAX_NUMBER) }
{
    let (second, rest) = bytes.split_first()?;
    if first < THREE {
        let high = (first - TWO) as u32 * 256;
        return Some((TWO_FROM + high + *second as u32, rest));
    }
    number_of_three(first, *second, rest)
}

/// The number whose first two bytes these are, where the first tells of more.
fn number_of_three(first: u8, second: u8, bytes: &[u8]) -> Option<(u32, &[u8])>
    requires { THREE ≤ first }
    ensures read { option_map (λ x. (x.0, x.1.now)) result ≡ number_of_three first second bytes.now }
    ensures small { IfSome result (λ x. x.0 ≤ MAX_NUMBER) }
{
    let (third, rest) = bytes.split_first()?;
    if first < FOUR {
        let high = (first - THREE) as u32 * 65_536 + second as u32 * 256;
        return Some((THREE_FROM + high + *third as u32, rest));
    }
    number_of_four(first, second, *third, rest)
}

/// The number whose first three bytes these are, where the first tells of four.
fn number_of_four(first: u8, second: u8, third: u8, bytes: &[u8]) -> Option<(u32, &[u8])>
    requires { FOUR ≤ first }
    ensures read { option_map (λ x. (x.0, x.1.now)) result ≡ number_of_four first second third bytes.now }
    ensures small { IfSome result (λ x. x.0 ≤ MAX_NUMBER) }
{
    let (fourth, rest) = bytes.split_first()?;
    let high = (first - FOUR) as u32 * 16_777_216 + second as u32 * 65_536 + third as u32 * 256;
    Some((FOUR_FROM + high + *fourth as u32, rest))
}
