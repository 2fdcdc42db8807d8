//! Numbers that stop at the end of their type.

ghost use Rattle.std.specs.Prelude.{◌≡◌};
ghost use Rattle.byte_fields.specs.Numbers.{as_u32};

/// The number, or the largest that 32 bits hold.
pub fn saturate_u32(number: usize) -> u32
    ensures { result ≡ as_u32 number }
{
    if number > 4294967295 {
        return u32::MAX;
    }
    number as u32
}
