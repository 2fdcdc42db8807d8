//! Putting numbers at the end of bytes.

ghost use Rattle.std.specs.Prelude.{◌≡◌, ◌++◌, OnOk, OnErr};
ghost use Rattle.std.specs.Int.{w16, w32, w64};
ghost use Rattle.byte_fields.specs.Field.{digits};

use std::alloc::AllocError;

/// Appends the number in two bytes, the high one first.
///
/// # Errors
///
/// `AllocError` where memory runs out. Nothing is then appended.
#[tactic(auto, unfolding(crate::specs::Field::digits))]
pub fn put_u16(out: &mut Vec<u8>, number: u16) -> Result<(), AllocError>
    ensures ok { OnOk result (out.new.items ≡ out.old.items ++ digits w16 number) }
    ensures err { OnErr result (out.new.items ≡ out.old.items) }
{
    out.extend_from_slice(&number.to_be_bytes())
}

/// Appends the number in four bytes, the high one first.
///
/// # Errors
///
/// `AllocError` where memory runs out. Nothing is then appended.
#[tactic(auto, unfolding(crate::specs::Field::digits))]
pub fn put_u32(out: &mut Vec<u8>, number: u32) -> Result<(), AllocError>
    ensures ok { OnOk result (out.new.items ≡ out.old.items ++ digits w32 number) }
    ensures err { OnErr result (out.new.items ≡ out.old.items) }
{
    out.extend_from_slice(&number.to_be_bytes())
}

/// Appends the number in eight bytes, the high one first.
///
/// # Errors
///
/// `AllocError` where memory runs out. Nothing is then appended.
#[tactic(auto, unfolding(crate::specs::Field::digits))]
pub fn put_u64(out: &mut Vec<u8>, number: u64) -> Result<(), AllocError>
    ensures ok { OnOk result (out.new.items ≡ out.old.items ++ digits w64 number) }
    ensures err { OnErr result (out.new.items ≡ out.old.items) }
{
    out.extend_from_slice(&number.to_be_bytes())
}
