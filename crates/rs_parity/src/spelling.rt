//! Spelling a sketch in bytes, and taking it from them.

ghost use Rattle.std.specs.Prelude.{◌≡◌, ◌++◌, List, ℕ, IfOk, OnOk, OnErr};
ghost use Rattle.std.specs.List.{flat_map};
ghost use Rattle.byte_fields.specs.Field.{Gives, IsFront};
ghost use Rattle.rs_parity.specs.Limits.{max_len};
ghost use Rattle.rs_parity.specs.Spelling.{parity_spelling, sketch_spelling, SketchFits, parity_at, parities_at, sketch_at};

use crate::encoder::PARITY;
use crate::parities::Parities;
use crate::sketch::{BLOCK, Sketch};
use byte_fields::{TakeError, put_u16, put_u32, span_at, u16_at, u32_at};
use std::alloc::{AllocError, Global};

/// The bytes of the largest content that has a sketch.
const MAX_LEN: u32 = 8_388_608;

impl Sketch {
    /// Appends the sketch's bytes: four of the length, the print, and two for each symbol of each parity, the high byte first.
    ///
    /// # Errors
    ///
    /// `AllocError` where memory runs out. A front of the spelling is then appended.
    #[tactic(auto, unfolding(crate::specs::Spelling::sketch_spelling), using(byte_fields::proofs::Fronts::front_none, byte_fields::proofs::Fronts::front_before, byte_fields::proofs::Fronts::front_third))]
    pub fn spell(value: &Sketch, out: &mut Vec<u8>) -> Result<(), AllocError>
        ensures ok { OnOk result (out.new.items ≡ out.old.items ++ sketch_spelling value.now) }
        ensures err { OnErr result (IsFront out.old.items out.new.items (sketch_spelling value.now)) }
    {
        put_u32(out, value.len)?;
        out.extend_from_slice(&value.print)?;
        put_parities(out, value.parities.as_slice())?;
        Ok(())
    }

    /// The sketch at the place, and the place after it.
    ///
    /// Refuses `At` at the first faulty field: one where the bytes end, or a length above 8,388,608.
    pub fn take(alloc: Global, bytes: &[u8], at: usize) -> Result<(Sketch, usize), TakeError>
        ensures read { Gives result (sketch_at max_len bytes.now at) }
        ensures fits { IfOk result (λ x. SketchFits max_len x.0) }
    {
        Sketch::take_within(alloc, bytes, at, MAX_LEN)
    }

    /// The sketch at the place, of a content of at most `room` bytes, and the place after it.
    ///
    /// Refuses `At` at the first faulty field: one where the bytes end, or a length above `room` or above 8,388,608.
    #[tactic(auto, unfolding(crate::specs::Spelling::sketch_at, byte_fields::specs::Field::ruled))]
    pub fn take_within(
        alloc: Global,
        bytes: &[u8],
        at: usize,
        room: u32,
    ) -> Result<(Sketch, usize), TakeError>
        ensures read { Gives result (sketch_at room bytes.now at) }
        ensures fits { IfOk result (λ x. SketchFits room x.0) }
    {
        let (len, after_len) = u32_at(bytes, at)?;
        if len > room.min(MAX_LEN) {
            return Err(TakeError::At(at));
        }
        let (span, after_print) = span_at(bytes, after_len, 32)?;
        let mut print = [0; 32];
        print.copy_from_slice(span);
        let count = (len as usize).div_ceil(BLOCK);
        let (parities, next) = take_parities(alloc, bytes, after_print, count)?;
        Ok((
            Sketch {
                len,
                print,
                parities,
            },
            next,
        ))
    }
}

/// Appends two bytes for each symbol.
#[tactic(auto, unfolding(crate::specs::Spelling::parity_spelling))]
fn put_parity(out: &mut Vec<u8>, parity: &[u16; PARITY]) -> Result<(), AllocError>
    ensures ok { OnOk result (out.new.items ≡ out.old.items ++ parity_spelling parity.now) }
    ensures err { OnErr result (IsFront out.old.items out.new.items (parity_spelling parity.now)) }
{
    for symbol in parity {
        put_u16(out, *symbol)?;
    }
    Ok(())
}

/// Appends the bytes of each parity, in order.
fn put_parities(out: &mut Vec<u8>, parities: &[[u16; PARITY]]) -> Result<(), AllocError>
    ensures ok { OnOk result (out.new.items ≡ out.old.items ++ flat_map parity_spelling parities.now) }
    ensures err { OnErr result (IsFront out.old.items out.new.items (flat_map parity_spelling parities.now)) }
{
    for parity in parities {
        put_parity(out, parity)?;
    }
    Ok(())
}

/// The 32 symbols at the place, and the place after them.
fn take_parity(bytes: &[u8], start: usize) -> Result<([u16; PARITY], usize), TakeError>
    ensures { Gives result (parity_at bytes.now start) }
{
    let mut symbols = [0; PARITY];
    let mut at = start;
    for k in 0..PARITY {
        let (symbol, next) = u16_at(bytes, at)?;
        symbols[k] = symbol;
        at = next;
    }
    Ok((symbols, at))
}

/// So many parities at the place, and the place after them.
fn take_parities(
    alloc: Global,
    bytes: &[u8],
    start: usize,
    count: usize,
) -> Result<(Parities, usize), TakeError>
    ensures { Gives result (parities_at count bytes.now start) }
{
    let mut parities = Parities::new(alloc);
    let mut at = start;
    for _ in 0..count {
        let (parity, next) = take_parity(bytes, at)?;
        parities.push(parity)?;
        at = next;
    }
    Ok((parities, at))
}
