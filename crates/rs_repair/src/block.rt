//! The repair of one block.

ghost use Rattle.std.specs.Prelude.{◌≡◌, ◌≤◌, ◌↔◌, length, slice_index, EachIndex, IfOk, IfSome, IfNone, IsTrue};
ghost use Rattle.rs_parity.specs.Blocks.{block_size, IsParity};
ghost use Rattle.rs_parity.specs.CodeWord.{symbols};
ghost use Rattle.rs_parity.specs.Weight.{differing};
ghost use Rattle.rs_repair.specs.Inside.{IsRepair, HasNoRepair};

use crate::errors::{candidate, difference};
use rs_parity::{PARITY, parity, symbol_at};
use std::alloc::{AllocError, Global};

/// The number of symbols in which two blocks of one length differ.
fn differing_symbols(a: &[u8], b: &[u8]) -> usize
    requires { length a.now ≡ length b.now }
    ensures { result ≡ differing (symbols a.now) (symbols b.now) }
{
    let mut count = 0;
    for s in 0..a.len().div_ceil(2) {
        if symbol_at(a, s) != symbol_at(b, s) {
            count += 1;
        }
    }
    count
}

/// Whether each symbol of a word is 0.
fn is_zero(word: &[u16; PARITY]) -> bool
    ensures { IsTrue result ↔ EachIndex word.now (λ k. slice_index word.now k ≡ 0) }
{
    word.iter().all(|w| *w == 0)
}

/// Whether the block has the parity.
fn has_parity(block: &[u8], given: &[u16; PARITY]) -> bool
    requires { length block.now ≤ block_size }
    ensures { IsTrue result ↔ IsParity block.now given.now }
{
    is_zero(&difference(&parity(block), given))
}

/// The one repair of a block by its parity, or None exactly where there is none.
pub(crate) fn repair_block(
    alloc: Global,
    block: &[u8],
    given: &[u16; PARITY],
) -> Result<Option<Vec<u8>>, AllocError>
    requires { length block.now ≤ block_size }
    ensures some { IfOk result (λ o. IfSome o (λ v. IsRepair block.now given.now v.items)) }
    ensures none { IfOk result (λ o. IfNone o (HasNoRepair block.now given.now)) }
{
    let own = parity(block);
    if is_zero(&difference(&own, given)) {
        let mut bytes = Vec::new(alloc);
        bytes.extend_from_slice(block)?;
        return Ok(Some(bytes));
    }
    let Some(bytes) = candidate(alloc, block, &own, given)? else {
        return Ok(None);
    };
    if bytes.len() != block.len()
        || differing_symbols(block, &bytes) > 16
        || !has_parity(&bytes, given)
    {
        return Ok(None);
    }
    Ok(Some(bytes))
}
