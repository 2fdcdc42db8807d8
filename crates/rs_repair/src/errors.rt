//! The errors of a block, from the sums of the difference of its parity from the given one.

ghost use Rattle.std.specs.Prelude.{◌≡◌, ℕ, ◌+◌, ◌<◌, ◌≤◌, ◌++◌, slice_index, bit_xor, length, map, IfOk, OnOk, IfSome, IfNone};
ghost use Rattle.gf_65536.specs.Field.{gf_mul, gf_pow};
ghost use Rattle.rs_parity.specs.Blocks.{block_size, IsParity};
ghost use Rattle.rs_parity.specs.CodeWord.{sum_at};
ghost use Rattle.rs_repair.specs.Inside.{
  IsMonicRow,
  IsOnlyCandidate,
  HasNoRepair,
  value,
  AreSums,
  AreRoots,
  gap,
  reduced,
  error_of,
  IsErrorAt,
  IsDifference,
  symbol_bytes,
  IsCorrected,
};

use crate::elimination::{COEFFICIENTS, annihilates_all, locator};
use gf_65536::{add, mul, pow};
use rs_parity::{PARITY, symbol_at};
use std::alloc::{AllocError, Global};

/// The difference of two parities.
pub(crate) fn difference(a: &[u16; PARITY], b: &[u16; PARITY]) -> [u16; PARITY]
    ensures { IsDifference a.now b.now result }
{
    let mut new = [0; PARITY];
    for k in 0..PARITY {
        new[k] = add(a[k], b[k]);
    }
    new
}

/// The sum of a word at one number.
fn sum_of(word: &[u16; PARITY], j: u32) -> u16
    ensures { result ≡ sum_at j word.now }
{
    let x = pow(2, j);
    let mut total = 0;
    for s in 0..PARITY {
        total = add(mul(total, x), word[s]);
    }
    total
}

/// The sums of a word at 1 to 32.
fn sums_of(word: &[u16; PARITY]) -> [u16; PARITY]
    ensures { AreSums word.now result }
{
    let mut sums = [0; PARITY];
    for i in 0..PARITY {
        sums[i] = sum_of(word, i as u32 + 1);
    }
    sums
}

/// The value of a polynomial of a degree.
fn value_at(row: &[u16; COEFFICIENTS], degree: usize, x: u16) -> u16
    requires within { degree < 17 }
    requires monic { IsMonicRow degree row.now }
    ensures { result ≡ value row.now x }
{
    let mut total = 0;
    for i in (0..degree + 1).rev() {
        total = add(row[i], mul(x, total));
    }
    total
}

/// The exponents from 32 up to a bound at which the power of 2 is a root, in order.
fn roots_of(
    alloc: Global,
    row: &[u16; COEFFICIENTS],
    degree: usize,
    bound: u32,
) -> Result<Vec<u32>, AllocError>
    requires within { degree < 17 }
    requires monic { IsMonicRow degree row.now }
    requires low { 32 ≤ bound }
    requires high { bound ≤ 65535 }
    ensures { IfOk result (λ v. AreRoots row.now bound v.items) }
{
    let mut roots = Vec::new(alloc);
    let mut x = pow(2, 32);
    for exponent in 32..bound {
        if value_at(row, degree, x) == 0 {
            roots.push(exponent)?;
        }
        x = mul(2, x);
    }
    Ok(roots)
}

/// The powers of 2 at some exponents.
fn powers_of(alloc: Global, exponents: &[u32]) -> Result<Vec<u16>, AllocError>
    ensures { IfOk result (λ v. v.items ≡ map (λ e. gf_pow 2 e) exponents.now) }
{
    exponents.iter().map(|e| pow(2, *e)).collect(alloc)
}

/// The product of the differences of x and the powers.
fn gap_of(x: u16, powers: &[u16]) -> u16
    ensures { result ≡ gap x powers.now }
{
    let mut product = 1;
    for i in 0..powers.len() {
        product = mul(product, add(x, powers[i]));
    }
    product
}

/// The sums of a word whose symbols are multiplied by the differences of their places' powers and one power.
fn reduced_by(sums: &[u16; PARITY], power: u16) -> [u16; PARITY]
    ensures size { length result ≡ 32 }
    ensures each { (k : ℕ) → slice_index result k ≡ bit_xor (slice_index sums.now (k + 1)) (gf_mul power (slice_index sums.now k)) }
{
    let mut new = [0; PARITY];
    for k in 0..PARITY {
        let next = if k + 1 < PARITY { sums[k + 1] } else { 0 };
        new[k] = add(next, mul(power, sums[k]));
    }
    new
}

/// The same for each of some powers.
fn reduced_by_all(sums: &[u16; PARITY], powers: &[u16]) -> [u16; PARITY]
    ensures { (j : ℕ) → slice_index result j ≡ reduced powers.now (λ k. slice_index sums.now k) j }
{
    let mut left = *sums;
    for i in 0..powers.len() {
        left = reduced_by(&left, powers[i]);
    }
    left
}

/// The error at the power x, where the other powers stand before and after it.
fn error_value(sums: &[u16; PARITY], before: &[u16], x: u16, after: &[u16]) -> u16
    ensures { result ≡ error_of sums.now x (before.now ++ after.now) }
{
    let sum = reduced_by_all(&reduced_by_all(sums, before), after)[0];
    let scale = mul(x, mul(gap_of(x, before), gap_of(x, after)));
    mul(sum, pow(scale, 65534))
}

/// The error at an exponent.
fn error_at(sums: &[u16; PARITY], exponents: &[u32], powers: &[u16], exponent: u32) -> u16
    requires { length powers.now ≡ length exponents.now }
    ensures { IsErrorAt sums.now exponents.now powers.now exponent result }
{
    for i in 0..exponents.len() {
        if exponents[i] == exponent {
            return error_value(sums, &powers[..i], powers[i], &powers[i + 1..]);
        }
    }
    0
}

/// Adds the bytes of a symbol, or its first byte alone.
fn push_symbol(bytes: &mut Vec<u8>, symbol: u16, whole: bool) -> Result<(), AllocError>
    ensures { OnOk result (bytes.new.items ≡ bytes.old.items ++ symbol_bytes whole symbol) }
{
    bytes.push((symbol >> 8) as u8)?;
    if whole {
        bytes.push((symbol & 0xFF) as u8)?;
    }
    Ok(())
}

/// The block with the errors at the exponents taken away.
fn corrected(
    alloc: Global,
    block: &[u8],
    sums: &[u16; PARITY],
    exponents: &[u32],
    powers: &[u16],
) -> Result<Vec<u8>, AllocError>
    requires short { length block.now ≤ block_size }
    requires powers { length powers.now ≡ length exponents.now }
    ensures { IfOk result (λ v. IsCorrected block.now sums.now exponents.now powers.now v.items) }
{
    let mut bytes = Vec::new(alloc);
    let places = block.len().div_ceil(2);
    for s in 0..places {
        let error = error_at(sums, exponents, powers, (places + 31 - s) as u32);
        let symbol = add(symbol_at(block, s), error);
        push_symbol(&mut bytes, symbol, 2 * s + 1 < block.len())?;
    }
    Ok(bytes)
}

/// The only bytes that can be a repair of the block, whose own parity is given too. It is None only where there is no repair: a
/// polynomial that fails at later sums shows this without a search for its roots.
pub(crate) fn candidate(
    alloc: Global,
    block: &[u8],
    own: &[u16; PARITY],
    given: &[u16; PARITY],
) -> Result<Option<Vec<u8>>, AllocError>
    requires short { length block.now ≤ block_size }
    requires own { IsParity block.now own.now }
    ensures some { IfOk result (λ o. IfSome o (λ v. IsOnlyCandidate block.now given.now v.items)) }
    ensures none { IfOk result (λ o. IfNone o (HasNoRepair block.now given.now)) }
{
    let sums = sums_of(&difference(own, given));
    let (row, degree) = locator(&sums);
    if !annihilates_all(&row, degree, &sums) {
        return Ok(None);
    }
    let exponents = roots_of(alloc, &row, degree, block.len().div_ceil(2) as u32 + 32)?;
    let powers = powers_of(alloc, &exponents)?;
    let bytes = corrected(alloc, block, &sums, &exponents, &powers)?;
    Ok(Some(bytes))
}
