//! The parity of one block, by division.

ghost use Rattle.std.specs.Prelude.{◌≡◌, ◌*◌, ◌<◌, ◌≤◌, length, slice_index};
ghost use Rattle.rs_parity.specs.Blocks.{IsParity};
ghost use Rattle.rs_parity.specs.CodeWord.{symbols};
ghost use Rattle.rs_parity.specs.Inside.{IsMultiple, IsTable, IsMovedSum};

use gf_65536::{add, mul};

/// The number of symbols in a parity.
pub const PARITY: usize = 32;

/// The coefficients of the polynomial whose roots are the powers 1 to 32 of the element 2, without the highest.
const GENERATOR: [u16; PARITY] = [
    0x12AA, 0x167D, 0xA5A0, 0xCCEB, 0xDF89, 0x96C5, 0x030A, 0x1FD3, 0x4192, 0xC681, 0xD3DD, 0x10F4,
    0xAA9A, 0x5BEA, 0x6DA9, 0x534B, 0xFD9B, 0xCF2B, 0x9B20, 0x92E5, 0xCC6F, 0x7AD6, 0x6CB2, 0x951E,
    0x638F, 0x58CD, 0xADE1, 0xF339, 0x5DCF, 0xEE9F, 0xDB3C, 0x8720,
];

/// Symbol `i` of a block, a big-endian pair of bytes. An odd last byte is followed by a zero byte.
pub fn symbol_at(block: &[u8], i: usize) -> u16
    requires { 2 * i < length block.now }
    ensures { result ≡ slice_index (symbols block.now) i }
{
    let high = u16::from(block[2 * i]);
    let low = if 2 * i + 1 < block.len() {
        u16::from(block[2 * i + 1])
    } else {
        0
    };
    high * 256 + low
}

/// The generator's coefficients times one factor.
fn multiple(factor: u16) -> [u16; PARITY]
    ensures { IsMultiple factor result }
{
    let mut row = [0; PARITY];
    for k in 0..PARITY {
        row[k] = mul(factor, GENERATOR[k]);
    }
    row
}

/// The multiples by every byte times a scale, which is 1 or 256.
fn multiples(scale: u16) -> [[u16; PARITY]; 256]
    requires { scale ≤ 256 }
    ensures { IsTable scale result }
{
    let mut rows = [[0; PARITY]; 256];
    for b in 0..256u16 {
        rows[b as usize] = multiple(b * scale);
    }
    rows
}

/// The remainder moved up by a place, plus two rows.
fn moved_plus(remainder: &[u16; PARITY], high: &[u16; PARITY], low: &[u16; PARITY]) -> [u16; PARITY]
    ensures { IsMovedSum remainder.now high.now low.now result }
{
    let mut next = [0; PARITY];
    for k in 0..PARITY {
        let shifted = if k + 1 < PARITY { remainder[k + 1] } else { 0 };
        next[k] = shifted ^ high[k] ^ low[k];
    }
    next
}

/// The parity of a block: the block's symbols and these 32 make a code word. It takes no memory.
///
/// Each symbol is one step of the division by the generator, whose multiple is the sum of two rows of tables, by the
/// factor's high byte and by its low byte.
pub fn parity(block: &[u8]) -> [u16; PARITY]
    ensures { IsParity block.now result }
{
    let by_low = multiples(1);
    let by_high = multiples(256);
    let mut remainder = [0; PARITY];
    for i in 0..block.len().div_ceil(2) {
        let factor = add(remainder[0], symbol_at(block, i));
        let high = &by_high[usize::from(factor >> 8)];
        let low = &by_low[usize::from(factor & 0xFF)];
        remainder = moved_plus(&remainder, high, low);
    }
    remainder
}
