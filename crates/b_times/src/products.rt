//! Times products in the field GF(2^16).

use gf_65536::mul;
use std::time::Instant;

/// How many products are timed.
const PRODUCTS: u32 = 50_000_000;

/// The sum of products of factors that a linear congruence draws.
fn sum_of_products(count: u32) -> u16 {
    let mut state = 12_345_u32;
    let mut sum = 0;
    for _ in 0..count {
        state = state.wrapping_mul(1_664_525).wrapping_add(1_013_904_223);
        sum ^= mul((state >> 16) as u16, (state & 0xFFFF) as u16);
    }
    sum
}

/// Prints a checksum of the products, how many nanoseconds they took together, and how many there are.
pub(crate) fn measure_products(rt: &HostRuntime) -> Result<(), anyhow::Error> {
    let start = Instant::now(rt)?;
    let sum = sum_of_products(PRODUCTS);
    let nanoseconds = start.elapsed(rt)?.as_nanos();
    println!(rt; "{sum:04x} {nanoseconds} {PRODUCTS}")?;
    Ok(())
}
