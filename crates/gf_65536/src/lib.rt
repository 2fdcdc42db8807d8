//! Arithmetic in the field GF(2^16) of 65,536 elements, with the modulus x^16 + x^12 + x^3 + x + 1.
//!
//! An element is a `u16` whose bit i is the coefficient of x^i. Nothing here takes memory.
#![tactic(auto)]

ghost use Rattle.std.specs.Prelude.{◌≡◌, ◌≢◌, ◌<◌, ◌^◌, bit_xor};
ghost use Rattle.gf_65536.specs.Field.{gf_mul, gf_pow, remainder};
ghost use Rattle.gf_65536.specs.Inside.{HasMultiples};

mod laws;

pub use laws::{only_product, order_of_two, power_laws, product_laws, sum_laws};

/// The sum of two elements, which is their difference too.
pub fn add(a: u16, b: u16) -> u16
    ensures { result ≡ bit_xor a b }
{
    a ^ b
}

/// The polynomial products of `a` with the sixteen polynomials of degree below 4.
fn multiples_of(a: u16) -> [u32; 16]
    ensures { HasMultiples a result }
{
    let mut multiples = [0; 16];
    let single = u32::from(a);
    multiples[1] = single;
    for half in 1..8 {
        let even = multiples[half] << 1;
        multiples[2 * half] = even;
        multiples[2 * half + 1] = even ^ single;
    }
    multiples
}

/// The remainder of a polynomial of degree below 31 by the modulus.
///
/// A remainder has no coefficient from x^16 on, so those of the polynomial from there on determine the quotient.
fn reduced(polynomial: u32) -> u16
    requires { polynomial < 2 ^ 31 }
    ensures { result ≡ remainder 15 polynomial }
{
    let high = polynomial >> 16;
    let quotient = high ^ (high >> 4) ^ (high >> 8) ^ (high >> 12) ^ (high >> 13);
    let rest = polynomial ^ quotient ^ (quotient << 1) ^ (quotient << 3) ^ (quotient << 12);
    (rest & 0xFFFF) as u16
}

/// The product of two elements, by windows of four coefficients of `b`.
pub fn mul(a: u16, b: u16) -> u16
    ensures { result ≡ gf_mul a b }
{
    let multiples = multiples_of(a);
    let top = multiples[usize::from(b >> 12)] << 12;
    let upper = multiples[usize::from((b >> 8) & 15)] << 8;
    let lower = multiples[usize::from((b >> 4) & 15)] << 4;
    let low = multiples[usize::from(b & 15)];
    reduced(top ^ upper ^ lower ^ low)
}

/// The power of an element, by repeated squaring. The power 0 is 1.
pub fn pow(a: u16, e: u32) -> u16
    ensures { result ≡ gf_pow a e }
{
    let mut product = 1;
    let mut square = a;
    let mut rest = e;
    while rest != 0 {
        if rest & 1 == 1 {
            product = mul(product, square);
        }
        square = mul(square, square);
        rest >>= 1;
    }
    product
}

/// The inverse of an element that is not 0: the product of the two is 1.
pub fn inv(a: u16) -> u16
    requires { a ≢ 0 }
    ensures { gf_mul a result ≡ 1 }
{
    pow(a, 65_534)
}
