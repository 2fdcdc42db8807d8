//! The polynomial whose roots show the places of the errors, by elimination.

ghost use Rattle.std.specs.Prelude.{◌≡◌, ◌≢◌, ℕ, ◌+◌, ◌<◌, ◌≤◌, [], drop, slice_index, slice_index_or, sum, IsTrue, IsFalse};
ghost use Rattle.rs_repair.specs.Inside.{
  pairing,
  IsMonicRow,
  IsPlusMultiple,
  AreMonomials,
  IsBasis,
  AreCleared,
  IsClearedAbove,
  AnnihilatesAll,
};

use gf_65536::{add, inv, mul};
use rs_parity::PARITY;

/// The coefficients of a polynomial of degree at most 16, the lowest first.
pub(crate) const COEFFICIENTS: usize = 17;

/// The sum of the products of the coefficients with the sums from a place on.
fn paired(row: &[u16; COEFFICIENTS], sums: &[u16; PARITY], place: usize) -> u16
    requires { place < 32 }
    ensures { result ≡ pairing row.now (drop place sums.now) }
{
    let mut total = 0;
    for i in 0..COEFFICIENTS.min(PARITY - place) {
        total = add(total, mul(row[i], sums[place + i]));
    }
    total
}

/// A row plus a multiple of another.
fn plus_multiple(
    row: &[u16; COEFFICIENTS],
    other: &[u16; COEFFICIENTS],
    factor: u16,
) -> [u16; COEFFICIENTS]
    ensures { IsPlusMultiple row.now other.now factor result }
{
    let mut new = [0; COEFFICIENTS];
    for k in 0..COEFFICIENTS {
        new[k] = add(row[k], mul(factor, other[k]));
    }
    new
}

/// The monomial of a degree.
fn monomial(degree: usize) -> [u16; COEFFICIENTS]
    requires { degree < 17 }
    ensures { IsMonicRow degree result }
{
    let mut row = [0; COEFFICIENTS];
    row[degree] = 1;
    row
}

/// The monomials of the degrees 0 to 16.
fn monomials() -> [[u16; COEFFICIENTS]; COEFFICIENTS]
    ensures { AreMonomials result }
{
    let mut rows = [[0; COEFFICIENTS]; COEFFICIENTS];
    for i in 0..COEFFICIENTS {
        rows[i] = monomial(i);
    }
    rows
}

/// The first unmarked row that does not annihilate the sums from a place on, or 17.
fn first_pivot(
    basis: &[[u16; COEFFICIENTS]; COEFFICIENTS],
    marks: &[u16; COEFFICIENTS],
    sums: &[u16; PARITY],
    place: usize,
) -> usize
    requires { place < 16 }
    ensures cleared { AreCleared result 17 place sums.now basis.now marks.now }
    ensures at_most { result ≤ 17 }
    ensures unmarked { result < 17 → slice_index marks.now result ≡ 0 }
    ensures pivot { result < 17 → pairing (slice_index_or basis.now result []) (drop place sums.now) ≢ 0 }
{
    for i in 0..COEFFICIENTS {
        if marks[i] == 0 && paired(&basis[i], sums, place) != 0 {
            return i;
        }
    }
    COEFFICIENTS
}

/// Adds multiples of the pivot's row to the rows above it, so that they annihilate the sums from a place on.
fn clear_above(
    basis: &mut [[u16; COEFFICIENTS]; COEFFICIENTS],
    pivot: usize,
    sums: &[u16; PARITY],
    place: usize,
)
    requires within { pivot < 17 }
    requires place_within { place < 16 }
    requires invertible { pairing (slice_index_or basis.old pivot []) (drop place sums.now) ≢ 0 }
    ensures { IsClearedAbove pivot sums.now place basis.old basis.new }
{
    let row = basis[pivot];
    let inverse = inv(paired(&row, sums, place));
    for i in pivot + 1..COEFFICIENTS {
        let factor = mul(paired(&basis[i], sums, place), inverse);
        basis[i] = plus_multiple(&basis[i], &row, factor);
    }
}

/// The first row without a mark.
fn first_unmarked(marks: &[u16; COEFFICIENTS]) -> usize
    requires { sum marks.now ≤ 16 }
    ensures within { result < 17 }
    ensures unmarked { slice_index marks.now result ≡ 0 }
{
    let mut i = 0;
    while i + 1 < COEFFICIENTS && marks[i] != 0 {
        i += 1;
    }
    i
}

/// Makes the unmarked rows annihilate the sums from one more place on, and marks at most one row.
fn eliminate(
    basis: &mut [[u16; COEFFICIENTS]; COEFFICIENTS],
    marks: &mut [u16; COEFFICIENTS],
    sums: &[u16; PARITY],
    place: usize,
)
    requires basis { IsBasis place sums.now basis.old marks.old }
    requires within { place < 16 }
    ensures { IsBasis (place + 1) sums.now basis.new marks.new }
{
    let pivot = first_pivot(basis, marks, sums, place);
    if pivot < COEFFICIENTS {
        clear_above(basis, pivot, sums, place);
        marks[pivot] = 1;
    }
}

/// A monic polynomial that annihilates the sums from each of the first 16 places on, and its degree.
pub(crate) fn locator(sums: &[u16; PARITY]) -> ([u16; COEFFICIENTS], usize)
    ensures degree { result.1 < 17 }
    ensures monic { IsMonicRow result.1 result.0 }
    ensures annihilates { (e : ℕ) → e < 16 → pairing result.0 (drop e sums.now) ≡ 0 }
{
    let mut basis = monomials();
    let mut marks = [0; COEFFICIENTS];
    for place in 0..16 {
        eliminate(&mut basis, &mut marks, sums, place);
    }
    let degree = first_unmarked(&marks);
    (basis[degree], degree)
}

/// Whether a polynomial annihilates the sums from each place on, as long as its coefficients up to its degree meet sums.
pub(crate) fn annihilates_all(
    row: &[u16; COEFFICIENTS],
    degree: usize,
    sums: &[u16; PARITY],
) -> bool
    requires { degree < 17 }
    ensures yes { IsTrue result → AnnihilatesAll row.now degree sums.now }
    ensures no { IsFalse result → AnnihilatesAll row.now degree sums.now → ⊥ }
{
    for place in 0..PARITY - degree {
        if paired(row, sums, place) != 0 {
            return false;
        }
    }
    true
}
