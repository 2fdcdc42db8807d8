//! The root of rows, and the digests beside the way of one row to it.

ghost use Rattle.std.specs.Prelude.{◌≡◌, ◌-◌, ◌^◌, ◌≤◌, ◌++◌, ◌∷◌, length, OnOk};
ghost use Rattle.sha2.specs.Sha256.{sha256};
ghost use Rattle.tree_proof.specs.Limits.{most_levels};
ghost use Rattle.tree_proof.specs.Tops.{pair_of, root_over, top, top_within, way_within, beside_within, climbed_within};
ghost use Rattle.tree_proof.specs.Certificate.{digests_spelling};

use sha2::{Digest, Sha256};
use std::alloc::AllocError;

/// How often the rows that a tree may have are halved until one is left.
pub(crate) const MAX_LEVELS: u32 = 14;

/// The digest of a leaf whose slim row is spelled so.
pub(crate) fn leaf_digest(spelled: &[u8]) -> [u8; 32]
    ensures { result ≡ sha256 (0 ∷ spelled.now) }
{
    let mut hasher = Sha256::new();
    hasher.update([0]);
    hasher.update(spelled);
    hasher.finalize()
}

/// The digest of a pair.
fn pair_of(left: &[u8; 32], right: &[u8; 32]) -> [u8; 32]
    ensures { result ≡ pair_of left.now right.now }
{
    let mut hasher = Sha256::new();
    hasher.update([1]);
    hasher.update(left.as_slice());
    hasher.update(right.as_slice());
    hasher.finalize()
}

/// The root of so many rows with this top, which is no byte where there are none.
#[tactic(auto, unfolding(byte_fields::specs::Field::digits))]
pub(crate) fn root_over(count: u32, top: &[u8]) -> [u8; 32]
    ensures { result ≡ root_over count top.now }
{
    let mut hasher = Sha256::new();
    hasher.update([2]);
    hasher.update(count.to_be_bytes());
    hasher.update(top);
    hasher.finalize()
}

/// The root of a tree's rows with these digests.
pub(crate) fn root_of_leaves(count: u32, digests: &[[u8; 32]]) -> [u8; 32]
    ensures { result ≡ root_over count (top digests.now) }
{
    if digests.is_empty() {
        return root_over(count, b"".as_slice());
    }
    root_over(count, top_within(MAX_LEVELS, digests).as_slice())
}

/// Half of as many digests as so many levels have.
fn half_of(levels: u32) -> usize
    requires some { 1 ≤ levels }
    requires few { levels ≤ most_levels }
    ensures { result ≡ 2 ^ (levels - 1) }
{
    1 << (levels - 1)
}

/// The top of digests, in so many levels.
#[tactic(auto, using(crate::proofs::Levels::top_none, crate::proofs::Levels::top_low_at, crate::proofs::Levels::top_high_at))]
fn top_within(levels: u32, digests: &[[u8; 32]]) -> [u8; 32]
    requires few { levels ≤ most_levels }
    requires some { 1 ≤ length digests.now }
    ensures { result ≡ top_within levels digests.now }
{
    if levels == 0 {
        return digests[0];
    }
    let half = half_of(levels);
    if digests.len() <= half {
        return top_within(levels - 1, digests);
    }
    let (left, right) = digests.split_at(half);
    let left = top_within(levels - 1, left);
    let right = top_within(levels - 1, right);
    pair_of(&left, &right)
}

/// How many digests stand beside the way of one of so many to the top.
#[tactic(auto, using(crate::proofs::Levels::way_none, crate::proofs::Levels::way_low_at, crate::proofs::Levels::way_left_at, crate::proofs::Levels::way_right_at))]
pub(crate) fn way_within(levels: u32, count: u32, place: u32) -> u32
    requires { levels ≤ most_levels }
    ensures value { result ≡ way_within levels count place }
    ensures few { result ≤ levels }
{
    if levels == 0 {
        return 0;
    }
    let half = half_of(levels) as u32;
    if count <= half {
        return way_within(levels - 1, count, place);
    }
    if place < half {
        way_within(levels - 1, half, place) + 1
    } else {
        way_within(levels - 1, count - half, place - half) + 1
    }
}

/// Appends the digests beside the way of one to the top, from the leaf up.
#[tactic(auto, using(crate::proofs::Levels::beside_none, crate::proofs::Levels::digests_push, std::proofs::Common::append_assoc, crate::proofs::Levels::beside_low_at, crate::proofs::Levels::beside_left_at, crate::proofs::Levels::beside_right_at))]
pub(crate) fn put_beside(
    levels: u32,
    digests: &[[u8; 32]],
    place: usize,
    out: &mut Vec<u8>,
) -> Result<(), AllocError>
    requires { levels ≤ most_levels }
    ensures { OnOk result (out.new.items ≡ out.old.items ++ digests_spelling (beside_within levels digests.now place)) }
{
    if levels == 0 {
        return Ok(());
    }
    let half = half_of(levels);
    if digests.len() <= half {
        return put_beside(levels - 1, digests, place, out);
    }
    let (left, right) = digests.split_at(half);
    if place < half {
        put_beside(levels - 1, left, place, out)?;
        out.extend_from_slice(&top_within(levels - 1, right))
    } else {
        put_beside(levels - 1, right, place - half, out)?;
        out.extend_from_slice(&top_within(levels - 1, left))
    }
}

/// The top that a leaf at a place among so many computes, with the digests beside its way.
#[tactic(auto, using(crate::proofs::Levels::climbed_none, crate::proofs::Levels::climbed_low_at, crate::proofs::Levels::climbed_left_at, crate::proofs::Levels::climbed_right_at, crate::proofs::Levels::way_low_at, crate::proofs::Levels::front_left, crate::proofs::Levels::front_right, crate::proofs::Levels::some_beside))]
pub(crate) fn climbed_within(
    levels: u32,
    count: u32,
    place: u32,
    leaf: [u8; 32],
    beside: &[[u8; 32]],
) -> [u8; 32]
    requires few { levels ≤ most_levels }
    requires way { length beside.now ≡ way_within levels count place }
    ensures { result ≡ climbed_within levels count place leaf beside.now }
{
    if levels == 0 {
        return leaf;
    }
    let half = half_of(levels) as u32;
    if count <= half {
        return climbed_within(levels - 1, count, place, leaf, beside);
    }
    let below = beside.len() - 1;
    let last = beside[below];
    let front = &beside[..below];
    if place < half {
        let left = climbed_within(levels - 1, half, place, leaf, front);
        pair_of(&left, &last)
    } else {
        let right = climbed_within(levels - 1, count - half, place - half, leaf, front);
        pair_of(&last, &right)
    }
}
