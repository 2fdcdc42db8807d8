// The addresses of several surrogates as one word.
ghost use Rattle.std.specs.Prelude.{◌≡◌, ◌<◌, ◌==◌, not, length, map, slice_index_or, vec_len, IfOk};
ghost use Rattle.std.specs.List.{list_all};
ghost use Rattle.surrogate_pool.specs.Addresses.{addresses_in, are_addresses};

use std::alloc::{AllocError, Global};

/// The most addresses that a word joins.
pub const MAX_ADDRESSES: usize = 8;

/// Whether a word joins one address or more by commas, at most eight and none of them empty.
pub fn are_addresses(word: &[u8]) -> bool
    ensures { result ≡ are_addresses word.now }
{
    are_all_named(word) && count_of(word) <= MAX_ADDRESSES
}

/// Whether none of the addresses that are joined by commas is empty.
fn are_all_named(word: &[u8]) -> bool
    ensures { result ≡ list_all (λ address. not (length address == 0)) (addresses_in word.now) }
{
    word.split(|byte| *byte == b',')
        .all(|address| !address.is_empty())
}

/// How many addresses are joined by commas.
fn count_of(word: &[u8]) -> usize
    ensures { result ≡ length (addresses_in word.now) }
{
    word.split(|byte| *byte == b',').count()
}

/// The addresses that are joined by commas.
pub(crate) fn addresses_in(alloc: Global, word: &[u8]) -> Result<Vec<&[u8]>, AllocError>
    ensures { IfOk result (λ addresses. map (λ address. address.now) addresses.items ≡ addresses_in word.now) }
{
    word.split(|byte| *byte == b',').collect(alloc)
}

/// The one at this place.
pub(crate) fn part_at<'a>(addresses: &Vec<&'a [u8]>, place: usize) -> &'a [u8]
    requires { place < vec_len addresses.now }
    ensures { result.now ≡ slice_index_or (map (λ part. part.now) addresses.now.items) place result.now }
{
    addresses[place]
}
