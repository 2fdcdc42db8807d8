//! Each call that takes memory, and many changes beside a plain vector. Each list ends in the function that made it.

use parted_list::PartedList;
use std::alloc::{AllocError, Global};
use std::rt::HostRuntime;
use std::test::Fail;

/// How many of 6,000 changes at scattered places left a list and a plain vector of the same numbers.
fn changes_alike(alloc: Global) -> Result<u32, AllocError> {
    let mut list = PartedList::new(alloc);
    let mut plain: Vec<u32> = Vec::new(alloc);
    let mut seed: u32 = 7;
    let mut alike: u32 = 0;
    for turn in 0..6_000_u32 {
        seed = seed.wrapping_mul(1_664_525).wrapping_add(1_013_904_223);
        let at = (seed >> 8) as usize;
        if turn % 5 == 4 && !plain.is_empty() {
            let k = at % plain.len();
            let _ = plain.remove(k);
            if k < list.len() {
                list.remove(k);
            }
        } else {
            let k = at % (plain.len() + 1);
            plain.insert(k, seed)?;
            if k <= list.len() {
                list.insert(k, seed)?;
            }
        }
        if turn % 50 > 0 || is_alike(&list, plain.as_slice()) {
            alike = alike.saturating_add(1);
        }
    }
    Ok(alike)
}

/// Whether the list has these numbers.
fn is_alike(list: &PartedList, plain: &[u32]) -> bool {
    if list.len() != plain.len() {
        return false;
    }
    for k in 0..plain.len() {
        if list.get(k) != plain[k] {
            return false;
        }
    }
    true
}

/// Whether a copy of a list of 3,000 numbers is alike, and empty once it is cleared.
fn copies_alike(alloc: Global) -> Result<bool, AllocError> {
    let mut list = PartedList::new(alloc);
    let mut plain: Vec<u32> = Vec::new(alloc);
    for number in 0..3_000_u32 {
        list.insert(0, number)?;
        plain.insert(0, number)?;
    }
    let mut copied = list.copy()?;
    let same = is_alike(&copied, plain.as_slice());
    copied.clear();
    Ok(same && copied.is_empty())
}

#[test]
fn changes_as_a_vector_does(rt: HostRuntime) -> Result<(), Fail> {
    let alloc = rt.alloc();
    assert!(rt; changes_alike(alloc)? == 6_000);
    assert!(rt; copies_alike(alloc)?);
    Ok(())
}
