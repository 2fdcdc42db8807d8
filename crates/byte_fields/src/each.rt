//! Items one after the other, whatever they are.

ghost use Rattle.std.specs.Prelude.{◌≡◌, ℕ, List, ◌++◌, length, IfOk, OnOk, OnErr};
ghost use Rattle.std.specs.List.{flat_map, AllByRecursion};
ghost use Rattle.byte_fields.specs.Field.{Reader, Gives, GivesInto, Lends, each_at, passed, IsFront};

use crate::error::TakeError;
use std::alloc::{AllocError, Global};

/// An item of a list, read in the light of those before it.
pub trait Item<S>: Sized + Drop {
    /// How an item is read in a state.
    ghost item_at: { S → Reader Self };

    /// The state after an item.
    ghost after: { S → Self → S };

    /// Takes the item at the place, in the light of the items before it, and gives the place after it.
    ///
    /// The state is then the one after the item. It may be any after a refusal.
    ///
    /// # Errors
    ///
    /// `At` the first faulty field of the item, or `Memory`.
    fn take_next(
        alloc: Global,
        bytes: &[u8],
        at: usize,
        state: &mut S,
    ) -> Result<(Self, usize), TakeError>
        ensures read { Gives result (item_at state.old bytes.now at) }
        ensures state { IfOk result (λ x. state.new ≡ after state.old x.0) };
}

/// Takes so many items from the place `start` on, one after the other, and gives the place after them.
///
/// `state` is the state before the first item, and then the one after the last. It may be any after a refusal.
///
/// # Errors
///
/// `At` the first faulty field of the first faulty item, or `Memory`.
pub fn take_each<S, T: Item<S>>(
    alloc: Global,
    bytes: &[u8],
    start: usize,
    count: u32,
    state: &mut S,
) -> Result<(Vec<T>, usize), TakeError>
    ensures exact { Lends (λ x. (x.0.items, x.1)) result (each_at T.item_at T.after count state.old bytes.now start) }
    ensures length { IfOk result (λ x. length x.0.items ≡ count) }
    ensures state { IfOk result (λ x. state.new ≡ passed T.after state.old x.0.items) }
{
    let mut items = Vec::new(alloc);
    let mut at = start;
    for _ in 0..count {
        let (item, next) = T::take_next(alloc, bytes, at, state)?;
        items.push(item)?;
        at = next;
    }
    Ok((items, at))
}

/// A state that takes items in, as a list that grows by them. `T` is what an item is read as, and none is built.
pub trait Taken<T>: Sized {
    /// How an item is read in a state.
    ghost item_at: { Self → Reader T };

    /// The state after an item.
    ghost after: { Self → T → Self };

    /// Takes the item at the place into the state, and gives the place after it.
    ///
    /// The state may be any after a refusal.
    ///
    /// # Errors
    ///
    /// `At` the first faulty field of the item, or `Memory`.
    fn take_next(&mut self, alloc: Global, bytes: &[u8], at: usize) -> Result<usize, TakeError>
        ensures { GivesInto self.new (after self.old) result (item_at self.old bytes.now at) };
}

/// Takes so many items from the place `start` on into the state, one after the other, and gives the place after them.
///
/// The state may be any after a refusal.
///
/// # Errors
///
/// `At` the first faulty field of the first faulty item, or `Memory`.
pub fn take_all<T, S: Taken<T>>(
    alloc: Global,
    bytes: &[u8],
    start: usize,
    count: u32,
    state: &mut S,
) -> Result<usize, TakeError>
    ensures { GivesInto state.new (passed S.after state.old) result (each_at S.item_at S.after count state.old bytes.now start) }
{
    let mut at = start;
    for _ in 0..count {
        at = state.take_next(alloc, bytes, at)?;
    }
    Ok(at)
}

/// An item that is spelled by itself.
pub trait Spelled {
    /// The bytes of a value.
    ghost spelling: { Self → List ℕ };

    /// Which values have a spelling.
    ghost fits: { Self → Type 0 };

    /// Appends the value's bytes.
    ///
    /// # Errors
    ///
    /// `AllocError` where memory runs out. A front of the bytes is then appended.
    fn put(&self, out: &mut Vec<u8>) -> Result<(), AllocError>
        requires { fits self.now }
        ensures ok { OnOk result (out.new.items ≡ out.old.items ++ spelling self.now) }
        ensures err { OnErr result (IsFront out.old.items out.new.items (spelling self.now)) };
}

/// Appends the bytes of each item, in order.
///
/// # Errors
///
/// `AllocError` where memory runs out. A front of the bytes is then appended.
pub fn put_each<T: Spelled>(items: &[T], out: &mut Vec<u8>) -> Result<(), AllocError>
    requires { AllByRecursion T.fits items.now }
    ensures ok { OnOk result (out.new.items ≡ out.old.items ++ flat_map T.spelling items.now) }
    ensures err { OnErr result (IsFront out.old.items out.new.items (flat_map T.spelling items.now)) }
{
    for item in items {
        item.put(out)?;
    }
    Ok(())
}
