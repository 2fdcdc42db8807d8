// A list of items, which contracts see as the list of them.
ghost use Rattle.std.specs.Prelude.{◌≡◌, ℕ, ◌+◌, ◌<◌, ◌≤◌, ◌^◌, List, [], ◌∷◌, ◌++◌, length, take, IfOk, OnOk, OnErr, slice_get};
ghost use Rattle.std.specs.Prelude.{IsTrue, ◌↔◌};
ghost use Rattle.std.specs.Slice.Iter.{iter_rest};
ghost use Rattle.std.specs.Option.{option_copied, option_to_list};

use std::alloc::{AllocError, Global};
use std::marker::Model;
use std::slice;

/// A value whose copy takes memory, and is equal to it.
pub trait TryCopy: Drop {
    /// A copy of the value.
    fn copy(&self) -> Result<Self, AllocError>
        ensures { IfOk result (λ copied. copied ≡ self.now) };
}

/// At most 4,294,967,295 items.
#[derive(Debug, Drop)]
pub struct List<T> {
    items: Vec<T>,
}

impl<T> Model for List<T> {
    ghost Value = { List T };

    ghost view = { λ list. list.items.items };

    ghost invariant = { λ list. length list.items.items < 2 ^ 32 };
}

impl<T: Drop> List<T> {
    /// The list without items.
    pub fn new(alloc: Global) -> List<T>
        ensures { result ≡ [] }
    {
        List {
            items: Vec::new(alloc),
        }
    }

    /// The number of items.
    pub fn len(&self) -> usize
        ensures value { result ≡ length self.now }
        ensures bound { result < 2 ^ 32 }
    {
        self.items.len()
    }

    /// Whether there is no item.
    pub fn is_empty(&self) -> bool
        ensures { IsTrue result ↔ (self.now ≡ []) }
    {
        self.items.is_empty()
    }

    /// Item `i`, counted from 0.
    pub fn get(&self, i: usize) -> Option<&T>
        ensures { option_copied result ≡ slice_get self.now i }
    {
        self.items.get(i)
    }

    /// Lends the items.
    pub fn as_slice(&self) -> &[T]
        ensures items { result.now ≡ self.now }
        ensures bound { length self.now < 2 ^ 32 }
    {
        self.items.as_slice()
    }

    /// Goes over the items in order.
    pub fn iter(&self) -> slice::Iter<'_, T>
        ensures rest { iter_rest result ≡ self.now }
        ensures len { length (iter_rest result) ≡ length self.now }
    {
        self.items.iter()
    }

    /// Adds the item last; past 4,294,967,295 items it is refused.
    pub fn push(&mut self, item: T) -> Result<(), AllocError>
        ensures ok { OnOk result (self.new ≡ self.old ++ item ∷ []) }
        ensures err { OnErr result (self.new ≡ self.old) }
    {
        if self.items.len() >= 4_294_967_295 {
            return Err(AllocError);
        }
        self.items.push(item)?;
        Ok(())
    }

    /// Adds the item last, where there is one.
    pub fn push_found(&mut self, found: Option<T>) -> Result<(), AllocError>
        ensures ok { OnOk result (self.new ≡ self.old ++ option_to_list found) }
        ensures err { OnErr result (self.new ≡ self.old) }
    {
        match found {
            Some(item) => self.push(item),
            None => Ok(()),
        }
    }
}

impl<T: Drop> List<T> {
    /// The list of these items. It takes no memory.
    pub fn from_vec(items: Vec<T>) -> List<T>
        requires { length items.items < 2 ^ 32 }
        ensures { result ≡ items.items }
    {
        List { items }
    }

    /// The items as a vector. It takes no memory.
    pub fn into_vec(self) -> Vec<T>
        ensures { result.items ≡ self }
    {
        let List { items } = self;
        items
    }

    /// The allocator of the items.
    pub fn allocator(&self) -> Global {
        *self.items.allocator()
    }
}

impl<T: TryCopy> List<T> {
    /// A copy of the list.
    pub fn copy(&self) -> Result<List<T>, AllocError>
        ensures { IfOk result (λ copied. copied ≡ self.now) }
    {
        self.copy_front(self.items.len())
    }

    /// A copy of the first `n` items.
    pub fn copy_front(&self, n: usize) -> Result<List<T>, AllocError>
        requires { n ≤ length self.now }
        ensures { IfOk result (λ copied. copied ≡ take n self.now) }
    {
        let mut items = Vec::with_capacity(*self.items.allocator(), n)?;
        for item in &self.items[..n] {
            items.push(item.copy()?)?;
        }
        Ok(List { items })
    }
}

impl<T: TryCopy> TryCopy for List<T> {
    fn copy(&self) -> Result<List<T>, AllocError> {
        List::copy(self)
    }
}
