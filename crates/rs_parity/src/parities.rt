//! The parities of the blocks of one content.

ghost use Rattle.std.specs.Prelude.{◌≡◌, ℕ, ◌++◌, ◌∷◌, ◌<◌, ◌^◌, [], List, length, IfOk, IfSome, OnOk, OnErr, slice_get};
ghost use Rattle.std.specs.List.{AllByRecursion};
ghost use Rattle.std.specs.Option.{option_copied};
ghost use Rattle.rs_parity.specs.Blocks.{IsCheck};

use crate::encoder::PARITY;
use std::alloc::{AllocError, Global};
use std::marker::Model;

/// The parities of a content's blocks, in order: at most 4,294,967,295.
#[derive(Debug, Drop)]
pub struct Parities {
    items: Vec<[u16; PARITY]>,
}

impl Model for Parities {
    ghost Value = { List (List ℕ) };

    ghost view = { λ p. p.items.items };

    ghost invariant = { λ p. (length p.items.items < 2 ^ 32) × AllByRecursion IsCheck p.items.items };
}

impl Parities {
    /// No parity.
    pub fn new(alloc: Global) -> Self
        ensures { result ≡ [] }
    {
        Parities {
            items: Vec::new(alloc),
        }
    }

    /// Adds a parity at the end; past 4,294,967,295 it is refused.
    pub fn push(&mut self, item: [u16; PARITY]) -> Result<(), AllocError>
        ensures ok { OnOk result (self.new ≡ self.old ++ item ∷ []) }
        ensures err { OnErr result (self.new ≡ self.old) }
    {
        if self.items.len() >= 4_294_967_295 {
            return Err(AllocError);
        }
        told(&item);
        self.items.push(item)?;
        Ok(())
    }

    /// How many parities there are.
    pub fn len(&self) -> usize
        ensures value { result ≡ length self.now }
        ensures bound { result < 2 ^ 32 }
    {
        self.items.len()
    }

    /// The parity of block `i`, counted from 0.
    pub fn get(&self, i: usize) -> Option<&[u16; PARITY]>
        ensures { option_copied result ≡ slice_get self.now i }
    {
        self.items.get(i)
    }

    /// Lends the parities.
    pub fn as_slice(&self) -> &[[u16; PARITY]]
        ensures value { result.now ≡ self.now }
        ensures checks { AllByRecursion IsCheck self.now }
    {
        self.items.as_slice()
    }

    /// An equal list.
    pub fn copy(&self) -> Result<Parities, AllocError>
        ensures { IfOk result (λ copied. copied ≡ self.now) }
    {
        let mut items = Vec::new(*self.items.allocator());
        items.extend_from_slice(self.items.as_slice())?;
        Ok(Parities { items })
    }
}

/// What the type of 32 symbols says of them.
fn told(symbols: &[u16])
    requires { length symbols.now ≡ 32 }
    ensures { IsCheck symbols.now }
{
    let _first = symbols[0];
}
