//! Lists of rows, effects and bases, which contracts see as the lists of them.

ghost use Rattle.std.specs.Prelude.{◌≡◌, ◌<◌, ◌^◌, [], ◌∷◌, ◌++◌, length, IfOk, OnOk, OnErr, IsTrue, ◌↔◌, slice_get};
ghost use Rattle.std.specs.Option.{option_copied, option_to_list};
ghost use Rattle.std.specs.Slice.Iter.{iter_rest};

use crate::node::{Base, Effect, Row};
use file_paths::{List, TryCopy};
use std::alloc::{AllocError, Global};
use std::marker::Model;
use std::slice;

/// Rows, as those of a tree: at most 4,294,967,295.
#[derive(Debug, Drop)]
pub struct Rows {
    items: List<Row>,
}

impl Model for Rows {
    ghost use Rattle.std.specs.Prelude.{List};
    ghost use Rattle.tree_values.specs.declared.node.Row.{Row};

    ghost Value = { List Row };

    ghost view = { λ rows. rows.items };
}

impl Rows {
    /// No row.
    pub fn new(alloc: Global) -> Rows
        ensures { result ≡ [] }
    {
        Rows {
            items: List::new(alloc),
        }
    }

    /// The number of rows.
    pub fn len(&self) -> usize
        ensures value { result ≡ length self.now }
        ensures bound { result < 2 ^ 32 }
    {
        self.items.len()
    }

    /// Whether there is no row.
    pub fn is_empty(&self) -> bool
        ensures { IsTrue result ↔ (self.now ≡ []) }
    {
        self.items.is_empty()
    }

    /// Number `i` of the rows, counted from 0.
    pub fn get(&self, i: usize) -> Option<&Row>
        ensures { option_copied result ≡ slice_get self.now i }
    {
        self.items.get(i)
    }

    /// Lends the rows.
    pub fn as_slice(&self) -> &[Row]
        ensures items { result.now ≡ self.now }
        ensures bound { length self.now < 2 ^ 32 }
    {
        self.items.as_slice()
    }

    /// Goes over the rows in order.
    pub fn iter(&self) -> slice::Iter<'_, Row>
        ensures rest { iter_rest result ≡ self.now }
        ensures len { length (iter_rest result) ≡ length self.now }
    {
        self.items.iter()
    }

    /// Adds the row last; past 4,294,967,295 rows it is refused.
    pub fn push(&mut self, row: Row) -> Result<(), AllocError>
        ensures ok { OnOk result (self.new ≡ self.old ++ row ∷ []) }
        ensures err { OnErr result (self.new ≡ self.old) }
    {
        self.items.push(row)
    }

    /// Adds the row last, where there is one.
    pub fn push_found(&mut self, found: Option<Row>) -> Result<(), AllocError>
        ensures ok { OnOk result (self.new ≡ self.old ++ option_to_list found) }
        ensures err { OnErr result (self.new ≡ self.old) }
    {
        self.items.push_found(found)
    }

    /// The allocator of the list.
    pub fn allocator(&self) -> Global {
        self.items.allocator()
    }

    /// A copy of the list.
    pub fn copy(&self) -> Result<Rows, AllocError>
        ensures { IfOk result (λ copied. copied ≡ self.now) }
    {
        let items = self.items.copy()?;
        Ok(Rows { items })
    }
}

impl TryCopy for Rows {
    fn copy(&self) -> Result<Rows, AllocError> {
        Rows::copy(self)
    }
}

/// Effects, which are applied in their order: at most 4,294,967,295.
#[derive(Debug, Drop)]
pub struct Effects {
    items: List<Effect>,
}

impl Model for Effects {
    ghost use Rattle.std.specs.Prelude.{List};
    ghost use Rattle.tree_values.specs.declared.node.Effect.{Effect};

    ghost Value = { List Effect };

    ghost view = { λ effects. effects.items };
}

impl Effects {
    /// No effect.
    pub fn new(alloc: Global) -> Effects
        ensures { result ≡ [] }
    {
        Effects {
            items: List::new(alloc),
        }
    }

    /// The number of effects.
    pub fn len(&self) -> usize
        ensures value { result ≡ length self.now }
        ensures bound { result < 2 ^ 32 }
    {
        self.items.len()
    }

    /// Whether there is no effect.
    pub fn is_empty(&self) -> bool
        ensures { IsTrue result ↔ (self.now ≡ []) }
    {
        self.items.is_empty()
    }

    /// Number `i` of the effects, counted from 0.
    pub fn get(&self, i: usize) -> Option<&Effect>
        ensures { option_copied result ≡ slice_get self.now i }
    {
        self.items.get(i)
    }

    /// Lends the effects.
    pub fn as_slice(&self) -> &[Effect]
        ensures items { result.now ≡ self.now }
        ensures bound { length self.now < 2 ^ 32 }
    {
        self.items.as_slice()
    }

    /// Goes over the effects in order.
    pub fn iter(&self) -> slice::Iter<'_, Effect>
        ensures rest { iter_rest result ≡ self.now }
        ensures len { length (iter_rest result) ≡ length self.now }
    {
        self.items.iter()
    }

    /// Adds the effect last; past 4,294,967,295 effects it is refused.
    pub fn push(&mut self, effect: Effect) -> Result<(), AllocError>
        ensures ok { OnOk result (self.new ≡ self.old ++ effect ∷ []) }
        ensures err { OnErr result (self.new ≡ self.old) }
    {
        self.items.push(effect)
    }

    /// Adds the effect last, where there is one.
    pub fn push_found(&mut self, found: Option<Effect>) -> Result<(), AllocError>
        ensures ok { OnOk result (self.new ≡ self.old ++ option_to_list found) }
        ensures err { OnErr result (self.new ≡ self.old) }
    {
        self.items.push_found(found)
    }

    /// The list of these effects. It takes no memory.
    pub fn from_vec(effects: Vec<Effect>) -> Effects
        requires { length effects.items < 2 ^ 32 }
        ensures { result ≡ effects.items }
    {
        Effects {
            items: List::from_vec(effects),
        }
    }

    /// The allocator of the list.
    pub fn allocator(&self) -> Global {
        self.items.allocator()
    }

    /// A copy of the list.
    pub fn copy(&self) -> Result<Effects, AllocError>
        ensures { IfOk result (λ copied. copied ≡ self.now) }
    {
        let items = self.items.copy()?;
        Ok(Effects { items })
    }
}

impl TryCopy for Effects {
    fn copy(&self) -> Result<Effects, AllocError> {
        Effects::copy(self)
    }
}

/// Paths with the versions that effects rest on: at most 4,294,967,295.
#[derive(Debug, Drop)]
pub struct Bases {
    items: List<Base>,
}

impl Model for Bases {
    ghost use Rattle.std.specs.Prelude.{List};
    ghost use Rattle.tree_values.specs.declared.node.Base.{Base};

    ghost Value = { List Base };

    ghost view = { λ bases. bases.items };
}

impl Bases {
    /// No base.
    pub fn new(alloc: Global) -> Bases
        ensures { result ≡ [] }
    {
        Bases {
            items: List::new(alloc),
        }
    }

    /// The number of bases.
    pub fn len(&self) -> usize
        ensures value { result ≡ length self.now }
        ensures bound { result < 2 ^ 32 }
    {
        self.items.len()
    }

    /// Whether there is no base.
    pub fn is_empty(&self) -> bool
        ensures { IsTrue result ↔ (self.now ≡ []) }
    {
        self.items.is_empty()
    }

    /// Number `i` of the bases, counted from 0.
    pub fn get(&self, i: usize) -> Option<&Base>
        ensures { option_copied result ≡ slice_get self.now i }
    {
        self.items.get(i)
    }

    /// Lends the bases.
    pub fn as_slice(&self) -> &[Base]
        ensures items { result.now ≡ self.now }
        ensures bound { length self.now < 2 ^ 32 }
    {
        self.items.as_slice()
    }

    /// Goes over the bases in order.
    pub fn iter(&self) -> slice::Iter<'_, Base>
        ensures rest { iter_rest result ≡ self.now }
        ensures len { length (iter_rest result) ≡ length self.now }
    {
        self.items.iter()
    }

    /// Adds the base last; past 4,294,967,295 bases it is refused.
    pub fn push(&mut self, base: Base) -> Result<(), AllocError>
        ensures ok { OnOk result (self.new ≡ self.old ++ base ∷ []) }
        ensures err { OnErr result (self.new ≡ self.old) }
    {
        self.items.push(base)
    }

    /// The list of these bases. It takes no memory.
    pub fn from_vec(bases: Vec<Base>) -> Bases
        requires { length bases.items < 2 ^ 32 }
        ensures { result ≡ bases.items }
    {
        Bases {
            items: List::from_vec(bases),
        }
    }

    /// The allocator of the list.
    pub fn allocator(&self) -> Global {
        self.items.allocator()
    }

    /// A copy of the list.
    pub fn copy(&self) -> Result<Bases, AllocError>
        ensures { IfOk result (λ copied. copied ≡ self.now) }
    {
        let items = self.items.copy()?;
        Ok(Bases { items })
    }
}

impl TryCopy for Bases {
    fn copy(&self) -> Result<Bases, AllocError> {
        Bases::copy(self)
    }
}
