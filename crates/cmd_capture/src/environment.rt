//! Variables with their values, which contracts see as the list of pairs.

ghost use Rattle.std.specs.Prelude.{◌≡◌, ◌≤◌, [], ◌++◌, length, slice_get, option_map, OnOk, OnErr};
ghost use Rattle.std.specs.List.{flat_map};
ghost use Rattle.byte_fields.specs.Field.{IsFront};
ghost use Rattle.cmd_capture.specs.Limits.{max_variables};
ghost use Rattle.cmd_capture.specs.Environment.{has_key, set_pair};
ghost use Rattle.cmd_capture.specs.Spelling as spelling;

use crate::limits::MAX_VARIABLES;
use crate::spelling::{put_count16, put_text};
use indexmap::IndexMap;
use std::alloc::{AllocError, Global};
use std::marker::Model;
use vol_tree::{Content, TryCopy};

/// Variables with their values, in the order in which they were first set: at most [`crate::MAX_VARIABLES`].
#[derive(Debug, Drop)]
pub struct Env {
    alloc: Global,
    pairs: IndexMap<Content, Content>,
}

impl Model for Env {
    ghost use Rattle.std.specs.Prelude.{ℕ, List, length, ◌≤◌};
    ghost use Rattle.cmd_capture.specs.Limits.{max_variables};

    ghost Value = { List (List ℕ × List ℕ) };

    ghost view = { λ env. env.pairs.entries };

    ghost invariant = { λ env. length env.pairs.entries ≤ max_variables };
}

impl Env {
    /// No variable.
    pub fn new(alloc: Global) -> Env
        ensures { result ≡ [] }
    {
        Env {
            alloc,
            pairs: IndexMap::new(alloc),
        }
    }

    /// Replaces the value of the key in its place, or adds the pair last; a new key past [`crate::MAX_VARIABLES`] is refused.
    pub fn set(&mut self, key: Content, value: Content) -> Result<(), AllocError>
        ensures set { OnOk result (self.new ≡ set_pair self.old key value) }
        ensures refused { OnErr result (self.new ≡ self.old) }
    {
        if self.pairs.len() >= MAX_VARIABLES && self.pairs.get(&key).is_none() {
            return Err(AllocError);
        }
        self.pairs.insert(key, value)?;
        Ok(())
    }

    /// The same with copies of the key and of the value.
    fn set_copies(&mut self, key: &Content, value: &Content) -> Result<(), AllocError>
        ensures set { OnOk result (self.new ≡ set_pair self.old key.now value.now) }
    {
        let key = key.copy()?;
        let value = value.copy()?;
        self.set(key, value)
    }

    /// Whether the key has a value.
    #[tactic(auto, using(crate::proofs::Pairs::lookup_is_has_key))]
    pub(crate) fn has(&self, key: &Content) -> bool
        ensures { result ≡ has_key self.now key.now }
    {
        self.pairs.contains_key(key)
    }

    /// The number of variables.
    pub fn len(&self) -> usize
        ensures value { result ≡ length self.now }
        ensures bound { result ≤ max_variables }
    {
        self.pairs.len()
    }

    /// Variable `i` with its value, counted from 0.
    pub fn get(&self, i: usize) -> Option<(&Content, &Content)>
        ensures { option_map (λ p. (p.0.now, p.1.now)) result ≡ slice_get self.now i }
    {
        self.pairs.get_index(i)
    }

    /// Adds the key and the value of each pair, in their order.
    fn put_pairs(&self, out: &mut Vec<u8>) -> Result<(), AllocError>
        ensures ok { OnOk result (out.new.items ≡ out.old.items ++ flat_map spelling.variable self.now) }
        ensures err { OnErr result (IsFront out.old.items out.new.items (flat_map spelling.variable self.now)) }
    {
        for (key, value) in self.pairs.iter() {
            put_variable(out, key, value)?;
        }
        Ok(())
    }

    /// Adds the spelling of the pairs: their number, and the pairs.
    pub(crate) fn spell(&self, out: &mut Vec<u8>) -> Result<(), AllocError>
        ensures ok { OnOk result (out.new.items ≡ out.old.items ++ spelling.counted spelling.variable self.now) }
        ensures err { OnErr result (IsFront out.old.items out.new.items (spelling.counted spelling.variable self.now)) }
    {
        put_count16(out, self.len())?;
        self.put_pairs(out)?;
        Ok(())
    }
}

/// Adds the key and the value.
fn put_variable(out: &mut Vec<u8>, key: &Content, value: &Content) -> Result<(), AllocError>
    ensures ok { OnOk result (out.new.items ≡ out.old.items ++ spelling.variable (key.now, value.now)) }
    ensures err { OnErr result (IsFront out.old.items out.new.items (spelling.variable (key.now, value.now))) }
{
    put_text(out, key.bytes())?;
    put_text(out, value.bytes())?;
    Ok(())
}

impl TryCopy for Env {
    fn copy(&self) -> Result<Env, AllocError> {
        let mut copied = Env::new(self.alloc);
        for (key, value) in self.pairs.iter() {
            copied.set_copies(key, value)?;
        }
        Ok(copied)
    }
}
