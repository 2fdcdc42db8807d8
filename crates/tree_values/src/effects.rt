//! What effects touch, and how much they write.

ghost use Rattle.std.specs.Prelude.{◌≡◌, ◌++◌, map, IfOk, OnOk};
ghost use Rattle.tree_values.specs.Tree.{touched_paths};
ghost use Rattle.tree_values.specs.Effects.{touched_all, distinct, content_size};

use crate::lists::Effects;
use crate::node::Effect;
use file_paths::{Path, Paths};
use std::alloc::{AllocError, Global};
use std::collections::BTreeSet;

impl Effects {
    /// The paths that the effects touch, each once, in the order of their first touch.
    pub fn touched(&self) -> Result<Paths, AllocError>
        ensures { IfOk result (λ paths. paths ≡ distinct (touched_all self.now)) }
    {
        let mut touched = Vec::new(self.allocator());
        for effect in self.as_slice() {
            push_touched(&mut touched, effect)?;
        }
        distinct_paths(self.allocator(), &touched)
    }
}

impl Effect {
    /// The number of bytes of the content that it writes.
    pub fn content_size(&self) -> u64
        ensures { result ≡ content_size self.now }
    {
        match self {
            Effect::Put(_, content) => content.bytes().len() as u64,
            _ => 0,
        }
    }
}

/// Adds the paths that the effect touches.
fn push_touched<'a>(touched: &mut Vec<&'a Path>, effect: &'a Effect) -> Result<(), AllocError>
    ensures { OnOk result
        (map (λ path. path.now) touched.new.items ≡ map (λ path. path.now) touched.old.items ++ touched_paths effect.now) }
{
    match effect {
        Effect::Make(path) | Effect::Put(path, _) | Effect::Remove(path) | Effect::Mode(path, _) =>
            touched.push(path)?,
        Effect::Move(from, to) => {
            touched.push(from)?;
            touched.push(to)?;
        }
    }
    Ok(())
}

/// Copies of the paths, each once, in the order in which they first come.
///
/// # Errors
///
/// `AllocError` where memory runs out.
pub fn distinct_paths(alloc: Global, paths: &[&Path]) -> Result<Paths, AllocError>
    ensures { IfOk result (λ firsts. firsts ≡ distinct (map (λ path. path.now) paths.now)) }
{
    let mut known = BTreeSet::new(alloc);
    let mut firsts = Paths::new(alloc);
    for path in paths {
        if known.insert(*path)? {
            firsts.push(path.copy()?)?;
        }
    }
    Ok(firsts)
}
