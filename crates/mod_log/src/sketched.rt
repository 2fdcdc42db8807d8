//! Effects with the sketches of their contents in the contents' places.

ghost use Rattle.std.specs.Prelude.{◌≡◌, ◌++◌, ◌∷◌, ◌<◌, ◌^◌, [], length, map, IfOk, OnOk, OnErr, slice_get, ◌==◌};
ghost use Rattle.std.specs.Option.{option_copied};
ghost use Rattle.tree_values.specs.Effects.{distinct};
ghost use Rattle.mod_log.specs.Sketched.{sketch_paths, sketches_touch, sketched_size};
ghost use Rattle.mod_log.specs.declared.sketched.SketchEffect.TheVariants.{Put, Move, Mode};

use rs_parity::Sketch;
use std::alloc::{AllocError, Global};
use std::marker::Model;
use tree_values::distinct_paths;
use vol_tree::{List, Path, Paths, TryCopy};

/// A change of a tree, as `Effect`, with the sketch of a content in its place.
#[derive(Debug, Drop)]
pub enum SketchEffect {
    Make(Path),
    Put(Path, Sketch),
    Remove(Path),
    Move(Path, Path),
    Mode(Path, bool),
}

impl TryCopy for SketchEffect {
    fn copy(&self) -> Result<SketchEffect, AllocError> {
        match self {
            SketchEffect::Make(path) => Ok(SketchEffect::Make(path.copy()?)),
            SketchEffect::Put(path, sketch) => copy_put(path, sketch),
            SketchEffect::Remove(path) => Ok(SketchEffect::Remove(path.copy()?)),
            SketchEffect::Move(from, to) => copy_move(from, to),
            SketchEffect::Mode(path, exec) => copy_mode(path, *exec),
        }
    }
}

fn copy_put(path: &Path, sketch: &Sketch) -> Result<SketchEffect, AllocError>
    ensures { IfOk result (λ copied. copied ≡ Put path.now sketch.now) }
{
    Ok(SketchEffect::Put(path.copy()?, sketch.copy()?))
}

/// A move from and to equal paths.
pub(crate) fn copy_move(from: &Path, to: &Path) -> Result<SketchEffect, AllocError>
    ensures { IfOk result (λ copied. copied ≡ Move from.now to.now) }
{
    Ok(SketchEffect::Move(from.copy()?, to.copy()?))
}

/// A change of an equal path's mode.
pub(crate) fn copy_mode(path: &Path, exec: bool) -> Result<SketchEffect, AllocError>
    ensures { IfOk result (λ copied. copied ≡ Mode path.now exec) }
{
    Ok(SketchEffect::Mode(path.copy()?, exec))
}

impl SketchEffect {
    /// The number of bytes of the content that it stands for.
    pub fn content_size(&self) -> u32
        ensures { result ≡ sketched_size self.now }
    {
        match self {
            SketchEffect::Put(_, sketch) => sketch.len,
            SketchEffect::Make(_)
            | SketchEffect::Remove(_)
            | SketchEffect::Move(_, _)
            | SketchEffect::Mode(_, _) => 0,
        }
    }
}

/// Sketched effects, which stand for effects in their order: at most 4,294,967,295.
#[derive(Debug, Drop)]
pub struct SketchEffects {
    items: List<SketchEffect>,
}

impl Model for SketchEffects {
    ghost use Rattle.std.specs.Prelude.{List};
    ghost use Rattle.mod_log.specs.declared.sketched.SketchEffect.{SketchEffect};

    ghost Value = { List SketchEffect };

    ghost view = { λ effects. effects.items };
}

impl SketchEffects {
    /// No sketched effect. It takes no memory.
    pub fn new(alloc: Global) -> SketchEffects
        ensures { result ≡ [] }
    {
        SketchEffects {
            items: List::new(alloc),
        }
    }

    /// The sketched effects of these items. It takes no memory.
    pub fn from_vec(items: Vec<SketchEffect>) -> SketchEffects
        requires { length items.items < 2 ^ 32 }
        ensures { result ≡ items.items }
    {
        SketchEffects {
            items: List::from_vec(items),
        }
    }

    /// Adds it last; past 4,294,967,295 it is refused.
    pub fn push(&mut self, item: SketchEffect) -> Result<(), AllocError>
        ensures ok { OnOk result (self.new ≡ self.old ++ item ∷ []) }
        ensures err { OnErr result (self.new ≡ self.old) }
    {
        self.items.push(item)
    }

    /// How many there are.
    pub fn len(&self) -> usize
        ensures value { result ≡ length self.now }
        ensures bound { result < 2 ^ 32 }
    {
        self.items.len()
    }

    /// Whether there is none.
    pub fn is_empty(&self) -> bool
        ensures { result ≡ (length self.now == 0) }
    {
        self.items.len() == 0
    }

    /// Sketched effect `i`, counted from 0.
    pub fn get(&self, i: usize) -> Option<&SketchEffect>
        ensures { option_copied result ≡ slice_get self.now i }
    {
        self.items.get(i)
    }

    /// Lends the sketched effects.
    pub fn as_slice(&self) -> &[SketchEffect]
        ensures items { result.now ≡ self.now }
        ensures bound { length self.now < 2 ^ 32 }
    {
        self.items.as_slice()
    }

    /// An equal list.
    pub fn copy(&self) -> Result<SketchEffects, AllocError>
        ensures { IfOk result (λ copied. copied ≡ self.now) }
    {
        let items = self.items.copy()?;
        Ok(SketchEffects { items })
    }

    /// The paths that they touch, each once, in the order of their first touch.
    pub fn touched(&self) -> Result<Paths, AllocError>
        ensures { IfOk result (λ paths. paths ≡ distinct (sketches_touch self.now)) }
    {
        let mut touched = Vec::new(self.items.allocator());
        for effect in self.items.as_slice() {
            push_touched(&mut touched, effect)?;
        }
        distinct_paths(self.items.allocator(), &touched)
    }
}

/// Adds the paths that the sketched effect touches.
fn push_touched<'a>(touched: &mut Vec<&'a Path>, effect: &'a SketchEffect) -> Result<(), AllocError>
    ensures { OnOk result
        (map (λ path. path.now) touched.new.items ≡ map (λ path. path.now) touched.old.items ++ sketch_paths effect.now) }
{
    match effect {
        SketchEffect::Make(path)
        | SketchEffect::Put(path, _)
        | SketchEffect::Remove(path)
        | SketchEffect::Mode(path, _) => touched.push(path)?,
        SketchEffect::Move(from, to) => {
            touched.push(from)?;
            touched.push(to)?;
        }
    }
    Ok(())
}
