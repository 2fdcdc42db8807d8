//! An entry with sketches in its contents' places.

ghost use Rattle.std.specs.Prelude.{◌≡◌, ◌≤◌, length, Some, IfOk};
ghost use Rattle.std.specs.Option.{IsSome};
ghost use Rattle.std.specs.List.{AllByRecursion};
ghost use Rattle.file_paths.specs.Limits.{max_file};
ghost use Rattle.tree_values.specs.Effects.{content_size};
ghost use Rattle.tree_values.specs.declared.node.Effect.TheVariants.{Put};
ghost use Rattle.mod_log.specs.Sketched.{IsSketchedAs, AreSketchedAs, IsSketchOf};

use crate::log::Entry;
use crate::origin::Origin;
use crate::sketched::{SketchEffect, SketchEffects, copy_mode, copy_move};
use rs_parity::sketch_of;
use std::alloc::{AllocError, Global};
use vol_tree::{Bases, Content, Effect, Path, TryCopy};

/// An entry that a command made, as it is sent in place of its contents.
#[derive(Debug, Drop)]
pub struct SketchEntry {
    /// The entry's number.
    pub seq: u64,
    pub origin: Origin,
    /// The entry's base list.
    pub base: Bases,
    pub effects: SketchEffects,
}

impl TryCopy for SketchEntry {
    fn copy(&self) -> Result<SketchEntry, AllocError> {
        let effects = self.effects.copy()?;
        sketched(self.seq, &self.origin, &self.base, effects)
    }
}

/// The entry of these effects, with copies of the origin and of the base list.
fn sketched(
    seq: u64,
    origin: &Origin,
    base: &Bases,
    effects: SketchEffects,
) -> Result<SketchEntry, AllocError>
    ensures { IfOk result (λ made. made ≡ record { seq = seq; origin = origin.now; base = base.now; effects = effects }) }
{
    match copies_of(origin, base) {
        Ok((origin, base)) => Ok(SketchEntry {
            seq,
            origin,
            base,
            effects,
        }),
        Err(refusal) => {
            drop(effects);
            Err(refusal)
        }
    }
}

fn copies_of(origin: &Origin, base: &Bases) -> Result<(Origin, Bases), AllocError>
    ensures origin { IfOk result (λ copies. copies.0 ≡ origin.now) }
    ensures base { IfOk result (λ copies. copies.1 ≡ base.now) }
{
    let base = base.copy()?;
    match origin.copy() {
        Ok(origin) => Ok((origin, base)),
        Err(refusal) => {
            drop(base);
            Err(refusal)
        }
    }
}

/// The entry with the sketches of its contents in their places.
pub fn sketch_entry(alloc: Global, entry: &Entry) -> Result<SketchEntry, AllocError>
    requires made { IsSome entry.now.origin }
    requires sizes { AllByRecursion (λ effect. content_size effect ≤ max_file) entry.now.effects }
    ensures { IfOk result (IsSketchOf entry.now) }
{
    match &entry.origin {
        Some(origin) => sketch_made_entry(alloc, entry, origin),
        None => unreachable!(),
    }
}

/// The same of an entry whose origin is this one.
fn sketch_made_entry(
    alloc: Global,
    entry: &Entry,
    origin: &Origin,
) -> Result<SketchEntry, AllocError>
    requires made { entry.now.origin ≡ Some origin.now }
    requires sizes { AllByRecursion (λ effect. content_size effect ≤ max_file) entry.now.effects }
    ensures { IfOk result (IsSketchOf entry.now) }
{
    let effects = sketch_effects(alloc, entry.effects.as_slice())?;
    sketched(entry.seq, origin, &entry.base, effects)
}

/// The effects with the sketches of their contents in their places.
fn sketch_effects(alloc: Global, effects: &[Effect]) -> Result<SketchEffects, AllocError>
    requires { AllByRecursion (λ effect. content_size effect ≤ max_file) effects.now }
    ensures { IfOk result (λ sketched. AreSketchedAs effects.now sketched) }
{
    let mut sketched = SketchEffects::new(alloc);
    for effect in effects {
        sketched.push(sketch_effect(alloc, effect)?)?;
    }
    Ok(sketched)
}

/// The effect with the sketch of its content in the content's place.
fn sketch_effect(alloc: Global, effect: &Effect) -> Result<SketchEffect, AllocError>
    requires { content_size effect.now ≤ max_file }
    ensures { IfOk result (IsSketchedAs effect.now) }
{
    match effect {
        Effect::Make(path) => Ok(SketchEffect::Make(path.copy()?)),
        Effect::Put(path, content) => sketch_put(alloc, path, content),
        Effect::Remove(path) => Ok(SketchEffect::Remove(path.copy()?)),
        Effect::Move(from, to) => copy_move(from, to),
        Effect::Mode(path, exec) => copy_mode(path, *exec),
    }
}

/// A put with the sketch of the content in the content's place.
fn sketch_put(alloc: Global, path: &Path, content: &Content) -> Result<SketchEffect, AllocError>
    requires { length content.now ≤ max_file }
    ensures { IfOk result (IsSketchedAs (Put path.now content.now)) }
{
    let path = path.copy()?;
    let sketch = sketch_of(alloc, content.bytes())?;
    Ok(SketchEffect::Put(path, sketch))
}
