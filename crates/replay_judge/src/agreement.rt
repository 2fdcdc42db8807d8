//! Places at which the changes of a replay agree with the effects of an entry.

ghost use Rattle.std.specs.Prelude.{◌≡◌, ◌≢◌, true, false, IfOk, IfSome, IfNone};
ghost use Rattle.tree_values.specs.declared.node.Effect.TheVariants.{Make, Put, Remove, Move, Mode};
ghost use Rattle.replay_judge.specs.Agreement.{Agrees, Disagree, wanted_path as wanted_path_of};
ghost use Rattle.replay_judge.specs.Inside.{IsNoPut, IsComparison};

use crate::mending::agreed_put;
use crate::verdict::Verdict;
use mod_log::SketchEffect;
use std::alloc::{AllocError, Global};
use vol_tree::{Content, Effect, Effects, Path};
use work_area::first_path;

fn is_same_path(p: &Path, q: &Path) -> bool
    ensures same { result ≡ true → p.now ≡ q.now }
    ensures other { result ≡ false → p.now ≢ q.now }
{
    p.cmp(q).is_eq()
}

fn is_make(effect: &Effect, path: &Path) -> bool
    ensures same { result ≡ true → effect.now ≡ Make path.now }
    ensures other { result ≡ false → effect.now ≢ Make path.now }
{
    match effect {
        Effect::Make(p) => is_same_path(p, path),
        Effect::Put(_, _) | Effect::Remove(_) | Effect::Move(_, _) | Effect::Mode(_, _) => false,
    }
}

fn is_remove(effect: &Effect, path: &Path) -> bool
    ensures same { result ≡ true → effect.now ≡ Remove path.now }
    ensures other { result ≡ false → effect.now ≢ Remove path.now }
{
    match effect {
        Effect::Remove(p) => is_same_path(p, path),
        Effect::Make(_) | Effect::Put(_, _) | Effect::Move(_, _) | Effect::Mode(_, _) => false,
    }
}

fn is_move(effect: &Effect, from: &Path, to: &Path) -> bool
    ensures same { result ≡ true → effect.now ≡ Move from.now to.now }
    ensures other { result ≡ false → effect.now ≢ Move from.now to.now }
{
    match effect {
        Effect::Move(p, q) => is_same_path(p, from) && is_same_path(q, to),
        Effect::Make(_) | Effect::Put(_, _) | Effect::Remove(_) | Effect::Mode(_, _) => false,
    }
}

fn is_mode(effect: &Effect, path: &Path, exec: bool) -> bool
    ensures same { result ≡ true → effect.now ≡ Mode path.now exec }
    ensures other { result ≡ false → effect.now ≢ Mode path.now exec }
{
    match effect {
        Effect::Mode(p, bit) => *bit == exec && is_same_path(p, path),
        Effect::Make(_) | Effect::Put(_, _) | Effect::Remove(_) | Effect::Move(_, _) => false,
    }
}

/// The content of a `Put` at the path.
fn put_content<'a>(effect: &'a Effect, path: &Path) -> Option<&'a Content>
    ensures some { IfSome result (λ content. effect.now ≡ Put path.now content.now) }
    ensures none { IfNone result (IsNoPut path.now effect.now) }
{
    match effect {
        Effect::Put(p, content) => {
            if is_same_path(p, path) {
                Some(content)
            } else {
                None
            }
        }
        Effect::Make(_) | Effect::Remove(_) | Effect::Move(_, _) | Effect::Mode(_, _) => None,
    }
}

/// What both agree on, if they do.
#[tactic(auto, unfolding(crate::specs::Agreement::Agrees), using(crate::proofs::Places::put_disagrees))]
fn agreed(
    alloc: Global,
    wanted: &SketchEffect,
    found: &Effect,
) -> Result<Option<Effect>, AllocError>
    ensures some { IfOk result (λ o. IfSome o (Agrees wanted.now found.now)) }
    ensures none { IfOk result (λ o. IfNone o (Disagree wanted.now found.now)) }
{
    match wanted {
        SketchEffect::Make(p) => {
            if !is_make(found, p) {
                return Ok(None);
            }
            Ok(Some(Effect::Make(p.copy()?)))
        }
        SketchEffect::Put(p, sketch) => match put_content(found, p) {
            Some(content) => agreed_put(alloc, p, sketch, content),
            None => Ok(None),
        },
        SketchEffect::Remove(p) => {
            if !is_remove(found, p) {
                return Ok(None);
            }
            Ok(Some(Effect::Remove(p.copy()?)))
        }
        SketchEffect::Move(p, q) => {
            if !is_move(found, p, q) {
                return Ok(None);
            }
            Ok(Some(Effect::Move(p.copy()?, q.copy()?)))
        }
        SketchEffect::Mode(p, exec) => {
            if !is_mode(found, p, *exec) {
                return Ok(None);
            }
            Ok(Some(Effect::Mode(p.copy()?, *exec)))
        }
    }
}

fn wanted_path(effect: &SketchEffect) -> &Path
    ensures { result.now ≡ wanted_path_of effect.now }
{
    match effect {
        SketchEffect::Make(p)
        | SketchEffect::Put(p, _)
        | SketchEffect::Remove(p)
        | SketchEffect::Move(p, _)
        | SketchEffect::Mode(p, _) => p,
    }
}

/// Compares what the entry wants with what the replay did, place by place.
pub(crate) fn compare(
    alloc: Global,
    wanted: &[SketchEffect],
    found: &[Effect],
) -> Result<Verdict, AllocError>
    ensures { IfOk result (IsComparison wanted.now found.now) }
{
    let mut effects = Effects::new(alloc);
    let mut left = wanted;
    let mut left_found = found;
    while let Some((want, more)) = left.split_first() {
        let Some((change, rest)) = left_found.split_first() else {
            return Ok(Verdict::Mismatch(wanted_path(want).copy()?));
        };
        match agreed(alloc, want, change)? {
            Some(effect) => effects.push(effect)?,
            None => return Ok(Verdict::Mismatch(wanted_path(want).copy()?)),
        }
        left = more;
        left_found = rest;
    }
    match left_found.first() {
        Some(change) => Ok(Verdict::Mismatch(first_path(change).copy()?)),
        None => Ok(Verdict::Agree(effects)),
    }
}
