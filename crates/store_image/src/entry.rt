//! Taking the entries of a log from the bytes that spell them, while a tree takes their effects.

ghost use Rattle.std.specs.Prelude.{◌≡◌, ◌≢◌, length, Option, Ok, IfOk, IfErr, IfSome, OnOk, false};
ghost use Rattle.std.specs.Result.{is_ok};
ghost use Rattle.byte_fields.specs.Field.{Gives, Lends, place_of, each_at};
ghost use Rattle.tree_values.specs.Limits.{max_files};
ghost use Rattle.tree_values.specs.Tree.{apply, changed};
ghost use Rattle.tree_values.specs.Effects.{base_of as bases_of, changed_all};
ghost use Rattle.mod_log.specs.Log.{IsLog, tree_of, logged};
ghost use Rattle.mod_log.specs.Append.{next_entry};
ghost use Rattle.store_image.specs.Reading.{growing_effect_at, grown, applied_effects_at, known_base_at, first_kept_base_at};
ghost use Rattle.store_image.specs.Reading.{kept_bases_after, known_bases_at, based_entry_at, next_entry_at};
ghost use Rattle.mod_log.specs.declared.origin.Origin.{Origin};

use byte_fields::{TakeError, u32_at, u64_at};
use mod_log::{Log, LogError, Origin, base_of, take_made_by};
use std::alloc::{AllocError, Global};
use vol_tree::{
    Base, Bases, Effect, Effects, Format, MAX_EFFECTS, MAX_FILES, Path, Tree, TreeError,
};

/// The fault that a refusal of the tree is, where the effect stands at the place.
fn fault_of(refusal: TreeError, at: usize) -> TakeError
    ensures { IfSome (place_of result) (λ place. (place ≡ at) × (refusal ≢ TreeError.Memory)) }
{
    let fault = match &refusal {
        TreeError::Memory => TakeError::Memory,
        _ => TakeError::At(at),
    };
    drop(refusal);
    fault
}

/// The tree takes an effect that stands at the place.
fn grow(tree: &mut Tree, effect: &Effect, at: usize) -> Result<(), TakeError>
    ensures ok { OnOk result (apply effect.now tree.old ≡ Ok tree.new) }
    ensures err { IfErr result (λ e. IfSome (place_of e) (λ place. (place ≡ at) × (is_ok (apply effect.now tree.old) ≡ false))) }
{
    match tree.apply(effect) {
        Ok(undo) => {
            drop(undo);
            Ok(())
        }
        Err(refusal) => Err(fault_of(refusal, at)),
    }
}

/// An effect of a format, which the tree takes.
#[tactic(auto, unfolding(crate::specs::Reading::growing_effect_at, byte_fields::specs::Field::ruled))]
fn growing_effect(
    format: Format,
    alloc: Global,
    bytes: &[u8],
    at: usize,
    tree: &mut Tree,
    room: usize,
) -> Result<(Effect, usize), TakeError>
    ensures read { Gives result (growing_effect_at format (record { tree = tree.old; room = room }) bytes.now at) }
    ensures applied { IfOk result (λ x. tree.new ≡ changed x.0 tree.old) }
{
    let (effect, next) = Effect::take_in(format, alloc, bytes, at, room)?;
    match grow(tree, &effect, at) {
        Ok(()) => Ok((effect, next)),
        Err(fault) => {
            drop(effect);
            Err(fault)
        }
    }
}

/// So many effects, each of which the tree takes.
fn effects_from(
    format: Format,
    alloc: Global,
    bytes: &[u8],
    start: usize,
    count: u32,
    tree: &mut Tree,
) -> Result<(Effects, usize), TakeError>
    ensures read { Gives result
        (each_at (growing_effect_at format) grown count (record { tree = tree.old; room = max_files }) bytes.now start) }
    ensures applied { IfOk result (λ x. tree.new ≡ changed_all x.0 tree.old) }
{
    let mut effects = Effects::new(alloc);
    let mut at = start;
    let mut room = MAX_FILES;
    for _ in 0..count {
        let (effect, next) = growing_effect(format, alloc, bytes, at, tree, room)?;
        room = room.saturating_sub(effect.content_size() as usize);
        effects.push(effect)?;
        at = next;
    }
    Ok((effects, at))
}

/// The effects of an entry, each of which the tree takes.
#[tactic(auto, unfolding(crate::specs::Reading::applied_effects_at, byte_fields::specs::Field::ruled))]
pub(crate) fn applied_effects(
    format: Format,
    alloc: Global,
    bytes: &[u8],
    at: usize,
    tree: &mut Tree,
) -> Result<(Effects, usize), TakeError>
    ensures read { Gives result (applied_effects_at format tree.old bytes.now at) }
    ensures applied { IfOk result (λ x. tree.new ≡ changed_all x.0 tree.old) }
{
    let (count, start) = u32_at(bytes, at)?;
    if count < 1 || count > MAX_EFFECTS as u32 {
        return Err(TakeError::At(at));
    }
    effects_from(format, alloc, bytes, start, count, tree)
}

/// The place behind just this path and this version.
#[tactic(auto, unfolding(crate::specs::Reading::known_base_at, byte_fields::specs::Field::ruled))]
fn behind_base(alloc: Global, bytes: &[u8], at: usize, known: &Base) -> Result<usize, TakeError>
    ensures { Lends (λ next. (known.now, next)) result (known_base_at known.now bytes.now at) }
{
    let (path, middle) = Path::take(alloc, bytes, at)?;
    if !known.path.cmp(&path).is_eq() {
        return Err(TakeError::At(at));
    }
    let (version, next) = u64_at(bytes, middle)?;
    if version != known.version {
        return Err(TakeError::At(middle));
    }
    Ok(next)
}

/// The place behind just these paths and versions, one after the other.
fn behind_each(
    alloc: Global,
    bytes: &[u8],
    start: usize,
    bases: &[Base],
) -> Result<usize, TakeError>
    ensures { Lends (λ next. (bases.now, next)) result
        (each_at first_kept_base_at kept_bases_after (length bases.now) bases.now bytes.now start) }
{
    let mut at = start;
    for known in bases {
        at = behind_base(alloc, bytes, at, known)?;
    }
    Ok(at)
}

/// The place behind just these bases.
#[tactic(auto, unfolding(crate::specs::Reading::known_bases_at, byte_fields::specs::Field::ruled))]
fn behind_bases(alloc: Global, bytes: &[u8], at: usize, bases: &Bases) -> Result<usize, TakeError>
    ensures { Lends (λ next. (bases.now, next)) result (known_bases_at bases.now bytes.now at) }
{
    let (count, start) = u32_at(bytes, at)?;
    let bases = bases.as_slice();
    if count as usize != bases.len() {
        return Err(TakeError::At(at));
    }
    behind_each(alloc, bytes, start, bases)
}

/// The place behind the bases of effects that are next in the log.
fn behind_bases_of(
    alloc: Global,
    bytes: &[u8],
    at: usize,
    log: &Log,
    effects: &Effects,
) -> Result<usize, TakeError>
    ensures { Lends (λ next. (bases_of effects.now (tree_of log.now), next)) result
        (known_bases_at (bases_of effects.now (tree_of log.now)) bytes.now at) }
{
    let bases = base_of(log.tree(), effects)?;
    let behind = behind_bases(alloc, bytes, at, &bases);
    drop(bases);
    behind
}

/// The effects behind what made an entry, and the place behind the bases of these effects. The other tree is the log's at
/// first, and takes the effects.
fn based_effects(
    format: Format,
    alloc: Global,
    bytes: &[u8],
    at: usize,
    log: &Log,
    ahead: &mut Tree,
) -> Result<(Effects, usize), TakeError>
    requires { ahead.old ≡ tree_of log.now }
    ensures read { (origin : Option Origin) → Lends (λ x. (next_entry origin x.0 log.now, x.1)) result
        (based_entry_at format origin log.now bytes.now at) }
    ensures applied { IfOk result (λ x. ahead.new ≡ changed_all x.0 (tree_of log.now)) }
{
    let (effects, middle) = applied_effects(format, alloc, bytes, at, ahead)?;
    match behind_bases_of(alloc, bytes, middle, log, &effects) {
        Ok(next) => Ok((effects, next)),
        Err(fault) => {
            drop(effects);
            Err(fault)
        }
    }
}

/// What made the entry behind those of the log, and its effects. The other tree is the log's at first, and takes the
/// effects.
#[tactic(auto, unfolding(crate::specs::Reading::next_entry_at))]
pub(crate) fn next_effects(
    format: Format,
    alloc: Global,
    bytes: &[u8],
    at: usize,
    log: &Log,
    ahead: &mut Tree,
) -> Result<((Option<Origin>, Effects), usize), TakeError>
    requires { ahead.old ≡ tree_of log.now }
    ensures read { Lends (λ x. (next_entry x.0.0 x.0.1 log.now, x.1)) result (next_entry_at format log.now bytes.now at) }
    ensures applied { IfOk result (λ x. ahead.new ≡ changed_all x.0.1 (tree_of log.now)) }
{
    let (origin, start) = take_made_by(alloc, bytes, at)?;
    match based_effects(format, alloc, bytes, start, log, ahead) {
        Ok((effects, next)) => Ok(((origin, effects), next)),
        Err(fault) => {
            drop(origin);
            Err(fault)
        }
    }
}

/// Logs effects that fit, with the command that made them.
pub(crate) fn log_entry(
    log: &mut Log,
    origin: Option<Origin>,
    effects: Effects,
) -> Result<(), AllocError>
    requires { IsLog (logged (next_entry origin effects log.old) log.old) }
    ensures { OnOk result (log.new ≡ logged (next_entry origin effects log.old) log.old) }
{
    match log.append(origin, effects) {
        Ok(_seq) => Ok(()),
        Err(refusal) => match refusal {
            LogError::Memory => Err(AllocError),
            _ => unreachable!(),
        },
    }
}
