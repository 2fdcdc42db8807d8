//! Which of the pending entries one store carries.

ghost use Rattle.std.specs.Prelude.{◌≡◌, ◌≤◌, ◌-◌, ◌+◌, ◌↔◌, min, take, length, List, IsTrue, IfOk};
ghost use Rattle.byte_fields.specs.Numbers.{as_u64};
ghost use Rattle.tree_values.specs.Effects.{contents_size};
ghost use Rattle.tree_values.specs.Limits.{max_effects, max_files};
ghost use Rattle.tree_values.specs.Spelling.{EffectsFit};
ghost use Rattle.mod_log.specs.declared.log.Entry.{Entry};
ghost use Rattle.mod_log.specs.Log.{IsLog};
ghost use Rattle.wire_frames.specs.Frame.{IsValid};
ghost use Rattle.wire_frames.specs.Parts.{part_of};
ghost use Rattle.world_rules.specs.InStep.{parts_of};
ghost use Rattle.client_core.specs.Limits.{max_beside};
ghost use Rattle.client_core.specs.Syncing.{store_alone, IsFirst, IsWindow};
ghost use Rattle.client_core.specs.Inside.{ForEachClient, LeavesRoom, IsLightEntry, IsWindowOf};

use crate::Route;
use mod_log::{Entry, Log};
use std::alloc::{AllocError, Global};
use vol_tree::{Effect, MAX_EFFECTS, MAX_FILES, TryCopy};
use wire_frames::{Part, Parts, operation_size, store_size};

/// The most entries that a store of a client carries.
pub const WINDOW: u32 = 8;

/// The most bytes of contents that a store of a client carries beside those of its first entry: what a thin link gets through at once.
pub const MAX_BESIDE: u64 = 131_072;

/// The entries of the window of what is pending, of which this one is the first.
pub(crate) fn window_of(
    alloc: Global,
    client: u8,
    route: &Route,
    log: &Log,
    first: &Entry,
) -> Result<Parts, AllocError>
    requires own_number { (1 ≤ client) × (client ≤ 64) }
    requires first { IsFirst first.now log.now.pending }
    requires log { IsLog log.now }
    ensures { IfOk result (λ parts. (chosen : List Entry) × IsWindow client route.now log.now.pending chosen × (parts ≡ parts_of chosen)) }
{
    let count = window_count(alloc, route, log, first)?;
    front_of(alloc, log, count)
}

/// How many entries the window has: the first pending one, and as many of those behind it as come before the next light one and have
/// room beside it.
fn window_count(alloc: Global, route: &Route, log: &Log, first: &Entry) -> Result<u32, AllocError>
    requires first { IsFirst first.now log.now.pending }
    requires log { IsLog log.now }
    ensures { IfOk result (IsWindowOf route.now log.now.pending) }
{
    let mut room = room_beside(first);
    let mut count = 1u32;
    while count < WINDOW {
        let Some(entry) = log.entry(count) else {
            return Ok(count);
        };
        let Some(left) = room_behind(room, entry) else {
            return Ok(count);
        };
        let light = is_light(alloc, route, entry)?;
        if light {
            return Ok(count);
        }
        room = left;
        count += 1;
    }
    Ok(count)
}

/// For how many effects, and for how many bytes of content, a store has still room.
#[derive(Clone, Copy)]
struct WindowRoom {
    effects: u64,
    content: u64,
}

/// The room that a store has beside its first entry.
fn room_beside(first: &Entry) -> WindowRoom
    requires { EffectsFit first.now.effects }
    ensures effects { length first.now.effects + result.effects ≡ max_effects }
    ensures content { result.content ≡ min (max_files - contents_size first.now.effects) max_beside }
{
    let effects = first.effects.as_slice();
    let content = (MAX_FILES as u64).saturating_sub(contents(effects));
    WindowRoom {
        effects: (MAX_EFFECTS as u64).saturating_sub(effects.len() as u64),
        content: content.min(MAX_BESIDE),
    }
}

/// The room behind one more entry; `None` where there is none for it.
fn room_behind(room: WindowRoom, entry: &Entry) -> Option<WindowRoom>
    requires { EffectsFit entry.now.effects }
    ensures { LeavesRoom room entry.now result }
{
    let effects = entry.effects.as_slice();
    let count = effects.len() as u64;
    let size = contents(effects);
    if count > room.effects || size > room.content {
        return None;
    }
    Some(WindowRoom {
        effects: room.effects - count,
        content: room.content - size,
    })
}

/// The bytes of all contents.
fn contents(effects: &[Effect]) -> u64
    ensures { result ≡ as_u64 (contents_size effects.now) }
{
    let mut size = 0u64;
    for effect in effects {
        size = size.saturating_add(effect.content_size());
    }
    size
}

/// The first pending entries, so many, as a store carries them.
fn front_of(alloc: Global, log: &Log, count: u32) -> Result<Parts, AllocError>
    ensures { IfOk result (λ parts. parts ≡ parts_of (take count log.now.pending)) }
{
    let mut parts = Parts::new(alloc);
    for i in 0..count {
        let Some(entry) = log.entry(i) else {
            return Ok(parts);
        };
        let part = part_of(entry)?;
        parts.push(part)?;
    }
    Ok(parts)
}

/// An entry as a store carries it.
fn part_of(entry: &Entry) -> Result<Part, AllocError>
    ensures { IfOk result (λ part. part ≡ part_of entry.now.effects entry.now.base) }
{
    Ok(Part {
        effects: entry.effects.copy()?,
        base: entry.base.copy()?,
    })
}

/// Whether an entry is light: there is a surrogate, a command made it, and the frame of its operation is shorter than that of a
/// store of it alone.
pub(crate) fn is_light(alloc: Global, route: &Route, entry: &Entry) -> Result<bool, AllocError>
    requires { ForEachClient (λ client. IsValid (store_alone client entry.now)) }
    ensures { IfOk result (λ light. ForEachClient (λ client. IsTrue light ↔ IsLightEntry client route.now entry.now)) }
{
    if route.surrogate.is_none() || entry.origin.is_none() {
        return Ok(false);
    }
    let size = operation_size(alloc, entry)?;
    Ok(size < store_size(&entry.effects, &entry.base))
}
