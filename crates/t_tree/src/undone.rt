//! Undos, which no line of a session makes: a tree comes back through what it was.
ghost use Rattle.vol_tree.specs.Undos.{CanUndoAll};

use crate::kept::{apply_kept, undo_last};
use std::alloc::{AllocError, Global};
use std::rt::HostRuntime;
use std::test::Fail;
use vol_tree::{Content, Effect, Path, Tree, Undo};

/// The texts of the paths that are tried.
const TEXTS: [&[u8]; 11] = [
    b"", b"a", b"a/a", b"a/a/a", b"a/a/b", b"a/b", b"a-", b"a-/a", b"b", b"b/a", b"c",
];

/// A linear congruential generator; its upper bits are used.
#[derive(Clone, Copy)]
struct Random {
    state: u64,
}

impl Random {
    /// Any number of 0 to 255.
    fn byte(&mut self) -> u8 {
        let state = self.state.wrapping_mul(6_364_136_223_846_793_005);
        self.state = state.wrapping_add(1_442_695_040_888_963_407);
        self.state.to_be_bytes()[0]
    }

    /// Any of the texts.
    fn text(&mut self) -> &'static [u8] {
        TEXTS[usize::from(self.byte() % 11)]
    }
}

fn path(alloc: Global, text: &[u8]) -> Result<Path, AllocError> {
    match Path::read(alloc, text) {
        Ok(path) => Ok(path),
        Err(refused) => {
            drop(refused);
            Err(AllocError)
        }
    }
}

fn put(alloc: Global, text: &[u8], byte: u8) -> Result<Effect, AllocError> {
    let path = path(alloc, text)?;
    let content = Content::of(alloc, &[byte])?;
    Ok(Effect::Put(path, content))
}

fn move_of(alloc: Global, from: &[u8], to: &[u8]) -> Result<Effect, AllocError> {
    let from = path(alloc, from)?;
    let to = path(alloc, to)?;
    Ok(Effect::Move(from, to))
}

/// Any effect; a file has one byte.
fn effect(alloc: Global, random: &mut Random) -> Result<Effect, AllocError> {
    let (kind, byte) = (random.byte() % 5, random.byte());
    let (first, second) = (random.text(), random.text());
    match kind {
        0 => Ok(Effect::Make(path(alloc, first)?)),
        1 => put(alloc, first, byte),
        2 => Ok(Effect::Remove(path(alloc, first)?)),
        3 => Ok(Effect::Mode(path(alloc, first)?, byte % 2 == 1)),
        _ => move_of(alloc, first, second),
    }
}

/// The spelling of the tree's rows.
fn spelled(tree: &Tree) -> Result<Vec<u8>, AllocError> {
    let mut out = Vec::new(tree.allocator());
    tree.spell_rows(&mut out)?;
    Ok(out)
}

/// Whether the tree's rows are spelled so.
fn is_spelled(tree: &Tree, rows: &[u8]) -> Result<bool, AllocError> {
    let found = spelled(tree)?;
    let same = found.as_slice() == rows;
    drop(found);
    Ok(same)
}

/// Applies an effect; whether it is not refused.
fn is_applied(
    tree: &mut Tree,
    undos: &mut Vec<Undo>,
    random: &mut Random,
) -> Result<bool, AllocError>
    requires { CanUndoAll undos.old.items tree.old }
    ensures { CanUndoAll undos.new.items tree.new }
{
    let effect = effect(tree.allocator(), random)?;
    let applied = apply_kept(tree, undos, &effect).is_ok();
    drop(effect);
    Ok(applied)
}

/// Applies random effects, and keeps what the rows were before each that is not refused.
fn go_on(
    tree: &mut Tree,
    undos: &mut Vec<Undo>,
    before: &mut Vec<Vec<u8>>,
) -> Result<(), AllocError>
    requires { CanUndoAll undos.old.items tree.old }
    ensures { CanUndoAll undos.new.items tree.new }
{
    let mut random = Random { state: 3 };
    for _ in 0..1_000 {
        let rows = spelled(tree)?;
        if is_applied(tree, undos, &mut random)? {
            before.push(rows)?;
        }
    }
    Ok(())
}

/// Undoes all, the last first; whether the rows are each time what they were.
fn go_back(
    tree: &mut Tree,
    undos: &mut Vec<Undo>,
    before: &mut Vec<Vec<u8>>,
) -> Result<bool, AllocError>
    requires { CanUndoAll undos.old.items tree.old }
{
    for _ in 0..undos.len() {
        let _ = undo_last(tree, undos);
        let rows = before.pop().unwrap_or(Vec::new(tree.allocator()));
        let same = is_spelled(tree, &rows);
        drop(rows);
        if !same? {
            return Ok(false);
        }
    }
    Ok(before.is_empty() && tree.count() == 0)
}

/// How many effects were applied, and whether the tree came back through what it was.
fn there_and_back(tree: &mut Tree, undos: &mut Vec<Undo>) -> Result<(usize, bool), AllocError>
    requires { CanUndoAll undos.old.items tree.old }
{
    let mut before = Vec::new(tree.allocator());
    let gone = go_on(tree, undos, &mut before);
    let count = before.len();
    let back = go_back(tree, undos, &mut before);
    drop(before);
    gone?;
    Ok((count, back?))
}

#[test]
fn random_effects_are_undone(rt: HostRuntime) -> Result<(), Fail> {
    let (mut tree, mut undos) = (Tree::new(rt.alloc()), Vec::new(rt.alloc()));
    let told = there_and_back(&mut tree, &mut undos);
    drop(undos);
    drop(tree);
    assert!(rt; matches!(told?, (count, true) if count > 100));
    Ok(())
}
