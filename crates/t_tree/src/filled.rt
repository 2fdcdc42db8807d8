//! A tree at its most rows: each of them is found by few comparisons, none is added, and all are undone.
ghost use Rattle.vol_tree.specs.Undos.{CanUndoAll};

use crate::kept::{apply_kept, undo_last};
use std::alloc::{AllocError, Global};
use std::rt::HostRuntime;
use std::test::Fail;
use vol_tree::{Content, Effect, Path, Tree, TreeError, TryCopy, Undo};

/// Four letters, which stand for the digits of the number in base 16: the names rise with the numbers.
fn name_of(number: u16) -> [u8; 4] {
    let mut name = [b'a'; 4];
    name[0] += (number / 4096) as u8;
    name[1] += (number / 256 % 16) as u8;
    name[2] += (number / 16 % 16) as u8;
    name[3] += (number % 16) as u8;
    name
}

fn path(alloc: Global, text: &[u8]) -> Result<Path, Fail> {
    Ok(Path::read(alloc, text)?)
}

/// The path of a file in a folder, both named by their numbers.
fn path_in(alloc: Global, folder: u16, file: u16) -> Result<Path, Fail> {
    let mut text = Vec::from_slice(alloc, &name_of(folder))?;
    text.push(b'/')?;
    text.extend_from_slice(&name_of(file))?;
    path(alloc, &text)
}

/// Appends the paths of a folder and of its 255 files.
fn push_folder(alloc: Global, paths: &mut Vec<Path>, folder: u16) -> Result<(), Fail> {
    paths.push(path(alloc, &name_of(folder))?)?;
    for file in 0..255 {
        paths.push(path_in(alloc, folder, file)?)?;
    }
    Ok(())
}

/// The paths of 64 folders with 255 files each, each folder before its files.
fn full_paths(alloc: Global) -> Result<Vec<Path>, Fail> {
    let mut paths = Vec::new(alloc);
    for folder in 0..64 {
        push_folder(alloc, &mut paths, folder)?;
    }
    Ok(paths)
}

/// Makes a folder of a path of one name, and puts a file without bytes at another.
fn effect_at(alloc: Global, path: &Path) -> Result<Effect, AllocError> {
    let content = Content::of(alloc, b"")?;
    let path = path.copy()?;
    Ok(match path.depth() {
        1 => Effect::Make(path),
        _ => Effect::Put(path, content),
    })
}

/// Whether each path could be made or put.
fn are_filled(tree: &mut Tree, undos: &mut Vec<Undo>, paths: &[Path]) -> Result<bool, AllocError>
    requires { CanUndoAll undos.old.items tree.old }
    ensures { CanUndoAll undos.new.items tree.new }
{
    let alloc = tree.allocator();
    for path in paths {
        let effect = effect_at(alloc, path)?;
        let applied = apply_kept(tree, undos, &effect).is_ok();
        drop(effect);
        if !applied {
            return Ok(false);
        }
    }
    Ok(true)
}

/// Undoes all, the last first.
fn undo_each(tree: &mut Tree, undos: &mut Vec<Undo>)
    requires { CanUndoAll undos.old.items tree.old }
{
    for _ in 0..undos.len() {
        let _ = undo_last(tree, undos);
    }
}

/// The most names that were compared to find one of these paths, at each of which something stands.
fn most_compared(tree: &Tree, paths: &[Path]) -> Option<u32> {
    let mut most = 0;
    for path in paths {
        let (node, compared) = tree.find(path);
        if node.is_none() {
            return None;
        }
        most = compared.max(most);
    }
    Some(most)
}

/// Whether an effect is refused since there are 16,384 rows.
fn is_full(tree: &mut Tree, undos: &mut Vec<Undo>, effect: &Effect) -> bool
    requires { CanUndoAll undos.old.items tree.old }
    ensures { CanUndoAll undos.new.items tree.new }
{
    let applied = apply_kept(tree, undos, effect);
    let full = matches!(&applied, Err(TreeError::RowsFull(16_384)));
    drop(applied);
    full
}

/// Whether a tree has no row.
fn is_empty(tree: &Tree) -> Result<bool, AllocError> {
    let rows = tree.rows()?;
    let none = rows.len() == 0;
    drop(rows);
    Ok(none && tree.count() == 0)
}

/// Fills a tree at 16,384 paths, finds each of them by at most 32 names, cannot apply one effect more, and undoes all.
fn is_filled_and_emptied(
    tree: &mut Tree,
    undos: &mut Vec<Undo>,
    paths: &[Path],
    more: &Effect,
) -> Result<bool, AllocError>
    requires { CanUndoAll undos.old.items tree.old }
{
    let filled = are_filled(tree, undos, paths)? && tree.count() == 16_384;
    let full = is_full(tree, undos, more);
    let found = matches!(most_compared(tree, paths), Some(most) if most <= 32);
    undo_each(tree, undos);
    Ok(filled && full && found && is_empty(tree)?)
}

/// Whether a tree is filled at these paths, refuses this effect then, and is emptied.
fn is_filled_and_emptied_at(
    alloc: Global,
    paths: &[Path],
    more: &Effect,
) -> Result<bool, AllocError> {
    let (mut tree, mut undos) = (Tree::new(alloc), Vec::new(alloc));
    let outcome = is_filled_and_emptied(&mut tree, &mut undos, paths, more);
    drop(undos);
    drop(tree);
    outcome
}

/// The same with the making of the folder `more`.
fn holds_no_more(alloc: Global, paths: &[Path]) -> Result<bool, Fail> {
    let more = Effect::Make(path(alloc, b"more")?);
    let outcome = is_filled_and_emptied_at(alloc, paths, &more);
    drop(more);
    Ok(outcome?)
}

#[test]
fn finds_each_of_16384_paths(rt: HostRuntime) -> Result<(), Fail> {
    let paths = full_paths(rt.alloc())?;
    let outcome = holds_no_more(rt.alloc(), &paths);
    drop(paths);
    assert!(rt; outcome?);
    Ok(())
}
