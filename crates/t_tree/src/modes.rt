//! Whether a file may be run: what effects make of that, and what their undos put back.
ghost use Rattle.vol_tree.specs.Undos.{CanUndoAll};

use crate::kept::{apply_kept, undo_last};
use std::alloc::{AllocError, Global};
use std::rt::HostRuntime;
use std::test::Fail;
use vol_tree::{Content, Effect, Node, Path, Tree, TreeError, Undo};

/// Whether the file at the path may be run; none where no file stands there.
fn mode_at(tree: &Tree, path: &Path) -> Option<bool> {
    match tree.get(path) {
        Some(Node::File { exec, .. }) => Some(*exec),
        _ => None,
    }
}

/// Puts one byte at the path.
fn put(tree: &mut Tree, undos: &mut Vec<Undo>, path: &Path, byte: u8) -> Result<bool, AllocError>
    requires { CanUndoAll undos.old.items tree.old }
    ensures { CanUndoAll undos.new.items tree.new }
{
    let content = Content::of(tree.allocator(), &[byte])?;
    let effect = Effect::Put(path.copy()?, content);
    let applied = apply_kept(tree, undos, &effect).is_ok();
    drop(effect);
    Ok(applied)
}

/// Lets the file at the path be run.
fn allow(tree: &mut Tree, undos: &mut Vec<Undo>, path: &Path) -> Result<bool, AllocError>
    requires { CanUndoAll undos.old.items tree.old }
    ensures { CanUndoAll undos.new.items tree.new }
{
    let effect = Effect::Mode(path.copy()?, true);
    let applied = apply_kept(tree, undos, &effect).is_ok();
    drop(effect);
    Ok(applied)
}

/// Moves what stands at the path.
fn move_on(
    tree: &mut Tree,
    undos: &mut Vec<Undo>,
    from: &Path,
    to: &Path,
) -> Result<bool, AllocError>
    requires { CanUndoAll undos.old.items tree.old }
    ensures { CanUndoAll undos.new.items tree.new }
{
    let effect = Effect::Move(from.copy()?, to.copy()?);
    let applied = apply_kept(tree, undos, &effect).is_ok();
    drop(effect);
    Ok(applied)
}

/// Whether a file that is put may be run then, when it was let be run, and when it is put anew; and once these two are undone.
fn put_and_undone(
    tree: &mut Tree,
    undos: &mut Vec<Undo>,
    path: &Path,
) -> Result<[Option<bool>; 5], AllocError>
    requires { CanUndoAll undos.old.items tree.old }
{
    let _ = put(tree, undos, path, b'x')?;
    let new = mode_at(tree, path);
    let _ = allow(tree, undos, path)?;
    let allowed = mode_at(tree, path);
    let _ = put(tree, undos, path, b'y')?;
    let written = mode_at(tree, path);
    let _ = undo_last(tree, undos);
    let once = mode_at(tree, path);
    let _ = undo_last(tree, undos);
    Ok([new, allowed, written, once, mode_at(tree, path)])
}

/// Whether a file may be run where it was moved to, and where it stands again once that is undone.
fn moved_and_undone(
    tree: &mut Tree,
    undos: &mut Vec<Undo>,
    paths: (&Path, &Path),
) -> Result<[Option<bool>; 3], AllocError>
    requires { CanUndoAll undos.old.items tree.old }
{
    let (from, to) = paths;
    let _ = put(tree, undos, from, b'x')?;
    let _ = allow(tree, undos, from)?;
    let _ = move_on(tree, undos, from, to)?;
    let (there, left) = (mode_at(tree, to), mode_at(tree, from));
    let _ = undo_last(tree, undos);
    Ok([there, left, mode_at(tree, from)])
}

fn put_and_undone_anew(alloc: Global) -> Result<[Option<bool>; 5], Fail> {
    let path = Path::read(alloc, b"f")?;
    let (mut tree, mut undos) = (Tree::new(alloc), Vec::new(alloc));
    let modes = put_and_undone(&mut tree, &mut undos, &path);
    drop(undos);
    drop(tree);
    drop(path);
    Ok(modes?)
}

fn moved_and_undone_anew(alloc: Global) -> Result<[Option<bool>; 3], Fail> {
    let (from, to) = (Path::read(alloc, b"f")?, Path::read(alloc, b"g")?);
    let (mut tree, mut undos) = (Tree::new(alloc), Vec::new(alloc));
    let modes = moved_and_undone(&mut tree, &mut undos, (&from, &to));
    drop(undos);
    drop(tree);
    drop(to);
    drop(from);
    Ok(modes?)
}

#[test]
fn what_is_written_leaves_the_mode(rt: HostRuntime) -> Result<(), Fail> {
    let modes = put_and_undone_anew(rt.alloc())?;
    assert!(rt; modes == [Some(false), Some(true), Some(true), Some(true), Some(false)]);
    Ok(())
}

#[test]
fn what_is_moved_takes_its_mode_with_it(rt: HostRuntime) -> Result<(), Fail> {
    assert!(rt; moved_and_undone_anew(rt.alloc())? == [Some(true), None, Some(true)]);
    Ok(())
}

/// Why the path cannot be let be run: 1 where it is the root, 2 where nothing stands there, 3 where it is a folder, and else 0.
fn refusal(tree: &mut Tree, path: &Path) -> Result<u8, AllocError> {
    let effect = Effect::Mode(path.copy()?, true);
    let applied = tree.apply(&effect);
    drop(effect);
    let why = match &applied {
        Err(TreeError::RootFixed) => 1,
        Err(TreeError::Missing(_)) => 2,
        Err(TreeError::IsFolder(_)) => 3,
        _ => 0,
    };
    drop(applied);
    Ok(why)
}

fn make(tree: &mut Tree, path: &Path) -> Result<bool, AllocError> {
    let effect = Effect::Make(path.copy()?);
    let made = tree.apply(&effect);
    drop(effect);
    let is_made = made.is_ok();
    drop(made);
    Ok(is_made)
}

/// The refusals of the root, of a path at which nothing stands, and of the same path once a folder stands there.
fn refusals(tree: &mut Tree, root: &Path, path: &Path) -> Result<[u8; 3], AllocError> {
    let (fixed, missing) = (refusal(tree, root)?, refusal(tree, path)?);
    let _ = make(tree, path)?;
    Ok([fixed, missing, refusal(tree, path)?])
}

fn refusals_anew(alloc: Global) -> Result<[u8; 3], Fail> {
    let (root, path) = (Path::root(alloc), Path::read(alloc, b"f")?);
    let mut tree = Tree::new(alloc);
    let refusals = refusals(&mut tree, &root, &path);
    drop(tree);
    drop(path);
    drop(root);
    Ok(refusals?)
}

#[test]
fn only_files_have_a_mode(rt: HostRuntime) -> Result<(), Fail> {
    assert!(rt; refusals_anew(rt.alloc())? == [1, 2, 3]);
    Ok(())
}
