//! Effects that are applied with their undos kept, and undone from the last to the first.
ghost use Rattle.std.specs.Prelude.{◌<◌, length, IsTrue};
ghost use Rattle.vol_tree.specs.Undos.{CanUndoAll};

use vol_tree::{Effect, Tree, TreeError, Undo};

/// Applies an effect and keeps its undo, or says why it is refused.
pub fn apply_kept(tree: &mut Tree, undos: &mut Vec<Undo>, effect: &Effect) -> Result<(), TreeError>
    requires { CanUndoAll undos.old.items tree.old }
    ensures { CanUndoAll undos.new.items tree.new }
{
    let undo = tree.apply(effect)?;
    match undos.push(undo) {
        Ok(()) => Ok(()),
        Err(refused) => {
            tree.undo(refused.value);
            Err(TreeError::Memory)
        }
    }
}

/// Undoes the effect that was applied last, if there is one.
pub fn undo_last(tree: &mut Tree, undos: &mut Vec<Undo>) -> bool
    requires { CanUndoAll undos.old.items tree.old }
    ensures possible { CanUndoAll undos.new.items tree.new }
    ensures fewer { IsTrue result → length undos.new.items < length undos.old.items }
{
    match undos.pop() {
        Some(undo) => {
            tree.undo(undo);
            true
        }
        None => false,
    }
}
