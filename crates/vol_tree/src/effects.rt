//! Several effects in a row: what they touch, and how they are applied and undone together.
ghost use Rattle.std.specs.Prelude.{◌≡◌, ◌≢◌, IfOk, IfErr, OnOk, OnErr, Ok, Err};
ghost use Rattle.std.specs.List.{AllByRecursion};
ghost use Rattle.vol_tree.specs.Inside.{IsPushed};
ghost use Rattle.tree_values.specs.Tree.{apply, IsLegalEffect};
ghost use Rattle.tree_values.specs.Effects.{apply_all as applied_all};
ghost use Rattle.vol_tree.specs.Applying.{IsAllRefusal};
ghost use Rattle.vol_tree.specs.Undos.{undone_all, CanUndoAll};

use crate::tree::{Tree, Undo};
use thiserror::Error;
use tree_values::{Effect, Effects, TreeError};

/// Why several effects are not applied.
#[derive(Debug, Drop, Error)]
pub enum ApplyAllError {
    /// The index of the first effect that is refused, counted from 0, and its refusal.
    #[error("effect {0} is refused")]
    At(u32, TreeError),
    #[error("out of memory")]
    Memory,
}

/// Applies the effects in order, or none of them; gives the undo of each, in their order.
pub fn apply_all(tree: &mut Tree, effects: &Effects) -> Result<Vec<Undo>, ApplyAllError>
    ensures ok { OnOk result (applied_all 0 effects.now tree.old ≡ Ok tree.new) }
    ensures err { IfErr result (IsAllRefusal effects.now tree.old) }
    ensures unchanged { OnErr result (tree.new ≡ tree.old) }
    ensures legal { OnOk result (AllByRecursion IsLegalEffect effects.now) }
    ensures undoes { IfOk result (λ undos. undone_all undos.items tree.new ≡ tree.old) }
    ensures can_undo { IfOk result (λ undos. CanUndoAll undos.items tree.new) }
{
    let mut undos = Vec::new(tree.allocator());
    let mut i = 0;
    for effect in effects.as_slice() {
        if let Err(refusal) = apply_one(tree, &mut undos, effect) {
            undo_all(tree, undos);
            return Err(refused_at(i, refusal));
        }
        i += 1;
    }
    Ok(undos)
}

/// Undoes all, the last first. It takes no memory.
pub fn undo_all(tree: &mut Tree, mut undos: Vec<Undo>)
    requires { CanUndoAll undos.items tree.old }
    ensures { tree.new ≡ undone_all undos.items tree.old }
{
    while let Some(undo) = undos.pop() {
        tree.undo(undo);
    }
}

fn refused_at(i: u32, refusal: TreeError) -> ApplyAllError
    ensures { result ≢ ApplyAllError.Memory → (refusal ≢ TreeError.Memory) × (result ≡ ApplyAllError.At i refusal) }
{
    match refusal {
        TreeError::Memory => ApplyAllError::Memory,
        refusal => ApplyAllError::At(i, refusal),
    }
}

/// Applies an effect and keeps its undo; after a refusal both are as before.
fn apply_one(tree: &mut Tree, undos: &mut Vec<Undo>, effect: &Effect) -> Result<(), TreeError>
    ensures ok { OnOk result (apply effect.now tree.old ≡ Ok tree.new) }
    ensures err { IfErr result (λ e. e ≢ TreeError.Memory → apply effect.now tree.old ≡ Err e) }
    ensures legal { IsLegalEffect effect.now }
    ensures kept { OnOk result (IsPushed undos.old.items undos.new.items tree.old tree.new) }
    ensures tree_unchanged { OnErr result (tree.new ≡ tree.old) }
    ensures undos_unchanged { OnErr result (undos.new.items ≡ undos.old.items) }
{
    let undo = tree.apply(effect)?;
    match undos.push(undo) {
        Ok(()) => Ok(()),
        Err(refused) => {
            tree.undo(refused.value);
            Err(TreeError::Memory)
        }
    }
}
