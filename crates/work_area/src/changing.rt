//! Change lists, and what they meet in a tree.

ghost use Rattle.std.specs.Prelude.{◌≡◌, ◌++◌, ◌∷◌, [], not, reverse, position, find, IfOk, OnOk};
ghost use Rattle.std.specs.List.{list_any, filter_map, flat_map};
ghost use Rattle.std.specs.Option.{option_copied};
ghost use Rattle.tree_values.specs.Tree.{children};
ghost use Rattle.file_paths.specs.Path.{path_cmp};
ghost use Rattle.cmd_capture.specs.Rows.{is_job_row_at, JobRowsAreInOrder, AreJobRows};
ghost use Rattle.work_area.specs.Changes as rules;
ghost use Rattle.work_area.specs.Changes.{changes, clash};

use crate::rows::{node_in, row_of};
use byte_fields::saturate_u32;
use cmd_capture::{Job, JobRow, JobRows};
use std::alloc::{AllocError, Global};
use std::cmp::Ordering;
use vol_tree::{Content, Effect, Effects, Node, Path, Tree, TryCopy, is_exec};

/// Whether both are folders, or both are files.
fn has_kind(node: &Node, other: Option<&Node>) -> bool
    ensures { result ≡ rules.has_kind node.now (option_copied other.entry) }
{
    match (node, other) {
        (Node::Folder, Some(Node::Folder)) => true,
        (Node::File { .. }, Some(Node::File { .. })) => true,
        _ => false,
    }
}

/// Whether both are folders, or files with one content.
fn has_content(node: &Node, other: Option<&Node>) -> bool
    ensures { result ≡ rules.has_content node.now (option_copied other.entry) }
{
    match (node, other) {
        (Node::Folder, Some(Node::Folder)) => true,
        (Node::File { content, .. }, Some(Node::File { content: other, .. })) => {
            content.bytes() == other.bytes()
        }
        _ => false,
    }
}

/// Whether it is a file that may be run where none could be, or may not where one could.
fn has_other_mode(node: &Node, old: Option<&Node>) -> bool
    ensures { result ≡ rules.has_other_mode node.now (option_copied old.entry) }
{
    match node {
        Node::Folder => false,
        Node::File { exec: true, .. } => !is_exec(old),
        Node::File { exec: false, .. } => is_exec(old),
    }
}

/// Whether the path of the row has no node there, or one of the other kind.
fn is_gone(after: &[JobRow], row: &JobRow) -> bool
    requires { JobRowsAreInOrder after.now }
    ensures { result ≡ rules.is_gone after.now row.now }
{
    !has_kind(&row.node, node_in(after, row.path.names()))
}

/// Whether the path of the row has no node there, one of the other kind, or a file with another content.
fn is_new(before: &[JobRow], row: &JobRow) -> bool
    requires { JobRowsAreInOrder before.now }
    ensures { result ≡ rules.is_new before.now row.now }
{
    !has_content(&row.node, node_in(before, row.path.names()))
}

/// The effect that makes what stands at the row's path.
fn making(row: &JobRow) -> Result<Effect, AllocError>
    ensures { IfOk result (λ effect. effect ≡ rules.making row.now) }
{
    let path = row.path.copy()?;
    match &row.node {
        Node::Folder => Ok(Effect::Make(path)),
        Node::File { content, .. } => Ok(Effect::Put(path, content.copy()?)),
    }
}

/// The removal of the row, where it is gone.
fn removal(after: &[JobRow], row: &JobRow) -> Result<Option<Effect>, AllocError>
    requires { JobRowsAreInOrder after.now }
    ensures { IfOk result (λ found. found ≡ rules.removal_of after.now row.now) }
{
    if !is_gone(after, row) {
        return Ok(None);
    }
    Ok(Some(Effect::Remove(row.path.copy()?)))
}

/// What makes the row, where it is new.
fn new_making(before: &[JobRow], row: &JobRow) -> Result<Option<Effect>, AllocError>
    requires { JobRowsAreInOrder before.now }
    ensures { IfOk result (λ found. found ≡ rules.making_of before.now row.now) }
{
    if !is_new(before, row) {
        return Ok(None);
    }
    Ok(Some(making(row)?))
}

/// Whether the row's file may be run otherwise than what stands there once it has its content.
fn is_moded(before: &[JobRow], row: &JobRow) -> bool
    requires { JobRowsAreInOrder before.now }
    ensures { result ≡ rules.is_moded before.now row.now }
{
    has_other_mode(&row.node, node_in(before, row.path.names()))
}

/// What lets the row's file be run or not, where it may otherwise.
fn new_mode(before: &[JobRow], row: &JobRow) -> Result<Option<Effect>, AllocError>
    requires { JobRowsAreInOrder before.now }
    ensures { IfOk result (λ found. found ≡ rules.mode_of before.now row.now) }
{
    if !is_moded(before, row) {
        return Ok(None);
    }
    let exec = is_exec(Some(&row.node));
    Ok(Some(Effect::Mode(row.path.copy()?, exec)))
}

/// Adds the removals of what is gone, the last path first.
fn push_removals(
    effects: &mut Effects,
    before: &[JobRow],
    after: &[JobRow],
) -> Result<(), AllocError>
    requires { JobRowsAreInOrder after.now }
    ensures { OnOk result (effects.new ≡ effects.old ++ filter_map (rules.removal_of after.now) (reverse before.now)) }
{
    let mut rest = before;
    while let Some((row, front)) = rest.split_last() {
        effects.push_found(removal(after, row)?)?;
        rest = front;
    }
    Ok(())
}

/// Adds what makes the new rows, and whether their files may be run.
fn push_makings(
    effects: &mut Effects,
    before: &[JobRow],
    after: &[JobRow],
) -> Result<(), AllocError>
    requires { JobRowsAreInOrder before.now }
    ensures { OnOk result (effects.new ≡ effects.old ++ flat_map (rules.makings_of before.now) after.now) }
{
    for row in after {
        effects.push_found(new_making(before, row)?)?;
        effects.push_found(new_mode(before, row)?)?;
    }
    Ok(())
}

/// The effects that make the rows `after` of the rows `before`.
pub fn changes(alloc: Global, before: &JobRows, after: &JobRows) -> Result<Effects, AllocError>
    requires before { AreJobRows before.now }
    requires after { AreJobRows after.now }
    ensures { IfOk result (λ effects. effects ≡ changes before.now after.now) }
{
    let mut effects = Effects::new(alloc);
    push_removals(&mut effects, before.as_slice(), after.as_slice())?;
    push_makings(&mut effects, before.as_slice(), after.as_slice())?;
    Ok(effects)
}

/// Whether the job has a row at the path.
#[tactic(auto, using(crate::proofs::Searching::any_is_found))]
fn has_row(job: &Job, path: &Path) -> bool
    requires { JobRowsAreInOrder job.now.rows }
    ensures { result ≡ rules.has_row job.now.rows path.now }
{
    row_of(job.rows().as_slice(), path.names()).is_some()
}

/// Whether something stands at the path that the job has not.
fn is_taken(tree: &Tree, job: &Job, path: &Path) -> bool
    requires { JobRowsAreInOrder job.now.rows }
    ensures { result ≡ rules.is_taken tree.now job.now.rows path.now }
{
    tree.get(path).is_some() && !has_row(job, path)
}

/// How the path of a row compares with that of a name in a folder.
fn order_of_child(row: &JobRow, folder: &[Content], name: &Content) -> Ordering
    ensures { result ≡ path_cmp row.now.path (folder.now ++ name.now ∷ []) }
{
    let names = row.path.names();
    let (front, rest) = names.split_at(names.len().min(folder.len()));
    match rest.split_first() {
        Some((first, more)) => front
            .cmp(&folder)
            .then(first.cmp(name))
            .then(more.len().cmp(&0)),
        None => front.cmp(&folder).then(Ordering::Less),
    }
}

/// Whether the job has a row of this name in the folder.
fn has_child(job: &Job, folder: &Path, name: &Content) -> bool
    requires { JobRowsAreInOrder job.now.rows }
    ensures { result ≡ rules.has_row job.now.rows (folder.now ++ name.now ∷ []) }
{
    job.rows()
        .as_slice()
        .binary_search_by(|row| order_of_child(row, folder.names(), name))
        .is_ok()
}

/// Whether something stands in the folder that the job has not.
#[tactic(auto, using(crate::proofs::Names::none_left, crate::proofs::Names::found_here, crate::proofs::Names::none_here, crate::proofs::Names::all_seen, crate::proofs::Names::children_few))]
fn has_foreign_child(tree: &Tree, job: &Job, folder: &Path) -> bool
    requires { JobRowsAreInOrder job.now.rows }
    ensures { result ≡ list_any (λ name. not (rules.has_row job.now.rows (folder.now ++ name ∷ []))) (children tree.now folder.now) }
{
    for i in 0..tree.count() {
        let Some(name) = tree.child(folder, i) else {
            return false;
        };
        if !has_child(job, folder, name) {
            return true;
        }
    }
    false
}

fn clashes(tree: &Tree, job: &Job, effect: &Effect) -> bool
    requires { JobRowsAreInOrder job.now.rows }
    ensures { result ≡ rules.clashes tree.now job.now.rows effect.now }
{
    match effect {
        Effect::Make(path) => is_taken(tree, job, path),
        Effect::Put(path, _) => is_taken(tree, job, path),
        Effect::Remove(path) => has_foreign_child(tree, job, path),
        Effect::Move(..) | Effect::Mode(..) => false,
    }
}

fn first_clash(tree: &Tree, job: &Job, effects: &[Effect]) -> Option<usize>
    requires { JobRowsAreInOrder job.now.rows }
    ensures { result ≡ position (rules.clashes tree.now job.now.rows) effects.now }
{
    effects.iter().position(|effect| clashes(tree, job, effect))
}

/// The first effect that makes what stands in the tree beside the job, or removes a folder of such. It takes no memory.
pub fn clashing<'a>(tree: &Tree, job: &Job, effects: &'a Effects) -> Option<&'a Effect>
    requires { AreJobRows job.now.rows }
    ensures { option_copied result ≡ find (rules.clashes tree.now job.now.rows) effects.now }
{
    effects
        .as_slice()
        .iter()
        .find(|effect| clashes(tree, job, effect))
}

/// The path that an effect touches first.
pub fn first_path(effect: &Effect) -> &Path
    ensures { result.now ≡ rules.first_path effect.now }
{
    match effect {
        Effect::Make(path)
        | Effect::Put(path, _)
        | Effect::Remove(path)
        | Effect::Move(path, _)
        | Effect::Mode(path, _) => path,
    }
}

/// The first effect, counted from 0, that makes what stands in the tree beside the job, or removes a folder of such. It
/// takes no memory.
pub fn clash(tree: &Tree, job: &Job, effects: &Effects) -> Option<u32>
    requires { AreJobRows job.now.rows }
    ensures { result ≡ clash tree.now job.now.rows effects.now }
{
    let i = first_clash(tree, job, effects.as_slice())?;
    Some(saturate_u32(i))
}
