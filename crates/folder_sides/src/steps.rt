// The steps by which a folder gets other rows.
ghost use Rattle.std.specs.Prelude.{◌≡◌, ◌++◌, [], reverse, IfOk, OnOk};
ghost use Rattle.std.specs.List.{filter_map};
ghost use Rattle.std.specs.Option.{option_copied};
ghost use Rattle.cmd_capture.specs.Rows.{JobRowsAreInOrder};
ghost use Rattle.folder_sides.specs.Sides.{AreSides, conflicts};
ghost use Rattle.folder_sides.specs.Steps as rules;

use crate::merging::merged;
use crate::rows::{has_kind, is_same, node_in};
use crate::sides::Sides;
use cmd_capture::JobRow;
use std::alloc::{AllocError, Global};
use vol_tree::{List, Node, Path, TryCopy};

/// What is to stand at a path, and what has to stand there before. A content and whether it may be run come in one step.
#[derive(Debug, Drop)]
pub struct Step {
    pub path: Path,
    /// What has to stand there, or nothing.
    pub before: Option<Node>,
    /// What is to stand there, or nothing.
    pub after: Option<Node>,
}

/// Steps, each of them behind those before it.
pub type Steps = List<Step>;

/// A copy of the node, where there is one.
fn copied(node: Option<&Node>) -> Result<Option<Node>, AllocError>
    ensures { IfOk result (λ copy. copy ≡ option_copied node.entry) }
{
    match node {
        Some(node) => Ok(Some(node.copy()?)),
        None => Ok(None),
    }
}

/// The step that takes the row away, where it is gone or gives way to another kind.
fn removal(after: &[JobRow], row: &JobRow) -> Result<Option<Step>, AllocError>
    requires { JobRowsAreInOrder after.now }
    ensures { IfOk result (λ found. found ≡ rules.removal after.now row.now) }
{
    if has_kind(&row.node, node_in(after, row.path.names())) {
        return Ok(None);
    }
    let path = row.path.copy()?;
    let before = Some(row.node.copy()?);
    Ok(Some(Step {
        path,
        before,
        after: None,
    }))
}

/// What is left of a node where one of another kind was taken away.
fn kept_for<'a>(node: &Node, old: Option<&'a Node>) -> Option<&'a Node>
    ensures { option_copied result ≡ rules.kept_for node.now (option_copied old.entry) }
{
    if has_kind(node, old) { old } else { None }
}

/// The step that puts the row, where it is new.
fn putting(before: &[JobRow], row: &JobRow) -> Result<Option<Step>, AllocError>
    requires { JobRowsAreInOrder before.now }
    ensures { IfOk result (λ found. found ≡ rules.putting before.now row.now) }
{
    let old = node_in(before, row.path.names());
    if is_same(Some(&row.node), old) {
        return Ok(None);
    }
    let path = row.path.copy()?;
    let before = copied(kept_for(&row.node, old))?;
    let after = Some(row.node.copy()?);
    Ok(Some(Step {
        path,
        before,
        after,
    }))
}

/// Adds the steps that take away what is gone, the last path first.
fn push_removals(steps: &mut Steps, before: &[JobRow], after: &[JobRow]) -> Result<(), AllocError>
    requires { JobRowsAreInOrder after.now }
    ensures { OnOk result (steps.new ≡ steps.old ++ filter_map (rules.removal after.now) (reverse before.now)) }
{
    let mut rest = before;
    while let Some((row, front)) = rest.split_last() {
        steps.push_found(removal(after, row)?)?;
        rest = front;
    }
    Ok(())
}

/// Adds the steps that put what is new.
fn push_puttings(steps: &mut Steps, before: &[JobRow], after: &[JobRow]) -> Result<(), AllocError>
    requires { JobRowsAreInOrder before.now }
    ensures { OnOk result (steps.new ≡ steps.old ++ filter_map (rules.putting before.now) after.now) }
{
    for row in after {
        steps.push_found(putting(before, row)?)?;
    }
    Ok(())
}

/// The steps that lay what others changed: first what is gone is taken away, and then what is new is put.
///
/// # Errors
///
/// Where memory runs out.
pub fn laying(alloc: Global, sides: &Sides) -> Result<Steps, AllocError>
    requires sides { AreSides sides.now }
    requires none { conflicts sides.now ≡ [] }
    ensures { IfOk result (λ steps. steps ≡ rules.laying sides.now) }
{
    let after = merged(alloc, sides)?;
    let mut steps = Steps::new(alloc);
    push_removals(&mut steps, sides.here.as_slice(), after.as_slice())?;
    push_puttings(&mut steps, sides.here.as_slice(), after.as_slice())?;
    Ok(steps)
}
