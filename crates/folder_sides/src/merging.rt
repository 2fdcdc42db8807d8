// What the folder is once what others changed is laid.
ghost use Rattle.std.specs.Prelude.{◌≡◌, ◌++◌, [], not, filter, cond, Some, None, IfOk, OnOk};
ghost use Rattle.std.specs.Ordering.{is_lt, is_gt};
ghost use Rattle.file_paths.specs.Path.{path_cmp};
ghost use Rattle.cmd_capture.specs.Rows.{JobRowsAreInOrder, AreJobRows};
ghost use Rattle.folder_sides.specs.Merging as rules;
ghost use Rattle.folder_sides.specs.Sides.{AreSides, conflicts};

use crate::ends::End;
use crate::rows::row_if;
use crate::sides::{Sides, end_of};
use cmd_capture::{JobRow, JobRows};
use std::alloc::{AllocError, Global};
use std::cmp::Ordering;
use vol_tree::{Path, TryCopy};

/// Whether the path has what stands here.
fn is_left(sides: &Sides, path: &Path) -> bool
    requires { AreSides sides.now }
    ensures { result ≡ rules.is_left sides.now path.now }
{
    match end_of(sides, path) {
        End::Own | End::Both => true,
        End::Same | End::Lay => false,
    }
}

/// The rows here that are left.
fn rows_left(alloc: Global, sides: &Sides) -> Result<JobRows, AllocError>
    requires { AreSides sides.now }
    ensures { IfOk result (λ rows. rows ≡ filter (λ row. rules.is_left sides.now row.path) sides.now.here) }
{
    let mut rows = JobRows::new(alloc);
    for row in sides.here.as_slice() {
        rows.push_found(row_if(is_left(sides, &row.path), row)?)?;
    }
    Ok(rows)
}

/// The rows of the log at all other paths.
fn rows_laid(alloc: Global, sides: &Sides) -> Result<JobRows, AllocError>
    requires { AreSides sides.now }
    ensures { IfOk result (λ rows. rows ≡ filter (λ row. not (rules.is_left sides.now row.path)) sides.now.logged) }
{
    let mut rows = JobRows::new(alloc);
    for row in sides.logged.as_slice() {
        rows.push_found(row_if(!is_left(sides, &row.path), row)?)?;
    }
    Ok(rows)
}

/// Adds the rows below the path, and lends those above it.
fn push_below<'a>(
    rows: &mut JobRows,
    others: &'a [JobRow],
    path: &Path,
) -> Result<&'a [JobRow], AllocError>
    requires { JobRowsAreInOrder others.now }
    ensures rows { OnOk result (rows.new ≡ rows.old ++ filter (λ other. is_lt (path_cmp other.path path.now)) others.now) }
    ensures rest { IfOk result (λ rest. rest.now ≡ filter (λ other. is_gt (path_cmp other.path path.now)) others.now) }
{
    let mut rest = others;
    while let Some((other, more)) = rest.split_first() {
        match other.path.cmp(path) {
            Ordering::Less => rows.push(other.copy()?)?,
            Ordering::Equal => return Ok(more),
            Ordering::Greater => return Ok(rest),
        }
        rest = more;
    }
    Ok(rest)
}

/// Adds all these rows.
fn push_all(rows: &mut JobRows, others: &[JobRow]) -> Result<(), AllocError>
    ensures { OnOk result (rows.new ≡ rows.old ++ others.now) }
{
    for other in others {
        rows.push(other.copy()?)?;
    }
    Ok(())
}

/// The rows of the one, and those of the other at other paths, in the order of the paths.
pub(crate) fn woven(
    alloc: Global,
    rows: &[JobRow],
    others: &[JobRow],
) -> Result<JobRows, AllocError>
    requires { JobRowsAreInOrder others.now }
    ensures { IfOk result (λ made. made ≡ rules.woven rows.now others.now) }
{
    let mut made = JobRows::new(alloc);
    let mut left = rows;
    let mut rest = others;
    while let Some((row, more)) = left.split_first() {
        rest = push_below(&mut made, rest, &row.path)?;
        made.push(row.copy()?)?;
        left = more;
    }
    push_all(&mut made, rest)?;
    Ok(made)
}

/// What the folder is once what others changed is laid: the rows here that are the user's own, and those of the log at all other paths.
///
/// # Errors
///
/// Where memory runs out.
pub fn merged(alloc: Global, sides: &Sides) -> Result<JobRows, AllocError>
    requires sides { AreSides sides.now }
    requires none { conflicts sides.now ≡ [] }
    ensures value { IfOk result (λ rows. rows ≡ rules.merged sides.now) }
    ensures rows { IfOk result AreJobRows }
{
    let left = rows_left(alloc, sides)?;
    let laid = rows_laid(alloc, sides)?;
    woven(alloc, left.as_slice(), laid.as_slice())
}
