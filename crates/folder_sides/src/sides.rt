// Three sides of a folder.
ghost use Rattle.std.specs.Prelude.{◌≡◌, cond, Some, None, IfOk, OnOk};
ghost use Rattle.std.specs.List.{list_any};
ghost use Rattle.std.specs.Option.{option_copied};
ghost use Rattle.file_paths.specs.Path as paths;
ghost use Rattle.tree_values.specs.Tree.{is_folder_node};
ghost use Rattle.cmd_capture.specs.Rows as rows;
ghost use Rattle.folder_sides.specs.Sides as rules;
ghost use Rattle.folder_sides.specs.Sides.{AreSides};

use crate::ends::End;
use crate::rows::{is_same, node_in};
use cmd_capture::JobRows;
use std::alloc::{AllocError, Global};
use vol_tree::{Node, Path, Paths, TryCopy};

/// What a folder was when it was last as the log's tree, what stands in it, and what the log's tree has.
#[derive(Debug, Drop)]
pub struct Sides {
    /// What was laid last.
    pub laid: JobRows,
    /// What stands here.
    pub here: JobRows,
    /// What the log's tree has.
    pub logged: JobRows,
    /// Where something stands here that has no row: what is left out, or can be no node.
    pub beside: Paths,
}

/// Who changed what was laid. A removal gives way to a change.
fn end_by(laid: Option<&Node>, here: Option<&Node>, logged: Option<&Node>) -> End
    ensures { result ≡ rules.end_by (option_copied laid.entry) (option_copied here.entry) (option_copied logged.entry) }
{
    if is_same(here, logged) {
        End::Same
    } else if is_same(here, laid) {
        End::Lay
    } else if is_same(logged, laid) {
        End::Own
    } else if here.is_none() {
        End::Lay
    } else if logged.is_none() {
        End::Own
    } else {
        End::Both
    }
}

/// What becomes of a path, whatever lies below it.
fn end_alone(sides: &Sides, path: &Path) -> End
    requires { AreSides sides.now }
    ensures { result ≡ rules.end_alone sides.now path.now }
{
    let laid = node_in(sides.laid.as_slice(), path.names());
    let here = node_in(sides.here.as_slice(), path.names());
    let logged = node_in(sides.logged.as_slice(), path.names());
    end_by(laid, here, logged)
}

/// Whether the path lies deeper in the folder.
fn is_below(path: &Path, folder: &Path) -> bool
    ensures { result ≡ rules.is_below path.now folder.now }
{
    path.names().starts_with(folder.names()) && folder.names().len() < path.names().len()
}

/// Whether the user has something of his own at the path, below the folder.
fn is_own_below(sides: &Sides, folder: &Path, path: &Path) -> bool
    requires { AreSides sides.now }
    ensures { result ≡ rules.is_own_below sides.now folder.now path.now }
{
    is_below(path, folder) && matches!(end_alone(sides, path), End::Own)
}

/// Whether others have something at the path that is to be laid, below the folder.
fn is_laid_below(sides: &Sides, folder: &Path, path: &Path) -> bool
    requires { AreSides sides.now }
    ensures { result ≡ rules.is_laid_below sides.now folder.now path.now }
{
    is_below(path, folder) && matches!(end_alone(sides, path), End::Lay)
}

/// Whether a folder stands there.
fn is_folder(node: Option<&Node>) -> bool
    ensures { result ≡ is_folder_node (option_copied node.entry) }
{
    matches!(node, Some(Node::Folder))
}

/// Whether the user has something of his own below the path.
fn has_own_below(sides: &Sides, path: &Path) -> bool
    requires { AreSides sides.now }
    ensures { result ≡ list_any (λ row. rules.is_own_below sides.now path.now row.path) sides.now.here }
{
    let rows = sides.here.as_slice();
    rows.iter().any(|row| is_own_below(sides, path, &row.path))
}

/// Whether something that has no row stands below the path.
fn has_other_below(sides: &Sides, path: &Path) -> bool
    ensures { result ≡ list_any (λ other. rules.is_below other path.now) sides.now.beside }
{
    let others = sides.beside.as_slice();
    others.iter().any(|other| is_below(other, path))
}

/// Whether others have something that is to be laid below the path.
fn has_laid_below(sides: &Sides, path: &Path) -> bool
    requires { AreSides sides.now }
    ensures { result ≡ list_any (λ row. rules.is_laid_below sides.now path.now row.path) sides.now.logged }
{
    let rows = sides.logged.as_slice();
    rows.iter().any(|row| is_laid_below(sides, path, &row.path))
}

/// Whether it is a folder here, with something in it that is the user's own or has no row.
fn stays_in(sides: &Sides, path: &Path) -> bool
    requires { AreSides sides.now }
    ensures { result ≡ rules.stays_in sides.now path.now }
{
    is_folder(node_in(sides.here.as_slice(), path.names()))
        && (has_own_below(sides, path) || has_other_below(sides, path))
}

/// Whether it is a folder of the log, with something in it that is to be laid.
fn comes_in(sides: &Sides, path: &Path) -> bool
    requires { AreSides sides.now }
    ensures { result ≡ rules.comes_in sides.now path.now }
{
    is_folder(node_in(sides.logged.as_slice(), path.names())) && has_laid_below(sides, path)
}

/// Whether the two paths are one.
fn is_same_path(other: &Path, path: &Path) -> bool
    ensures { result ≡ paths.is_same_path other.now path.now }
{
    other.cmp(path).is_eq()
}

/// Whether something that has no row stands there.
fn is_taken(sides: &Sides, path: &Path) -> bool
    ensures { result ≡ rules.is_taken sides.now path.now }
{
    let others = sides.beside.as_slice();
    others.iter().any(|other| is_same_path(other, path))
}

/// What becomes of a path where nothing stands that has no row.
fn end_within(sides: &Sides, path: &Path) -> End
    requires { AreSides sides.now }
    ensures { result ≡ rules.end_within (rules.end_alone sides.now path.now) (rules.stays_in sides.now path.now)
        (rules.comes_in sides.now path.now) (rows.node_in sides.now.here path.now) (rows.node_in sides.now.logged path.now) }
{
    match end_alone(sides, path) {
        End::Lay if stays_in(sides, path) => {
            if node_in(sides.logged.as_slice(), path.names()).is_some() {
                End::Both
            } else {
                End::Own
            }
        }
        End::Own if comes_in(sides, path) => {
            if node_in(sides.here.as_slice(), path.names()).is_some() {
                End::Both
            } else {
                End::Lay
            }
        }
        end => end,
    }
}

/// What becomes of a path.
pub fn end_of(sides: &Sides, path: &Path) -> End
    requires { AreSides sides.now }
    ensures { result ≡ rules.end_of sides.now path.now }
{
    if is_taken(sides, path) && node_in(sides.logged.as_slice(), path.names()).is_some() {
        return End::Both;
    }
    end_within(sides, path)
}

/// A copy of the path, where both are changes there.
fn conflict_at(sides: &Sides, path: &Path) -> Result<Option<Path>, AllocError>
    requires { AreSides sides.now }
    ensures { IfOk result (λ found. found ≡ rules.conflict_at sides.now path.now) }
{
    match end_of(sides, path) {
        End::Both => Ok(Some(path.copy()?)),
        End::Same | End::Lay | End::Own => Ok(None),
    }
}

/// The paths at which both are changes: what stands there has to go beside before anything is laid.
///
/// # Errors
///
/// Where memory runs out.
pub fn conflicts(alloc: Global, sides: &Sides) -> Result<Paths, AllocError>
    requires { AreSides sides.now }
    ensures { IfOk result (λ paths. paths ≡ rules.conflicts sides.now) }
{
    let mut paths = Paths::new(alloc);
    for row in sides.here.as_slice() {
        paths.push_found(conflict_at(sides, &row.path)?)?;
    }
    for path in sides.beside.as_slice() {
        paths.push_found(conflict_at(sides, path)?)?;
    }
    Ok(paths)
}
