// What the folder's changes are for the log.
ghost use Rattle.std.specs.Prelude.{◌≡◌, ◌≢◌, not, filter, Ok, Err, IfOk, IfErr};
ghost use Rattle.cmd_capture.specs.Rows.{AreJobRows};
ghost use Rattle.folder_sides.specs.Sides.{AreSides};
ghost use Rattle.folder_sides.specs.Taking as rules;
ghost use Rattle.folder_sides.specs.declared.taking.TakeError.TheVariants.{Memory};

use crate::merging::woven;
use crate::rows::{are_same_rows, row_if};
use crate::sides::Sides;
use cmd_capture::JobRows;
use std::alloc::{AllocError, Global};
use thiserror::Error;
use vol_tree::{Effects, Path};
use work_area::changes;

/// Why a folder's changes are not logged.
#[derive(Clone, Copy, Debug, PartialEq, Eq, Error)]
pub enum TakeError {
    /// The log has what was not laid: it has to be laid first.
    #[error("the log has what was not laid")]
    NotLaid,
    #[error("out of memory")]
    Memory,
}

impl From<AllocError> for TakeError {
    ghost from_gives = { λ _ e. e ≡ Memory };

    fn from(_: AllocError) -> TakeError {
        TakeError::Memory
    }
}

/// Whether something that has no row stands at the path or above it.
fn is_left_out(sides: &Sides, path: &Path) -> bool
    ensures { result ≡ rules.is_left_out sides.now path.now }
{
    sides
        .beside
        .as_slice()
        .iter()
        .any(|other| path.names().starts_with(other.names()))
}

/// The rows here at which nothing is left out.
fn rows_here(alloc: Global, sides: &Sides) -> Result<JobRows, AllocError>
    ensures { IfOk result (λ rows. rows ≡ filter (λ row. not (rules.is_left_out sides.now row.path)) sides.now.here) }
{
    let mut rows = JobRows::new(alloc);
    for row in sides.here.as_slice() {
        rows.push_found(row_if(!is_left_out(sides, &row.path), row)?)?;
    }
    Ok(rows)
}

/// The rows of the log at which something is left out here.
fn rows_left_out(alloc: Global, sides: &Sides) -> Result<JobRows, AllocError>
    ensures { IfOk result (λ rows. rows ≡ filter (λ row. rules.is_left_out sides.now row.path) sides.now.logged) }
{
    let mut rows = JobRows::new(alloc);
    for row in sides.logged.as_slice() {
        rows.push_found(row_if(is_left_out(sides, &row.path), row)?)?;
    }
    Ok(rows)
}

/// The rows here, and those of the log wherever something is left out.
fn standing(alloc: Global, sides: &Sides) -> Result<JobRows, AllocError>
    requires { AreSides sides.now }
    ensures value { IfOk result (λ rows. rows ≡ rules.standing sides.now) }
    ensures rows { IfOk result AreJobRows }
{
    let here = rows_here(alloc, sides)?;
    let left_out = rows_left_out(alloc, sides)?;
    woven(alloc, here.as_slice(), left_out.as_slice())
}

/// The effects that log what stands here: what was changed in the folder since it was laid, and nothing of what is left out.
///
/// # Errors
///
/// `NotLaid` where the log's tree is not what was laid, since what others wrote would be taken back; `Memory` where memory runs out.
pub fn taken(alloc: Global, sides: &Sides) -> Result<Effects, TakeError>
    requires { AreSides sides.now }
    ensures ok { IfOk result (λ effects. rules.taken sides.now ≡ Ok effects) }
    ensures err { IfErr result (λ e. e ≢ TakeError.Memory → rules.taken sides.now ≡ Err e) }
{
    if !are_same_rows(sides.laid.as_slice(), sides.logged.as_slice()) {
        return Err(TakeError::NotLaid);
    }
    let rows = standing(alloc, sides)?;
    let effects = changes(alloc, &sides.logged, &rows)?;
    Ok(effects)
}
