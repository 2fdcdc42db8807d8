//! The legal rows of an outcome.

ghost use Rattle.std.specs.Prelude.{◌≡◌, find, IfOk, IfErr, OnOk};
ghost use Rattle.std.specs.Option.{option_copied};
ghost use Rattle.std.specs.List.{list_all};
ghost use Rattle.std.specs.Ordering.{is_lt};
ghost use Rattle.file_paths.specs.Path.{path_cmp};
ghost use Rattle.work_area.specs.declared.rows.RowsFault.TheVariants.{Memory};
ghost use Rattle.work_area.specs.Outcomes.{IsRowsFault};
ghost use Rattle.cmd_capture.specs.Rows as rules;
ghost use Rattle.cmd_capture.specs.Rows.{JobRowsAreInOrder, AreLegal, AreJobRows, read_rows};

use byte_fields::saturate_u32;
use cmd_capture::{JobRow, JobRows, RawRow, RawRows};
use std::alloc::{AllocError, Global};
use std::cmp::Ordering;
use thiserror::Error;
use vol_tree::{Content, Node, Path, PathError, TryCopy};

/// Why raw rows are no rows of a job.
#[derive(Clone, Copy, Debug, PartialEq, Eq, Error)]
pub enum RowsFault {
    /// The first row, counted from 0, whose text is no path or the root, or whose path is not above the one before or
    /// in no folder.
    #[error("row {0} is odd")]
    OddTree(u32),
    #[error("out of memory")]
    Memory,
}

impl From<AllocError> for RowsFault {
    ghost from_gives = { λ _ e. e ≡ Memory };

    fn from(_: AllocError) -> RowsFault {
        RowsFault::Memory
    }
}

/// How the path of a row compares with another.
fn order_of(row: &JobRow, path: &[Content]) -> Ordering
    ensures { result ≡ path_cmp row.now.path path.now }
{
    row.path.names().cmp(&path)
}

/// The row of a path.
pub(crate) fn row_of<'a>(rows: &'a [JobRow], path: &[Content]) -> Option<&'a JobRow>
    requires { JobRowsAreInOrder rows.now }
    ensures { option_copied result ≡ find (rules.is_job_row_at path.now) rows.now }
{
    match rows.binary_search_by(|row| order_of(row, path)) {
        Ok(i) => rows.get(i),
        Err(_) => None,
    }
}

/// The node of a path.
pub(crate) fn node_in<'a>(rows: &'a [JobRow], path: &[Content]) -> Option<&'a Node>
    requires { JobRowsAreInOrder rows.now }
    ensures { option_copied result ≡ rules.node_in rows.now path.now }
{
    let row = row_of(rows, path)?;
    Some(&row.node)
}

/// Whether the path is a folder of the rows, as the root always is.
fn is_folder_in(rows: &[JobRow], path: &[Content]) -> bool
    requires { JobRowsAreInOrder rows.now }
    ensures { result ≡ rules.is_folder_in rows.now path.now }
{
    path.is_empty() || matches!(node_in(rows, path), Some(Node::Folder))
}

/// Whether the path is above those of all rows, the last of which is above the others.
fn is_above_all(rows: &[JobRow], path: &Path) -> bool
    requires { JobRowsAreInOrder rows.now }
    ensures { result ≡ list_all (λ before. is_lt (path_cmp before.path path.now)) rows.now }
{
    match rows.last() {
        Some(last) => last.path.cmp(path).is_lt(),
        None => true,
    }
}

/// Whether the row may stand behind these.
fn may_follow(rows: &[JobRow], row: &JobRow) -> bool
    requires { JobRowsAreInOrder rows.now }
    ensures { result ≡ rules.may_follow_rows rows.now row.now }
{
    !row.path.names().is_empty()
        && is_above_all(rows, &row.path)
        && is_folder_in(rows, row.path.folder_names())
}

/// The row whose path the text spells; `None` where it spells none.
fn read_row(alloc: Global, raw: &RawRow) -> Result<Option<JobRow>, AllocError>
    ensures { IfOk result (λ row. row ≡ rules.read_row raw.now) }
{
    match Path::read(alloc, raw.path.bytes()) {
        Ok(path) => Ok(Some(JobRow {
            path,
            node: raw.node.copy()?,
        })),
        Err(PathError::Memory) => Err(AllocError),
        Err(_) => Ok(None),
    }
}

/// The row, where it may stand behind these.
fn next_row(alloc: Global, rows: &[JobRow], raw: &RawRow) -> Result<Option<JobRow>, AllocError>
    requires { JobRowsAreInOrder rows.now }
    ensures { IfOk result (λ row. row ≡ rules.next_row rows.now raw.now) }
{
    match read_row(alloc, raw)? {
        Some(row) if may_follow(rows, &row) => Ok(Some(row)),
        _ => Ok(None),
    }
}

/// The rows whose paths the raw rows spell; refused at the first that may not stand behind those before it.
pub fn rows_of(alloc: Global, raw: &RawRows) -> Result<JobRows, RowsFault>
    ensures legal { OnOk result (AreLegal raw.now) }
    ensures rows { IfOk result (λ rows. rows ≡ read_rows raw.now) }
    ensures job_rows { IfOk result AreJobRows }
    ensures err { IfErr result (IsRowsFault raw.now) }
{
    let mut rows = JobRows::new(alloc);
    for (i, row) in raw.as_slice().iter().enumerate() {
        match next_row(alloc, rows.as_slice(), row)? {
            Some(row) => rows.push(row)?,
            None => return Err(RowsFault::OddTree(saturate_u32(i))),
        }
    }
    Ok(rows)
}
