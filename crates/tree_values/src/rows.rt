//! Rows in the order of their paths, as a slice: where a path stands in them, and whether they are a tree.

ghost use Rattle.std.specs.Prelude.{◌≡◌, ◌^◌, ◌<◌, length, IfOk, IfErr, IfSome, IfNone};
ghost use Rattle.std.specs.List.{list_all};
ghost use Rattle.std.specs.Ordering.{is_lt};
ghost use Rattle.std.specs.Option.{option_copied};
ghost use Rattle.byte_fields.specs.Codec.{IsBytes};
ghost use Rattle.file_paths.specs.Path.{IsPath, path_cmp};
ghost use Rattle.tree_values.specs.Inside.{StandsAt, BelongsAt, may_follow};
ghost use Rattle.tree_values.specs.Tree.{IsTree, AreInOrder, node_at, is_folder, file_bytes, total_size, IsRowsRefusal};

use crate::limits::{MAX_FILES, MAX_ROWS};
use crate::lists::Rows;
use crate::node::{Node, Row, size_of};
use file_paths::{Content, MAX_FILE, Path};
use std::cmp::Ordering;
use thiserror::Error;

/// Why rows are no tree.
#[derive(Debug, Drop, Error)]
pub enum RowsError {
    /// The first row, counted from 0, that breaks a rule, given those before it.
    #[error("row {0} breaks a rule of trees")]
    BadRow(u32),
    #[error("out of memory")]
    Memory,
}

impl Rows {
    /// The first row, counted from 0, with which the rows up to it are no tree.
    pub fn first_bad(&self) -> Option<u32>
        ensures none { IfNone result (IsTree self.now) }
        ensures some { IfSome result (λ i. IsRowsRefusal self.now (RowsError.BadRow i)) }
    {
        first_bad(self.as_slice(), self.len())
    }
}

/// The first row with which the rows up to it are no tree.
fn first_bad(rows: &[Row], count: usize) -> Option<u32>
    requires all { count ≡ length rows.now }
    requires few { count < 2 ^ 32 }
    ensures none { IfNone result (IsTree rows.now) }
    ensures some { IfSome result (λ i. IsRowsRefusal rows.now (RowsError.BadRow i)) }
{
    let mut size = 0;
    for i in 0..count {
        let row = &rows[i];
        if !follows(rows.split_at(i).0, size, row) {
            return Some(i as u32);
        }
        size += size_of(row.node.as_ref());
    }
    None
}

/// Whether a tree's rows, whose files have so many bytes, are a tree with this row behind them.
fn follows(rows: &[Row], size: u64, row: &Row) -> bool
    requires tree { IsTree rows.now }
    requires size { size ≡ total_size rows.now }
    ensures follows { result ≡ may_follow rows.now row.now }
    ensures path { IsPath row.now.path }
    ensures version { row.now.version < 2 ^ 64 }
    ensures bytes { IsBytes (file_bytes row.now.node) }
{
    let _version = row.version;
    let names = row.path.names();
    let row_size = size_of(row.node.as_ref());
    if !is_behind(rows, &row.path) {
        return false;
    }
    if names.is_empty() || row.version < 1 || row_size > MAX_FILE as u64 {
        return false;
    }
    if row.node.is_some() && !is_folder_at(rows, row.path.folder_names()) {
        return false;
    }
    rows.len() < MAX_ROWS && size + row_size <= MAX_FILES as u64
}

/// Whether the path is above those of all rows, the last of which is above the others.
pub(crate) fn is_behind(rows: &[Row], path: &Path) -> bool
    requires { AreInOrder rows.now }
    ensures { result ≡ list_all (λ row. is_lt (path_cmp row.path path.now)) rows.now }
{
    match rows.last() {
        Some(last) => last.path.cmp(path).is_lt(),
        None => true,
    }
}

pub(crate) fn is_folder_at(rows: &[Row], path: &[Content]) -> bool
    requires { AreInOrder rows.now }
    ensures { result ≡ is_folder rows.now path.now }
{
    path.is_empty() || matches!(node_of(rows, path), Some(Node::Folder))
}

fn node_of<'a>(rows: &'a [Row], path: &[Content]) -> Option<&'a Node>
    requires { AreInOrder rows.now }
    ensures { option_copied result ≡ node_at rows.now path.now }
{
    let i = locate(rows, path).ok()?;
    rows[i].node.as_ref()
}

/// Where the row of a path stands, or else where it belongs.
fn locate(rows: &[Row], path: &[Content]) -> Result<usize, usize>
    requires { AreInOrder rows.now }
    ensures ok { IfOk result (StandsAt rows.now path.now) }
    ensures err { IfErr result (BelongsAt rows.now path.now) }
{
    rows.binary_search_by(|row| order_of(row, path))
}

/// How the path of a row compares with another.
fn order_of(row: &Row, path: &[Content]) -> Ordering
    ensures { result ≡ path_cmp row.now.path path.now }
{
    row.path.names().cmp(&path)
}
