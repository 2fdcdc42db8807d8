// What stands at a path, and whether two nodes are one.
ghost use Rattle.std.specs.Prelude.{◌≡◌, ◌&&◌, cond, Some, None, find, IfOk};
ghost use Rattle.std.specs.Option.{option_copied};
ghost use Rattle.file_paths.specs.Path.{path_cmp, is_same_path};
ghost use Rattle.cmd_capture.specs.Rows as rules;
ghost use Rattle.cmd_capture.specs.Rows.{JobRowsAreInOrder};
ghost use Rattle.work_area.specs.Changes.{has_kind};
ghost use Rattle.folder_sides.specs.Sides.{is_same_node, is_same};
ghost use Rattle.folder_sides.specs.Taking.{are_same_rows};

use cmd_capture::JobRow;
use std::alloc::AllocError;
use std::cmp::Ordering;
use vol_tree::{Content, Node, TryCopy};

/// How the path of a row compares with another.
fn order_of(row: &JobRow, path: &[Content]) -> Ordering
    ensures { result ≡ path_cmp row.now.path path.now }
{
    row.path.names().cmp(&path)
}

/// The row of a path.
fn row_of<'a>(rows: &'a [JobRow], path: &[Content]) -> Option<&'a JobRow>
    requires { JobRowsAreInOrder rows.now }
    ensures { option_copied result ≡ find (rules.is_job_row_at path.now) rows.now }
{
    match rows.binary_search_by(|row| order_of(row, path)) {
        Ok(i) => rows.get(i),
        Err(_) => None,
    }
}

/// The node of a path.
pub(crate) fn node_in<'a>(rows: &'a [JobRow], path: &[Content]) -> Option<&'a Node>
    requires { JobRowsAreInOrder rows.now }
    ensures { option_copied result ≡ rules.node_in rows.now path.now }
{
    let row = row_of(rows, path)?;
    Some(&row.node)
}

/// Whether both are folders, or both are files.
pub(crate) fn has_kind(node: &Node, other: Option<&Node>) -> bool
    ensures { result ≡ has_kind node.now (option_copied other.entry) }
{
    match (node, other) {
        (Node::Folder, Some(Node::Folder)) => true,
        (Node::File { .. }, Some(Node::File { .. })) => true,
        _ => false,
    }
}

/// Whether both are folders, or files with one content that may both be run, or not.
fn is_same_node(node: &Node, other: &Node) -> bool
    ensures { result ≡ is_same_node node.now other.now }
{
    match (node, other) {
        (Node::Folder, Node::Folder) => true,
        (
            Node::File { content, exec },
            Node::File {
                content: bytes,
                exec: bit,
            },
        ) => exec == bit && content.bytes() == bytes.bytes(),
        (Node::Folder, Node::File { .. }) | (Node::File { .. }, Node::Folder) => false,
    }
}

/// Whether nothing stands in both places, or one node.
pub(crate) fn is_same(node: Option<&Node>, other: Option<&Node>) -> bool
    ensures { result ≡ is_same (option_copied node.entry) (option_copied other.entry) }
{
    match (node, other) {
        (None, None) => true,
        (Some(node), Some(other)) => is_same_node(node, other),
        (None, Some(_)) | (Some(_), None) => false,
    }
}

/// Whether the two rows have one node at one path.
fn is_same_row(row: &JobRow, other: &JobRow) -> bool
    ensures { result ≡ (is_same_path row.now.path other.now.path && is_same_node row.now.node other.now.node) }
{
    row.path.cmp(&other.path).is_eq() && is_same_node(&row.node, &other.node)
}

/// A copy of the row, where it is kept.
pub(crate) fn row_if(is_kept: bool, row: &JobRow) -> Result<Option<JobRow>, AllocError>
    ensures { IfOk result (λ found. found ≡ cond is_kept (Some row.now) None) }
{
    if !is_kept {
        return Ok(None);
    }
    Ok(Some(row.copy()?))
}

/// Whether the rows have the same nodes at the same paths.
pub(crate) fn are_same_rows(rows: &[JobRow], others: &[JobRow]) -> bool
    ensures { result ≡ are_same_rows rows.now others.now }
{
    let mut left = rows;
    let mut rest = others;
    while let Some((row, more)) = left.split_first() {
        let Some((other, behind)) = rest.split_first() else {
            return false;
        };
        if !is_same_row(row, other) {
            return false;
        }
        left = more;
        rest = behind;
    }
    rest.is_empty()
}
