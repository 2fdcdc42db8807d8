// How much of a surrogate's time for a run is kept for judging what it leaves.
ghost use Rattle.std.specs.Prelude.{◌≡◌, Some};
ghost use Rattle.std.specs.Duration.{as_nanos};
ghost use Rattle.tree_values.specs.Tree.{node_size};
ghost use Rattle.child_runner.specs.Judging.{job_bytes, judging_nanos};

use cmd_capture::JobRow;
use std::time::Duration;
use tree_values::Node;

/// For so many bytes of a job a run has a second less, since what it leaves is judged.
pub const JUDGED_BYTES: u64 = 1_000_000;

/// The time for judging what a run of a job with these rows leaves.
pub(crate) fn judging(rows: &[JobRow]) -> Duration
    ensures { as_nanos result ≡ judging_nanos rows.now }
{
    Duration::from_secs(bytes_of(rows) / JUDGED_BYTES)
}

/// How many bytes the files of a job have.
fn bytes_of(rows: &[JobRow]) -> u64
    ensures { result ≡ job_bytes rows.now }
{
    let mut bytes = 0u64;
    for row in rows {
        bytes = bytes.saturating_add(bytes_at(row));
    }
    bytes
}

/// How many bytes the file of a row has.
fn bytes_at(row: &JobRow) -> u64
    ensures { result ≡ node_size (Some row.now.node) }
{
    match &row.node {
        Node::File { content, .. } => content.bytes().len() as u64,
        Node::Folder => 0,
    }
}
