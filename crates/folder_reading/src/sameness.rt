// What is seen twice.
use std::fs::Metadata;
use std::os::unix::fs::MetadataExt;

/// Whether both are of one thing.
pub fn are_same(one: &Metadata, other: &Metadata) -> bool {
    one.dev() == other.dev() && one.ino() == other.ino()
}
