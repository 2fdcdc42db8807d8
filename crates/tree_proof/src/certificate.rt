//! Certificates as values.

ghost use Rattle.std.specs.Prelude.{◌≡◌, ◌<◌, ◌≤◌, ◌+◌};
ghost use Rattle.tree_values.specs.Limits.{max_rows};
ghost use Rattle.tree_proof.specs.Certificate.{first_place, place_limit, leaf_count};

use crate::slim::SlimRow;
use file_paths::List;

/// Whether a tree has a row at a path.
#[derive(Clone, Copy, Debug, PartialEq, Eq)]
pub(crate) enum Presence {
    Present,
    Absent,
}

/// What is said of a path in a tree.
#[derive(Clone, Copy, Debug)]
pub(crate) struct CertificateHead {
    /// How many rows the tree has.
    pub count: u32,
    pub kind: Presence,
    /// The place of the path's row, or that which it would have.
    pub index: u32,
}

/// A row that is shown.
#[derive(Drop)]
pub(crate) struct Leaf {
    /// Its place among the rows of the tree.
    pub place: u32,
    pub row: SlimRow,
    /// The digests beside its way to the top, from the leaf up.
    pub beside: List<[u8; 32]>,
}

/// Where the next row stands that is shown.
#[derive(Clone, Copy)]
pub(crate) struct Places {
    /// How many rows the tree has.
    pub count: u32,
    pub next: u32,
}

impl CertificateHead {
    /// The place of the first row that is shown.
    pub fn first_place(self) -> u32
        ensures { result ≡ first_place self.kind self.index }
    {
        match self.kind {
            Presence::Present => self.index,
            Presence::Absent => self.index.saturating_sub(1),
        }
    }

    /// How many rows are shown.
    pub fn leaf_count(self) -> u32
        requires few { self.count ≤ max_rows }
        requires place { self.index < place_limit self.kind self.count }
        ensures value { result ≡ leaf_count self }
        ensures few { result ≤ 2 }
        ensures within { first_place self.kind self.index + result ≤ self.count }
    {
        match self.kind {
            Presence::Present => 1,
            Presence::Absent => (self.index + 1).min(self.count) - self.first_place(),
        }
    }
}
