//! What a replay is judged to be.

use vol_tree::{Effects, Path};

/// What the outcome of a replay is judged to be.
#[derive(Debug, Drop)]
pub enum Verdict {
    /// The entry's effects with these contents: the replay's, repaired where the sketch was another content's.
    Agree(Effects),
    /// The statuses differ.
    Status { logged: u8, replayed: u8 },
    /// The first row, counted from 0, that is not legal.
    OddTree(u32),
    /// The first path of the entry's effect at the first place that does not agree, or of the replay's where the entry
    /// has none there.
    Mismatch(Path),
}
