//! Formats: which kinds of nodes and effects bytes may have.

/// A format of bytes. What is written is of the second one; images may be of both.
#[derive(Clone, Copy, Debug, PartialEq, Eq, Drop)]
pub enum Format {
    /// No file may be run, and no effect says whether one may.
    First,
    /// Every node and every effect.
    Second,
}
