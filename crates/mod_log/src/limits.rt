//! The limits of logs.

/// The most entries that are pending.
pub const MAX_ENTRIES: usize = 1_024;

/// The most bytes that all spelled entries that are pending have together.
pub const MAX_LOG: usize = 67_108_864;
