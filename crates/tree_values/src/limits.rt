//! The limits of trees and of what changes them.

/// The most rows that a tree has.
pub const MAX_ROWS: usize = 16_384;

/// The most bytes that all files of a tree, or all contents of effects, have together.
pub const MAX_FILES: usize = 33_554_432;

/// The most effects that are spelled together.
pub const MAX_EFFECTS: usize = 4_096;
