//! The limits of commands and of their parts.

/// The most bytes that a command's spelling has.
pub const MAX_COMMAND: usize = 65_536;

/// The most bytes that a template has.
pub const MAX_TEMPLATE: usize = 255;

/// The most variables that an environment has.
pub const MAX_VARIABLES: usize = 4_294_967_295;
