//! How much a parcel tells of, so that little memory opens it.

/// The most sources that a parcel has.
pub const MAX_SOURCES: u16 = 4_096;

/// The most steps that a parcel has.
pub const MAX_STEPS: u32 = 1_048_576;
