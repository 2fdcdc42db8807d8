//! Which refusals of a volume the two messages on them may tell.

/// The numbers of the refusals that more room would not cure.
pub(crate) const UNFIT_NUMBERS: [u8; 8] = [1, 2, 3, 4, 5, 6, 8, 10];

/// The numbers of the refusals for want of room.
pub(crate) const FULL_NUMBERS: [u8; 2] = [7, 9];
