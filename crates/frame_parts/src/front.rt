// What is kept of frames that come in parts.
ghost use Rattle.std.specs.Prelude.{◌≤◌, ◌<◌, vec_len};

use std::alloc::Global;

/// The bytes of a client's frame that have come, from its first on.
#[derive(Drop)]
pub struct Front {
    pub(crate) client: u8,
    /// The print that the frame is to have.
    pub(crate) print: [u8; 32],
    /// How many bytes the whole frame has.
    pub(crate) size: u32,
    pub(crate) bytes: Vec<u8>,
    /// Where the caller's clock stood when a part came last.
    pub(crate) seen: u64,
    ghost within: { vec_len bytes ≤ size },
    ghost short: { size ≤ 67108864 },
}

/// What a part came to.
#[derive(Drop)]
pub enum Put {
    /// So many bytes of its frame are there.
    Have(u32),
    /// Its frame is whole.
    Whole(Vec<u8>),
}

/// The fronts of frames that come in parts, one a client; the one that a part came for last stands first.
#[derive(Drop)]
pub struct Fronts {
    pub(crate) alloc: Global,
    /// The most fronts that are kept.
    pub(crate) most: usize,
    pub(crate) fronts: Vec<Front>,
    ghost some: { 0 < most },
}
