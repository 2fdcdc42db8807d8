//! What images hold, and why bytes are none.

ghost use Rattle.std.specs.Prelude.{◌≡◌};
ghost use Rattle.store_image.specs.declared.image.ImageError.TheVariants.{Memory};

use mod_log::{Log, MAX_LOG};
use std::alloc::AllocError;
use thiserror::Error;
use vol_tree::{MAX_FILES, MAX_ROWS, Tree};

/// The most bytes of the rows of a tree: their number, for each of 16,384 rows a path of 1,026 bytes, a version, a kind and a
/// length, and 33,554,432 bytes of contents.
const ROWS_SIZE: usize = 4 + MAX_ROWS * (1_026 + 8 + 1 + 4) + MAX_FILES;

/// The most bytes of a client's image: a mark, a version, a client's number, an acknowledged number, rows, a number of entries
/// and 67,108,864 bytes of entries.
pub const MAX_CLIENT_IMAGE: usize = 4 + 1 + 1 + 8 + ROWS_SIZE + 4 + MAX_LOG;

/// The most bytes of a server's image: a mark, a version, 64 numbers and rows.
pub const MAX_SERVER_IMAGE: usize = 4 + 1 + 64 * 8 + ROWS_SIZE;

/// The version byte of each image that is written.
pub const IMAGE_VERSION: u8 = 2;

/// The most bytes of the records that are appended behind an image; a keeping that would pass them writes the image anew.
pub const MAX_RECORDS: usize = 8_388_608;

/// The most bytes that a keeper has to load. No image with its records is as long.
pub const MAX_LOADED: usize = 134_217_728;

/// A client's number, from 1 to 64, and its log.
#[derive(Drop)]
pub struct ClientImage {
    pub client: u8,
    pub log: Log,
}

/// What a server holds: the numbers of the last accepted entries of clients 1 to 64, 0 where there is none, and the volume.
#[derive(Drop)]
pub struct ServerImage {
    pub last: [u64; 64],
    pub tree: Tree,
}

/// Why bytes are no image.
#[derive(Clone, Copy, Debug, PartialEq, Eq, Drop, Error)]
pub enum ImageError {
    /// The bytes begin as an image of the other kind does.
    #[error("an image of the other kind")]
    WrongKind,
    /// The place where the first faulty field begins, or of the first byte after the last field. A place that is too great
    /// for its type stands as the greatest.
    #[error("the image is faulty at byte {0}")]
    BadImage(u32),
    #[error("out of memory")]
    Memory,
}

impl From<AllocError> for ImageError {
    ghost from_gives = { λ _ e. e ≡ Memory };

    fn from(_: AllocError) -> ImageError {
        ImageError::Memory
    }
}
