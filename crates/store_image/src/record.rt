//! What is appended behind an image, in place of the next one.

use mod_log::Entry;
use vol_tree::Effects;

/// A change of a client since its image.
#[derive(Drop)]
pub enum ClientRecord {
    /// An entry was logged behind the others.
    Logged(Entry),
    /// The entries up to this number were acknowledged.
    Acked(u64),
}

/// A change of a server since its image: the entry of this number was taken of the client.
#[derive(Drop)]
pub struct ServerRecord {
    pub client: u8,
    pub last: u64,
    pub effects: Effects,
}
