// Frames that are sealed.
ghost use Rattle.std.specs.Prelude.{◌≡◌, ◌↔◌, ◌≤◌, ◌<◌, ◌++◌, ℕ, List, length, slice_index, IsTrue, IfOk};
ghost use Rattle.sealed_frames.specs.Holding.{HoldsUnder};
ghost use Rattle.sealed_frames.specs.Sealing.{way_bytes, tag_of, with_seal, sealed, key_of, frame_in, IsSealable};
ghost use Rattle.sealed_frames.specs.Limits.{seal_bytes};
ghost use Rattle.std.specs.Vec.{vec_len};

use crate::hmac::Hmac;
use std::alloc::{AllocError, Global};

/// What stands where a plain frame has its version.
pub(crate) const MARK: u8 = 0xe5;

/// How many bytes a seal has: the length of all behind it, the mark, and the tag.
pub const SEAL_BYTES: usize = 37;

/// The most bytes of a frame that can be sealed: 64 MiB with its seal.
pub const MAX_SEALED: usize = 67_108_827;

/// The place of the client's number in a frame.
pub(crate) const CLIENT_PLACE: usize = 6;

/// Where a frame goes. No tag of one way is one of another.
#[derive(Clone, Copy)]
pub enum Way {
    ToServer,
    ToSurrogate,
    /// Back to who asked, by the sealed frame with this tag.
    Back([u8; 32]),
}

/// Takes the way of a frame into what its tag is made of.
fn take_way(hmac: &mut Hmac, way: &Way)
    ensures { (key text : List ℕ) → HoldsUnder key hmac.old text → HoldsUnder key hmac.new (text ++ way_bytes way.now) }
{
    match way {
        Way::ToServer => hmac.update(&[1]),
        Way::ToSurrogate => hmac.update(&[2]),
        Way::Back(asked) => {
            hmac.update(&[3]);
            hmac.update(asked);
        }
    }
}

/// The tag of a frame on a way, under a key.
pub fn tag_of(key: &[u8; 32], way: &Way, frame: &[u8]) -> [u8; 32]
    ensures { result ≡ tag_of key.now way.now frame.now }
{
    let mut hmac = Hmac::new(key);
    take_way(&mut hmac, way);
    hmac.update(frame);
    hmac.finalize()
}

/// Whether a frame can be sealed: it has a client's number, and leaves room for a seal.
pub fn is_sealable(frame: &[u8]) -> bool
    ensures { IsTrue result ↔ IsSealable frame.now }
{
    frame.len() > CLIENT_PLACE && frame.len() <= MAX_SEALED
}

/// The key of the client whose frame it is, where there is one. At its place N the list has the key of client N.
pub fn key_of(keys: &[Option<[u8; 32]>], frame: &[u8]) -> Option<[u8; 32]>
    ensures { result ≡ key_of keys.now frame.now }
{
    let client = *frame.get(CLIENT_PLACE)?;
    *keys.get(client as usize)?
}

/// The frame with its seal before it.
///
/// # Errors
///
/// Want of memory.
pub fn seal(alloc: Global, key: &[u8; 32], way: &Way, frame: &[u8]) -> Result<Vec<u8>, AllocError>
    requires { IsSealable frame.now }
    ensures { IfOk result (λ bytes. bytes.items ≡ sealed key.now way.now frame.now) }
{
    put_seal(alloc, &tag_of(key, way, frame), frame)
}

/// The frame with the seal of this tag before it.
///
/// # Errors
///
/// Want of memory.
pub fn put_seal(alloc: Global, tag: &[u8; 32], frame: &[u8]) -> Result<Vec<u8>, AllocError>
    requires { IsSealable frame.now }
    ensures { IfOk result (λ bytes. bytes.items ≡ with_seal tag.now frame.now) }
{
    let behind = SEAL_BYTES - 4 + frame.len();
    let mut bytes = Vec::with_capacity(alloc, SEAL_BYTES + frame.len())?;
    bytes.extend_from_slice(&(behind as u32).to_be_bytes())?;
    bytes.push(MARK)?;
    bytes.extend_from_slice(tag)?;
    bytes.extend_from_slice(frame)?;
    Ok(bytes)
}

/// Leaves of sealed bytes the frame behind the seal, in place.
pub fn drop_seal(bytes: &mut Vec<u8>)
    requires { seal_bytes ≤ vec_len bytes.old }
    ensures { bytes.new.items ≡ frame_in bytes.old.items }
{
    bytes.drain(..SEAL_BYTES);
}
