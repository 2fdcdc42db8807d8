// Sealed frames that are opened.
ghost use Rattle.std.specs.Prelude.{◌≡◌, ◌≢◌, ◌↔◌, ◌≤◌, ◌<◌, ℕ, List, length, None, Some, Err};
ghost use Rattle.std.specs.Prelude.{IsTrue, IfOk, OnErr};
ghost use Rattle.sealed_frames.specs.declared.sealing.Way.TheVariants.{Back};
ghost use Rattle.sealed_frames.specs.Sealing.{tag_of, key_of, HasSeal, HasOtherTag, HasOtherTagBy, IsSealedUnder, IsSealedBy};
ghost use Rattle.sealed_frames.specs.Sealing.{tag_in, frame_in};

use crate::sealing::{CLIENT_PLACE, MARK, MAX_SEALED, SEAL_BYTES, Way, key_of, tag_of};
use thiserror::Error;

/// How many bytes stand before the tag.
const HEAD: usize = 5;

/// A frame that was opened, with the key that it was sealed by, and its tag.
#[derive(Clone, Copy)]
pub struct Opened<'a> {
    pub key: [u8; 32],
    pub tag: [u8; 32],
    pub frame: &'a [u8],
}

/// Why bytes were not opened.
#[derive(Clone, Copy, Debug, PartialEq, Eq, Error)]
pub enum SealError {
    /// The bytes have not the form of a sealed frame.
    #[error("it has no seal")]
    NoSeal,
    /// The list has no key of the client that the frame names.
    #[error("its client has no key here")]
    NoKey,
    /// The tag is not that of the frame, on this way, under this key.
    #[error("its tag is of another key, another way or other bytes")]
    OtherTag,
}

/// The frame in the bytes, where these are sealed on this way by the key of the frame's client. At its place N the list has the key of
/// client N.
///
/// # Errors
///
/// `NoSeal` and `NoKey`; and `OtherTag` for all else.
#[tactic(auto, using(crate::proofs::Parts::refused_form))]
pub fn open_sealed<'a>(
    keys: &[Option<[u8; 32]>],
    way: &Way,
    bytes: &'a [u8],
) -> Result<Opened<'a>, SealError>
    ensures frame { IfOk result (λ opened. IsSealedBy keys.now way.now bytes.now opened.key opened.frame.now) }
    ensures tag { IfOk result (λ opened. opened.tag ≡ tag_of opened.key way.now opened.frame.now) }
    ensures place { IfOk result (λ opened. opened.frame.now ≡ frame_in bytes.now) }
    ensures refused { OnErr result ((key frame : List ℕ) → IsSealedBy keys.now way.now bytes.now key frame → ⊥) }
    ensures no_seal { (result ≡ Err SealError.NoSeal) ↔ (HasSeal bytes.now → ⊥) }
    ensures no_key { (result ≡ Err SealError.NoKey) ↔ (HasSeal bytes.now × (key_of keys.now (frame_in bytes.now) ≡ None)) }
    ensures other_tag { (result ≡ Err SealError.OtherTag) ↔ HasOtherTagBy keys.now way.now bytes.now }
{
    if !has_seal(bytes) {
        return Err(SealError::NoSeal);
    }
    let (told, frame) = parts_of(bytes);
    let Some(key) = key_of(keys, frame) else {
        return Err(SealError::NoKey);
    };
    let tag = tag_of(&key, way, frame);
    if !is_same(&tag, told) {
        return Err(SealError::OtherTag);
    }
    Ok(Opened { key, tag, frame })
}

/// The frame in the bytes, where these are sealed by this key as the answer to the ask with this tag. The frame may name any client.
///
/// # Errors
///
/// `NoSeal`, and `OtherTag` for all else.
#[tactic(auto, using(crate::proofs::Parts::no_answer_form))]
pub fn open_answer<'a>(
    key: &[u8; 32],
    asked: &[u8; 32],
    bytes: &'a [u8],
) -> Result<&'a [u8], SealError>
    ensures frame { IfOk result (λ frame. IsSealedUnder key.now (Back asked.now) bytes.now frame.now) }
    ensures refused { OnErr result ((frame : List ℕ) → IsSealedUnder key.now (Back asked.now) bytes.now frame → ⊥) }
    ensures no_seal { (result ≡ Err SealError.NoSeal) ↔ (HasSeal bytes.now → ⊥) }
    ensures other_tag { (result ≡ Err SealError.OtherTag) ↔ HasOtherTag key.now (Back asked.now) bytes.now }
    ensures keyed { result ≢ Err SealError.NoKey }
{
    if !has_seal(bytes) {
        return Err(SealError::NoSeal);
    }
    let (told, frame) = parts_of(bytes);
    if !is_same(&tag_of(key, &Way::Back(*asked), frame), told) {
        return Err(SealError::OtherTag);
    }
    Ok(frame)
}

/// Whether the bytes have the form of a sealed frame.
fn has_seal(bytes: &[u8]) -> bool
    ensures { IsTrue result ↔ HasSeal bytes.now }
{
    if bytes.len() <= SEAL_BYTES + CLIENT_PLACE || bytes.len() > MAX_SEALED + SEAL_BYTES {
        return false;
    }
    let behind = (bytes.len() - 4) as u32;
    let said = &bytes[..4];
    said == behind.to_be_bytes().as_slice() && bytes[4] == MARK
}

/// The tag and the frame in bytes of the form of a sealed frame.
fn parts_of(bytes: &[u8]) -> (&[u8], &[u8])
    requires { 43 < length bytes.now }
    ensures tag { result.0.now ≡ tag_in bytes.now }
    ensures whole { length result.0.now ≡ 32 }
    ensures frame { result.1.now ≡ frame_in bytes.now }
{
    let (front, frame) = bytes.split_at(SEAL_BYTES);
    let (_head, tag) = front.split_at(HEAD);
    (tag, frame)
}

/// Whether two tags are equal. It looks at all bytes of both, wherever they differ; that it takes the same time is no clause.
#[tactic(auto, using(crate::proofs::Tags::seen_more))]
fn is_same(one: &[u8; 32], other: &[u8]) -> bool
    requires { length other.now ≡ 32 }
    ensures { IsTrue result ↔ (one.now ≡ other.now) }
{
    let mut differing = 0;
    for i in 0..32 {
        differing |= one[i] ^ other[i];
    }
    differing == 0
}
