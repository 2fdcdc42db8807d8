// Parts of frames, as bytes.
ghost use Rattle.std.specs.Prelude.{◌≡◌, ◌↔◌, ◌≤◌, ◌+◌, ℕ, List, length, take, drop, IsTrue, IfOk, IfSome, IfNone};
ghost use Rattle.std.specs.Int.{w32, from_be_bytes};
ghost use Rattle.frame_parts.specs.declared.part.Part.{Part};
ghost use Rattle.frame_parts.specs.Spelling.{part_in, Fits, IsPart, HasPart};

use std::alloc::{AllocError, Global};

/// The longest frame, whole: 64 MiB.
pub const MAX_FRAME: usize = 67_108_864;

/// What stands where a plain frame has its version.
pub(crate) const MARK: u8 = 0xe6;

/// What a part has behind the mark.
const PART: u8 = 1;

/// How many bytes stand before those of the piece: the length of all behind it, the mark, 1, the client, the print, the size and the
/// place.
pub const PART_BYTES: usize = 47;

/// Of which frame a part is, and where its piece begins there.
#[derive(Clone, Copy)]
pub struct Part {
    pub client: u8,
    /// The SHA-256 of the whole frame.
    pub print: [u8; 32],
    /// How many bytes the whole frame has.
    pub size: u32,
    /// How many of them stand before the piece.
    pub at: u32,
}

/// The frame of a part with this piece.
///
/// # Errors
///
/// Want of memory.
pub fn put_part(alloc: Global, part: &Part, piece: &[u8]) -> Result<Vec<u8>, AllocError>
    requires { Fits part.now piece.now }
    ensures { IfOk result (λ bytes. IsPart bytes.items part.now piece.now) }
{
    let behind = PART_BYTES - 4 + piece.len();
    let mut bytes = Vec::with_capacity(alloc, PART_BYTES + piece.len())?;
    bytes.extend_from_slice(&(behind as u32).to_be_bytes())?;
    bytes.extend_from_slice(&[MARK, PART, part.client])?;
    bytes.extend_from_slice(&part.print)?;
    bytes.extend_from_slice(&part.size.to_be_bytes())?;
    bytes.extend_from_slice(&part.at.to_be_bytes())?;
    bytes.extend_from_slice(piece)?;
    Ok(bytes)
}

/// The part that the bytes are the frame of, and its piece; `None` where they are that of no part.
pub fn read_part(bytes: &[u8]) -> Option<(Part, &[u8])>
    ensures read { IfSome result (λ x. IsPart bytes.now x.0 x.1.now) }
    ensures none { IfNone result ((part : Part) (piece : List ℕ) → IsPart bytes.now part piece → ⊥) }
{
    if !has_head(bytes) {
        return None;
    }
    let part = part_in(bytes);
    let (_head, piece) = bytes.split_at(PART_BYTES);
    if !fits(&part, piece.len()) {
        return None;
    }
    Some((part, piece))
}

/// Whether the bytes begin as a part of their length does.
fn has_head(bytes: &[u8]) -> bool
    ensures { IsTrue result ↔ HasPart bytes.now }
{
    if bytes.len() < PART_BYTES || bytes.len() > MAX_FRAME {
        return false;
    }
    let behind = (bytes.len() - 4) as u32;
    let said = &bytes[..4];
    said == behind.to_be_bytes().as_slice() && bytes[4] == MARK && bytes[5] == PART
}

/// What the head of a part says.
fn part_in(bytes: &[u8]) -> Part
    requires { 47 ≤ length bytes.now }
    ensures { result ≡ part_in bytes.now }
{
    Part {
        client: bytes[6],
        print: print_in(bytes),
        size: number_at(bytes, 39),
        at: number_at(bytes, 43),
    }
}

/// The print that the head of a part names.
fn print_in(bytes: &[u8]) -> [u8; 32]
    requires { 47 ≤ length bytes.now }
    ensures { result ≡ take 32 (drop 7 bytes.now) }
{
    let (_head, rest) = bytes.split_at(7);
    let (told, _behind) = rest.split_at(32);
    let mut print = [0; 32];
    print.copy_from_slice(told);
    print
}

/// The number of four bytes at a place.
pub(crate) fn number_at(bytes: &[u8], place: usize) -> u32
    requires { place + 4 ≤ length bytes.now }
    ensures { result ≡ from_be_bytes w32 (take 4 (drop place bytes.now)) }
{
    let (_front, rest) = bytes.split_at(place);
    u32::from_be_bytes([rest[0], rest[1], rest[2], rest[3]])
}

/// Whether a piece of so many bytes is within its frame, and this is not too long.
fn fits(part: &Part, count: usize) -> bool
    requires { count ≤ 67108864 }
    ensures { IsTrue result ↔ ((part.now.at + count ≤ part.now.size) × (part.now.size ≤ 67108864)) }
{
    let size = part.size as usize;
    part.at as usize + count <= size && size <= MAX_FRAME
}
