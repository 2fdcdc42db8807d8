//! Opening a parcel.

ghost use Rattle.std.specs.Prelude.{◌≡◌, ◌≤◌, ◌<◌, ◌^◌, length, IfOk};
ghost use Rattle.std.specs.Option.{option_map};
ghost use Rattle.tree_values.specs.Limits.{max_files};
ghost use Rattle.store_parcels.specs.Opening.{is_frame_of, is_head_of, made_of, opened, opened_behind, tells_few};

use crate::front::{Front, NamedStore, front_of};
use crate::known::known_in;
use crate::limits::MAX_STEPS;
use delta_pieces::{ExpandError, Pieces, expand};
use sha2::{Digest, Sha256};
use short_numbers::split_number;
use std::alloc::{AllocError, Global};
use step_spelling::{StepsError, split_steps};
use vol_tree::Tree;
use wire_frames::{Head, Kind, MAX_FRAME, head_of};

/// The frame that a parcel stands for, where these are the files of the server. `None` where the bytes are no parcel, or one that does
/// not open: a field is faulty, a source is no file, there are too many of them or of steps, the sources have more bytes than a tree, a
/// step does not fit, more is made than a frame has, or what is made is not the frame that the parcel names.
///
/// # Errors
///
/// Want of memory.
pub fn opened(alloc: Global, tree: &Tree, bytes: &[u8]) -> Result<Option<Vec<u8>>, AllocError>
    ensures { IfOk result (λ found. option_map (λ frame. frame.items) found ≡ opened tree.now bytes.now) }
{
    let Some((front, start)) = front_of(alloc, bytes)? else {
        return Ok(None);
    };
    opened_behind(alloc, tree, &front, &bytes[start..])
}

/// What the bytes behind a front open to.
fn opened_behind(
    alloc: Global,
    tree: &Tree,
    front: &Front,
    bytes: &[u8],
) -> Result<Option<Vec<u8>>, AllocError>
    ensures { IfOk result (λ found. option_map (λ frame. frame.items) found ≡ opened_behind tree.now front.now bytes.now) }
{
    let Some(known) = known_in(alloc, tree, front.sources.as_slice())? else {
        return Ok(None);
    };
    let Some(frame) = made_of(alloc, known.as_slice(), bytes)? else {
        return Ok(None);
    };
    if !front.names(frame.as_slice()) {
        return Ok(None);
    }
    Ok(Some(frame))
}

/// What steps and new bytes make of the known bytes; `None` where a step is faulty or does not fit, or too much is made.
fn made_of(alloc: Global, known: &[u8], bytes: &[u8]) -> Result<Option<Vec<u8>>, AllocError>
    requires { length known.now ≤ max_files }
    ensures { IfOk result (λ made. option_map (λ content. content.items) made ≡ made_of known.now bytes.now) }
{
    if !tells_few(bytes) {
        return Ok(None);
    }
    let (steps, rest) = match split_steps(alloc, known.len() as u32, bytes) {
        Ok(read) => read,
        Err(StepsError::NoSteps) => return Ok(None),
        Err(StepsError::Memory) => return Err(AllocError),
    };
    let mut fresh = Vec::new(alloc);
    fresh.extend_from_slice(rest)?;
    match expand(alloc, known, &Pieces { steps, fresh }, MAX_FRAME) {
        Ok(content) => Ok(Some(content)),
        Err(ExpandError::BadStep(_)) => Ok(None),
        Err(ExpandError::Memory) => Err(AllocError),
    }
}

/// Whether the number at the front is no greater than that of a parcel's steps may be.
fn tells_few(bytes: &[u8]) -> bool
    ensures { result ≡ tells_few bytes.now }
{
    match split_number(bytes) {
        Some((count, _)) => count <= MAX_STEPS,
        None => false,
    }
}

impl Front {
    /// Whether a frame is the one that the front names: it has its print, and is of its store.
    fn names(&self, frame: &[u8]) -> bool
        ensures { result ≡ is_frame_of self.now frame.now }
    {
        Sha256::digest(frame) == self.print && self.store.is_told_by(head_of(frame))
    }
}

impl NamedStore {
    /// States what the types of the fields say. It takes no time.
    pub(crate) fn is_in_range(self)
        ensures client { self.client < 2 ^ 8 }
        ensures number { self.number < 2 ^ 64 }
        ensures entries { self.entries < 2 ^ 8 }
    {
        let NamedStore {
            client: _client,
            number: _number,
            entries: _entries,
        } = self;
    }

    /// Whether a head is that of the store.
    pub(crate) fn is_told_by(self, head: Option<Head>) -> bool
        ensures { result ≡ is_head_of self head }
    {
        match head {
            None => false,
            Some(head) => {
                matches!(head.kind, Kind::Store)
                    && head.client == self.client
                    && head.number == self.number
                    && head.entries == self.entries as u64
            }
        }
    }
}
