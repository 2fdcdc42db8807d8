// Bytes that contracts see as the list of them.
ghost use Rattle.std.specs.Prelude.{◌≡◌, ℕ, List, [], Some, IfOk};
ghost use Rattle.std.specs.Str.{bytes_eq};
ghost use Rattle.std.specs.Ordering.{nat_cmp};
ghost use Rattle.std.specs.Cmp.{partial_equiv_from_equiv};
ghost use Rattle.std.specs.Cmp.Lexicographic.{slice_cmp, nat_list_eq_equiv, nat_list_cmp_total, texts_ties, texts_po, bytes_decides};
ghost use Rattle.std.specs.Hash as fed;
ghost use Rattle.std.specs.Hash.{same_Alike};
ghost use Rattle.std.proofs.Common.{rules};
ghost use Rattle.byte_fields.specs.Codec.{IsBytes};

use crate::list::TryCopy;
use bytes::Bytes;
use std::alloc::{AllocError, Global};
use std::cmp::Ordering;
use std::hash::{Hash, Hasher};
use std::marker::Model;

/// The most bytes that the content of a file has.
pub const MAX_FILE: usize = 8_388_608;

/// Some bytes, as a name or the content of a file.
#[derive(Debug, Drop)]
pub struct Content {
    buffer: Bytes,
}

impl Model for Content {
    ghost Value = { List ℕ };

    ghost view = { λ content. content.buffer };
}

impl Content {
    /// A copy of the bytes.
    pub fn of(alloc: Global, bytes: &[u8]) -> Result<Content, AllocError>
        ensures { IfOk result (λ content. content ≡ bytes.now) }
    {
        Ok(Content {
            buffer: Bytes::copy_from_slice(alloc, bytes)?,
        })
    }

    /// A copy, which shares the bytes.
    pub fn copy(&self) -> Result<Content, AllocError>
        ensures { IfOk result (λ copied. copied ≡ self.now) }
    {
        Ok(Content {
            buffer: self.buffer.clone()?,
        })
    }

    /// Lends the bytes.
    pub fn bytes(&self) -> &[u8]
        ensures value { result.now ≡ self.now }
        ensures bytes { IsBytes self.now }
    {
        let bytes = self.buffer.as_slice();
        are_bytes(bytes);
        bytes
    }

    /// No bytes. It takes no memory.
    pub fn empty() -> Content
        ensures { result ≡ [] }
    {
        Content {
            buffer: Bytes::new(),
        }
    }

    /// The content with these bytes. It takes no memory.
    pub fn of_shared(bytes: Bytes) -> Content
        ensures { result ≡ bytes }
    {
        Content { buffer: bytes }
    }

    /// Lends the buffer. It takes no memory.
    pub fn shared(&self) -> &Bytes
        ensures { result.now ≡ self.now }
    {
        &self.buffer
    }

    /// The content that has these bytes.
    pub fn from_vec(buffer: Vec<u8>) -> Result<Content, AllocError>
        ensures { IfOk result (λ content. content ≡ buffer.items) }
    {
        Ok(Content {
            buffer: Bytes::from_vec(buffer)?,
        })
    }
}

/// States what the type of a slice says of its numbers. It takes no time.
fn are_bytes(bytes: &[u8])
    ensures { IsBytes bytes.now }
{}

impl TryCopy for Content {
    fn copy(&self) -> Result<Content, AllocError> {
        Content::copy(self)
    }
}

impl PartialEq for Content {
    ghost eq = { bytes_eq };

    ghost laws = { partial_equiv_from_equiv nat_list_eq_equiv };

    fn eq(&self, other: &Content) -> bool {
        self.bytes() == other.bytes()
    }
}

impl Eq for Content {
    ghost laws = { nat_list_eq_equiv };
}

impl Hash for Content {
    ghost hash_input = { fed.slice fed.u8 };

    ghost respects_eq = { (same_Alike (fed.slice fed.u8) bytes_decides).fed };

    fn hash<H: Hasher>(&self, state: &mut H) {
        self.bytes().hash(state);
    }
}

impl PartialOrd for Content {
    ghost partial_cmp = { λ a b. Some (slice_cmp nat_cmp a b) };

    ghost laws = { texts_po };

    fn partial_cmp(&self, other: &Content) -> Option<Ordering> {
        Some(self.cmp(other))
    }
}

/// Bytewise, a proper prefix first.
impl Ord for Content {
    ghost cmp = { slice_cmp nat_cmp };

    ghost total = { nat_list_cmp_total };

    ghost matches_partial_cmp = { Prim.search rules };

    ghost matches_eq = { texts_ties };

    fn cmp(&self, other: &Content) -> Ordering {
        self.bytes().cmp(&other.bytes())
    }
}
