//! The sketch of a content, which is sent in its place.

ghost use Rattle.std.specs.Prelude.{◌≡◌, ◌*◌, ◌<◌, ◌≤◌, length, IfOk};
ghost use Rattle.sha2.specs.Sha256.{sha256};
ghost use Rattle.rs_parity.specs.Limits.{max_len};
ghost use Rattle.rs_parity.specs.Blocks.{block_size, block_of};
ghost use Rattle.rs_parity.specs.Sketches.{IsSketch};
ghost use Rattle.rs_parity.specs.Spelling.{SketchFits};

use crate::encoder::parity;
use crate::parities::Parities;
use sha2::{Digest, Sha256};
use std::alloc::{AllocError, Global};

/// The bytes of a whole block: 65,503 symbols, which with their parity are the 65,535 of the longest code word.
pub const BLOCK: usize = 131_006;

/// What is sent of a content in its place.
#[derive(Debug, Drop)]
pub struct Sketch {
    /// The content's length in bytes.
    pub len: u32,
    /// The content's SHA-256.
    pub print: [u8; 32],
    /// The parity of each block of the content.
    pub parities: Parities,
}

impl Sketch {
    /// An equal sketch.
    pub fn copy(&self) -> Result<Sketch, AllocError>
        ensures { IfOk result (λ copied. copied ≡ self.now) }
    {
        Ok(Sketch {
            len: self.len,
            print: self.print,
            parities: self.parities.copy()?,
        })
    }
}

/// The SHA-256 of a content. It takes no memory.
pub fn print(content: &[u8]) -> [u8; 32]
    ensures { result ≡ sha256 content.now }
{
    Sha256::digest(content)
}

/// Block `i` of a content, counted from 0; the last may be shorter than the others.
pub fn block(content: &[u8], i: usize) -> &[u8]
    requires { i * block_size < length content.now }
    ensures { result.now ≡ block_of content.now i }
{
    let start = i * BLOCK;
    let size = (content.len() - start).min(BLOCK);
    &content[start..start + size]
}

/// The sketch of a content of at most 8,388,608 bytes.
pub fn sketch_of(alloc: Global, content: &[u8]) -> Result<Sketch, AllocError>
    requires { length content.now ≤ max_len }
    ensures sketch { IfOk result (IsSketch content.now) }
    ensures fits { IfOk result (SketchFits max_len) }
{
    let mut parities = Parities::new(alloc);
    for i in 0..content.len().div_ceil(BLOCK) {
        parities.push(parity(block(content, i)))?;
    }
    Ok(Sketch {
        len: content.len() as u32,
        print: print(content),
        parities,
    })
}
