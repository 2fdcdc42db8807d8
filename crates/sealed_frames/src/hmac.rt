// HMAC over SHA-256.
ghost use Rattle.std.specs.Prelude.{◌≡◌, ◌≤◌, ℕ, List, [], ◌++◌, length};
ghost use Rattle.sha2.specs.Hashers.{Holds256};
ghost use Rattle.sealed_frames.specs.Hmac.{block_bytes, zero_padded, key_block, block_xor, hmac};
ghost use Rattle.sealed_frames.specs.Holding.{HoldsUnder};

use sha2::{Digest, Sha256};

/// How many bytes a block of SHA-256 has.
const BLOCK: usize = 64;

/// The byte that the inner pad repeats over a block.
const INNER_PAD: u8 = 0x36;

/// The byte that the outer pad repeats.
const OUTER_PAD: u8 = 0x5c;

/// Takes a text piece by piece, and gives its HMAC under a key.
#[derive(Drop)]
pub struct Hmac {
    inner: Sha256,
    outer: Sha256,
}

impl Hmac {
    /// No byte of a text yet, under this key.
    pub fn new(key: &[u8]) -> Hmac
        ensures { HoldsUnder key.now result [] }
    {
        let block = key_block(key);
        Hmac {
            inner: hasher_of(&block, INNER_PAD),
            outer: hasher_of(&block, OUTER_PAD),
        }
    }

    /// Puts a piece behind the text.
    pub fn update(&mut self, piece: &[u8])
        ensures { (key text : List ℕ) → HoldsUnder key self.old text → HoldsUnder key self.new (text ++ piece.now) }
    {
        self.inner.update(piece);
    }

    /// The HMAC of the text.
    pub fn finalize(self) -> [u8; 32]
        ensures { (key text : List ℕ) → HoldsUnder key self text → result ≡ hmac key text }
    {
        let Hmac { inner, mut outer } = self;
        outer.update(inner.finalize());
        outer.finalize()
    }
}

/// The key as a block: it, or the digest of one that is longer than a block, and zeros behind it.
fn key_block(key: &[u8]) -> [u8; BLOCK]
    ensures { result ≡ key_block key.now }
{
    if key.len() > BLOCK {
        return zero_padded(&Sha256::digest(key));
    }
    zero_padded(key)
}

/// The bytes, and zeros behind them up to the end of a block.
fn zero_padded(bytes: &[u8]) -> [u8; BLOCK]
    requires { length bytes.now ≤ block_bytes }
    ensures { result ≡ zero_padded bytes.now }
{
    let mut block = [0; BLOCK];
    block[..bytes.len()].copy_from_slice(bytes);
    block
}

/// A hasher of the exclusive or of the block and a pad.
fn hasher_of(block: &[u8; BLOCK], pad: u8) -> Sha256
    ensures { Holds256 result (block_xor block.now pad) }
{
    let mut hasher = Sha256::new();
    for i in 0..BLOCK {
        hasher.update([block[i] ^ pad]);
    }
    hasher
}
