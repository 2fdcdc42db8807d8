// What the file of a key says.
ghost use Rattle.std.specs.Prelude.{◌≡◌};
ghost use Rattle.client_keys.specs.KeyFile.{key_in};

use hex::decode_to_slice;

/// How many bytes a key has.
pub(crate) const KEY_BYTES: usize = 32;

/// How many hexadecimal digits spell it.
const DIGITS: usize = 64;

/// How many bytes the file of a key has: the digits and a line end.
pub(crate) const FILE_BYTES: usize = 65;

/// The key that a file of these bytes has: 64 hexadecimal digits, and a line end. Of any other form it has none.
pub fn key_in(text: &[u8]) -> Option<[u8; KEY_BYTES]>
    ensures { result ≡ key_in text.now }
{
    if text.len() != FILE_BYTES {
        return None;
    }
    let (digits, end) = text.split_at(DIGITS);
    if end[0] != b'\n' {
        return None;
    }
    let mut key = [0; KEY_BYTES];
    match decode_to_slice(digits, &mut key) {
        Ok(()) => Some(key),
        Err(_) => None,
    }
}
