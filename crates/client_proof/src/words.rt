// Roots as words.
ghost use Rattle.std.specs.Prelude.{◌≡◌};
ghost use Rattle.std.specs.List.{list_all};
ghost use Rattle.client_proof.specs.Words.{is_lower_digit, root_of_word};

use hex::FromHex;

/// The root that a word writes in 64 lower-case hexadecimal digits; `None` for any other word.
pub fn root_of_word(word: &[u8]) -> Option<[u8; 32]>
    ensures { result ≡ root_of_word word.now }
{
    if has_lower_digits(word) {
        return <[u8; 32] as FromHex>::from_hex(word).ok();
    }
    None
}

/// Whether each byte of a word is a hexadecimal digit, and no upper-case letter.
fn has_lower_digits(word: &[u8]) -> bool
    ensures { result ≡ list_all is_lower_digit word.now }
{
    word.iter().all(|byte| is_lower_digit(*byte))
}

/// Whether a byte is a hexadecimal digit, and no upper-case letter.
fn is_lower_digit(byte: u8) -> bool
    ensures { result ≡ is_lower_digit byte }
{
    matches!(byte, b'0'..=b'9' | b'a'..=b'f')
}
