// Names and words as the platform takes them.
ghost use Rattle.std.specs.Prelude.{◌≡◌, ◌∷◌, ◌++◌, IfOk, string_bytes};
ghost use Rattle.std.specs.Str.{is_utf8};

use crate::trouble::HostTrouble;
use std::alloc::{AllocError, Global};

/// The platform takes names and words of text alone.
pub fn text_of(bytes: &[u8]) -> Result<&str, HostTrouble>
    ensures { IfOk result (λ text. text.now ≡ bytes.now) }
{
    match str::from_utf8(bytes) {
        Ok(text) => Ok(text),
        Err(_) => Err(HostTrouble::Told("a name or a word is no text of UTF-8")),
    }
}

/// Whether the bytes are a text.
#[tactic(auto, using(crate::proofs::ToldBack::is_text, crate::proofs::ToldBack::is_no_text))]
pub(crate) fn is_text(bytes: &[u8]) -> bool
    ensures { result ≡ is_utf8 bytes.now }
{
    match str::from_utf8(bytes) {
        Ok(_) => true,
        Err(_) => false,
    }
}

/// The place of what has the path in the folder.
pub fn place_in(alloc: Global, folder: &str, path: &str) -> Result<String, AllocError>
    ensures { IfOk result (λ place. string_bytes place ≡ folder.now ++ 47 ∷ path.now) }
{
    let mut place = String::from_str(alloc, folder)?;
    place.push_str("/")?;
    place.push_str(path)?;
    Ok(place)
}

/// The path of the name in the folder with this path.
pub(crate) fn path_in(alloc: Global, path: &str, name: &str) -> Result<String, AllocError> {
    if path.is_empty() {
        return String::from_str(alloc, name);
    }
    place_in(alloc, path, name)
}
