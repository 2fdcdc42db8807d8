//! What the parts of a command have to be.

ghost use Rattle.std.specs.Prelude.{◌≡◌};
ghost use Rattle.std.specs.List.{list_all};
ghost use Rattle.cmd_capture.specs.Rules as rules;

use crate::limits::MAX_TEMPLATE;

fn is_text_byte(b: u8) -> bool
    ensures { result ≡ rules.is_text_byte b }
{
    b != 0
}

/// Whether no byte is zero.
pub(crate) fn is_text(bytes: &[u8]) -> bool
    ensures { result ≡ rules.is_text bytes.now }
{
    bytes.iter().all(|b| is_text_byte(*b))
}

/// Whether it begins with `/`.
pub(crate) fn is_absolute(bytes: &[u8]) -> bool
    ensures { result ≡ rules.is_absolute bytes.now }
{
    bytes.starts_with(b"/")
}

/// Whether it is a text that begins with `/`.
pub(crate) fn is_program(bytes: &[u8]) -> bool
    ensures { result ≡ rules.is_program bytes.now }
{
    is_text(bytes) && is_absolute(bytes)
}

fn is_key_byte(b: u8) -> bool
    ensures { result ≡ rules.is_key_byte b }
{
    is_text_byte(b) && b != b'='
}

/// Whether it is the key of a variable: at least one byte, none of them zero or `=`.
pub(crate) fn is_key(bytes: &[u8]) -> bool
    ensures { result ≡ rules.is_key bytes.now }
{
    1 <= bytes.len() && has_key_bytes(bytes)
}

fn has_key_bytes(bytes: &[u8]) -> bool
    ensures { result ≡ list_all rules.is_key_byte bytes.now }
{
    bytes.iter().all(|b| is_key_byte(*b))
}

fn is_pattern_byte(b: u8) -> bool
    ensures { result ≡ rules.is_pattern_byte b }
{
    is_text_byte(b) && b != b'/'
}

/// Whether no byte is zero or `/`.
pub(crate) fn is_pattern(bytes: &[u8]) -> bool
    ensures { result ≡ rules.is_pattern bytes.now }
{
    bytes.iter().all(|b| is_pattern_byte(*b))
}

/// Whether it is a template: 1 to 255 bytes, none of them zero or `/`.
pub(crate) fn is_template(bytes: &[u8]) -> bool
    ensures { result ≡ rules.is_template bytes.now }
{
    1 <= bytes.len() && bytes.len() <= MAX_TEMPLATE && is_pattern(bytes)
}
