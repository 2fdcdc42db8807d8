//! The words of a line.

ghost use Rattle.std.specs.Prelude.{◌≡◌, ◌≤◌, ◌+◌, ◌^◌, ◌<◌, drop, length, position, IfSome};
ghost use Rattle.std.specs.Option.{option_map};
ghost use Rattle.shell_lang.specs.Words.{GivesLine, EndsFirst, is_quote, is_mark, bare_word, closed_word, word_of, words_of};

use crate::line::LineError;
use byte_fields::saturate_u32;
use memchr::{memchr, memchr2};
use std::alloc::Global;
use vol_tree::{Content, List};

/// The words of a line, from the left.
#[tactic(auto, using(crate::proofs::Pieces::next_word, crate::proofs::Pieces::refused_word, crate::proofs::Pieces::last_word))]
pub(crate) fn split_words(alloc: Global, line: &[u8]) -> Result<List<Content>, LineError>
    ensures { GivesLine result (words_of line.now) }
{
    let mut words = List::new(alloc);
    let mut rest = line;
    while let Some(end) = first_end(rest) {
        words.push(read_word(alloc, words.len(), &rest[..end])?)?;
        rest = rest.split_at(end + 1).1;
    }
    words.push(read_word(alloc, words.len(), rest)?)?;
    Ok(words)
}

/// The place of the first space outside quotes.
#[tactic(auto)]
fn first_end(text: &[u8]) -> Option<usize>
    ensures within { IfSome result (λ end. end < length text.now) }
    ensures fits { IfSome result (λ end. end + 1 < 2 ^ 64) }
    ensures ends { EndsFirst text.now result }
{
    let mut inside = false;
    let mut at = 0;
    while let Some(mark) = next_mark(text, at, inside) {
        if text[mark] == b' ' {
            return Some(mark);
        }
        inside = !inside;
        at = mark + 1;
    }
    None
}

/// The next place of a quote, and of a space where it is outside quotes.
fn next_mark(text: &[u8], at: usize, inside: bool) -> Option<usize>
    requires { at ≤ length text.now }
    ensures { result ≡ option_map (λ i. at + i) (position (is_mark inside) (drop at text.now)) }
{
    match first_mark(&text[at..], inside) {
        Some(i) => Some(at + i),
        None => None,
    }
}

/// The first place of a quote, and of a space where it is outside quotes.
fn first_mark(text: &[u8], inside: bool) -> Option<usize>
    ensures { result ≡ position (is_mark inside) text.now }
{
    if inside {
        memchr(b'\'', text)
    } else {
        memchr2(b'\'', b' ', text)
    }
}

/// Word `i`, which this piece of the line spells.
fn read_word(alloc: Global, i: usize, piece: &[u8]) -> Result<Content, LineError>
    ensures { GivesLine result (word_of i piece.now) }
{
    match piece {
        [b'\'', inner @ ..] => read_quoted(alloc, i, inner),
        _ => read_bare(alloc, i, piece),
    }
}

/// Word `i`, from what stands behind its first quote.
fn read_quoted(alloc: Global, i: usize, inner: &[u8]) -> Result<Content, LineError>
    ensures { GivesLine result (closed_word i inner.now (position is_quote inner.now)) }
{
    let Some(end) = first_quote(inner) else {
        return Err(LineError::OpenQuote);
    };
    if end + 1 != inner.len() {
        return Err(LineError::BadWord(saturate_u32(i)));
    }
    Ok(Content::of(alloc, &inner[..end])?)
}

/// Word `i`, which begins with no quote.
fn read_bare(alloc: Global, i: usize, piece: &[u8]) -> Result<Content, LineError>
    ensures { GivesLine result (bare_word i piece.now) }
{
    if piece.is_empty() || first_quote(piece).is_some() {
        return Err(LineError::BadWord(saturate_u32(i)));
    }
    Ok(Content::of(alloc, piece)?)
}

/// The place of the first quote.
fn first_quote(text: &[u8]) -> Option<usize>
    ensures { result ≡ position is_quote text.now }
{
    memchr(b'\'', text)
}
