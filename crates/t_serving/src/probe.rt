//! What several tests need: a port, and the pages that words show.

use outside::{MemPort, MemSink};
use program_words::{Pages, page_shown};
use std::alloc::{AllocError, Global};

/// A port with these frames, whose calls of these numbers fail.
pub fn port_of(alloc: Global, frames: &[&[u8]], fails: &[u32]) -> Result<MemPort, AllocError> {
    let fails = fails.to_vec(alloc)?;
    let mut held = Vec::new(alloc);
    for frame in frames {
        held.push(frame.to_vec(alloc)?)?;
    }
    Ok(MemPort::new(alloc, held, fails))
}

/// The words of a program that has this one alone.
fn one_word(alloc: Global, word: &str) -> Result<Vec<String>, AllocError> {
    let word = String::from_str(alloc, word)?;
    Ok(vec![in alloc; word]?)
}

/// Whether a program with these pages shows one that begins so, where this is its only word.
pub fn shows(alloc: Global, pages: &Pages, word: &str, head: &str) -> Result<bool, AllocError> {
    let words = one_word(alloc, word)?;
    let mut output = MemSink::new(alloc, Vec::new(alloc));
    let is_shown = page_shown(pages, &words, &mut output).is_some();
    drop(words);
    let begins = output.bytes().starts_with(head.as_bytes());
    drop(output);
    Ok(is_shown && begins)
}
