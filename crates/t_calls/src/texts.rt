// Values as text.

use std::alloc::{AllocError, Global};
use vol_tree::{Content, Path, Paths};

/// Appends a text, which ends by that.
pub(crate) fn put_text(text: &mut Vec<u8>, more: String) -> Result<(), AllocError> {
    let done = text.extend_from_slice(more.as_bytes());
    drop(more);
    done
}

/// Appends a word.
pub(crate) fn put_word(text: &mut Vec<u8>, word: &str) -> Result<(), AllocError> {
    text.extend_from_slice(word.as_bytes())
}

/// Appends a word, bytes, and a line end.
pub(crate) fn put_line(text: &mut Vec<u8>, word: &str, bytes: &[u8]) -> Result<(), AllocError> {
    put_word(text, word)?;
    text.extend_from_slice(bytes)?;
    put_word(text, "\n")
}

/// Appends a word and a number.
pub(crate) fn put_number(
    alloc: Global,
    text: &mut Vec<u8>,
    word: &str,
    number: u64,
) -> Result<(), AllocError> {
    put_word(text, word)?;
    put_text(text, number.to_string(alloc)?)
}

/// Appends a word and the text of a path.
pub(crate) fn put_path(text: &mut Vec<u8>, word: &str, path: &Path) -> Result<(), AllocError> {
    put_word(text, word)?;
    let name = path.text()?;
    let done = text.extend_from_slice(name.bytes());
    drop(name);
    done
}

/// Appends a line of a word and the text of a path.
pub(crate) fn put_path_line(text: &mut Vec<u8>, word: &str, path: &Path) -> Result<(), AllocError> {
    put_path(text, word, path)?;
    put_word(text, "\n")
}

/// Appends such a line for each path.
pub(crate) fn put_paths(text: &mut Vec<u8>, word: &str, paths: &[Path]) -> Result<(), AllocError> {
    for path in paths {
        put_path_line(text, word, path)?;
    }
    Ok(())
}

/// Appends such a line for each touched path, and ends them.
pub(crate) fn put_touched(text: &mut Vec<u8>, touched: Paths) -> Result<(), AllocError> {
    let done = put_paths(text, "touches ", touched.as_slice());
    drop(touched);
    done
}

/// Appends a line of two paths.
pub(crate) fn put_move(text: &mut Vec<u8>, from: &Path, to: &Path) -> Result<(), AllocError> {
    put_path(text, "move ", from)?;
    put_path_line(text, " ", to)
}

/// Appends a line of the path of a file, and 1 where it may be run, else 0.
pub(crate) fn put_mode(text: &mut Vec<u8>, path: &Path, exec: bool) -> Result<(), AllocError> {
    put_path(text, "mode ", path)?;
    put_word(text, if exec { " 1\n" } else { " 0\n" })
}

/// Appends a word, how many bytes a file has, and these behind a line end.
pub(crate) fn put_file(
    alloc: Global,
    text: &mut Vec<u8>,
    word: &str,
    content: &Content,
) -> Result<(), AllocError> {
    let bytes = content.bytes();
    put_number(alloc, text, word, bytes.len() as u64)?;
    put_line(text, "", b"")?;
    text.extend_from_slice(bytes)
}

const DIGITS: [u8; 16] = *b"0123456789abcdef";

/// Appends a line of a word and the bytes' hexadecimal digits.
pub(crate) fn put_digits(text: &mut Vec<u8>, word: &str, bytes: &[u8]) -> Result<(), AllocError> {
    put_word(text, word)?;
    for byte in bytes {
        text.push(DIGITS[(*byte / 16) as usize])?;
        text.push(DIGITS[(*byte % 16) as usize])?;
    }
    put_word(text, "\n")
}
