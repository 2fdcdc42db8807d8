// Lines of a block, and the bytes that they stand for.

use crate::fault::Fault;
use std::alloc::{AllocError, Global};

/// A text that a file gives a name.
#[derive(Drop)]
pub(crate) struct Text {
    name: String,
    bytes: Vec<u8>,
    /// The number of the line that gives it its name.
    pub(crate) line: u32,
    pub(crate) is_used: bool,
}

impl Text {
    /// A text that nothing uses yet.
    pub(crate) fn new(
        alloc: Global,
        name: &str,
        bytes: &[u8],
        line: u32,
    ) -> Result<Text, AllocError> {
        let bytes = bytes.to_vec(alloc)?;
        match String::from_str(alloc, name) {
            Ok(name) => Ok(Text {
                name,
                bytes,
                line,
                is_used: false,
            }),
            Err(refused) => {
                drop(bytes);
                Err(refused)
            }
        }
    }
}

/// Whether a text has the name.
pub(crate) fn has_name(texts: &[Text], name: &str) -> bool {
    texts.iter().any(|text| text.name.as_str() == name)
}

/// Appends the text of this name, which is used by that.
fn add_named(block: &mut Vec<u8>, texts: &mut [Text], name: &str) -> Result<(), Fault> {
    for text in texts {
        if text.name.as_str() == name {
            text.is_used = true;
            return Ok(block.extend_from_slice(&text.bytes)?);
        }
    }
    Err(Fault::Line("no text has this name"))
}

/// The first word of a line, and what stands behind it.
pub(crate) fn first_word(line: &str) -> (&str, &str) {
    match line.split_once(' ') {
        Some(parts) => parts,
        None => (line, ""),
    }
}

/// How a line of a block begins.
#[derive(Clone, Copy)]
pub(crate) enum Sign {
    Line,
    Text,
    Copies,
    Lines,
    Digits,
    DigitsWithNumbers,
    Named,
}

/// The sign that this word is, where it is one of a block.
pub(crate) fn sign_of(word: &str) -> Option<Sign> {
    let [sign] = *word.as_bytes() else {
        return None;
    };
    match sign {
        b'|' => Some(Sign::Line),
        b'+' => Some(Sign::Text),
        b'*' => Some(Sign::Copies),
        b'=' => Some(Sign::Lines),
        b':' => Some(Sign::Digits),
        b'&' => Some(Sign::DigitsWithNumbers),
        b'$' => Some(Sign::Named),
        _ => None,
    }
}

/// Appends what a line of a block stands for: this text behind its sign.
pub(crate) fn add_line(
    alloc: Global,
    block: &mut Vec<u8>,
    texts: &mut [Text],
    sign: Sign,
    text: &str,
) -> Result<(), Fault> {
    match sign {
        Sign::Line => Ok(add_text(block, text)?),
        Sign::Text => Ok(block.extend_from_slice(text.as_bytes())?),
        Sign::Copies => add_copies(alloc, block, text),
        Sign::Lines => add_lines(alloc, block, text),
        Sign::Digits => add_digits(block, text),
        Sign::DigitsWithNumbers => add_digits_with_numbers(alloc, block, text),
        Sign::Named => add_named(block, texts, text),
    }
}

/// A text and a line end.
fn add_text(block: &mut Vec<u8>, text: &str) -> Result<(), AllocError> {
    block.extend_from_slice(text.as_bytes())?;
    block.push(b'\n')?;
    Ok(())
}

/// `COUNT TEXT`: so many copies of the text.
fn add_copies(alloc: Global, block: &mut Vec<u8>, text: &str) -> Result<(), Fault> {
    let (count, text) = first_word(text);
    let count = number(count)?;
    match text.as_bytes() {
        [byte] => Ok(add_bytes(alloc, block, *byte, count)?),
        bytes => {
            for _ in 0..count {
                block.extend_from_slice(bytes)?;
            }
            Ok(())
        }
    }
}

/// So many copies of a byte.
fn add_bytes(alloc: Global, block: &mut Vec<u8>, byte: u8, count: u32) -> Result<(), AllocError> {
    let bytes = vec![in alloc; byte; count as usize]?;
    block.extend_from_slice(&bytes)
}

/// `FIRST LAST`, and what stands behind both.
fn range_of(text: &str) -> Result<(u32, u32, &str), Fault> {
    let (first, text) = first_word(text);
    let (last, text) = first_word(text);
    let (first, last) = (number(first)?, number(last)?);
    if first > last {
        return Err(Fault::Line("the range is empty"));
    }
    Ok((first, last, text))
}

/// `FIRST LAST TEXT`: a line for each of these numbers, for which each `#` of the text stands.
fn add_lines(alloc: Global, block: &mut Vec<u8>, text: &str) -> Result<(), Fault> {
    let (first, last, text) = range_of(text)?;
    if text.is_empty() {
        let count = last.saturating_sub(first).saturating_add(1);
        return Ok(add_bytes(alloc, block, b'\n', count)?);
    }
    for number in first..=last {
        let digits = number.to_string(alloc)?;
        let added = add_line_of(block, text, &digits);
        drop(digits);
        added?;
    }
    Ok(())
}

fn add_line_of(block: &mut Vec<u8>, text: &str, digits: &str) -> Result<(), AllocError> {
    for byte in text.bytes() {
        if byte == b'#' {
            block.extend_from_slice(digits.as_bytes())?;
        } else {
            block.push(byte)?;
        }
    }
    block.push(b'\n')?;
    Ok(())
}

/// `FIRST LAST DIGITS`: for each of these numbers what the hexadecimal digits spell, each `#` between them the number as text.
fn add_digits_with_numbers(alloc: Global, block: &mut Vec<u8>, text: &str) -> Result<(), Fault> {
    let (first, last, text) = range_of(text)?;
    for number in first..=last {
        let digits = number.to_string(alloc)?;
        let added = add_digits_around(block, text, &digits);
        drop(digits);
        added?;
    }
    Ok(())
}

fn add_digits_around(block: &mut Vec<u8>, text: &str, number: &str) -> Result<(), Fault> {
    let mut is_first = true;
    for piece in text.split('#') {
        if !is_first {
            block.extend_from_slice(number.as_bytes())?;
        }
        is_first = false;
        add_digits(block, piece)?;
    }
    Ok(())
}

/// The bytes that hexadecimal digits spell, two each, up to a `;`. Spaces may stand between bytes.
fn add_digits(block: &mut Vec<u8>, text: &str) -> Result<(), Fault> {
    let mut high: Option<u8> = None;
    for letter in text.bytes() {
        let digit = match letter {
            b'0'..=b'9' => letter - b'0',
            b'a'..=b'f' => letter - b'a' + 10,
            b' ' if high.is_none() => continue,
            b';' => break,
            _ => return Err(Fault::Line("that is no hexadecimal digit")),
        };
        high = match high {
            None => Some(digit),
            Some(first) => {
                block.push(first.wrapping_mul(16).wrapping_add(digit))?;
                None
            }
        };
    }
    match high {
        None => Ok(()),
        Some(_) => Err(Fault::Line("a byte has two hexadecimal digits")),
    }
}

/// The number that a word tells.
pub fn number(word: &str) -> Result<u32, Fault> {
    match word.parse::<u32>() {
        Ok(number) => Ok(number),
        Err(_) => Err(Fault::Line("a number is wanted")),
    }
}

/// `CALL` or `FIRST-LAST`: the first and the last of several calls.
pub fn calls(word: &str) -> Result<(u32, u32), Fault> {
    match word.split_once('-') {
        Some((first, last)) => Ok((number(first)?, number(last)?)),
        None => {
            let call = number(word)?;
            Ok((call, call))
        }
    }
}

/// A number that fits a byte.
pub fn small(word: &str) -> Result<u8, Fault> {
    match word.parse::<u8>() {
        Ok(number) => Ok(number),
        Err(_) => Err(Fault::Line("a number up to 255 is wanted")),
    }
}
