// Sketches of contents, their spellings, and repairs by them.

use crate::given::{Given, last_of};
use crate::parts::Part;
use byte_fields::TakeError;
use rs_parity::{PARITY, Parities, Sketch, sketch_of};
use rs_repair::repair;
use std::alloc::{AllocError, Global};
use t_scene_files::{Fault, number};
use vol_tree::MAX_FILE;

/// The bytes of a parity.
const PARITY_BYTES: usize = 2 * PARITY;

fn content_of(given: &[Given]) -> Result<&[u8], Fault> {
    match last_of(given, Part::Bytes) {
        Some(one) => Ok(&one.bytes),
        None => Err(Fault::Line("there is no content")),
    }
}

/// The parity that bytes spell, two for each symbol.
fn parity_of(bytes: &[u8]) -> [u16; PARITY] {
    let mut parity = [0; PARITY];
    for i in 0..PARITY {
        let high = bytes.get(2 * i).copied().unwrap_or(0);
        let low = bytes.get(2 * i + 1).copied().unwrap_or(0);
        parity[i] = u16::from_be_bytes([high, low]);
    }
    parity
}

/// The parities that bytes spell.
fn parities_of(alloc: Global, bytes: &[u8]) -> Result<Parities, Fault> {
    let mut parities = Parities::new(alloc);
    let count = bytes.len() / PARITY_BYTES;
    if bytes.len() % PARITY_BYTES != 0 {
        drop(parities);
        return Err(Fault::Line("a parity has 64 bytes"));
    }
    let mut rest = bytes;
    for _ in 0..count {
        let (front, behind) = rest.split_at(PARITY_BYTES.min(rest.len()));
        parities.push(parity_of(front))?;
        rest = behind;
    }
    Ok(parities)
}

/// The content repaired by parities of a content of a given length.
pub(crate) fn repair_told(alloc: Global, given: &[Given]) -> Result<Vec<u8>, Fault> {
    let content = content_of(given)?;
    let Some(one) = last_of(given, Part::Parity) else {
        return Err(Fault::Line("there are no parities"));
    };
    let len = number(&one.first)?;
    let parities = parities_of(alloc, &one.bytes)?;
    let sketch = Sketch {
        len,
        print: [0; 32],
        parities,
    };
    let repaired = repair(alloc, content, &sketch);
    drop(sketch);
    let repaired = repaired?;
    let told = tell_repaired(alloc, &repaired);
    drop(repaired);
    Ok(told?)
}

fn tell_repaired(alloc: Global, repaired: &Option<Vec<u8>>) -> Result<Vec<u8>, AllocError> {
    let mut text = Vec::new(alloc);
    match repaired {
        Some(bytes) => {
            text.extend_from_slice(b"repaired\n")?;
            text.extend_from_slice(bytes)?;
        }
        None => text.extend_from_slice(b"beyond\n")?,
    }
    Ok(text)
}

/// The spelling of the content's sketch.
pub(crate) fn sketch_told(alloc: Global, given: &[Given]) -> Result<Vec<u8>, Fault> {
    let content = content_of(given)?;
    if content.len() > MAX_FILE {
        return Err(Fault::Line("the content is too large"));
    }
    let sketch = sketch_of(alloc, content)?;
    let told = tell_sketch(alloc, "sketch\n", &sketch);
    drop(sketch);
    Ok(told?)
}

/// How a copy of the sketch is spelled, behind a line.
fn tell_sketch(alloc: Global, line: &str, sketch: &Sketch) -> Result<Vec<u8>, AllocError> {
    let copy = sketch.copy()?;
    let mut text = Vec::new(alloc);
    let told = spell_behind(&mut text, line, &copy);
    drop(copy);
    told?;
    Ok(text)
}

fn spell_behind(text: &mut Vec<u8>, line: &str, sketch: &Sketch) -> Result<(), AllocError> {
    text.extend_from_slice(line.as_bytes())?;
    Sketch::spell(sketch, text)
}

/// The sketch that the bytes spell from a place on, and where it ends; or the place of the field at which they are refused.
pub(crate) fn taken_told(alloc: Global, given: &[Given]) -> Result<Vec<u8>, Fault> {
    let Some(one) = last_of(given, Part::Spelling) else {
        return Err(Fault::Line("there are no bytes"));
    };
    let place = number(&one.first)? as usize;
    let taken = if one.second.is_empty() {
        Sketch::take(alloc, &one.bytes, place)
    } else {
        Sketch::take_within(alloc, &one.bytes, place, number(&one.second)?)
    };
    match taken {
        Ok((sketch, next)) => {
            let told = tell_taken(alloc, &sketch, next);
            drop(sketch);
            Ok(told?)
        }
        Err(TakeError::At(place)) => Ok(format!(in alloc; "refused {place}\n")?.into_bytes()),
        Err(TakeError::Memory) => Err(Fault::Memory),
    }
}

fn tell_taken(alloc: Global, sketch: &Sketch, next: usize) -> Result<Vec<u8>, AllocError> {
    let line = format!(in alloc; "taken {next}\n")?;
    let told = tell_sketch(alloc, &line, sketch);
    drop(line);
    told
}
