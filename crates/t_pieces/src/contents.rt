//! That calls succeed, that steps do what a reader of their fields thinks, and that little goes for a small change.

ghost use Rattle.std.specs.Prelude.{◌<◌, length};

use delta_pieces::{ExpandError, Pieces, Step, expand, pieces_of};
use std::alloc::{AllocError, Global};

/// Over `abcdef`: `X` and `abc`, then `fXab`, and `yz` at the end.
fn example(alloc: Global) -> Result<Pieces, AllocError> {
    let mut pieces = Pieces::new(alloc);
    pieces.steps.push(Step {
        fresh: 1,
        from: 0,
        count: 3,
    })?;
    pieces.steps.push(Step {
        fresh: 0,
        from: 5,
        count: 4,
    })?;
    pieces.fresh.extend_from_slice(b"Xyz")?;
    Ok(pieces)
}

/// The step that is refused where the example may have so many bytes over these; `None`: it is as it should be.
fn refused(alloc: Global, known: &[u8], most: usize) -> Result<Option<usize>, ExpandError>
    requires { length known.now < 100 }
{
    let pieces = example(alloc)?;
    let content = expand(alloc, known, &pieces, most.min(100));
    drop(pieces);
    match content {
        Ok(content) if content.as_slice() == b"XabcfXabyz".as_slice() => Ok(None),
        Ok(_) => Ok(Some(99)),
        Err(ExpandError::BadStep(i)) => Ok(Some(i)),
        Err(ExpandError::Memory) => Err(ExpandError::Memory),
    }
}

#[test]
fn steps_take_new_bytes_and_repeat(rt: HostRuntime) -> Result<(), ExpandError> {
    assert!(rt; refused(rt.alloc(), b"abcdef", 10)?.is_none());
    // what is left is too much, then a step is, and then a range does not stand
    assert!(rt; refused(rt.alloc(), b"abcdef", 9)? == Some(2));
    assert!(rt; refused(rt.alloc(), b"abcdef", 7)? == Some(1));
    assert!(rt; refused(rt.alloc(), b"abc", 10)? == Some(1));
    assert!(rt; refused(rt.alloc(), b"a", 10)? == Some(0));
    Ok(())
}

/// Lines that differ in their numbers.
fn lines(alloc: Global) -> Result<Vec<u8>, AllocError> {
    let mut text = Vec::new(alloc);
    for number in 0..200_u32 {
        let line = format!(in alloc;
            "line {} of the text, and {} at its end\n",
            number,
            number * 7_919 % 1_000
        )?;
        text.extend_from_slice(line.as_bytes())?;
    }
    Ok(text)
}

/// How many new bytes and steps a text with one letter changed takes, over the text; `None`: it does not come back.
fn changed(alloc: Global) -> Result<Option<(usize, usize)>, ExpandError> {
    let known = lines(alloc)?;
    let mut content = Vec::from_slice(alloc, &known)?;
    if let Some(byte) = content.get_mut(3_000) {
        *byte = b'#';
    }
    if known.len() > 100_000 || content.len() > 100_000 {
        return Ok(None);
    }
    let pieces = pieces_of(alloc, &known, &content)?;
    let back = expand(alloc, &known, &pieces, content.len())?;
    if back.as_slice() == content.as_slice() {
        Ok(Some((pieces.fresh.len(), pieces.steps.len())))
    } else {
        Ok(None)
    }
}

#[test]
fn a_changed_letter_takes_few_bytes(rt: HostRuntime) -> Result<(), ExpandError> {
    let taken = changed(rt.alloc())?;
    assert!(rt; matches!(taken, Some((fresh, steps)) if fresh <= 8 && steps <= 3));
    Ok(())
}
