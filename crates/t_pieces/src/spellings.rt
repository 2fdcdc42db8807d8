//! Numbers and steps beside their bytes, which were worked out by hand.

use delta_pieces::Step;
use short_numbers::{MAX_NUMBER, put_number, split_number};
use std::alloc::{AllocError, Global};
use std::rt::HostRuntime;
use std::test::Fail;
use step_spelling::{StepsError, split_steps};

/// The bytes of a number.
fn spelling(alloc: Global, number: u32) -> Result<Vec<u8>, AllocError> {
    let mut bytes = Vec::new(alloc);
    put_number(number.min(MAX_NUMBER), &mut bytes)?;
    Ok(bytes)
}

#[test]
fn the_first_byte_tells_how_many(rt: HostRuntime) -> Result<(), Fail> {
    let rows: [(u32, &[u8]); 8] = [
        (0, &[0]),
        (191, &[191]),
        (192, &[192, 0]),
        (8_383, &[223, 255]),
        (8_384, &[224, 0, 0]),
        (1_581_247, &[247, 255, 255]),
        (1_581_248, &[248, 0, 0, 0]),
        (135_798_975, &[255, 255, 255, 255]),
    ];
    for (number, bytes) in rows {
        assert!(rt; spelling(rt.alloc(), number)?.as_slice() == bytes);
        assert!(rt;
            matches!(split_number(bytes), Some((read, rest)) if read == number && rest.is_empty())
        );
    }
    assert!(rt; split_number(&[224, 0]).is_none());
    Ok(())
}

/// Three steps over six known bytes: the second has a distance of 5, and the third the same.
const SPELLED: [u8; 9] = [3, 25, 7, 32, 5, 15, 2, 0, 99];

/// How many steps are at the front of the bytes, with the last one and how many bytes stand behind them.
fn read(alloc: Global, bytes: &[u8]) -> Result<Option<(usize, Option<Step>, usize)>, AllocError> {
    match split_steps(alloc, 6, bytes) {
        Ok((steps, rest)) => Ok(Some((steps.len(), steps.last().copied(), rest.len()))),
        Err(StepsError::NoSteps) => Ok(None),
        Err(StepsError::Memory) => Err(AllocError),
    }
}

#[test]
fn steps_are_read_as_they_are_spelled(rt: HostRuntime) -> Result<(), Fail> {
    let last = Step {
        fresh: 9,
        from: 18,
        count: 1,
    };
    assert!(rt; read(rt.alloc(), &SPELLED)? == Some((3, Some(last), 1)));
    for end in 0..8 {
        assert!(rt; read(rt.alloc(), &SPELLED[..end])?.is_none());
    }
    // a range that begins as far back as none before, one before all bytes, and one that begins at the last of them
    assert!(rt; read(rt.alloc(), &[1, 8, 0])?.is_none());
    assert!(rt; read(rt.alloc(), &[1, 8, 7])?.is_none());
    assert!(rt; read(rt.alloc(), &[1, 8, 6])?.is_some());
    Ok(())
}
