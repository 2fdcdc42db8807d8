//! Parts of a short frame, byte by byte.

use crate::{
    FIRST_SIZE, Fronts, Have, Outcome, Put, next_size, put_have, put_part, read_have, read_part,
};
use std::alloc::{AllocError, Global};
use std::rt::HostRuntime;
use std::test::Fail;

/// A frame of client 7.
const FRAME: [u8; 10] = [0, 0, 0, 6, 3, 0, 7, 1, 2, 3];

/// Its first four bytes, in a part.
const FRONT: [u8; 51] = [
    0, 0, 0, 47, 230, 1, 7, 139, 91, 239, 179, 82, 69, 145, 121, 223, 58, 4, 88, 228, 203, 80, 136,
    153, 81, 225, 135, 232, 255, 65, 7, 83, 8, 152, 23, 167, 123, 29, 177, 0, 0, 0, 10, 0, 0, 0, 0,
    0, 0, 0, 6,
];

/// The six behind them.
const REST: [u8; 53] = [
    0, 0, 0, 49, 230, 1, 7, 139, 91, 239, 179, 82, 69, 145, 121, 223, 58, 4, 88, 228, 203, 80, 136,
    153, 81, 225, 135, 232, 255, 65, 7, 83, 8, 152, 23, 167, 123, 29, 177, 0, 0, 0, 10, 0, 0, 0, 4,
    3, 0, 7, 1, 2, 3,
];

/// Six that are not of the frame.
const OTHER: [u8; 53] = [
    0, 0, 0, 49, 230, 1, 7, 139, 91, 239, 179, 82, 69, 145, 121, 223, 58, 4, 88, 228, 203, 80, 136,
    153, 81, 225, 135, 232, 255, 65, 7, 83, 8, 152, 23, 167, 123, 29, 177, 0, 0, 0, 10, 0, 0, 0, 4,
    3, 0, 7, 1, 2, 4,
];

/// What is told where the frame is whole, and where the bytes are those of no part.
const WHOLE: u32 = 1_000;

const NO_PART: u32 = 1_001;

/// How many bytes are there behind a part.
fn come(fronts: &mut Fronts, bytes: &[u8]) -> Result<u32, AllocError> {
    match read_part(bytes) {
        Some((part, piece)) => match fronts.put(&part, piece, 0)? {
            Put::Have(count) => Ok(count),
            Put::Whole(frame) => Ok(if frame.as_slice() == FRAME.as_slice() {
                WHOLE
            } else {
                0
            }),
        },
        None => Ok(NO_PART),
    }
}

#[test]
fn parts_have_these_bytes(rt: HostRuntime) -> Result<(), Fail> {
    match read_part(&REST) {
        Some((part, piece)) => {
            assert!(rt; part.client == 7 && part.size == 10 && part.at == 4);
            assert!(rt; piece == &FRAME[4..]);
            assert!(rt; put_part(rt.alloc(), &part, piece)?.as_slice() == REST.as_slice());
        }
        None => assert!(rt; false),
    }
    assert!(rt; read_part(&REST[..46]).is_none());
    Ok(())
}

#[test]
fn answers_have_these_bytes(rt: HostRuntime) -> Result<(), Fail> {
    let bytes = put_have(Have {
        client: 7,
        count: 258,
    });
    assert!(rt; bytes == [0, 0, 0, 7, 0xe6, 2, 7, 0, 0, 1, 2]);
    match read_have(&bytes) {
        Some(have) => assert!(rt; have.client == 7 && have.count == 258),
        None => assert!(rt; false),
    }
    Ok(())
}

#[test]
fn a_frame_comes_in_parts(rt: HostRuntime) -> Result<(), Fail> {
    let mut fronts = Fronts::new(rt.alloc(), true);
    assert!(rt; come(&mut fronts, &REST)? == 0);
    assert!(rt; come(&mut fronts, &FRONT)? == 4);
    assert!(rt; come(&mut fronts, &FRONT)? == 4);
    assert!(rt; come(&mut fronts, &REST)? == WHOLE);
    assert!(rt; come(&mut fronts, &REST)? == WHOLE);
    assert!(rt; come(&mut fronts, &OTHER)? == 0);
    assert!(rt; come(&mut fronts, &REST)? == 0);
    Ok(())
}

#[test]
fn parts_grow_and_shrink(rt: HostRuntime) -> Result<(), Fail> {
    assert!(rt; next_size(0, Outcome::Answered(9)) == FIRST_SIZE);
    assert!(rt; next_size(8_192, Outcome::Answered(3)) == 16_384);
    assert!(rt; next_size(8_192, Outcome::Answered(15)) == 8_192);
    assert!(rt; next_size(8_192, Outcome::Answered(16)) == 4_096);
    assert!(rt; next_size(1_025, Outcome::Broke) == 1_024);
    Ok(())
}
