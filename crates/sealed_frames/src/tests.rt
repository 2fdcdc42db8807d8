//! Tags beside those of RFC 4231 (its cases 1 to 4, 6 and 7), and sealed frames beside Python's `hmac`.

use crate::{Hmac, SealError, Way, open_answer, open_sealed, seal, tag_of};
use std::alloc::{AllocError, Global};
use std::rt::HostRuntime;
use std::test::Fail;

/// The HMAC of a text under a key, in hexadecimal digits. The text is given in two pieces.
fn tag(alloc: Global, key: &[u8], text: &[u8]) -> Result<String, AllocError> {
    let mut hmac = Hmac::new(key);
    let (front, back) = text.split_at(text.len() / 2);
    hmac.update(front);
    hmac.update(back);
    hex::encode(alloc, hmac.finalize())
}

#[test]
fn tags_are_those_of_the_standard(rt: HostRuntime) -> Result<(), Fail> {
    let counted: [u8; 25] = [
        1, 2, 3, 4, 5, 6, 7, 8, 9, 10, 11, 12, 13, 14, 15, 16, 17, 18, 19, 20, 21, 22, 23, 24, 25,
    ];
    let long =
        b"This is a test using a larger than block-size key and a larger than block-size data. \
          The key needs to be hashed before being used by the HMAC algorithm.";
    let rows: [(&[u8], &[u8], &str); 6] = [
        (
            &[0x0b; 20],
            b"Hi There",
            "b0344c61d8db38535ca8afceaf0bf12b881dc200c9833da726e9376c2e32cff7",
        ),
        (
            b"Jefe",
            b"what do ya want for nothing?",
            "5bdcc146bf60754e6a042426089575c75a003f089d2739839dec58b964ec3843",
        ),
        (
            &[0xaa; 20],
            &[0xdd; 50],
            "773ea91e36800e46854db8ebd09181a72959098b3ef8c122d9635514ced565fe",
        ),
        (
            &counted,
            &[0xcd; 50],
            "82558a389a443c0ea4cc819899f2083a85f0faa3e578f8077a2e3ff46729665b",
        ),
        (
            &[0xaa; 131],
            b"Test Using Larger Than Block-Size Key - Hash Key First",
            "60e431591ee0b67f0d8a26aacbf5b77f8e0bc6213728c5140546040f0ee37f54",
        ),
        (
            &[0xaa; 131],
            long,
            "9b09ffa71b942fcb27635fbcd5b0e944bfdc63644f0713938a7f51535c3a35e2",
        ),
    ];
    for (key, text, expected) in &rows {
        assert!(rt; tag(rt.alloc(), key, text)?.as_str() == *expected);
    }
    Ok(())
}

/// The key of client 2.
const KEY: [u8; 32] = [7; 32];

/// The keys of clients 2 and 3.
const KEYS: [Option<[u8; 32]>; 4] = [None, None, Some(KEY), Some([8; 32])];

/// A pull of client 2.
const PULL: [u8; 15] = [0, 0, 0, 11, 3, 3, 2, 0, 0, 0, 0, 0, 0, 0, 1];

/// That a frame had no kind.
const MALFORMED: [u8; 20] = [0, 0, 0, 16, 3, 31, 0, 0, 0, 0, 0, 0, 0, 0, 0, 3, 0, 0, 0, 0];

/// The place of the client's number in a sealed frame.
const CLIENT: usize = 43;

#[test]
fn asks_are_sealed_and_opened(rt: HostRuntime) -> Result<(), Fail> {
    let sealed = seal(rt.alloc(), &KEY, &Way::ToServer, &PULL)?;
    let text = hex::encode(rt.alloc(), sealed.as_slice())?;
    assert!(rt;
        text.as_str()
            == "00000030e57023dc5182a5bcea621a7a2691fb8ba68c88f5a2fbdcb2e2014923aa7662132f0000000b0303020000000000000001"
    );
    match open_sealed(&KEYS, &Way::ToServer, &sealed) {
        Ok(opened) => assert!(rt; opened.frame == PULL.as_slice() && opened.key == KEY),
        Err(_) => assert!(rt; false),
    }
    Ok(())
}

#[test]
fn answers_are_opened_by_the_tag_of_their_ask(rt: HostRuntime) -> Result<(), Fail> {
    let asked = tag_of(&KEY, &Way::ToServer, &PULL);
    let sealed = seal(rt.alloc(), &KEY, &Way::Back(asked), &MALFORMED)?;
    let text = hex::encode(rt.alloc(), sealed.as_slice())?;
    assert!(rt;
        text.as_str()
            == "00000035e594c068b48f539b64f32a65e36dca6c80755dd12b7f5e065db14155d68d77119b00000010031f0000000000000000000300000000"
    );
    assert!(rt; open_answer(&KEY, &asked, &sealed) == Ok(MALFORMED.as_slice()));
    assert!(rt; open_answer(&KEY, &[7; 32], &sealed) == Err(SealError::OtherTag));
    assert!(rt; open_answer(&[8; 32], &asked, &sealed) == Err(SealError::OtherTag));
    assert!(rt; open_answer(&KEY, &asked, &MALFORMED) == Err(SealError::NoSeal));
    Ok(())
}

/// The sealed pull with the bits of `with` turned at a place.
fn turned(alloc: Global, place: usize, with: u8) -> Result<Vec<u8>, AllocError> {
    let mut sealed = seal(alloc, &KEY, &Way::ToServer, &PULL)?;
    if place < sealed.len() {
        sealed[place] ^= with;
    }
    Ok(sealed)
}

#[test]
fn strangers_are_refused_each_for_its_reason(rt: HostRuntime) -> Result<(), Fail> {
    let rows: [(usize, u8, SealError); 7] = [
        (3, 1, SealError::NoSeal),
        (4, 1, SealError::NoSeal),
        (5, 1, SealError::OtherTag),
        (36, 128, SealError::OtherTag),
        (51, 1, SealError::OtherTag),
        (CLIENT, 1, SealError::OtherTag),
        (CLIENT, 3, SealError::NoKey),
    ];
    for (place, with, reason) in &rows {
        let sealed = turned(rt.alloc(), *place, *with)?;
        let opened = open_sealed(&KEYS, &Way::ToServer, &sealed);
        assert!(rt; opened.err() == Some(*reason));
    }
    let sealed = seal(rt.alloc(), &KEY, &Way::ToServer, &PULL)?;
    let other_way = open_sealed(&KEYS, &Way::ToSurrogate, &sealed);
    assert!(rt; other_way.err() == Some(SealError::OtherTag));
    let plain = open_sealed(&KEYS, &Way::ToServer, &PULL);
    assert!(rt; plain.err() == Some(SealError::NoSeal));
    Ok(())
}
