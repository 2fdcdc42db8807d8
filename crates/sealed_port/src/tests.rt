//! Strangers at a sealed port, and a client that is answered.

use crate::SealedPort;
use outside::{MemPort, Port, PortError};
use sealed_frames::{SealError, Way, open_answer, seal, tag_of};
use std::alloc::{AllocError, Global};
use std::rt::HostRuntime;
use std::test::Fail;

/// The key of client 2.
const KEY: [u8; 32] = [7; 32];

/// The key of client 3.
const OTHER_KEY: [u8; 32] = [8; 32];

/// A pull of client 2.
const PULL: [u8; 15] = [0, 0, 0, 11, 3, 3, 2, 0, 0, 0, 0, 0, 0, 0, 1];

/// A pull of client 1, who has no key.
const STRANGE: [u8; 15] = [0, 0, 0, 11, 3, 3, 1, 0, 0, 0, 0, 0, 0, 0, 1];

/// An answer of the server to client 2.
const DONE: [u8; 15] = [0, 0, 0, 11, 3, 22, 2, 0, 0, 0, 0, 0, 0, 0, 1];

/// The pull of client 2, sealed by its key, with the lowest bit turned at a place.
fn turned(alloc: Global, place: usize) -> Result<Vec<u8>, AllocError> {
    let mut sealed = seal(alloc, &KEY, &Way::ToServer, &PULL)?;
    if place < sealed.len() {
        sealed[place] ^= 1;
    }
    Ok(sealed)
}

/// What strangers send, each with why it is refused, and behind them what client 2 sends.
fn sent(alloc: Global) -> Result<(Vec<Vec<u8>>, [SealError; 8]), AllocError> {
    let asked = tag_of(&KEY, &Way::ToServer, &PULL);
    let mut frames = Vec::new(alloc);
    frames.push(PULL.to_vec(alloc)?)?;
    frames.push(seal(alloc, &OTHER_KEY, &Way::ToServer, &PULL)?)?;
    frames.push(seal(alloc, &KEY, &Way::ToSurrogate, &PULL)?)?;
    frames.push(seal(alloc, &KEY, &Way::ToServer, &STRANGE)?)?;
    frames.push(turned(alloc, 5)?)?;
    frames.push(turned(alloc, 51)?)?;
    frames.push(turned(alloc, 3)?)?;
    frames.push(seal(alloc, &KEY, &Way::Back(asked), &DONE)?)?;
    frames.push(seal(alloc, &KEY, &Way::ToServer, &PULL)?)?;
    let reasons = [
        SealError::NoSeal,
        SealError::OtherTag,
        SealError::OtherTag,
        SealError::NoKey,
        SealError::OtherTag,
        SealError::OtherTag,
        SealError::NoSeal,
        SealError::OtherTag,
    ];
    Ok((frames, reasons))
}

#[test]
fn strangers_are_refused_and_a_client_is_answered(rt: HostRuntime) -> Result<(), Fail> {
    let alloc = rt.alloc();
    let keys = [None, None, Some(KEY), Some(OTHER_KEY)];
    let (frames, reasons) = sent(alloc)?;
    let inner = MemPort::new(alloc, frames, Vec::new(alloc));
    let mut port = SealedPort::new(alloc, &keys, Way::ToServer, inner);
    for reason in &reasons {
        let came = port.take();
        assert!(rt; came.err() == Some(PortError::Failed));
        assert!(rt; port.refusal() == Some(*reason));
        assert!(rt; port.answer(&DONE) == Err(PortError::Failed));
    }
    assert!(rt; port.faults == 16);
    let came = port.take()?;
    assert!(rt; came.as_deref() == Some(PULL.as_slice()));
    assert!(rt; port.refusal() == None);
    port.answer(&DONE)?;
    assert!(rt; port.answer(&DONE) == Err(PortError::Failed));
    assert!(rt; port.take() == Ok(None));
    assert!(rt; port.faults == 17);
    let inner = port.into_port();
    for i in 0..8 {
        assert!(rt; inner.answered(i).is_none());
    }
    let asked = tag_of(&KEY, &Way::ToServer, &PULL);
    let answer = inner.answered(8).unwrap_or(&[]);
    assert!(rt; open_answer(&KEY, &asked, answer) == Ok(DONE.as_slice()));
    Ok(())
}
