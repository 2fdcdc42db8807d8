//! Contents that share their bytes, and what refused texts are told as.

use bytes::Bytes;
use file_paths::{Content, PathError};
use std::alloc::{AllocError, Global};
use std::rt::HostRuntime;
use std::test::Fail;

/// Whether the content has these bytes.
fn is_content(content: Content, expected: &[u8]) -> Result<bool, AllocError> {
    let same = content.bytes() == expected;
    drop(content);
    Ok(same)
}

/// Whether a content is the only owner of its bytes, before it is copied and while the copy is there.
fn owners(alloc: Global) -> Result<(bool, bool), AllocError> {
    let content = Content::of_shared(Bytes::copy_from_slice(alloc, b"xy")?);
    let alone = content.shared().is_unique();
    let copied = content.copy();
    let still = content.shared().is_unique();
    drop(content);
    let same = is_content(copied?, b"xy")?;
    Ok((alone && same, still))
}

#[test]
fn copies_share_their_bytes(rt: HostRuntime) -> Result<(), Fail> {
    assert!(rt; owners(rt.alloc())? == (true, false));
    Ok(())
}

#[test]
fn refused_texts_tell_what_is_wrong(rt: HostRuntime) -> Result<(), Fail> {
    let text = format!(in rt.alloc(); "{}, {}", PathError::TooDeep(33), PathError::TooLong(1025))?;
    assert!(rt; text.as_str() == "33 names, 1025 bytes");
    Ok(())
}
