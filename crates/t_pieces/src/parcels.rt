//! A store of an edited file as a parcel, and parcels that do not open.

use std::alloc::{AllocError, Global};
use std::rt::HostRuntime;
use std::test::Fail;
use store_parcels::{NamedStore, named_store, opened, parcel_of};
use vol_tree::{Content, Effect, Path, Tree};

/// Lines that differ in their numbers.
fn lines(alloc: Global) -> Result<Vec<u8>, AllocError> {
    let mut text = Vec::new(alloc);
    for number in 0..500_u32 {
        let line = format!(in alloc; "line {} of {}\n", number, number * 7_919 % 1_000)?;
        text.extend_from_slice(line.as_bytes())?;
    }
    Ok(text)
}

/// A tree with a file of these bytes.
fn tree_with(alloc: Global, name: &[u8], text: &[u8]) -> Result<Tree, Fail> {
    let mut tree = Tree::new(alloc);
    let put = Effect::Put(Path::read(alloc, name)?, Content::of(alloc, text)?);
    let undo = tree.apply(&put)?;
    drop(undo);
    Ok(tree)
}

/// What the frame of client 7's store of one entry with number 9 begins with; its body is these bytes with one changed.
fn frame_with(alloc: Global, text: &[u8]) -> Result<Vec<u8>, AllocError> {
    let mut frame = Vec::new(alloc);
    frame.extend_from_slice(&[0, 0, 0, 0, 3, 1, 7, 0, 0, 0, 0, 0, 0, 0, 9, 1])?;
    frame.extend_from_slice(text)?;
    if let Some(byte) = frame.get_mut(5_000) {
        *byte = b'#';
    }
    Ok(frame)
}

/// The parcel of that frame over the file `notes` of the tree, and the frame.
fn parcel_and_frame(alloc: Global, tree: &Tree) -> Result<(Vec<u8>, Vec<u8>), Fail> {
    let text = lines(alloc)?;
    let frame = frame_with(alloc, text.as_slice())?;
    let sources = [Path::read(alloc, b"notes")?];
    let parcel = parcel_of(alloc, tree, &sources, frame.as_slice())?;
    Ok((parcel.unwrap_or(Vec::new(alloc)), frame))
}

/// Whether the parcel with the byte at the place changed opens.
fn opens_with(alloc: Global, tree: &Tree, place: usize, byte: u8) -> Result<bool, Fail> {
    let (mut parcel, _frame) = parcel_and_frame(alloc, tree)?;
    if let Some(there) = parcel.get_mut(place) {
        *there = byte;
    }
    Ok(opened(alloc, tree, parcel.as_slice())?.is_some())
}

#[test]
fn an_edited_file_costs_little(rt: HostRuntime) -> Result<(), Fail> {
    let text = lines(rt.alloc())?;
    let tree = tree_with(rt.alloc(), b"notes", text.as_slice())?;
    let (parcel, frame) = parcel_and_frame(rt.alloc(), &tree)?;
    assert!(rt; 48 < parcel.len() && parcel.len() < 100);
    let back = opened(rt.alloc(), &tree, parcel.as_slice())?;
    assert!(rt; matches!(&back, Some(back) if back.as_slice() == frame.as_slice()));
    let named = NamedStore {
        client: 7,
        number: 9,
        entries: 1,
    };
    assert!(rt; named_store(parcel.as_slice()) == Some(named));
    assert!(rt; named_store(frame.as_slice()).is_none());
    Ok(())
}

#[test]
fn a_faulty_parcel_stays_closed(rt: HostRuntime) -> Result<(), Fail> {
    let text = lines(rt.alloc())?;
    let tree = tree_with(rt.alloc(), b"notes", text.as_slice())?;
    // byte 6 is 7 as it is; then another client, number, count of entries, print, source
    assert!(rt; opens_with(rt.alloc(), &tree, 6, 7)?);
    assert!(rt; !opens_with(rt.alloc(), &tree, 6, 8)?);
    assert!(rt; !opens_with(rt.alloc(), &tree, 14, 8)?);
    assert!(rt; !opens_with(rt.alloc(), &tree, 15, 2)?);
    assert!(rt; !opens_with(rt.alloc(), &tree, 20, 0)? || !opens_with(rt.alloc(), &tree, 20, 1)?);
    assert!(rt; !opens_with(rt.alloc(), &tree, 52, b'N')?);
    Ok(())
}

#[test]
fn a_parcel_opens_over_its_file_alone(rt: HostRuntime) -> Result<(), Fail> {
    let text = lines(rt.alloc())?;
    let tree = tree_with(rt.alloc(), b"notes", text.as_slice())?;
    let (parcel, _frame) = parcel_and_frame(rt.alloc(), &tree)?;
    let elsewhere = tree_with(rt.alloc(), b"other", text.as_slice())?;
    assert!(rt; opened(rt.alloc(), &elsewhere, parcel.as_slice())?.is_none());
    let older = tree_with(rt.alloc(), b"notes", b"too few bytes")?;
    assert!(rt; opened(rt.alloc(), &older, parcel.as_slice())?.is_none());
    Ok(())
}
