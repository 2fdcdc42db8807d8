//! Times certificates. It makes a tree of 128 folders with 127 files each, 16,384 rows and 32 MiB, and prints the nanoseconds of SHA-256
//! over all bytes of the files in a row and its first byte, the nanoseconds of the tree's root, those of the certificate of a file in
//! the middle, the bytes of that, the nanoseconds of its check, and what that finds.

use sha2::{Digest, Sha256};
use std::alloc::{AllocError, Global};
use std::time::Instant;
use tree_proof::{Finding, check, prove, root_of};
use vol_tree::{Content, Effect, Path, Tree};

/// How many folders there are.
const FOLDERS: u32 = 128;

/// How many files each of them has.
const FILES: u32 = 127;

/// How many bytes each file has: 33,552,384 in all.
const SIZE: usize = 2_064;

/// The bytes of a file.
fn bytes_of(alloc: Global, folder: u32, file: u32) -> Result<Vec<u8>, AllocError> {
    let mut bytes = vec![in alloc; (file % 256) as u8; SIZE]?;
    bytes[0] = (folder % 256) as u8;
    Ok(bytes)
}

/// Two letters, which stand for the number below 256.
fn name_of(number: u32) -> [u8; 2] {
    let letter = |digit: u32| b'a' + (digit % 16) as u8;
    [letter(number / 16), letter(number)]
}

fn folder_path(alloc: Global, folder: u32) -> Result<Path, anyhow::Error> {
    Ok(Path::read(alloc, &name_of(folder))?)
}

fn file_path(alloc: Global, folder: u32, file: u32) -> Result<Path, anyhow::Error> {
    let mut text = Vec::from_slice(alloc, &name_of(folder))?;
    text.push(b'/')?;
    text.extend_from_slice(&name_of(file))?;
    Ok(Path::read(alloc, &text)?)
}

fn apply(tree: &mut Tree, effect: &Effect) -> Result<(), anyhow::Error> {
    let undo = tree.apply(effect)?;
    drop(undo);
    Ok(())
}

/// Makes a folder and its files in the tree, and puts the files' bytes behind the others.
fn fill(
    alloc: Global,
    tree: &mut Tree,
    all: &mut Vec<u8>,
    folder: u32,
) -> Result<(), anyhow::Error> {
    let make = Effect::Make(folder_path(alloc, folder)?);
    apply(tree, &make)?;
    drop(make);
    for file in 0..FILES {
        let bytes = bytes_of(alloc, folder, file)?;
        all.extend_from_slice(&bytes)?;
        let put = Effect::Put(file_path(alloc, folder, file)?, Content::of(alloc, &bytes)?);
        apply(tree, &put)?;
        drop(put);
    }
    Ok(())
}

/// Prints the nanoseconds of SHA-256 over the bytes, and its first byte.
fn measure_hash(rt: &HostRuntime, bytes: &[u8]) -> Result<(), anyhow::Error> {
    let start = Instant::now(rt)?;
    let digest = Sha256::digest(bytes);
    let hashed = start.elapsed(rt)?.as_nanos();
    let first = digest[0];
    print!(rt; "{hashed} {first} ")?;
    Ok(())
}

/// Times root, certificate and check in the tree, and prints that.
fn measure_tree(rt: &HostRuntime, tree: &Tree) -> Result<(), anyhow::Error> {
    let alloc = rt.alloc();
    let path = file_path(alloc, FOLDERS / 2, FILES / 2)?;
    let start = Instant::now(rt)?;
    let root = root_of(tree)?;
    let rooted = start.elapsed(rt)?.as_nanos();
    let start = Instant::now(rt)?;
    let certificate = prove(tree, &path)?;
    let proved = start.elapsed(rt)?.as_nanos();
    let start = Instant::now(rt)?;
    let found = check(alloc, &root, &path, &certificate);
    let checked = start.elapsed(rt)?.as_nanos();
    let said = match &found {
        Ok(Finding::Row(_)) => "row",
        Ok(Finding::NoRow) => "none",
        Err(_) => "refused",
    };
    drop(found);
    let size = certificate.len();
    println!(rt; "{rooted} {proved} {size} {checked} {said}")?;
    Ok(())
}

pub(crate) fn measure_certificates(rt: &HostRuntime) -> Result<(), anyhow::Error> {
    let alloc = rt.alloc();
    let mut tree = Tree::new(alloc);
    let mut all = Vec::new(alloc);
    for folder in 0..FOLDERS {
        fill(alloc, &mut tree, &mut all, folder)?;
    }
    measure_hash(rt, &all)?;
    drop(all);
    measure_tree(rt, &tree)
}
