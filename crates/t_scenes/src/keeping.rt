// Keepers, and what they keep.

use crate::counted::Counted;
use outside::{KeepFail, Keeper, MemKeeper};
use std::alloc::{AllocError, Global};
use t_scene_files::{Fault, number};

/// What is kept under a name.
#[derive(Drop)]
pub(crate) struct Image {
    pub(crate) name: String,
    pub(crate) bytes: Vec<u8>,
}

impl Image {
    pub(crate) fn new(alloc: Global, name: &str, bytes: &[u8]) -> Result<Image, AllocError> {
        let bytes = bytes.to_vec(alloc)?;
        match String::from_str(alloc, name) {
            Ok(name) => Ok(Image { name, bytes }),
            Err(refused) => {
                drop(bytes);
                Err(refused)
            }
        }
    }
}

/// What is kept under the name.
pub(crate) fn bytes_of<'a>(images: &'a [Image], name: &str) -> Option<&'a [u8]> {
    match images.iter().find(|image| image.name.as_str() == name) {
        Some(image) => Some(image.bytes.as_slice()),
        None => None,
    }
}

/// These calls fail, and leave the new image, the old one, or so many bytes of a piece.
pub(crate) fn add_fails(
    fails: &mut Vec<KeepFail>,
    which: (u32, u32),
    left: &str,
) -> Result<(), Fault> {
    let leaves_new = left == "new";
    let part = if leaves_new || left == "old" {
        0
    } else {
        number(left)?
    };
    for call in which.0..=which.1 {
        fails.push(KeepFail {
            call,
            leaves_new,
            part,
        })?;
    }
    Ok(())
}

/// A keeper of these images, which fails in these of its later calls.
pub(crate) fn keeper_of(
    alloc: Global,
    images: &[Image],
    fails: &[KeepFail],
) -> Result<Counted<MemKeeper>, Fault> {
    let fails = later_fails(alloc, images, fails)?;
    let mut keeper = MemKeeper::new(alloc, fails);
    let saved = save_all(&mut keeper, images);
    if let Err(fault) = saved {
        drop(keeper);
        return Err(fault);
    }
    Ok(Counted::new(keeper))
}

/// The same calls, counted from the one by which the first image is saved.
fn later_fails(
    alloc: Global,
    images: &[Image],
    fails: &[KeepFail],
) -> Result<Vec<KeepFail>, AllocError> {
    let before = u32::try_from(images.len()).unwrap_or(u32::MAX);
    let mut later = Vec::new(alloc);
    for fail in fails {
        later.push(KeepFail {
            call: fail.call.saturating_add(before),
            ..*fail
        })?;
    }
    Ok(later)
}

fn save_all(keeper: &mut MemKeeper, images: &[Image]) -> Result<(), Fault> {
    for image in images {
        if keeper.save(image.name.as_bytes(), &image.bytes).is_err() {
            return Err(Fault::Memory);
        }
    }
    Ok(())
}

/// Adds the name where it is a new one.
pub(crate) fn remember(
    alloc: Global,
    names: &mut Vec<String>,
    name: &str,
) -> Result<(), AllocError> {
    if names.iter().any(|known| known.as_str() == name) {
        return Ok(());
    }
    let name = String::from_str(alloc, name)?;
    names.push(name)?;
    Ok(())
}
