//! Times the repair of a file. Behind the word for it stand PATH, BLOCKS and SYMBOLS: so many symbols are changed in each of the first
//! blocks. It prints the nanoseconds of the file's sketch, those of the repair, and whether the repair gave the file.

use rs_parity::{BLOCK, sketch_of};
use rs_repair::repair;
use std::alloc::{AllocError, Global};
use std::time::Instant;
use std::{env, fs};

/// The largest content that has a sketch.
const MAX_LEN: usize = 8_388_608;

/// The bytes with one bit pattern changed in the first symbols, 240 bytes apart, of each of the first blocks.
fn damaged(alloc: Global, content: &[u8], blocks: u8, symbols: u8) -> Result<Vec<u8>, AllocError> {
    let mut bytes = Vec::new(alloc);
    bytes.extend_from_slice(content)?;
    for b in 0..blocks {
        for k in 0..symbols {
            let at = usize::from(b) * BLOCK + usize::from(k) * 240;
            if at < bytes.len() {
                bytes[at] = bytes[at] ^ 0x5A;
            }
        }
    }
    Ok(bytes)
}

/// Repairs the file at the path.
fn measure_repair(
    rt: &HostRuntime,
    path: &str,
    blocks: u8,
    symbols: u8,
) -> Result<(), anyhow::Error> {
    let content = fs::read(rt, path)?;
    if content.len() > MAX_LEN {
        println!(rt; "too long")?;
        return Ok(());
    }
    let changed = damaged(rt.alloc(), &content, blocks, symbols)?;
    let start = Instant::now(rt)?;
    let sketch = sketch_of(rt.alloc(), &content)?;
    let sketched = start.elapsed(rt)?.as_nanos();
    let start = Instant::now(rt)?;
    let repaired = repair(rt.alloc(), &changed, &sketch)?;
    let nanoseconds = start.elapsed(rt)?.as_nanos();
    let outcome = match &repaired {
        None => "none",
        Some(bytes) if *bytes == content => "same",
        Some(_) => "other",
    };
    println!(rt; "{sketched} {nanoseconds} {outcome}")?;
    Ok(())
}

/// Repairs the file that the words behind the first one name.
pub(crate) fn measure_repairs(rt: &HostRuntime) -> Result<(), anyhow::Error> {
    let mut words = env::args(rt)?.skip(2);
    match (words.next(), words.next(), words.next()) {
        (Some(path), Some(blocks), Some(symbols)) => measure_repair(
            rt,
            path.as_str(),
            blocks.parse::<u8>()?,
            symbols.parse::<u8>()?,
        ),
        _ => Ok(()),
    }
}
