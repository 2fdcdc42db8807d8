//! Times pieces of a file. Its words are the paths of the bytes that are known, and of the file; with none it does nothing. It prints the
//! nanoseconds of finding the pieces and of making the file of them, how many steps and new bytes they have, and whether it is the file
//! that was made.
#![tactic(auto)]

use delta_pieces::{expand, pieces_of};
use std::time::Instant;
use std::{env, fs};

/// The most bytes of either file.
const MOST: usize = 33_554_432;

fn main(rt: HostRuntime) -> Result<(), anyhow::Error> {
    let mut words = env::args(&rt)?.skip(1);
    match (words.next(), words.next()) {
        (Some(known), Some(content)) => measure(&rt, known.as_str(), content.as_str()),
        _ => Ok(()),
    }
}

/// Times the pieces of the file at the second path over the bytes at the first.
fn measure(rt: &HostRuntime, known: &str, content: &str) -> Result<(), anyhow::Error> {
    let known = fs::read(rt, known)?;
    let content = fs::read(rt, content)?;
    if known.len() > MOST || content.len() > MOST {
        println!(rt; "too long")?;
        return Ok(());
    }
    let start = Instant::now(rt)?;
    let pieces = pieces_of(rt.alloc(), &known, &content)?;
    let finding = start.elapsed(rt)?.as_nanos();
    let start = Instant::now(rt)?;
    let made = expand(rt.alloc(), &known, &pieces, content.len())?;
    let making = start.elapsed(rt)?.as_nanos();
    let steps = pieces.steps.len();
    let fresh = pieces.fresh.len();
    let outcome = if made == content { "same" } else { "other" };
    println!(rt; "{finding} {making} {steps} {fresh} {outcome}")?;
    Ok(())
}
