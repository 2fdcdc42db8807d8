// One frame of a stream.
ghost use Rattle.std.specs.Prelude.{◌≡◌, ◌+◌, ◌≤◌, ◌<◌, IfOk, IfSome, OnOk, OnErr, length};
ghost use Rattle.std.specs.Io.KnownBytes.{Keeps};
ghost use Rattle.paced_talks.specs.Frames.{frame_limit, block_bytes, announced_bytes, first_frame, missing_bytes};
ghost use Rattle.paced_talks.specs.Inside.{ReadsBlock, ReadsUpTo};

use crate::step::{Progress, passing};
use std::alloc::Global;
use std::io;
use std::io::{ErrorKind, Read};

/// The most bytes of a frame.
pub const MAX_FRAME: usize = 67_108_864;

/// How many bytes are read at once.
pub(crate) const BLOCK: usize = 16_384;

/// Reads once, at most so many bytes, and says how many came: none only at the end.
fn read_block<S: Read>(stream: &mut S, most: usize, frame: &mut Vec<u8>) -> io::Result<usize>
    requires { 0 < most }
    ensures { IfOk result (ReadsBlock most (S.remaining stream.old) (S.remaining stream.new) frame.old.items frame.new.items) }
{
    let mut block = [0; BLOCK];
    let room = &mut block[..most.min(BLOCK)];
    let count = stream.read(room)?;
    frame.extend_from_slice(&room[..count])?;
    Ok(count)
}

/// Reads once over a block, at most so many bytes, and says how many came: none only at the end. Where it would wait, it says so in
/// their place, and all is as it was.
pub(crate) fn read_at_once<S: Read>(
    stream: &mut S,
    block: &mut [u8; BLOCK],
    most: usize,
    frame: &mut Vec<u8>,
) -> io::Result<Result<usize, Progress>>
    requires { 0 < most }
    ensures came { IfOk result (λ came. IfOk came
        (ReadsBlock most (S.remaining stream.old) (S.remaining stream.new) frame.old.items frame.new.items)) }
    ensures waits { IfOk result (λ came. OnErr came
        (Keeps (S.remaining stream.old) (S.remaining stream.new) × (frame.new.items ≡ frame.old.items))) }
    ensures failed { OnErr result (frame.new.items ≡ frame.old.items) }
    ensures few { length frame.new.items ≤ length frame.old.items + block_bytes }
{
    let room = &mut block[..most.min(BLOCK)];
    match stream.read(room) {
        Ok(count) => {
            frame.extend_from_slice(&room[..count])?;
            Ok(Ok(count))
        }
        Err(error) => Ok(Err(passing(error)?)),
    }
}

/// Reads until so many more bytes have come, or the stream ends.
fn read_up_to<S: Read>(stream: &mut S, most: usize, frame: &mut Vec<u8>) -> io::Result<()>
    ensures { OnOk result (ReadsUpTo most (S.remaining stream.old) (S.remaining stream.new) frame.old.items frame.new.items) }
{
    let mut left = most;
    while left > 0 {
        match read_block(stream, left, frame) {
            Ok(0) => return Ok(()),
            Ok(count) => left -= count,
            Err(error) => return Err(error),
        }
    }
    Ok(())
}

/// How many bytes the first four announce behind them: none where there are no four, or where the frame would be over the
/// limit.
fn bytes_behind(head: &[u8]) -> usize
    ensures announced { result ≡ announced_bytes head.now }
    ensures fits { result + 4 ≤ frame_limit }
{
    match head.first_chunk::<4>() {
        Some(said) => {
            let behind = u32::from_be_bytes(*said) as usize;
            if behind + 4 <= MAX_FRAME { behind } else { 0 }
        }
        None => 0,
    }
}

/// How many bytes a frame still wants, of which these have come: those of its length, and then as many as it says.
pub(crate) fn missing(frame: &[u8]) -> usize
    ensures { result ≡ missing_bytes frame.now }
{
    (4 + bytes_behind(frame)).saturating_sub(frame.len())
}

/// Reads one frame: its length of four bytes, and as many more as it says. Where the stream ends before, what came is
/// given; the length alone, where it is over the limit.
#[tactic(auto, using(crate::proofs::Framing::frame_form, crate::proofs::Framing::frame_known))]
///
/// # Errors
///
/// The stream's, and want of memory.
pub fn read_frame<S: Read>(alloc: Global, stream: &mut S) -> io::Result<Vec<u8>>
    ensures limit { IfOk result (λ frame. length frame.items ≤ frame_limit) }
    ensures form { IfOk result (λ frame. first_frame frame.items ≡ frame.items) }
    ensures known { IfOk result (λ frame. IfSome (S.remaining stream.old) (λ bytes. frame.items ≡ first_frame bytes)) }
{
    let mut frame = Vec::new(alloc);
    read_up_to(stream, 4, &mut frame)?;
    let behind = bytes_behind(&frame);
    read_up_to(stream, behind, &mut frame)?;
    Ok(frame)
}
