//! Times the reading and the writing of frames: stores of three sizes, and snapshots of three.

ghost use Rattle.wire_frames.specs.Frame.{IsValid};

use std::alloc::{AllocError, Global};
use std::time::Instant;
use wire_frames::{FrameError, Message, read, write};

/// Version, kind and client of a store of client 1, its number 1, how many entries it has, and how many effects the first has.
const STORE_HEAD: [u8; 15] = [3, 1, 1, 0, 0, 0, 0, 0, 0, 0, 1, 1, 0, 0, 0];

/// One base: the path `a`, which was not touched before.
const STORE_BASE: [u8; 15] = [0, 0, 0, 1, 0, 1, b'a', 0, 0, 0, 0, 0, 0, 0, 0];

/// Version, kind and client of a snapshot for client 1, its number 0 and the last number 0.
const SNAPSHOT_HEAD: [u8; 19] = [3, 21, 1, 0, 0, 0, 0, 0, 0, 0, 0, 0, 0, 0, 0, 0, 0, 0, 0];

/// The folder `d` in version 1, which holds all other rows.
const FOLDER_ROW: [u8; 12] = [0, 1, b'd', 0, 0, 0, 0, 0, 0, 0, 1, 1];

/// A file of two bytes in version 1, behind its path.
const FILE_NODE: [u8; 15] = [0, 0, 0, 0, 0, 0, 0, 1, 2, 0, 0, 0, 2, b'o', b'k'];

/// The frame that has this behind its length.
fn framed(alloc: Global, payload: &[u8]) -> Result<Vec<u8>, AllocError> {
    let size = u32::try_from(payload.len()).unwrap_or(u32::MAX);
    let mut frame = Vec::from_slice(alloc, &size.to_be_bytes())?;
    frame.extend_from_slice(payload)?;
    Ok(frame)
}

/// The frame of a store that writes a content of so many bytes so many times.
fn store(alloc: Global, files: u8, size: u32) -> Result<Vec<u8>, AllocError> {
    let content = vec![in alloc; 7u8; size as usize]?;
    let mut payload = Vec::from_slice(alloc, &STORE_HEAD)?;
    payload.push(files)?;
    for _ in 0..files {
        payload.extend_from_slice(&[2, 0, 1, b'a'])?;
        payload.extend_from_slice(&size.to_be_bytes())?;
        payload.extend_from_slice(&content)?;
    }
    payload.extend_from_slice(&STORE_BASE)?;
    framed(alloc, &payload)
}

/// Adds the path of a file: a name of four letters in the folder.
fn push_path(payload: &mut Vec<u8>, row: u32) -> Result<(), AllocError> {
    let letter = |digit: u32| b'a' + (digit % 16) as u8;
    let name = [
        letter(row / 4096),
        letter(row / 256),
        letter(row / 16),
        letter(row),
    ];
    payload.extend_from_slice(&[0, 6, b'd', b'/'])?;
    payload.extend_from_slice(&name)?;
    Ok(())
}

/// The frame of a snapshot with so many rows: a folder, and files in it.
fn snapshot(alloc: Global, rows: u32) -> Result<Vec<u8>, AllocError> {
    let mut payload = Vec::from_slice(alloc, &SNAPSHOT_HEAD)?;
    payload.extend_from_slice(&rows.to_be_bytes())?;
    payload.extend_from_slice(&FOLDER_ROW)?;
    for row in 1..rows {
        push_path(&mut payload, row)?;
        payload.extend_from_slice(&FILE_NODE)?;
    }
    framed(alloc, &payload)
}

/// Reads a frame so often.
fn read_often(alloc: Global, frame: &[u8], turns: u32) -> Result<(), FrameError> {
    for _ in 0..turns {
        let message = read(alloc, frame)?;
        drop(message);
    }
    Ok(())
}

/// Writes a message so often, and counts the bytes.
fn write_often(alloc: Global, message: &Message, turns: u32) -> Result<u64, AllocError>
    requires { IsValid message.now }
{
    let mut written = 0_u64;
    for _ in 0..turns {
        written = written.wrapping_add(write(alloc, message)?.len() as u64);
    }
    Ok(written)
}

/// The nanoseconds of so many readings of a frame.
fn time_reading(rt: &HostRuntime, frame: &[u8], turns: u32) -> Result<u128, anyhow::Error> {
    let start = Instant::now(rt)?;
    read_often(rt.alloc(), frame, turns)?;
    Ok(start.elapsed(rt)?.as_nanos())
}

/// The bytes and the nanoseconds of so many writings of a message.
fn time_message(
    rt: &HostRuntime,
    message: &Message,
    turns: u32,
) -> Result<(u64, u128), anyhow::Error>
    requires { IsValid message.now }
{
    let start = Instant::now(rt)?;
    let written = write_often(rt.alloc(), message, turns)?;
    Ok((written, start.elapsed(rt)?.as_nanos()))
}

/// The same of a frame's message, which is let go by a call.
fn time_writing(rt: &HostRuntime, frame: &[u8], turns: u32) -> Result<(u64, u128), anyhow::Error> {
    let message = read(rt.alloc(), frame)?;
    let timed = time_message(rt, &message, turns);
    drop(message);
    timed
}

/// Reads and writes a frame so often, and prints how long both took.
fn measure(rt: &HostRuntime, name: &str, frame: &[u8], turns: u32) -> Result<(), anyhow::Error> {
    let reading = time_reading(rt, frame, turns)?;
    let (written, writing) = time_writing(rt, frame, turns)?;
    let size = frame.len();
    println!(rt; "{name} {size} {turns} {written} {reading} {writing}")?;
    Ok(())
}

/// Stores of 1, 8 and 33 MB of content.
fn measure_stores(rt: &HostRuntime) -> Result<(), anyhow::Error> {
    measure(rt, "store", &store(rt.alloc(), 1, 1_048_576)?, 64)?;
    measure(rt, "store", &store(rt.alloc(), 1, 8_388_608)?, 8)?;
    measure(rt, "store", &store(rt.alloc(), 4, 8_388_608)?, 4)
}

/// Snapshots of 1,024, 4,096 and 16,384 rows.
fn measure_snapshots(rt: &HostRuntime) -> Result<(), anyhow::Error> {
    measure(rt, "snapshot", &snapshot(rt.alloc(), 1_024)?, 64)?;
    measure(rt, "snapshot", &snapshot(rt.alloc(), 4_096)?, 16)?;
    measure(rt, "snapshot", &snapshot(rt.alloc(), 16_384)?, 8)
}

/// Prints a line for each frame: its name, its bytes, how often it was read and written, the bytes that were written, and the
/// nanoseconds of the reading and of the writing.
pub(crate) fn measure_frames(rt: &HostRuntime) -> Result<(), anyhow::Error> {
    measure_stores(rt)?;
    measure_snapshots(rt)
}
