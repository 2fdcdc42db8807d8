//! Times a server. It serves stores of small files: one for each of so many rows, then more of them for rows that stand, then some
//! for new rows, and then pulls; with 10 and with 16,000 rows, in one folder and in 64. The names come in an order in which neighbours
//! are far apart. For each round it prints the rows, the folders, how many stores made the rows, how many were timed for rows that
//! stand, how many of them were accepted and their nanoseconds, the same for new rows, and the bytes and the nanoseconds of the answers
//! to pulls.

ghost use Rattle.std.specs.Prelude.{◌<◌};

use server_core::Server;
use std::alloc::{AllocError, Global};
use std::time::Instant;

/// How many stores for rows that stand are timed.
const STORES: u32 = 2_000;

/// How many pulls are timed.
const PULLS: u32 = 2;

/// Client 1 asks for all rows.
const PULL: [u8; 15] = [0, 0, 0, 11, 3, 3, 1, 0, 0, 0, 0, 0, 0, 0, 0];

/// Stores of client 1: the number of the first, its row, how many there are, after how many the rows come again, the
/// version that the rows have, and how many folders they are in.
#[derive(Clone, Copy)]
struct Stores {
    first: u64,
    from: u32,
    count: u32,
    rows: u32,
    version: u64,
    folders: u32,
}

fn letter(digit: u32) -> u8 {
    b'a' + (digit % 16) as u8
}

/// Adds the name of a folder: two letters.
fn push_folder(frame: &mut Vec<u8>, folder: u32) -> Result<(), AllocError> {
    frame.extend_from_slice(&[letter(folder / 16), letter(folder)])
}

/// Adds the path of a row: a name of four letters, in one of the folders where there are several.
fn push_path(frame: &mut Vec<u8>, row: u32, folders: u32) -> Result<(), AllocError>
    requires { 0 < folders }
{
    let name = [
        letter(row / 4096),
        letter(row / 256),
        letter(row / 16),
        letter(row),
    ];
    if folders == 1 {
        frame.extend_from_slice(&[0, 4])?;
    } else {
        frame.extend_from_slice(&[0, 7])?;
        push_folder(frame, row % folders)?;
        frame.extend_from_slice(b"/")?;
    }
    frame.extend_from_slice(&name)
}

/// Adds the head of a frame of so many bytes: client 1's entry of this number, with one effect of this kind.
fn push_head(frame: &mut Vec<u8>, size: u8, number: u64, kind: u8) -> Result<(), AllocError> {
    frame.extend_from_slice(&[0, 0, 0, size, 3, 1, 1])?;
    frame.extend_from_slice(&number.to_be_bytes())?;
    frame.extend_from_slice(&[1, 0, 0, 0, 1, kind])
}

/// Makes the frame one of client 1's entry of this number: it writes two bytes at a row's path, which has this version.
fn put_store(
    frame: &mut Vec<u8>,
    number: u64,
    row: u32,
    version: u64,
    folders: u32,
) -> Result<(), AllocError>
    requires { 0 < folders }
{
    frame.clear();
    push_head(frame, if folders == 1 { 47 } else { 53 }, number, 2)?;
    push_path(frame, row, folders)?;
    frame.extend_from_slice(&[0, 0, 0, 2, b'o', b'k', 0, 0, 0, 1])?;
    push_path(frame, row, folders)?;
    frame.extend_from_slice(&version.to_be_bytes())
}

/// Makes the frame one of client 1's entry of this number: it makes a folder.
fn put_make(frame: &mut Vec<u8>, number: u64, folder: u32) -> Result<(), AllocError> {
    frame.clear();
    push_head(frame, 37, number, 1)?;
    frame.extend_from_slice(&[0, 2])?;
    push_folder(frame, folder)?;
    frame.extend_from_slice(&[0, 0, 0, 1, 0, 2])?;
    push_folder(frame, folder)?;
    frame.extend_from_slice(&[0, 0, 0, 0, 0, 0, 0, 0])
}

/// One where the server accepts what the frame stores, and else none.
fn serve(server: &mut Server, frame: &[u8]) -> Result<u32, AllocError> {
    let reply = server.serve_frame(frame)?;
    let accepted = reply.get(5) == Some(&17);
    drop(reply);
    Ok(accepted as u32)
}

/// Serves the making of so many folders.
fn serve_folders(server: &mut Server, frame: &mut Vec<u8>, folders: u32) -> Result<(), AllocError> {
    for folder in 0..folders {
        put_make(frame, folder as u64 + 1, folder)?;
        serve(server, frame)?;
    }
    Ok(())
}

/// Serves stores, and counts those that are accepted. The names of the rows are numbers from 0 to 65,535 in an order in which
/// neighbours are far apart.
fn serve_stores(server: &mut Server, frame: &mut Vec<u8>, stores: Stores) -> Result<u32, AllocError>
    requires rows { 0 < stores.rows }
    requires folders { 0 < stores.folders }
{
    let mut accepted = 0_u32;
    for i in 0..stores.count {
        let number = stores.first.wrapping_add(i as u64);
        let version = stores.version.wrapping_add((i / stores.rows) as u64);
        let row = stores
            .from
            .wrapping_add(i % stores.rows)
            .wrapping_mul(40_503)
            % 65_536;
        put_store(frame, number, row, version, stores.folders)?;
        accepted = accepted.wrapping_add(serve(server, frame)?);
    }
    Ok(accepted)
}

/// Serves pulls, and counts the bytes of the answers.
fn serve_pulls(server: &mut Server, count: u32) -> Result<u64, AllocError> {
    let mut bytes = 0_u64;
    for _ in 0..count {
        let reply = server.serve_frame(PULL.as_slice())?;
        bytes = bytes.wrapping_add(reply.len() as u64);
    }
    Ok(bytes)
}

/// Times stores, and prints how many there are, how many of them were accepted, and their nanoseconds.
fn time_stores(
    rt: &HostRuntime,
    server: &mut Server,
    frame: &mut Vec<u8>,
    stores: Stores,
) -> Result<(), anyhow::Error>
    requires rows { 0 < stores.rows }
    requires folders { 0 < stores.folders }
{
    let start = Instant::now(rt)?;
    let accepted = serve_stores(server, frame, stores)?;
    let nanos = start.elapsed(rt)?.as_nanos();
    let count = stores.count;
    print!(rt; " {count} {accepted} {nanos}")?;
    Ok(())
}

/// Times a server that has so many rows in so many folders: stores for rows that stand, so many for new rows, and pulls.
fn time_server(
    rt: &HostRuntime,
    server: &mut Server,
    frame: &mut Vec<u8>,
    rows: u32,
    folders: u32,
    new: u32,
) -> Result<(), anyhow::Error>
    requires rows { 0 < rows }
    requires folders { 0 < folders }
    requires new { 0 < new }
{
    serve_folders(server, frame, folders)?;
    let made = Stores {
        first: folders as u64 + 1,
        from: 0,
        count: rows,
        rows,
        version: 0,
        folders,
    };
    let accepted = serve_stores(server, frame, made)?;
    print!(rt; "{rows} {folders} {accepted}")?;
    let first = made.first + rows as u64;
    time_stores(
        rt,
        server,
        frame,
        Stores {
            first,
            count: STORES,
            version: 1,
            ..made
        },
    )?;
    let first = first + STORES as u64;
    time_stores(
        rt,
        server,
        frame,
        Stores {
            first,
            from: rows,
            count: new,
            rows: new,
            ..made
        },
    )?;
    let start = Instant::now(rt)?;
    let bytes = serve_pulls(server, PULLS)?;
    let nanos = start.elapsed(rt)?.as_nanos();
    println!(rt; " {bytes} {nanos}")?;
    Ok(())
}

/// So many rounds, each with a server of its own.
fn measure(
    rt: &HostRuntime,
    rounds: u32,
    rows: u32,
    folders: u32,
    new: u32,
) -> Result<(), anyhow::Error>
    requires rows { 0 < rows }
    requires folders { 0 < folders }
    requires new { 0 < new }
{
    let alloc = rt.alloc();
    for _ in 0..rounds {
        let mut server = Server::new(alloc);
        let mut frame = Vec::new(alloc);
        let timed = time_server(rt, &mut server, &mut frame, rows, folders, new);
        drop(frame);
        drop(server);
        timed?;
    }
    Ok(())
}

/// Times servers with 10 and with 16,000 rows, in one folder and in 64.
pub(crate) fn measure_servers(rt: &HostRuntime) -> Result<(), anyhow::Error> {
    measure(rt, 100, 10, 1, 10)?;
    measure(rt, 100, 10, 64, 10)?;
    measure(rt, 5, 16_000, 1, 300)?;
    measure(rt, 5, 16_000, 64, 300)
}
