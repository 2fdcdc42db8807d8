// What stands in a network, as text.

use crate::networks::Network;
use server_core::Server;
use std::alloc::{AllocError, Global};
use vol_tree::{Content, Node, Row};
use wire_frames::{Message, read};

/// What stands in a network: the troubles, the server's last number of client 1, each packet in the order of sending,
/// and each row of the server.
///
/// ```text
/// troubles 1
/// last 1
/// sent 1 Store 1 a 0
/// sent 1 Accepted 1
/// row a 1 file 6
/// hello
/// ```
///
/// A packet is told by its client, its kind, its number and the paths and versions of its entries' bases, in order, and a row by
/// its path, its version, and what stands there.
pub fn account_of_network(alloc: Global, net: &Network) -> Result<Vec<u8>, AllocError> {
    let mut text = Vec::new(alloc);
    let troubles = net.troubles();
    let last = net.server().last(1);
    write_text(
        &mut text,
        &format!(in alloc; "troubles {troubles}\nlast {last}\n")?,
    )?;
    write_packets(alloc, &mut text, net)?;
    write_rows(alloc, &mut text, net.server())?;
    Ok(text)
}

/// Each packet that was sent, as the account of the network tells it.
pub fn sent_packets(alloc: Global, net: &Network) -> Result<Vec<u8>, AllocError> {
    let mut text = Vec::new(alloc);
    write_packets(alloc, &mut text, net)?;
    Ok(text)
}

/// Each row of a server, as the account of its network tells it.
pub fn rows_of_server(alloc: Global, server: &Server) -> Result<Vec<u8>, AllocError> {
    let mut text = Vec::new(alloc);
    write_rows(alloc, &mut text, server)?;
    Ok(text)
}

fn write_text(text: &mut Vec<u8>, more: &str) -> Result<(), AllocError> {
    text.extend_from_slice(more.as_bytes())?;
    Ok(())
}

fn write_packets(alloc: Global, text: &mut Vec<u8>, net: &Network) -> Result<(), AllocError> {
    for k in 0..u32::MAX {
        let Some(frame) = net.packet(k) else {
            break;
        };
        write_packet(alloc, text, frame)?;
    }
    Ok(())
}

fn write_packet(alloc: Global, text: &mut Vec<u8>, frame: &[u8]) -> Result<(), AllocError> {
    match read(alloc, frame) {
        Ok(message) => {
            let written = write_message(alloc, text, &message);
            drop(message);
            written
        }
        Err(refused) => {
            drop(refused);
            Err(AllocError)
        }
    }
}

fn write_message(alloc: Global, text: &mut Vec<u8>, message: &Message) -> Result<(), AllocError> {
    let (client, kind, number) = (message.client(), message.kind(), message.number());
    write_text(text, &format!(in alloc; "sent {client} {kind:?} {number}")?)?;
    if let Message::Store { entries, .. } = message {
        for entry in entries.as_slice() {
            for base in entry.base.as_slice() {
                let path = base.path.text()?;
                let named = write_named(alloc, text, " ", &path, base.version);
                drop(path);
                named?;
            }
        }
    }
    write_text(text, "\n")
}

/// A path behind a word, and a version.
fn write_named(
    alloc: Global,
    text: &mut Vec<u8>,
    word: &str,
    path: &Content,
    version: u64,
) -> Result<(), AllocError> {
    write_text(text, word)?;
    text.extend_from_slice(path.bytes())?;
    write_text(text, &format!(in alloc; " {version}")?)
}

fn write_rows(alloc: Global, text: &mut Vec<u8>, server: &Server) -> Result<(), AllocError> {
    let rows = server.tree().rows()?;
    let written = write_each(alloc, text, rows.as_slice());
    drop(rows);
    written
}

fn write_each(alloc: Global, text: &mut Vec<u8>, rows: &[Row]) -> Result<(), AllocError> {
    for row in rows {
        write_row(alloc, text, row)?;
    }
    Ok(())
}

fn write_row(alloc: Global, text: &mut Vec<u8>, row: &Row) -> Result<(), AllocError> {
    let path = row.path.text()?;
    let named = write_named(alloc, text, "row ", &path, row.version);
    drop(path);
    named?;
    match &row.node {
        None => write_text(text, " nothing\n"),
        Some(Node::Folder) => write_text(text, " folder\n"),
        Some(Node::File { content, exec }) => write_file(alloc, text, content.bytes(), *exec),
    }
}

/// Whether a file may be run, how many bytes it has, and these behind a line end.
fn write_file(
    alloc: Global,
    text: &mut Vec<u8>,
    bytes: &[u8],
    exec: bool,
) -> Result<(), AllocError> {
    let size = bytes.len();
    let kind = if exec { "program" } else { "file" };
    write_text(text, &format!(in alloc; " {kind} {size}\n")?)?;
    text.extend_from_slice(bytes)
}
