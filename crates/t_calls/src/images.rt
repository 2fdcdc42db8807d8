// Images of clients and servers, with what was appended to them.

use crate::answers::Answer;
use crate::readers::Told;
use crate::texts::put_text;
use std::alloc::Global;
use std::mem;
use store_image::{
    ClientImage, ImageError, ServerImage, read_client, read_server, write_client, write_server,
};
use t_scene_files::Fault;

/// Reads a client's image.
pub(crate) fn read_clients(alloc: Global, bytes: &[u8], told: &mut Told) -> Result<Answer, Fault> {
    match read_client(alloc, bytes) {
        Ok(image) => {
            let done = tell_client(alloc, &image, told);
            drop(image);
            done?;
            Ok(Answer::Read)
        }
        Err(error) => refused(error),
    }
}

/// Reads a server's image.
pub(crate) fn read_servers(alloc: Global, bytes: &[u8], told: &mut Told) -> Result<Answer, Fault> {
    match read_server(alloc, bytes) {
        Ok(image) => {
            let done = tell_server(alloc, &image, told);
            drop(image);
            done?;
            Ok(Answer::Read)
        }
        Err(error) => refused(error),
    }
}

fn refused(error: ImageError) -> Result<Answer, Fault> {
    match error {
        ImageError::WrongKind => Ok(Answer::WrongKind),
        ImageError::BadImage(place) => Ok(Answer::Field(place)),
        ImageError::Memory => Err(Fault::Memory),
    }
}

/// A client by its number, its acknowledged number, and the numbers of its pending entries and its tree's rows.
fn tell_client(alloc: Global, image: &ClientImage, told: &mut Told) -> Result<(), Fault> {
    let client = image.client;
    if client < 1 || client > 64 {
        return Err(Fault::Line("no client has this number"));
    }
    let (acked, pending) = (image.log.acked(), image.log.pending());
    let rows = image.log.tree().count();
    let text = format!(in alloc; "client {client} {acked} {pending} {rows}")?;
    put_text(&mut told.text, text)?;
    let written = write_client(client, &image.log)?;
    drop(mem::replace(&mut told.written, written));
    Ok(())
}

/// A server by the last numbers of its first and its last client, and the number of its rows.
fn tell_server(alloc: Global, image: &ServerImage, told: &mut Told) -> Result<(), Fault> {
    let (first, last) = (image.last[0], image.last[63]);
    let rows = image.tree.count();
    put_text(
        &mut told.text,
        format!(in alloc; "server {first} {last} {rows}")?,
    )?;
    let written = write_server(&image.last, &image.tree)?;
    drop(mem::replace(&mut told.written, written));
    Ok(())
}
