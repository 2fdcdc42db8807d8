// Where servers listen, and where images are kept.
use crate::sealing::forget_keys;
use real_edge::TcpPort;
use std::alloc::Global;
use std::io::ErrorKind;
use std::net::Net;
use std::rt::Files;
use std::time::Clock;
use std::{fs, io};

/// The image of each client.
pub const IMAGE: &str = "image";

/// The image of a second client.
pub const OTHER: &str = "other";

/// The image of a client that goes on for another one.
pub const NEW: &str = "new";

/// The lock of each client's image.
pub const LOCK: &str = "image.lock";

/// The image of each server that keeps one.
pub const SERVED: &str = "served";

/// The lock of each server's image.
pub const SERVED_LOCK: &str = "served.lock";

/// The folder in which each client runs programs.
pub const WORK: &str = "work";

/// All that belongs to them.
const FILES: [&str; 12] = [
    IMAGE,
    "image.new",
    LOCK,
    OTHER,
    "other.new",
    "other.lock",
    NEW,
    "new.new",
    "new.lock",
    SERVED,
    "served.new",
    SERVED_LOCK,
];

/// Removes what a client or a server left.
pub fn forget<R: Files>(rt: &R) {
    for file in FILES {
        let _removed = fs::remove_file(rt, file);
    }
    let _removed = fs::remove_dir(rt, WORK);
    forget_keys(rt);
}

/// A port at an address that was free.
///
/// # Errors
///
/// The platform's.
pub fn bound<R: AllocGlobal + Net + Clock>(rt: &R) -> io::Result<TcpPort<'_, R>> {
    TcpPort::bind(rt.alloc(), rt, "127.0.0.1:0")
}

/// An address at which nothing listens any more.
///
/// # Errors
///
/// The platform's.
pub fn free_address<R: AllocGlobal + Net + Clock>(rt: &R) -> io::Result<String> {
    let port = bound(rt)?;
    let address = address_of(rt.alloc(), &port);
    drop(port);
    address
}

/// All addresses of this machine, with the port of this one.
///
/// # Errors
///
/// `InvalidInput` where it has none, and want of memory.
pub fn everywhere(alloc: Global, address: &str) -> io::Result<String> {
    match address.rsplit_once(':') {
        Some((_host, port)) => Ok(format!(in alloc; "0.0.0.0:{port}")?),
        None => Err(io::Error::from(ErrorKind::InvalidInput)),
    }
}

/// The address of a port.
///
/// # Errors
///
/// The platform's.
pub fn address_of<R: Net + Clock>(alloc: Global, port: &TcpPort<'_, R>) -> io::Result<String> {
    let number = port.number()?;
    Ok(format!(in alloc; "127.0.0.1:{number}")?)
}
