// What standard error is told.
use crate::Status;
use std::fmt::Display;
use std::io;

/// Tells on standard error the reason that a status alone has, where it has one.
pub fn tell_plainly<R: Eprint>(rt: &R, program: &str, status: Status) {
    if let Some(reason) = status.reason() {
        tell(rt, program, &reason);
    }
}

/// Tells something on standard error, in a line that begins with the program's name.
pub fn tell<R: Eprint, D: Display>(rt: &R, program: &str, what: &D) {
    let _ = eprintln!(rt; "{program}: {what}");
}

/// Tells on standard error that a program listens, and where: at its address, with the number of the port where that is known.
pub fn tell_listening<R: Eprint>(rt: &R, program: &str, address: &str, port: io::Result<u16>) {
    let host = match address.rsplit_once(':') {
        Some((host, _number)) => host,
        None => address,
    };
    let _ = match port {
        Ok(number) => eprintln!(rt; "{program}: listens at {host}:{number}"),
        Err(_) => eprintln!(rt; "{program}: listens at {address}"),
    };
}
