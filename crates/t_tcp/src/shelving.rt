// A stuck log that is set aside by the client's own program, beside a server as a program.
use crate::certificates::{show_certificates, show_locks};
use crate::images::print_load;
use crate::servers::call_once_it_listens;
use real_edge::FileKeeper;
use std::fs::File;
use std::io;
use std::net::Net;
use std::process::Processes;
use std::rt::{Env, Files};
use std::time::Clock;
use t_tcp_probe::{
    CLIENT, IMAGE, NEW, OTHER, SERVED, SERVER, WORK, command_of, forget, free_address,
    print_ended_at, run_on, spawned,
};

/// What is typed to two clients, of which the first takes the path from the second, and then to the one that goes on.
const FIRST: &[u8] = b"put a hello\nsync\n";

const SECOND: &[u8] = b"put a world\nsync\n";

const THEN: &[u8] = b"cat a\ncat s/1.0\nsync\n";

/// The folder of what was set aside.
pub(crate) const FOLDER: &str = "s";

/// Works a drill off.
pub(crate) fn show_drill<R: Processes + Files + Env + AllocGlobal + Print>(
    rt: &R,
) -> io::Result<()> {
    println!(rt; "-- a drill")?;
    run_on(rt, CLIENT, &["drill", "1", "5"], b"")
}

/// Sets a log aside beside the server, and checks what the server's image proves.
pub(crate) fn set_a_log_aside<
    R: Processes + Files<File = File> + Env + AllocGlobal + Net + Clock + Print,
>(rt: &R) -> io::Result<()> {
    forget(rt);
    println!(rt; "-- a log that is set aside, and what the server keeps")?;
    let address = free_address(rt)?;
    let shown = show_beside(rt, &address);
    drop(address);
    shown?;
    show_locks(rt)
}

/// A server at this address takes five connections: of a stranger, two syncs, the pull of the shelving, and one sync more.
fn show_beside<R: Processes + Files<File = File> + Env + AllocGlobal + Net + Clock + Print>(
    rt: &R,
    address: &str,
) -> io::Result<()> {
    let command = command_of(rt, SERVER, &["run", address, SERVED, "5"])?;
    let server = spawned(rt, command)?;
    match show_shelving(rt, address) {
        Ok(()) => print_ended_at(rt, SERVER, address, server),
        Err(error) => {
            drop(server);
            Err(error)
        }
    }
}

/// The server runs until the last client has synced, behind the certificates.
fn show_shelving<R: Processes + Files<File = File> + Env + AllocGlobal + Net + Clock + Print>(
    rt: &R,
    address: &str,
) -> io::Result<()> {
    call_once_it_listens(rt, address)?;
    run_session(rt, "2", OTHER, address, FIRST)?;
    run_session(rt, "1", IMAGE, address, SECOND)?;
    shelve_while_it_is_held(rt, address)?;
    shelve(rt, address)?;
    show_certificates(rt)?;
    run_session(rt, "3", NEW, address, THEN)
}

/// Runs the client of this number on this image.
fn run_session<R: Processes + Files + Env + AllocGlobal + Print>(
    rt: &R,
    number: &str,
    image: &str,
    address: &str,
    input: &[u8],
) -> io::Result<()> {
    let words = ["run", number, image, address, "-", WORK];
    run_on(rt, CLIENT, &words, input)
}

/// Sets the log of client 1 aside, for client 3.
fn shelve<R: Processes + Files + Env + AllocGlobal + Print>(
    rt: &R,
    address: &str,
) -> io::Result<()> {
    let words = ["shelve", "1", IMAGE, "3", NEW, address, FOLDER];
    run_on(rt, CLIENT, &words, b"")
}

/// The same while this program has the image of client 1.
fn shelve_while_it_is_held<R: Processes + Files<File = File> + Env + AllocGlobal + Print>(
    rt: &R,
    address: &str,
) -> io::Result<()> {
    let mut keeper = FileKeeper::new(rt.alloc(), rt);
    let held = print_load(rt, IMAGE, &mut keeper);
    let shown = held.and_then(|()| shelve(rt, address));
    drop(keeper);
    shown
}
