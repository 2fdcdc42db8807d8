// Servers as programs.
use crate::clients::{print_length, with_a_full_output};
use crate::images::run_server_at;
use real_edge::TcpPort;
use std::fs::File;
use std::io;
use std::net::Net;
use std::process::{Child, Processes};
use std::rt::{Env, Files};
use std::time::Clock;
use t_tcp_probe::{
    SERVED, SERVED_LOCK, SERVER, address_of, bound, call_slowly, command_by, command_of, forget,
    free_address, print_answer, print_ended_at, print_first_answer, run_client, spawned,
};

/// A request, which the slow stranger sends in two parts.
const REQUEST: &[u8] = b"\0\0\0\x0b\x03\x03\x01\0\0\0\0\0\0\0\x01";

/// Starts a server with a closed input and a closed output.
const WITHOUT_STREAMS: &str = "exec \"$@\" <&- >&-";

/// Runs a server at a free address, which a stranger, a slow peer and a client call. It logs its requests.
pub(crate) fn serve_at_a_free_address<
    R: Processes + Files + Env + AllocGlobal + Net + Clock + Print,
>(rt: &R) -> io::Result<()> {
    forget(rt);
    println!(rt; "-- servers as programs")?;
    let address = free_address(rt)?;
    let shown = serve_at(rt, &address);
    drop(address);
    shown
}

fn serve_at<R: Processes + Files + Env + AllocGlobal + Net + Clock + Print>(
    rt: &R,
    address: &str,
) -> io::Result<()> {
    let server = start_logged(rt, address)?;
    match call_thrice(rt, address) {
        Ok(()) => print_ended_at(rt, SERVER, address, server),
        Err(error) => {
            drop(server);
            Err(error)
        }
    }
}

/// Starts a server that logs its requests.
fn start_logged<R: Processes + Files + Env + AllocGlobal>(
    rt: &R,
    address: &str,
) -> io::Result<Child<R::Started>> {
    let mut command = command_of(rt, SERVER, &["run", address, SERVED, "3"])?;
    match command.env("HAURPIKO_LOG", "1").map(|_| ()) {
        Ok(()) => spawned(rt, command),
        Err(refused) => {
            drop(command);
            Err(io::Error::from(refused))
        }
    }
}

fn call_thrice<R: Processes + Files + Env + AllocGlobal + Net + Clock + Print>(
    rt: &R,
    address: &str,
) -> io::Result<()> {
    call_once_it_listens(rt, address)?;
    let stream = call_slowly(rt, address, REQUEST)?;
    print_answer(rt, "a slow request", stream)?;
    run_client(rt, address)
}

/// Calls the server without a byte, once it listens.
pub(crate) fn call_once_it_listens<R: AllocGlobal + Net + Clock + Print>(
    rt: &R,
    address: &str,
) -> io::Result<()> {
    print_first_answer(rt, "nothing", address, b"")
}

/// Runs a server at an address at which this program listens.
pub(crate) fn serve_at_an_address_in_use<
    R: Processes + Files + Env + AllocGlobal + Net + Clock + Print,
>(rt: &R) -> io::Result<()> {
    let port = bound(rt)?;
    let shown = serve_beside(rt, &port);
    drop(port);
    shown
}

fn serve_beside<R: Processes + Files + Env + AllocGlobal + Net + Clock + Print>(
    rt: &R,
    port: &TcpPort<'_, R>,
) -> io::Result<()> {
    let address = address_of(rt.alloc(), port)?;
    let shown = run_server_at(rt, &address);
    drop(address);
    shown
}

/// Runs a server whose input and output are closed. What it opens first does not get what it answers.
pub(crate) fn serve_on_closed_streams<
    R: Processes + Files + Env + AllocGlobal + Net + Clock + Print,
>(rt: &R) -> io::Result<()> {
    forget(rt);
    let address = free_address(rt)?;
    let shown = serve_without_streams(rt, &address);
    drop(address);
    shown?;
    print_length(rt, SERVED_LOCK)
}

fn serve_without_streams<R: Processes + Files + Env + AllocGlobal + Net + Clock + Print>(
    rt: &R,
    address: &str,
) -> io::Result<()> {
    let words = ["run", address, SERVED, "1"];
    let command = command_by(rt, WITHOUT_STREAMS, SERVER, &words)?;
    let server = spawned(rt, command)?;
    match call_once_it_listens(rt, address) {
        Ok(()) => print_ended_at(rt, SERVER, address, server),
        Err(error) => {
            drop(server);
            Err(error)
        }
    }
}

/// Runs a server whose output is full.
pub(crate) fn serve_with_a_full_output<
    R: Processes + Files<File = File> + Env + AllocGlobal + Net + Clock + Print,
>(rt: &R) -> io::Result<()> {
    let address = free_address(rt)?;
    let shown = serve_fully(rt, &address);
    drop(address);
    shown
}

fn serve_fully<R: Processes + Files<File = File> + Env + AllocGlobal + Net + Clock + Print>(
    rt: &R,
    address: &str,
) -> io::Result<()> {
    let command = command_of(rt, SERVER, &["run", address, SERVED, "1"])?;
    let server = with_a_full_output(rt, command)?;
    match call_once_it_listens(rt, address) {
        Ok(()) => print_ended_at(rt, SERVER, address, server),
        Err(error) => {
            drop(server);
            Err(error)
        }
    }
}
