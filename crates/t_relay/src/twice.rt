// A client and a surrogate that run commands in one folder, and a command that is asked twice.
use crate::asking::{ask, start, start_client};
use crate::{NEAR, SURROGATE};
use std::io;
use std::net::Net;
use std::process::Processes;
use std::rt::{Env, Files};
use std::time::Clock;
use t_tcp_probe::{CLIENT, SERVED, SERVER, forget, free_address, print_ended, print_ended_at};

/// What the client is to do before the server listens, and then. What its command makes names the folder in which it runs.
const FIRST: &[u8] = b"run -- /bin/sh -c 'printf %300s $PWD > where'\nsync\nquit\n";

const THEN: &[u8] = b"sync\nquit\n";

/// A surrogate runs the client's command while their server does not listen, and again once it does.
pub(crate) fn show_one_folder<R: Processes + Files + Env + AllocGlobal + Net + Clock + Print>(
    rt: &R,
) -> io::Result<()> {
    forget(rt);
    println!(rt; "-- one folder for both, and a command that is asked twice")?;
    let server = free_address(rt)?;
    let shown = show_surrogate_of(rt, &server);
    drop(server);
    shown
}

fn show_surrogate_of<R: Processes + Files + Env + AllocGlobal + Net + Clock + Print>(
    rt: &R,
    server: &str,
) -> io::Result<()> {
    let surrogate = free_address(rt)?;
    let shown = show_surrogate(rt, server, &surrogate);
    drop(surrogate);
    shown
}

/// Starts the surrogate, and prints how it ends.
fn show_surrogate<R: Processes + Files + Env + AllocGlobal + Net + Clock + Print>(
    rt: &R,
    server: &str,
    surrogate: &str,
) -> io::Result<()> {
    let started = start(rt, SURROGATE, &["run", surrogate, server, NEAR, "3"])?;
    match show_asks(rt, server, surrogate) {
        Ok(()) => print_ended_at(rt, SURROGATE, surrogate, started),
        Err(error) => {
            drop(started);
            Err(error)
        }
    }
}

/// The client asks before the server listens, and again once it does.
fn show_asks<R: Processes + Files + Env + AllocGlobal + Net + Clock + Print>(
    rt: &R,
    server: &str,
    surrogate: &str,
) -> io::Result<()> {
    ask(rt, "no frame", surrogate, b"")?;
    let client = start_client(rt, server, surrogate, NEAR, FIRST)?;
    print_ended(rt, CLIENT, client)?;
    let started = start(rt, SERVER, &["run", server, SERVED, "2"])?;
    match ask_again(rt, server, surrogate) {
        Ok(()) => print_ended_at(rt, SERVER, server, started),
        Err(error) => {
            drop(started);
            Err(error)
        }
    }
}

fn ask_again<R: Processes + Files + Env + AllocGlobal + Net + Clock + Print>(
    rt: &R,
    server: &str,
    surrogate: &str,
) -> io::Result<()> {
    ask(rt, "no frame", server, b"")?;
    let client = start_client(rt, server, surrogate, NEAR, THEN)?;
    print_ended(rt, CLIENT, client)
}
