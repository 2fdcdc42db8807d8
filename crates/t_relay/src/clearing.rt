// What a surrogate leaves that is killed.
use crate::asking::{ask, start, start_client};
use crate::{FAR, NEAR, SURROGATE};
use std::io::{self, ErrorKind};
use std::net::Net;
use std::process::{Child, OpenProcess, Processes};
use std::rt::{Env, Files};
use std::time::{Clock, Duration};
use std::{fs, thread};
use t_tcp_probe::{CLIENT, forget, free_address, print_ended, print_ended_at};

/// What the client is to do. Its command runs long enough to be met while it runs.
const INPUT: &[u8] =
    b"run env=PATH=/usr/bin:/bin -- /bin/sh -c 'sleep 1; printf %0300d 7 > a'\nsync\nquit\n";

/// How often it is looked whether a command runs, and how many milliseconds are waited in between.
const LOOKS: usize = 2_000;

const BETWEEN_MILLIS: u64 = 10;

/// A surrogate is killed while it runs a command, and started again in the same folder. Its server does not listen.
pub(crate) fn show_clearing<R: Processes + Files + Env + AllocGlobal + Net + Clock + Print>(
    rt: &R,
) -> io::Result<()> {
    forget(rt);
    println!(rt; "-- a surrogate that is killed")?;
    let server = free_address(rt)?;
    let shown = show_killing(rt, &server);
    drop(server);
    shown
}

fn show_killing<R: Processes + Files + Env + AllocGlobal + Net + Clock + Print>(
    rt: &R,
    server: &str,
) -> io::Result<()> {
    let surrogate = free_address(rt)?;
    let shown = show_both(rt, server, &surrogate);
    drop(surrogate);
    shown
}

/// Shows the surrogate that is killed, and the one that is started then.
fn show_both<R: Processes + Files + Env + AllocGlobal + Net + Clock + Print>(
    rt: &R,
    server: &str,
    surrogate: &str,
) -> io::Result<()> {
    let first = start(rt, SURROGATE, &["run", surrogate, server, FAR, "2"])?;
    run_and_kill(rt, server, surrogate, first)?;
    print_left(rt)?;
    let second = start(rt, SURROGATE, &["run", surrogate, server, FAR, "1"])?;
    match ask(rt, "no frame", surrogate, b"") {
        Ok(()) => print_ended_at(rt, SURROGATE, surrogate, second)?,
        Err(error) => {
            drop(second);
            return Err(error);
        }
    }
    print_left(rt)
}

/// Has the surrogate run a command, kills it within that, and waits for the client, which is not answered.
fn run_and_kill<R: Processes + Files + Env + AllocGlobal + Net + Clock + Print>(
    rt: &R,
    server: &str,
    surrogate: &str,
    mut started: Child<R::Started>,
) -> io::Result<()> {
    match start_once_it_listens(rt, server, surrogate) {
        Ok(client) => {
            let met = wait_for_a_run(rt);
            let killed = started.kill();
            let printed = print_ended_at(rt, SURROGATE, surrogate, started);
            let ended = print_ended(rt, CLIENT, client);
            met.and(killed).and(printed).and(ended)
        }
        Err(error) => {
            drop(started);
            Err(error)
        }
    }
}

/// Starts the client once the surrogate listens.
fn start_once_it_listens<R: Processes + Files + Env + AllocGlobal + Net + Clock + Print>(
    rt: &R,
    server: &str,
    surrogate: &str,
) -> io::Result<Child<R::Started>> {
    ask(rt, "no frame", surrogate, b"")?;
    start_client(rt, server, surrogate, NEAR, INPUT)
}

/// Waits until the surrogate runs a command.
fn wait_for_a_run<R: Files + AllocGlobal + Clock>(rt: &R) -> io::Result<()> {
    for _ in 0..LOOKS {
        if has_left(rt) {
            return Ok(());
        }
        thread::sleep(rt, Duration::from_millis(BETWEEN_MILLIS));
    }
    Err(io::Error::from(ErrorKind::TimedOut))
}

/// Whether something stands in the surrogate's folder.
fn has_left<R: Files + AllocGlobal>(rt: &R) -> bool {
    match fs::read_dir(&rt, FAR) {
        Ok(mut found) => {
            let has = found.next().is_some();
            drop(found);
            has
        }
        Err(_) => false,
    }
}

fn print_left<R: Files + AllocGlobal + Print>(rt: &R) -> io::Result<()> {
    let is_left = has_left(rt);
    println!(rt; "something is left of its run: {is_left}")
}
