//! A client, its surrogate and their server over TCP on this machine. The program starts itself as all three: a command that the
//! client has run is run again by the surrogate, which has the server take what it made. What standard error is told of that, also
//! of what cannot be done; a script that a command let be run; an answer that is lost; two surrogates, of which the first refuses; one
//! folder for both; and what a surrogate left that was killed. Then a client alone, whose surrogate is this very process; and what keys
//! keep out.
#![tactic(auto)]

mod asking;
mod clearing;
mod frames;
mod keyless;
mod link;
mod scenes;
mod seals;
mod twice;

use asking::{ask, start, start_client};
use clearing::show_clearing;
use client_prog::client_main;
use frames::{OTHER_STATUS, PULL};
use keyless::show_keyless;
use link::show_port;
use program_words::given_words;
use scenes::{LINES, LIST, LOSS, SCRIPT, show_scene};
use seals::show_seals;
use server_prog::server_main;
use std::fs::{self, File};
use std::io;
use std::net::Net;
use std::process::{ExitCode, Processes};
use std::rt::{Env, Files};
use std::time::Clock;
use surrogate_prog::surrogate_main;
use t_tcp_probe::{
    CLIENT, IMAGE, NO_TERMINALS, SERVED, SERVER, forget, free_address, print_ended, print_ended_at,
};
use twice::show_one_folder;

/// The first word of this program where it is the surrogate.
pub(crate) const SURROGATE: &str = "surrogate";

/// The folder in which the client runs commands.
pub(crate) const NEAR: &str = "near";

/// The folder in which the surrogate does.
pub(crate) const FAR: &str = "far";

/// What the client is to do: a command makes a file that is longer than itself, and is shipped.
pub(crate) const INPUT: &[u8] =
    b"run env=PATH=/usr/bin:/bin -- /bin/sh -c 'printf %0300d 7 > a'\nsync\nquit\n";

/// With words it is the client, the server or the surrogate, as the first one says. Without any it shows what becomes of a command.
fn main(rt: HostRuntime) -> io::Result<ExitCode> {
    let words = given_words(&rt)?;
    match words.split_first() {
        None => show(&rt),
        Some((program, words)) => Ok(run_as(&rt, program.as_str(), words)),
    }
}

/// Runs the program of this name on the words behind it.
fn run_as<
    R: Input + Print + Eprint + AllocGlobal + Env + Files<File = File> + Net + Clock + Processes,
>(rt: &R, program: &str, words: &[String]) -> ExitCode {
    match program {
        CLIENT => client_main(rt, NO_TERMINALS, words),
        SERVER => server_main(rt, words),
        SURROGATE => surrogate_main(rt, words),
        _ => ExitCode::FAILURE,
    }
}

/// Shows all, and removes what that left, also where one part fails.
fn show<R: Processes + Files<File = File> + Env + AllocGlobal + Net + Clock + Print + Eprint>(
    rt: &R,
) -> io::Result<ExitCode> {
    let shown = show_all(rt);
    for folder in [NEAR, FAR] {
        let _removed = fs::remove_dir(rt, folder);
    }
    forget(rt);
    shown?;
    Ok(ExitCode::SUCCESS)
}

/// Each part begins without what the one before left.
fn show_all<R: Processes + Files<File = File> + Env + AllocGlobal + Net + Clock + Print + Eprint>(
    rt: &R,
) -> io::Result<()> {
    forget(rt);
    show_all_three(rt)?;
    show_scene(rt, &LINES)?;
    show_scene(rt, &SCRIPT)?;
    show_scene(rt, &LOSS)?;
    show_scene(rt, &LIST)?;
    show_one_folder(rt)?;
    show_clearing(rt)?;
    forget(rt);
    show_port(rt)?;
    show_seals(rt)?;
    show_keyless(rt)
}

/// Starts a server, a surrogate that asks it, and a client of both.
fn show_all_three<R: Processes + Files + Env + AllocGlobal + Net + Clock + Print>(
    rt: &R,
) -> io::Result<()> {
    let address = free_address(rt)?;
    let shown = show_at(rt, &address);
    drop(address);
    shown
}

/// A server at this address takes three connections: the surrogate's store, and before and after it one that asks for all rows.
fn show_at<R: Processes + Files + Env + AllocGlobal + Net + Clock + Print>(
    rt: &R,
    server: &str,
) -> io::Result<()> {
    let started = start(rt, SERVER, &["run", server, SERVED, "3"])?;
    match show_surrogate(rt, server) {
        Ok(()) => print_ended_at(rt, SERVER, server, started),
        Err(error) => {
            drop(started);
            Err(error)
        }
    }
}

fn show_surrogate<R: Processes + Files + Env + AllocGlobal + Net + Clock + Print>(
    rt: &R,
    server: &str,
) -> io::Result<()> {
    ask(rt, "rows before", server, &PULL)?;
    let address = free_address(rt)?;
    let asked = ask_surrogate(rt, &address, server);
    drop(address);
    asked?;
    ask(rt, "rows after", server, &PULL)
}

/// A surrogate at this address takes twelve connections: three of strangers, one of the client, and eight of one that takes it for a
/// server.
fn ask_surrogate<R: Processes + Files + Env + AllocGlobal + Net + Clock + Print>(
    rt: &R,
    address: &str,
    server: &str,
) -> io::Result<()> {
    let started = start(rt, SURROGATE, &["run", address, server, FAR, "12"])?;
    match ask_all(rt, address, server) {
        Ok(()) => print_ended_at(rt, SURROGATE, address, started),
        Err(error) => {
            drop(started);
            Err(error)
        }
    }
}

fn ask_all<R: Processes + Files + Env + AllocGlobal + Net + Clock + Print>(
    rt: &R,
    address: &str,
    server: &str,
) -> io::Result<()> {
    ask(rt, "no frame", address, b"")?;
    ask(rt, "a pull", address, &PULL)?;
    ask(rt, "another status", address, &OTHER_STATUS)?;
    run_client(rt, server, address)?;
    fs::remove_file(rt, IMAGE)?;
    run_client(rt, address, "-")
}

/// Runs a client of this server and this surrogate to its end, and prints that.
fn run_client<R: Processes + Files + Env + AllocGlobal + Print>(
    rt: &R,
    server: &str,
    surrogate: &str,
) -> io::Result<()> {
    let client = start_client(rt, server, surrogate, NEAR, INPUT)?;
    print_ended(rt, CLIENT, client)
}
