//! Clients and servers over TCP. First a server in this program: its clients, what strangers are to it, images that two programs
//! want, and pieces that are appended to one. Then the programs with their words, as they are started: a server at a free address,
//! at one in use and with a full output, clients on bad streams and under hands, a drill, a log that is set aside, what a server's
//! image proves, and what keys keep out. The program starts itself as the client and as the server.
#![tactic(auto)]

mod certificates;
mod clients;
mod images;
mod keyless;
mod reasons;
mod seals;
mod servers;
mod serving;
mod shelving;
mod strangers;
mod works;

use client_prog::client_main;
use clients::{
    refuse_words, run_on_a_closed_input, run_on_a_closed_output, run_on_a_folder,
    run_on_a_full_output, run_on_a_long_input, show_versions, type_lines,
};
use images::{
    append_pieces, fill_the_disk, run_on_other_images, serve_unkept, share_a_served_image,
    share_an_image,
};
use keyless::{miss_a_seal, refuse_keys, serve_on_trust};
use outside::MemKeeper;
use program_words::given_words;
use real_edge::TcpPort;
use reasons::{refuse_each_word, show_missing_images, show_reasons};
use seals::show_seals;
use server_prog::server_main;
use servers::{
    serve_at_a_free_address, serve_at_an_address_in_use, serve_on_closed_streams,
    serve_with_a_full_output,
};
use serving::{serve, serve_a_client_from};
use shelving::{set_a_log_aside, show_drill};
use std::fs::File;
use std::io;
use std::net::Net;
use std::process::{ExitCode, Processes};
use std::rt::{Env, Files};
use std::time::Clock;
use strangers::{FALSE_REPLIES, call_all, mislead_by, print_answers};
use t_tcp_probe::{CLIENT, NO_TERMINALS, SERVER, bound, forget, run_lone_client};
use works::run_in_no_work;

/// With words it is the client or the server, as the first one says. Without any it shows what both meet, and how both end.
fn main(rt: HostRuntime) -> io::Result<ExitCode> {
    let words = given_words(&rt)?;
    match words.split_first() {
        None => {
            show_all(&rt)?;
            Ok(ExitCode::SUCCESS)
        }
        Some((program, words)) => Ok(run_as(&rt, program.as_str(), words)),
    }
}

/// Runs the program of this name on the words behind it.
fn run_as<
    R: Input + Print + Eprint + AllocGlobal + Env + Files<File = File> + Net + Clock + Processes,
>(rt: &R, program: &str, words: &[String]) -> ExitCode {
    match program {
        CLIENT => client_main(rt, NO_TERMINALS, words),
        SERVER => server_main(rt, words),
        _ => ExitCode::FAILURE,
    }
}

fn show_all<R: Processes + Files<File = File> + Env + AllocGlobal + Net + Clock + Print>(
    rt: &R,
) -> io::Result<()> {
    show_meetings(rt)?;
    show_programs(rt)?;
    forget(rt);
    Ok(())
}

/// Shows what clients and servers meet.
fn show_meetings<R: Processes + Files<File = File> + Env + AllocGlobal + Net + Clock + Print>(
    rt: &R,
) -> io::Result<()> {
    serve_a_client(rt)?;
    serve_strangers(rt)?;
    mislead_a_client(rt)?;
    miss_the_server(rt)?;
    show_reasons(rt)?;
    fill_the_disk(rt)?;
    serve_unkept(rt)?;
    share_an_image(rt)?;
    share_a_served_image(rt)?;
    run_on_other_images(rt)?;
    append_pieces(rt)
}

/// Shows how the programs end.
fn show_programs<R: Processes + Files<File = File> + Env + AllocGlobal + Net + Clock + Print>(
    rt: &R,
) -> io::Result<()> {
    refuse_words(rt)?;
    refuse_each_word(rt)?;
    show_missing_images(rt)?;
    show_versions(rt)?;
    serve_at_a_free_address(rt)?;
    serve_at_an_address_in_use(rt)?;
    serve_with_a_full_output(rt)?;
    serve_on_closed_streams(rt)?;
    run_on_a_folder(rt)?;
    run_on_a_full_output(rt)?;
    run_on_a_closed_output(rt)?;
    run_on_a_closed_input(rt)?;
    run_on_a_long_input(rt)?;
    type_lines(rt)?;
    run_in_no_work(rt)?;
    show_drill(rt)?;
    set_a_log_aside(rt)?;
    show_keys(rt)
}

/// Shows what keys change, and what is said where there are none.
fn show_keys<R: Processes + Files + Env + AllocGlobal + Net + Clock + Print>(
    rt: &R,
) -> io::Result<()> {
    show_seals(rt)?;
    miss_a_seal(rt)?;
    refuse_keys(rt)?;
    serve_on_trust(rt)
}

/// Serves one client that puts a file and ships it.
fn serve_a_client<R: Processes + Files + Env + AllocGlobal + Net + Clock + Print>(
    rt: &R,
) -> io::Result<()> {
    forget(rt);
    println!(rt; "-- a client and its server")?;
    let mut keeper = MemKeeper::new(rt.alloc(), Vec::new(rt.alloc()));
    let shown = serve_a_client_from(rt, &mut keeper);
    drop(keeper);
    shown
}

/// Serves connections that bring no frame.
fn serve_strangers<R: AllocGlobal + Files + Net + Clock + Print>(rt: &R) -> io::Result<()> {
    forget(rt);
    println!(rt; "-- strangers to the server")?;
    let mut port = bound(rt)?;
    match call_all(rt, &port) {
        Ok(streams) => {
            let served = serve_in_memory(rt, &mut port);
            drop(port);
            print_answers(rt, served, streams)
        }
        Err(error) => {
            drop(port);
            Err(error)
        }
    }
}

/// Serves five connections, and keeps nothing.
fn serve_in_memory<R: AllocGlobal + Net + Clock + Print>(
    rt: &R,
    port: &mut TcpPort<'_, R>,
) -> io::Result<()> {
    let mut keeper = MemKeeper::new(rt.alloc(), Vec::new(rt.alloc()));
    let served = serve(rt, "5", port, &mut keeper);
    drop(keeper);
    served
}

/// Answers each ask of a client by what is no reply to it.
fn mislead_a_client<R: Processes + Files + Env + AllocGlobal + Net + Clock + Print>(
    rt: &R,
) -> io::Result<()> {
    println!(rt; "-- a client and false replies")?;
    mislead_by(rt, &FALSE_REPLIES)
}

/// Runs a client whose server does not listen.
fn miss_the_server<R: Processes + Files + Env + AllocGlobal + Net + Clock + Print>(
    rt: &R,
) -> io::Result<()> {
    forget(rt);
    println!(rt; "-- a client without a server")?;
    run_lone_client(rt)
}
