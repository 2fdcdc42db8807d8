// Programs that are started, and asked.
use crate::frames::ANSWERS;
use std::io::{self, Write};
use std::net::Net;
use std::process::{Child, Processes};
use std::rt::{Env, Files};
use std::time::Clock;
use t_tcp_probe::{CLIENT, IMAGE, command_of, first_answer_of, spawned};

/// Starts this very program as another.
pub(crate) fn start<R: Processes + Files + Env + AllocGlobal>(
    rt: &R,
    program: &str,
    words: &[&str],
) -> io::Result<Child<R::Started>> {
    let command = command_of(rt, program, words)?;
    spawned(rt, command)
}

/// Starts a client of this server and this surrogate, which runs commands in this folder, and types its input.
pub(crate) fn start_client<R: Processes + Files + Env + AllocGlobal>(
    rt: &R,
    server: &str,
    surrogate: &str,
    folder: &str,
    input: &[u8],
) -> io::Result<Child<R::Started>> {
    let mut client = start(rt, CLIENT, &["run", "1", IMAGE, server, surrogate, folder])?;
    if let Some(mut stdin) = client.stdin.take() {
        let _written = stdin.write_all(input);
    }
    Ok(client)
}

/// Asks once the peer listens, and prints the answer.
pub(crate) fn ask<R: AllocGlobal + Net + Clock + Print>(
    rt: &R,
    name: &str,
    address: &str,
    frame: &[u8],
) -> io::Result<()> {
    let answer = first_answer_of(rt, address, frame)?;
    let printed = print_known(rt, name, &answer);
    drop(answer);
    printed
}

/// Prints what an answer is, where it is a known one.
fn print_known<R: Print>(rt: &R, name: &str, answer: &[u8]) -> io::Result<()> {
    for (known, text) in ANSWERS {
        if known == answer {
            return println!(rt; "{name}: {text}");
        }
    }
    println!(rt; "{name}: something else")
}
