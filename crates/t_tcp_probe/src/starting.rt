// This very program, started once more as the client or the server.
use crate::ending::print_ended;
use crate::places::{IMAGE, WORK, address_of, free_address};
use real_edge::{TcpPort, Terminals};
use std::alloc::AllocError;
use std::io::Write;
use std::net::Net;
use std::path::Path;
use std::process::{Child, Command, OpenProcess, Processes, Stdio};
use std::rt::{Env, Files};
use std::time::Clock;
use std::{env, io};

/// The first word of this program where it is the client.
pub const CLIENT: &str = "client";

/// The first word of this program where it is the server.
pub const SERVER: &str = "server";

/// No stream of a program that is started so is a terminal.
pub const NO_TERMINALS: Terminals = Terminals {
    is_typed: false,
    is_shown: false,
};

/// The shell.
const SHELL: &str = "/bin/sh";

/// How the name of a loader begins. Where one runs this program, it finds what it loads beside itself, and this program's
/// name is the first word.
const LOADER: &str = "ld-";

/// What a client is to do: a file is put, and shipped.
const INPUT: &[u8] = b"put a hello\nsync\n";

/// A command that starts this very program as another with these words, its streams in pipes.
///
/// # Errors
///
/// The platform's, where this program's path or its words cannot be had, and want of memory.
pub fn command_of<R: Files + Env + AllocGlobal>(
    rt: &R,
    program: &str,
    words: &[&str],
) -> io::Result<Command> {
    let mut command = own_command(rt)?;
    match add_all(rt, &mut command, program, words) {
        Ok(()) => Ok(command),
        Err(error) => {
            drop(command);
            Err(error)
        }
    }
}

/// A command that has the shell start this very program as another with these words, its streams in pipes. In the script `"$@"` is
/// that program with its words.
///
/// # Errors
///
/// As `command_of`.
pub fn command_by<R: Files + Env + AllocGlobal>(
    rt: &R,
    script: &str,
    program: &str,
    words: &[&str],
) -> io::Result<Command> {
    let mut command = Command::new(rt.alloc(), SHELL)?;
    match add_script(rt, &mut command, script, program, words) {
        Ok(()) => Ok(command),
        Err(error) => {
            drop(command);
            Err(error)
        }
    }
}

fn add_script<R: Files + Env + AllocGlobal>(
    rt: &R,
    command: &mut Command,
    script: &str,
    program: &str,
    words: &[&str],
) -> io::Result<()> {
    command.args(&["-c", script, SHELL])?;
    let running = env::current_exe(rt)?;
    let added = command.arg(running.as_path()).map(|_| ());
    drop(running);
    added?;
    add_all(rt, command, program, words)
}

/// What starts this very program, or the loader that runs it.
fn own_command<R: Files + Env + AllocGlobal>(rt: &R) -> io::Result<Command> {
    let running = env::current_exe(rt)?;
    let made = Command::new(rt.alloc(), running.as_path());
    drop(running);
    Ok(made?)
}

/// Says whether programs are kept apart. What is shown is to be the same on each machine, so they are not.
const APART: &str = "HAURPIKO_APART";

fn add_all<R: Files + Env + AllocGlobal>(
    rt: &R,
    command: &mut Command,
    program: &str,
    words: &[&str],
) -> io::Result<()> {
    add_loader_words(rt, command)?;
    command.arg(program)?;
    command.args(words)?;
    command.env(APART, "0")?;
    command.stdin(Stdio::piped());
    command.stdout(Stdio::piped());
    command.stderr(Stdio::piped());
    Ok(())
}

/// Adds what a loader is told, where one runs this program.
fn add_loader_words<R: Files + Env + AllocGlobal>(rt: &R, command: &mut Command) -> io::Result<()> {
    let running = env::current_exe(rt)?;
    let added = match (running.file_name(), running.parent()) {
        (Some(name), Some(folder)) if name.starts_with(LOADER) => add_folder(rt, command, folder),
        _ => Ok(()),
    };
    drop(running);
    added
}

fn add_folder<R: Env + AllocGlobal>(
    rt: &R,
    command: &mut Command,
    folder: Path<'_>,
) -> io::Result<()> {
    command.arg("--library-path")?.arg(folder)?;
    command.args(env::args(rt)?.take(1))?;
    Ok(())
}

/// A command that starts a client of the server at this address.
///
/// # Errors
///
/// As `command_of`.
pub fn client_command<R: Files + Env + AllocGlobal>(rt: &R, address: &str) -> io::Result<Command> {
    command_of(rt, CLIENT, &["run", "1", IMAGE, address, "-", WORK])
}

/// A command that starts a client whose server does not listen.
///
/// # Errors
///
/// As `command_of`.
pub fn lone_client_command<R: Files + Env + AllocGlobal + Net + Clock>(
    rt: &R,
) -> io::Result<Command> {
    let address = free_address(rt)?;
    let command = client_command(rt, &address);
    drop(address);
    command
}

/// Starts a client whose server does not listen, by this script of the shell.
///
/// # Errors
///
/// As `command_of`, and the platform's.
pub fn lone_client_by<R: Files + Env + AllocGlobal + Net + Clock + Processes>(
    rt: &R,
    script: &str,
) -> io::Result<Child<R::Started>> {
    let address = free_address(rt)?;
    let words = ["run", "1", IMAGE, &address, "-", WORK];
    let command = command_by(rt, script, CLIENT, &words);
    drop(address);
    spawned(rt, command?)
}

/// Starts a program.
///
/// # Errors
///
/// The platform's.
pub fn spawned<R: Processes>(rt: &R, mut command: Command) -> io::Result<Child<R::Started>> {
    let started = command.spawn(rt);
    drop(command);
    started
}

/// Starts a client, and types what it is to do.
///
/// # Errors
///
/// The platform's.
pub fn started<R: Processes>(rt: &R, command: Command) -> io::Result<Child<R::Started>> {
    let mut client = spawned(rt, command)?;
    type_to(&mut client);
    Ok(client)
}

/// Types what a client is to do. One with other words reads nothing.
pub fn type_to<P: OpenProcess + Drop>(client: &mut Child<P>) {
    type_input(client, INPUT);
}

/// Types this to a program, and ends its input.
pub fn type_input<P: OpenProcess + Drop>(started: &mut Child<P>, input: &[u8]) {
    if let Some(mut stdin) = started.stdin.take() {
        let _written = stdin.write_all(input);
    }
}

/// Runs a program on these words and this input to its end, and prints that.
///
/// # Errors
///
/// The platform's.
pub fn run_on<R: Processes + Files + Env + AllocGlobal + Print>(
    rt: &R,
    program: &str,
    words: &[&str],
    input: &[u8],
) -> io::Result<()> {
    let command = command_of(rt, program, words)?;
    let mut started = spawned(rt, command)?;
    type_input(&mut started, input);
    print_ended(rt, program, started)
}

/// Starts this very program as another with these words and variables, and types this to it.
///
/// # Errors
///
/// As `command_of`, and the platform's.
pub fn start_with<R: Processes + Files + Env + AllocGlobal>(
    rt: &R,
    program: &str,
    words: &[&str],
    variables: &[(&str, &str)],
    input: &[u8],
) -> io::Result<Child<R::Started>> {
    let mut command = command_of(rt, program, words)?;
    if let Err(refused) = add_variables(&mut command, variables) {
        drop(command);
        return Err(io::Error::from(refused));
    }
    let mut started = spawned(rt, command)?;
    type_input(&mut started, input);
    Ok(started)
}

fn add_variables(command: &mut Command, variables: &[(&str, &str)]) -> Result<(), AllocError> {
    for (name, value) in variables {
        command.env(*name, *value)?;
    }
    Ok(())
}

/// Runs it to its end, and prints that.
///
/// # Errors
///
/// As `start_with`.
pub fn run_with<R: Processes + Files + Env + AllocGlobal + Print>(
    rt: &R,
    program: &str,
    words: &[&str],
    variables: &[(&str, &str)],
    input: &[u8],
) -> io::Result<()> {
    let started = start_with(rt, program, words, variables, input)?;
    print_ended(rt, program, started)
}

/// Starts a client of the server at this port, and types what it is to do.
///
/// # Errors
///
/// The platform's.
pub fn start_client_at<R: Processes + Files + Env + AllocGlobal + Net + Clock>(
    rt: &R,
    port: &TcpPort<'_, R>,
) -> io::Result<Child<R::Started>> {
    let address = address_of(rt.alloc(), port)?;
    let command = client_command(rt, &address);
    drop(address);
    started(rt, command?)
}

/// Runs a client of the server at this address to its end, and prints that.
///
/// # Errors
///
/// The platform's.
pub fn run_client<R: Processes + Files + Env + AllocGlobal + Print>(
    rt: &R,
    address: &str,
) -> io::Result<()> {
    let command = client_command(rt, address)?;
    let client = started(rt, command)?;
    print_ended(rt, CLIENT, client)
}

/// Runs a client whose server does not listen to its end, and prints that.
///
/// # Errors
///
/// The platform's.
pub fn run_lone_client<R: Processes + Files + Env + AllocGlobal + Net + Clock + Print>(
    rt: &R,
) -> io::Result<()> {
    let command = lone_client_command(rt)?;
    let client = started(rt, command)?;
    print_ended(rt, CLIENT, client)
}
