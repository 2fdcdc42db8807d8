// Clients as programs.
use std::fs::{self, File};
use std::io;
use std::io::{ErrorKind, Read, Write};
use std::net::Net;
use std::process::{Child, Command, OpenProcess, Processes};
use std::rt::{Env, Files};
use std::time::Clock;
use t_tcp_probe::{
    CLIENT, LOCK, SERVER, command_of, forget, lone_client_by, lone_client_command, print_ended,
    spawned, started, type_to,
};

/// What is typed to a client, and of how many lines the answer is. A program that reads its input does not take what is typed.
const TYPED: [(&[u8], u32); 5] = [
    (b"put a hello\n", 1),
    (b"cat a\n", 2),
    (b"run -- /bin/cat\n", 1),
    (b"status\n", 1),
    (b"quit\n", 1),
];

/// Starts a program with a closed output, and one with a closed input.
const WITHOUT_OUTPUT: &str = "exec \"$@\" >&-";

const WITHOUT_INPUT: &str = "exec \"$@\" <&-";

/// A file with an input, and how many bytes it has: one more than an input may have.
const LONG: &str = "long";

const LONG_BYTES: u64 = 16_777_217;

/// A device that takes no byte.
const FULL: &str = "/dev/full";

/// The most bytes of a line that is shown.
const LONGEST_LINE: usize = 1_000;

/// Runs a client on words of no form.
pub(crate) fn refuse_words<R: Processes + Files + Env + AllocGlobal + Print>(
    rt: &R,
) -> io::Result<()> {
    forget(rt);
    println!(rt; "-- a client with other words")?;
    let command = command_of(rt, CLIENT, &["run", "65"])?;
    let client = started(rt, command)?;
    print_ended(rt, CLIENT, client)
}

/// Asks both programs for their version.
pub(crate) fn show_versions<R: Processes + Files + Env + AllocGlobal + Print>(
    rt: &R,
) -> io::Result<()> {
    println!(rt; "-- versions")?;
    show_version(rt, CLIENT)?;
    show_version(rt, SERVER)
}

fn show_version<R: Processes + Files + Env + AllocGlobal + Print>(
    rt: &R,
    program: &str,
) -> io::Result<()> {
    let command = command_of(rt, program, &["--version"])?;
    let asked = spawned(rt, command)?;
    print_ended(rt, program, asked)
}

/// Runs a client whose input is a folder.
pub(crate) fn run_on_a_folder<
    R: Processes + Files<File = File> + Env + AllocGlobal + Net + Clock + Print,
>(rt: &R) -> io::Result<()> {
    forget(rt);
    println!(rt; "-- clients on bad streams")?;
    let command = lone_client_command(rt)?;
    let client = with_input(rt, command, ".")?;
    print_ended(rt, CLIENT, client)
}

/// Starts a program whose input is at this path.
fn with_input<R: Processes + Files<File = File>>(
    rt: &R,
    mut command: Command,
    path: &str,
) -> io::Result<Child<R::Started>> {
    match File::open(rt, path) {
        Ok(file) => {
            command.stdin(file);
            spawned(rt, command)
        }
        Err(error) => {
            drop(command);
            Err(error)
        }
    }
}

/// Runs a client whose output is full.
pub(crate) fn run_on_a_full_output<
    R: Processes + Files<File = File> + Env + AllocGlobal + Net + Clock + Print,
>(rt: &R) -> io::Result<()> {
    let command = lone_client_command(rt)?;
    let mut client = with_a_full_output(rt, command)?;
    type_to(&mut client);
    print_ended(rt, CLIENT, client)
}

/// Starts a program whose output is full.
pub(crate) fn with_a_full_output<R: Processes + Files<File = File>>(
    rt: &R,
    mut command: Command,
) -> io::Result<Child<R::Started>> {
    match File::options().write(true).open(rt, FULL) {
        Ok(full) => {
            command.stdout(full);
            spawned(rt, command)
        }
        Err(error) => {
            drop(command);
            Err(error)
        }
    }
}

/// Runs a client whose output is closed. What it opens first does not get what it answers.
pub(crate) fn run_on_a_closed_output<
    R: Processes + Files<File = File> + Env + AllocGlobal + Net + Clock + Print,
>(rt: &R) -> io::Result<()> {
    forget(rt);
    let mut client = lone_client_by(rt, WITHOUT_OUTPUT)?;
    type_to(&mut client);
    print_ended(rt, CLIENT, client)?;
    print_length(rt, LOCK)
}

/// Prints how many bytes a file has.
pub(crate) fn print_length<R: Files + Print>(rt: &R, file: &str) -> io::Result<()> {
    let bytes = fs::metadata(rt, file)?.len();
    println!(rt; "{file}: {bytes} bytes")
}

/// Runs a client whose input is closed, which is empty then.
pub(crate) fn run_on_a_closed_input<
    R: Processes + Files<File = File> + Env + AllocGlobal + Net + Clock + Print,
>(rt: &R) -> io::Result<()> {
    forget(rt);
    let client = lone_client_by(rt, WITHOUT_INPUT)?;
    print_ended(rt, CLIENT, client)
}

/// Runs a client whose input is too long by a byte.
pub(crate) fn run_on_a_long_input<
    R: Processes + Files<File = File> + Env + AllocGlobal + Net + Clock + Print,
>(rt: &R) -> io::Result<()> {
    forget(rt);
    let made = make_long(rt);
    let shown = made.and_then(|()| run_on_long(rt));
    let _removed = fs::remove_file(rt, LONG);
    shown
}

fn make_long<R: Files<File = File>>(rt: &R) -> io::Result<()> {
    let file = File::create(rt, LONG)?;
    let made = file.set_len(LONG_BYTES);
    drop(file);
    made
}

fn run_on_long<R: Processes + Files<File = File> + Env + AllocGlobal + Net + Clock + Print>(
    rt: &R,
) -> io::Result<()> {
    let command = lone_client_command(rt)?;
    let client = with_input(rt, command, LONG)?;
    print_ended(rt, CLIENT, client)
}

/// Types line after line to a client, each once the one before it is answered.
pub(crate) fn type_lines<R: Processes + Files + Env + AllocGlobal + Net + Clock + Print>(
    rt: &R,
) -> io::Result<()> {
    forget(rt);
    println!(rt; "-- a client that is typed to")?;
    let command = lone_client_command(rt)?;
    let mut client = spawned(rt, command)?;
    match type_each(rt, &mut client) {
        Ok(()) => print_ended(rt, CLIENT, client),
        Err(error) => {
            drop(client);
            Err(error)
        }
    }
}

fn type_each<R: Print, P: OpenProcess + Drop>(rt: &R, client: &mut Child<P>) -> io::Result<()> {
    let Some(mut input) = client.stdin.take() else {
        return Err(io::Error::from(ErrorKind::BrokenPipe));
    };
    let typed = match &mut client.stdout {
        Some(output) => type_over(rt, &mut input, output),
        None => Err(io::Error::from(ErrorKind::BrokenPipe)),
    };
    drop(input);
    typed
}

/// Types each line, and prints the lines of its answer.
fn type_over<R: Print, W: Write, S: Read>(rt: &R, input: &mut W, output: &mut S) -> io::Result<()> {
    for (line, answers) in TYPED {
        input.write_all(line)?;
        for _ in 0..answers {
            print_line(rt, output)?;
        }
    }
    Ok(())
}

/// Prints the next line of a program's output.
fn print_line<R: Print, S: Read>(rt: &R, output: &mut S) -> io::Result<()> {
    let mut byte = [0];
    for _ in 0..LONGEST_LINE {
        if output.read(&mut byte)? == 0 {
            return Ok(());
        }
        io::writer(rt).write_all(&byte)?;
        if byte == *b"\n" {
            return Ok(());
        }
    }
    Ok(())
}
