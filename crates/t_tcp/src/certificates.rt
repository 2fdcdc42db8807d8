// What a server's image proves: its root, and the certificate of a path, which the client's program checks.
use std::process::{Output, Processes};
use std::rt::{Env, Files};
use std::{fs, io};
use t_tcp_probe::{CLIENT, SERVED, SERVED_LOCK, SERVER, command_of, run_on, spawned};

/// The path of a file, and another one.
const PATH: &str = "a";

const OTHER_PATH: &str = "b";

/// Asks for root and certificate beside the server that has the image, and has the client check them.
pub(crate) fn show_certificates<R: Processes + Files + Env + AllocGlobal + Print>(
    rt: &R,
) -> io::Result<()> {
    let root = told_by_server(rt, &["root", SERVED])?;
    let shown = show_checks(rt, &root);
    drop(root);
    shown
}

fn show_checks<R: Processes + Files + Env + AllocGlobal + Print>(
    rt: &R,
    root: &[u8],
) -> io::Result<()> {
    let certificate = told_by_server(rt, &["prove", SERVED, PATH])?;
    let root = str::from_utf8(root).unwrap_or("no text").trim_end();
    println!(rt; "root: {root}")?;
    let shown = check_both(rt, root, &certificate);
    drop(certificate);
    shown
}

/// Checks the certificate for its own path, and for another one.
fn check_both<R: Processes + Files + Env + AllocGlobal + Print>(
    rt: &R,
    root: &str,
    certificate: &[u8],
) -> io::Result<()> {
    for path in [PATH, OTHER_PATH] {
        run_on(rt, CLIENT, &["check", root, path], certificate)?;
    }
    Ok(())
}

/// What the server's program writes on these words; what it tells beside, and how it ends, is printed.
fn told_by_server<R: Processes + Files + Env + AllocGlobal + Print>(
    rt: &R,
    words: &[&str],
) -> io::Result<Vec<u8>> {
    let command = command_of(rt, SERVER, words)?;
    let server = spawned(rt, command)?;
    let Output {
        status,
        stdout,
        stderr,
    } = server.wait_with_output(rt.alloc())?;
    let told = stderr.len();
    drop(stderr);
    match println!(rt; "{SERVER}: {status}, {told} bytes on standard error") {
        Ok(()) => Ok(stdout),
        Err(error) => {
            drop(stdout);
            Err(error)
        }
    }
}

/// Asks for both where no program has the image and no lock is there, and prints whether one is made.
pub(crate) fn show_locks<R: Processes + Files + Env + AllocGlobal + Print>(
    rt: &R,
) -> io::Result<()> {
    fs::remove_file(rt, SERVED_LOCK)?;
    show_certificates(rt)?;
    let made = fs::exists(rt, SERVED_LOCK)?;
    println!(rt; "a lock was made: {made}")
}
