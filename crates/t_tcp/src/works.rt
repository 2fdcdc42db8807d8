// Clients in a WORK that is not used.
use std::io::Write;
use std::net::Net;
use std::process::Processes;
use std::rt::{Env, Files};
use std::time::Clock;
use std::{fs, io};
use t_tcp_probe::{CLIENT, WORK, forget, lone_client_by, print_ended};

/// What makes a WORK that is not used, and starts a client there: one that everybody may write, and a link.
const WORKS: [&str; 2] = [
    "mkdir work && chmod 777 work && exec \"$@\"",
    "ln -s . work && exec \"$@\"",
];

/// Where the WORK of the clients before goes. What the last one put aside may still be removed from it.
const LEFT: &str = "left";

/// What is typed there.
const LINES: &[u8] = b"run -- /bin/cat\n";

/// Runs clients that clear and run a command in such a WORK.
pub(crate) fn run_in_no_work<R: Processes + Files + Env + AllocGlobal + Net + Clock + Print>(
    rt: &R,
) -> io::Result<()> {
    println!(rt; "-- clients in folders that are no WORK")?;
    for script in WORKS {
        forget(rt);
        let _moved = fs::rename(rt, WORK, LEFT);
        run_by(rt, script)?;
        let _removed = fs::remove_file(rt, WORK);
    }
    Ok(())
}

fn run_by<R: Processes + Files + Env + AllocGlobal + Net + Clock + Print>(
    rt: &R,
    script: &str,
) -> io::Result<()> {
    let mut client = lone_client_by(rt, script)?;
    if let Some(mut stdin) = client.stdin.take() {
        let _written = stdin.write_all(LINES);
    }
    print_ended(rt, CLIENT, client)
}
