// Surrogates without keys: those that do not begin, and one that whoever reaches it may use.
use crate::asking::ask;
use crate::{FAR, SURROGATE};
use std::io;
use std::net::Net;
use std::process::Processes;
use std::rt::{Env, Files};
use std::time::Clock;
use t_tcp_probe::{
    KEYS, everywhere, forget, free_address, print_ended_behind, run_with, start_with,
};

/// Says whether whoever reaches a surrogate without keys may use it.
const OPEN: &str = "HAURPIKO_OPEN";

/// A server at which nothing listens.
const NO_SERVER: &str = "127.0.0.1:1";

/// Where a surrogate is to listen, and with which variable it does not begin.
const REFUSED: [(&str, (&str, &str)); 7] = [
    ("0.0.0.0:0", (OPEN, "0")),
    ("[::]:0", (OPEN, "0")),
    ("localhost:0", (OPEN, "0")),
    ("0.0.0.0:0", (OPEN, "yes")),
    ("127.0.0.1:0", (OPEN, "yes")),
    ("127.0.0.1:0", (KEYS, "")),
    ("127.0.0.1:0", (KEYS, "nowhere")),
];

/// Runs surrogates that do not begin, and one that is open.
pub(crate) fn show_keyless<R: Processes + Files + Env + AllocGlobal + Net + Clock + Print>(
    rt: &R,
) -> io::Result<()> {
    forget(rt);
    println!(rt; "-- surrogates without keys")?;
    for (listen, variable) in REFUSED {
        run_with(
            rt,
            SURROGATE,
            &["run", listen, NO_SERVER, FAR, "1"],
            &[variable],
            b"",
        )?;
    }
    let address = free_address(rt)?;
    let shown = serve_everywhere(rt, &address);
    drop(address);
    shown
}

fn serve_everywhere<R: Processes + Files + Env + AllocGlobal + Net + Clock + Print>(
    rt: &R,
    address: &str,
) -> io::Result<()> {
    let listen = everywhere(rt.alloc(), address)?;
    let shown = serve_at(rt, &listen, address);
    drop(listen);
    shown
}

fn serve_at<R: Processes + Files + Env + AllocGlobal + Net + Clock + Print>(
    rt: &R,
    listen: &str,
    address: &str,
) -> io::Result<()> {
    let words = ["run", listen, NO_SERVER, FAR, "1"];
    let started = start_with(rt, SURROGATE, &words, &[(OPEN, "1")], b"")?;
    let shown = ask(rt, "no frame", address, b"");
    print_ended_behind(rt, shown, SURROGATE, listen, started)
}
