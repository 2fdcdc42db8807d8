// Programs that are led to no key, and a server that has none.
use crate::servers::call_once_it_listens;
use real_edge::TcpPort;
use std::net::Net;
use std::process::Processes;
use std::rt::{Env, Files};
use std::time::Clock;
use std::{fs, io};
use t_tcp_probe::{
    CLIENT, FIRST_KEY, IMAGE, KEY, KEY_FOLDER, KEYS, LOCK, OWNERS_ALONE, SERVED, SERVED_LOCK,
    SERVER, WORK, address_of, bound, everywhere, forget, free_address, keep_keys,
    print_ended_behind, run_with, start_with, write_with_rights,
};

/// What is typed to clients.
const INPUT: &[u8] = b"put a hello\nsync\n";

/// The rights to a file that others than its owner may read.
const SHARED: u32 = 0o644;

/// What a file has that is no key.
const NO_KEY: &str = "1111\n";

/// Runs a client and a server whose variables lead to no key.
pub(crate) fn refuse_keys<R: Processes + Files + Env + AllocGlobal + Net + Clock + Print>(
    rt: &R,
) -> io::Result<()> {
    println!(rt; "-- variables that lead to no key")?;
    let port = bound(rt)?;
    let shown = refuse_beside(rt, &port);
    drop(port);
    shown?;
    leave_keys(rt)
}

/// Has both do what takes no key.
fn leave_keys<R: Processes + Files + Env + AllocGlobal + Print>(rt: &R) -> io::Result<()> {
    run_with(rt, CLIENT, &["drill", "1", "5"], &[(KEY, "")], b"")?;
    run_with(rt, SERVER, &["root", "missing"], &[(KEYS, "")], b"")
}

/// They are given the address of this program's port. Where the server tried to listen there it would say that it cannot.
fn refuse_beside<R: Processes + Files + Env + AllocGlobal + Net + Clock + Print>(
    rt: &R,
    port: &TcpPort<'_, R>,
) -> io::Result<()> {
    let address = address_of(rt.alloc(), port)?;
    let shown = refuse_each(rt, &address);
    drop(address);
    shown
}

/// The variables are empty, the folder is not there, it has no key, or what it has is none.
fn refuse_each<R: Processes + Files + Env + AllocGlobal + Print>(
    rt: &R,
    address: &str,
) -> io::Result<()> {
    forget(rt);
    refuse_both(rt, address, "", "")?;
    refuse_both(rt, address, FIRST_KEY.file, KEY_FOLDER)?;
    fs::create_dir(rt, KEY_FOLDER)?;
    refuse_server(rt, address, KEY_FOLDER)?;
    for (text, rights) in [(FIRST_KEY.text, SHARED), (NO_KEY, OWNERS_ALONE)] {
        write_with_rights(rt, FIRST_KEY.file, text, rights)?;
        refuse_both(rt, address, FIRST_KEY.file, KEY_FOLDER)?;
    }
    let touched = fs::exists(rt, LOCK)? || fs::exists(rt, SERVED_LOCK)?;
    println!(rt; "an image was touched: {touched}")
}

/// Runs a client with this key file, and a server with this folder.
fn refuse_both<R: Processes + Files + Env + AllocGlobal + Print>(
    rt: &R,
    address: &str,
    file: &str,
    folder: &str,
) -> io::Result<()> {
    let words = ["run", "1", IMAGE, address, "-", WORK];
    run_with(rt, CLIENT, &words, &[(KEY, file)], INPUT)?;
    refuse_server(rt, address, folder)
}

fn refuse_server<R: Processes + Files + Env + AllocGlobal + Print>(
    rt: &R,
    address: &str,
    folder: &str,
) -> io::Result<()> {
    let words = ["run", address, SERVED, "1"];
    run_with(rt, SERVER, &words, &[(KEYS, folder)], b"")
}

/// Runs a client with a key, whose server has none.
pub(crate) fn miss_a_seal<R: Processes + Files + Env + AllocGlobal + Net + Clock + Print>(
    rt: &R,
) -> io::Result<()> {
    forget(rt);
    println!(rt; "-- a client with a key, and a server without")?;
    keep_keys(rt)?;
    let address = free_address(rt)?;
    let shown = serve_a_sealed_client(rt, &address);
    drop(address);
    shown
}

/// The server takes nine connections: of a stranger, and the tries of the client.
fn serve_a_sealed_client<R: Processes + Files + Env + AllocGlobal + Net + Clock + Print>(
    rt: &R,
    address: &str,
) -> io::Result<()> {
    let server = start_with(rt, SERVER, &["run", address, SERVED, "9"], &[], b"")?;
    let shown = run_sealed(rt, address);
    print_ended_behind(rt, shown, SERVER, address, server)
}

fn run_sealed<R: Processes + Files + Env + AllocGlobal + Net + Clock + Print>(
    rt: &R,
    address: &str,
) -> io::Result<()> {
    call_once_it_listens(rt, address)?;
    let words = ["run", "1", IMAGE, address, "-", WORK];
    run_with(rt, CLIENT, &words, &[(KEY, FIRST_KEY.file)], INPUT)
}

/// Runs a server without keys that listens at all addresses of this machine.
pub(crate) fn serve_on_trust<R: Processes + Files + Env + AllocGlobal + Net + Clock + Print>(
    rt: &R,
) -> io::Result<()> {
    forget(rt);
    println!(rt; "-- a server without keys that is reached from elsewhere")?;
    let address = free_address(rt)?;
    let shown = serve_everywhere(rt, &address);
    drop(address);
    shown
}

fn serve_everywhere<R: Processes + Files + Env + AllocGlobal + Net + Clock + Print>(
    rt: &R,
    address: &str,
) -> io::Result<()> {
    let listen = everywhere(rt.alloc(), address)?;
    let shown = serve_at(rt, &listen, address);
    drop(listen);
    shown
}

fn serve_at<R: Processes + Files + Env + AllocGlobal + Net + Clock + Print>(
    rt: &R,
    listen: &str,
    address: &str,
) -> io::Result<()> {
    let server = start_with(rt, SERVER, &["run", listen, SERVED, "1"], &[], b"")?;
    let shown = call_once_it_listens(rt, address);
    print_ended_behind(rt, shown, SERVER, listen, server)
}
