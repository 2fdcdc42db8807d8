//! A client whose surrogate, in this very process, asks a server in memory: a command that the client has run is run again by the
//! surrogate, and what passes between surrogate and server is shown.

use crate::{FAR, INPUT, NEAR, SURROGATE};
use child_runner::ChildRunner;
use real_edge::{StdSink, TcpPort};
use server_core::Server;
use std::alloc::Global;
use std::fs::File;
use std::io::{self, Write};
use std::net::Net;
use std::process::{Child, Processes};
use std::rt::{Env, Files};
use std::time::{Clock, Duration};
use surrogate_prog::surrogate_run;
use t_run_probe::{Network, account_of_network, network};
use t_tcp_probe::{
    CLIENT, IMAGE, address_of, bound, command_of, free_address, print_ended, spawned,
};

/// How many seconds the surrogate's command may run.
const COMMAND_SECONDS: u64 = 60;

/// A client is started whose surrogate serves it here.
pub(crate) fn show_port<
    R: Processes + Files<File = File> + Env + AllocGlobal + Net + Clock + Print + Eprint,
>(rt: &R) -> io::Result<()> {
    let mut port = bound(rt)?;
    let shown = show_network(rt, &mut port);
    drop(port);
    shown
}

/// The server is new and in memory, and the surrogate asks it there.
fn show_network<
    R: Processes + Files<File = File> + Env + AllocGlobal + Net + Clock + Print + Eprint,
>(rt: &R, port: &mut TcpPort<'_, R>) -> io::Result<()> {
    let alloc = rt.alloc();
    let mut net = network(alloc, Server::new(alloc), Vec::new(alloc), Vec::new(alloc))?;
    let shown = show_client(rt, port, &mut net);
    drop(net);
    shown
}

/// Prints what the surrogate and the client tell, and then what the server had and has.
fn show_client<
    R: Processes + Files<File = File> + Env + AllocGlobal + Net + Clock + Print + Eprint,
>(rt: &R, port: &mut TcpPort<'_, R>, net: &mut Network) -> io::Result<()> {
    let client = start_client(rt, port)?;
    match serve_one(rt, port, net) {
        Ok(()) => print_ended(rt, CLIENT, client)?,
        Err(error) => {
            drop(client);
            return Err(error);
        }
    }
    print_account(rt, net)
}

/// Starts a client whose surrogate is at this port, and whose server does not listen.
fn start_client<R: Processes + Files + Env + AllocGlobal + Net + Clock>(
    rt: &R,
    port: &TcpPort<'_, R>,
) -> io::Result<Child<R::Started>> {
    let surrogate = address_of(rt.alloc(), port)?;
    let started = start_client_of(rt, &surrogate);
    drop(surrogate);
    started
}

fn start_client_of<R: Processes + Files + Env + AllocGlobal + Net + Clock>(
    rt: &R,
    surrogate: &str,
) -> io::Result<Child<R::Started>> {
    let server = free_address(rt)?;
    let command = command_of(rt, CLIENT, &["run", "1", IMAGE, &server, surrogate, NEAR]);
    drop(server);
    let mut client = spawned(rt, command?)?;
    if let Some(mut stdin) = client.stdin.take() {
        let _written = stdin.write_all(INPUT);
    }
    Ok(client)
}

/// The surrogate serves one connection at the port, runs its command for real, and asks the server over the network.
fn serve_one<R: Processes + Files<File = File> + AllocGlobal + Net + Clock + Print + Eprint>(
    rt: &R,
    port: &mut TcpPort<'_, R>,
    net: &mut Network,
) -> io::Result<()> {
    let words = surrogate_words(rt.alloc())?;
    let mut runner = ChildRunner::at_surrogate(rt, SURROGATE, Duration::from_secs(COMMAND_SECONDS));
    let mut output = StdSink::new(io::writer(rt));
    let status = surrogate_run(rt.alloc(), &words, port, net, &mut runner, &mut output);
    drop(words);
    println!(rt; "surrogate: {status}")
}

/// The words of a surrogate that serves one connection. Its port is bound before, and its link heeds no address.
fn surrogate_words(alloc: Global) -> io::Result<Vec<String>> {
    let mut words = Vec::new(alloc);
    for word in ["run", "here", "srv", FAR, "1"] {
        words.push(String::from_str(alloc, word)?)?;
    }
    Ok(words)
}

/// Prints each packet between surrogate and server, and each row of the server.
fn print_account<R: AllocGlobal + Print>(rt: &R, net: &Network) -> io::Result<()> {
    let account = account_of_network(rt.alloc(), net)?;
    let printed = io::writer(rt).write_all(&account);
    drop(account);
    printed?;
    println!(rt; "")
}
