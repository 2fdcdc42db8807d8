// A server in this program.
use outside::Keeper;
use real_edge::{StdSink, TcpPort};
use server_prog::server_run;
use std::alloc::{AllocError, Global};
use std::io;
use std::net::Net;
use std::process::{Child, OpenProcess, Processes};
use std::rt::{Env, Files};
use std::time::Clock;
use t_tcp_probe::{CLIENT, SERVED, bound, print_ended, start_client_at};

/// Runs a server that takes so many connections of the port.
pub(crate) fn serve<R: AllocGlobal + Net + Clock + Print, K: Keeper>(
    rt: &R,
    count: &str,
    port: &mut TcpPort<'_, R>,
    keeper: &mut K,
) -> io::Result<()> {
    let words = server_words(rt.alloc(), count)?;
    let mut output = StdSink::new(io::writer(rt));
    let status = server_run(rt.alloc(), &words, port, keeper, &mut output);
    drop(output);
    drop(words);
    println!(rt; "server: status {status}")
}

fn server_words(alloc: Global, count: &str) -> Result<Vec<String>, AllocError> {
    let mut words = Vec::new(alloc);
    for word in ["run", "listen", SERVED, count] {
        words.push(String::from_str(alloc, word)?)?;
    }
    Ok(words)
}

/// Serves one connection of a client, from what the keeper has, and prints how both end.
pub(crate) fn serve_a_client_from<
    R: Processes + Files + Env + AllocGlobal + Net + Clock + Print,
    K: Keeper,
>(rt: &R, keeper: &mut K) -> io::Result<()> {
    let mut port = bound(rt)?;
    match start_client_at(rt, &port) {
        Ok(client) => {
            let served = serve(rt, "1", &mut port, keeper);
            drop(port);
            print_client(rt, served, client)
        }
        Err(error) => {
            drop(port);
            Err(error)
        }
    }
}

/// Prints how a client ended that was served.
fn print_client<R: AllocGlobal + Print, P: OpenProcess + Drop>(
    rt: &R,
    served: io::Result<()>,
    client: Child<P>,
) -> io::Result<()> {
    match served {
        Ok(()) => print_ended(rt, CLIENT, client),
        Err(error) => {
            drop(client);
            Err(error)
        }
    }
}
