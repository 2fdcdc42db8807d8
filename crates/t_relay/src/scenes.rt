// Scenes of a server, a surrogate and a client, each a program of its own.
use crate::asking::{ask, start, start_client};
use crate::{FAR, INPUT, NEAR, SURROGATE};
use outside::Port;
use real_edge::TcpPort;
use std::io;
use std::net::Net;
use std::process::{Child, Processes};
use std::rt::{Env, Files};
use std::time::Clock;
use t_tcp_probe::{
    CLIENT, SERVED, SERVER, address_of, answer_of, bound, forget, free_address, print_ended,
    print_ended_at,
};

/// A client types to a server and a surrogate.
#[derive(Clone, Copy)]
pub(crate) struct Scene {
    name: &'static str,
    /// The folders in which the client and the surrogate run commands.
    near: &'static str,
    far: &'static str,
    input: &'static [u8],
    /// How many connections the server and the surrogate take.
    at_server: &'static str,
    at_surrogate: &'static str,
    /// Whether the surrogate's first answer to the client is lost.
    loses_an_answer: bool,
    /// Whether the client has another address before the surrogate's, at which nothing listens.
    is_second: bool,
}

/// What standard error is told: what commands print, why one was not run, and which way each entry went.
pub(crate) const LINES: Scene = Scene {
    name: "what standard error is told",
    near: NEAR,
    far: FAR,
    input: b"run env=PATH=/usr/bin:/bin -- /bin/sh -c 'echo told; printf %0300d 7 > a'\nsync\n\
        run -- /bin/nope\n\
        run env=PATH=/usr/bin:/bin -- /bin/sh -c 'echo told as an error >&2; ln -s a l'\n\
        run env=PATH=/usr/bin:/bin -- /bin/sh -c 'kill -9 $$'\n\
        run env=PATH=/usr/bin:/bin -- /bin/sh -c 'head -c 300 /dev/urandom > r'\nsync\nquit\n",
    at_server: "3",
    at_surrogate: "3",
    loses_an_answer: false,
    is_second: false,
};

/// A command makes a script and lets it be run, and the next one runs it by its own name, where its files went and at the surrogate.
pub(crate) const SCRIPT: Scene = Scene {
    name: "a script that is run by its own name",
    near: NEAR,
    far: FAR,
    input: b"run env=PATH=/usr/bin:/bin -- /bin/sh -c \
        'printf \"#!/bin/sh\\nprintf %%0300d 7 > a\\n\" > build.sh; chmod +x build.sh'\n\
        run env=PATH=/usr/bin:/bin -- /bin/sh -c ./build.sh\nsync\nquit\n",
    at_server: "4",
    at_surrogate: "2",
    loses_an_answer: false,
    is_second: false,
};

/// The surrogate has done what it was asked for, and is asked once more.
pub(crate) const LOSS: Scene = Scene {
    name: "an answer that is lost",
    near: NEAR,
    far: FAR,
    input: INPUT,
    at_server: "4",
    at_surrogate: "3",
    loses_an_answer: true,
    is_second: false,
};

/// The client has two surrogates, and the first one refuses the connection.
pub(crate) const LIST: Scene = Scene {
    name: "two surrogates, of which the first refuses",
    near: NEAR,
    far: FAR,
    input: INPUT,
    at_server: "2",
    at_surrogate: "2",
    loses_an_answer: false,
    is_second: true,
};

/// Shows a scene, which begins anew.
pub(crate) fn show_scene<R: Processes + Files + Env + AllocGlobal + Net + Clock + Print>(
    rt: &R,
    scene: &Scene,
) -> io::Result<()> {
    forget(rt);
    let name = scene.name;
    println!(rt; "-- {name}")?;
    let server = free_address(rt)?;
    let shown = show_server(rt, scene, &server);
    drop(server);
    shown
}

/// Starts the server, and prints how it ends.
fn show_server<R: Processes + Files + Env + AllocGlobal + Net + Clock + Print>(
    rt: &R,
    scene: &Scene,
    server: &str,
) -> io::Result<()> {
    let started = start_server(rt, server, scene.at_server)?;
    match show_beside(rt, scene, server) {
        Ok(()) => print_ended_at(rt, SERVER, server, started),
        Err(error) => {
            drop(started);
            Err(error)
        }
    }
}

/// Starts a server that takes so many connections.
fn start_server<R: Processes + Files + Env + AllocGlobal>(
    rt: &R,
    server: &str,
    count: &str,
) -> io::Result<Child<R::Started>> {
    start(rt, SERVER, &["run", server, SERVED, count])
}

/// Starts a surrogate that takes so many connections.
fn start_surrogate<R: Processes + Files + Env + AllocGlobal>(
    rt: &R,
    surrogate: &str,
    server: &str,
    far: &str,
    count: &str,
) -> io::Result<Child<R::Started>> {
    start(rt, SURROGATE, &["run", surrogate, server, far, count])
}

/// Waits for the server, and goes on with a surrogate.
fn show_beside<R: Processes + Files + Env + AllocGlobal + Net + Clock + Print>(
    rt: &R,
    scene: &Scene,
    server: &str,
) -> io::Result<()> {
    ask(rt, "no frame", server, b"")?;
    let surrogate = free_address(rt)?;
    let shown = show_surrogate(rt, scene, server, &surrogate);
    drop(surrogate);
    shown
}

/// Starts the surrogate, and prints how it ends.
fn show_surrogate<R: Processes + Files + Env + AllocGlobal + Net + Clock + Print>(
    rt: &R,
    scene: &Scene,
    server: &str,
    surrogate: &str,
) -> io::Result<()> {
    let started = start_surrogate(rt, surrogate, server, scene.far, scene.at_surrogate)?;
    match show_client(rt, scene, server, surrogate) {
        Ok(()) => print_ended_at(rt, SURROGATE, surrogate, started),
        Err(error) => {
            drop(started);
            Err(error)
        }
    }
}

/// Waits for the surrogate, and goes on with the client, which asks it or who stands before it.
fn show_client<R: Processes + Files + Env + AllocGlobal + Net + Clock + Print>(
    rt: &R,
    scene: &Scene,
    server: &str,
    surrogate: &str,
) -> io::Result<()> {
    ask(rt, "no frame", surrogate, b"")?;
    if scene.loses_an_answer {
        return show_loss(rt, scene, server, surrogate);
    }
    let client = type_input(rt, scene, server, surrogate)?;
    print_ended(rt, CLIENT, client)
}

/// Starts the client, and types its input.
fn type_input<R: Processes + Files + Env + AllocGlobal + Net + Clock>(
    rt: &R,
    scene: &Scene,
    server: &str,
    surrogate: &str,
) -> io::Result<Child<R::Started>> {
    if !scene.is_second {
        return start_client(rt, server, surrogate, scene.near, scene.input);
    }
    let first = free_address(rt)?;
    let list = format!(in rt.alloc(); "{first},{surrogate}");
    drop(first);
    let list = list?;
    let started = start_client(rt, server, &list, scene.near, scene.input);
    drop(list);
    started
}

/// The client asks this program, which carries frames to the surrogate, and answers back but for the first.
fn show_loss<R: Processes + Files + Env + AllocGlobal + Net + Clock + Print>(
    rt: &R,
    scene: &Scene,
    server: &str,
    surrogate: &str,
) -> io::Result<()> {
    let mut port = bound(rt)?;
    match start_before(rt, scene, server, &port) {
        Ok(client) => {
            let carried = carry_twice(rt, &mut port, surrogate);
            drop(port);
            let printed = print_ended(rt, CLIENT, client);
            carried.and(printed)
        }
        Err(error) => {
            drop(port);
            Err(error)
        }
    }
}

/// Starts the client, whose surrogate is at the port.
fn start_before<R: Processes + Files + Env + AllocGlobal + Net + Clock>(
    rt: &R,
    scene: &Scene,
    server: &str,
    port: &TcpPort<'_, R>,
) -> io::Result<Child<R::Started>> {
    let address = address_of(rt.alloc(), port)?;
    let started = type_input(rt, scene, server, &address);
    drop(address);
    started
}

/// Carries two frames to the surrogate. The first answer is lost.
fn carry_twice<R: AllocGlobal + Net + Clock>(
    rt: &R,
    port: &mut TcpPort<'_, R>,
    surrogate: &str,
) -> io::Result<()> {
    for is_lost in [true, false] {
        if let Ok(Some(frame)) = port.take() {
            let answer = answer_of(rt, surrogate, &frame)?;
            if !is_lost {
                let _answered = port.answer(&answer);
            }
        }
    }
    Ok(())
}
