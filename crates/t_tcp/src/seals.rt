// A server with keys: a client that seals what it asks, one who hears it, and strangers, who change nothing.
use crate::reasons::OTHER_VERSION;
use crate::shelving::FOLDER;
use crate::strangers::answer_by;
use real_edge::TcpPort;
use sealed_frames::Way;
use std::io;
use std::net::Net;
use std::process::{Child, Processes};
use std::rt::{Env, Files};
use std::time::Clock;
use t_tcp_probe::{
    CLIENT, FIRST_KEY, Heard, IMAGE, KEY, KEY_FOLDER, KEYS, NEW, OTHER, SECOND_KEY, SERVED, SERVER,
    SealedAsk, THIRD_KEY, WORK, address_of, ask_plainly, ask_sealed, bound, forget, free_address,
    keep_keys, print_ended, print_ended_behind, run_on, run_with, start_with,
};

/// A store of client 2 that makes a file, and the same of client 4, who has no key.
const STORE: &[u8] =
    b"\0\0\0\x2d\x03\x01\x02\0\0\0\0\0\0\0\x01\x01\0\0\0\x01\x02\0\x01b\0\0\0\x06other\n\0\0\0\x01\0\x01b\0\0\0\0\0\0\0\0";

const KEYLESS_STORE: &[u8] =
    b"\0\0\0\x2d\x03\x01\x04\0\0\0\0\0\0\0\x01\x01\0\0\0\x01\x02\0\x01b\0\0\0\x06other\n\0\0\0\x01\0\x01b\0\0\0\0\0\0\0\0";

/// A frame of client 1, of a kind that is not known.
const NO_KIND: &[u8] = b"\0\0\0\x0b\x03\x05\x01\0\0\0\0\0\0\0\x01";

/// Strangers who send a store, each by a key or a way that is not its own.
const STRANGERS: [(&str, SealedAsk<'static>); 4] = [
    (
        "another client's key",
        SealedAsk {
            frame: STORE,
            by: FIRST_KEY,
            way: Way::ToServer,
        },
    ),
    (
        "the way to a surrogate",
        SealedAsk {
            frame: STORE,
            by: SECOND_KEY,
            way: Way::ToSurrogate,
        },
    ),
    (
        "the way back",
        SealedAsk {
            frame: STORE,
            by: SECOND_KEY,
            way: Way::Back([0; 32]),
        },
    ),
    (
        "a client without a key",
        SealedAsk {
            frame: KEYLESS_STORE,
            by: SECOND_KEY,
            way: Way::ToServer,
        },
    ),
];

/// What clients 1 and 2 ask by right.
const UNKNOWN: SealedAsk<'static> = SealedAsk {
    frame: NO_KIND,
    by: FIRST_KEY,
    way: Way::ToServer,
};

const RIGHTLY: SealedAsk<'static> = SealedAsk {
    frame: STORE,
    by: SECOND_KEY,
    way: Way::ToServer,
};

/// What the server is asked: by nobody, by the client that is heard, by five strangers, by one of no kind, by who repeats the store, by
/// two clients as the last of their asks, by client 2, and by clients 1 and 3.
const COUNT: &str = "14";

/// What is typed to the client that is heard and to who takes its number, to it while it is misled, and to it behind that.
const PUT_A: &[u8] = b"put a hello\nsync\n";

const PUT_C: &[u8] = b"put c world\nsync\n";

const PUT_D: &[u8] = b"sync\nput d more\n";

/// How many tries a client has before the last one.
const TRIES_BEFORE: usize = 7;

/// Runs a server with keys, clients and strangers.
pub(crate) fn show_seals<R: Processes + Files + Env + AllocGlobal + Net + Clock + Print>(
    rt: &R,
) -> io::Result<()> {
    forget(rt);
    println!(rt; "-- a server with keys, its client, and strangers")?;
    keep_keys(rt)?;
    let address = free_address(rt)?;
    let shown = show_server(rt, &address);
    drop(address);
    shown
}

fn show_server<R: Processes + Files + Env + AllocGlobal + Net + Clock + Print>(
    rt: &R,
    address: &str,
) -> io::Result<()> {
    let words = ["run", address, SERVED, COUNT];
    let variables = [(KEYS, KEY_FOLDER), ("HAURPIKO_LOG", "1")];
    let server = start_with(rt, SERVER, &words, &variables, b"")?;
    let shown = show_session(rt, address);
    print_ended_behind(rt, shown, SERVER, address, server)
}

/// A client is heard. What strangers do then leaves the server as it was, and who has a key goes on. Who goes on for another client has
/// a key of its own.
fn show_session<R: Processes + Files + Env + AllocGlobal + Net + Clock + Print>(
    rt: &R,
    address: &str,
) -> io::Result<()> {
    ask_plainly(rt, "nothing", address, b"")?;
    let heard = hear_client(rt, address)?;
    let shown = show_strangers(rt, address, &heard);
    drop(heard);
    shown?;
    ask_sealed(rt, "its client", address, &RIGHTLY)?;
    let words = ["run", "1", IMAGE, address, "-", WORK];
    run_with(rt, CLIENT, &words, &[(KEY, FIRST_KEY.file)], PUT_D)?;
    let words = ["shelve", "1", IMAGE, "3", NEW, address, FOLDER];
    run_with(rt, CLIENT, &words, &[(KEY, THIRD_KEY.file)], b"")
}

/// The server has the same root before the strangers and after them.
fn show_strangers<R: Processes + Files + Env + AllocGlobal + Net + Clock + Print>(
    rt: &R,
    address: &str,
    heard: &Heard,
) -> io::Result<()> {
    run_on(rt, SERVER, &["root", SERVED], b"")?;
    ask_plainly(rt, "a plain frame", address, STORE)?;
    for (name, ask) in &STRANGERS {
        ask_sealed(rt, name, address, ask)?;
    }
    ask_sealed(rt, "a frame of no known kind", address, &UNKNOWN)?;
    heard.repeat(rt, "a repeated store", address)?;
    for variables in [&[(KEY, SECOND_KEY.file)] as &[(&str, &str)], &[]] {
        run_apart(rt, address, variables)?;
    }
    mislead_by(rt, heard)?;
    run_on(rt, SERVER, &["root", SERVED], b"")
}

/// Runs client 1 with its key, whose ask this program carries to the server.
fn hear_client<R: Processes + Files + Env + AllocGlobal + Net + Clock + Print>(
    rt: &R,
    address: &str,
) -> io::Result<Heard> {
    let port = bound(rt)?;
    match start_at(rt, &port, IMAGE, &[(KEY, FIRST_KEY.file)], PUT_A) {
        Ok(client) => Heard::of_client(rt, port, client, address),
        Err(error) => {
            drop(port);
            Err(error)
        }
    }
}

/// Runs who takes the number of client 1 and has another key or none. This program answers its asks, and has the server answer the last
/// one: a try that breaks would hold up the next one.
fn run_apart<R: Processes + Files + Env + AllocGlobal + Net + Clock + Print>(
    rt: &R,
    address: &str,
    variables: &[(&str, &str)],
) -> io::Result<()> {
    let mut port = bound(rt)?;
    match start_at(rt, &port, OTHER, variables, PUT_A) {
        Ok(client) => {
            answer_by(&mut port, &[OTHER_VERSION; TRIES_BEFORE]);
            let carried = Heard::carry(rt, &mut port, address).map(drop);
            drop(port);
            let printed = print_ended(rt, CLIENT, client);
            carried.and(printed)
        }
        Err(error) => {
            drop(port);
            Err(error)
        }
    }
}

/// Answers each ask of client 1 by what its first one was answered.
fn mislead_by<R: Processes + Files + Env + AllocGlobal + Net + Clock + Print>(
    rt: &R,
    heard: &Heard,
) -> io::Result<()> {
    let mut port = bound(rt)?;
    match start_at(rt, &port, IMAGE, &[(KEY, FIRST_KEY.file)], PUT_C) {
        Ok(client) => {
            answer_by(&mut port, &[heard.answer.as_slice(); 8]);
            drop(port);
            print_ended(rt, CLIENT, client)
        }
        Err(error) => {
            drop(port);
            Err(error)
        }
    }
}

/// Starts client 1, whose server is at the port.
fn start_at<R: Processes + Files + Env + AllocGlobal + Net + Clock>(
    rt: &R,
    port: &TcpPort<'_, R>,
    image: &str,
    variables: &[(&str, &str)],
    input: &[u8],
) -> io::Result<Child<R::Started>> {
    let address = address_of(rt.alloc(), port)?;
    let words = ["run", "1", image, &address, "-", WORK];
    let started = start_with(rt, CLIENT, &words, variables, input);
    drop(address);
    started
}
