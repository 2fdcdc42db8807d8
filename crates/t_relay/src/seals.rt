// A server and a surrogate with keys: a session that is sealed, one who hears it and repeats it, and strangers, who change nothing.
use crate::frames::PULL;
use crate::{FAR, NEAR, SURROGATE};
use real_edge::TcpPort;
use sealed_frames::{SEAL_BYTES, Way};
use std::net::Net;
use std::process::{Child, Processes};
use std::rt::{Env, Files};
use std::time::Clock;
use std::{fs, io};
use t_tcp_probe::{
    CLIENT, ClientKey, FIRST_KEY, Heard, IMAGE, KEY, KEY_FOLDER, KEYS, SECOND_KEY, SERVED, SERVER,
    SealedAsk, address_of, answer_of, ask_plainly, ask_sealed, bound, forget, free_address,
    keep_keys, print_ended_behind, start_with,
};

/// What the client is to do. Its command writes how often it ran beside the folders in which programs run.
const INPUT: &[u8] = b"put b hello\n\
    run in=b -- /bin/sh -c 'printf . >> ../../ran; printf %0300d 7 > a'\nsync\nquit\n";

/// The file in which it does.
const RAN: &str = "ran";

/// Has requests told.
const LOGGED: (&str, &str) = ("HAURPIKO_LOG", "1");

/// Client 1 asks the server for all rows.
const ROWS: SealedAsk<'static> = SealedAsk {
    frame: &PULL,
    by: FIRST_KEY,
    way: Way::ToServer,
};

/// A frame of client 1 to a surrogate, of a kind that is not known.
const UNKNOWN: SealedAsk<'static> = SealedAsk {
    frame: b"\0\0\0\x0b\x03\x05\x01\0\0\0\0\0\0\0\x01",
    by: FIRST_KEY,
    way: Way::ToSurrogate,
};

/// Strangers who send an operation that they heard: by which key, and which way.
const STRANGERS: [(&str, ClientKey, Way); 2] = [
    ("another client's key", SECOND_KEY, Way::ToSurrogate),
    ("the way to the server", FIRST_KEY, Way::ToServer),
];

/// What the server is asked: by nobody, by the client's store, by the surrogate twice for an operation, and two times for all rows.
const AT_SERVER: &str = "6";

/// What the surrogate is asked: by nobody, an operation, the same again, by three strangers, and what is of no known kind.
const AT_SURROGATE: &str = "7";

/// A client with a key is served, and heard.
pub(crate) fn show_seals<R: Processes + Files + Env + AllocGlobal + Net + Clock + Print>(
    rt: &R,
) -> io::Result<()> {
    forget(rt);
    println!(rt; "-- a server and a surrogate with keys, their client, and strangers")?;
    keep_keys(rt)?;
    let server = free_address(rt)?;
    let shown = show_server(rt, &server);
    drop(server);
    let _removed = fs::remove_file(rt, RAN);
    shown
}

fn show_server<R: Processes + Files + Env + AllocGlobal + Net + Clock + Print>(
    rt: &R,
    server: &str,
) -> io::Result<()> {
    let words = ["run", server, SERVED, AT_SERVER];
    let started = start_with(rt, SERVER, &words, &[(KEYS, KEY_FOLDER), LOGGED], b"")?;
    let shown = show_surrogate_of(rt, server);
    print_ended_behind(rt, shown, SERVER, server, started)
}

fn show_surrogate_of<R: Processes + Files + Env + AllocGlobal + Net + Clock + Print>(
    rt: &R,
    server: &str,
) -> io::Result<()> {
    ask_plainly(rt, "nothing", server, b"")?;
    let surrogate = free_address(rt)?;
    let shown = show_surrogate(rt, server, &surrogate);
    drop(surrogate);
    shown
}

fn show_surrogate<R: Processes + Files + Env + AllocGlobal + Net + Clock + Print>(
    rt: &R,
    server: &str,
    surrogate: &str,
) -> io::Result<()> {
    let words = ["run", surrogate, server, FAR, AT_SURROGATE];
    let started = start_with(rt, SURROGATE, &words, &[(KEYS, KEY_FOLDER), LOGGED], b"")?;
    let shown = show_session(rt, server, surrogate);
    print_ended_behind(rt, shown, SURROGATE, surrogate, started)
}

fn show_session<R: Processes + Files + Env + AllocGlobal + Net + Clock + Print>(
    rt: &R,
    server: &str,
    surrogate: &str,
) -> io::Result<()> {
    ask_plainly(rt, "nothing", surrogate, b"")?;
    let heard = hear_client(rt, server, surrogate)?;
    let shown = show_rows(rt, server, surrogate, &heard);
    drop(heard);
    shown
}

/// The server has the same rows before the repeat and the strangers, and after them.
fn show_rows<R: Processes + Files + Env + AllocGlobal + Net + Clock + Print>(
    rt: &R,
    server: &str,
    surrogate: &str,
    heard: &Heard,
) -> io::Result<()> {
    print_runs(rt)?;
    let rows = rows_at(rt, server)?;
    ROWS.print_answer(rt, "rows", &rows)?;
    let shown = show_asks(rt, surrogate, heard);
    let after = rows_at(rt, server);
    let is_same = matches!(&after, Ok(after) if after.as_slice() == rows.as_slice());
    drop(after);
    drop(rows);
    shown?;
    println!(rt; "the same rows after: {is_same}")
}

/// The operation is sent once more as it was sealed, and by strangers. Only the first is run again, and it is declined then.
fn show_asks<R: Processes + Files + Env + AllocGlobal + Net + Clock + Print>(
    rt: &R,
    surrogate: &str,
    heard: &Heard,
) -> io::Result<()> {
    let frame = heard.ask.get(SEAL_BYTES..).unwrap_or(&[]);
    repeat(rt, surrogate, &heard.ask, frame)?;
    print_runs(rt)?;
    ask_plainly(rt, "a plain frame", surrogate, frame)?;
    for (name, by, way) in STRANGERS {
        ask_sealed(rt, name, surrogate, &SealedAsk { frame, by, way })?;
    }
    print_runs(rt)?;
    ask_sealed(rt, "a frame of no known kind", surrogate, &UNKNOWN)
}

/// Sends the client's operation once more, and prints the answer.
fn repeat<R: AllocGlobal + Net + Print>(
    rt: &R,
    surrogate: &str,
    heard: &[u8],
    frame: &[u8],
) -> io::Result<()> {
    let operation = SealedAsk {
        frame,
        by: FIRST_KEY,
        way: Way::ToSurrogate,
    };
    let answer = answer_of(rt, surrogate, heard)?;
    let printed = operation.print_answer(rt, "a repeated operation", &answer);
    drop(answer);
    printed
}

/// What comes back to who asks for all rows.
fn rows_at<R: AllocGlobal + Net>(rt: &R, server: &str) -> io::Result<Vec<u8>> {
    let bytes = ROWS.bytes(rt.alloc())?;
    let answer = answer_of(rt, server, &bytes);
    drop(bytes);
    answer
}

/// Prints how often the client's command ran, here and there.
fn print_runs<R: Files + Print>(rt: &R) -> io::Result<()> {
    let count = fs::metadata(rt, RAN)?.len();
    println!(rt; "its command ran {count} times")
}

/// Runs the client with its key, whose ask of the surrogate this program carries.
fn hear_client<R: Processes + Files + Env + AllocGlobal + Net + Clock + Print>(
    rt: &R,
    server: &str,
    surrogate: &str,
) -> io::Result<Heard> {
    let port = bound(rt)?;
    match start_at(rt, &port, server) {
        Ok(client) => Heard::of_client(rt, port, client, surrogate),
        Err(error) => {
            drop(port);
            Err(error)
        }
    }
}

/// Starts the client, whose surrogate is at the port.
fn start_at<R: Processes + Files + Env + AllocGlobal + Net + Clock>(
    rt: &R,
    port: &TcpPort<'_, R>,
    server: &str,
) -> io::Result<Child<R::Started>> {
    let surrogate = address_of(rt.alloc(), port)?;
    let words = ["run", "1", IMAGE, server, &surrogate, NEAR];
    let started = start_with(rt, CLIENT, &words, &[(KEY, FIRST_KEY.file)], INPUT);
    drop(surrogate);
    started
}
