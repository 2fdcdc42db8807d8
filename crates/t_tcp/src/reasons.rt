// Why a client is unanswered, which word is wrong, and that there is no image.
use crate::strangers::mislead_by;
use std::io;
use std::net::Net;
use std::process::Processes;
use std::rt::{Env, Files};
use std::time::Clock;
use t_tcp_probe::{CLIENT, SERVER, forget, run_client, run_on};

/// What a peer says that is another node than a server, as a surrogate does, and one that speaks another version.
const OTHER_NODE: &[u8] = b"\0\0\0\x10\x03\x1f\0\0\0\0\0\0\0\0\0\x07\0\0\0\0";

pub(crate) const OTHER_VERSION: &[u8] = b"\0\0\0\x10\x03\x1f\0\0\0\0\0\0\0\0\0\x02\0\0\0\0";

/// Servers of no such name, and of no form.
const NO_SERVERS: [&str; 4] = ["no..host:7001", "nowhere", ":7001", "127.0.0.1:99999"];

/// Words of a client, each time with another one that is wrong.
const CLIENT_WORDS: [&[&str]; 12] = [
    &[],
    &["walk", "1"],
    &["run", "0", "image", "a:1", "-", "work"],
    &["run", "1", "", "a:1", "-", "work"],
    &["run", "1", "image", "a:1", "b:1,,c:1", "work"],
    &["drill", "65536", "1"],
    &["drill", "1", "1001"],
    &["shelve", "1", "image", "1", "other", "a:1", "shelf"],
    &["shelve", "1", "image", "65", "other", "a:1", "shelf"],
    &["shelve", "1", "image", "2", "image.new", "a:1", "shelf"],
    &["check", "00", "a"],
    &["check", "00"],
];

/// The same of a server.
const SERVER_WORDS: [&[&str]; 5] = [
    &["walk"],
    &["run", "127.0.0.1:0", "served", "0"],
    &["run", "", "served", "1"],
    &["root", ""],
    &["prove", "served", "/q"],
];

/// Runs a client whose server gives no answer, for one reason after another.
pub(crate) fn show_reasons<R: Processes + Files + Env + AllocGlobal + Net + Clock + Print>(
    rt: &R,
) -> io::Result<()> {
    println!(rt; "-- why a client is unanswered")?;
    // the last try's reason is told, and a try that breaks would hold up the next one
    for reply in [b"".as_slice(), b"\0\0\0", OTHER_NODE, OTHER_VERSION] {
        forget(rt);
        let mut replies = [OTHER_VERSION; 8];
        replies[7] = reply;
        mislead_by(rt, &replies)?;
    }
    for server in NO_SERVERS {
        forget(rt);
        run_client(rt, server)?;
    }
    Ok(())
}

/// Runs both programs on words of which one is wrong.
pub(crate) fn refuse_each_word<R: Processes + Files + Env + AllocGlobal + Print>(
    rt: &R,
) -> io::Result<()> {
    forget(rt);
    println!(rt; "-- words that are wrong")?;
    for words in CLIENT_WORDS {
        run_on(rt, CLIENT, words, b"")?;
    }
    for words in SERVER_WORDS {
        run_on(rt, SERVER, words, b"")?;
    }
    Ok(())
}

/// Asks a server for what it keeps, where there is no image.
pub(crate) fn show_missing_images<R: Processes + Files + Env + AllocGlobal + Print>(
    rt: &R,
) -> io::Result<()> {
    println!(rt; "-- a server without an image")?;
    run_on(rt, SERVER, &["root", "missing"], b"")
}
