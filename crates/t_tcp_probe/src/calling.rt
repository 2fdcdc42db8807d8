// Calls on a server, and its answers.
use std::io::{ErrorKind, Read, Write};
use std::net::{Net, OpenStream, Shutdown, TcpStream};
use std::time::{Clock, Duration};
use std::{io, thread};
use wire_frames::{FrameError, Message, read};

/// How many seconds a slow peer waits in the middle of its frame's length.
const PAUSE_SECONDS: u64 = 3;

/// How often a peer is called until it listens.
const CALLS: usize = 400;

/// How many milliseconds are waited in between.
const BETWEEN_MILLIS: u64 = 50;

/// Connects, sends the bytes, and ends its writing.
///
/// # Errors
///
/// The platform's.
pub fn call_on<R: Net>(rt: &R, address: &str, bytes: &[u8]) -> io::Result<R::Stream> {
    let mut stream = TcpStream::connect(rt, address)?;
    match send_all(&mut stream, bytes) {
        Ok(()) => Ok(stream),
        Err(error) => {
            drop(stream);
            Err(error)
        }
    }
}

/// Sends the bytes, and ends the writing.
fn send_all<S: Write + OpenStream>(stream: &mut S, bytes: &[u8]) -> io::Result<()> {
    stream.write_all(bytes)?;
    stream.shutdown(Shutdown::Write)
}

/// Connects, and sends the bytes in two parts, of which the second comes late.
///
/// # Errors
///
/// The platform's.
pub fn call_slowly<R: Net + Clock>(rt: &R, address: &str, bytes: &[u8]) -> io::Result<R::Stream> {
    let mut stream = TcpStream::connect(rt, address)?;
    match send_slowly(rt, &mut stream, bytes) {
        Ok(()) => Ok(stream),
        Err(error) => {
            drop(stream);
            Err(error)
        }
    }
}

fn send_slowly<R: Clock, S: Write + OpenStream>(
    rt: &R,
    stream: &mut S,
    bytes: &[u8],
) -> io::Result<()> {
    let (first, second) = bytes.split_at(bytes.len().min(2));
    stream.write_all(first)?;
    thread::sleep(rt, Duration::from_secs(PAUSE_SECONDS));
    send_all(stream, second)
}

/// What comes back to these bytes, up to the end.
///
/// # Errors
///
/// The platform's.
pub fn answer_of<R: AllocGlobal + Net>(rt: &R, address: &str, bytes: &[u8]) -> io::Result<Vec<u8>> {
    let stream = call_on(rt, address, bytes)?;
    answer_in(rt, stream)
}

/// The same, once the peer listens.
///
/// # Errors
///
/// `TimedOut` where it does not begin to, and the platform's.
pub fn first_answer_of<R: AllocGlobal + Net + Clock>(
    rt: &R,
    address: &str,
    bytes: &[u8],
) -> io::Result<Vec<u8>> {
    for _ in 0..CALLS {
        match call_on(rt, address, bytes) {
            Ok(stream) => return answer_in(rt, stream),
            Err(_) => thread::sleep(rt, Duration::from_millis(BETWEEN_MILLIS)),
        }
    }
    Err(io::Error::from(ErrorKind::TimedOut))
}

/// What comes up to the end of the stream.
fn answer_in<R: AllocGlobal, S: Read + Drop>(rt: &R, mut stream: S) -> io::Result<Vec<u8>> {
    let mut answer = Vec::new(rt.alloc());
    let taken = stream.read_to_end(&mut answer);
    drop(stream);
    match taken {
        Ok(_count) => Ok(answer),
        Err(error) => {
            drop(answer);
            Err(error)
        }
    }
}

/// Calls once the peer listens, and prints what it answers.
///
/// # Errors
///
/// As `first_answer_of`.
pub fn print_first_answer<R: AllocGlobal + Net + Clock + Print>(
    rt: &R,
    name: &str,
    address: &str,
    bytes: &[u8],
) -> io::Result<()> {
    let answer = first_answer_of(rt, address, bytes)?;
    let printed = print_frame(rt, name, &answer);
    drop(answer);
    printed
}

/// Prints what the peer was answered.
///
/// # Errors
///
/// The platform's.
pub fn print_answer<R: AllocGlobal + Print, S: Read + Drop>(
    rt: &R,
    name: &str,
    stream: S,
) -> io::Result<()> {
    let answer = answer_in(rt, stream)?;
    let printed = print_frame(rt, name, &answer);
    drop(answer);
    printed
}

fn print_frame<R: AllocGlobal + Print>(rt: &R, name: &str, frame: &[u8]) -> io::Result<()> {
    let message = read(rt.alloc(), frame);
    let printed = print_message(rt, name, &message);
    drop(message);
    printed
}

fn print_message<R: Print>(
    rt: &R,
    name: &str,
    message: &Result<Message, FrameError>,
) -> io::Result<()> {
    match message {
        Ok(Message::Malformed { code, offset }) => println!(rt;
            "{name}: malformed {code} {offset}"
        ),
        Ok(_) => println!(rt; "{name}: a message"),
        Err(refused) => println!(rt; "{name}: {refused}"),
    }
}
