// How a program ends that was started.
use std::io::{self, Write};
use std::process::{Child, OpenProcess, Output};

/// How a line ends that tells how long something took.
const MILLIS: &str = " ms";

/// How the address of a peer of these programs begins.
const LOOPBACK: &str = "127.0.0.1:";

/// How many letters a time has.
const TIME: usize = 20;

/// Waits for the end of a program, and prints what it wrote and its status.
///
/// # Errors
///
/// The platform's.
pub fn print_ended<R: AllocGlobal + Print, P: OpenProcess + Drop>(
    rt: &R,
    program: &str,
    child: Child<P>,
) -> io::Result<()> {
    print_ended_at(rt, program, "", child)
}

/// The same of a program that listens at this address, for which `ADDRESS` is printed where standard error names it.
///
/// # Errors
///
/// The platform's.
pub fn print_ended_at<R: AllocGlobal + Print, P: OpenProcess + Drop>(
    rt: &R,
    program: &str,
    address: &str,
    child: Child<P>,
) -> io::Result<()> {
    let end = child.wait_with_output(rt.alloc())?;
    let printed = print_end(rt, program, address, &end);
    drop(end);
    printed
}

/// The same behind what was shown beside the program. Where that failed, nobody waits for its end.
///
/// # Errors
///
/// That of what was shown, and the platform's.
pub fn print_ended_behind<R: AllocGlobal + Print, P: OpenProcess + Drop>(
    rt: &R,
    shown: io::Result<()>,
    program: &str,
    address: &str,
    child: Child<P>,
) -> io::Result<()> {
    match shown {
        Ok(()) => print_ended_at(rt, program, address, child),
        Err(error) => {
            drop(child);
            Err(error)
        }
    }
}

fn print_end<R: Print>(rt: &R, program: &str, address: &str, end: &Output) -> io::Result<()> {
    io::writer(rt).write_all(&end.stdout)?;
    print_told(rt, address, &end.stderr)?;
    let status = end.status;
    println!(rt; "{program}: {status}")
}

/// Prints what standard error was told, where that is text.
fn print_told<R: Print>(rt: &R, address: &str, told: &[u8]) -> io::Result<()> {
    match str::from_utf8(told) {
        Ok(text) => print_lines(rt, address, text),
        Err(_) => println!(rt; "no text"),
    }
}

fn print_lines<R: Print>(rt: &R, address: &str, text: &str) -> io::Result<()> {
    for line in text.lines() {
        print_line(rt, address, line)?;
    }
    Ok(())
}

/// Prints a line. What it has of the address, of peers or of times is not known before.
fn print_line<R: Print>(rt: &R, address: &str, line: &str) -> io::Result<()> {
    match logged(line) {
        Some((program, what)) => {
            print!(rt; "{program}: TIME PEER: ")?;
            print_untimed(rt, what)
        }
        None => print_addressed(rt, address, line),
    }
}

/// The program and what it tells of a request, where the line has a time and a peer in between.
fn logged(line: &str) -> Option<(&str, &str)> {
    let (program, told) = line.split_once(": ")?;
    let (time, told) = told.split_once(' ')?;
    let (peer, what) = told.split_once(": ")?;
    if time.len() == TIME && time.ends_with('Z') && peer.starts_with(LOOPBACK) {
        Some((program, what))
    } else {
        None
    }
}

/// Prints what ends in a time that something took.
fn print_untimed<R: Print>(rt: &R, what: &str) -> io::Result<()> {
    if let Some(untimed) = what.strip_suffix(MILLIS)
        && let Some((before, _millis)) = untimed.rsplit_once(' ')
    {
        return println!(rt; "{before} T{MILLIS}");
    }
    println!(rt; "{what}")
}

/// Prints a line, and `ADDRESS` in the place of the address; of any peer's, where that is empty.
fn print_addressed<R: Print>(rt: &R, address: &str, line: &str) -> io::Result<()> {
    if !address.is_empty() {
        return match line.split_once(address) {
            Some((before, behind)) => println!(rt; "{before}ADDRESS{behind}"),
            None => println!(rt; "{line}"),
        };
    }
    match line.split_once(LOOPBACK) {
        Some((before, behind)) => {
            let behind = behind.trim_start_matches(|letter: char| letter.is_ascii_digit());
            println!(rt; "{before}ADDRESS{behind}")
        }
        None => println!(rt; "{line}"),
    }
}
