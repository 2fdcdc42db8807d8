// The line that standard error shows while an ask goes on.
use crate::texts::bytes;
use std::time::{Clock, Duration, Instant};
use wire_frames::{Head, Kind};
use world_rules::Peer;

/// How long an ask goes on before it is shown, in milliseconds.
const BEFORE_MILLIS: u64 = 1_000;

/// How long what is shown stands at least, in milliseconds.
const STANDS_MILLIS: u64 = 200;

/// An ask that goes on.
#[derive(Clone, Copy)]
struct Asked {
    to: Peer,
    request: Head,
    bytes: usize,
    sent: usize,
    came: usize,
    start: Instant,
}

/// Shows on standard error how an ask goes on that takes long, in one line that is cleared when it is over; nothing where standard
/// error is no terminal.
#[derive(Drop)]
pub(crate) struct Progress<'a, R: Eprint + Clock> {
    rt: &'a R,
    program: &'static str,
    is_terminal: bool,
    asked: Option<Asked>,
    shown_at: Option<Instant>,
}

impl<'a, R: Eprint + Clock> Progress<'a, R> {
    /// Shows nothing yet, and nothing ever where standard error is no terminal. The line begins with the program's name.
    pub(crate) fn new(rt: &'a R, program: &'static str, is_terminal: bool) -> Progress<'a, R> {
        Progress {
            rt,
            program,
            is_terminal,
            asked: None,
            shown_at: None,
        }
    }

    /// A request of so many bytes is asked.
    pub(crate) fn begin(&mut self, to: Peer, request: Head, bytes: usize) {
        self.shown_at = None;
        self.asked = match Instant::now(self.rt) {
            Ok(start) => Some(Asked {
                to,
                request,
                bytes,
                sent: 0,
                came: 0,
                start,
            }),
            Err(_) => None,
        };
    }

    /// So many more bytes of the request were sent.
    pub(crate) fn sent(&mut self, bytes: usize) {
        if let Some(asked) = &mut self.asked {
            asked.sent = asked.sent.saturating_add(bytes);
        }
        self.show();
    }

    /// So many more bytes of the answer came.
    pub(crate) fn came(&mut self, bytes: usize) {
        if let Some(asked) = &mut self.asked {
            asked.came = asked.came.saturating_add(bytes);
        }
        self.show();
    }

    /// Clears the line.
    pub(crate) fn end(&mut self) {
        if self.shown_at.is_some() {
            let _ = eprint!(self.rt; "\r\x1b[K");
        }
        self.asked = None;
        self.shown_at = None;
    }

    /// Shows the ask, where it has gone on for long enough and what is shown has stood.
    pub(crate) fn show(&mut self) {
        if !self.is_terminal {
            return;
        }
        let (Some(asked), Ok(now)) = (self.asked, Instant::now(self.rt)) else {
            return;
        };
        let is_due = match self.shown_at {
            Some(shown_at) => now.duration_since(shown_at) >= Duration::from_millis(STANDS_MILLIS),
            None => now.duration_since(asked.start) >= Duration::from_millis(BEFORE_MILLIS),
        };
        if is_due {
            self.shown_at = Some(now);
            self.print(&asked, now.duration_since(asked.start).as_secs());
        }
    }

    /// Prints the line of an ask, over the one before.
    fn print(&self, asked: &Asked, seconds: u64) {
        let (program, number) = (self.program, asked.request.number);
        let what = what_is_asked(asked.request.kind);
        let whom = whose(asked.to);
        let all = bytes(asked.bytes);
        let came = bytes(asked.came);
        let percent = percent_of(asked.sent, asked.bytes);
        let _ = if asked.came > 0 {
            eprint!(self.rt;
                "\r\x1b[K{program}: {what} {number}: {came} bytes came from the {whom}, {seconds} s"
            )
        } else if asked.sent < asked.bytes {
            eprint!(self.rt;
                "\r\x1b[K{program}: {what} {number}: {percent} % of {all} bytes to the {whom}, {seconds} s"
            )
        } else {
            eprint!(self.rt;
                "\r\x1b[K{program}: {what} {number}: {all} bytes sent, waiting for the {whom}, {seconds} s"
            )
        };
    }
}

/// What a request of a kind brings.
fn what_is_asked(kind: Kind) -> &'static str {
    match kind {
        Kind::Pull => "pull",
        Kind::Operate => "command of entry",
        _ => "entry",
    }
}

/// The peer's name.
fn whose(to: Peer) -> &'static str {
    match to {
        Peer::Server => "server",
        Peer::Surrogate => "surrogate",
    }
}

/// How many hundredths of the bytes were sent.
fn percent_of(sent: usize, bytes: usize) -> usize {
    sent.saturating_mul(100).checked_div(bytes).unwrap_or(100)
}
