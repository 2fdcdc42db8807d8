//! What a client tells of its asks and a server of its requests, on standard error: which lines, byte for byte.

use crate::probe::port_of;
use outside::{MemPort, Port};
use real_edge::{
    ClientTeller, LineProgram, LoggedPort, Missed, Noting, Prompting, Teller, tell_addresses,
};
use sealed_frames::{Way, is_sealable, seal};
use sealed_port::SealedPort;
use std::alloc::{AllocError, Global};
use std::cell::{Cell, RefCell};
use std::fmt::Display;
use std::io::{self, ErrorKind, Read, Write};
use std::test::Fail;
use std::time::{Clock, Duration};
use wire_frames::{Head, Kind};
use world_rules::Peer;

/// Entry 1 of client 1 ran `/bin/x` in the root, which made the folder `a` and gave status 0.
const OPERATION: &[u8] = &[
    0, 0, 0, 87, 3, 2, 1, 0, 0, 0, 0, 0, 0, 0, 1, 75, 10, 227, 216, 211, 4, 147, 250, 206, 43, 76,
    146, 122, 42, 212, 244, 77, 204, 121, 143, 98, 20, 227, 181, 55, 244, 79, 113, 70, 178, 30,
    122, 0, 0, 0, 0, 6, 47, 98, 105, 110, 47, 120, 0, 0, 0, 0, 0, 0, 0, 0, 0, 0, 0, 0, 0, 1, 1, 0,
    1, 97, 0, 0, 0, 1, 0, 1, 97, 0, 0, 0, 0, 0, 0, 0, 0,
];

/// Entry 1 of client 1 is done.
const DONE: &[u8] = &[0, 0, 0, 11, 3, 22, 1, 0, 0, 0, 0, 0, 0, 0, 1];

/// It is declined: what the command left at `a` is another content.
const MISMATCH: &[u8] = &[0, 0, 0, 15, 3, 23, 1, 0, 0, 0, 0, 0, 0, 0, 1, 7, 0, 1, 97];

/// It is declined: its job has another print at the surrogate than the logged one.
const OTHER_JOB: &[u8] = &[
    0, 0, 0, 76, 3, 23, 1, 0, 0, 0, 0, 0, 0, 0, 1, 1, 0, 0, 0, 0, 0, 0, 0, 0, 0, 0, 0, 0, 0, 0, 0,
    0, 0, 0, 0, 0, 0, 0, 0, 0, 0, 0, 0, 0, 0, 0, 0, 0, 0, 0, 0, 0, 0, 0, 0, 0, 0, 0, 0, 0, 0, 0, 0,
    0, 0, 0, 0, 0, 0, 0, 0, 0, 0, 0, 0, 0, 0, 0, 0, 1,
];

/// It is accepted.
const ACCEPTED: &[u8] = &[
    0, 0, 0, 19, 3, 17, 1, 0, 0, 0, 0, 0, 0, 0, 1, 0, 0, 0, 0, 0, 0, 0, 1,
];

/// It is refused, since the last accepted one is that of number 5.
const GAP: &[u8] = &[
    0, 0, 0, 19, 3, 20, 1, 0, 0, 0, 0, 0, 0, 0, 1, 0, 0, 0, 0, 0, 0, 0, 5,
];

/// Client 3 asks for all rows, and knows 17 entries to be accepted.
const PULL: &[u8] = &[0, 0, 0, 11, 3, 3, 3, 0, 0, 0, 0, 0, 0, 0, 17];

/// Two moments: the evening of November 30, 2026, and the last second of a leap day.
const EVENING: u64 = 1_796_072_880;

const LEAP_DAY: u64 = 1_835_481_599;

/// Where the peers of the tests are.
const SERVER: &[u8] = b"near:7001";

const SURROGATE: &[u8] = b"far:7002";

/// Standard error as a text, a standard output that nobody reads, and a clock that is asked each millisecond.
#[derive(Drop)]
struct Shown {
    alloc: Global,
    text: RefCell<String>,
    millis: Cell<u64>,
    /// How many seconds passed since 1970.
    seconds: Cell<u64>,
}

impl Shown {
    fn new(alloc: Global) -> Shown {
        Shown {
            alloc,
            text: RefCell::new(String::new(alloc)),
            millis: Cell::new(0),
            seconds: Cell::new(EVENING),
        }
    }

    /// Puts the value and the end behind the text.
    fn add<D: Display + Drop>(&self, value: D, end: &str) -> io::Result<()> {
        let piece = format!(in self.alloc; "{value}{end}");
        drop(value);
        let Ok(piece) = piece else {
            return Err(io::Error::from(ErrorKind::OutOfMemory));
        };
        let added = match self.text.try_borrow_mut() {
            Ok(mut text) => text.push_str(piece.as_str()).is_ok(),
            Err(_) => false,
        };
        drop(piece);
        if added {
            Ok(())
        } else {
            Err(io::Error::from(ErrorKind::OutOfMemory))
        }
    }

    /// Whether this is what was shown since it was asked last.
    fn is(&self, wanted: &str) -> bool {
        match self.text.try_borrow_mut() {
            Ok(mut text) => {
                let is_shown = text.as_str() == wanted;
                text.clear();
                is_shown
            }
            Err(_) => false,
        }
    }
}

impl Eprint for Shown {
    fn eprint<D: Display + Drop>(&self, value: D) -> io::Result<()> {
        self.add(value, "")
    }

    fn eprintln<D: Display + Drop>(&self, value: D) -> io::Result<()> {
        self.add(value, "\n")
    }
}

impl Print for Shown {
    fn print<D: Display + Drop>(&self, value: D) -> io::Result<()> {
        drop(value);
        Ok(())
    }

    fn println<D: Display + Drop>(&self, value: D) -> io::Result<()> {
        drop(value);
        Ok(())
    }

    fn write_all(&self, _bytes: &[u8]) -> io::Result<()> {
        Ok(())
    }
}

impl Clock for Shown {
    fn monotonic(&self) -> io::Result<Duration> {
        let millis = self.millis.get();
        self.millis.set(millis.saturating_add(1));
        Ok(Duration::from_millis(millis))
    }

    fn since_1970(&self) -> io::Result<Duration> {
        Ok(Duration::from_secs(self.seconds.get()))
    }
}

/// What is told of an entry whose command no surrogate answered.
const ALONE: &str = "\
client: far:7002: the answer is no surrogate's
client: entry 1: no surrogate answered; its files went, 5,000 bytes
";

/// What is told of a store that eight asks did not bring to the server.
const GIVEN_UP: &str = "\
client: entry 1: declined: Mismatch a
client: near:7001: the answer is no server's (8 tries)
";

/// What is told of an entry whose command read other files than the server has.
const OTHER_FILES: &str = "\
client: entry 1: declined: OtherJob: the server has another version of what the command read in /; \
name what it reads by in=; its files went, 5,000 bytes
";

/// A terminal whose clock is asked each millisecond, and the memory of a test.
type Terminal = (Shown, Global);

/// The head of a request of client 1 about entry 1.
fn head(kind: Kind) -> Head {
    Head {
        kind,
        client: 1,
        number: 1,
        entries: 1,
    }
}

/// Tells of an ask with this frame and this reply.
fn ask<T: Teller>(teller: &mut T, to: Peer, kind: Kind, frame: &[u8], reply: Option<&[u8]>) {
    miss(teller, to, kind, frame, reply.ok_or(&Missed::NoReply));
}

/// The same of one that may say why it had no reply.
fn miss<T: Teller>(
    teller: &mut T,
    to: Peer,
    kind: Kind,
    frame: &[u8],
    reply: Result<&[u8], &Missed>,
) {
    let address = match to {
        Peer::Server => SERVER,
        Peer::Surrogate => SURROGATE,
    };
    teller.begin(to, head(kind), frame);
    teller.sent(frame.len());
    teller.waits();
    teller.end(address, reply);
}

/// Tells of an entry whose command has this reply, and whose store this one, where it is asked.
fn ship<T: Teller>(teller: &mut T, operated: Option<&[u8]>, stored: Option<&[u8]>) {
    ask(teller, Peer::Surrogate, Kind::Operate, OPERATION, operated);
    ask(teller, Peer::Server, Kind::Store, &[0; 5_000], stored);
}

#[test]
fn a_client_tells_which_way_its_commands_went(rt: HostRuntime) -> Result<(), Fail> {
    let shown: Terminal = (Shown::new(rt.alloc()), rt.alloc());
    let mut teller = ClientTeller::new(&shown, "client", false);
    ask(
        &mut teller,
        Peer::Surrogate,
        Kind::Operate,
        OPERATION,
        Some(DONE),
    );
    let went = shown
        .0
        .is("client: entry 1: went as its command, 91 bytes for 0\n");
    ship(&mut teller, Some(MISMATCH), Some(ACCEPTED));
    let files = shown.0.is("client: entry 1: declined: Mismatch a; its files went, 5,000 bytes\n");
    ship(&mut teller, None, Some(ACCEPTED));
    let alone = shown.0.is(ALONE);
    ship(&mut teller, Some(MISMATCH), Some(GAP));
    let refused = shown.0.is("client: entry 1: declined: Mismatch a\n");
    ask(
        &mut teller,
        Peer::Server,
        Kind::Store,
        &[0; 5_000],
        Some(ACCEPTED),
    );
    let quiet = shown.0.is("");
    drop(teller);
    drop(shown);
    assert!(rt; went && files && alone && refused && quiet);
    Ok(())
}

#[test]
fn a_client_tells_that_a_server_has_other_files(rt: HostRuntime) -> Result<(), Fail> {
    let shown: Terminal = (Shown::new(rt.alloc()), rt.alloc());
    let mut teller = ClientTeller::new(&shown, "client", false);
    ship(&mut teller, Some(OTHER_JOB), Some(ACCEPTED));
    let told = shown.0.is(OTHER_FILES);
    drop(teller);
    drop(shown);
    assert!(rt; told);
    Ok(())
}

#[test]
fn a_cause_is_told_when_a_store_is_given_up(rt: HostRuntime) -> Result<(), Fail> {
    let shown: Terminal = (Shown::new(rt.alloc()), rt.alloc());
    let mut teller = ClientTeller::new(&shown, "client", false);
    ask(
        &mut teller,
        Peer::Surrogate,
        Kind::Operate,
        OPERATION,
        Some(MISMATCH),
    );
    for _ in 0..7 {
        ask(&mut teller, Peer::Server, Kind::Store, &[0; 9], None);
    }
    let quiet = shown.0.is("");
    ask(&mut teller, Peer::Server, Kind::Store, &[0; 9], None);
    let told = shown.0.is(GIVEN_UP);
    drop(teller);
    drop(shown);
    assert!(rt; quiet && told);
    Ok(())
}

#[test]
fn a_line_shows_how_an_ask_goes_on_and_is_cleared(rt: HostRuntime) -> Result<(), Fail> {
    let shown: Terminal = (Shown::new(rt.alloc()), rt.alloc());
    let mut teller = ClientTeller::new(&shown, "client", true);
    teller.begin(Peer::Server, head(Kind::Store), &[0; 5_000]);
    teller.sent(4_000);
    let early = shown.0.is("");
    shown.0.millis.set(2_000);
    teller.sent(500);
    let sent = shown.0.is("\r\x1b[Kclient: entry 1: 90 % of 5,000 bytes to the server, 2 s");
    teller.sent(500);
    let stands = shown.0.is("");
    teller.end(SERVER, Ok(ACCEPTED));
    let cleared = shown.0.is("\r\x1b[K");
    drop(teller);
    drop(shown);
    assert!(rt; early && sent && stands && cleared);
    Ok(())
}

/// Answers a frame of the port, and gives whether this is told.
fn answer<P: Port>(port: &mut P, shown: &Shown, frame: &[u8], line: &str) -> bool {
    let taken = port.take();
    let is_taken = matches!(&taken, Ok(Some(_)));
    drop(taken);
    let _sent = port.answer(frame);
    shown.is(line) && is_taken
}

/// A port with a pull, a frame that is none and a store, whose third take and third answer fail.
fn port_of_three(alloc: Global) -> Result<MemPort, AllocError> {
    port_of(alloc, &[PULL, &[9; 3], &PULL[..11], PULL], &[4, 6])
}

#[test]
fn a_server_tells_each_request(rt: HostRuntime) -> Result<(), Fail> {
    let shown: Terminal = (Shown::new(rt.alloc()), rt.alloc());
    let port = port_of_three(rt.alloc())?;
    let mut port = LoggedPort::new(&shown, "server", port, true);
    let pulled =
        "server: 2026-11-30T21:08:00Z: client 3 pull 17: Accepted, 15 bytes in, 23 out, 1 ms\n";
    let pulled = answer(&mut port, &shown.0, ACCEPTED, pulled);
    let malformed = "server: 2026-11-30T21:08:00Z: malformed, 3 bytes in, 20 out, 1 ms\n";
    let malformed = answer(&mut port, &shown.0, &[0; 20], malformed);
    shown.0.seconds.set(LEAP_DAY);
    let lost = port.take();
    shown.0.seconds.set(EVENING);
    let is_lost = shown.0.is(
        "server: 2028-02-29T23:59:59Z: a connection was lost before its request came\n",
    );
    drop(lost);
    let cut =
        "server: 2026-11-30T21:08:00Z: client 3 pull 17: Gap, 15 bytes in, 23 out, 1 ms, and the connection was lost\n";
    let cut = answer(&mut port, &shown.0, GAP, cut);
    drop(port.into_port());
    drop(shown);
    assert!(rt; pulled && malformed && is_lost && cut);
    Ok(())
}

/// The keys of a server, to which client 3 alone has one.
const KEYS: [Option<[u8; 32]>; 4] = [None, None, None, Some([7; 32])];

/// The frame, sealed by the key of client 3; without a seal, where it has no room for one.
fn sealed(alloc: Global, way: &Way, frame: &[u8]) -> Result<Vec<u8>, AllocError> {
    if is_sealable(frame) {
        seal(alloc, &[7; 32], way, frame)
    } else {
        frame.to_vec(alloc)
    }
}

/// A port with a sealed pull, a plain one, what is sealed of a client without a key, and a pull that goes another way.
fn port_of_strangers(alloc: Global) -> Result<MemPort, AllocError> {
    let pull = sealed(alloc, &Way::ToServer, PULL)?;
    let keyless = sealed(alloc, &Way::ToServer, ACCEPTED)?;
    let astray = sealed(alloc, &Way::ToSurrogate, PULL)?;
    let port = port_of(alloc, &[&pull, PULL, &keyless, &astray], &[]);
    drop(pull);
    drop(keyless);
    drop(astray);
    port
}

/// Whether the next take of the port fails, and this is told.
fn refuses<P: Port>(port: &mut P, shown: &Shown, line: &str) -> bool {
    let taken = port.take();
    let is_refused = taken.is_err();
    drop(taken);
    shown.is(line) && is_refused
}

#[test]
fn a_server_tells_why_it_refuses_frames(rt: HostRuntime) -> Result<(), Fail> {
    let shown: Terminal = (Shown::new(rt.alloc()), rt.alloc());
    let port = port_of_strangers(rt.alloc())?;
    let port = SealedPort::new(rt.alloc(), &KEYS, Way::ToServer, port);
    let mut port = LoggedPort::new(&shown, "server", port, true);
    let pulled =
        "server: 2026-11-30T21:08:00Z: client 3 pull 17: Accepted, 15 bytes in, 23 out, 1 ms\n";
    let pulled = answer(&mut port, &shown.0, ACCEPTED, pulled);
    let refused = [
        "server: 2026-11-30T21:08:00Z: refused: it has no seal\n",
        "server: 2026-11-30T21:08:00Z: refused: its client has no key here\n",
        "server: 2026-11-30T21:08:00Z: refused: its tag is of another key, another way or other bytes\n",
    ]
    .iter()
    .all(|line| refuses(&mut port, &shown.0, line));
    drop(port.into_port().into_port());
    drop(shown);
    assert!(rt; pulled && refused);
    Ok(())
}

#[test]
fn a_port_that_is_not_logged_tells_nothing(rt: HostRuntime) -> Result<(), Fail> {
    let shown: Terminal = (Shown::new(rt.alloc()), rt.alloc());
    let port = port_of_three(rt.alloc())?;
    let mut port = LoggedPort::new(&shown, "server", port, false);
    let quiet = answer(&mut port, &shown.0, ACCEPTED, "");
    drop(port.into_port());
    drop(shown);
    assert!(rt; quiet);
    Ok(())
}

/// Whether eight asks that end so are told in this line, and seven in none.
fn tells_reason(shown: &Terminal, missed: &Missed, line: &str) -> bool {
    let mut teller = ClientTeller::new(shown, "client", false);
    for _ in 0..7 {
        miss(&mut teller, Peer::Server, Kind::Pull, PULL, Err(missed));
    }
    let quiet = shown.0.is("");
    miss(&mut teller, Peer::Server, Kind::Pull, PULL, Err(missed));
    drop(teller);
    quiet && shown.0.is(line)
}

#[test]
fn each_reason_has_its_line(rt: HostRuntime) -> Result<(), Fail> {
    let shown: Terminal = (Shown::new(rt.alloc()), rt.alloc());
    let refused = Missed::NoConnection(io::Error::from(ErrorKind::ConnectionRefused));
    let far = Missed::NoConnection(io::Error::from(ErrorKind::TimedOut));
    let reset = Missed::Broken(io::Error::from(ErrorKind::ConnectionReset));
    let slow = Missed::Broken(io::Error::from(ErrorKind::TimedOut));
    let all = [
        (
            &refused,
            "client: near:7001: connection refused (8 tries)\n",
        ),
        (&far, "client: near:7001: no connection in time (8 tries)\n"),
        (&reset, "client: near:7001: connection reset (8 tries)\n"),
        (&slow, "client: near:7001: too slow (8 tries)\n"),
        (
            &Missed::NoName,
            "client: near:7001: no such name (8 tries)\n",
        ),
        (
            &Missed::NoForm,
            "client: near:7001: no address of the form HOST:PORT (8 tries)\n",
        ),
        (
            &Missed::Silent(30),
            "client: near:7001: silent for 30 s (8 tries)\n",
        ),
        (
            &Missed::Closed(0),
            "client: near:7001: closed after 0 bytes (8 tries)\n",
        ),
        (
            &Missed::OtherNode,
            "client: near:7001: the answer is no server's: is it a surrogate's address? (8 tries)\n",
        ),
        (
            &Missed::OtherVersion,
            "client: near:7001: it is of another version (8 tries)\n",
        ),
        (
            &Missed::Unsealed,
            "client: near:7001: the answer is not sealed by this client's key (8 tries)\n",
        ),
        (
            &Missed::NoKey,
            "client: near:7001: this client has no key here (8 tries)\n",
        ),
        (
            &Missed::Oversize,
            "client: near:7001: it is too long to be sealed (8 tries)\n",
        ),
    ];
    let told = all
        .iter()
        .all(|(missed, line)| tells_reason(&shown, missed, line));
    drop(refused);
    drop(far);
    drop(reset);
    drop(slow);
    drop(shown);
    assert!(rt; told);
    Ok(())
}

#[test]
fn an_address_of_no_form_is_told(rt: HostRuntime) -> Result<(), Fail> {
    let shown: Terminal = (Shown::new(rt.alloc()), rt.alloc());
    tell_addresses(
        &shown,
        "client",
        "SURROGATE",
        b"near:7002,[::1]:1,far:65535",
    );
    let quiet = shown.0.is("");
    tell_addresses(&shown, "client", "SURROGATE", b"far:0,near,:7002,far:99999");
    let told = shown.0.is(
        "\
client: SURROGATE far:0 has no port from 1 to 65535: it is HOST:PORT
client: SURROGATE near has no port: it is HOST:PORT
client: SURROGATE :7002 has no host: it is HOST:PORT
client: SURROGATE far:99999 has no port from 1 to 65535: it is HOST:PORT
",
    );
    drop(shown);
    assert!(rt; quiet && told);
    Ok(())
}

/// A program whose lines begin with these words.
const LINES: LineProgram = LineProgram {
    program: "client",
    words: &["put", "cat", "ls", "cd", "quit"],
    shows: "cat",
};

/// A reader that gives one line a call.
#[derive(Drop)]
struct Lines {
    left: Cell<usize>,
    lines: &'static [&'static str],
}

impl Read for Lines {
    fn read(&mut self, buf: &mut [u8]) -> io::Result<usize> {
        let place = self.left.get();
        let Some(line) = self.lines.get(place) else {
            return Ok(0);
        };
        let bytes = line.as_bytes();
        let count = bytes.len().min(buf.len());
        buf[..count].copy_from_slice(&bytes[..count]);
        self.left.set(place.saturating_add(1));
        Ok(count)
    }
}

/// Whether these lines, where they are typed or not, have this on standard error. What is shown behind each steers a terminal.
fn tells_lines(
    shown: &Terminal,
    lines: &'static [&'static str],
    is_typed: bool,
    told: &str,
) -> bool {
    let steered = Cell::new(false);
    let lines = Lines {
        left: Cell::new(0),
        lines,
    };
    let mut reader = Prompting::new(shown.1, shown, LINES, lines, is_typed, &steered);
    let mut block = [0; 64];
    for _ in 0..9 {
        if !matches!(reader.read(&mut block), Ok(count) if count > 0) {
            break;
        }
        let mut output = Noting::new(&shown.0, &steered);
        let _written = output.write(b"\x1b[2J\n");
        drop(output);
    }
    drop(reader);
    shown.0.is(told)
}

#[test]
fn typed_lines_have_hints(rt: HostRuntime) -> Result<(), Fail> {
    let shown: Terminal = (Shown::new(rt.alloc()), rt.alloc());
    let lines = &[
        "help\n",
        "cd ..\n",
        "ls a/\n",
        "put a \"b c\"\n",
        "\x1b[A\n",
        "cat a\n",
        "ls\n",
        "\x1b[A\n",
    ];
    let told = tells_lines(
        &shown,
        lines,
        true,
        "\
> client: --help lists the lines; quit ends
> client: there is no ..; cd / goes to the top
> client: a path has no / at its end
> client: a word with spaces stands between ', not between \"
> client: rlwrap gives keys and a history: rlwrap client run ..
> > client: a name has control bytes, which are shown as they are
> > ",
    );
    let quiet = tells_lines(&shown, lines, false, "");
    let returns = &["put a b\r\n", "quit\r", "\n"];
    let returns = tells_lines(
        &shown,
        returns,
        false,
        "client: a line ends in CR, which belongs to its last word\n",
    );
    drop(shown);
    assert!(rt; told && quiet && returns);
    Ok(())
}
