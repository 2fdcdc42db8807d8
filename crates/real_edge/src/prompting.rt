// Input that is typed.
ghost use Rattle.std.specs.Prelude.{◌≡◌, None};
ghost use Rattle.std.specs.Io.{ReadsAtMost, WritesAtMost};
ghost use Rattle.std.specs.Io.KnownBytes.{Keeps, ReadConsumes, WriteAppends};

use crate::hints::{Hint, Typed, hint_of, steers};
use std::alloc::Global;
use std::cell::Cell;
use std::io;
use std::io::{Printer, Read, Write};

/// Which of a program's standard streams are terminals, as far as it shows more there.
#[derive(Clone, Copy, Debug)]
pub struct Terminals {
    /// Input is typed, and read off a terminal: all three streams are one.
    pub is_typed: bool,
    /// Standard error is one.
    pub is_shown: bool,
}

/// A program whose input is lines.
#[derive(Clone, Copy, Debug)]
pub struct LineProgram {
    /// Its name, with which each line begins that standard error is told.
    pub program: &'static str,
    /// The words with which its lines begin.
    pub words: &'static [&'static str],
    /// The one that shows what a file holds. What the others show beside words and numbers is names.
    pub shows: &'static str,
}

/// A reader that asks for what is typed: standard error shows a prompt before each read, and before that a hint where the line before
/// asked for nothing. It gives what its reader gives. Typed or not, the first line that ends in CR is told.
#[derive(Drop)]
pub struct Prompting<'a, P: Eprint, R: Read + Drop> {
    rt: &'a P,
    asked: LineProgram,
    reader: R,
    is_typed: bool,
    /// Whether what was shown since would steer a terminal.
    steered: &'a Cell<bool>,
    typed: Typed,
    told: Told,
    /// Whether what was read last ends in CR.
    ends_in_return: bool,
}

/// What was told already that is told once.
#[derive(Clone, Copy)]
struct Told {
    keys: bool,
    names: bool,
    returns: bool,
}

impl<'a, P: Eprint, R: Read + Drop> Prompting<'a, P, R> {
    /// Shows a prompt and hints where the input is typed, and else none. The cell tells whether what is shown steers a terminal.
    pub fn new(
        alloc: Global,
        rt: &'a P,
        asked: LineProgram,
        reader: R,
        is_typed: bool,
        steered: &'a Cell<bool>,
    ) -> Prompting<'a, P, R> {
        Prompting {
            rt,
            asked,
            reader,
            is_typed,
            steered,
            typed: Typed::new(alloc),
            told: Told {
                keys: false,
                names: false,
                returns: false,
            },
            ends_in_return: false,
        }
    }

    /// Shows what belongs to the line that was typed last, and a prompt for the next one.
    fn ask(&mut self)
        ensures { self.new.reader ≡ self.old.reader }
    {
        match hint_of(self.typed.line(), self.asked.words) {
            Some(Hint::History) if self.told.keys => {}
            Some(hint) => {
                self.told.keys = self.told.keys || hint == Hint::History;
                self.tell(hint.text());
            }
            None => self.tell_names(),
        }
        self.steered.set(false);
        let _ = eprint!(self.rt; "> ");
    }

    /// Tells once that a name was shown that steers a terminal.
    fn tell_names(&mut self)
        ensures { self.new.reader ≡ self.old.reader }
    {
        let is_content = self.typed.line().starts_with(self.asked.shows.as_bytes());
        if self.steered.get() && !is_content && !self.told.names {
            self.told.names = true;
            self.tell("a name has control bytes, which are shown as they are");
        }
    }

    /// Takes note of what was read, and tells once that a line ends in CR.
    fn note(&mut self, bytes: &[u8])
        ensures { self.new.reader ≡ self.old.reader }
    {
        if self.is_typed {
            self.typed.note(bytes);
        }
        if !self.told.returns && has_return(bytes, self.ends_in_return) {
            self.told.returns = true;
            self.tell("a line ends in CR, which belongs to its last word");
        }
        self.ends_in_return = bytes.last() == Some(&b'\r');
    }

    /// Tells something in a line that begins with the program's name.
    fn tell(&self, what: &str) {
        let program = self.asked.program;
        let _ = eprintln!(self.rt; "{program}: {what}");
    }
}

/// Whether a line ends in CR among these bytes, before which one stands or not.
fn has_return(bytes: &[u8], is_behind_one: bool) -> bool {
    let mut ends = is_behind_one;
    for byte in bytes {
        if *byte == b'\n' && ends {
            return true;
        }
        ends = *byte == b'\r';
    }
    false
}

impl<'a, P: Eprint, R: Read + Drop> Read for Prompting<'a, P, R> {
    ghost remaining = { λ prompting. R.remaining prompting.reader };

    fn read(&mut self, buf: &mut [u8]) -> io::Result<usize>
        ensures bound { ReadsAtMost result buf.new }
        ensures bytes { ReadConsumes (R.remaining self.old.reader) (R.remaining self.new.reader) result buf.new }
    {
        if self.is_typed {
            self.ask();
        }
        let read = self.reader.read(buf);
        if let Ok(count) = &read {
            self.note(&buf[..*count]);
        }
        read
    }
}

/// Standard output, which takes note whether what is written there would steer a terminal. All goes out as it is given.
#[derive(Drop)]
pub struct Noting<'a, P: Print> {
    printer: Printer<'a, P>,
    steered: &'a Cell<bool>,
}

impl<'a, P: Print> Noting<'a, P> {
    /// Notes it in the cell.
    pub fn new(rt: &'a P, steered: &'a Cell<bool>) -> Noting<'a, P> {
        Noting {
            printer: io::writer(rt),
            steered,
        }
    }
}

impl<'a, P: Print> Write for Noting<'a, P> {
    ghost contents = { λ _. None };

    fn write(&mut self, buf: &[u8]) -> io::Result<usize>
        ensures bound { WritesAtMost result buf.now }
        ensures bytes { WriteAppends None None result buf.now }
    {
        if !self.steered.get() && steers(buf) {
            self.steered.set(true);
        }
        self.printer.write(buf)
    }

    fn flush(&mut self) -> io::Result<()>
        ensures bytes { Keeps None None }
    {
        self.printer.flush()
    }
}
