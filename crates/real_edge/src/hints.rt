// What a person is told who types a line that asks for nothing.
use std::alloc::Global;

/// The most bytes of a line that are looked at.
const MOST_LOOKED_AT: usize = 4_096;

/// What a terminal sends before what a key beside the letters means.
const ESCAPE: u8 = 0x1b;

/// What a line is told that was typed.
#[derive(Clone, Copy, Debug, PartialEq, Eq)]
pub(crate) enum Hint {
    /// Its first word names nothing.
    Word,
    /// A path goes up.
    Up,
    /// A path ends in a slash.
    Slash,
    /// It has double quotes.
    Quotes,
    /// It has what arrow keys send.
    History,
}

impl Hint {
    /// What it says.
    pub(crate) fn text(self) -> &'static str {
        match self {
            Hint::Word => "--help lists the lines; quit ends",
            Hint::Up => "there is no ..; cd / goes to the top",
            Hint::Slash => "a path has no / at its end",
            Hint::Quotes => "a word with spaces stands between ', not between \"",
            Hint::History => "rlwrap gives keys and a history: rlwrap client run ..",
        }
    }
}

/// The hint that belongs to a line, whose first word is to be one of these.
pub(crate) fn hint_of(line: &[u8], known: &[&str]) -> Option<Hint> {
    let mut words = line.split(|byte| *byte == b' ');
    let first = words.next()?;
    if line.contains(&ESCAPE) {
        return Some(Hint::History);
    }
    if first.is_empty() || first.first() == Some(&b'\'') {
        return None;
    }
    if !known.iter().any(|word| word.as_bytes() == first) {
        return Some(Hint::Word);
    }
    if line.contains(&b'"') {
        return Some(Hint::Quotes);
    }
    if first == b"run".as_slice() || first == b"put".as_slice() {
        return None;
    }
    words.find_map(path_hint)
}

/// The hint that belongs to a path.
fn path_hint(path: &[u8]) -> Option<Hint> {
    if path
        .split(|byte| *byte == b'/')
        .any(|name| name == b"..".as_slice())
    {
        return Some(Hint::Up);
    }
    if path.len() > 1 && path.last() == Some(&b'/') {
        return Some(Hint::Slash);
    }
    None
}

/// Whether bytes would steer a terminal: all control bytes but a line end do.
pub(crate) fn steers(bytes: &[u8]) -> bool {
    bytes
        .iter()
        .any(|byte| byte.is_ascii_control() && *byte != b'\n')
}

/// The line that was typed last.
#[derive(Drop)]
pub(crate) struct Typed {
    bytes: Vec<u8>,
}

impl Typed {
    /// None yet.
    pub(crate) fn new(alloc: Global) -> Typed {
        Typed {
            bytes: Vec::new(alloc),
        }
    }

    /// Takes note of what was typed. Where memory for it is wanted, it is as if there were none.
    pub(crate) fn note(&mut self, bytes: &[u8]) {
        self.bytes.clear();
        let line = bytes.strip_suffix(b"\n").unwrap_or(bytes);
        if line.len() <= MOST_LOOKED_AT {
            let _noted = self.bytes.extend_from_slice(line);
        }
    }

    /// The line, without its end.
    pub(crate) fn line(&self) -> &[u8] {
        &self.bytes
    }
}
