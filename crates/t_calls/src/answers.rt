// What readers say of bytes.

use std::alloc::{AllocError, Global};
use t_scene_files::{Fault, number};
use vol_tree::TakeError;

/// What a reader says.
#[derive(Clone, Copy, PartialEq, Eq)]
pub(crate) enum Answer {
    Read,
    BadLength,
    BadVersion,
    BadKind,
    BadClient,
    WrongKind,
    /// The place of the field.
    Field(u32),
    Trailing(u32),
}

const PLAIN: [(&str, Answer); 6] = [
    ("read", Answer::Read),
    ("length", Answer::BadLength),
    ("version", Answer::BadVersion),
    ("kind", Answer::BadKind),
    ("client", Answer::BadClient),
    ("other", Answer::WrongKind),
];

/// The answer that a text tells.
pub(crate) fn answer_in(text: &str) -> Result<Answer, Fault> {
    for (word, answer) in &PLAIN {
        if *word == text {
            return Ok(*answer);
        }
    }
    match text.split_once(' ') {
        Some((word, place)) => answer_at(word, place),
        None => Err(NO_ANSWER),
    }
}

const NO_ANSWER: Fault = Fault::Line("no reader answers so");

fn answer_at(word: &str, place: &str) -> Result<Answer, Fault> {
    let place = number(place)?;
    if word == "field" {
        Ok(Answer::Field(place))
    } else if word == "trailing" {
        Ok(Answer::Trailing(place))
    } else {
        Err(NO_ANSWER)
    }
}

/// The text of an answer.
pub(crate) fn text_of(alloc: Global, answer: Answer) -> Result<String, AllocError> {
    match answer {
        Answer::Field(place) => format!(in alloc; "field {place}"),
        Answer::Trailing(place) => format!(in alloc; "trailing {place}"),
        _ => String::from_str(alloc, word_of(answer)),
    }
}

fn word_of(answer: Answer) -> &'static str {
    for (word, plain) in &PLAIN {
        if *plain == answer {
            return *word;
        }
    }
    "no answer"
}

/// A place that is counted in 32 bits.
fn counted(place: usize) -> u32 {
    u32::try_from(place).unwrap_or(u32::MAX)
}

/// A value was read up to this place.
pub(crate) fn read_until(next: usize, bytes: &[u8]) -> Answer {
    if next == bytes.len() {
        Answer::Read
    } else {
        Answer::Trailing(counted(next))
    }
}

/// No value was taken.
pub(crate) fn not_taken(error: TakeError) -> Result<Answer, Fault> {
    match error {
        TakeError::At(place) => Ok(Answer::Field(counted(place))),
        TakeError::Memory => Err(Fault::Memory),
    }
}
