// What the lines of a scene give.

use crate::parts::Part;
use std::alloc::Global;
use t_scene_files::{Fault, number, small};

/// Whose rows or effects are told: first the job's, then what stands beside it, then those of the client's run or of its entry, and then
/// the replay's.
#[derive(Clone, Copy, PartialEq, Eq)]
pub(crate) enum Side {
    Job,
    Beside,
    Client,
    Entry,
    Replay,
}

/// What a line gives.
#[derive(Drop)]
pub(crate) struct Given {
    pub(crate) part: Part,
    pub(crate) side: Side,
    /// The words behind the first one; nothing where there are none.
    pub(crate) first: String,
    pub(crate) second: String,
    pub(crate) bytes: Vec<u8>,
}

/// Whether a line may give this where so much is told.
pub(crate) fn may_stand(part: Part, side: Side) -> bool {
    match part {
        Part::Folder | Part::File | Part::Program => side != Side::Entry,
        Part::Beside => side == Side::Job,
        Part::Run | Part::Logged => side == Side::Job || side == Side::Beside,
        Part::Make | Part::Put | Part::Remove | Part::Move | Part::Mode => side == Side::Entry,
        Part::Replay => side == Side::Client || side == Side::Entry,
        Part::Template | Part::Bytes | Part::Parity | Part::Spelling => true,
    }
}

/// How many words the line has.
fn count_of(part: Part) -> usize {
    match part {
        Part::Beside | Part::Bytes => 1,
        Part::Template
        | Part::Folder
        | Part::File
        | Part::Program
        | Part::Logged
        | Part::Make
        | Part::Put
        | Part::Remove
        | Part::Parity => 2,
        Part::Run | Part::Move | Part::Mode | Part::Replay | Part::Spelling => 3,
    }
}

/// Whether the line may have so many words. A spelling that may be as long as any has no room behind its place.
fn has_count(part: Part, words: usize) -> bool {
    words == count_of(part) || (part == Part::Spelling && words == 2)
}

/// What the words and the block give, where the words are as many as they have to be, and numbers where they have to be.
pub(crate) fn given_by(
    alloc: Global,
    part: Part,
    side: Side,
    words: &[&str],
    block: &[u8],
) -> Result<Given, Fault> {
    if !has_count(part, words.len()) {
        return Err(Fault::Line("other words are wanted here"));
    }
    let first = word_at(words, 1);
    let second = word_at(words, 2);
    check_words(part, first, second)?;
    Ok(Given {
        part,
        side,
        first: String::from_str(alloc, first)?,
        second: String::from_str(alloc, second)?,
        bytes: block.to_vec(alloc)?,
    })
}

/// The word in this place; nothing where there is none.
pub(crate) fn word_at<'a>(words: &[&'a str], place: usize) -> &'a str {
    match words.get(place) {
        Some(word) => word,
        None => "",
    }
}

fn check_words(part: Part, first: &str, second: &str) -> Result<(), Fault> {
    match part {
        Part::Run | Part::Replay => {
            if first != "gives" {
                return Err(Fault::Line("a run gives a status"));
            }
            small(second)?;
        }
        Part::Logged => {
            small(first)?;
        }
        Part::Parity => {
            number(first)?;
        }
        Part::Spelling => {
            number(first)?;
            if !second.is_empty() {
                number(second)?;
            }
        }
        Part::Mode => {
            bit(second)?;
        }
        Part::Template
        | Part::Folder
        | Part::File
        | Part::Program
        | Part::Make
        | Part::Put
        | Part::Remove
        | Part::Move
        | Part::Beside
        | Part::Bytes => {}
    }
    Ok(())
}

/// Whether a file may be run: 1 where it may, 0 where not.
pub(crate) fn bit(word: &str) -> Result<bool, Fault> {
    match word {
        "0" => Ok(false),
        "1" => Ok(true),
        _ => Err(Fault::Line("0 or 1 is wanted")),
    }
}

/// The last line that gives this.
pub(crate) fn last_of(given: &[Given], part: Part) -> Option<&Given> {
    let mut found = None;
    for one in given {
        if one.part == part {
            found = Some(one);
        }
    }
    found
}
