// Bytes that are cut, or have one byte in place of another.

use crate::answers::{Answer, answer_in, text_of};
use crate::kinds::{Change, Kind};
use crate::readers::{Subject, answer_of};
use std::alloc::{AllocError, Global};
use t_scene_files::{Fault, Report, number};

/// The bytes, changed so at the place.
fn changed(subject: &Subject<'_>, change: Change, place: usize) -> Result<Vec<u8>, AllocError> {
    let mut other = subject.bytes.to_vec(subject.alloc)?;
    match change {
        Change::Cut => other.truncate(place),
        Change::End => {
            other.truncate(place);
            if subject.kind == Kind::Frame {
                mend_length(&mut other);
            }
        }
        Change::Zero => set(&mut other, place, 0),
        Change::Ones => set(&mut other, place, 255),
        Change::Complement => complement(&mut other, place),
    }
    Ok(other)
}

fn set(bytes: &mut Vec<u8>, place: usize, byte: u8) {
    if let Some(here) = bytes.get_mut(place) {
        *here = byte;
    }
}

fn complement(bytes: &mut Vec<u8>, place: usize) {
    if let Some(here) = bytes.get_mut(place) {
        *here = !*here;
    }
}

/// Sets the length of a frame of at least four bytes.
fn mend_length(frame: &mut Vec<u8>) {
    let size = frame.len().saturating_sub(4);
    let size = u32::try_from(size).unwrap_or(u32::MAX);
    if frame.len() >= 4 {
        frame[..4].copy_from_slice(&size.to_be_bytes());
    }
}

/// The place and the text of a line of a table.
pub(crate) fn entry_of(line: &str) -> Result<(usize, &str), Fault> {
    match line.split_once(' ') {
        Some((place, text)) => Ok((number(place)? as usize, text)),
        None => Err(Fault::Line("a line of a table has a place and an answer")),
    }
}

/// The text of a table.
pub(crate) fn table_of(block: &[u8]) -> Result<&str, Fault> {
    match str::from_utf8(block) {
        Ok(table) => Ok(table),
        Err(_) => Err(Fault::Line("a table is text")),
    }
}

/// Looks at each place of the bytes whether they are answered as the table says. A line of the table has the place behind its last one, and
/// the answer.
pub(crate) fn look_at_changes(
    report: &mut Report,
    subject: Subject<'_>,
    change: Change,
    block: &[u8],
) -> Result<(), Fault> {
    let mut place = 0;
    for line in table_of(block)?.split('\n') {
        if line.is_empty() {
            continue;
        }
        let (end, text) = entry_of(line)?;
        look_up_to(report, subject, change, (place, end), answer_in(text)?)?;
        place = end;
    }
    if place != subject.bytes.len() {
        return Err(OTHER_END);
    }
    Ok(())
}

pub(crate) const OTHER_END: Fault = Fault::Line("the table does not end with the bytes");

/// Looks at each place from the first on, before the last.
fn look_up_to(
    report: &mut Report,
    subject: Subject<'_>,
    change: Change,
    places: (usize, usize),
    wanted: Answer,
) -> Result<(), Fault> {
    for place in places.0..places.1 {
        let found = answer_at(subject, change, place)?;
        if found != wanted {
            let text = at_place(subject.alloc, place)?;
            tell(subject.alloc, report, text, found, wanted)?;
        }
    }
    Ok(())
}

fn at_place(alloc: Global, place: usize) -> Result<String, AllocError> {
    format!(in alloc; "at {place}: ")
}

/// How the bytes are answered when they are changed so at the place.
fn answer_at(subject: Subject<'_>, change: Change, place: usize) -> Result<Answer, Fault> {
    let other = changed(&subject, change, place)?;
    let found = answer_of(Subject {
        bytes: &other,
        ..subject
    });
    drop(other);
    found
}

/// The answers to each bit turned round, the lowest of each byte first, as one number.
pub(crate) fn sum_of_answers(subject: Subject<'_>) -> Result<u32, Fault> {
    let mut sum: u32 = 0;
    for place in 0..subject.bytes.len() {
        for bit in [1_u8, 2, 4, 8, 16, 32, 64, 128] {
            let number = number_with(subject, place, bit)?;
            sum = sum.wrapping_mul(31).wrapping_add(number);
        }
    }
    Ok(sum)
}

/// The number of the answer to the bytes with a bit turned round.
fn number_with(subject: Subject<'_>, place: usize, bit: u8) -> Result<u32, Fault> {
    let mut other = subject.bytes.to_vec(subject.alloc)?;
    if let Some(here) = other.get_mut(place) {
        *here ^= bit;
    }
    let found = answer_of(Subject {
        bytes: &other,
        ..subject
    });
    drop(other);
    Ok(number_of(found?))
}

/// What a reader of images says as a number.
fn number_of(answer: Answer) -> u32 {
    match answer {
        Answer::Read => 1,
        Answer::Field(place) => place.saturating_add(3),
        Answer::WrongKind => 2,
        _ => 0,
    }
}

/// Tells that an answer is another one than the wanted one, behind what stands before it.
pub(crate) fn tell(
    alloc: Global,
    report: &mut Report,
    before: String,
    found: Answer,
    wanted: Answer,
) -> Result<(), AllocError> {
    let what = text_of_both(alloc, &before, found, wanted);
    drop(before);
    let what = what?;
    let told = report.tell(&what);
    drop(what);
    told
}

fn text_of_both(
    alloc: Global,
    before: &str,
    found: Answer,
    wanted: Answer,
) -> Result<String, AllocError> {
    let found = text_of(alloc, found)?;
    let wanted = text_of(alloc, wanted)?;
    format!(in alloc; "{before}wanted {wanted}, found {found}")
}
