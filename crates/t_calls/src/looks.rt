// What is wanted of bytes.

use crate::answers::{Answer, answer_in};
use crate::changes::{OTHER_END, entry_of, look_at_changes, sum_of_answers, table_of, tell};
use crate::frames::answers;
use crate::kinds::Look;
use crate::readers::{Subject, Told, answer_of, read_as};
use t_scene_files::{Fault, Line, Report, number};

/// Looks at the bytes as the line says.
pub(crate) fn look_at(
    report: &mut Report,
    subject: Subject<'_>,
    look: Look,
    line: &Line<'_>,
) -> Result<(), Fault> {
    match look {
        Look::Is => look_at_what_is_read(report, subject, line.rest, line.block),
        Look::Refused => look_at_refusal(report, subject, line.rest),
        Look::Changed(change) => look_at_changes(report, subject, change, line.block),
        Look::Leads => look_at_fronts(report, subject, line.block),
        Look::Turned => look_at_sum(report, subject, line.rest),
        Look::Answered => look_at_answer(report, subject, line.block, true),
        Look::Unanswered => look_at_answer(report, subject, line.block, false),
    }
}

/// What is read, as text, and what is written of it: where words stand in the line, they are the text, and the block is what is written,
/// the very bytes where there is none; where none do, the block is the text, and the very bytes are written.
fn look_at_what_is_read(
    report: &mut Report,
    subject: Subject<'_>,
    words: &str,
    block: &[u8],
) -> Result<(), Fault> {
    let mut told = Told::new(subject.alloc);
    let compared = match read_as(subject, &mut told) {
        Ok(Answer::Read) if words.is_empty() => compare(report, &told, block, subject.bytes),
        Ok(Answer::Read) if block.is_empty() => {
            compare(report, &told, words.as_bytes(), subject.bytes)
        }
        Ok(Answer::Read) => compare(report, &told, words.as_bytes(), block),
        Ok(_) => Err(Fault::Line("the bytes are refused")),
        Err(fault) => Err(fault),
    };
    drop(told);
    compared
}

fn compare(report: &mut Report, told: &Told, text: &[u8], written: &[u8]) -> Result<(), Fault> {
    report.compare(&told.text, text)?;
    Ok(report.compare(&told.written, written)?)
}

fn look_at_refusal(report: &mut Report, subject: Subject<'_>, words: &str) -> Result<(), Fault> {
    let wanted = answer_in(words)?;
    let found = answer_of(subject)?;
    if found != wanted {
        tell(
            subject.alloc,
            report,
            String::new(subject.alloc),
            found,
            wanted,
        )?;
    }
    Ok(())
}

/// Looks at each front of the bytes, whether it is read as the table says. A line of the table has the size behind the last one, and
/// what is read, or `refused`.
fn look_at_fronts(report: &mut Report, subject: Subject<'_>, block: &[u8]) -> Result<(), Fault> {
    let mut size = 0;
    for line in table_of(block)?.split('\n') {
        if line.is_empty() {
            continue;
        }
        let (end, wanted) = entry_of(line)?;
        look_at_fronts_to(report, subject, (size, end), wanted.as_bytes())?;
        size = end;
    }
    if size != subject.bytes.len() {
        return Err(OTHER_END);
    }
    Ok(())
}

fn look_at_fronts_to(
    report: &mut Report,
    subject: Subject<'_>,
    sizes: (usize, usize),
    wanted: &[u8],
) -> Result<(), Fault> {
    let last = sizes.1.min(subject.bytes.len());
    for size in sizes.0..last {
        look_at_front(report, subject, size, wanted)?;
    }
    Ok(())
}

fn look_at_front(
    report: &mut Report,
    subject: Subject<'_>,
    size: usize,
    wanted: &[u8],
) -> Result<(), Fault> {
    let front = &subject.bytes[..size.min(subject.bytes.len())];
    let mut told = Told::new(subject.alloc);
    let answer = read_as(
        Subject {
            bytes: front,
            ..subject
        },
        &mut told,
    );
    let compared = match answer {
        Ok(Answer::Read) => report.compare(&told.text, wanted),
        _ => report.compare(b"refused", wanted),
    };
    drop(told);
    Ok(compared?)
}

fn look_at_sum(report: &mut Report, subject: Subject<'_>, words: &str) -> Result<(), Fault> {
    let found = sum_of_answers(subject)?;
    Ok(report.compare_numbers(u64::from(found), u64::from(number(words)?))?)
}

fn look_at_answer(
    report: &mut Report,
    subject: Subject<'_>,
    reply: &[u8],
    wanted: bool,
) -> Result<(), Fault> {
    let found = answers(subject.alloc, subject.bytes, reply)?;
    Ok(report.compare_numbers(u64::from(found), u64::from(wanted))?)
}
