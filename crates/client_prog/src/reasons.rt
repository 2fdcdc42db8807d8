// Why the client ends.
ghost use Rattle.std.specs.Prelude.{◌≡◌};
ghost use Rattle.std.specs.Process.{exit_status};
ghost use Rattle.program_words.specs.Status.{code};

use crate::program::NAME;
use crate::words::{Form, form_of};
use crate::wrong_word::wrong_word;
use client_lines::MAX_INPUT;
use program_words::{Status, end, tell_plainly};
use real_edge::{Trouble, Troubled, tell_trouble};
use std::process::ExitCode;

/// What the calls met that failed last, where one did.
#[derive(Clone, Copy)]
pub(crate) struct Failures<'a> {
    pub(crate) input: Option<&'a Trouble>,
    pub(crate) output: Option<&'a Trouble>,
    pub(crate) keeper: Option<&'a Trouble>,
}

/// Ends the program where a page was shown, and that ended so. Where the output failed, standard error says why.
pub(crate) fn end_shown<R: Eprint, O: Troubled>(rt: &R, status: Status, output: &O) -> ExitCode
    ensures { exit_status result ≡ code status }
{
    let failures = Failures {
        input: None,
        output: output.trouble(),
        keeper: None,
    };
    end_told(rt, &[], status.code(), &failures)
}

/// Ends the program with the status of its run. Where it is not 0, standard error says why, where that is known.
pub(crate) fn end_told<R: Eprint>(
    rt: &R,
    words: &[String],
    status: u8,
    failures: &Failures<'_>,
) -> ExitCode
    ensures { exit_status result ≡ status }
{
    if let Some(status) = Status::of(status) {
        tell_why(rt, words, status, failures);
    }
    end(rt, NAME, status)
}

/// Tells why a run ended with this status.
fn tell_why<R: Eprint>(rt: &R, words: &[String], status: Status, failures: &Failures<'_>) {
    match status {
        Status::SourceFailed => tell_trouble(rt, NAME, failures.input),
        Status::SinkFailed => tell_trouble(rt, NAME, failures.output),
        Status::KeeperFailed => tell_trouble(rt, NAME, failures.keeper),
        Status::OtherImage => tell_image(rt, words),
        Status::TooLong => tell_length(rt),
        Status::Refused => tell_refused(rt),
        Status::NoForm => tell_word(rt, words),
        Status::Done | Status::CannotListen | Status::NoMemory => tell_plainly(rt, NAME, status),
    }
}

/// Tells which of the words is wrong.
fn tell_word<R: Eprint>(rt: &R, words: &[String]) {
    if let Some(wrong) = wrong_word(words) {
        let _ = eprintln!(rt; "{NAME}: {wrong}");
    }
    tell_plainly(rt, NAME, Status::NoForm);
}

/// Tells that the image of the words is none of this client's.
fn tell_image<R: Eprint>(rt: &R, words: &[String]) {
    let image = match form_of(words) {
        Some(Form::Run(run)) => run.image,
        Some(Form::Shelve(asked)) => asked.image,
        Some(Form::Drill(_) | Form::Check(_)) | None => return,
    };
    if let Ok(image) = str::from_utf8(image) {
        let _ = eprintln!(rt; "{NAME}: {image} is no client's image, or another number's");
    }
}

/// Tells that the input is too long.
fn tell_length<R: Eprint>(rt: &R) {
    let _ = eprintln!(rt; "{NAME}: the input has more than {MAX_INPUT} bytes");
}

/// Tells that the certificate was refused; standard output says why.
fn tell_refused<R: Eprint>(rt: &R) {
    let _ = eprintln!(rt; "{NAME}: the certificate was refused");
}
