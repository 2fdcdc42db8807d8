// Why the server ends.
ghost use Rattle.std.specs.Prelude.{◌≡◌};
ghost use Rattle.std.specs.Process.{exit_status};

use crate::program::NAME;
use crate::words::{Form, form_of};
use program_words::{Status, end, tell_plainly};
use real_edge::{Trouble, tell_trouble};
use std::process::ExitCode;

/// Ends the program with the status of its run. Where it is not 0, standard error says why, where that is known: by what the
/// keeper or the output met.
pub(crate) fn end_told<R: Eprint>(
    rt: &R,
    words: &[String],
    status: u8,
    keeper: Option<&Trouble>,
    output: Option<&Trouble>,
) -> ExitCode
    ensures { exit_status result ≡ status }
{
    if let Some(status) = Status::of(status) {
        tell_why(rt, words, status, keeper, output);
    }
    end(rt, NAME, status)
}

/// Tells why a run ended with this status.
fn tell_why<R: Eprint>(
    rt: &R,
    words: &[String],
    status: Status,
    keeper: Option<&Trouble>,
    output: Option<&Trouble>,
) {
    match status {
        Status::SinkFailed => tell_trouble(rt, NAME, output),
        Status::KeeperFailed => tell_trouble(rt, NAME, keeper),
        Status::OtherImage => tell_image(rt, words),
        Status::Done
        | Status::CannotListen
        | Status::NoForm
        | Status::SourceFailed
        | Status::NoMemory
        | Status::TooLong
        | Status::Refused => tell_plainly(rt, NAME, status),
    }
}

/// Tells that the image of the words is none of a server's.
fn tell_image<R: Eprint>(rt: &R, words: &[String]) {
    if let Some(form) = form_of(words) {
        let image = form.image();
        let _ = eprintln!(rt; "{NAME}: {image} is no server's image");
    }
}

/// Tells that what was written is of a new server, since there is no image.
pub(crate) fn tell_missing<R: Eprint>(rt: &R, words: &[String]) {
    let _ = match form_of(words) {
        Some(Form::Root(image)) => eprintln!(rt;
            "{NAME}: there is no {image}: this is the root of no files"
        ),
        Some(Form::Prove(image, _)) => eprintln!(rt;
            "{NAME}: there is no {image}: this is a certificate of no files"
        ),
        Some(Form::Run(_)) | None => Ok(()),
    };
}
