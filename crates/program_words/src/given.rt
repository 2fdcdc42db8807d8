// The words that a program is given.
ghost use Rattle.std.specs.Prelude.{◌≡◌, ◌≢◌, Ok, Err, IfOk, IfErr};
ghost use Rattle.std.specs.IoError.{error_kind};

use crate::Status;
use std::io::ErrorKind;
use std::rt::Env;
use std::{env, io};

/// The words behind the program's name.
///
/// # Errors
///
/// `InvalidData` where a word is no text, and `OutOfMemory`.
pub fn given_words<R: Env + AllocGlobal>(rt: &R) -> io::Result<Vec<String>> {
    let words = env::args(rt)?.skip(1).collect(rt.alloc())?;
    Ok(words)
}

/// The words that were given.
///
/// # Errors
///
/// The status of a program that has none: memory ran out, or they are no text and so of no form.
pub fn checked_words(given: io::Result<Vec<String>>) -> Result<Vec<String>, Status>
    ensures words { IfOk given (λ words. result ≡ Ok words) }
    ensures memory { IfErr given (λ error. error_kind error ≡ ErrorKind.OutOfMemory → result ≡ Err Status.NoMemory) }
    ensures other { IfErr given (λ error. error_kind error ≢ ErrorKind.OutOfMemory → result ≡ Err Status.NoForm) }
{
    match given {
        Ok(words) => Ok(words),
        Err(error) if error.kind() == ErrorKind::OutOfMemory => Err(Status::NoMemory),
        Err(_) => Err(Status::NoForm),
    }
}

/// The variable by which a program is told to log, and what it has to be.
const LOG: (&str, &str) = ("HAURPIKO_LOG", "1");

/// Whether the environment asks for a line about each request.
pub fn is_logged<R: Env + AllocGlobal>(rt: &R) -> bool {
    let (name, yes) = LOG;
    match env::var(rt, name) {
        Ok(value) => value.as_str() == yes,
        Err(_) => false,
    }
}
