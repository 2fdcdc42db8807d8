// What the environment says of the programs that are run, and of the client's key.
ghost use Rattle.std.specs.Prelude.{◌≢◌, IsTrue};
ghost use Rattle.std.specs.Process.{exit_status};
ghost use Rattle.client_prog.specs.Ending.{is_exit};

use crate::program::NAME;
use crate::words::{Form, form_of};
use child_runner::{ApartWish, ChildRunner, WishError};
use client_keys::{Keys, KeysError};
use program_words::{Status, end_plainly};
use std::alloc::{AllocError, AllocGlobal, Global};
use std::fs::{File, Files};
use std::io::Eprint;
use std::mem;
use std::process::{ExitCode, Processes};
use std::rt::Env;
use std::time::Clock;
use thiserror::Error;

/// What the environment says.
#[derive(Drop)]
pub(crate) struct Wishes {
    pub(crate) apart: ApartWish,
    pub(crate) keys: Option<Keys>,
    /// The client's own files, which are empty for programs that run apart.
    hidden: Vec<String>,
}

/// Why it says nothing that can be followed.
#[derive(Debug, Drop, Error)]
pub(crate) enum Unwished {
    /// What it says of programs.
    #[error("{0}")]
    Apart(WishError),
    /// The key that it names.
    #[error("no key: {0}")]
    Keys(KeysError),
    /// Memory ran out.
    #[error("out of memory")]
    Memory,
}

impl Wishes {
    /// It says nothing.
    pub(crate) fn none(alloc: Global) -> Wishes {
        Wishes {
            apart: ApartWish::none(alloc),
            keys: None,
            hidden: Vec::new(alloc),
        }
    }

    /// What it says to a client of these words.
    pub(crate) fn read<R: Env + Files<File = File> + AllocGlobal>(
        rt: &R,
        words: &[String],
    ) -> Result<Wishes, Unwished> {
        let keys = match sealing_client(words) {
            Some(client) => Keys::of_client(rt, client).map_err(Unwished::Keys)?,
            None => None,
        };
        let Ok(hidden) = own_files(rt.alloc(), words, &keys) else {
            drop(keys);
            return Err(Unwished::Memory);
        };
        match ApartWish::read(rt, false) {
            Ok(apart) => Ok(Wishes {
                apart,
                keys,
                hidden,
            }),
            Err(refused) => {
                drop(hidden);
                drop(keys);
                Err(Unwished::Apart(refused))
            }
        }
    }
}

/// The client in whose name these words ask, where they ask.
fn sealing_client(words: &[String]) -> Option<u8> {
    match form_of(words) {
        Some(Form::Run(run)) => Some(run.client),
        Some(Form::Shelve(asked)) => Some(asked.new_client),
        Some(Form::Drill(_) | Form::Check(_)) | None => None,
    }
}

/// Whether memory ran out.
fn is_memory(refused: &Unwished) -> bool {
    matches!(
        refused,
        Unwished::Apart(WishError::Memory) | Unwished::Keys(KeysError::Memory) | Unwished::Memory
    )
}

/// Ends the program with status 1, and says why; or by want of memory.
pub(crate) fn end_unwished<R: Eprint>(rt: &R, refused: Unwished) -> ExitCode
    ensures form { exit_status result ≢ 2 }
    ensures known { IsTrue (is_exit (exit_status result)) }
{
    if is_memory(&refused) {
        drop(refused);
        return end_plainly(rt, NAME, Status::NoMemory);
    }
    let _ = eprintln!(rt; "{NAME}: {refused}");
    drop(refused);
    ExitCode::from(Status::CannotListen.code())
}

/// Removes what runs left in the work folder of these words; where that fails, it stays. Where the wish asks for it, programs are kept
/// apart: also from the image and the key.
pub(crate) fn prepare_work<R: AllocGlobal + Files<File = File> + Processes + Clock + Eprint>(
    alloc: Global,
    runner: &mut ChildRunner<'_, R>,
    words: &[String],
    wishes: &mut Wishes,
) {
    match form_of(words) {
        Some(Form::Run(run)) => {
            let _cleared = runner.clear(run.work);
            if wishes.apart.is_wanted {
                let hidden = mem::replace(&mut wishes.hidden, Vec::new(alloc));
                runner.keep_apart(run.work, &wishes.apart, hidden);
            }
        }
        Some(Form::Drill(_) | Form::Shelve(_) | Form::Check(_)) | None => {}
    }
}

/// The file of the image of these words, where its name is a text, and those of the keys.
fn own_files(
    alloc: Global,
    words: &[String],
    keys: &Option<Keys>,
) -> Result<Vec<String>, AllocError> {
    let mut files = match keys {
        Some(keys) => keys.files(alloc)?,
        None => Vec::new(alloc),
    };
    if let Some(Form::Run(run)) = form_of(words)
        && let Ok(image) = str::from_utf8(run.image)
    {
        files.push(String::from_str(alloc, image)?)?;
    }
    Ok(files)
}
