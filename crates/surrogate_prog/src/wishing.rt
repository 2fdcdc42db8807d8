// What the environment says of the programs that are run, and of who may have them run.
ghost use Rattle.std.specs.Prelude.{◌≢◌, IsTrue};
ghost use Rattle.std.specs.Process.{exit_status};
ghost use Rattle.surrogate_prog.specs.Run.{is_surrogate_exit};

use crate::program::NAME;
use child_runner::{ApartWish, WishError};
use client_keys::{Keys, KeysError, OpenError, is_loopback, may_be_open};
use program_words::{Status, end_plainly};
use std::alloc::{AllocError, AllocGlobal, Global};
use std::fs::{File, Files};
use std::io::Eprint;
use std::process::ExitCode;
use std::rt::Env;
use thiserror::Error;

/// What the environment says.
#[derive(Drop)]
pub(crate) struct Wishes {
    pub(crate) apart: ApartWish,
    pub(crate) keys: Option<Keys>,
    /// The files of the keys, which are empty for programs that run apart from files.
    pub(crate) hidden: Vec<String>,
}

/// Why it says nothing that can be followed.
#[derive(Debug, Drop, Error)]
pub(crate) enum Unwished {
    /// What it says of programs.
    #[error("{0}")]
    Apart(WishError),
    /// The keys that it names.
    #[error("no keys: {0}")]
    Keys(KeysError),
    /// What it says of who reaches a surrogate without keys.
    #[error("{0}")]
    Open(OpenError),
    /// It names no keys, and the surrogate would be reached from elsewhere than its machine.
    #[error("no keys: whoever reaches {0} could run programs here: give HAURPIKO_KEYS=FOLDER, or HAURPIKO_OPEN=1")]
    Reached(String),
    /// Memory ran out.
    #[error("out of memory")]
    Memory,
}

impl Wishes {
    /// What it says to a surrogate that listens at this address. Where it is reached from elsewhere and nobody needs a key, and the
    /// environment lets that be, this is told.
    pub(crate) fn read<R: Env + Eprint + Files<File = File> + AllocGlobal>(
        rt: &R,
        address: &str,
    ) -> Result<Wishes, Unwished> {
        let is_open = may_be_open(rt).map_err(Unwished::Open)?;
        let keys = Keys::of_all(rt).map_err(Unwished::Keys)?;
        if keys.is_none() && !is_loopback(address) {
            if !is_open {
                return Err(reached(rt.alloc(), address));
            }
            let _ = eprintln!(rt; "{NAME}: no keys: whoever reaches {address} runs programs here");
        }
        let Ok(hidden) = key_files(rt.alloc(), &keys) else {
            drop(keys);
            return Err(Unwished::Memory);
        };
        match ApartWish::read(rt, true) {
            Ok(apart) => Ok(Wishes {
                apart,
                keys,
                hidden,
            }),
            Err(refused) => {
                drop(hidden);
                drop(keys);
                Err(Unwished::Apart(refused))
            }
        }
    }
}

/// The files of the keys.
fn key_files(alloc: Global, keys: &Option<Keys>) -> Result<Vec<String>, AllocError> {
    match keys {
        Some(keys) => keys.files(alloc),
        None => Ok(Vec::new(alloc)),
    }
}

/// That a surrogate without keys would be reached from elsewhere.
fn reached(alloc: Global, address: &str) -> Unwished {
    match String::from_str(alloc, address) {
        Ok(address) => Unwished::Reached(address),
        Err(_) => Unwished::Memory,
    }
}

/// Whether memory ran out.
fn is_memory(refused: &Unwished) -> bool {
    matches!(
        refused,
        Unwished::Apart(WishError::Memory)
            | Unwished::Keys(KeysError::Memory)
            | Unwished::Open(OpenError::Memory)
            | Unwished::Memory
    )
}

/// Ends the program with status 1, and says why; or by want of memory.
pub(crate) fn end_unwished<R: Eprint>(rt: &R, refused: Unwished) -> ExitCode
    ensures form { exit_status result ≢ 2 }
    ensures known { IsTrue (is_surrogate_exit (exit_status result)) }
{
    if is_memory(&refused) {
        drop(refused);
        return end_plainly(rt, NAME, Status::NoMemory);
    }
    let _ = eprintln!(rt; "{NAME}: {refused}");
    drop(refused);
    ExitCode::from(Status::CannotListen.code())
}
