// What the environment says of the programs that are run.
use std::alloc::{AllocError, AllocFailed, Global};
use std::env::{self, VarError};
use std::fs::{self, Files};
use std::rt::Env;
use thiserror::Error;

/// Says whether programs are kept apart: 0 or 1.
const APART: &str = "HAURPIKO_APART";

/// Names the folders that programs see which are kept apart, joined by a colon.
const SHOW: &str = "HAURPIKO_SHOW";

/// What stands between two folders.
const JOINT: char = ':';

/// What the environment says of the programs that are run.
#[derive(Debug, Drop)]
pub struct ApartWish {
    /// Whether they are kept apart from other processes, from the network and from files, as far as the system lets them.
    pub is_wanted: bool,
    /// The folders that they see all the same, without links.
    pub shown: Vec<String>,
}

/// Why it says nothing that can be followed.
#[derive(Debug, Drop, Error)]
pub enum WishError {
    /// Memory ran out.
    #[error("out of memory")]
    Memory,
    /// What says whether programs are kept apart has another value.
    #[error("HAURPIKO_APART is neither 0 nor 1")]
    Apart,
    /// What names the folders is no text.
    #[error("HAURPIKO_SHOW is no text")]
    Text,
    /// What is named is no folder.
    #[error("HAURPIKO_SHOW names {0:?}, which is no folder from the root")]
    Folder(String),
}

impl From<AllocError> for WishError {
    ghost use Rattle.std.specs.Prelude.{◌≡◌};
    ghost use Rattle.programs_apart.specs.declared.wishes.WishError.TheVariants.{Memory};

    ghost from_gives = { λ _ error. error ≡ Memory };

    fn from(_: AllocError) -> WishError {
        WishError::Memory
    }
}

impl<T: Drop> From<AllocFailed<T>> for WishError {
    ghost use Rattle.std.specs.Prelude.{◌≡◌};
    ghost use Rattle.programs_apart.specs.declared.wishes.WishError.TheVariants.{Memory};

    ghost from_gives = { λ _ error. error ≡ Memory };

    fn from(_: AllocFailed<T>) -> WishError {
        WishError::Memory
    }
}

impl ApartWish {
    /// Programs are not kept apart.
    pub fn none(alloc: Global) -> ApartWish {
        ApartWish {
            is_wanted: false,
            shown: Vec::new(alloc),
        }
    }

    /// Reads both variables. Where the first is not set programs are kept apart if that `is_usual`. Nothing is opened.
    pub fn read<R: Env + Files + AllocGlobal>(
        host: &R,
        is_usual: bool,
    ) -> Result<ApartWish, WishError> {
        let is_wanted = match value_of(host, APART, WishError::Apart)? {
            Some(value) => said(value.as_str())?,
            None => is_usual,
        };
        let shown = match value_of(host, SHOW, WishError::Text)? {
            Some(folders) => folders_of(host, folders.as_str())?,
            None => Vec::new(host.alloc()),
        };
        Ok(ApartWish { is_wanted, shown })
    }
}

/// The value of the variable, where it is set.
fn value_of<R: Env + AllocGlobal>(
    host: &R,
    name: &str,
    no_text: WishError,
) -> Result<Option<String>, WishError> {
    match env::var(host, name) {
        Ok(value) => Ok(Some(value)),
        Err(VarError::NotPresent) => Ok(None),
        Err(VarError::NotUnicode) => Err(no_text),
        Err(VarError::OutOfMemory) => Err(WishError::Memory),
    }
}

fn said(value: &str) -> Result<bool, WishError> {
    match value {
        "0" => Ok(false),
        "1" => Ok(true),
        _ => Err(WishError::Apart),
    }
}

/// The folders that are named, without links. An empty text names none.
fn folders_of<R: Files + AllocGlobal>(host: &R, folders: &str) -> Result<Vec<String>, WishError> {
    let mut all = Vec::new(host.alloc());
    if folders.is_empty() {
        return Ok(all);
    }
    for folder in folders.split(JOINT) {
        all.push(folder_at(host, folder)?)?;
    }
    Ok(all)
}

fn folder_at<R: Files + AllocGlobal>(host: &R, folder: &str) -> Result<String, WishError> {
    if folder.starts_with('/') && is_folder(host, folder) {
        if let Ok(real) = fs::canonicalize(host, folder) {
            return Ok(real.into_string());
        }
    }
    Err(WishError::Folder(String::from_str(host.alloc(), folder)?))
}

fn is_folder<R: Files>(host: &R, place: &str) -> bool {
    match fs::metadata(host, place) {
        Ok(seen) => seen.is_dir(),
        Err(error) => {
            drop(error);
            false
        }
    }
}
