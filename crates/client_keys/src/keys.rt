// The keys of clients, as files.
ghost use Rattle.std.specs.Prelude.{◌≡◌};

use crate::key_file::{FILE_BYTES, KEY_BYTES, key_in};
use std::alloc::{AllocError, AllocFailed, Global};
use std::env::{self, VarError};
use std::fs::{self, File, Files, Metadata};
use std::io::{self, ErrorKind, Read};
use std::os::unix::fs::MetadataExt;
use std::rt::Env;
use thiserror::Error;
use wire_frames::CLIENTS;

/// Names the file with the key of a client.
const KEY: &str = "HAURPIKO_KEY";

/// Names the folder with the keys of all.
const KEYS: &str = "HAURPIKO_KEYS";

/// The rights of others than its owner. The file of a key gives none of them.
const OF_OTHERS: u32 = 0o077;

/// What has the user of this process as its owner.
const SELF: &str = "/proc/self";

/// The number of the user who may do everything.
const ROOT: u32 = 0;

/// How many bytes of a file are read: one more than a key has, so that a longer one is seen.
const MOST_READ: u64 = FILE_BYTES as u64 + 1;

/// Why a file gives no key.
#[derive(Debug, Drop, Error)]
pub enum KeyFault {
    /// Its owner is neither the user of this process nor root.
    #[error("it belongs to another user")]
    Foreign,
    /// Others than its owner have rights.
    #[error("others than its owner may read it")]
    Shared,
    /// It has another form.
    #[error("it is no key of 64 hexadecimal digits and a line end")]
    OtherForm,
    /// The folder has no key.
    #[error("it has no file N.key of a client, 1 to 64")]
    NoKeys,
    /// The platform refused it.
    #[error("{0}")]
    Platform(io::Error),
}

/// Why there are no keys where the environment names some.
#[derive(Debug, Drop, Error)]
pub enum KeysError {
    /// Memory ran out.
    #[error("out of memory")]
    Memory,
    /// The variable of a client is empty, or no text.
    #[error("HAURPIKO_KEY names no file")]
    NoFile,
    /// The variable of a server or a surrogate is empty, or no text.
    #[error("HAURPIKO_KEYS names no folder")]
    NoFolder,
    /// The file or the folder of this name gives none.
    #[error("{name}: {fault}")]
    Faulty { name: String, fault: KeyFault },
}

impl From<AllocError> for KeysError {
    ghost use Rattle.client_keys.specs.declared.keys.KeysError.TheVariants.{Memory};

    ghost from_gives = { λ _ error. error ≡ Memory };

    fn from(_: AllocError) -> KeysError {
        KeysError::Memory
    }
}

impl<T: Drop> From<AllocFailed<T>> for KeysError {
    ghost use Rattle.client_keys.specs.declared.keys.KeysError.TheVariants.{Memory};

    ghost from_gives = { λ _ error. error ≡ Memory };

    fn from(_: AllocFailed<T>) -> KeysError {
        KeysError::Memory
    }
}

/// The keys of clients, and the files that they stand in.
#[derive(Drop)]
pub struct Keys {
    /// At its place N the key of client N, where there is one.
    by_client: Vec<Option<[u8; KEY_BYTES]>>,
    files: Vec<String>,
}

impl Keys {
    /// The key of this client alone, where the environment names its file.
    ///
    /// # Errors
    ///
    /// `NoFile` where the variable is empty, `Faulty` where the file gives no key, and want of memory.
    pub fn of_client<R: Env + Files<File = File> + AllocGlobal>(
        host: &R,
        client: u8,
    ) -> Result<Option<Keys>, KeysError> {
        let Some(name) = named(host, KEY, KeysError::NoFile)? else {
            return Ok(None);
        };
        let mut keys = Keys::none(host.alloc())?;
        match keys.read(host, client, name) {
            Ok(()) => Ok(Some(keys)),
            Err(refused) => {
                drop(keys);
                Err(refused)
            }
        }
    }

    /// The keys of all clients, where the environment names their folder. A client without a file there has none.
    ///
    /// # Errors
    ///
    /// `NoFolder` where the variable is empty, `Faulty` where a file there gives no key or there is none at all, and want of memory.
    pub fn of_all<R: Env + Files<File = File> + AllocGlobal>(
        host: &R,
    ) -> Result<Option<Keys>, KeysError> {
        let Some(folder) = named(host, KEYS, KeysError::NoFolder)? else {
            return Ok(None);
        };
        let mut keys = Keys::none(host.alloc())?;
        match keys.read_all(host, folder.as_str()) {
            Ok(()) if keys.files.is_empty() => {
                drop(keys);
                let fault = no_keys(host, folder.as_str());
                Err(KeysError::Faulty {
                    name: folder,
                    fault,
                })
            }
            Ok(()) => {
                drop(folder);
                Ok(Some(keys))
            }
            Err(refused) => {
                drop(folder);
                drop(keys);
                Err(refused)
            }
        }
    }

    /// No key of any client.
    fn none(alloc: Global) -> Result<Keys, AllocError> {
        let mut by_client = Vec::new(alloc);
        for _ in 0..=CLIENTS {
            by_client.push(None)?;
        }
        Ok(Keys {
            by_client,
            files: Vec::new(alloc),
        })
    }

    /// The keys: at its place N the list has that of client N.
    pub fn as_slice(&self) -> &[Option<[u8; KEY_BYTES]>] {
        self.by_client.as_slice()
    }

    /// The names of the files that they stand in.
    ///
    /// # Errors
    ///
    /// Want of memory.
    pub fn files(&self, alloc: Global) -> Result<Vec<String>, AllocError> {
        let mut files = Vec::new(alloc);
        for file in &self.files {
            files.push(String::from_str(alloc, file.as_str())?)?;
        }
        Ok(files)
    }

    /// Reads the key of each client that has a file in this folder.
    fn read_all<R: Files<File = File> + AllocGlobal>(
        &mut self,
        host: &R,
        folder: &str,
    ) -> Result<(), KeysError> {
        for client in 1..=CLIENTS {
            let name = format!(in host.alloc(); "{folder}/{client}.key")?;
            if stands(host, name.as_str()) {
                self.read(host, client, name)?;
            } else {
                drop(name);
            }
        }
        Ok(())
    }

    /// Reads the key of this client from the file of this name.
    fn read<R: Files<File = File> + AllocGlobal>(
        &mut self,
        host: &R,
        client: u8,
        name: String,
    ) -> Result<(), KeysError> {
        match key_of_file(host, name.as_str()) {
            Ok(key) => {
                if let Some(place) = self.by_client.get_mut(client as usize) {
                    *place = Some(key);
                }
                Ok(self.files.push(name)?)
            }
            Err(fault) => Err(KeysError::Faulty { name, fault }),
        }
    }
}

/// The keys, as links and ports take them.
pub fn sealing(keys: &Option<Keys>) -> Option<&[Option<[u8; KEY_BYTES]>]> {
    match keys {
        Some(keys) => Some(keys.as_slice()),
        None => None,
    }
}

/// What the variable names, where it is set.
fn named<R: Env + AllocGlobal>(
    host: &R,
    variable: &str,
    nothing: KeysError,
) -> Result<Option<String>, KeysError> {
    match env::var(host, variable) {
        Ok(name) if name.as_str().is_empty() => {
            drop(name);
            Err(nothing)
        }
        Ok(name) => Ok(Some(name)),
        Err(VarError::NotPresent) => Ok(None),
        Err(VarError::NotUnicode) => Err(nothing),
        Err(VarError::OutOfMemory) => Err(KeysError::Memory),
    }
}

/// Whether something stands at this name, or may: what the platform does not tell is looked at when it is read.
fn stands<R: Files>(host: &R, name: &str) -> bool {
    match fs::symlink_metadata(host, name) {
        Ok(_) => true,
        Err(error) => !matches!(error.kind(), ErrorKind::NotFound | ErrorKind::NotADirectory),
    }
}

/// Why a folder without a key gives none.
fn no_keys<R: Files>(host: &R, folder: &str) -> KeyFault {
    match fs::metadata(host, folder) {
        Ok(seen) if seen.is_dir() => KeyFault::NoKeys,
        Ok(_) => KeyFault::Platform(io::Error::from(ErrorKind::NotADirectory)),
        Err(error) => KeyFault::Platform(error),
    }
}

/// The key in the file of this name. What is no file is not opened, so that nothing is waited for. Who may read it is looked at once it is
/// open, so that it is the file that is read.
fn key_of_file<R: Files<File = File> + AllocGlobal>(
    host: &R,
    name: &str,
) -> Result<[u8; KEY_BYTES], KeyFault> {
    let user = fs::metadata(host, SELF).map_err(KeyFault::Platform)?.uid();
    let named = fs::metadata(host, name).map_err(KeyFault::Platform)?;
    if !named.is_file() {
        return Err(KeyFault::OtherForm);
    }
    let file = File::open(host, name).map_err(KeyFault::Platform)?;
    if let Some(fault) = fault_of(&file.metadata().map_err(KeyFault::Platform)?, user) {
        return Err(fault);
    }
    let mut text = Vec::new(host.alloc());
    let read = file.take(MOST_READ).read_to_end(&mut text);
    let key = key_in(&text);
    drop(text);
    match (read, key) {
        (Err(error), _) => Err(KeyFault::Platform(error)),
        (Ok(_), None) => Err(KeyFault::OtherForm),
        (Ok(_), Some(key)) => Ok(key),
    }
}

/// Why this user does not take a key from the file, where they do not.
fn fault_of(seen: &Metadata, user: u32) -> Option<KeyFault> {
    if !seen.is_file() {
        return Some(KeyFault::OtherForm);
    }
    if seen.uid() != user && seen.uid() != ROOT {
        return Some(KeyFault::Foreign);
    }
    if seen.mode() & OF_OTHERS != 0 {
        return Some(KeyFault::Shared);
    }
    None
}
