// Why something was not done on this machine.
use std::alloc::{AllocError, AllocFailed, Global};
use std::io::{self, ErrorKind};
use std::time::Duration;
use thiserror::Error;

/// Why something was not done on this machine.
#[derive(Debug, Drop, Error)]
pub enum HostTrouble {
    /// Memory ran out.
    #[error("out of memory")]
    Memory,
    /// The system refused what was to be done with what has this name.
    #[error("cannot {doing} {name}: {error}")]
    Refused {
        doing: &'static str,
        name: String,
        error: io::Error,
    },
    /// What has this name is not as it has to be.
    #[error("{name:?} {is}")]
    Odd {
        name: String,
        is: &'static str,
    },
    /// Something else is not as it has to be.
    #[error("{0}")]
    Told(&'static str),
    /// It took longer than it may.
    #[error("{what} longer than {} s", .longest.as_secs())]
    Long {
        what: &'static str,
        longest: Duration,
    },
}

impl From<AllocError> for HostTrouble {
    ghost use Rattle.std.specs.Prelude.{◌≡◌};
    ghost use Rattle.folder_reading.specs.declared.trouble.HostTrouble.TheVariants.{Memory};

    ghost from_gives = { λ _ trouble. trouble ≡ Memory };

    fn from(_: AllocError) -> HostTrouble {
        HostTrouble::Memory
    }
}

impl<T: Drop> From<AllocFailed<T>> for HostTrouble {
    ghost use Rattle.std.specs.Prelude.{◌≡◌};
    ghost use Rattle.folder_reading.specs.declared.trouble.HostTrouble.TheVariants.{Memory};

    ghost from_gives = { λ _ trouble. trouble ≡ Memory };

    fn from(_: AllocFailed<T>) -> HostTrouble {
        HostTrouble::Memory
    }
}

/// The system refused what was to be done with what has this name.
pub fn refused(alloc: Global, doing: &'static str, name: &str, error: io::Error) -> HostTrouble {
    if error.kind() == ErrorKind::OutOfMemory {
        drop(error);
        return HostTrouble::Memory;
    }
    match String::from_str(alloc, name) {
        Ok(name) => HostTrouble::Refused { doing, name, error },
        Err(_) => {
            drop(error);
            HostTrouble::Memory
        }
    }
}

/// What has this name is not as it has to be.
pub fn odd(alloc: Global, name: &str, is: &'static str) -> HostTrouble {
    match String::from_str(alloc, name) {
        Ok(name) => HostTrouble::Odd { name, is },
        Err(_) => HostTrouble::Memory,
    }
}

/// What the system answered to what was to be done with what has this name.
pub fn answered<T>(
    alloc: Global,
    doing: &'static str,
    name: &str,
    answer: io::Result<T>,
) -> Result<T, HostTrouble> {
    match answer {
        Ok(value) => Ok(value),
        Err(error) => Err(refused(alloc, doing, name, error)),
    }
}
