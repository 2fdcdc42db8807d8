//! Why an operation is not carried out.

use std::alloc::AllocError;
use vol_tree::{Path, TreeError, TryCopy};

/// Why an operation is not carried out.
#[derive(Debug, Drop)]
pub enum Cause {
    /// The operation's job has another print than the one that is found.
    OtherJob { logged: [u8; 32], found: [u8; 32] },
    /// There is no such job: its folder is missing (code 1, and index 0), or the input with this index (code 2).
    NoJob { code: u8, index: u32 },
    /// The server was not reached.
    NoServer,
    /// The command could not be run.
    NotRun,
    /// The command ended with another status.
    Status { logged: u8, replayed: u8 },
    /// The command left a row with this index that no tree has.
    OddTree(u32),
    /// What the command left at the path is not what the operation has.
    Mismatch(Path),
    /// An effect of the operation touches a path that stands otherwise in the copy.
    Clash(Path),
    /// Effect `index`, counted from 0, is refused by the copy.
    NotFit { index: u32, fault: TreeError },
    /// The server refused the store with a reply of this kind.
    Refused(u8),
    /// Memory ran out.
    NoMemory,
}

impl TryCopy for Cause {
    fn copy(&self) -> Result<Cause, AllocError> {
        match self {
            Cause::OtherJob { logged, found } => Ok(Cause::OtherJob {
                logged: *logged,
                found: *found,
            }),
            Cause::NoJob { code, index } => Ok(Cause::NoJob {
                code: *code,
                index: *index,
            }),
            Cause::NoServer => Ok(Cause::NoServer),
            Cause::NotRun => Ok(Cause::NotRun),
            Cause::Status { logged, replayed } => Ok(Cause::Status {
                logged: *logged,
                replayed: *replayed,
            }),
            Cause::OddTree(index) => Ok(Cause::OddTree(*index)),
            Cause::Mismatch(path) => Ok(Cause::Mismatch(path.copy()?)),
            Cause::Clash(path) => Ok(Cause::Clash(path.copy()?)),
            Cause::NotFit { index, fault } => Ok(Cause::NotFit {
                index: *index,
                fault: fault.copy()?,
            }),
            Cause::Refused(kind) => Ok(Cause::Refused(*kind)),
            Cause::NoMemory => Ok(Cause::NoMemory),
        }
    }
}
