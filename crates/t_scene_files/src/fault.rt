// Why a line is not followed.

use std::alloc::{AllocError, AllocFailed};

/// Why what a line says is not done.
#[derive(Clone, Copy, Debug)]
pub enum Fault {
    /// The line is none of the language, or not where it stands: what is wrong with it.
    Line(&'static str),
    /// Memory ran out.
    Memory,
}

impl From<AllocError> for Fault {
    fn from(_: AllocError) -> Fault {
        Fault::Memory
    }
}

impl<T: Drop> From<AllocFailed<T>> for Fault {
    fn from(_: AllocFailed<T>) -> Fault {
        Fault::Memory
    }
}
