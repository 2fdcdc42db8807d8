// What the calls of the outside answer where they fail.
ghost use Rattle.std.specs.Prelude.{◌≡◌};
ghost use Rattle.outside.specs.declared.errors.SinkError.TheVariants.{Memory};
ghost use Rattle.outside.specs.declared.errors.PortError.TheVariants as ports;
ghost use Rattle.outside.specs.declared.errors.KeepError.TheVariants as keeps;

use std::alloc::AllocError;
use thiserror::Error;

/// A call of the outside failed.
#[derive(Clone, Copy, Debug, PartialEq, Eq, Error)]
#[error("the outside failed")]
pub struct Failed;

/// Why a write added nothing.
#[derive(Clone, Copy, Debug, PartialEq, Eq, Error)]
pub enum SinkError {
    /// The sink failed, and counted it.
    #[error("the write failed")]
    Failed,
    /// Memory ran out.
    #[error("out of memory")]
    Memory,
}

impl From<AllocError> for SinkError {
    ghost from_gives = { λ _ e. e ≡ Memory };

    fn from(_: AllocError) -> Self {
        SinkError::Memory
    }
}

/// Why a call of a port took or answered nothing.
#[derive(Clone, Copy, Debug, PartialEq, Eq, Error)]
pub enum PortError {
    /// The port failed, and counted it.
    #[error("the connection failed")]
    Failed,
    /// Memory ran out.
    #[error("out of memory")]
    Memory,
}

impl From<AllocError> for PortError {
    ghost from_gives = { λ _ e. e ≡ ports.Memory };

    fn from(_: AllocError) -> Self {
        PortError::Memory
    }
}

/// Why a call of a keeper gave or kept nothing.
#[derive(Clone, Copy, Debug, PartialEq, Eq, Error)]
pub enum KeepError {
    /// The keeper failed, and counted it.
    #[error("the keeper failed")]
    Failed,
    /// Memory ran out.
    #[error("out of memory")]
    Memory,
}

impl From<AllocError> for KeepError {
    ghost from_gives = { λ _ e. e ≡ keeps.Memory };

    fn from(_: AllocError) -> Self {
        KeepError::Memory
    }
}
