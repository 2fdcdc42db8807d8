// How a shelving ends, and what stops one.
ghost use Rattle.std.specs.Prelude.{◌≡◌};
ghost use Rattle.program_words.specs.Status.{code};
ghost use Rattle.client_shelf.specs.Inside.{status_of_stop};

use client_lines::Unopened;
use conflict_shelf::ShelvedList;
use mod_log::LogError;
use outside::{KeepError, SinkError};
use program_words::Status;
use std::alloc::AllocError;
use vol_tree::{Path, PathError};

/// How a shelving ends. Before `Unlogged` nothing is kept that was not before.
#[derive(Debug, Drop)]
pub enum Ending {
    /// Nothing is kept of the client.
    NoImage,
    /// What is kept under the name of the new image is not of the new client, or of one that has logged something.
    NewImage,
    /// Why the folder's text is no path.
    BadFolder(PathError),
    /// No entry of the client is pending.
    NothingPending,
    /// Why the first path of the shelf that is none is none.
    BadPlace(PathError),
    /// The server did not answer the pull.
    Unanswered,
    /// The server has this last number of the new client, which has logged nothing.
    OtherLast(u64),
    /// The first path at which the server told a lower version than the new client's.
    Older { path: Path, theirs: u64, ours: u64 },
    /// The log refuses an entry of the shelf.
    Unlogged(LogError),
    /// So many pending entries were set aside, and these contents.
    Shelved { entries: u32, names: ShelvedList },
}

/// What stops a shelving before its end, or before its end is told.
#[derive(Clone, Copy, Debug, PartialEq, Eq)]
pub(crate) enum ShelvingStop {
    /// The sink failed.
    Sink,
    /// The keeper failed.
    Keeper,
    /// What is kept of the client is another's, or no image.
    Image,
    /// Memory ran out.
    Memory,
}

impl From<AllocError> for ShelvingStop {
    ghost use Rattle.std.specs.Prelude.{◌≡◌};
    ghost use Rattle.client_shelf.specs.declared.ends.ShelvingStop.TheVariants.{Memory};

    ghost from_gives = { λ _ stop. stop ≡ Memory };

    fn from(_: AllocError) -> ShelvingStop {
        ShelvingStop::Memory
    }
}

impl From<Unopened> for ShelvingStop {
    ghost use Rattle.std.specs.Prelude.{◌≡◌};
    ghost use Rattle.client_shelf.specs.Inside.{stop_unopened};

    ghost from_gives = { λ unopened stop. stop ≡ stop_unopened unopened };

    fn from(unopened: Unopened) -> ShelvingStop {
        match unopened {
            Unopened::Keeper => ShelvingStop::Keeper,
            Unopened::Image => ShelvingStop::Image,
            Unopened::Memory => ShelvingStop::Memory,
        }
    }
}

impl From<SinkError> for ShelvingStop {
    ghost use Rattle.std.specs.Prelude.{◌≡◌};
    ghost use Rattle.client_shelf.specs.Inside.{shelving_stop_of};

    ghost from_gives = { λ refused stop. stop ≡ shelving_stop_of refused };

    fn from(refused: SinkError) -> ShelvingStop {
        match refused {
            SinkError::Failed => ShelvingStop::Sink,
            SinkError::Memory => ShelvingStop::Memory,
        }
    }
}

impl From<KeepError> for ShelvingStop {
    ghost use Rattle.std.specs.Prelude.{◌≡◌};
    ghost use Rattle.client_shelf.specs.Inside.{shelving_stop_by};

    ghost from_gives = { λ refused stop. stop ≡ shelving_stop_by refused };

    fn from(refused: KeepError) -> ShelvingStop {
        match refused {
            KeepError::Failed => ShelvingStop::Keeper,
            KeepError::Memory => ShelvingStop::Memory,
        }
    }
}

/// The status of a shelving that was stopped so.
pub(crate) fn status_of_stop(stop: ShelvingStop) -> Status
    ensures { code result ≡ status_of_stop stop }
{
    match stop {
        ShelvingStop::Sink => Status::SinkFailed,
        ShelvingStop::Keeper => Status::KeeperFailed,
        ShelvingStop::Image => Status::OtherImage,
        ShelvingStop::Memory => Status::NoMemory,
    }
}
