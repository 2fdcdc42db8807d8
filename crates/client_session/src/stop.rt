// What stops a line.
ghost use Rattle.client_session.specs.Stops.{line_stop_of};
ghost use Rattle.std.specs.Prelude.{◌≡◌};

use outside::KeepError;
use std::alloc::AllocError;

/// What stops a line before its answer.
#[derive(Clone, Copy, Debug, PartialEq, Eq)]
pub enum LineStop {
    /// The keeper failed.
    Keeper,
    /// Memory ran out.
    Memory,
}

impl From<KeepError> for LineStop {
    ghost from_gives = { λ refused stop. stop ≡ line_stop_of refused };

    fn from(refused: KeepError) -> LineStop {
        match refused {
            KeepError::Failed => LineStop::Keeper,
            KeepError::Memory => LineStop::Memory,
        }
    }
}

impl From<AllocError> for LineStop {
    ghost use Rattle.client_session.specs.declared.stop.LineStop.TheVariants.{Memory};

    ghost from_gives = { λ _ stop. stop ≡ Memory };

    fn from(_: AllocError) -> LineStop {
        LineStop::Memory
    }
}
