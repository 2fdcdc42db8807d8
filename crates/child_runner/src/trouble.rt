// Why a job is not run, and how often that was so.
ghost use Rattle.std.specs.Prelude.{◌≡◌, ◌≤◌};
ghost use Rattle.outside.specs.Outside.{raised};

pub(crate) use folder_reading::{HostTrouble as RunTrouble, answered, odd, refused};

/// Counts one more. The count stands still at the end of its type.
pub(crate) fn count(many: &mut u64)
    ensures raised { many.new ≡ raised 1 many.old }
    ensures later { many.old ≤ many.new }
{
    *many = many.saturating_add(1);
}
