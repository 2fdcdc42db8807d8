// Counts of calls that failed.
ghost use Rattle.std.specs.Prelude.{◌≡◌, ◌≤◌};
ghost use Rattle.outside.specs.Outside.{raised};

/// Counts a call that failed. The count stands still at the end of its type.
pub(crate) fn count_fault(faults: &mut u64)
    ensures raised { faults.new ≡ raised 1 faults.old }
    ensures later { faults.old ≤ faults.new }
{
    *faults = faults.saturating_add(1);
}
