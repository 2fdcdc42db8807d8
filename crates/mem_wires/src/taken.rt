// An entry that the server took, and those of a store that it may take.
ghost use Rattle.std.specs.Prelude.{◌≡◌, ◌+◌, ◌≤◌, ◌++◌, length, take, IfOk, OnOk};
ghost use Rattle.world_rules.specs.Served.{TakenEntry, entry_stored};
ghost use Rattle.mem_wires.specs.Underway.{entries_above};

use std::alloc::AllocError;
use std::marker::Model;
use vol_tree::TryCopy;
use wire_frames::Part;

/// An entry that the server took. Contracts see it as the world lists it.
#[derive(Drop)]
pub(crate) struct ListedEntry {
    client: u8,
    number: u64,
    part: Part,
}

impl Model for ListedEntry {
    ghost Value = { TakenEntry };

    ghost view = { λ taken. entry_stored taken.client taken.number taken.part.effects taken.part.base };
}

impl ListedEntry {
    /// A copy of the client's entry of this number.
    fn of(client: u8, number: u64, part: &Part) -> Result<ListedEntry, AllocError>
        ensures { IfOk result (λ taken. taken ≡ entry_stored client number part.now.effects part.now.base) }
    {
        let part = part.copy()?;
        Ok(ListedEntry {
            client,
            number,
            part,
        })
    }
}

/// Copies of the client's entries, numbered on from this number, that are above another join these.
pub(crate) fn note_above(
    taken: &mut Vec<ListedEntry>,
    client: u8,
    number: u64,
    entries: &[Part],
    last: u64,
) -> Result<(), AllocError>
    requires { number + length entries.now ≤ 18446744073709551616 }
    ensures ok { OnOk result (taken.new.items ≡ taken.old.items ++ entries_above client number entries.now last) }
    ensures front { take (length taken.old.items) taken.new.items ≡ taken.old.items }
{
    let mut at = number;
    for entry in entries {
        if at > last {
            let copy = ListedEntry::of(client, at, entry)?;
            taken.push(copy)?;
        }
        at = at.saturating_add(1);
    }
    Ok(())
}
