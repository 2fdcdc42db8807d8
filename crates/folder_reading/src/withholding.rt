// Rows that a program cannot be given, since their paths are no texts: they are told back as they were.
ghost use Rattle.std.specs.Prelude.{◌≡◌, ◌++◌, take, drop, position, IfOk, OnOk};
ghost use Rattle.std.specs.Str.{is_utf8};
ghost use Rattle.file_paths.specs.Path.{path_cmp};
ghost use Rattle.folder_reading.specs.Withheld as rules;

use crate::found::Found;
use crate::texts::is_text;
use crate::trouble::{HostTrouble, odd};
use cmd_capture::{JobRow, RawRow, RawRows};
use file_paths::TryCopy;
use std::alloc::{AllocError, Global};
use std::cmp::Ordering;
use tree_values::Node;

/// The rows that a program is not given.
pub fn withheld(alloc: Global, rows: &[JobRow]) -> Result<RawRows, AllocError>
    ensures { IfOk result (λ withheld. withheld ≡ rules.withheld_of rows.now) }
{
    let mut withheld = RawRows::new(alloc);
    for row in rows {
        withheld.push_found(withheld_row(row)?)?;
    }
    Ok(withheld)
}

/// The row under its text, where that is none of UTF-8.
fn withheld_row(row: &JobRow) -> Result<Option<RawRow>, AllocError>
    ensures { IfOk result (λ found. found ≡ rules.withheld_row row.now) }
{
    let path = row.path.text()?;
    if is_text(path.bytes()) {
        return Ok(None);
    }
    Ok(Some(RawRow {
        path,
        node: row.node.copy()?,
    }))
}

/// How the paths with these texts compare.
fn order_of(one: &[u8], other: &[u8]) -> Ordering
    ensures { result ≡ path_cmp (rules.names_of one.now) (rules.names_of other.now) }
{
    one.split(|b| *b == b'/').cmp(other.split(|b| *b == b'/'))
}

/// Whether the row's path is not below that of the first.
fn is_behind(first: &RawRow, row: &RawRow) -> bool
    ensures { result ≡ rules.is_behind first.now row.now }
{
    !order_of(row.path.bytes(), first.path.bytes()).is_lt()
}

/// The first of the rows that is not below the one that was read.
fn first_behind(read: &RawRow, withheld: &[RawRow]) -> Option<usize>
    ensures { result ≡ position (rules.is_behind read.now) withheld.now }
{
    withheld.iter().position(|row| is_behind(read, row))
}

/// How many of the rows are below the one that was read.
fn count_below(read: &RawRow, withheld: &[RawRow]) -> usize
    ensures { result ≡ rules.count_below read.now withheld.now }
{
    first_behind(read, withheld).unwrap_or(withheld.len())
}

/// Adds the rows that are below the one that was read, and gives the others.
fn add_below<'a>(
    found: &mut Found,
    read: &RawRow,
    withheld: &'a [RawRow],
) -> Result<&'a [RawRow], HostTrouble>
    ensures below { OnOk result (found.new ≡ found.old ++ take (rules.count_below read.now withheld.now) withheld.now) }
    ensures others { IfOk result (λ others. others.now ≡ drop (rules.count_below read.now withheld.now) withheld.now) }
{
    let (below, others) = withheld.split_at(count_below(read, withheld));
    add_all(found, below)?;
    Ok(others)
}

fn add_all(found: &mut Found, rows: &[RawRow]) -> Result<(), HostTrouble>
    ensures { OnOk result (found.new ≡ found.old ++ rows.now) }
{
    for row in rows {
        found.add_row(row)?;
    }
    Ok(())
}

/// The rows that were read with those that were withheld, in path order.
#[tactic(auto, using(crate::proofs::ToldBack::told_turn, crate::proofs::ToldBack::told_end))]
pub(crate) fn told_back(
    alloc: Global,
    read: &[RawRow],
    withheld: &[RawRow],
) -> Result<Found, HostTrouble>
    ensures { IfOk result (λ rows. rows ≡ rules.told_back read.now withheld.now) }
{
    let mut found = Found::new(alloc);
    let mut others = withheld;
    for row in read {
        others = add_below(&mut found, row, others)?;
        found.add_row(row)?;
    }
    add_all(&mut found, others)?;
    Ok(found)
}

/// Refuses the first of the rows whose folder was read, and is none of those that were.
pub(crate) fn check_folders(
    alloc: Global,
    read: &[RawRow],
    withheld: &[RawRow],
) -> Result<(), HostTrouble> {
    let mut last = b"".as_slice();
    for row in withheld {
        let folder = folder_of(row.path.bytes());
        if folder != last && !stands(read, folder) {
            return Err(gone(alloc, row.path.bytes()));
        }
        last = folder;
    }
    Ok(())
}

/// The text of the folder that the path stands in; of the root it is empty.
fn folder_of(path: &[u8]) -> &[u8] {
    match path.iter().rposition(|b| *b == b'/') {
        Some(end) => &path[..end],
        None => b"".as_slice(),
    }
}

/// Whether the folder was read. The root always was; one that is withheld itself is told back.
fn stands(read: &[RawRow], folder: &[u8]) -> bool {
    folder.is_empty()
        || !is_text(folder)
        || read.iter().any(|row| matches!(row.node, Node::Folder) && row.path.bytes() == folder)
}

/// The row's folder is gone.
fn gone(alloc: Global, path: &[u8]) -> HostTrouble {
    match String::from_utf8_lossy(alloc, path) {
        Ok(path) => odd(alloc, &path, "was passed over, and its folder is gone"),
        Err(_) => HostTrouble::Memory,
    }
}
