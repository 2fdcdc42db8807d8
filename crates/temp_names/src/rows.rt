//! Rows under their new paths.

ghost use Rattle.std.specs.Prelude.{◌≡◌, true, filter, find, IfOk};
ghost use Rattle.std.specs.Option.{option_copied};
ghost use Rattle.file_paths.specs.Path.{is_same_path};
ghost use Rattle.temp_names.specs.Rename as rules;
ghost use Rattle.temp_names.specs.Inside.{Rises, AreSorted, path_of_pair, path_of_row};

use crate::classes::copies;
use crate::pairs::Renamed;
use cmd_capture::{JobRow, JobRows};
use std::alloc::{AllocError, Global};
use vol_tree::{Path, TryCopy};

impl TryCopy for Renamed {
    fn copy(&self) -> Result<Renamed, AllocError> {
        Ok(Renamed {
            from: self.from.copy()?,
            to: self.to.copy()?,
        })
    }
}

/// The pairs in the order of the paths that are renamed.
fn sorted_pairs(alloc: Global, renaming: &[Renamed]) -> Result<Vec<Renamed>, AllocError>
    ensures { IfOk result (λ sorted. AreSorted path_of_pair renaming.now sorted.items) }
{
    let mut sorted = copies(alloc, renaming)?;
    sorted.sort_by(|pair, other| pair.from.cmp(&other.from))?;
    Ok(sorted)
}

/// Those that rename this path.
fn pairs_at<'a>(sorted: &'a [Renamed], path: &Path) -> &'a [Renamed]
    requires { Rises path_of_pair sorted.now }
    ensures { result.now ≡ filter (λ pair. is_same_path pair.from path.now) sorted.now }
{
    let first = sorted.partition_point(|pair| pair.from.cmp(path).is_lt());
    let (_, rest) = sorted.split_at(first);
    let count = rest.partition_point(|pair| pair.from.cmp(path).is_le());
    let (part, _) = rest.split_at(count);
    part
}

fn pair_of<'a>(sorted: &'a [Renamed], path: &Path) -> Option<&'a Renamed>
    requires { Rises path_of_pair sorted.now }
    ensures { option_copied result ≡ find (λ r. is_same_path r.from path.now) sorted.now }
{
    pairs_at(sorted, path).first()
}

#[tactic(auto, unfolding(crate::specs::Rename::new_path))]
fn new_path<'a>(sorted: &'a [Renamed], path: &Path) -> Option<&'a Path>
    requires { Rises path_of_pair sorted.now }
    ensures { option_copied result ≡ rules.new_path sorted.now path.now }
{
    match pair_of(sorted, path) {
        Some(pair) => Some(&pair.to),
        None => None,
    }
}

/// The rows that keep their paths, and those that get new ones.
#[tactic(auto, using(crate::proofs::Lists::kept_more, crate::proofs::Lists::kept_same, crate::proofs::Lists::renamed_more, crate::proofs::Lists::renamed_same))]
fn parted(
    alloc: Global,
    rows: Vec<JobRow>,
    renaming: &[Renamed],
) -> Result<(Vec<JobRow>, Vec<JobRow>), AllocError>
    requires { Rises path_of_pair renaming.now }
    ensures kept { IfOk result (λ parts. parts.0.items ≡ rules.unrenamed_rows renaming.now rows.items) }
    ensures renamed { IfOk result (λ parts. parts.1.items ≡ rules.renamed_rows renaming.now rows.items) }
{
    let mut kept = Vec::new(alloc);
    let mut renamed = Vec::new(alloc);
    for row in rows {
        match new_path(renaming, &row.path) {
            None => kept.push(row)?,
            Some(to) => {
                let path = to.copy()?;
                renamed.push(JobRow {
                    path,
                    node: row.node,
                })?;
            }
        }
    }
    Ok((kept, renamed))
}

/// Puts the row at its place.
fn with_job_row(alloc: Global, rows: Vec<JobRow>, new: JobRow) -> Result<Vec<JobRow>, AllocError>
    ensures { IfOk result (λ all. all.items ≡ rules.with_job_row new rows.items) }
{
    let mut below = Vec::new(alloc);
    let mut above = Vec::new(alloc);
    for row in rows {
        if row.path < new.path {
            below.push(row)?;
        } else {
            above.push(row)?;
        }
    }
    below.push(new)?;
    below.append(&mut above)?;
    Ok(below)
}

/// Puts the rows at their places, one after the other.
#[tactic(auto, using(crate::proofs::Lists::with_job_rows_more, crate::proofs::Lists::with_job_rows_none))]
fn put_in_turn(
    alloc: Global,
    rows: Vec<JobRow>,
    more: Vec<JobRow>,
) -> Result<Vec<JobRow>, AllocError>
    ensures { IfOk result (λ all. all.items ≡ rules.with_job_rows more.items rows.items) }
{
    let mut all = rows;
    for new in more {
        all = with_job_row(alloc, all, new)?;
    }
    Ok(all)
}

/// Whether no path is below the one before.
fn are_sorted(rows: &[JobRow]) -> bool
    ensures { result ≡ true → Rises path_of_row rows.now }
{
    let mut i = 1;
    while i < rows.len() {
        if rows[i].path.cmp(&rows[i - 1].path).is_lt() {
            return false;
        }
        i += 1;
    }
    true
}

/// The rows of both, where these are sorted.
fn merged(mut rows: Vec<JobRow>, more: Vec<JobRow>) -> Result<Vec<JobRow>, AllocError>
    requires { Rises path_of_row rows.items }
    ensures { IfOk result (λ all. all.items ≡ rules.with_job_rows more.items rows.items) }
{
    let mut all = more;
    all.reverse();
    all.append(&mut rows)?;
    all.sort_by(|row, other| row.path.cmp(&other.path))?;
    Ok(all)
}

/// Puts more rows at their places. Those of a job and of a legal outcome are sorted.
fn with_job_rows(
    alloc: Global,
    rows: Vec<JobRow>,
    more: Vec<JobRow>,
) -> Result<Vec<JobRow>, AllocError>
    ensures { IfOk result (λ all. all.items ≡ rules.with_job_rows more.items rows.items) }
{
    if are_sorted(&rows) {
        merged(rows, more)
    } else {
        put_in_turn(alloc, rows, more)
    }
}

fn listed(alloc: Global, rows: Vec<JobRow>) -> Result<JobRows, AllocError>
    ensures { IfOk result (λ list. list ≡ rows.items) }
{
    let mut list = JobRows::new(alloc);
    for row in rows {
        list.push(row)?;
    }
    Ok(list)
}

/// Gives the rows their new paths, and puts them in path order again.
pub fn rename(alloc: Global, rows: JobRows, renaming: &[Renamed]) -> Result<JobRows, AllocError>
    ensures { IfOk result (λ renamed. renamed ≡ rules.rename renaming.now rows) }
{
    let pairs = sorted_pairs(alloc, renaming)?;
    let (kept, renamed) = parted(alloc, rows.into_vec(), &pairs)?;
    let all = with_job_rows(alloc, kept, renamed)?;
    let list = listed(alloc, all)?;
    Ok(list)
}
