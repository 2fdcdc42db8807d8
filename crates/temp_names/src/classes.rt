//! Lists that are sorted by the paths of their items, in which what belongs together is found by halves.

ghost use Rattle.std.specs.Prelude.{◌≡◌, filter, IfOk};
ghost use Rattle.file_paths.specs.Path.{path_cmp, is_same_path};
ghost use Rattle.temp_names.specs.Renaming.{is_alike};
ghost use Rattle.temp_names.specs.Inside.{Rises, AreSorted, class_of, path_of_candidate, path_of_row};

use crate::candidate::{Candidate, Likeness};
use cmd_capture::JobRow;
use std::alloc::{AllocError, Global};
use std::cmp::Ordering;
use vol_tree::{Path, TryCopy};

/// Copies of the items.
pub(crate) fn copies<T: TryCopy>(alloc: Global, items: &[T]) -> Result<Vec<T>, AllocError>
    ensures { IfOk result (λ copied. copied.items ≡ items.now) }
{
    let mut copied = Vec::new(alloc);
    for item in items {
        copied.push(item.copy()?)?;
    }
    Ok(copied)
}

/// How the templates, the prints where they count, and the folders of two candidates compare.
#[tactic(auto, using(crate::proofs::Alike::then_equal))]
fn class_cmp(likeness: Likeness, c: &Candidate, d: &Candidate) -> Ordering
    ensures { result ≡ path_cmp (class_of likeness c.now) (class_of likeness d.now) }
{
    let templates = c.template.cmp(&d.template);
    let folders = c.path.folder_names().cmp(&d.path.folder_names());
    match likeness {
        Likeness::Group => templates.then(folders),
        Likeness::GroupAndPrint => {
            let prints = c.print.as_slice().cmp(d.print.as_slice());
            templates.then(prints.then(folders))
        }
    }
}

/// The candidates in their order, but that those that are alike stand side by side.
pub(crate) fn sorted_by_class(
    alloc: Global,
    likeness: Likeness,
    candidates: &[Candidate],
) -> Result<Vec<Candidate>, AllocError>
    ensures { IfOk result (λ sorted. AreSorted (class_of likeness) candidates.now sorted.items) }
{
    let mut sorted = copies(alloc, candidates)?;
    sorted.sort_by(|c, d| class_cmp(likeness, c, d))?;
    Ok(sorted)
}

/// Those that are like `c`.
pub(crate) fn alike<'a>(
    likeness: Likeness,
    sorted: &'a [Candidate],
    c: &Candidate,
) -> &'a [Candidate]
    requires { Rises (class_of likeness) sorted.now }
    ensures { result.now ≡ filter (is_alike likeness c.now) sorted.now }
{
    let first = sorted.partition_point(|d| class_cmp(likeness, d, c).is_lt());
    let (_, rest) = sorted.split_at(first);
    let count = rest.partition_point(|d| class_cmp(likeness, d, c).is_le());
    let (part, _) = rest.split_at(count);
    part
}

/// The candidates in path order.
pub(crate) fn sorted_by_path(
    alloc: Global,
    candidates: &[Candidate],
) -> Result<Vec<Candidate>, AllocError>
    ensures { IfOk result (λ sorted. AreSorted path_of_candidate candidates.now sorted.items) }
{
    let mut sorted = copies(alloc, candidates)?;
    sorted.sort_by(|c, d| c.path.cmp(&d.path))?;
    Ok(sorted)
}

/// Those with this path.
pub(crate) fn candidates_at<'a>(sorted: &'a [Candidate], path: &Path) -> &'a [Candidate]
    requires { Rises path_of_candidate sorted.now }
    ensures { result.now ≡ filter (λ c. is_same_path c.path path.now) sorted.now }
{
    let first = sorted.partition_point(|c| c.path.cmp(path).is_lt());
    let (_, rest) = sorted.split_at(first);
    let count = rest.partition_point(|c| c.path.cmp(path).is_le());
    let (part, _) = rest.split_at(count);
    part
}

/// The rows in path order.
pub(crate) fn sorted_rows(alloc: Global, rows: &[JobRow]) -> Result<Vec<JobRow>, AllocError>
    ensures { IfOk result (λ sorted. AreSorted path_of_row rows.now sorted.items) }
{
    let mut sorted = copies(alloc, rows)?;
    sorted.sort_by(|row, other| row.path.cmp(&other.path))?;
    Ok(sorted)
}

/// Those of this path.
pub(crate) fn rows_at<'a>(sorted: &'a [JobRow], path: &Path) -> &'a [JobRow]
    requires { Rises path_of_row sorted.now }
    ensures { result.now ≡ filter (λ row. is_same_path row.path path.now) sorted.now }
{
    let first = sorted.partition_point(|row| row.path.cmp(path).is_lt());
    let (_, rest) = sorted.split_at(first);
    let count = rest.partition_point(|row| row.path.cmp(path).is_le());
    let (part, _) = rest.split_at(count);
    part
}
