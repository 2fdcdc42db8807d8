//! Which candidate of the replay is which of the client.

ghost use Rattle.std.specs.Prelude.{◌≡◌, count_by, filter, is_none, option_map, slice_get, IfOk};
ghost use Rattle.std.specs.List.{filter_map, list_any};
ghost use Rattle.std.specs.Option.{option_copied};
ghost use Rattle.temp_names.specs.Renaming as rules;
ghost use Rattle.temp_names.specs.Renaming.{is_alike};
ghost use Rattle.temp_names.specs.Candidates.{client_candidates, replay_candidates};
ghost use Rattle.temp_names.specs.Laws.{RisesBy};
ghost use Rattle.temp_names.specs.Inside.{Rises, AreReady, AreSidesOf, partner_of, class_of, path_of_candidate};
ghost use Rattle.temp_names.specs.declared.candidate.Likeness.TheVariants.{Group, GroupAndPrint};

use crate::candidate::{Candidate, Likeness, client_candidates, push_found, replay_candidates};
use crate::classes::{alike, candidates_at, sorted_by_class, sorted_by_path, sorted_rows};
use cmd_capture::{Job, JobRow, JobRows, Template, Templates};
use mod_log::{SketchEffect, SketchEffects, SketchEntry};
use std::alloc::{AllocError, Global};
use vol_tree::{Path, TryCopy};

/// A replay path, and the client path that stands for it.
#[derive(Debug, Drop)]
pub struct Renamed {
    pub from: Path,
    pub to: Path,
}

/// Candidates of the client and of the replay.
#[derive(Drop)]
pub struct Sides {
    clients: Vec<Candidate>,
    replays: Vec<Candidate>,
}

/// Both sides, sorted by what is alike.
fn both_sorted(
    alloc: Global,
    likeness: Likeness,
    clients: &[Candidate],
    replays: &[Candidate],
) -> Result<Sides, AllocError>
    requires { RisesBy path_of_candidate clients.now }
    ensures { IfOk result (AreSidesOf likeness clients.now replays.now) }
{
    let clients = sorted_by_class(alloc, likeness, clients)?;
    let replays = sorted_by_class(alloc, likeness, replays)?;
    Ok(Sides { clients, replays })
}

/// How many of these are like `c`, and have a smaller path.
fn rank(likeness: Likeness, clients: &[Candidate], c: &Candidate) -> usize
    requires rises { Rises (class_of likeness) clients.now }
    requires paths { RisesBy path_of_candidate (filter (is_alike likeness c.now) clients.now) }
    ensures { result ≡ rules.rank likeness clients.now c.now }
{
    let like = alike(likeness, clients, c);
    like.partition_point(|d| d.path.cmp(&c.path).is_lt())
}

/// The replay's candidate like `c` that has the place of `c` among the client's.
#[tactic(auto, unfolding(crate::specs::Renaming::counterpart))]
fn counterpart<'a>(likeness: Likeness, sides: &'a Sides, c: &Candidate) -> Option<&'a Candidate>
    requires { AreReady likeness sides.now }
    ensures { option_copied result ≡ rules.counterpart likeness sides.now.clients.items sides.now.replays.items c.now }
{
    let k = rank(likeness, &sides.clients, c);
    alike(likeness, &sides.replays, c).get(k)
}

/// Whether there is one with this path.
fn has_path(sorted: &[Candidate], path: &Path) -> bool
    requires { Rises path_of_candidate sorted.now }
    ensures { result ≡ list_any (rules.has_path path.now) sorted.now }
{
    !candidates_at(sorted, path).is_empty()
}

/// These, without those whose path stands among the sorted ones.
fn without_sorted(
    alloc: Global,
    these: &[Candidate],
    sorted: &[Candidate],
) -> Result<Vec<Candidate>, AllocError>
    requires { Rises path_of_candidate sorted.now }
    ensures { IfOk result (λ kept. kept.items ≡ rules.without_paths these.now sorted.now) }
{
    let mut kept = Vec::new(alloc);
    for c in these {
        if !has_path(sorted, &c.path) {
            kept.push(c.copy()?)?;
        }
    }
    Ok(kept)
}

/// These, without those whose path stands among the others.
fn without_paths(
    alloc: Global,
    these: &[Candidate],
    others: &[Candidate],
) -> Result<Vec<Candidate>, AllocError>
    ensures { IfOk result (λ kept. kept.items ≡ rules.without_paths these.now others.now) }
{
    let sorted = sorted_by_path(alloc, others)?;
    let kept = without_sorted(alloc, these, &sorted)?;
    Ok(kept)
}

fn lacks_counterpart(sides: &Sides, c: &Candidate) -> bool
    requires { AreReady GroupAndPrint sides.now }
    ensures { result ≡ is_none (rules.counterpart GroupAndPrint sides.now.clients.items sides.now.replays.items c.now) }
{
    counterpart(Likeness::GroupAndPrint, sides, c).is_none()
}

/// Those of the client's candidates that have no counterpart with their print.
fn without_counterparts(
    alloc: Global,
    clients: &[Candidate],
    sides: &Sides,
) -> Result<Vec<Candidate>, AllocError>
    requires { AreReady GroupAndPrint sides.now }
    ensures { IfOk result
        (λ left. left.items ≡ filter (λ c. is_none (rules.counterpart GroupAndPrint sides.now.clients.items sides.now.replays.items c))
        clients.now) }
{
    let mut left = Vec::new(alloc);
    for c in clients {
        if lacks_counterpart(sides, c) {
            left.push(c.copy()?)?;
        }
    }
    Ok(left)
}

fn copied(found: Option<&Candidate>) -> Result<Option<Candidate>, AllocError>
    ensures { IfOk result (λ copy. copy ≡ option_copied found.entry) }
{
    match found {
        Some(c) => Ok(Some(c.copy()?)),
        None => Ok(None),
    }
}

/// The counterparts with equal prints.
fn taken(alloc: Global, clients: &[Candidate], sides: &Sides) -> Result<Vec<Candidate>, AllocError>
    requires { AreReady GroupAndPrint sides.now }
    ensures { IfOk result
        (λ found. found.items ≡ filter_map (rules.counterpart GroupAndPrint sides.now.clients.items sides.now.replays.items) clients.now) }
{
    let mut found = Vec::new(alloc);
    for c in clients {
        let counterpart = copied(counterpart(Likeness::GroupAndPrint, sides, c))?;
        push_found(&mut found, counterpart)?;
    }
    Ok(found)
}

/// What the second pass leaves of both sides.
fn left_by_prints(
    alloc: Global,
    clients: &[Candidate],
    replays: &[Candidate],
    sides: &Sides,
) -> Result<Sides, AllocError>
    requires { AreSidesOf GroupAndPrint clients.now replays.now sides.now }
    ensures clients { IfOk result (λ left. left.clients.items ≡ rules.clients_left clients.now replays.now) }
    ensures replays { IfOk result (λ left. left.replays.items ≡ rules.replays_left clients.now replays.now) }
{
    let taken = taken(alloc, clients, sides)?;
    let replays = without_paths(alloc, replays, &taken)?;
    let clients = without_counterparts(alloc, clients, sides)?;
    Ok(Sides { clients, replays })
}

/// The counterpart in the group, where the group has equally many on both sides.
fn by_place<'a>(sides: &'a Sides, c: &Candidate) -> Option<&'a Candidate>
    requires { AreReady Group sides.now }
    ensures { option_copied result ≡ rules.by_place sides.now.clients.items sides.now.replays.items c.now }
{
    let clients = alike(Likeness::Group, &sides.clients, c).len();
    let replays = alike(Likeness::Group, &sides.replays, c).len();
    if clients == replays {
        counterpart(Likeness::Group, sides, c)
    } else {
        None
    }
}

/// The pair of this candidate of the client, if it has one.
fn pair(c: &Candidate, partner: Option<&Candidate>) -> Result<Option<Renamed>, AllocError>
    ensures { IfOk result (λ pair. pair ≡ option_map (rules.renamed c.now) (option_copied partner.entry)) }
{
    match partner {
        Some(r) => Ok(Some(Renamed {
            from: r.path.copy()?,
            to: c.path.copy()?,
        })),
        None => Ok(None),
    }
}

/// The candidate of the replay that is paired with `c`, by its print or else by its place.
fn partner<'a>(by_print: &'a Sides, by_group: &'a Sides, c: &Candidate) -> Option<&'a Candidate>
    requires by_print { AreReady GroupAndPrint by_print.now }
    requires by_group { AreReady Group by_group.now }
    ensures { option_copied result ≡ partner_of by_print.now by_group.now c.now }
{
    match counterpart(Likeness::GroupAndPrint, by_print, c) {
        Some(r) => Some(r),
        None => by_place(by_group, c),
    }
}

/// The pairs of the client's candidates that have a partner.
fn partnered(
    alloc: Global,
    clients: &[Candidate],
    by_print: &Sides,
    by_group: &Sides,
) -> Result<Vec<Renamed>, AllocError>
    requires by_print { AreReady GroupAndPrint by_print.now }
    requires by_group { AreReady Group by_group.now }
    ensures { IfOk result
        (λ found. found.items ≡ filter_map (λ c. option_map (rules.renamed c) (partner_of by_print.now by_group.now c)) clients.now) }
{
    let mut found = Vec::new(alloc);
    for c in clients {
        let partner = partner(by_print, by_group, c);
        push_found(&mut found, pair(c, partner)?)?;
    }
    Ok(found)
}

/// The pairs by prints, and of what these leave those by place, in the order of the client's candidates.
fn pairs(
    alloc: Global,
    clients: &[Candidate],
    replays: &[Candidate],
) -> Result<Vec<Renamed>, AllocError>
    requires { RisesBy path_of_candidate clients.now }
    ensures { IfOk result (λ found. found.items ≡ rules.pairs clients.now replays.now) }
{
    let by_print = both_sorted(alloc, Likeness::GroupAndPrint, clients, replays)?;
    let left = left_by_prints(alloc, clients, replays, &by_print)?;
    let by_group = both_sorted(alloc, Likeness::Group, &left.clients, &left.replays)?;
    let found = partnered(alloc, clients, &by_print, &by_group)?;
    Ok(found)
}

/// The candidates of both sides.
fn candidates(
    alloc: Global,
    templates: &[Template],
    effects: &[SketchEffect],
    job_rows: &[JobRow],
    rows: &[JobRow],
) -> Result<Sides, AllocError>
    ensures clients { IfOk result (λ both. both.clients.items ≡ client_candidates templates.now effects.now job_rows.now rows.now) }
    ensures replays { IfOk result (λ both. both.replays.items ≡ replay_candidates templates.now job_rows.now rows.now) }
{
    let job = sorted_rows(alloc, job_rows)?;
    let left = sorted_rows(alloc, rows)?;
    let replays = replay_candidates(alloc, templates, &job, rows)?;
    let clients = client_candidates(alloc, templates, effects, &job, &left)?;
    Ok(Sides { clients, replays })
}

/// The pairs that the first pass leaves to the others.
fn pairs_of(
    alloc: Global,
    templates: &[Template],
    effects: &[SketchEffect],
    job_rows: &[JobRow],
    rows: &[JobRow],
) -> Result<Vec<Renamed>, AllocError>
    ensures { IfOk result (λ found. found.items ≡ rules.renaming templates.now effects.now job_rows.now rows.now) }
{
    let both = candidates(alloc, templates, effects, job_rows, rows)?;
    let clients = without_paths(alloc, &both.clients, &both.replays)?;
    let replays = without_paths(alloc, &both.replays, &both.clients)?;
    let found = pairs(alloc, &clients, &replays)?;
    Ok(found)
}

/// Which new files of the replay of an entry's command get which paths of the client, in the order of these. `rows` is what
/// the replay left of the rows of the job.
pub fn renaming(
    alloc: Global,
    entry: &SketchEntry,
    job: &Job,
    rows: &JobRows,
) -> Result<Vec<Renamed>, AllocError>
    ensures { IfOk result
        (λ found. found.items ≡ rules.renaming entry.now.origin.command.templates entry.now.effects job.now.rows rows.now) }
{
    renaming_of(
        alloc,
        &entry.origin.command.templates,
        &entry.effects,
        job.rows(),
        rows,
    )
}

/// The same of the parts that decide it: the command's templates, the entry's effects and the job's rows.
pub fn renaming_of(
    alloc: Global,
    templates: &Templates,
    effects: &SketchEffects,
    job_rows: &JobRows,
    rows: &JobRows,
) -> Result<Vec<Renamed>, AllocError>
    ensures { IfOk result (λ found. found.items ≡ rules.renaming templates.now effects.now job_rows.now rows.now) }
{
    pairs_of(
        alloc,
        templates.as_slice(),
        effects.as_slice(),
        job_rows.as_slice(),
        rows.as_slice(),
    )
}
