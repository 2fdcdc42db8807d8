//! Paths that may be paired.

ghost use Rattle.std.specs.Prelude.{◌≡◌, ◌++◌, true, find, IfOk, OnOk, option_to_list};
ghost use Rattle.std.specs.List.{filter_map};
ghost use Rattle.std.specs.Option.{option_copied};
ghost use Rattle.cmd_capture.specs.Rows as at_paths;
ghost use Rattle.temp_names.specs.Candidates as rules;
ghost use Rattle.temp_names.specs.Laws.{RisesBy};
ghost use Rattle.temp_names.specs.Inside.{Rises, path_of_candidate, path_of_row};

use crate::classes::rows_at;
use crate::template::first_fitting;
use cmd_capture::{JobRow, Template};
use mod_log::SketchEffect;
use sha2::{Digest, Sha256};
use std::alloc::{AllocError, Global};
use std::cmp::Ordering;
use vol_tree::{Node, Path, TryCopy};

/// A path that may be paired: which template is the first that its last name fits, and its content's print.
#[derive(Debug, Drop)]
pub struct Candidate {
    pub path: Path,
    pub template: usize,
    pub print: [u8; 32],
}

/// What two candidates have in common: the folder and the template, or the print as well.
#[derive(Clone, Copy)]
pub enum Likeness {
    Group,
    GroupAndPrint,
}

impl TryCopy for Candidate {
    fn copy(&self) -> Result<Candidate, AllocError> {
        Ok(Candidate {
            path: self.path.copy()?,
            template: self.template,
            print: self.print,
        })
    }
}

/// The path as a candidate, where its last name fits a template.
fn candidate_at(
    templates: &[Template],
    path: &Path,
    print: [u8; 32],
) -> Result<Option<Candidate>, AllocError>
    ensures { IfOk result (λ found. found ≡ rules.candidate templates.now path.now print) }
{
    match first_fitting(templates, path) {
        Some(template) => Ok(Some(Candidate {
            path: path.copy()?,
            template,
            print,
        })),
        None => Ok(None),
    }
}

/// The row of a path.
fn row_at<'a>(rows: &'a [JobRow], path: &Path) -> Option<&'a JobRow>
    requires { Rises path_of_row rows.now }
    ensures { option_copied result ≡ find (at_paths.is_job_row_at path.now) rows.now }
{
    rows_at(rows, path).first()
}

/// What stands at a path.
fn node_in<'a>(rows: &'a [JobRow], path: &Path) -> Option<&'a Node>
    requires { Rises path_of_row rows.now }
    ensures { option_copied result ≡ at_paths.node_in rows.now path.now }
{
    match row_at(rows, path) {
        Some(row) => Some(&row.node),
        None => None,
    }
}

/// Whether the path is a folder of the rows, as the root always is.
fn is_folder_in(rows: &[JobRow], path: &Path) -> bool
    requires { Rises path_of_row rows.now }
    ensures { result ≡ at_paths.is_folder_in rows.now path.now }
{
    path.names().is_empty() || matches!(node_in(rows, path), Some(Node::Folder))
}

/// A candidate of the replay: the path of a file that is not in the job.
fn candidate_of_node(
    templates: &[Template],
    job_rows: &[JobRow],
    path: &Path,
    node: &Node,
) -> Result<Option<Candidate>, AllocError>
    requires { Rises path_of_row job_rows.now }
    ensures { IfOk result (λ found. found ≡ rules.candidate_of_node templates.now job_rows.now path.now node.now) }
{
    match node {
        Node::Folder => Ok(None),
        Node::File { content, .. } => {
            if node_in(job_rows, path).is_some() {
                return Ok(None);
            }
            candidate_at(templates, path, Sha256::digest(content.bytes()))
        }
    }
}

/// A candidate of the client: the path of a `Put` that is not in the job, and where the replay left
/// no folder.
fn candidate_of_effect(
    templates: &[Template],
    job_rows: &[JobRow],
    rows: &[JobRow],
    effect: &SketchEffect,
) -> Result<Option<Candidate>, AllocError>
    requires job { Rises path_of_row job_rows.now }
    requires rows { Rises path_of_row rows.now }
    ensures { IfOk result (λ found. found ≡ rules.candidate_of_effect templates.now job_rows.now rows.now effect.now) }
{
    match effect {
        SketchEffect::Put(path, sketch) => {
            if node_in(job_rows, path).is_some() || is_folder_in(rows, path) {
                return Ok(None);
            }
            candidate_at(templates, path, sketch.print)
        }
        SketchEffect::Make(_)
        | SketchEffect::Remove(_)
        | SketchEffect::Move(_, _)
        | SketchEffect::Mode(_, _) => Ok(None),
    }
}

/// Adds the item last, where there is one.
pub(crate) fn push_found<T: Drop>(items: &mut Vec<T>, found: Option<T>) -> Result<(), AllocError>
    ensures { OnOk result (items.new.items ≡ items.old.items ++ option_to_list found) }
{
    if let Some(item) = found {
        items.push(item)?;
    }
    Ok(())
}

/// The candidates of the replay, in path order.
pub(crate) fn replay_candidates(
    alloc: Global,
    templates: &[Template],
    job_rows: &[JobRow],
    rows: &[JobRow],
) -> Result<Vec<Candidate>, AllocError>
    requires { Rises path_of_row job_rows.now }
    ensures { IfOk result (λ found. found.items ≡ rules.replay_candidates templates.now job_rows.now rows.now) }
{
    let mut candidates = Vec::new(alloc);
    for row in rows {
        let found = candidate_of_node(templates, job_rows, &row.path, &row.node)?;
        push_found(&mut candidates, found)?;
    }
    Ok(candidates)
}

/// Puts the candidate at its place, instead of one with the same path.
fn with_candidate(
    alloc: Global,
    candidates: Vec<Candidate>,
    new: Candidate,
) -> Result<Vec<Candidate>, AllocError>
    ensures { IfOk result (λ all. all.items ≡ rules.with_candidate new candidates.items) }
{
    let mut below = Vec::new(alloc);
    let mut above = Vec::new(alloc);
    for candidate in candidates {
        match candidate.path.cmp(&new.path) {
            Ordering::Less => below.push(candidate)?,
            Ordering::Equal => {}
            Ordering::Greater => above.push(candidate)?,
        }
    }
    below.push(new)?;
    below.append(&mut above)?;
    Ok(below)
}

/// Whether each path is above the one before.
fn are_rising(candidates: &[Candidate]) -> bool
    ensures { result ≡ true → RisesBy path_of_candidate candidates.now }
{
    let mut i = 1;
    while i < candidates.len() {
        if !candidates[i - 1].path.cmp(&candidates[i].path).is_lt() {
            return false;
        }
        i += 1;
    }
    true
}

/// Puts the candidates in path order, the last one first.
fn put_in_order(alloc: Global, candidates: &[Candidate]) -> Result<Vec<Candidate>, AllocError>
    ensures { IfOk result (λ all. all.items ≡ rules.in_path_order candidates.now) }
{
    let mut all = Vec::new(alloc);
    let mut i = candidates.len();
    while i > 0 {
        i -= 1;
        all = with_candidate(alloc, all, candidates[i].copy()?)?;
    }
    Ok(all)
}

/// The candidates in path order. Of those with equal paths it is the first. An entry's are in that order already, where a
/// change list made it.
fn in_path_order(alloc: Global, candidates: Vec<Candidate>) -> Result<Vec<Candidate>, AllocError>
    ensures { IfOk result (λ all. all.items ≡ rules.in_path_order candidates.items) }
{
    if are_rising(&candidates) {
        return Ok(candidates);
    }
    let all = put_in_order(alloc, &candidates)?;
    Ok(all)
}

/// The candidates that the client's effects make.
fn effect_candidates(
    alloc: Global,
    templates: &[Template],
    effects: &[SketchEffect],
    job_rows: &[JobRow],
    rows: &[JobRow],
) -> Result<Vec<Candidate>, AllocError>
    requires job { Rises path_of_row job_rows.now }
    requires rows { Rises path_of_row rows.now }
    ensures { IfOk result (λ found. found.items ≡ filter_map (rules.candidate_of_effect templates.now job_rows.now rows.now) effects.now) }
{
    let mut candidates = Vec::new(alloc);
    for effect in effects {
        let found = candidate_of_effect(templates, job_rows, rows, effect)?;
        push_found(&mut candidates, found)?;
    }
    Ok(candidates)
}

/// The candidates of the client, in path order. Of those with equal paths it is the first.
pub(crate) fn client_candidates(
    alloc: Global,
    templates: &[Template],
    effects: &[SketchEffect],
    job_rows: &[JobRow],
    rows: &[JobRow],
) -> Result<Vec<Candidate>, AllocError>
    requires job { Rises path_of_row job_rows.now }
    requires rows { Rises path_of_row rows.now }
    ensures { IfOk result (λ found. found.items ≡ rules.client_candidates templates.now effects.now job_rows.now rows.now) }
{
    let found = effect_candidates(alloc, templates, effects, job_rows, rows)?;
    let all = in_path_order(alloc, found)?;
    Ok(all)
}
