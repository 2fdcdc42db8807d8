//! The job of a command.

ghost use Rattle.std.specs.Prelude.{◌≡◌, ◌≢◌, ◌||◌, Ok, Err, position, IfOk, IfErr};
ghost use Rattle.std.specs.List.{list_any, filter_map};
ghost use Rattle.file_paths.specs.Path.{IsPath};
ghost use Rattle.tree_values.specs.Tree.{IsTree};
ghost use Rattle.work_area.specs.declared.jobs.JobError.TheVariants.{Memory};
ghost use Rattle.cmd_capture.specs.Spelling.{IsCommand, IsJob};
ghost use Rattle.cmd_capture.specs.Rows.{AreJobRows};
ghost use Rattle.work_area.specs.Jobs as rules;
ghost use Rattle.work_area.specs.Jobs.{job_of};

use byte_fields::saturate_u32;
use cmd_capture::{Command, Job, JobRow, JobRows};
use std::alloc::{AllocError, Global};
use thiserror::Error;
use vol_tree::{Path, Row, Tree, TryCopy};

/// Why a command has no job.
#[derive(Debug, Drop, Error)]
pub enum JobError {
    /// The command's folder, which is none.
    #[error("the command's folder is no folder")]
    NoFolder(Path),
    /// The first input, counted from 0, at which nothing stands.
    #[error("there is no input {0}")]
    NoInput(u32),
    #[error("out of memory")]
    Memory,
}

impl From<AllocError> for JobError {
    ghost from_gives = { λ _ e. e ≡ Memory };

    fn from(_: AllocError) -> JobError {
        JobError::Memory
    }
}

/// Whether one of the two paths lies within the other.
fn is_related(path: &Path, root: &Path) -> bool
    ensures { result ≡ rules.is_related path.now root.now }
{
    path.names().starts_with(root.names()) || root.names().starts_with(path.names())
}

/// Whether the path is related to a root of the job.
fn is_near_root(command: &Command, path: &Path) -> bool
    ensures { result ≡ list_any (rules.is_related path.now) (rules.roots command.now) }
{
    let inputs = command.inputs.as_slice();
    if inputs.is_empty() {
        return is_related(path, &command.cwd);
    }
    inputs.iter().any(|root| is_related(path, root))
}

/// Whether a row of the path is one of the job.
fn is_of_job(command: &Command, path: &Path) -> bool
    ensures { result ≡ rules.is_of_job command.now path.now }
{
    is_near_root(command, path) || command.cwd.names().starts_with(path.names())
}

/// The row of the job that a row of the tree makes.
fn job_row(command: &Command, row: &Row) -> Result<Option<JobRow>, AllocError>
    ensures { IfOk result (λ made. made ≡ rules.job_row_of command.now row.now) }
{
    match &row.node {
        Some(node) if is_of_job(command, &row.path) => Ok(Some(JobRow {
            path: row.path.copy()?,
            node: node.copy()?,
        })),
        _ => Ok(None),
    }
}

fn job_rows(alloc: Global, rows: &[Row], command: &Command) -> Result<JobRows, AllocError>
    ensures { IfOk result (λ made. made ≡ filter_map (rules.job_row_of command.now) rows.now) }
{
    let mut made = JobRows::new(alloc);
    for row in rows {
        made.push_found(job_row(command, row)?)?;
    }
    Ok(made)
}

/// Whether the path is neither the root nor one at which something stands.
fn is_missing(tree: &Tree, path: &Path) -> bool
    ensures { result ≡ rules.is_missing tree.now path.now }
{
    !path.names().is_empty() && tree.get(path).is_none()
}

fn first_missing(tree: &Tree, inputs: &[Path]) -> Option<usize>
    ensures { result ≡ position (rules.is_missing tree.now) inputs.now }
{
    inputs.iter().position(|input| is_missing(tree, input))
}

/// The rows of the tree that are rows of the job.
fn rows_of_job(alloc: Global, tree: &Tree, command: &Command) -> Result<JobRows, AllocError>
    ensures rows { IfOk result (λ rows. rows ≡ filter_map (rules.job_row_of command.now) tree.now) }
    ensures tree { IsTree tree.now }
{
    let rows = tree.rows()?;
    job_rows(alloc, rows.as_slice(), command)
}

/// The job of a command of which nothing is missing.
fn formed_job(alloc: Global, tree: &Tree, command: &Command) -> Result<Job, AllocError>
    requires { IsCommand command.now }
    ensures job { IfOk result (λ job. job ≡ record { command = command.now; rows = filter_map (rules.job_row_of command.now) tree.now }) }
    ensures rows { IfOk result (λ job. AreJobRows job.rows) }
    ensures fits { IfOk result IsJob }
{
    let rows = rows_of_job(alloc, tree, command)?;
    match command.copy() {
        Ok(command) => Job::new(alloc, command, rows),
        Err(e) => {
            drop(rows);
            Err(e)
        }
    }
}

/// The command with the rows that it starts on.
pub fn job_of(alloc: Global, tree: &Tree, command: &Command) -> Result<Job, JobError>
    requires { IsCommand command.now }
    ensures ok { IfOk result (λ job. job_of tree.now command.now ≡ Ok job) }
    ensures err { IfErr result (λ e. e ≢ JobError.Memory → job_of tree.now command.now ≡ Err e) }
    ensures rows { IfOk result (λ job. AreJobRows job.rows) }
    ensures job { IfOk result IsJob }
{
    if !tree.is_folder(&command.cwd) {
        return Err(JobError::NoFolder(command.cwd.copy()?));
    }
    if let Some(i) = first_missing(tree, command.inputs.as_slice()) {
        return Err(JobError::NoInput(saturate_u32(i)));
    }
    Ok(formed_job(alloc, tree, command)?)
}
