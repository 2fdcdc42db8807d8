//! Jobs, and what their runs leave.

ghost use Rattle.std.specs.Prelude.{◌≡◌, IfOk};
ghost use Rattle.sha2.specs.Sha256.{sha256};
ghost use Rattle.cmd_capture.specs.Spelling.{job as spelled_job};

use crate::command::Command;
use crate::spelling::put_count32;
use sha2::{Digest, Sha256};
use std::alloc::{AllocError, Global};
use std::marker::Model;
use vol_tree::{Content, List, Node, Path, TryCopy};

/// What stands at a path before a run.
#[derive(Debug, Drop)]
pub struct JobRow {
    pub path: Path,
    pub node: Node,
}

/// Rows of a job, or of a legal outcome.
pub type JobRows = List<JobRow>;

/// A command with the rows that it starts on, and with its print. Contracts see the command and the rows.
#[derive(Debug, Drop)]
pub struct Job {
    command: Command,
    rows: JobRows,
    print: [u8; 32],
}

impl Model for Job {
    ghost use Rattle.std.specs.Prelude.{◌≡◌};
    ghost use Rattle.sha2.specs.Sha256.{sha256};
    ghost use Rattle.cmd_capture.specs.Job.{Job};
    ghost use Rattle.cmd_capture.specs.Spelling.{job as spelled_job};

    ghost Value = { Job };

    ghost view = { λ j. record { command = j.command; rows = j.rows } };

    ghost invariant = { λ j. j.print ≡ sha256 (spelled_job (record { command = j.command; rows = j.rows })) };
}

impl Job {
    /// The job of the command that starts on the rows. Its print is made here, once.
    pub fn new(alloc: Global, command: Command, rows: JobRows) -> Result<Job, AllocError>
        ensures { IfOk result (λ job. job ≡ record { command = command; rows = rows }) }
    {
        match print_of(alloc, &command, rows.as_slice()) {
            Ok(print) => Ok(Job {
                command,
                rows,
                print,
            }),
            Err(error) => {
                drop(command);
                drop(rows);
                Err(error)
            }
        }
    }

    pub fn command(&self) -> &Command
        ensures { result.now ≡ self.now.command }
    {
        &self.command
    }

    pub fn rows(&self) -> &JobRows
        ensures { result.now ≡ self.now.rows }
    {
        &self.rows
    }

    /// The SHA-256 of the job's spelling.
    pub fn print(&self) -> [u8; 32]
        ensures { result ≡ sha256 (spelled_job self.now) }
    {
        self.print
    }
}

/// The SHA-256 of the spelling of such a job, of which no more than one row stands in memory at a time.
fn print_of(alloc: Global, command: &Command, rows: &[JobRow]) -> Result<[u8; 32], AllocError>
    ensures { IfOk result (λ print. print ≡ sha256 (spelled_job (record { command = command.now; rows = rows.now }))) }
{
    let mut piece = Vec::new(alloc);
    Command::spell(command, &mut piece)?;
    put_count32(&mut piece, rows.len())?;
    let mut hasher = Sha256::new_with_prefix(piece.as_slice());
    for row in rows {
        piece.clear();
        JobRow::spell(row, &mut piece)?;
        hasher.update(piece.as_slice());
    }
    Ok(hasher.finalize())
}

/// What a runner says that stands at a path after a run. The text need not be that of a path.
#[derive(Debug, Drop)]
pub struct RawRow {
    pub path: Content,
    pub node: Node,
}

/// Rows as a runner gives them.
pub type RawRows = List<RawRow>;

/// How a command ended, and the rows that it left.
#[derive(Debug, Drop)]
pub struct Outcome {
    pub status: u8,
    pub rows: RawRows,
}

impl TryCopy for JobRow {
    fn copy(&self) -> Result<JobRow, AllocError> {
        Ok(JobRow {
            path: self.path.copy()?,
            node: self.node.copy()?,
        })
    }
}

impl TryCopy for Job {
    fn copy(&self) -> Result<Job, AllocError> {
        let command = self.command.copy()?;
        match self.rows.copy() {
            Ok(rows) => Ok(Job {
                command,
                rows,
                print: self.print,
            }),
            Err(error) => {
                drop(command);
                Err(error)
            }
        }
    }
}

impl TryCopy for RawRow {
    fn copy(&self) -> Result<RawRow, AllocError> {
        Ok(RawRow {
            path: self.path.copy()?,
            node: self.node.copy()?,
        })
    }
}

impl TryCopy for Outcome {
    fn copy(&self) -> Result<Outcome, AllocError> {
        Ok(Outcome {
            status: self.status,
            rows: self.rows.copy()?,
        })
    }
}
