// Jobs: a command, and the rows that it runs on.

use crate::answers::{Answer, not_taken, read_until};
use crate::logs::put_command;
use crate::readers::Told;
use crate::texts::put_path;
use crate::values::put_node;
use cmd_capture::{Job, JobRow};
use std::alloc::{AllocError, Global};
use t_scene_files::Fault;
use vol_tree::TryCopy;

/// Reads a job.
pub(crate) fn read_job(alloc: Global, bytes: &[u8], told: &mut Told) -> Result<Answer, Fault> {
    match Job::take(alloc, bytes, 0) {
        Ok((job, next)) => {
            let done = tell_job(alloc, &job, told);
            drop(job);
            done?;
            Ok(read_until(next, bytes))
        }
        Err(error) => not_taken(error),
    }
}

/// The command, and each row; what is written of a copy.
fn tell_job(alloc: Global, job: &Job, told: &mut Told) -> Result<(), AllocError> {
    put_command(&mut told.text, job.command())?;
    put_job_rows(alloc, &mut told.text, job.rows().as_slice())?;
    let copy = job.copy()?;
    let done = Job::spell(&copy, &mut told.written);
    drop(copy);
    done
}

/// Appends a line for each row, and a file's content behind its own.
fn put_job_rows(alloc: Global, text: &mut Vec<u8>, rows: &[JobRow]) -> Result<(), AllocError> {
    for row in rows {
        put_path(text, "row ", &row.path)?;
        put_node(alloc, text, Some(&row.node))?;
    }
    Ok(())
}
