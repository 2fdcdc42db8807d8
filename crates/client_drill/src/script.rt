// The lines of a drill.
ghost use Rattle.std.specs.Prelude.{◌≡◌, ◌≤◌, ◌<◌, ◌∷◌, ◌++◌, [], IfOk, OnOk};
ghost use Rattle.shell_lang.specs.Lines.{with_ends};
ghost use Rattle.client_drill.specs.Limits.{max_steps};
ghost use Rattle.client_drill.specs.Drill.{jobs_upto, put_line, step_line, sync_behind, lines_upto, script};

use crate::numbers::{is_job, next};
use shell_lang::{put_decimal, put_number};
use std::alloc::{AllocError, Global};

/// The most steps of a drill.
pub const MAX_STEPS: u32 = 1_000;

/// The lines of a drill: two folders are made, then as many steps are taken as it has, and a sync stands behind each tenth and at
/// the end.
pub(crate) fn script(alloc: Global, seed: u16, count: u32) -> Result<Vec<u8>, AllocError>
    requires { count ≤ max_steps }
    ensures { IfOk result (λ text. text.items ≡ script seed count) }
{
    let mut script = Vec::new(alloc);
    script.extend_from_slice(b"mkdir d\nmkdir e\ncd e\n")?;
    put_steps(&mut script, seed, count)?;
    script.extend_from_slice(b"sync\n")?;
    Ok(script)
}

/// Adds the lines of the steps.
fn put_steps(script: &mut Vec<u8>, seed: u16, count: u32) -> Result<(), AllocError>
    requires { count ≤ max_steps }
    ensures { OnOk result (script.new.items ≡ script.old.items ++ with_ends (lines_upto seed count)) }
{
    let mut x = u32::from(seed);
    let mut jobs = 0;
    for i in 0..count {
        x = next(x);
        jobs += u32::from(is_job(x));
        put_step(script, x, jobs)?;
        put_sync(script, i + 1)?;
    }
    Ok(())
}

/// Adds the line of the step of a number, up to which so many steps run a job.
fn put_step(script: &mut Vec<u8>, x: u32, jobs: u32) -> Result<(), AllocError>
    requires { x < 65537 }
    ensures { OnOk result (script.new.items ≡ script.old.items ++ with_ends (step_line x jobs ∷ [])) }
{
    if is_job(x) {
        script.extend_from_slice(b"run -- /bin/job")?;
        put_number(script, u64::from(jobs))?;
    } else {
        put_text(script, x)?;
    }
    script.push(b'\n')?;
    Ok(())
}

/// Adds the line by which a text is put.
fn put_text(script: &mut Vec<u8>, x: u32) -> Result<(), AllocError>
    requires { x < 65537 }
    ensures { OnOk result (script.new.items ≡ script.old.items ++ put_line x) }
{
    script.extend_from_slice(b"put /d/f")?;
    put_decimal(script, u64::from(x / 4 % 16))?;
    script.push(b' ')?;
    for _ in 0..x % 1_000 + 1 {
        script.push(b'a' + (x % 26) as u8)?;
    }
    Ok(())
}

/// Adds a sync behind each tenth step.
fn put_sync(script: &mut Vec<u8>, i: u32) -> Result<(), AllocError>
    ensures { OnOk result (script.new.items ≡ script.old.items ++ with_ends (sync_behind i)) }
{
    if i % 10 != 0 {
        return Ok(());
    }
    script.extend_from_slice(b"sync\n")
}

/// How many of the steps run a job.
pub(crate) fn job_count(seed: u16, count: u32) -> u32
    requires { count ≤ max_steps }
    ensures { result ≡ jobs_upto seed count }
{
    let mut x = u32::from(seed);
    let mut jobs = 0;
    for _ in 0..count {
        x = next(x);
        jobs += u32::from(is_job(x));
    }
    jobs
}
