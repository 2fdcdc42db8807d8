// A runner whose answers follow from the jobs.
ghost use Rattle.std.specs.Prelude.{◌≡◌, ◌≤◌, ◌++◌, map, find, replicate, option_to_list, IfOk, IfErr, IfSome, OnOk, OnErr};
ghost use Rattle.std.specs.Option.{option_copied};
ghost use Rattle.outside.specs.Memory.{one_more};
ghost use Rattle.outside.specs.Outside.{raised};
ghost use Rattle.cmd_capture.specs.Runs.{raw_row, unchanged};
ghost use Rattle.mem_net.specs.Drill.{number_of_job, drilled, rows_with_out, drilled_status, is_e, out_of, changed_bytes};
ghost use Rattle.mem_net.specs.Limits.{max_job};

use cmd_capture::{Job, JobRow, Outcome, RawRow, RawRows, Run, RunError, Runner};
use program_words::printed_number;
use std::alloc::{AllocError, Global};
use std::marker::Model;
use std::str;
use vol_tree::{Content, Node, TryCopy};

/// The greatest number of a job of a drill; they are numbered from 1.
pub const MAX_JOB: u32 = 1_000;

/// Answers each job by a rule, and never fails. One that is far is a surrogate's, and its answers to the jobs of a drill
/// differ from those of its client's runner. Contracts see whether it is far, its runs, and its calls.
#[derive(Drop)]
pub struct DrillRunner {
    alloc: Global,
    far: bool,
    runs: Vec<Run>,
    calls: u64,
}

impl Model for DrillRunner {
    ghost use Rattle.mem_net.specs.Drill.{InDrill, AreAnswered};

    ghost Value = { InDrill };

    ghost view = { λ d. record { far = d.far; runs = d.runs.items; calls = d.calls } };

    ghost invariant = { λ d. AreAnswered d.far d.runs.items };
}

impl DrillRunner {
    ghost use Rattle.std.specs.Prelude.{[], ◌∷◌, length};
    ghost use Rattle.mem_net.specs.Drill.{AreAnswered};

    /// A runner that has run nothing. It takes no memory.
    pub fn new(alloc: Global, far: bool) -> DrillRunner
        ensures { result ≡ record { far = far; runs = []; calls = 0 } }
    {
        DrillRunner {
            alloc,
            far,
            runs: Vec::new(alloc),
            calls: 0,
        }
    }

    /// How many jobs it ran. Each of these runs has its answer to its job.
    pub fn count(&self) -> usize
        ensures count { result ≡ length self.now.runs }
        ensures answered { AreAnswered self.now.far self.now.runs }
    {
        self.runs.len()
    }

    /// Keeps the run that gave the outcome.
    fn tell(&mut self, work: &[u8], job: &Job, outcome: &Outcome) -> Result<(), AllocError>
        requires { outcome.now ≡ drilled self.old.far job.now }
        ensures ok { OnOk result (self.new ≡ record self.old {
          runs = self.old.runs ++ record { work = work.now; job = job.now; outcome = outcome.now } ∷ [];
        }) }
        ensures err { OnErr result (self.new ≡ self.old) }
    {
        let run = run_of(self.alloc, work, job, outcome)?;
        self.runs.push(run)?;
        Ok(())
    }
}

impl Runner for DrillRunner {
    ghost use Rattle.std.specs.Prelude.{Some};
    ghost use Rattle.outside.specs.Outside.{Told, CountsFault};
    ghost use Rattle.cmd_capture.specs.Runs.{AddsRun, IsAskedOnce};

    ghost runs = { λ d. Some d.runs };

    ghost faults = { λ _. 0 };

    ghost calls = { λ d. d.calls };

    /// Answers the job; where memory runs out only the call is counted.
    fn run(&mut self, work: &[u8], job: &Job) -> Result<Outcome, RunError>
        ensures runs { Told (Some self.old.runs) (Some self.new.runs) (AddsRun work.now job.now result) }
        ensures cause { CountsFault RunError.Failed 0 0 result }
        ensures called { IsAskedOnce self.old.calls self.new.calls }

        ensures gives { IfOk result (λ outcome. outcome ≡ drilled self.old.far job.now) }
        ensures fails { IfErr result (λ error. error ≡ RunError.Memory) }
        ensures far { self.new.far ≡ self.old.far }
    {
        count(&mut self.calls);
        let outcome = drilled(self.alloc, self.far, job)?;
        if let Err(refused) = self.tell(work, job, &outcome) {
            drop(outcome);
            return Err(refused.into());
        }
        Ok(outcome)
    }
}

/// Counts one more. The count stands still at the end of its type.
fn count(many: &mut u64)
    ensures counted { many.new ≡ one_more many.old }
    ensures raised { many.new ≡ raised 1 many.old }
{
    *many = many.saturating_add(1);
}

/// The run of the job that gave the outcome.
fn run_of(alloc: Global, work: &[u8], job: &Job, outcome: &Outcome) -> Result<Run, AllocError>
    ensures { IfOk result (λ run. run ≡ record { work = work.now; job = job.now; outcome = outcome.now }) }
{
    let work = Content::of(alloc, work)?;
    let job = job.copy()?;
    match outcome.copy() {
        Ok(outcome) => Ok(Run { work, job, outcome }),
        Err(error) => {
            drop(job);
            Err(error)
        }
    }
}

/// The number of a job of a drill; `None` for any other job.
#[tactic(auto, using(crate::proofs::Numbering::unprinted))]
fn number_of(job: &Job) -> Option<u32>
    ensures number { result ≡ number_of_job job.now }
    ensures few { IfSome result (λ number. number ≤ max_job) }
{
    let command = job.command();
    if command.program.bytes() != b"/bin/job".as_slice() {
        return None;
    }
    let [word] = command.args.as_slice() else {
        return None;
    };
    match str::from_utf8(word.bytes()) {
        Ok(word) => printed_number(word, 1, MAX_JOB),
        Err(_) => None,
    }
}

/// What a job comes to.
fn drilled(alloc: Global, far: bool, job: &Job) -> Result<Outcome, AllocError>
    ensures { IfOk result (λ outcome. outcome ≡ drilled far job.now) }
{
    match number_of(job) {
        Some(number) => Ok(Outcome {
            status: status_of(far, number),
            rows: with_out(alloc, far, number, job)?,
        }),
        None => unchanged(alloc, job),
    }
}

/// Status 0 and the job's own rows.
fn unchanged(alloc: Global, job: &Job) -> Result<Outcome, AllocError>
    ensures { IfOk result (λ outcome. outcome ≡ unchanged job.now) }
{
    let mut rows = RawRows::new(alloc);
    for row in job.rows().as_slice() {
        rows.push(raw(row)?)?;
    }
    Ok(Outcome { status: 0, rows })
}

/// The status of a job of this number.
fn status_of(far: bool, number: u32) -> u8
    ensures { result ≡ drilled_status far number }
{
    if far && number % 4 == 3 { 1 } else { 0 }
}

/// The job's row `e`, and the file `e/out` behind it.
fn with_out(alloc: Global, far: bool, number: u32, job: &Job) -> Result<RawRows, AllocError>
    requires { number ≤ max_job }
    ensures { IfOk result (λ rows. rows ≡ rows_with_out far number job.now) }
{
    let mut rows = folder_of(alloc, job)?;
    rows.push(RawRow {
        path: Content::of(alloc, b"e/out")?,
        node: Node::File {
            content: Content::from_vec(out_of(alloc, far, number)?)?,
            exec: false,
        },
    })?;
    Ok(rows)
}

/// The job's row `e`, where it has one.
fn folder_of(alloc: Global, job: &Job) -> Result<RawRows, AllocError>
    ensures { IfOk result (λ rows. rows ≡ map raw_row (option_to_list (find is_e job.now.rows))) }
{
    let mut rows = RawRows::new(alloc);
    if let Some(row) = row_e(job.rows().as_slice()) {
        rows.push(raw(row)?)?;
    }
    Ok(rows)
}

/// The first of the rows that has the path `e`.
fn row_e(rows: &[JobRow]) -> Option<&JobRow>
    ensures { option_copied result ≡ find is_e rows.now }
{
    rows.iter().find(|row| is_e(row))
}

/// Whether the row's path is `e`.
fn is_e(row: &JobRow) -> bool
    ensures { result ≡ is_e row.now }
{
    match row.path.names() {
        [name] => name.bytes() == b"e".as_slice(),
        _ => false,
    }
}

/// The bytes of the file that a job of this number leaves.
fn out_of(alloc: Global, far: bool, number: u32) -> Result<Vec<u8>, AllocError>
    requires { number ≤ max_job }
    ensures { IfOk result (λ bytes. bytes.items ≡ out_of far number) }
{
    let changed = if far { changed(number) } else { 0 };
    let mut bytes = Vec::new(alloc);
    put_repeated(&mut bytes, changed, b'-')?;
    put_repeated(
        &mut bytes,
        2_000 + number as usize - changed,
        b'a' + (number % 26) as u8,
    )?;
    Ok(bytes)
}

/// Adds a byte so many times.
fn put_repeated(out: &mut Vec<u8>, count: usize, byte: u8) -> Result<(), AllocError>
    ensures { OnOk result (out.new.items ≡ out.old.items ++ replicate count byte) }
{
    for _ in 0..count {
        out.push(byte)?;
    }
    Ok(())
}

/// How many of its first bytes are others at a surrogate.
fn changed(number: u32) -> usize
    ensures value { result ≡ changed_bytes number }
    ensures few { result ≤ 34 }
{
    match number % 4 {
        1 => 20,
        2 => 34,
        _ => 0,
    }
}

/// The row with the text of its path.
fn raw(row: &JobRow) -> Result<RawRow, AllocError>
    ensures { IfOk result (λ raw. raw ≡ raw_row row.now) }
{
    Ok(RawRow {
        path: row.path.text()?,
        node: row.node.copy()?,
    })
}
