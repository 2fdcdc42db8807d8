// What the outcome of a replay is judged to be.

ghost use Rattle.std.specs.Prelude.{IfOk};
ghost use Rattle.cmd_capture.specs.Rows.{AreJobRows};

use crate::given::{Given, Side, bit, last_of};
use crate::judged::{tell_effects, tell_path};
use crate::parts::Part;
use cmd_capture::{Command, Env, Job, JobRows, Outcome, RawRow, RawRows, Templates, Words};
use mod_log::{Origin, SketchEffect, SketchEffects, SketchEntry};
use replay_judge::{Verdict, judge};
use rs_parity::sketch_of;
use std::alloc::{AllocError, Global};
use t_scene_files::{Fault, small};
use vol_tree::{Bases, Content, Effect, Effects, MAX_FILE, Node, Path, Paths};
use work_area::{RowsFault, changes, rows_of};

/// The row that a line gives; its text need not be that of a path.
fn raw_row(alloc: Global, one: &Given) -> Result<RawRow, AllocError> {
    let path = Content::of(alloc, one.first.as_bytes())?;
    if one.part == Part::Folder {
        let node = Node::Folder;
        return Ok(RawRow { path, node });
    }
    let content = Content::of(alloc, &one.bytes)?;
    let exec = one.part == Part::Program;
    let node = Node::File { content, exec };
    Ok(RawRow { path, node })
}

/// The rows of a side.
pub(crate) fn raw_rows(alloc: Global, given: &[Given], side: Side) -> Result<RawRows, AllocError> {
    let mut rows = RawRows::new(alloc);
    for one in given {
        if one.side == side && matches!(one.part, Part::Folder | Part::File | Part::Program) {
            rows.push(raw_row(alloc, one)?)?;
        }
    }
    Ok(rows)
}

/// The rows of a side, which are legal.
pub(crate) fn legal_rows(alloc: Global, given: &[Given], side: Side) -> Result<JobRows, Fault>
    ensures { IfOk result AreJobRows }
{
    let raw = raw_rows(alloc, given, side)?;
    let rows = rows_of(alloc, &raw);
    drop(raw);
    match rows {
        Ok(rows) => Ok(rows),
        Err(RowsFault::OddTree(_)) => Err(Fault::Line("the rows are odd")),
        Err(RowsFault::Memory) => Err(Fault::Memory),
    }
}

pub(crate) fn templates(alloc: Global, given: &[Given]) -> Result<Templates, AllocError> {
    let mut templates = Templates::new(alloc);
    for one in given {
        if one.part == Part::Template {
            templates.push(Content::of(alloc, one.first.as_bytes())?)?;
        }
    }
    Ok(templates)
}

pub(crate) fn path_of(alloc: Global, text: &[u8]) -> Result<Path, Fault> {
    match Path::read(alloc, text) {
        Ok(path) => Ok(path),
        Err(refused) => {
            drop(refused);
            Err(Fault::Line("that is no path"))
        }
    }
}

/// The effect that a line of the entry tells.
fn effect_of(alloc: Global, one: &Given) -> Result<Option<Effect>, Fault> {
    let effect = match one.part {
        Part::Make => Effect::Make(path_of(alloc, one.first.as_bytes())?),
        Part::Put => put_of(alloc, one)?,
        Part::Remove => Effect::Remove(path_of(alloc, one.first.as_bytes())?),
        Part::Move => move_of(alloc, one)?,
        Part::Mode => Effect::Mode(path_of(alloc, one.first.as_bytes())?, bit(&one.second)?),
        Part::Template
        | Part::Folder
        | Part::File
        | Part::Program
        | Part::Run
        | Part::Logged
        | Part::Replay
        | Part::Beside
        | Part::Bytes
        | Part::Parity
        | Part::Spelling => return Ok(None),
    };
    Ok(Some(effect))
}

fn put_of(alloc: Global, one: &Given) -> Result<Effect, Fault> {
    let content = Content::of(alloc, &one.bytes)?;
    let path = path_of(alloc, one.first.as_bytes())?;
    Ok(Effect::Put(path, content))
}

fn move_of(alloc: Global, one: &Given) -> Result<Effect, Fault> {
    let from = path_of(alloc, one.first.as_bytes())?;
    let to = path_of(alloc, one.second.as_bytes())?;
    Ok(Effect::Move(from, to))
}

/// The effects that the lines of the entry tell.
pub(crate) fn effects_told(alloc: Global, given: &[Given]) -> Result<Effects, Fault> {
    let mut effects = Effects::new(alloc);
    for one in given {
        let effect = effect_of(alloc, one)?;
        effects.push_found(effect)?;
    }
    Ok(effects)
}

/// The effects of the client's run: those that its lines tell, or what its rows changed.
fn client_effects(alloc: Global, given: &[Given], job: &JobRows) -> Result<Effects, Fault>
    requires { AreJobRows job.now }
{
    if last_of(given, Part::Logged).is_some() {
        return effects_told(alloc, given);
    }
    let after = legal_rows(alloc, given, Side::Client)?;
    let effects = changes(alloc, job, &after);
    drop(after);
    Ok(effects?)
}

fn put_sketched(alloc: Global, path: &Path, content: &Content) -> Result<SketchEffect, Fault> {
    let bytes = content.bytes();
    if bytes.len() > MAX_FILE {
        return Err(Fault::Line("the content is too large"));
    }
    let path = path.copy()?;
    let sketch = sketch_of(alloc, bytes)?;
    Ok(SketchEffect::Put(path, sketch))
}

fn move_sketched(from: &Path, to: &Path) -> Result<SketchEffect, Fault> {
    let from = from.copy()?;
    let to = to.copy()?;
    Ok(SketchEffect::Move(from, to))
}

fn sketched(alloc: Global, effect: &Effect) -> Result<SketchEffect, Fault> {
    match effect {
        Effect::Make(path) => Ok(SketchEffect::Make(path.copy()?)),
        Effect::Put(path, content) => put_sketched(alloc, path, content),
        Effect::Remove(path) => Ok(SketchEffect::Remove(path.copy()?)),
        Effect::Move(from, to) => move_sketched(from, to),
        Effect::Mode(path, exec) => Ok(SketchEffect::Mode(path.copy()?, *exec)),
    }
}

fn all_sketched(alloc: Global, effects: &[Effect]) -> Result<SketchEffects, Fault> {
    let mut all = SketchEffects::new(alloc);
    for effect in effects {
        let one = sketched(alloc, effect)?;
        all.push(one)?;
    }
    Ok(all)
}

/// The effects of the client's entry, with sketches in their contents' places.
pub(crate) fn entry_effects(
    alloc: Global,
    given: &[Given],
    job: &JobRows,
) -> Result<SketchEffects, Fault>
    requires { AreJobRows job.now }
{
    let effects = client_effects(alloc, given, job)?;
    let all = all_sketched(alloc, effects.as_slice());
    drop(effects);
    all
}

/// A command of which its templates alone are told.
fn command(alloc: Global, given: &[Given]) -> Result<Command, AllocError> {
    let templates = templates(alloc, given)?;
    Ok(Command {
        program: Content::empty(),
        args: Words::new(alloc),
        cwd: Path::root(alloc),
        env: Env::new(alloc),
        inputs: Paths::new(alloc),
        templates,
    })
}

/// The status of the client's run.
fn client_status(given: &[Given]) -> Result<u8, Fault> {
    if let Some(one) = last_of(given, Part::Run) {
        return small(&one.second);
    }
    match last_of(given, Part::Logged) {
        Some(one) => small(&one.first),
        None => Err(Fault::Line("nothing tells the client's run")),
    }
}

/// The client's entry, which says nothing of the job's print.
fn entry(alloc: Global, given: &[Given], job: &JobRows) -> Result<SketchEntry, Fault>
    requires { AreJobRows job.now }
{
    let status = client_status(given)?;
    let effects = entry_effects(alloc, given, job)?;
    match command(alloc, given) {
        Ok(command) => Ok(SketchEntry {
            seq: 1,
            origin: Origin {
                command,
                job_print: [0; 32],
                status,
            },
            base: Bases::new(alloc),
            effects,
        }),
        Err(error) => {
            drop(effects);
            Err(Fault::from(error))
        }
    }
}

/// What the replay left.
fn outcome(alloc: Global, given: &[Given]) -> Result<Outcome, Fault> {
    let status = match last_of(given, Part::Replay) {
        Some(one) => small(&one.second)?,
        None => return Err(Fault::Line("nothing tells the replay")),
    };
    let rows = raw_rows(alloc, given, Side::Replay)?;
    Ok(Outcome { status, rows })
}

/// The verdict, as text.
pub(crate) fn verdict_told(alloc: Global, given: &[Given]) -> Result<Vec<u8>, Fault> {
    let rows = legal_rows(alloc, given, Side::Job)?;
    match entry(alloc, given, &rows) {
        Ok(entry) => {
            let told = judged_told(alloc, given, &entry, rows);
            drop(entry);
            told
        }
        Err(fault) => {
            drop(rows);
            Err(fault)
        }
    }
}

/// The verdict by the entry on a job with these rows, which end here.
fn judged_told(
    alloc: Global,
    given: &[Given],
    entry: &SketchEntry,
    rows: JobRows,
) -> Result<Vec<u8>, Fault>
    requires { AreJobRows rows }
{
    let job = job_on(alloc, given, rows)?;
    let told = outcome_told(alloc, given, entry, &job);
    drop(job);
    told
}

/// The job of the command with these rows.
pub(crate) fn job_on(alloc: Global, given: &[Given], rows: JobRows) -> Result<Job, Fault>
    requires { AreJobRows rows }
    ensures { IfOk result (λ job. AreJobRows job.rows) }
{
    match command(alloc, given) {
        Ok(command) => Ok(Job::new(alloc, command, rows)?),
        Err(error) => {
            drop(rows);
            Err(Fault::from(error))
        }
    }
}

fn outcome_told(
    alloc: Global,
    given: &[Given],
    entry: &SketchEntry,
    job: &Job,
) -> Result<Vec<u8>, Fault>
    requires { AreJobRows job.now.rows }
{
    let outcome = outcome(alloc, given)?;
    let verdict = judge(alloc, entry, job, &outcome);
    drop(outcome);
    let verdict = verdict?;
    let told = told(alloc, &verdict);
    drop(verdict);
    Ok(told?)
}

/// A word for the verdict, and what it holds.
fn told(alloc: Global, verdict: &Verdict) -> Result<Vec<u8>, AllocError> {
    let mut text = Vec::new(alloc);
    match verdict {
        Verdict::Agree(effects) => {
            text.extend_from_slice(b"agrees\n")?;
            tell_effects(alloc, &mut text, effects.as_slice())?;
        }
        Verdict::Status { logged, replayed } => {
            let line = format!(in alloc; "status {logged} {replayed}\n")?;
            text.extend_from_slice(line.as_bytes())?;
        }
        Verdict::OddTree(place) => {
            let line = format!(in alloc; "odd {place}\n")?;
            text.extend_from_slice(line.as_bytes())?;
        }
        Verdict::Mismatch(path) => {
            tell_path(&mut text, "mismatch ", path, "\n")?;
        }
    }
    Ok(text)
}
