//! Times renamings: of the 1,024 and the 4,096 files that a replay left in one folder, half of them by their contents and half by
//! their places, and the change list. It prints for each number of files how many pairs were found, the nanoseconds of that, the
//! nanoseconds of the renaming of rows, how many changes there are, and the nanoseconds of that.

ghost use Rattle.std.specs.Prelude.{IfOk};
ghost use Rattle.cmd_capture.specs.Rows.{AreJobRows};

use cmd_capture::{JobRows, RawRow, RawRows, Templates};
use mod_log::{SketchEffect, SketchEffects};
use rs_parity::sketch_of;
use std::alloc::{AllocError, Global};
use std::time::Instant;
use temp_names::{Renamed, rename, renaming_of};
use vol_tree::{Content, Node, Path, TryCopy};
use work_area::{changes, rows_of};

/// Six letters, which stand for the number below 16,777,216.
fn letters(number: u32) -> [u8; 6] {
    let letter = |digit: u32| b'a' + (digit % 16) as u8;
    [
        letter(number / 1_048_576),
        letter(number / 65_536),
        letter(number / 4_096),
        letter(number / 256),
        letter(number / 16),
        letter(number),
    ]
}

/// The name of an object in the folder d, as a compiler chooses it.
fn name_of(number: u32) -> [u8; 12] {
    let [a, b, c, d, e, f] = letters(number);
    [b'd', b'/', b'c', b'c', a, b, c, d, e, f, b'.', b'o']
}

/// A content of eight bytes.
fn content_of(number: u32, stamp: u8) -> [u8; 8] {
    let [a, b, c, d, e, f] = letters(number);
    [a, b, c, d, e, f, b'-', stamp]
}

/// The objects that the client made.
fn effects_of(alloc: Global, files: u32) -> Result<SketchEffects, anyhow::Error> {
    let mut effects = SketchEffects::new(alloc);
    for k in 0..files {
        let path = Path::read(alloc, &name_of(k.wrapping_mul(7)))?;
        let sketch = sketch_of(alloc, &content_of(k, b'c'))?;
        effects.push(SketchEffect::Put(path, sketch))?;
    }
    Ok(effects)
}

/// The folder d.
fn folder(alloc: Global) -> Result<RawRows, AllocError> {
    let mut rows = RawRows::new(alloc);
    rows.push(RawRow {
        path: Content::of(alloc, b"d")?,
        node: Node::Folder,
    })?;
    Ok(rows)
}

/// The objects that the replay left: under other names, the front half with contents of the client in another order.
fn objects(alloc: Global, files: u32) -> Result<RawRows, AllocError> {
    let mut rows = folder(alloc)?;
    for k in 0..files {
        let stamp = if k < files / 2 { b'c' } else { b'r' };
        let content = content_of(k.wrapping_mul(1_021) % 4_096, stamp);
        rows.push(RawRow {
            path: Content::of(alloc, &name_of(k.wrapping_mul(7).wrapping_add(3)))?,
            node: Node::file(Content::of(alloc, &content)?),
        })?;
    }
    Ok(rows)
}

fn legal(alloc: Global, rows: RawRows) -> Result<JobRows, anyhow::Error>
    ensures { IfOk result AreJobRows }
{
    let legal = rows_of(alloc, &rows);
    drop(rows);
    Ok(legal?)
}

/// The rows as a runner gives them.
fn raw(alloc: Global, rows: &JobRows) -> Result<RawRows, AllocError> {
    let mut raws = RawRows::new(alloc);
    for row in rows.as_slice() {
        raws.push(RawRow {
            path: row.path.text()?,
            node: row.node.copy()?,
        })?;
    }
    Ok(raws)
}

/// The rows as they are after a run that left these.
fn left_again(alloc: Global, rows: JobRows) -> Result<JobRows, anyhow::Error>
    ensures { IfOk result AreJobRows }
{
    let raws = raw(alloc, &rows);
    drop(rows);
    legal(alloc, raws?)
}

fn templates_of(alloc: Global) -> Result<Templates, AllocError> {
    let template = Content::of(alloc, b"cc??????.o")?;
    let mut templates = Templates::new(alloc);
    templates.push(template)?;
    Ok(templates)
}

/// Which files get which names, and the nanoseconds in which that was found.
#[derive(Drop)]
struct Naming {
    pairs: Vec<Renamed>,
    nanos: u128,
}

fn time_naming(
    rt: &HostRuntime,
    effects: &SketchEffects,
    job: &JobRows,
    left: &JobRows,
) -> Result<Naming, anyhow::Error> {
    let templates = templates_of(rt.alloc())?;
    let start = Instant::now(rt)?;
    let pairs = renaming_of(rt.alloc(), &templates, effects, job, left)?;
    let nanos = start.elapsed(rt)?.as_nanos();
    Ok(Naming { pairs, nanos })
}

/// How many changes a run made, and the nanoseconds in which they were listed.
#[derive(Clone, Copy, Debug)]
struct Listing {
    made: usize,
    nanos: u128,
}

fn time_changes(
    rt: &HostRuntime,
    before: &JobRows,
    after: &JobRows,
) -> Result<Listing, anyhow::Error>
    requires before { AreJobRows before.now }
    requires after { AreJobRows after.now }
{
    let start = Instant::now(rt)?;
    let list = changes(rt.alloc(), before, after)?;
    let nanos = start.elapsed(rt)?.as_nanos();
    Ok(Listing {
        made: list.len(),
        nanos,
    })
}

/// Gives the files their names, makes the change list, and prints what was timed.
fn measure_named(
    rt: &HostRuntime,
    files: u32,
    job: &JobRows,
    left: JobRows,
    naming: &Naming,
) -> Result<(), anyhow::Error>
    requires { AreJobRows job.now }
{
    let start = Instant::now(rt)?;
    let renamed = rename(rt.alloc(), left, &naming.pairs)?;
    let moving = start.elapsed(rt)?.as_nanos();
    let after = left_again(rt.alloc(), renamed)?;
    let listing = time_changes(rt, job, &after);
    drop(after);
    let listing = listing?;
    println!(rt;
        "{files} {} {} {moving} {} {}",
        naming.pairs.len(),
        naming.nanos,
        listing.made,
        listing.nanos
    )?;
    Ok(())
}

/// Times a renaming of so many files.
fn measure(rt: &HostRuntime, files: u32) -> Result<(), anyhow::Error> {
    let job = legal(rt.alloc(), folder(rt.alloc())?)?;
    let left = legal(rt.alloc(), objects(rt.alloc(), files)?)?;
    let effects = effects_of(rt.alloc(), files)?;
    let naming = time_naming(rt, &effects, &job, &left);
    drop(effects);
    measure_named(rt, files, &job, left, &naming?)
}

pub(crate) fn measure_names(rt: &HostRuntime) -> Result<(), anyhow::Error> {
    measure(rt, 1_024)?;
    measure(rt, 4_096)
}
