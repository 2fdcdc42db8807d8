// Which effect of an entry clashes with what stands in the tree beside the job.

ghost use Rattle.cmd_capture.specs.Rows.{AreJobRows};

use crate::given::{Given, Side};
use crate::judging::{effects_told, job_on, legal_rows, path_of, raw_rows};
use cmd_capture::{JobRows, RawRow};
use std::alloc::Global;
use t_scene_files::Fault;
use vol_tree::{Effect, Effects, Node, Tree, TryCopy};
use work_area::clash;

/// The first effect of the entry, counted from 0, that clashes with what stands in the tree beside the job; or that none does.
pub(crate) fn clash_told(alloc: Global, given: &[Given]) -> Result<Vec<u8>, Fault> {
    let mut tree = Tree::new(alloc);
    let found = clash_in(alloc, given, &mut tree);
    drop(tree);
    match found? {
        Some(place) => Ok(format!(in alloc; "clash {place}\n")?.into_bytes()),
        None => Ok(b"clash none\n".to_vec(alloc)?),
    }
}

/// Fills the tree with the rows of the job and those beside it, and looks at the entry's effects there.
fn clash_in(alloc: Global, given: &[Given], tree: &mut Tree) -> Result<Option<u32>, Fault> {
    fill(alloc, given, Side::Job, tree)?;
    fill(alloc, given, Side::Beside, tree)?;
    let rows = legal_rows(alloc, given, Side::Job)?;
    let effects = effects_told(alloc, given);
    match effects {
        Ok(effects) => {
            let found = clash_of(alloc, given, tree, rows, &effects);
            drop(effects);
            found
        }
        Err(fault) => {
            drop(rows);
            Err(fault)
        }
    }
}

/// The first of these effects that clashes beside a job with these rows, which end here.
fn clash_of(
    alloc: Global,
    given: &[Given],
    tree: &Tree,
    rows: JobRows,
    effects: &Effects,
) -> Result<Option<u32>, Fault>
    requires { AreJobRows rows }
{
    let job = job_on(alloc, given, rows)?;
    let found = clash(tree, &job, effects);
    drop(job);
    Ok(found)
}

/// Has what is told of a side stand in the tree.
fn fill(alloc: Global, given: &[Given], side: Side, tree: &mut Tree) -> Result<(), Fault> {
    let rows = raw_rows(alloc, given, side)?;
    let filled = fill_by(alloc, rows.as_slice(), tree);
    drop(rows);
    filled
}

fn fill_by(alloc: Global, rows: &[RawRow], tree: &mut Tree) -> Result<(), Fault> {
    for row in rows {
        let effect = effect_of(alloc, row)?;
        let applied = tree.apply(&effect).is_ok();
        drop(effect);
        if !applied {
            return Err(Fault::Line("this cannot stand in the tree"));
        }
    }
    Ok(())
}

/// The effect by which what is told of a path stands there.
fn effect_of(alloc: Global, row: &RawRow) -> Result<Effect, Fault> {
    let path = path_of(alloc, row.path.bytes())?;
    match &row.node {
        Node::Folder => Ok(Effect::Make(path)),
        Node::File { content, exec: _ } => Ok(Effect::Put(path, content.copy()?)),
    }
}
