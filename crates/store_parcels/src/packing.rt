//! Making a parcel.

ghost use Rattle.std.specs.Prelude.{◌≡◌, ◌<◌, ◌≤◌, ◌-◌, ◌^◌, [], ◌∷◌, ◌++◌, cond, drop, length, true, IfOk, IfSome, OnOk};
ghost use Rattle.std.specs.Int.{w32};
ghost use Rattle.std.specs.List.{flat_map, AllByRecursion};
ghost use Rattle.byte_fields.specs.Field.{digits};
ghost use Rattle.file_paths.specs.Path.{IsPath};
ghost use Rattle.file_paths.specs.Spelling.{path};
ghost use Rattle.tree_values.specs.Tree.{Volume};
ghost use Rattle.wire_frames.specs.Head.{head_at};
ghost use Rattle.wire_frames.specs.Limits.{max_frame};
ghost use Rattle.step_spelling.specs.Spelling.{HaveSpelling};
ghost use Rattle.store_parcels.specs.Front.{front};
ghost use Rattle.store_parcels.specs.Opening.{is_head_of};
ghost use Rattle.store_parcels.specs.Packing.{payload, HasFilesOf, OpensTo};

use crate::front::{FRAME_VERSION, NamedStore, PARCEL_KIND};
use crate::known::{known_in, size_at};
use crate::limits::{MAX_SOURCES, MAX_STEPS};
use byte_fields::{put_u16, put_u32, put_u64};
use delta_pieces::{Pieces, Step, pieces_of};
use sha2::{Digest, Sha256};
use std::alloc::{AllocError, Global};
use step_spelling::{found_steps_have_a_spelling, put_steps, steps_are_read};
use vol_tree::{Path, Tree};
use wire_frames::{MAX_FRAME, head_of};

/// A parcel of the frame of a store, over the contents of those of these files that it takes anything of. `None` where it would not be
/// shorter than the frame, or too many sources or steps go into it, or the frame is of no store.
///
/// # Errors
///
/// Want of memory.
pub fn parcel_of(
    alloc: Global,
    tree: &Tree,
    sources: &[Path],
    frame: &[u8],
) -> Result<Option<Vec<u8>>, AllocError>
    ensures shorter { IfOk result (λ found. IfSome found (λ parcel. length parcel.items < length frame.now)) }
    ensures opens { IfOk result (λ found. IfSome found (λ parcel. OpensTo tree.now sources.now parcel.items frame.now)) }
{
    let Some(store) = store_of(frame) else {
        return Ok(None);
    };
    let used = used_of(alloc, tree, sources, frame)?;
    parcel_over(alloc, tree, used.as_slice(), store, frame)
}

/// The store whose frame the bytes are, as its head tells; `None` where they are no frame of a store.
fn store_of(frame: &[u8]) -> Option<NamedStore>
    ensures told { IfSome result (λ store. is_head_of store (head_at frame.now) ≡ true) }
    ensures few { IfSome result (λ store. length frame.now ≤ max_frame) }
{
    let head = head_of(frame)?;
    let store = NamedStore {
        client: head.client,
        number: head.number,
        entries: u8::try_from(head.entries).ok()?,
    };
    if frame.len() > MAX_FRAME || !store.is_told_by(Some(head)) {
        return None;
    }
    Some(store)
}

/// Those of the files of whose contents a step repeats anything; none where one is no file.
fn used_of(
    alloc: Global,
    tree: &Tree,
    sources: &[Path],
    frame: &[u8],
) -> Result<Vec<Path>, AllocError>
    requires { length frame.now ≤ max_frame }
    ensures { IfOk result (λ used. (other : Volume) → HasFilesOf tree.now sources.now other → HasFilesOf tree.now used.items other) }
{
    let mut used = Vec::new(alloc);
    let Some(known) = known_in(alloc, tree, sources)? else {
        return Ok(used);
    };
    if known.len() == 0 {
        return Ok(used);
    }
    let pieces = pieces_of(alloc, known.as_slice(), frame)?;
    let marks = marks_of(alloc, known.len(), pieces.steps.as_slice())?;
    let mut start = 0;
    for source in sources {
        let end = marks.len().min(size_at(tree, source).saturating_add(start));
        let is_used = is_marked(&marks[start..end]);
        push_if(is_used, source, &mut used)?;
        start = end;
    }
    Ok(used)
}

/// Of each of so many known bytes, whether a step repeats it.
fn marks_of(alloc: Global, known: usize, steps: &[Step]) -> Result<Vec<bool>, AllocError>
    requires { known < 2 ^ 62 }
    ensures { IfOk result (λ marks. length marks.items ≡ known) }
{
    let mut marks = vec![in alloc; false; known]?;
    for step in steps {
        let from = known.min(step.from as usize);
        let to = known.min(step.from as usize + step.count as usize);
        for mark in &mut marks[from..to] {
            *mark = true;
        }
    }
    Ok(marks)
}

/// Whether any of the marks is set.
fn is_marked(marks: &[bool]) -> bool {
    marks.iter().any(|mark| *mark)
}

/// Adds a copy of the path to the used ones, where it is one.
fn push_if(is_used: bool, source: &Path, used: &mut Vec<Path>) -> Result<(), AllocError>
    ensures { OnOk result (used.new.items ≡ cond is_used (used.old.items ++ source.now ∷ []) used.old.items) }
{
    if is_used {
        used.push(source.copy()?)?;
    }
    Ok(())
}

/// The parcel of the frame of this store over the contents of these files, where it is shorter than the frame.
fn parcel_over(
    alloc: Global,
    tree: &Tree,
    sources: &[Path],
    store: NamedStore,
    frame: &[u8],
) -> Result<Option<Vec<u8>>, AllocError>
    requires told { is_head_of store (head_at frame.now) ≡ true }
    requires few { length frame.now ≤ max_frame }
    ensures shorter { IfOk result (λ found. IfSome found (λ parcel. length parcel.items < length frame.now)) }
    ensures opens { IfOk result (λ found. IfSome found (λ parcel. OpensTo tree.now sources.now parcel.items frame.now)) }
{
    steps_are_read();
    found_steps_have_a_spelling();
    store.is_in_range();
    are_paths(sources);
    if sources.len() > MAX_SOURCES as usize {
        return Ok(None);
    }
    let Some(known) = known_in(alloc, tree, sources)? else {
        return Ok(None);
    };
    let pieces = pieces_of(alloc, known.as_slice(), frame)?;
    if pieces.steps.len() > MAX_STEPS as usize {
        return Ok(None);
    }
    let print = Sha256::digest(frame);
    let mut parcel = spelled(alloc, store, &print, sources, known.len() as u32, &pieces)?;
    if parcel.len() >= frame.len() {
        return Ok(None);
    }
    set_length(&mut parcel);
    Ok(Some(parcel))
}

/// The spelling of a parcel, which begins with a length of 0.
fn spelled(
    alloc: Global,
    store: NamedStore,
    print: &[u8; 32],
    paths: &[Path],
    known: u32,
    pieces: &Pieces,
) -> Result<Vec<u8>, AllocError>
    requires few { length paths.now < 2 ^ 16 }
    requires steps { HaveSpelling known pieces.now.steps.items }
    ensures { IfOk result (λ out. out.items ≡ digits w32 0
        ++ payload (record { store = store; print = print.now; sources = paths.now }) known pieces.now.steps.items pieces.now.fresh.items) }
{
    let mut out = Vec::new(alloc);
    put_u32(&mut out, 0)?;
    out.extend_from_slice(&[FRAME_VERSION, PARCEL_KIND])?;
    put_front(store, print, paths, &mut out)?;
    put_steps(known, pieces.steps.as_slice(), &mut out)?;
    out.extend_from_slice(pieces.fresh.as_slice())?;
    Ok(out)
}

/// Appends a front.
fn put_front(
    store: NamedStore,
    print: &[u8; 32],
    paths: &[Path],
    out: &mut Vec<u8>,
) -> Result<(), AllocError>
    requires { length paths.now < 2 ^ 16 }
    ensures { OnOk result (out.new.items ≡ out.old.items ++ front (record { store = store; print = print.now; sources = paths.now })) }
{
    out.extend_from_slice(&[store.client])?;
    put_u64(out, store.number)?;
    out.extend_from_slice(&[store.entries])?;
    out.extend_from_slice(print)?;
    put_u16(out, paths.len() as u16)?;
    put_paths(paths, out)
}

/// Appends the spellings of paths, one behind the other.
fn put_paths(paths: &[Path], out: &mut Vec<u8>) -> Result<(), AllocError>
    ensures { OnOk result (out.new.items ≡ out.old.items ++ flat_map path paths.now) }
{
    for path in paths {
        Path::spell(path, out)?;
    }
    Ok(())
}

/// States that paths are paths.
fn are_paths(paths: &[Path])
    ensures { AllByRecursion IsPath paths.now }
{
    for path in paths {
        path.names();
    }
}

/// Sets the length of a frame, for which its first four bytes keep the place.
#[tactic(auto, unfolding(byte_fields::specs::Field::digits))]
fn set_length(frame: &mut Vec<u8>)
    requires place { 4 ≤ length frame.old.items }
    requires small { length frame.old.items < 2 ^ 32 }
    ensures { frame.new.items ≡ digits w32 (length frame.old.items - 4) ++ drop 4 frame.old.items }
{
    let length = (frame.len() - 4) as u32;
    if let Some(place) = frame.first_chunk_mut::<4>() {
        *place = length.to_be_bytes();
    }
}
