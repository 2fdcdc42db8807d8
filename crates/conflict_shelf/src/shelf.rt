// The contents that a log's pending entries put, as entries that put them into a folder.
ghost use Rattle.std.specs.Prelude.{◌≡◌, ◌≢◌, ◌<◌, ◌^◌, ◌++◌, List, ◌∷◌, [], length, map, option_map, Ok, Err, IfOk, IfErr, OnOk};
ghost use Rattle.std.specs.Option.{option_to_list};
ghost use Rattle.file_paths.specs.Path.{resolved};
ghost use Rattle.file_paths.specs.declared.path.PathError.{PathError};
ghost use Rattle.tree_values.specs.declared.node.Effect.TheVariants.{Put};
ghost use Rattle.mod_log.specs.declared.log.Entry.{Entry};
ghost use Rattle.conflict_shelf.specs.declared.shelf.ShelfError.TheVariants.{Memory};
ghost use Rattle.conflict_shelf.specs.Shelf.{IsShelfOf, shelved, all_or_fault, set_aside, put_of, puts_from, place_name};
ghost use Rattle.conflict_shelf.specs.Inside.{shelved_effect, list_if_any};

use mod_log::{Entry, Log};
use std::alloc::{AllocError, Global};
use thiserror::Error;
use vol_tree::{Content, Effect, Effects, List, Path, PathError, TryCopy};

/// A content that a pending entry puts, without its bytes.
#[derive(Debug, Drop)]
pub struct Shelved {
    /// The number of the entry.
    pub seq: u64,
    /// The index of the effect in its entry, counted from 0.
    pub index: u32,
    /// The path that the effect names.
    pub path: Path,
}

/// The effects of entries, one entry after the other.
pub type EffectLists = List<Effects>;

/// Contents that pending entries put, without their bytes.
pub type ShelvedList = List<Shelved>;

/// What a log is set aside as.
#[derive(Debug, Drop)]
pub struct Shelf {
    /// The entry that makes the folder, and then those that put contents into it.
    pub entries: EffectLists,
    /// What each of these contents was, in the same order.
    pub names: ShelvedList,
}

/// Why a log has no shelf in a folder.
#[derive(Debug, Drop, Error)]
pub enum ShelfError {
    /// Why the first path of the shelf that is none is none.
    #[error("no path for a file of the shelf")]
    Path(PathError),
    #[error("out of memory")]
    Memory,
}

impl From<AllocError> for ShelfError {
    ghost from_gives = { λ _ e. e ≡ Memory };

    fn from(_: AllocError) -> ShelfError {
        ShelfError::Memory
    }
}

/// The shelf of a log in a folder: the folder is made, and then each pending entry that puts contents becomes one entry, which puts each
/// of them, in order, at `S.I` in the folder, where `S` is the number of the entry and `I` the index of the effect. The bytes are shared
/// with the log's. Whether a file may be run is left out.
///
/// # Errors
///
/// `Path` where a path of the shelf is none, with the cause of the first such; `Memory` where memory runs out.
pub fn shelf_of(log: &Log, folder: &Path) -> Result<Shelf, ShelfError>
    ensures ok { IfOk result (IsShelfOf folder.now log.now.pending) }
    ensures err { IfErr result (λ e. e ≢ ShelfError.Memory → shelved folder.now log.now.pending ≡ Err e) }
{
    let alloc = log.tree().allocator();
    let mut shelf = begin(alloc, folder)?;
    for i in 0..log.pending() {
        let Some(entry) = log.entry(i) else {
            unreachable!();
        };
        match shelf.add(alloc, folder, entry) {
            Ok(()) => {}
            Err(refusal) => {
                drop(shelf);
                return Err(refusal);
            }
        }
    }
    Ok(shelf)
}

/// The shelf of no entries.
fn begin(alloc: Global, folder: &Path) -> Result<Shelf, AllocError>
    ensures { IfOk result (IsShelfOf folder.now []) }
{
    let mut effects = Effects::new(alloc);
    effects.push(Effect::Make(folder.copy()?))?;
    let mut entries = EffectLists::new(alloc);
    entries.push(effects)?;
    let names = ShelvedList::new(alloc);
    Ok(Shelf { entries, names })
}

impl Shelf {
    /// Adds what one more entry puts.
    fn add(&mut self, alloc: Global, folder: &Path, entry: &Entry) -> Result<(), ShelfError>
        ensures ok { OnOk result ((before : List Entry) → IsShelfOf folder.now before self.old
            → IsShelfOf folder.now (before ++ entry.now ∷ []) self.new) }
        ensures err { IfErr result (λ e. e ≢ ShelfError.Memory → (before after : List Entry) → IsShelfOf folder.now before self.old
            → shelved folder.now (before ++ entry.now ∷ after) ≡ Err e) }
    {
        let effects = entry.effects.as_slice();
        let shelved = effects_of(alloc, folder, entry.seq, effects)?;
        push_some(&mut self.entries, shelved)?;
        push_names(&mut self.names, entry.seq, effects)?;
        Ok(())
    }
}

/// The effects that put into the folder what those of an entry put.
fn effects_of(
    alloc: Global,
    folder: &Path,
    seq: u64,
    effects: &[Effect],
) -> Result<Effects, ShelfError>
    requires { length effects.now < 2 ^ 32 }
    ensures ok { IfOk result (λ shelved. all_or_fault (map (set_aside folder.now) (puts_from seq 0 effects.now)) ≡ Ok shelved) }
    ensures err { IfErr result (λ e. e ≢ ShelfError.Memory
        → all_or_fault (map (set_aside folder.now) (puts_from seq 0 effects.now)) ≡ Err e) }
{
    let mut shelved = Effects::new(alloc);
    for index in 0..effects.len() {
        match shelved_effect(alloc, folder, seq, index as u32, &effects[index]) {
            Ok(found) => shelved.push_found(found)?,
            Err(refusal) => {
                drop(shelved);
                return Err(refusal);
            }
        }
    }
    Ok(shelved)
}

/// The effect that puts into the folder what the effect with this index puts, where it puts something.
fn shelved_effect(
    alloc: Global,
    folder: &Path,
    seq: u64,
    index: u32,
    effect: &Effect,
) -> Result<Option<Effect>, ShelfError>
    ensures ok { IfOk result (λ found. shelved_effect folder.now seq index effect.now ≡ Ok (option_to_list found)) }
    ensures err { IfErr result (λ e. e ≢ ShelfError.Memory → shelved_effect folder.now seq index effect.now ≡ Err e) }
{
    match effect {
        Effect::Put(_, content) => Ok(Some(put_at(path_of(alloc, folder, seq, index)?, content)?)),
        Effect::Make(_) | Effect::Remove(_) | Effect::Move(_, _) | Effect::Mode(_, _) => Ok(None),
    }
}

/// The effect that puts a copy of the content there, which shares its bytes.
fn put_at(path: Path, content: &Content) -> Result<Effect, AllocError>
    ensures { IfOk result (λ effect. effect ≡ Put path content.now) }
{
    let content = content.copy()?;
    Ok(Effect::Put(path, content))
}

/// The path of `seq.index` in the folder.
fn path_of(alloc: Global, folder: &Path, seq: u64, index: u32) -> Result<Path, ShelfError>
    ensures ok { IfOk result (λ path. resolved folder.now (place_name seq index) ≡ Ok path) }
    ensures err { IfErr result (λ e. e ≢ ShelfError.Memory
        → (fault : PathError) × (e ≡ ShelfError.Path fault) × (resolved folder.now (place_name seq index) ≡ Err fault)) }
{
    let place = format!(in alloc; "{seq}.{index}")?;
    match Path::resolve(alloc, folder, place.as_bytes()) {
        Ok(path) => Ok(path),
        Err(PathError::Memory) => Err(ShelfError::Memory),
        Err(fault) => Err(ShelfError::Path(fault)),
    }
}

/// Adds the effects as those of one more entry, where there are any.
fn push_some(entries: &mut EffectLists, effects: Effects) -> Result<(), AllocError>
    ensures { OnOk result (entries.new ≡ entries.old ++ list_if_any effects) }
{
    if effects.is_empty() {
        drop(effects);
        return Ok(());
    }
    entries.push(effects)
}

/// Adds which contents the effects of an entry put.
fn push_names(names: &mut ShelvedList, seq: u64, effects: &[Effect]) -> Result<(), AllocError>
    requires { length effects.now < 2 ^ 32 }
    ensures { OnOk result (names.new ≡ names.old ++ map (λ put. put.name) (puts_from seq 0 effects.now)) }
{
    for index in 0..effects.len() {
        let found = name_of(seq, index as u32, &effects[index])?;
        names.push_found(found)?;
    }
    Ok(())
}

/// Which content the effect with this index puts, where it puts one.
fn name_of(seq: u64, index: u32, effect: &Effect) -> Result<Option<Shelved>, AllocError>
    ensures { IfOk result (λ found. found ≡ option_map (λ put. put.name) (put_of seq index effect.now)) }
{
    match effect {
        Effect::Put(path, _) => {
            let path = path.copy()?;
            Ok(Some(Shelved { seq, index, path }))
        }
        Effect::Make(_) | Effect::Remove(_) | Effect::Move(_, _) | Effect::Mode(_, _) => Ok(None),
    }
}
