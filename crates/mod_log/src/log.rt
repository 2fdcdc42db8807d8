// A client's log, which contracts see as the acknowledged number, the base tree and the pending entries.
ghost use Rattle.std.specs.Prelude.{◌≡◌, ◌≢◌, ℕ, ◌+◌, ◌<◌, ◌≤◌, List, [], ◌∷◌, ◌++◌, length, map, false, ◌||◌, nat_le, nat_lt, Ok, Err};
ghost use Rattle.std.specs.Prelude.{Some, IfSome, IfOk, IfErr, OnOk, OnErr, slice_get};
ghost use Rattle.std.specs.List.{sum_by};
ghost use Rattle.std.specs.Option.{option_copied};
ghost use Rattle.byte_fields.specs.Numbers.{as_u64};
ghost use Rattle.byte_fields.specs.Field.{IsFront};
ghost use Rattle.tree_values.specs.Tree.{version_at};
ghost use Rattle.tree_values.specs.Effects.{base_of as bases_of, contents_size as contents_total};
ghost use Rattle.tree_values.specs.Spelling.{EffectsFit};
ghost use Rattle.file_paths.specs.Refusals.{when, unless_refused};
ghost use Rattle.mod_log.specs.declared.log.LogError.TheVariants.{Memory, EntryTooLarge};
ghost use Rattle.mod_log.specs.Log.{IsLog, IsEntryOf, tree_after, entry as spelled, new_log_of, acknowledged, pulled, tree_of};
ghost use Rattle.mod_log.specs.Origin.{MadeByFits};
ghost use Rattle.mod_log.specs.Limits.{max_entries, max_log};
ghost use Rattle.mod_log.specs.Append.{next_entry, appended, is_too_large, log_has_no_room, is_at_last};
ghost use Rattle.mod_log.specs.Inside.{entry_with, room_refusals, log_error, AreKept, entries_of, rolled_back as tree_before};

use crate::limits::{MAX_ENTRIES, MAX_LOG};
use crate::origin::{Origin, copy_of as copy_of_origin, put_made_by};
use crate::sizes::{contents_size, entry_size};
use std::alloc::{AllocError, Global};
use std::marker::Model;
use thiserror::Error;
use vol_tree::{
    ApplyAllError, Base, Bases, Effects, MAX_EFFECTS, MAX_FILES, Path, Tree, TreeError, TryCopy,
    Undo, apply_all, undo_all,
};

/// Effects that are applied or refused together, and the versions that they rest on.
#[derive(Debug, Drop)]
pub struct Entry {
    /// The entry's number, counted from 1 over all entries of the client.
    pub seq: u64,
    /// The command that made it; `None` where none did.
    pub origin: Option<Origin>,
    pub effects: Effects,
    /// The touched paths in the order of their first touch, each with its version before the effects.
    pub base: Bases,
}

/// An entry beside the undos of its effects and the bytes of its spelling.
#[derive(Drop)]
struct Pending {
    entry: Entry,
    undos: Vec<Undo>,
    size: u64,
}

/// Why effects are not logged. A number of bytes that is too great for its type stands as the greatest.
#[derive(Debug, Drop, Error)]
pub enum LogError {
    /// More than 4,096 effects, or more than 33,554,432 bytes in their contents.
    #[error("an entry of {effects} effects with {bytes} bytes")]
    EntryTooLarge { effects: u32, bytes: u64 },
    /// 1,024 entries are pending, or with this one the spelled entries have more than 67,108,864 bytes.
    #[error("{entries} entries and {bytes} bytes in the log")]
    LogFull { entries: u32, bytes: u64 },
    /// The last entry has the greatest number that there is.
    #[error("the last number")]
    LastNumber,
    /// The index of the first effect that the tree refuses, counted from 0, and its refusal.
    #[error("effect {0} is refused")]
    Tree(u32, TreeError),
    #[error("out of memory")]
    Memory,
}

impl From<AllocError> for LogError {
    ghost from_gives = { λ _ e. e ≡ Memory };

    fn from(_: AllocError) -> LogError {
        LogError::Memory
    }
}

impl From<ApplyAllError> for LogError {
    ghost from_gives = { λ cause e. e ≡ log_error cause };

    fn from(cause: ApplyAllError) -> LogError {
        match cause {
            ApplyAllError::At(i, refusal) => LogError::Tree(i, refusal),
            ApplyAllError::Memory => LogError::Memory,
        }
    }
}

impl TryCopy for Entry {
    fn copy(&self) -> Result<Entry, AllocError> {
        let origin = copy_of_origin(&self.origin)?;
        match copies_of(&self.effects, &self.base) {
            Ok((effects, base)) => Ok(Entry {
                seq: self.seq,
                origin,
                effects,
                base,
            }),
            Err(refusal) => {
                drop(origin);
                Err(refusal)
            }
        }
    }
}

fn copies_of(effects: &Effects, base: &Bases) -> Result<(Effects, Bases), AllocError>
    ensures effects { IfOk result (λ copies. copies.0 ≡ effects.now) }
    ensures base { IfOk result (λ copies. copies.1 ≡ base.now) }
{
    let base = base.copy()?;
    match effects.copy() {
        Ok(effects) => Ok((effects, base)),
        Err(refusal) => {
            drop(base);
            Err(refusal)
        }
    }
}

impl Entry {
    /// Appends the spelling, which has no number: what made the entry, the effects and the base list.
    ///
    /// # Errors
    ///
    /// `AllocError` where memory runs out. A front of the spelling is then appended.
    pub fn spell(value: &Entry, out: &mut Vec<u8>) -> Result<(), AllocError>
        requires { EffectsFit value.now.effects }
        ensures ok { OnOk result (out.new.items ≡ out.old.items ++ spelled value.now) }
        ensures err { OnErr result (IsFront out.old.items out.new.items (spelled value.now)) }
    {
        put_made_by(out, &value.origin)?;
        Effects::spell(&value.effects, out)?;
        Bases::spell(&value.base, out)
    }
}

/// A client's log: at most 1,024 entries that wait, with at most 67,108,864 spelled bytes.
#[derive(Drop)]
pub struct Log {
    acked: u64,
    tree: Tree,
    pending: Vec<Pending>,
    /// The bytes of all spelled entries.
    size: u64,
}

impl Model for Log {
    ghost use Rattle.mod_log.specs.Log.{Log};
    ghost use Rattle.mod_log.specs.Inside.{log_of, AreFields};

    ghost Value = { Log };

    ghost view = { λ log. log_of log.acked log.tree log.pending.items };

    ghost invariant = { λ log. AreFields log.acked log.tree log.pending.items log.size };
}

impl Log {
    /// A log with nothing pending. It takes no memory.
    pub fn new(acked: u64, base: Tree) -> Log
        ensures new { result ≡ new_log_of acked base }
        ensures log { IsLog result }
    {
        let _rows = base.count();
        let pending = Vec::new(base.allocator());
        Log {
            acked,
            tree: base,
            pending,
            size: 0,
        }
    }

    /// The number of the last acknowledged entry.
    pub fn acked(&self) -> u64
        ensures acked { result ≡ self.now.acked }
        ensures log { IsLog self.now }
    {
        self.acked
    }

    /// How many entries are pending.
    pub fn pending(&self) -> u32
        ensures count { result ≡ length self.now.pending }
        ensures log { IsLog self.now }
    {
        let pending = &self.pending;
        pending.len() as u32
    }

    /// The tree after all pending entries.
    pub fn tree(&self) -> &Tree
        ensures tree { result.now ≡ tree_of self.now }
        ensures log { IsLog self.now }
    {
        &self.tree
    }

    /// A copy of the base: the tree before all pending entries.
    pub fn base(&self) -> Result<Tree, AllocError>
        ensures base { IfOk result (λ tree. tree ≡ self.now.base) }
        ensures log { IsLog self.now }
    {
        rolled_back(&self.tree, &self.pending)
    }

    /// Pending entry `i`, counted from 0.
    pub fn entry(&self, i: u32) -> Option<&Entry>
        ensures entry { option_copied result ≡ slice_get self.now.pending i }
        ensures sound { IfSome (option_copied result) (IsEntryOf (self.now.acked + 1 + i) (tree_after i self.now)) }
        ensures log { IsLog self.now }
    {
        entry_of(&self.pending, i as usize)
    }

    /// Logs effects as the next entry, with the command that made them, and gives its number; after a refusal the log
    /// is as before.
    pub fn append(&mut self, origin: Option<Origin>, effects: Effects) -> Result<u64, LogError>
        requires some { effects ≢ [] }
        requires made_by { MadeByFits origin }
        ensures ok { OnOk result (appended origin effects self.old ≡ Ok self.new) }
        ensures seq { IfOk result (λ seq. seq ≡ self.old.acked + length self.old.pending + 1) }
        ensures err { IfErr result (λ e. e ≢ LogError.Memory → appended origin effects self.old ≡ Err e) }
        ensures unchanged { OnErr result (self.new ≡ self.old) }
        ensures log { IsLog self.new }
    {
        match self.base_in_room(&origin, &effects) {
            Ok((base, size)) => {
                let seq = self.acked + self.pending.len() as u64 + 1;
                self.log_entry(
                    Entry {
                        seq,
                        origin,
                        effects,
                        base,
                    },
                    size,
                )
            }
            Err(refusal) => {
                drop(origin);
                drop(effects);
                Err(refusal)
            }
        }
    }

    /// The base list and the size of an entry of these effects, where there is room for it and a number.
    fn base_in_room(
        &self,
        origin: &Option<Origin>,
        effects: &Effects,
    ) -> Result<(Bases, u64), LogError>
        ensures base { IfOk result (λ x. x.0 ≡ bases_of effects.now (tree_of self.now)) }
        ensures size { IfOk result (λ x. x.1 ≡ length (spelled (next_entry origin.now effects.now self.now))) }
        ensures small { OnOk result (is_too_large effects.now ≡ false) }
        ensures room { OnOk result (log_has_no_room (next_entry origin.now effects.now self.now) self.now ≡ false) }
        ensures number { OnOk result (is_at_last self.now ≡ false) }
        ensures err { IfErr result (λ e. e ≢ LogError.Memory → appended origin.now effects.now self.now ≡ Err e) }
    {
        check_size(effects)?;
        let base = base_of(&self.tree, effects)?;
        match self.size_in_room(origin, effects, &base) {
            Ok(size) => Ok((base, size)),
            Err(refusal) => {
                drop(base);
                Err(refusal)
            }
        }
    }

    /// Logs the next entry of this size, for which there is room.
    fn log_entry(&mut self, entry: Entry, size: u64) -> Result<u64, LogError>
        requires next { entry ≡ next_entry entry.origin entry.effects self.old }
        requires some { entry.effects ≢ [] }
        requires made_by { MadeByFits entry.origin }
        requires small { is_too_large entry.effects ≡ false }
        requires room { log_has_no_room entry self.old ≡ false }
        requires number { is_at_last self.old ≡ false }
        requires size { size ≡ length (spelled entry) }
        ensures ok { OnOk result (appended entry.origin entry.effects self.old ≡ Ok self.new) }
        ensures seq { IfOk result (λ seq. seq ≡ entry.seq) }
        ensures err { IfErr result (λ e. e ≢ LogError.Memory → appended entry.origin entry.effects self.old ≡ Err e) }
        ensures unchanged { OnErr result (self.new ≡ self.old) }
        ensures log { IsLog self.new }
    {
        let seq = entry.seq;
        let undos = match apply_all(&mut self.tree, &entry.effects) {
            Ok(undos) => undos,
            Err(refusal) => {
                drop(entry);
                return Err(LogError::from(refusal));
            }
        };
        match push(&mut self.pending, Pending { entry, undos, size }) {
            Ok(()) => {
                self.size += size;
                Ok(seq)
            }
            Err(undos) => {
                undo_all(&mut self.tree, undos);
                Err(LogError::Memory)
            }
        }
    }

    /// The size of one more entry, where there is room for it and a number.
    fn size_in_room(
        &self,
        origin: &Option<Origin>,
        effects: &Effects,
        base: &Bases,
    ) -> Result<u64, LogError>
        ensures size { IfOk result (λ size. size ≡ length (spelled (entry_with origin.now effects.now base.now self.now))) }
        ensures room { OnOk result (log_has_no_room (entry_with origin.now effects.now base.now self.now) self.now ≡ false) }
        ensures number { OnOk result (is_at_last self.now ≡ false) }
        ensures err { IfErr result
            (λ e. e ≢ LogError.Memory → unless_refused (room_refusals (entry_with origin.now effects.now base.now self.now) self.now)
            self.now ≡ Err e) }
    {
        let pending = self.pending.len();
        let size = entry_size(self.tree.allocator(), origin, effects, base)?;
        let all = self.size.saturating_add(size);
        if is_full(pending, all) {
            return Err(LogError::LogFull {
                entries: pending as u32,
                bytes: all,
            });
        }
        if self.acked + pending as u64 == u64::MAX {
            return Err(LogError::LastNumber);
        }
        Ok(size)
    }

    /// The base takes the entries up to this number, and the tree stays. It takes no memory.
    pub fn acknowledge(&mut self, seq: u64)
        requires next { self.old.acked < seq }
        requires pending { seq ≤ self.old.acked + length self.old.pending }
        ensures acknowledged { self.new ≡ acknowledged seq self.old }
        ensures log { IsLog self.new }
    {
        let count = (seq - self.acked) as usize;
        let size = total_size(&self.pending[..count]);
        self.pending.drain(..count);
        self.size -= size;
        self.acked = seq;
    }

    /// Base and tree become this tree. It takes no memory.
    pub fn replace(&mut self, tree: Tree)
        requires { self.old.pending ≡ [] }
        ensures pulled { self.new ≡ pulled tree self.old }
        ensures log { IsLog self.new }
    {
        let _rows = tree.count();
        self.tree = tree;
    }
}

fn entry_of(pending: &[Pending], i: usize) -> Option<&Entry>
    ensures { option_copied result ≡ slice_get (entries_of pending.now) i }
{
    match pending.get(i) {
        Some(pending) => Some(&pending.entry),
        None => None,
    }
}

fn check_size(effects: &Effects) -> Result<(), LogError>
    ensures ok { OnOk result (is_too_large effects.now ≡ false) }
    ensures err { IfErr result
        (λ e. when (is_too_large effects.now) (EntryTooLarge (length effects.now) (as_u64 (contents_total effects.now))) ≡ Some e) }
{
    let count = effects.len();
    let bytes = contents_size(effects.as_slice());
    if count > MAX_EFFECTS || bytes > MAX_FILES as u64 {
        return Err(LogError::EntryTooLarge {
            effects: count as u32,
            bytes,
        });
    }
    Ok(())
}

/// The paths that the effects touch, with their versions in the tree.
pub fn base_of(tree: &Tree, effects: &Effects) -> Result<Bases, AllocError>
    ensures { IfOk result (λ bases. bases ≡ bases_of effects.now tree.now) }
{
    let touched = effects.touched()?;
    let bases = versions_of(touched.as_slice(), tree);
    drop(touched);
    bases
}

/// The paths with their versions in the tree.
fn versions_of(paths: &[Path], tree: &Tree) -> Result<Bases, AllocError>
    ensures { IfOk result (λ bases. bases ≡ map (λ path. record { path = path; version = version_at tree.now path }) paths.now) }
{
    let mut bases = Bases::new(tree.allocator());
    for path in paths {
        push_version(&mut bases, path, tree)?;
    }
    Ok(bases)
}

/// Adds the path with its version in the tree.
fn push_version(bases: &mut Bases, path: &Path, tree: &Tree) -> Result<(), AllocError>
    ensures { OnOk result (bases.new ≡ bases.old ++ record { path = path.now; version = version_at tree.now path.now } ∷ []) }
{
    bases.push(Base {
        path: path.copy()?,
        version: tree.version(path),
    })
}

/// A copy of the tree once all these entries are undone, the last first.
fn rolled_back(tree: &Tree, pending: &[Pending]) -> Result<Tree, AllocError>
    requires { AreKept pending.now tree.now }
    ensures { IfOk result (λ base. base ≡ tree_before pending.now tree.now) }
{
    let mut base = tree.copy()?;
    let count = pending.len();
    for i in 0..count {
        let undos = copy_of(base.allocator(), &pending[count - 1 - i].undos)?;
        undo_all(&mut base, undos);
    }
    Ok(base)
}

fn copy_of(alloc: Global, undos: &[Undo]) -> Result<Vec<Undo>, AllocError>
    ensures { IfOk result (λ copied. copied.items ≡ undos.now) }
{
    let mut copied = Vec::with_capacity(alloc, undos.len())?;
    for undo in undos {
        push_copy(&mut copied, undo)?;
    }
    Ok(copied)
}

/// Adds a copy of the undo.
fn push_copy(undos: &mut Vec<Undo>, undo: &Undo) -> Result<(), AllocError>
    ensures { OnOk result (undos.new.items ≡ undos.old.items ++ undo.now ∷ []) }
{
    undos.push(undo.copy()?)?;
    Ok(())
}

/// The bytes of all these spelled entries.
fn total_size(pending: &[Pending]) -> u64
    ensures { result ≡ as_u64 (sum_by (λ kept. kept.size) pending.now) }
{
    let mut size = 0u64;
    for kept in pending {
        size = size.saturating_add(kept.size);
    }
    size
}

/// Adds it last, or gives its undos back.
fn push(pending: &mut Vec<Pending>, kept: Pending) -> Result<(), Vec<Undo>>
    ensures ok { OnOk result (pending.new.items ≡ pending.old.items ++ kept ∷ []) }
    ensures err { IfErr result (λ undos. undos ≡ kept.undos) }
    ensures unchanged { OnErr result (pending.new.items ≡ pending.old.items) }
{
    match pending.push(kept) {
        Ok(()) => Ok(()),
        Err(refused) => {
            let Pending { entry, undos, .. } = refused.value;
            drop(entry);
            Err(undos)
        }
    }
}

fn is_full(count: usize, size: u64) -> bool
    ensures { result ≡ (nat_le max_entries count || nat_lt max_log size) }
{
    count >= MAX_ENTRIES || size > MAX_LOG as u64
}
