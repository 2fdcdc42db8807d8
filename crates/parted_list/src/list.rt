// The list: its parts, every one full but perhaps the last.
ghost use Rattle.std.specs.Prelude.{◌≡◌, ℕ, ◌+◌, ◌<◌, ◌≤◌, ◌^◌, List, [], ◌∷◌, ◌++◌, length};
ghost use Rattle.std.specs.Prelude.{slice_index, slice_index_or, false, take, ◌-◌, IfOk, OnOk, OnErr, IsTrue, ◌↔◌};
ghost use Rattle.std.specs.List.{concat, insert, remove};
ghost use Rattle.parted_list.specs.Parts.{AreParted, part_size};

use crate::part::Part;
use std::alloc::{AllocError, Global};
use std::marker::Model;

/// How many numbers a full part has.
const PART: usize = 2_048;

/// At most 4,294,967,295 numbers.
#[derive(Drop)]
pub struct PartedList {
    parts: Vec<Part>,
}

impl Model for PartedList {
    ghost Value = { List ℕ };

    ghost view = { λ list. concat list.parts.items };

    ghost invariant = { λ list. AreParted list.parts.items × (length (concat list.parts.items) < 2 ^ 32) };
}

impl PartedList {
    /// The list without numbers. It takes no memory.
    pub fn new(alloc: Global) -> PartedList
        ensures { result ≡ [] }
    {
        PartedList {
            parts: Vec::new(alloc),
        }
    }

    /// How many numbers there are.
    pub fn len(&self) -> usize
        ensures { result ≡ length self.now }
    {
        count(self.parts.as_slice())
    }

    /// Whether there is no number.
    pub fn is_empty(&self) -> bool
        ensures { IsTrue result ↔ (self.now ≡ []) }
    {
        self.parts.is_empty()
    }

    /// Number `k`, counted from 0.
    pub fn get(&self, k: usize) -> u32
        requires { k < length self.now }
        ensures { result ≡ slice_index self.now k }
    {
        self.parts[k / PART].get(k % PART)
    }

    /// Takes away all numbers.
    pub fn clear(&mut self)
        ensures { self.new ≡ [] }
    {
        self.parts.clear();
    }

    /// Puts a number before index `k`; past 4,294,967,295 numbers it is refused.
    pub fn insert(&mut self, k: usize, number: u32) -> Result<(), AllocError>
        requires { k ≤ length self.old }
        ensures ok { OnOk result (self.new ≡ insert self.old k number) }
        ensures err { OnErr result (self.new ≡ self.old) }
    {
        if count(self.parts.as_slice()) >= 4_294_967_295 {
            return Err(AllocError);
        }
        push(&mut self.parts, 0)?;
        push_through(&mut self.parts, k, number);
        Ok(())
    }

    /// Takes out the number of index `k`. It takes no memory.
    pub fn remove(&mut self, k: usize)
        requires { k < length self.old }
        ensures { self.new ≡ remove self.old k }
    {
        pull_through(&mut self.parts, k);
        pop(&mut self.parts);
    }

    /// A copy of the list.
    pub fn copy(&self) -> Result<PartedList, AllocError>
        ensures { IfOk result (λ copied. copied ≡ self.now) }
    {
        let mut parts = Vec::with_capacity(*self.parts.allocator(), self.parts.len())?;
        for part in &self.parts {
            parts.push(part.copy()?)?;
        }
        Ok(PartedList { parts })
    }
}

/// How many numbers the parts have.
fn count(parts: &[Part]) -> usize
    requires parted { AreParted parts.now }
    requires few { length (concat parts.now) < 2 ^ 32 }
    ensures { result ≡ length (concat parts.now) }
{
    let n = parts.len();
    if n == 0 {
        return 0;
    }
    (n - 1) * PART + parts[n - 1].len()
}

/// Adds a number last.
fn push(parts: &mut Vec<Part>, number: u32) -> Result<(), AllocError>
    requires { AreParted parts.old.items }
    ensures parted { AreParted parts.new.items }
    ensures ok { OnOk result (concat parts.new.items ≡ concat parts.old.items ++ number ∷ []) }
    ensures err { OnErr result (parts.new.items ≡ parts.old.items) }
{
    if is_filled(parts.as_slice()) {
        let part = Part::of(*parts.allocator(), number)?;
        parts.push(part)?;
        return Ok(());
    }
    let last = parts.len() - 1;
    parts[last].push(number)?;
    Ok(())
}

/// Whether no part has room for one more number.
fn is_filled(parts: &[Part]) -> bool
    requires { AreParted parts.now }
    ensures filled { IsTrue result → 0 < length parts.now → part_size ≤ length (slice_index_or parts.now (length parts.now - 1) []) }
    ensures some { result ≡ false → 0 < length parts.now }
    ensures room { result ≡ false → length (slice_index_or parts.now (length parts.now - 1) []) < part_size }
{
    let n = parts.len();
    n == 0 || parts[n - 1].len() >= PART
}

/// Takes away the last number, whichever it is.
fn pop(parts: &mut Vec<Part>)
    requires parted { AreParted parts.old.items }
    requires some { 0 < length (concat parts.old.items) }
    ensures parted { AreParted parts.new.items }
    ensures rest { concat parts.new.items ≡ take (length (concat parts.old.items) - 1) (concat parts.old.items) }
{
    let last = parts.len() - 1;
    if parts[last].len() == 1 {
        parts.truncate(last);
    } else {
        parts[last].pop();
    }
}

/// Puts a number before index `k`: each part from there on gives its last to the next one, and that of the last part leaves.
fn push_through(parts: &mut Vec<Part>, k: usize, number: u32) -> u32
    requires parted { AreParted parts.old.items }
    requires within { k < length (concat parts.old.items) }
    ensures parted { AreParted parts.new.items }
    ensures numbers { concat parts.new.items ++ result ∷ [] ≡ insert (concat parts.old.items) k number }
{
    let first = k / PART;
    let mut carried = parts[first].push_through(k % PART, number);
    for i in first + 1..parts.len() {
        carried = parts[i].push_through(0, carried);
    }
    carried
}

/// Takes out the number of index `k`: each part behind it gives its first to the one before, and 0 comes last.
fn pull_through(parts: &mut Vec<Part>, k: usize)
    requires parted { AreParted parts.old.items }
    requires within { k < length (concat parts.old.items) }
    ensures parted { AreParted parts.new.items }
    ensures numbers { concat parts.new.items ≡ remove (concat parts.old.items) k ++ 0 ∷ [] }
{
    let first = k / PART;
    let mut carried = 0;
    let mut i = parts.len();
    while i > first + 1 {
        i -= 1;
        carried = parts[i].pull_through(0, carried);
    }
    parts[first].pull_through(k % PART, carried);
}
