// The slots of a tree, which contracts see as the list of their rows.
ghost use Rattle.std.specs.Prelude.{◌≡◌, ◌≢◌, ℕ, ◌+◌, ◌*◌, ◌<◌, ◌≤◌, List, [], ◌∷◌, ◌++◌, length, vec_capacity, Some, None, IfOk};
ghost use Rattle.std.specs.Prelude.{IfErr, OnOk, OnErr, slice_index, slice_get, IsTrue, is_some, false};
ghost use Rattle.std.specs.Option.{option_copied, option_to_list};
ghost use Rattle.tree_values.specs.Tree.{row_at, version_at, node_at, node_size, is_root, is_at_top, touched, kept_row, restored};
ghost use Rattle.tree_values.specs.Tree.{with_row, children};
ghost use Rattle.std.specs.List.{insert, remove, flat_map, AllByRecursion};
ghost use Rattle.byte_fields.specs.Codec.{IsBytes};
ghost use Rattle.byte_fields.specs.Field.{IsFront};
ghost use Rattle.file_paths.specs.Path.{FilePath, IsPath};
ghost use Rattle.file_paths.specs.Limits.{max_file};
ghost use Rattle.tree_values.specs.Spelling.{row as spelled_row};
ghost use Rattle.tree_slots.specs.Arena.{Place, Places, rows_of, rows_from, IsArena, IsPool, AreUsed, SlotsLeadToRows, own_row};
ghost use Rattle.tree_slots.specs.Arena.{written, Pads, Grows, IsEntered, place, slot_of, AreAscending, AreLinked, IsFound, IsMissing};
ghost use Rattle.tree_slots.specs.Arena.{standing as standing_names};
ghost use Rattle.tree_slots.specs.Head.{head_bytes, name_head};

use crate::head::head_of;
use file_paths::{Content, Names, Path, TryCopy};
use parted_list::PartedList;
use std::alloc::{AllocError, Global};
use std::cmp::Ordering;
use std::marker::Model;
use std::mem;
use tree_values::{Node, Row, Rows, copy_node, spell_row};

/// What stands at a name in a folder: version 0 stands for no row.
#[derive(Drop)]
pub struct Slot {
    /// The head of the name, which most comparisons read alone.
    head: u64,
    name: Content,
    version: u64,
    node: Option<Node>,
    children: PartedList,
}

impl Model for Slot {
    ghost use Rattle.std.specs.Prelude.{◌≡◌};
    ghost use Rattle.byte_fields.specs.Codec.{IsBytes};
    ghost use Rattle.tree_slots.specs.Arena.{Place};
    ghost use Rattle.tree_slots.specs.Head.{head_bytes, name_head};

    ghost Value = { Place };

    ghost view = { λ slot. record { name = slot.name; version = slot.version; node = slot.node; children = slot.children } };

    ghost invariant = { λ slot. (slot.head ≡ name_head head_bytes slot.name) × IsBytes slot.name };
}

impl Slot {
    /// A slot without a name, which stands for no row.
    fn blank(alloc: Global) -> Slot
        ensures { result ≡ record { name = []; version = 0; node = None; children = [] } }
    {
        Slot {
            head: 0,
            name: Content::empty(),
            version: 0,
            node: None,
            children: PartedList::new(alloc),
        }
    }

    /// Begins anew with this name: it stands for no row and has no slots in it.
    fn begin(&mut self, name: Content)
        ensures { self.new ≡ record { name = name; version = 0; node = None; children = [] } }
    {
        self.head = head_of(name.bytes());
        self.name = name;
        self.version = 0;
        self.node = None;
        self.children.clear();
    }

    fn children(&self) -> &PartedList
        ensures { result.now ≡ self.now.children }
    {
        &self.children
    }

    fn name(&self) -> &Content
        ensures { result.now ≡ self.now.name }
    {
        &self.name
    }

    /// Whether something stands there.
    fn stands(&self) -> bool
        ensures { result ≡ is_some self.now.node }
    {
        self.node.is_some()
    }

    /// Sets version and node, and gives the node from before.
    fn write(&mut self, version: u64, node: Option<Node>) -> Option<Node>
        ensures new { self.new ≡ record { name = self.old.name; version = version; node = node; children = self.old.children } }
        ensures kept { result ≡ self.old.node }
    {
        self.version = version;
        mem::replace(&mut self.node, node)
    }

    /// Adds a slot before index `k` of the children.
    fn link(&mut self, k: usize, j: u32) -> Result<(), AllocError>
        requires { k ≤ length self.old.children }
        ensures ok { OnOk result
            (self.new ≡ record {
              name = self.old.name;
              version = self.old.version;
              node = self.old.node;
              children = insert
                  self.old.children k j;
            }) }
        ensures room { OnOk result (length self.old.children < 65535) }
        ensures err { OnErr result (self.new ≡ self.old) }
    {
        if self.children.len() >= 65535 {
            return Err(AllocError);
        }
        self.children.insert(k, j)?;
        Ok(())
    }

    /// Takes away index `k` of the children.
    fn unlink(&mut self, k: usize)
        requires { k < length self.old.children }
        ensures { self.new ≡ record
            { name = self.old.name; version = self.old.version; node = self.old.node; children = remove self.old.children k } }
    {
        self.children.remove(k);
    }

    /// Whether it stands for no row and has no slots in it.
    fn is_idle(&self) -> bool
        ensures version { IsTrue result → self.now.version ≡ 0 }
        ensures leaf { IsTrue result → self.now.children ≡ [] }
        ensures busy { result ≡ false → self.now.version ≡ 0 → self.now.children ≡ [] → ⊥ }
    {
        self.version == 0 && self.children.is_empty()
    }

    /// How the name compares with one that has this head.
    fn compare(&self, head: u64, name: &Content) -> Ordering
        requires head { head ≡ name_head head_bytes name.now }
        requires bytes { IsBytes name.now }
        ensures { result ≡ Rattle.tree_slots.specs.Arena.name_cmp self.now.name name.now }
    {
        match self.head.cmp(&head) {
            Ordering::Less => Ordering::Less,
            Ordering::Greater => Ordering::Greater,
            Ordering::Equal => self.name.cmp(name),
        }
    }
}

/// How many slots are in a slot.
fn child_count(slots: &[Slot], i: u32) -> usize
    ensures { result ≡ length (place slots.now i).children }
{
    match slots.get(i as usize) {
        Some(slot) => slot.children().len(),
        None => 0,
    }
}

/// Slot `k` of those in a slot, in the order of their names.
fn child_of(slots: &[Slot], i: u32, k: usize) -> u32
    requires linked { AreLinked slots.now }
    requires within { k < length (place slots.now i).children }
    ensures child { result ≡ slice_index (place slots.now i).children k }
    ensures within { result < length slots.now }
{
    match slots.get(i as usize) {
        Some(slot) => slot.children().get(k),
        None => unreachable!(),
    }
}

/// Where the child of a name stands in a slot, or else where it belongs; and how many names were compared.
fn search(slots: &[Slot], i: u32, name: &Content) -> (Result<usize, usize>, u32)
    requires { AreLinked slots.now }
    ensures found { IfOk result.0 (IsFound slots.now (place slots.now i).children name.now) }
    ensures missing { IfErr result.0 (IsMissing slots.now (place slots.now i).children name.now) }
    ensures few { result.1 ≤ 16 }
{
    match slots.get(i as usize) {
        Some(slot) => halve(slots, slot.children(), head_of(name.bytes()), name),
        None => (Err(0), 0),
    }
}

/// The same among these slots, by halving them; the name has this head.
fn halve(
    slots: &[Slot],
    children: &PartedList,
    head: u64,
    name: &Content,
) -> (Result<usize, usize>, u32)
    requires head { head ≡ name_head head_bytes name.now }
    requires bytes { IsBytes name.now }
    requires within { (k : ℕ) → k < length children.now → slice_index children.now k < length slots.now }
    requires ascending { AreAscending slots.now children.now }
    requires few { length children.now < 65536 }
    ensures found { IfOk result.0 (IsFound slots.now children.now name.now) }
    ensures missing { IfErr result.0 (IsMissing slots.now children.now name.now) }
    ensures few { result.1 ≤ 16 }
{
    let mut low = 0;
    let mut high = children.len();
    let mut left = 16;
    while low < high {
        let middle = low + (high - low) / 2;
        left -= 1;
        match slots[children.get(middle) as usize].compare(head, name) {
            Ordering::Less => low = middle + 1,
            Ordering::Greater => high = middle,
            Ordering::Equal => return (Ok(middle), 16 - left),
        }
    }
    (Err(low), 16 - left)
}

/// The slot of a path, and how many names were compared.
fn descend(slots: &[Slot], path: &[Content]) -> (Option<u32>, u32)
    requires { AreLinked slots.now }
    ensures slot { result.0 ≡ slot_of slots.now 0 path.now }
    ensures few { result.1 ≤ 16 * length path.now }
{
    let mut at = 0;
    let mut compared: u32 = 0;
    for name in path {
        let (found, more) = search(slots, at, name);
        compared = compared.saturating_add(more);
        match found {
            Ok(k) => at = child_of(slots, at, k),
            Err(_) => return (None, compared),
        }
    }
    (Some(at), compared)
}

/// The slots of a tree, which stand for its rows.
#[derive(Drop)]
pub struct Arena {
    slots: Vec<Slot>,
    /// The slots that are in no other, to be used again. There is room for all, so that giving one back takes no memory.
    free: Vec<u32>,
}

impl Model for Arena {
    ghost use Rattle.std.specs.Prelude.{List, vec_capacity};
    ghost use Rattle.tree_values.specs.declared.node.Row.{Row};
    ghost use Rattle.tree_slots.specs.Arena.{rows_of, KeepsArena};

    ghost Value = { List Row };

    ghost view = { λ arena. rows_of arena.slots.items };

    ghost invariant = { λ arena. KeepsArena arena.slots.items arena.free.items (vec_capacity arena.free) };
}

impl Arena {
    /// No slots. It takes no memory.
    pub(crate) fn new(alloc: Global) -> Arena
        ensures { result ≡ [] }
    {
        Arena {
            slots: Vec::new(alloc),
            free: Vec::new(alloc),
        }
    }

    pub fn allocator(&self) -> Global {
        *self.slots.allocator()
    }

    /// What stands at a path, and how many names were compared.
    pub fn find(&self, path: &[Content]) -> (Option<&Node>, u32)
        ensures node { option_copied result.0 ≡ node_at self.now path.now }
        ensures few { result.1 ≤ 16 * length path.now }
    {
        let (found, compared) = descend(&self.slots, path);
        match found {
            Some(i) => (node_of(&self.slots, i), compared),
            None => (None, compared),
        }
    }

    /// How many applied effects touched a path.
    pub fn version(&self, path: &[Content]) -> u64
        ensures { result ≡ version_at self.now path.now }
    {
        match descend(&self.slots, path).0 {
            Some(i) => version_of(&self.slots, i),
            None => 0,
        }
    }

    /// What stands at a path, and how many applied effects touched it.
    pub fn look(&self, path: &[Content]) -> (Option<&Node>, u64)
        ensures node { option_copied result.0 ≡ node_at self.now path.now }
        ensures version { result.1 ≡ version_at self.now path.now }
    {
        match descend(&self.slots, path).0 {
            Some(i) => (node_of(&self.slots, i), version_of(&self.slots, i)),
            None => (None, 0),
        }
    }

    /// The names of what stands in a folder, in order.
    pub fn children(&self, path: &[Content]) -> Result<Names, AllocError>
        ensures { IfOk result (λ names. names ≡ children self.now path.now) }
    {
        let alloc = *self.slots.allocator();
        match descend(&self.slots, path).0 {
            Some(i) => standing(alloc, &self.slots, i),
            None => Ok(Names::new(alloc)),
        }
    }

    /// Name `i` of what stands in a folder, counted from 0.
    pub fn child(&self, path: &[Content], i: u32) -> Option<&Content>
        ensures { option_copied result ≡ slice_get (children self.now path.now) i }
    {
        match descend(&self.slots, path).0 {
            Some(at) => nth_standing(&self.slots, at, i),
            None => None,
        }
    }

    /// A copy of the rows.
    pub fn rows(&self) -> Result<Rows, AllocError>
        ensures { IfOk result (λ rows. rows ≡ self.now) }
    {
        let alloc = *self.slots.allocator();
        let mut rows = Rows::new(alloc);
        add_rows(&self.slots, &Path::root(alloc), 0, 34, &mut rows)?;
        Ok(rows)
    }

    /// Sets the node of a path, counts this in its version, and gives the row from before.
    pub(crate) fn touch(&mut self, path: Path, node: Option<Node>) -> Result<Row, AllocError>
        requires below_root { is_root path ≡ false }
        requires below_top { is_at_top self.old path ≡ false }
        ensures ok { OnOk result (self.new ≡ touched self.old path node) }
        ensures kept { IfOk result (λ kept. kept ≡ kept_row self.old path) }
        ensures err { OnErr result (self.new ≡ self.old) }
    {
        let i = reach(&mut self.slots, &mut self.free, path.names())?;
        let version = version_of(&self.slots, i);
        let old = write(&mut self.slots, i, version + 1, node);
        Ok(Row {
            path,
            version,
            node: old,
        })
    }

    /// The same where the path has a row. It takes no memory.
    pub(crate) fn touch_again(&mut self, path: Path, node: Option<Node>) -> Row
        requires there { IsTrue (is_some (row_at self.old path)) }
        requires below_top { is_at_top self.old path ≡ false }
        ensures touched { self.new ≡ touched self.old path node }
        ensures kept { result ≡ kept_row self.old path }
    {
        let i = slot_of_row(&self.slots, path.names());
        let version = version_of(&self.slots, i);
        let old = write(&mut self.slots, i, version + 1, node);
        Row {
            path,
            version,
            node: old,
        }
    }

    /// Puts a kept row back. It takes no memory.
    pub(crate) fn restore(&mut self, kept: Row)
        requires { IsTrue (is_some (row_at self.old kept.path)) }
        ensures { self.new ≡ restored self.old kept }
    {
        let Row {
            path,
            version,
            node,
        } = kept;
        let i = slot_of_row(&self.slots, path.names());
        write_over(&mut self.slots, i, version, node);
        prune(&mut self.slots, &mut self.free, path.names());
    }

    /// Adds a row.
    pub(crate) fn insert(&mut self, row: Row) -> Result<(), AllocError>
        requires below_root { is_root row.path ≡ false }
        requires touched { 1 ≤ row.version }
        ensures ok { OnOk result (self.new ≡ with_row self.old row) }
        ensures err { OnErr result (self.new ≡ self.old) }
    {
        let Row {
            path,
            version,
            node,
        } = row;
        let i = reach(&mut self.slots, &mut self.free, path.names())?;
        write_over(&mut self.slots, i, version, node);
        Ok(())
    }
}

impl TryCopy for Slot {
    fn copy(&self) -> Result<Slot, AllocError> {
        Ok(Slot {
            head: self.head,
            name: self.name.copy()?,
            version: self.version,
            node: copy_node(self.node.as_ref())?,
            children: self.children.copy()?,
        })
    }
}

impl TryCopy for Arena {
    fn copy(&self) -> Result<Arena, AllocError> {
        let mut slots = Vec::with_capacity(*self.slots.allocator(), self.slots.len())?;
        for slot in &self.slots {
            slots.push(slot.copy()?)?;
        }
        let mut free = Vec::with_capacity(*self.free.allocator(), self.slots.len())?;
        free.extend_from_slice(self.free.as_slice())?;
        Ok(Arena { slots, free })
    }
}

/// Adds copies of the rows of a slot and of those below it, so many levels down.
fn add_rows(
    slots: &[Slot],
    path: &Path,
    i: u32,
    levels: u32,
    rows: &mut Rows,
) -> Result<(), AllocError>
    requires linked { AreLinked slots.now }
    requires paths { (below : FilePath) (k : ℕ) → slot_of slots.now i below ≡ Some k → IsPath (path.now ++ below) }
    ensures { OnOk result (rows.new ≡ rows.old ++ rows_from levels slots.now path.now i) }
{
    if levels == 0 {
        return Ok(());
    }
    add_own_row(slots, path, i, rows)?;
    for k in 0..child_count(slots, i) {
        let c = child_of(slots, i, k);
        let child = path.child(slots[c as usize].name())?;
        add_rows(slots, &child, c, levels - 1, rows)?;
    }
    Ok(())
}

/// Adds a copy of the row of a slot, if it stands for one.
fn add_own_row(slots: &[Slot], path: &Path, i: u32, rows: &mut Rows) -> Result<(), AllocError>
    ensures { OnOk result (rows.new ≡ rows.old ++ option_to_list (own_row path.now (place slots.now i))) }
{
    let version = version_of(slots, i);
    if version > 0 {
        rows.push(Row {
            path: path.copy()?,
            version,
            node: copy_node(node_of(slots, i))?,
        })?;
    }
    Ok(())
}

/// The names of those slots in a slot at which something stands.
fn standing(alloc: Global, slots: &[Slot], at: u32) -> Result<Names, AllocError>
    requires { AreLinked slots.now }
    ensures { IfOk result (λ names. names ≡ standing_names slots.now (place slots.now at).children) }
{
    let mut names = Names::new(alloc);
    for k in 0..child_count(slots, at) {
        let c = child_of(slots, at, k);
        let slot = &slots[c as usize];
        if slot.stands() {
            names.push(slot.name().copy()?)?;
        }
    }
    Ok(names)
}

/// Name `i` of those slots in a slot at which something stands, counted from 0.
fn nth_standing(slots: &[Slot], at: u32, i: u32) -> Option<&Content>
    requires { AreLinked slots.now }
    ensures { option_copied result ≡ slice_get (standing_names slots.now (place slots.now at).children) i }
{
    let mut left = i;
    for k in 0..child_count(slots, at) {
        let c = child_of(slots, at, k);
        let slot = &slots[c as usize];
        if slot.stands() {
            if left == 0 {
                return Some(slot.name());
            }
            left -= 1;
        }
    }
    None
}

/// The slot of a path that has a row.
fn slot_of_row(slots: &[Slot], path: &[Content]) -> u32
    requires arena { IsArena slots.now }
    requires there { IsTrue (is_some (row_at (rows_of slots.now) path.now)) }
    ensures slot { slot_of slots.now 0 path.now ≡ Some result }
    ensures within { result < length slots.now }
{
    match descend(slots, path).0 {
        Some(i) => i,
        None => unreachable!(),
    }
}

/// Sets version and node of a slot; nothing stands at version 0.
fn write_over(slots: &mut Vec<Slot>, i: u32, version: u64, node: Option<Node>)
    requires { i < length slots.old.items }
    ensures some { version ≢ 0 → slots.new.items ≡ written slots.old.items i version node }
    ensures none { version ≡ 0 → slots.new.items ≡ written slots.old.items i version None }
{
    let node = match version {
        0 => None,
        _ => node,
    };
    let _ = write(slots, i, version, node);
}

fn node_of(slots: &[Slot], i: u32) -> Option<&Node>
    ensures { option_copied result ≡ (place slots.now i).node }
{
    match slots.get(i as usize) {
        Some(slot) => slot.node.as_ref(),
        None => None,
    }
}

fn version_of(slots: &[Slot], i: u32) -> u64
    ensures { result ≡ (place slots.now i).version }
{
    match slots.get(i as usize) {
        Some(slot) => slot.version,
        None => 0,
    }
}

/// Sets version and node of a slot, and gives the node from before.
fn write(slots: &mut Vec<Slot>, i: u32, version: u64, node: Option<Node>) -> Option<Node>
    requires { i < length slots.old.items }
    ensures new { slots.new.items ≡ written slots.old.items i version node }
    ensures kept { result ≡ (place slots.old.items i).node }
{
    slots[i as usize].write(version, node)
}

/// A slot that is in no other: a free one, or one more.
fn take_slot(slots: &mut Vec<Slot>, free: &mut Vec<u32>) -> Result<u32, AllocError>
    requires linked { AreLinked slots.old.items }
    requires root { 0 < length slots.old.items }
    requires pool { IsPool slots.old.items free.old.items (vec_capacity free.old) }
    ensures ok { IfOk result (λ j. IsPool slots.new.items (free.new.items ++ j ∷ []) (vec_capacity free.new)) }
    ensures err { OnErr result (IsPool slots.new.items free.new.items (vec_capacity free.new)) }
    ensures pads { Pads slots.old.items slots.new.items }
{
    if let Some(j) = free.pop() {
        return Ok(j);
    }
    if slots.len() >= 4_294_967_295 {
        return Err(AllocError);
    }
    let j = slots.len() as u32;
    free.reserve(slots.len())?;
    slots.push(Slot::blank(*slots.allocator()))?;
    Ok(j)
}

/// Adds a slot without a row before index `k` of a slot's children.
fn add_child(
    slots: &mut Vec<Slot>,
    free: &mut Vec<u32>,
    parent: u32,
    k: usize,
    name: &Content,
) -> Result<u32, AllocError>
    requires linked { AreLinked slots.old.items }
    requires pool { IsPool slots.old.items free.old.items (vec_capacity free.old) }
    requires parent { parent < length slots.old.items }
    requires reached { (path : FilePath) × (slot_of slots.old.items 0 path ≡ Some parent) }
    requires place { k ≤ length (place slots.old.items parent).children }
    ensures ok { IfOk result (Grows slots.old.items slots.new.items parent k name.now) }
    ensures room { OnOk result (length (place slots.old.items parent).children < 65535) }
    ensures pool { IsPool slots.new.items free.new.items (vec_capacity free.new) }
    ensures err { OnErr result (Pads slots.old.items slots.new.items) }
{
    let name = name.copy()?;
    let j = take_slot(slots, free)?;
    if slots[parent as usize].link(k, j).is_err() {
        drop(name);
        let _ = free.push(j);
        return Err(AllocError);
    }
    slots[j as usize].begin(name);
    Ok(j)
}

/// The child of a name, which is added where it is not there.
fn enter(
    slots: &mut Vec<Slot>,
    free: &mut Vec<u32>,
    at: u32,
    name: &Content,
) -> Result<u32, AllocError>
    requires arena { IsArena slots.old.items }
    requires pool { IsPool slots.old.items free.old.items (vec_capacity free.old) }
    requires at { at < length slots.old.items }
    requires reached { (path : FilePath) × (slot_of slots.old.items 0 path ≡ Some at) }
    ensures ok { IfOk result (λ j. (path : FilePath) → slot_of slots.old.items 0 path ≡ Some at → IsPath (path ++ name.now ∷ [])
        → IsEntered slots.old.items slots.new.items (path ++ name.now ∷ []) j) }
    ensures used { IfOk result (λ j. AreUsed slots.old.items (Some at) → AreUsed slots.new.items (Some j)) }
    ensures pool { IsPool slots.new.items free.new.items (vec_capacity free.new) }
    ensures err { OnErr result (Pads slots.old.items slots.new.items) }
{
    match search(slots, at, name).0 {
        Ok(k) => Ok(child_of(slots, at, k)),
        Err(k) => add_child(slots, free, at, k, name),
    }
}

/// Adds the slot of the root, unless it is there.
fn add_root(slots: &mut Vec<Slot>) -> Result<(), AllocError>
    requires { IsArena slots.old.items }
    ensures ok { OnOk result (IsEntered slots.old.items slots.new.items [] 0) }
    ensures pool { (free : List ℕ) (capacity : ℕ) → IsPool slots.old.items free capacity → IsPool slots.new.items free capacity }
    ensures pads { Pads slots.old.items slots.new.items }
    ensures err { OnErr result (slots.new.items ≡ slots.old.items) }
{
    if slots.is_empty() {
        slots.push(Slot::blank(*slots.allocator()))?;
    }
    Ok(())
}

/// The slot of a path, which is added, as are those above it, where they are not there.
/// Where memory is wanting, what was added is taken away again.
fn reach(slots: &mut Vec<Slot>, free: &mut Vec<u32>, path: &[Content]) -> Result<u32, AllocError>
    requires arena { IsArena slots.old.items }
    requires pool { IsPool slots.old.items free.old.items (vec_capacity free.old) }
    requires used { AreUsed slots.old.items None }
    requires path { IsPath path.now }
    ensures ok { IfOk result (IsEntered slots.old.items slots.new.items path.now) }
    ensures arena { IsArena slots.new.items }
    ensures pool { IsPool slots.new.items free.new.items (vec_capacity free.new) }
    ensures used { IfOk result (λ i. AreUsed slots.new.items (Some i)) }
    ensures err { OnErr result (AreUsed slots.new.items None) }
    ensures rows { rows_of slots.new.items ≡ rows_of slots.old.items }
{
    add_root(slots)?;
    let mut at = 0;
    for depth in 0..path.len() {
        match enter(slots, free, at, &path[depth]) {
            Ok(next) => at = next,
            Err(error) => {
                prune(slots, free, &path[..depth]);
                return Err(error);
            }
        }
    }
    Ok(at)
}

/// Takes away the slot of a name in a folder, if it stands for no row and has no slots in it; whether it did.
fn drop_idle(slots: &mut Vec<Slot>, free: &mut Vec<u32>, folder: &[Content], name: &Content) -> bool
    requires arena { IsArena slots.old.items }
    requires pool { IsPool slots.old.items free.old.items (vec_capacity free.old) }
    requires used { AreUsed slots.old.items (slot_of slots.old.items 0 (folder.now ++ name.now ∷ [])) }
    ensures arena { IsArena slots.new.items }
    ensures pool { IsPool slots.new.items free.new.items (vec_capacity free.new) }
    ensures dropped { IsTrue result → AreUsed slots.new.items (slot_of slots.new.items 0 folder.now) }
    ensures kept { result ≡ false → AreUsed slots.new.items None }
    ensures rows { rows_of slots.new.items ≡ rows_of slots.old.items }
{
    let Some(at) = descend(slots, folder).0 else {
        return false;
    };
    let Ok(k) = search(slots, at, name).0 else {
        return false;
    };
    let child = child_of(slots, at, k);
    if !slots[child as usize].is_idle() {
        return false;
    }
    slots[at as usize].unlink(k);
    let _ = free.push(child);
    true
}

/// Takes away the slots on the way to a path that stand for no row and have none below them, the last first.
fn prune(slots: &mut Vec<Slot>, free: &mut Vec<u32>, path: &[Content])
    requires arena { IsArena slots.old.items }
    requires pool { IsPool slots.old.items free.old.items (vec_capacity free.old) }
    requires used { AreUsed slots.old.items (slot_of slots.old.items 0 path.now) }
    ensures arena { IsArena slots.new.items }
    ensures pool { IsPool slots.new.items free.new.items (vec_capacity free.new) }
    ensures used { AreUsed slots.new.items None }
    ensures rows { rows_of slots.new.items ≡ rows_of slots.old.items }
{
    let mut depth = path.len();
    while depth > 0 {
        depth -= 1;
        if !drop_idle(slots, free, &path[..depth], &path[depth]) {
            return;
        }
    }
}

/// States that a slot, but the root's, is there only while a row lies at its path or below.
pub fn slots_lead_to_rows()
    ensures { SlotsLeadToRows }
{}

impl Arena {
    /// Appends the spellings of the rows, in order; none of them is copied.
    ///
    /// # Errors
    ///
    /// `AllocError` where memory runs out. A front of the spellings is then appended.
    pub fn spell(&self, out: &mut Vec<u8>) -> Result<(), AllocError>
        requires { AllByRecursion (λ row. node_size row.node ≤ max_file) self.now }
        ensures ok { OnOk result (out.new.items ≡ out.old.items ++ flat_map spelled_row self.now) }
        ensures err { OnErr result (IsFront out.old.items out.new.items (flat_map spelled_row self.now)) }
    {
        let root = Path::root(*self.slots.allocator());
        spell_rows(&self.slots, &root, 0, 34, out)
    }
}

/// Appends the spellings of the row of a slot and of those below it, so many levels down.
fn spell_rows(
    slots: &[Slot],
    path: &Path,
    i: u32,
    levels: u32,
    out: &mut Vec<u8>,
) -> Result<(), AllocError>
    requires linked { AreLinked slots.now }
    requires paths { (below : FilePath) (k : ℕ) → slot_of slots.now i below ≡ Some k → IsPath (path.now ++ below) }
    requires small { AllByRecursion (λ row. node_size row.node ≤ max_file) (rows_from levels slots.now path.now i) }
    ensures ok { OnOk result (out.new.items ≡ out.old.items ++ flat_map spelled_row (rows_from levels slots.now path.now i)) }
    ensures err { OnErr result (IsFront out.old.items out.new.items (flat_map spelled_row (rows_from levels slots.now path.now i))) }
{
    if levels == 0 {
        return Ok(());
    }
    spell_own_row(slots, path, i, out)?;
    for k in 0..child_count(slots, i) {
        let c = child_of(slots, i, k);
        let child = path.child(slots[c as usize].name())?;
        spell_rows(slots, &child, c, levels - 1, out)?;
    }
    Ok(())
}

/// Appends the spelling of the row of a slot, if it stands for one.
fn spell_own_row(slots: &[Slot], path: &Path, i: u32, out: &mut Vec<u8>) -> Result<(), AllocError>
    requires { AllByRecursion (λ row. node_size row.node ≤ max_file) (option_to_list (own_row path.now (place slots.now i))) }
    ensures ok { OnOk result
        (out.new.items ≡ out.old.items ++ flat_map spelled_row (option_to_list (own_row path.now (place slots.now i)))) }
    ensures err { OnErr result
        (IsFront out.old.items out.new.items (flat_map spelled_row (option_to_list (own_row path.now (place slots.now i))))) }
{
    let version = version_of(slots, i);
    if version > 0 {
        spell_row(path, version, node_of(slots, i), out)?;
    }
    Ok(())
}
