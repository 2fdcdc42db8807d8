// Rows in an arena, with their number and the bytes of their files.
ghost use Rattle.std.specs.Prelude.{◌≡◌, ◌≢◌, ℕ, ◌+◌, ◌-◌, ◌^◌, ◌<◌, ◌≤◌, List, [], length, Some, None, IfOk, OnOk, OnErr, IsTrue};
ghost use Rattle.std.specs.Prelude.{is_some, false, slice_get};
ghost use Rattle.std.specs.Option.{option_copied};
ghost use Rattle.tree_values.specs.Tree.{AreInOrder, row_at, version_at, node_at, node_size, total_size, is_root, is_at_top, touched};
ghost use Rattle.tree_values.specs.Tree.{kept_row, restored, with_row, IsTree};
ghost use Rattle.tree_slots.specs.Arena.{IsCounted, new_rows as counted_new};

use crate::arena::Arena;
use file_paths::{Path, TryCopy};
use std::alloc::{AllocError, Global};
use std::marker::Model;
use tree_values::{Node, Row, size_of};

/// Rows in the order of their paths, found by halving in each folder.
#[derive(Drop)]
pub struct Counted {
    arena: Arena,
    count: u64,
    size: u64,
}

impl Model for Counted {
    ghost use Rattle.std.specs.Prelude.{List};
    ghost use Rattle.tree_values.specs.declared.node.Row.{Row};
    ghost use Rattle.tree_slots.specs.Arena.{IsCounted};

    ghost Value = { List Row };

    ghost view = { λ rows. rows.arena };

    ghost invariant = { λ rows. IsCounted rows.arena rows.count rows.size };
}

impl Counted {
    /// No rows.
    pub fn new(alloc: Global) -> Counted
        ensures { result ≡ [] }
    {
        Counted {
            arena: Arena::new(alloc),
            count: 0,
            size: 0,
        }
    }

    /// The rows, to be read.
    pub fn arena(&self) -> &Arena
        ensures { result.now ≡ self.now }
    {
        &self.arena
    }

    /// The number of rows.
    pub fn count(&self) -> u64
        ensures { result ≡ length self.now }
    {
        self.count
    }

    /// The bytes of all files.
    pub fn size(&self) -> u64
        ensures { result ≡ total_size self.now }
    {
        self.size
    }

    /// Sets the node of a path, counts this in its version, and gives the row from before.
    pub fn touch(&mut self, path: Path, node: Option<Node>) -> Result<Row, AllocError>
        requires below_root { is_root path ≡ false }
        requires below_top { is_at_top self.old path ≡ false }
        requires few { length self.old < 2 ^ 63 }
        requires small { total_size (touched self.old path node) < 2 ^ 64 }
        ensures ok { OnOk result (self.new ≡ touched self.old path node) }
        ensures kept { IfOk result (λ kept. kept ≡ kept_row self.old path) }
        ensures err { OnErr result (self.new ≡ self.old) }
    {
        let added = size_of(node.as_ref());
        let kept = self.arena.touch(path, node)?;
        self.count += new_rows(&kept);
        self.size = self.size - size_of(kept.node.as_ref()) + added;
        Ok(kept)
    }

    /// Takes away the node of a path that has a row, counts this in its version, and gives the row from before.
    pub fn clear(&mut self, path: Path) -> Row
        requires there { IsTrue (is_some (row_at self.old path)) }
        requires below_top { is_at_top self.old path ≡ false }
        requires few { length self.old < 2 ^ 63 }
        ensures touched { self.new ≡ touched self.old path None }
        ensures kept { result ≡ kept_row self.old path }
    {
        let kept = self.arena.touch_again(path, None);
        self.count += new_rows(&kept);
        self.size -= size_of(kept.node.as_ref());
        kept
    }

    /// Adds a row where the path has none.
    pub fn insert(&mut self, row: Row) -> Result<(), AllocError>
        requires below_root { is_root row.path ≡ false }
        requires touched { 1 ≤ row.version }
        requires new { row_at self.old row.path ≡ None }
        requires few { length self.old < 2 ^ 63 }
        requires small { total_size self.old + node_size row.node < 2 ^ 64 }
        ensures ok { OnOk result (self.new ≡ with_row self.old row) }
    {
        let added = size_of(row.node.as_ref());
        self.arena.insert(row)?;
        self.count += 1;
        self.size += added;
        Ok(())
    }

    /// Copies of these rows.
    pub fn from_rows(alloc: Global, rows: &[Row]) -> Result<Counted, AllocError>
        requires { IsTree rows.now }
        ensures { IfOk result (λ counted. counted ≡ rows.now) }
    {
        let mut counted = Counted::new(alloc);
        for row in rows {
            counted.insert(row.copy()?)?;
        }
        Ok(counted)
    }

    /// Puts a kept row back. It takes no memory.
    pub fn restore(&mut self, kept: Row)
        requires there { IsTrue (is_some (row_at self.old kept.path)) }
        requires small { total_size (restored self.old kept) < 2 ^ 64 }
        ensures { self.new ≡ restored self.old kept }
    {
        let removed = size_of(self.arena.find(kept.path.names()).0);
        if kept.version == 0 {
            self.count -= 1;
            self.size -= removed;
            self.arena.restore(kept);
            return;
        }
        self.size = self.size - removed + size_of(kept.node.as_ref());
        self.arena.restore(kept);
    }
}

impl TryCopy for Counted {
    fn copy(&self) -> Result<Counted, AllocError> {
        Ok(Counted {
            arena: self.arena.copy()?,
            count: self.count,
            size: self.size,
        })
    }
}

/// One where the kept row is none.
fn new_rows(kept: &Row) -> u64
    ensures value { result ≡ counted_new kept.now }
    ensures few { result ≤ 1 }
{
    if kept.version == 0 { 1 } else { 0 }
}
