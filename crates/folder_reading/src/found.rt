// The rows of a folder that is read.
ghost use Rattle.std.specs.Prelude.{◌≡◌, ◌≤◌, ◌+◌, ◌++◌, ◌∷◌, [], length, Some, OnOk};
ghost use Rattle.tree_values.specs.Tree.{node_size};
ghost use Rattle.tree_values.specs.Limits.{max_rows, max_files};
ghost use Rattle.folder_reading.specs.Found.{raw_size, HasTreeSize};
ghost use Rattle.folder_reading.specs.Withheld.{withheld_in};

use crate::trouble::HostTrouble;
use cmd_capture::{RawRow, RawRows};
use file_paths::Content;
use std::alloc::Global;
use std::marker::Model;
use tree_values::{MAX_FILES, MAX_ROWS, Node, size_of};

/// The right of a file's owner to run it: that is what it is for a file to have its bit.
pub(crate) const OWNER_RUNS: u32 = 0o100;

/// What is told of a folder with more rows, and of one with more bytes.
pub(crate) const TOO_MANY_ROWS: &str = "more than 16,384 files and folders";

pub(crate) const TOO_MANY_BYTES: &str = "more than 33,554,432 bytes in files";

const _: () = prove!(MAX_ROWS == 16_384 && MAX_FILES == 33_554_432);

/// The rows that were found so far: at most [`MAX_ROWS`], with at most [`MAX_FILES`] bytes in all files.
#[derive(Drop)]
pub(crate) struct Found {
    rows: RawRows,
    bytes: usize,
}

impl Model for Found {
    ghost use Rattle.std.specs.Prelude.{◌≡◌, List};
    ghost use Rattle.cmd_capture.specs.declared.job.RawRow.{RawRow};
    ghost use Rattle.folder_reading.specs.Found.{raw_size, HasTreeSize};

    ghost Value = { List RawRow };

    ghost view = { λ found. found.rows };

    ghost invariant = { λ found. HasTreeSize found.rows × (found.bytes ≡ raw_size found.rows) };
}

impl Found {
    /// No row.
    pub(crate) fn new(alloc: Global) -> Found
        ensures { result ≡ [] }
    {
        Found {
            rows: RawRows::new(alloc),
            bytes: 0,
        }
    }

    /// How many more rows there may be.
    pub(crate) fn rows_left(&self) -> usize
        ensures { result + length self.now ≡ max_rows }
    {
        MAX_ROWS - self.rows.len()
    }

    /// How many more bytes the files may have.
    pub(crate) fn bytes_left(&self) -> usize
        ensures { result + raw_size self.now ≡ max_files }
    {
        MAX_FILES - self.bytes
    }

    /// Adds a folder.
    #[tactic(auto, using(crate::proofs::ToldBack::text_is_told))]
    pub(crate) fn add_folder(&mut self, path: &str) -> Result<(), HostTrouble>
        ensures one { OnOk result (length self.new ≡ length self.old + 1) }
        ensures few { OnOk result (length self.new ≤ max_rows) }
        ensures text { OnOk result (withheld_in self.new ≡ withheld_in self.old) }
    {
        let path = Content::of(self.rows.allocator(), path.as_bytes())?;
        self.add(path, Node::Folder, 0)
    }

    /// Adds a file, which may be run or not.
    #[tactic(auto, using(crate::proofs::ToldBack::text_is_told))]
    pub(crate) fn add_file(
        &mut self,
        path: &str,
        content: Content,
        exec: bool,
    ) -> Result<(), HostTrouble>
        ensures one { OnOk result (length self.new ≡ length self.old + 1) }
        ensures few { OnOk result (length self.new ≤ max_rows) }
        ensures text { OnOk result (withheld_in self.new ≡ withheld_in self.old) }
    {
        let size = content.bytes().len();
        match Content::of(self.rows.allocator(), path.as_bytes()) {
            Ok(path) => self.add(path, Node::File { content, exec }, size),
            Err(error) => {
                drop(content);
                Err(HostTrouble::from(error))
            }
        }
    }

    /// Adds a row as it is.
    pub(crate) fn add_row(&mut self, row: &RawRow) -> Result<(), HostTrouble>
        ensures { OnOk result (self.new ≡ self.old ++ row.now ∷ []) }
    {
        let path = row.path.copy()?;
        match row.node.copy() {
            Ok(node) => self.add(path, node, size_of(Some(&row.node)) as usize),
            Err(error) => {
                drop(path);
                Err(HostTrouble::from(error))
            }
        }
    }

    /// Adds what stands at the path, where there is room.
    #[tactic(auto, using(crate::proofs::Sizes::raw_size_more))]
    fn add(&mut self, path: Content, node: Node, size: usize) -> Result<(), HostTrouble>
        requires { size ≡ node_size (Some node) }
        ensures added { OnOk result (self.new ≡ self.old ++ record { path = path; node = node } ∷ []) }
        ensures few { OnOk result (length self.new ≤ max_rows) }
    {
        if self.rows_left() == 0 {
            return Err(HostTrouble::Told(TOO_MANY_ROWS));
        }
        if size > self.bytes_left() {
            return Err(HostTrouble::Told(TOO_MANY_BYTES));
        }
        self.rows.push(RawRow { path, node })?;
        self.bytes += size;
        Ok(())
    }

    /// The rows.
    pub(crate) fn into_rows(self) -> RawRows
        ensures rows { result ≡ self }
        ensures small { HasTreeSize result }
    {
        self.rows
    }
}
