//! Taking a tree's rows from the bytes that spell them, with the place of the first faulty field.

ghost use Rattle.std.specs.Prelude.{◌≡◌, ◌≤◌, [], length};
ghost use Rattle.byte_fields.specs.Field.{Gives, each_at};
ghost use Rattle.tree_values.specs.Tree.{AreInOrder};
ghost use Rattle.tree_values.specs.Inside.{begun_row_at, with_begun};
ghost use Rattle.tree_values.specs.declared.format.Format.TheVariants.{Second};
ghost use Rattle.tree_values.specs.Reading.{may_stand, standing_at, file_at, room_beside, next_row_at, with_next, rows_in, rows_at};

use crate::format::Format;
use crate::limits::{MAX_FILES, MAX_ROWS};
use crate::lists::Rows;
use crate::node::{Node, Row, size_of};
use crate::rows::{is_behind, is_folder_at};
use byte_fields::{TakeError, Taken, take_all, u8_at, u32_at, u64_at};
use file_paths::{Content, MAX_FILE, Path};
use std::alloc::Global;
use std::marker::Model;

impl Rows {
    /// Takes a tree's rows at the place, as `take_in` does of the second format.
    pub fn take(alloc: Global, bytes: &[u8], at: usize) -> Result<(Rows, usize), TakeError>
        ensures { Gives result (rows_at bytes.now at) }
    {
        Rows::take_in(Format::Second, alloc, bytes, at)
    }

    /// Takes a tree's rows of a format at the place, and gives the place after them.
    ///
    /// Refuses `At` also at a count above 16,384 and where a row breaks a rule of trees, given the rows before it: at
    /// its path, where that is the root or not above the path before; at its version 0; at its kind of node, where the
    /// parent is no folder; and at the length with which the contents have more than 32 MiB together.
    #[tactic(auto, unfolding(crate::specs::Reading::rows_in, byte_fields::specs::Field::ruled))]
    pub fn take_in(
        format: Format,
        alloc: Global,
        bytes: &[u8],
        at: usize,
    ) -> Result<(Rows, usize), TakeError>
        ensures { Gives result (rows_in format bytes.now at) }
    {
        let (count, start) = u32_at(bytes, at)?;
        if count > MAX_ROWS as u32 {
            return Err(TakeError::At(at));
        }
        rows_from(format, alloc, bytes, start, count)
    }
}

impl Row {
    /// Takes the row of the second format at the place, with no rows before it, and gives the place after it.
    ///
    /// # Errors
    ///
    /// `At` the first faulty field: the path, where it is the root; the version 0; the kind of a node whose parent is not
    /// the root; a length above 8 MiB. `Memory` where memory runs out.
    pub fn take(alloc: Global, bytes: &[u8], at: usize) -> Result<(Row, usize), TakeError>
        ensures { Gives result (next_row_at Second [] bytes.now at) }
    {
        next_row_at(Format::Second, alloc, bytes, at, &[], MAX_FILES)
    }
}

/// So many rows, the first of which is the first of a tree.
fn rows_from(
    format: Format,
    alloc: Global,
    bytes: &[u8],
    start: usize,
    count: u32,
) -> Result<(Rows, usize), TakeError>
    ensures { Gives result (each_at (next_row_at format) with_next count [] bytes.now start) }
{
    let mut taken = RowsTaken {
        format,
        rows: Rows::new(alloc),
        room: MAX_FILES,
    };
    let next = take_all::<Row, RowsTaken>(alloc, bytes, start, count, &mut taken)?;
    Ok((taken.into_rows(), next))
}

/// The rows of a format that were taken so far, and how many bytes of content may follow.
#[derive(Drop)]
struct RowsTaken {
    format: Format,
    rows: Rows,
    room: usize,
}

impl Model for RowsTaken {
    ghost use Rattle.tree_values.specs.Inside.{Begun, LeaveRoom};

    ghost Value = { Begun };

    ghost view = { λ taken. record { format = taken.format; rows = taken.rows } };

    ghost invariant = { λ taken. LeaveRoom taken.rows taken.room };
}

impl RowsTaken {
    /// The rows. It takes no memory.
    fn into_rows(self) -> Rows
        ensures { result ≡ self.rows }
    {
        let RowsTaken {
            format: _,
            rows,
            room: _,
        } = self;
        rows
    }
}

impl Taken<Row> for RowsTaken {
    ghost item_at = { begun_row_at };

    ghost after = { with_begun };

    fn take_next(&mut self, alloc: Global, bytes: &[u8], at: usize) -> Result<usize, TakeError> {
        let behind = self.rows.as_slice();
        let (row, next) = next_row_at(self.format, alloc, bytes, at, behind, self.room)?;
        let size = size_of(row.node.as_ref()) as usize;
        self.rows.push(row)?;
        self.room = self.room.saturating_sub(size);
        Ok(next)
    }
}

/// The row of a format behind these, which leave so much room for contents.
#[tactic(auto, unfolding(crate::specs::Reading::next_row_at, byte_fields::specs::Field::ruled))]
fn next_row_at(
    format: Format,
    alloc: Global,
    bytes: &[u8],
    at: usize,
    rows: &[Row],
    room: usize,
) -> Result<(Row, usize), TakeError>
    requires order { AreInOrder rows.now }
    requires room { room ≡ room_beside rows.now }
    ensures { Gives result (next_row_at format rows.now bytes.now at) }
{
    let (path, middle) = Path::take(alloc, bytes, at)?;
    if !may_stand(rows, &path) {
        return Err(TakeError::At(at));
    }
    let (version, start) = u64_at(bytes, middle)?;
    if version < 1 {
        return Err(TakeError::At(middle));
    }
    let in_folder = is_folder_at(rows, path.folder_names());
    let (node, next) = standing_at(format, alloc, bytes, start, in_folder, room)?;
    Ok((
        Row {
            path,
            version,
            node,
        },
        next,
    ))
}

/// Whether a row of this path may stand behind these rows.
fn may_stand(rows: &[Row], path: &Path) -> bool
    requires { AreInOrder rows.now }
    ensures { result ≡ may_stand rows.now path.now }
{
    !path.names().is_empty() && is_behind(rows, path)
}

/// What stands at a path whose parent is a folder, or is none.
#[tactic(auto, unfolding(crate::specs::Reading::standing_at))]
fn standing_at(
    format: Format,
    alloc: Global,
    bytes: &[u8],
    at: usize,
    in_folder: bool,
    room: usize,
) -> Result<(Option<Node>, usize), TakeError>
    ensures { Gives result (standing_at format in_folder room bytes.now at) }
{
    let (kind, start) = u8_at(bytes, at)?;
    match (kind, format) {
        (0, _) => Ok((None, start)),
        (1, _) if in_folder => Ok((Some(Node::Folder), start)),
        (2, _) if in_folder => file_at(false, alloc, bytes, start, room),
        (3, Format::Second) if in_folder => file_at(true, alloc, bytes, start, room),
        _ => Err(TakeError::At(at)),
    }
}

/// A file where there is still room for so many bytes, which may be run or not.
#[tactic(auto, unfolding(crate::specs::Reading::file_at))]
fn file_at(
    exec: bool,
    alloc: Global,
    bytes: &[u8],
    at: usize,
    room: usize,
) -> Result<(Option<Node>, usize), TakeError>
    ensures { Gives result (file_at exec room bytes.now at) }
{
    let (content, next) = Content::take_within(alloc, bytes, at, room.min(MAX_FILE))?;
    Ok((Some(Node::File { content, exec }), next))
}
