//! The volume tree, which contracts see as the list of its rows in the order of their paths.
ghost use Rattle.std.specs.Prelude.{◌≡◌, ◌≢◌, ◌+◌, ◌*◌, ◌<◌, ◌≤◌, List, [], ◌∷◌, ◌++◌, length, Some, None, IfOk, IfErr, OnOk, OnErr};
ghost use Rattle.std.specs.Prelude.{is_some, option_map, slice_get, IfSome, find, ◌-◌, Ok, Err};
ghost use Rattle.std.specs.Option.{option_copied, option_to_list};
ghost use Rattle.tree_values.specs.declared.node.TreeError.TheVariants.{Memory};
ghost use Rattle.tree_values.specs.declared.node.Row.{Row};
ghost use Rattle.tree_values.specs.Tree.{IsTree, version_at, node_at, is_folder, apply, touched, undone, CanUndo, changed, kept_rows};
ghost use Rattle.tree_values.specs.Tree.{is_folder_node as is_folder_of, has_no_room, is_child, total_size, node_size};
ghost use Rattle.tree_values.specs.Tree.{children, IsRowsRefusal, IsLegalEffect, with_content, with_mode as mode_set};
ghost use Rattle.byte_fields.specs.Codec.{IsBytes};
ghost use Rattle.byte_fields.specs.Field.{IsFront};
ghost use Rattle.file_paths.specs.Path.{FilePath, IsPath};
ghost use Rattle.tree_values.specs.Limits.{max_files};
ghost use Rattle.tree_values.specs.Spelling.{rows as spelled_rows};

use byte_fields::put_u32;
use file_paths::{Content, MAX_FILE, Names, Path, TryCopy};
use std::alloc::{AllocError, Global};
use std::marker::Model;
use tree_slots::Counted;
use tree_values::{
    Effect, MAX_FILES, MAX_ROWS, Node, Row, Rows, RowsError, TreeError, copy_node, is_exec, size_of,
};

/// How many bytes the spelling of most rows is shorter than, apart from the content.
const ROW_ROOM: usize = 64;

/// What an effect changed, as the rows from before; version 0 stands for no row.
#[derive(Debug, Drop)]
pub struct Undo {
    first: Row,
    second: Option<Row>,
}

impl Model for Undo {
    ghost Value = { List Row };

    ghost view = { λ undo. undo.first ∷ option_to_list undo.second };
}

impl TryCopy for Undo {
    fn copy(&self) -> Result<Undo, AllocError> {
        Undo::copy(self)
    }
}

impl Undo {
    /// A copy of the undo.
    pub fn copy(&self) -> Result<Undo, AllocError>
        ensures { IfOk result (λ copied. copied ≡ self.now) }
    {
        Ok(Undo {
            first: self.first.copy()?,
            second: match &self.second {
                Some(row) => Some(row.copy()?),
                None => None,
            },
        })
    }
}

/// A tree of files and folders: at most 16,384 rows, and 33,554,432 bytes in all files.
#[derive(Drop)]
pub struct Tree {
    rows: Counted,
}

impl Model for Tree {
    ghost Value = { List Row };

    ghost view = { λ tree. tree.rows };

    ghost invariant = { λ tree. IsTree tree.rows };
}

impl TryCopy for Tree {
    fn copy(&self) -> Result<Tree, AllocError> {
        Tree::copy(self)
    }
}

impl Tree {
    /// The tree without rows.
    pub fn new(alloc: Global) -> Tree
        ensures { result ≡ [] }
    {
        Tree {
            rows: Counted::new(alloc),
        }
    }

    /// The tree with these rows; refused at the first row that breaks a rule, given those before it.
    pub fn from_rows(alloc: Global, rows: Rows) -> Result<Tree, RowsError>
        ensures ok { IfOk result (λ tree. tree ≡ rows) }
        ensures err { IfErr result (IsRowsRefusal rows) }
    {
        if let Some(i) = rows.first_bad() {
            return Err(RowsError::BadRow(i));
        }
        match Counted::from_rows(alloc, rows.as_slice()) {
            Ok(rows) => Ok(Tree { rows }),
            Err(_) => Err(RowsError::Memory),
        }
    }

    /// A copy of the tree, whose contents share their bytes.
    pub fn copy(&self) -> Result<Tree, AllocError>
        ensures { IfOk result (λ copied. copied ≡ self.now) }
    {
        Ok(Tree {
            rows: self.rows.copy()?,
        })
    }

    /// The allocator of the tree.
    pub fn allocator(&self) -> Global {
        self.rows.arena().allocator()
    }

    /// The number of rows.
    pub fn count(&self) -> u32
        ensures count { result ≡ length self.now }
        ensures tree { IsTree self.now }
    {
        let rows = &self.rows;
        rows.count() as u32
    }

    /// The node at the path; `None` for the root.
    pub fn get(&self, path: &Path) -> Option<&Node>
        ensures { option_copied result ≡ node_at self.now path.now }
    {
        self.find(path).0
    }

    /// The node at the path, `None` for the root; and how many names were compared with names of the path.
    pub fn find(&self, path: &Path) -> (Option<&Node>, u32)
        ensures node { option_copied result.0 ≡ node_at self.now path.now }
        ensures few { result.1 ≤ 16 * length path.now }
    {
        self.rows.arena().find(path.names())
    }

    /// Whether the path is a folder, as the root always is.
    pub fn is_folder(&self, path: &Path) -> bool
        ensures { result ≡ is_folder self.now path.now }
    {
        is_folder_in(&self.rows, path.names())
    }

    /// How many applied effects touched the path.
    pub fn version(&self, path: &Path) -> u64
        ensures { result ≡ version_at self.now path.now }
    {
        self.rows.arena().version(path.names())
    }

    /// A copy of the rows.
    pub fn rows(&self) -> Result<Rows, AllocError>
        ensures rows { IfOk result (λ rows. rows ≡ self.now) }
        ensures tree { IsTree self.now }
    {
        let rows = &self.rows;
        rows.arena().rows()
    }

    /// Appends the spelling of the rows, as `Rows::spell` does, and copies none of them.
    ///
    /// # Errors
    ///
    /// `AllocError` where memory runs out. A front of the spelling is then appended.
    #[tactic(auto, using(byte_fields::proofs::Fronts::front_none, byte_fields::proofs::Fronts::front_second))]
    pub fn spell_rows(&self, out: &mut Vec<u8>) -> Result<(), AllocError>
        ensures rows { OnOk result (out.new.items ≡ out.old.items ++ spelled_rows self.now) }
        ensures err { OnErr result (IsFront out.old.items out.new.items (spelled_rows self.now)) }
        ensures tree { IsTree self.now }
    {
        let rows = &self.rows;
        out.reserve(room_for(rows))?;
        put_u32(out, self.count())?;
        rows.arena().spell(out)?;
        Ok(())
    }

    /// The names in a folder, in order; none where the path is no folder.
    pub fn children(&self, path: &Path) -> Result<Names, AllocError>
        ensures { IfOk result (λ names. names ≡ children self.now path.now) }
    {
        self.rows.arena().children(path.names())
    }

    /// Name `i` in a folder, counted from 0. It takes no memory.
    pub fn child(&self, path: &Path, i: u32) -> Option<&Content>
        ensures { option_copied result ≡ slice_get (children self.now path.now) i }
    {
        self.rows.arena().child(path.names(), i)
    }

    /// Applies an effect, or refuses it; after a refusal the tree is as before.
    pub fn apply(&mut self, effect: &Effect) -> Result<Undo, TreeError>
        ensures ok { OnOk result (apply effect.now self.old ≡ Ok self.new) }
        ensures err { IfErr result (λ e. e ≢ TreeError.Memory → apply effect.now self.old ≡ Err e) }
        ensures unchanged { OnErr result (self.new ≡ self.old) }
        ensures legal { IsLegalEffect effect.now }
        ensures kept { IfOk result (λ undo. undo ≡ kept_rows effect.now self.old) }
        ensures undoes { IfOk result (λ undo. undone undo self.new ≡ self.old) }
        ensures can_undo { IfOk result (λ undo. CanUndo undo self.new) }
    {
        check(&self.rows, effect)?;
        Ok(change(&mut self.rows, effect)?)
    }

    /// Takes back the effect that was applied last.
    pub fn undo(&mut self, undo: Undo)
        requires { CanUndo undo self.old }
        ensures { self.new ≡ undone undo self.old }
    {
        let Undo { first, second } = undo;
        match second {
            Some(second) => restore_both(&mut self.rows, first, second),
            None => self.rows.restore(first),
        }
    }
}

/// How much the spelling of the rows takes: the bytes of all files, and what the rest of most rows is shorter than. A buffer with
/// this room does not grow, and so does not move, behind contents.
fn room_for(rows: &Counted) -> usize {
    let others = ROW_ROOM.saturating_mul(rows.count() as usize);
    others.saturating_add(rows.size() as usize)
}

/// Puts two kept rows back, the last of which leaves a tree.
fn restore_both(rows: &mut Counted, first: Row, second: Row)
    requires tree { IsTree rows.old }
    requires can_undo { CanUndo (first ∷ second ∷ []) rows.old }
    ensures { rows.new ≡ undone (first ∷ second ∷ []) rows.old }
{
    let _size = size_of(first.node.as_ref());
    rows.restore(first);
    rows.restore(second);
}

/// Whether the effect may be applied, and else why not.
fn check(rows: &Counted, effect: &Effect) -> Result<(), TreeError>
    requires { IsTree rows.now }
    ensures ok { OnOk result (apply effect.now rows.now ≡ Ok (changed effect.now rows.now)) }
    ensures err { IfErr result (λ e. e ≢ TreeError.Memory → apply effect.now rows.now ≡ Err e) }
    ensures legal { IsLegalEffect effect.now }
{
    match effect {
        Effect::Make(path) => check_make(rows, path),
        Effect::Put(path, content) => check_put(rows, path, content),
        Effect::Remove(path) => check_remove(rows, path),
        Effect::Move(from, to) => check_move(rows, from, to),
        Effect::Mode(path, exec) => check_mode(rows, path, *exec),
    }
}

fn check_make(rows: &Counted, path: &Path) -> Result<(), TreeError>
    requires { IsTree rows.now }
    ensures ok { OnOk result (apply (Effect.Make path.now) rows.now ≡ Ok (changed (Effect.Make path.now) rows.now)) }
    ensures err { IfErr result (λ e. e ≢ TreeError.Memory → apply (Effect.Make path.now) rows.now ≡ Err e) }
    ensures path { IsPath path.now }
{
    let names = path.names();
    if names.is_empty() {
        return Err(TreeError::RootFixed);
    }
    if !is_folder_in(rows, path.folder_names()) {
        return Err(TreeError::NoParent(path.folder()?));
    }
    let (node, version) = rows.arena().look(names);
    if node.is_some() {
        return Err(TreeError::Exists(path.copy()?));
    }
    if lacks_room(rows, version) {
        return Err(TreeError::RowsFull(MAX_ROWS as u32));
    }
    if version == u64::MAX {
        return Err(TreeError::VersionTop(path.copy()?));
    }
    Ok(())
}

fn check_put(rows: &Counted, path: &Path, content: &Content) -> Result<(), TreeError>
    requires { IsTree rows.now }
    ensures ok { OnOk result (apply (Effect.Put path.now content.now) rows.now ≡ Ok (changed (Effect.Put path.now content.now) rows.now)) }
    ensures err { IfErr result (λ e. e ≢ TreeError.Memory → apply (Effect.Put path.now content.now) rows.now ≡ Err e) }
    ensures path { IsPath path.now }
    ensures bytes { IsBytes content.now }
{
    let names = path.names();
    let size = content.bytes().len() as u64;
    if names.is_empty() {
        return Err(TreeError::RootFixed);
    }
    if !is_folder_in(rows, path.folder_names()) {
        return Err(TreeError::NoParent(path.folder()?));
    }
    let (node, version) = rows.arena().look(names);
    if is_folder_node(node) {
        return Err(TreeError::IsFolder(path.copy()?));
    }
    if lacks_room(rows, version) {
        return Err(TreeError::RowsFull(MAX_ROWS as u32));
    }
    if size > MAX_FILE as u64 {
        return Err(TreeError::FileTooLarge(size));
    }
    let total = size_of_others(rows, node) + size;
    if total > MAX_FILES as u64 {
        return Err(TreeError::TreeFull(total));
    }
    if version == u64::MAX {
        return Err(TreeError::VersionTop(path.copy()?));
    }
    Ok(())
}

fn check_remove(rows: &Counted, path: &Path) -> Result<(), TreeError>
    requires { IsTree rows.now }
    ensures ok { OnOk result (apply (Effect.Remove path.now) rows.now ≡ Ok (changed (Effect.Remove path.now) rows.now)) }
    ensures err { IfErr result (λ e. e ≢ TreeError.Memory → apply (Effect.Remove path.now) rows.now ≡ Err e) }
    ensures path { IsPath path.now }
{
    let names = path.names();
    if names.is_empty() {
        return Err(TreeError::RootFixed);
    }
    let (node, version) = rows.arena().look(names);
    if node.is_none() {
        return Err(TreeError::Missing(path.copy()?));
    }
    if let Some(name) = first_child(rows, names) {
        return Err(TreeError::NotEmpty(path.copy()?, path.child(name)?));
    }
    if version == u64::MAX {
        return Err(TreeError::VersionTop(path.copy()?));
    }
    Ok(())
}

fn check_move(rows: &Counted, from: &Path, to: &Path) -> Result<(), TreeError>
    requires { IsTree rows.now }
    ensures ok { OnOk result (apply (Effect.Move from.now to.now) rows.now ≡ Ok (changed (Effect.Move from.now to.now) rows.now)) }
    ensures err { IfErr result (λ e. e ≢ TreeError.Memory → apply (Effect.Move from.now to.now) rows.now ≡ Err e) }
    ensures from { IsPath from.now }
    ensures to { IsPath to.now }
{
    let (old, new) = (from.names(), to.names());
    if old.is_empty() || new.is_empty() {
        return Err(TreeError::RootFixed);
    }
    if !is_folder_in(rows, to.folder_names()) {
        return Err(TreeError::NoParent(to.folder()?));
    }
    let (there, there_version) = rows.arena().look(new);
    if there.is_some() {
        return Err(TreeError::Exists(to.copy()?));
    }
    let (node, version) = rows.arena().look(old);
    if node.is_none() {
        return Err(TreeError::Missing(from.copy()?));
    }
    if is_folder_node(node) {
        return Err(TreeError::IsFolder(from.copy()?));
    }
    if lacks_room(rows, there_version) {
        return Err(TreeError::RowsFull(MAX_ROWS as u32));
    }
    if version == u64::MAX {
        return Err(TreeError::VersionTop(from.copy()?));
    }
    if there_version == u64::MAX {
        return Err(TreeError::VersionTop(to.copy()?));
    }
    Ok(())
}

fn check_mode(rows: &Counted, path: &Path, exec: bool) -> Result<(), TreeError>
    requires { IsTree rows.now }
    ensures ok { OnOk result (apply (Effect.Mode path.now exec) rows.now ≡ Ok (changed (Effect.Mode path.now exec) rows.now)) }
    ensures err { IfErr result (λ e. e ≢ TreeError.Memory → apply (Effect.Mode path.now exec) rows.now ≡ Err e) }
    ensures path { IsPath path.now }
{
    let names = path.names();
    if names.is_empty() {
        return Err(TreeError::RootFixed);
    }
    let (node, version) = rows.arena().look(names);
    if node.is_none() {
        return Err(TreeError::Missing(path.copy()?));
    }
    if is_folder_node(node) {
        return Err(TreeError::IsFolder(path.copy()?));
    }
    if version == u64::MAX {
        return Err(TreeError::VersionTop(path.copy()?));
    }
    Ok(())
}

/// Makes the change of an effect that may be applied.
fn change(rows: &mut Counted, effect: &Effect) -> Result<Undo, AllocError>
    requires tree { IsTree rows.old }
    requires allowed { apply effect.now rows.old ≡ Ok (changed effect.now rows.old) }
    ensures ok { OnOk result (rows.new ≡ changed effect.now rows.old) }
    ensures kept { IfOk result (λ undo. undo ≡ kept_rows effect.now rows.old) }
    ensures err { OnErr result (rows.new ≡ rows.old) }
{
    let first = match effect {
        Effect::Make(path) => rows.touch(path.copy()?, Some(Node::Folder))?,
        Effect::Put(path, content) => {
            let node = written(rows, path, content)?;
            rows.touch(path.copy()?, Some(node))?
        }
        Effect::Remove(path) => rows.touch(path.copy()?, None)?,
        Effect::Move(from, to) => return move_node(rows, from, to),
        Effect::Mode(path, exec) => {
            let node = with_mode(rows, path, *exec)?;
            rows.touch(path.copy()?, node)?
        }
    };
    Ok(Undo {
        first,
        second: None,
    })
}

/// The file that stands at the path once this content is written there.
fn written(rows: &Counted, path: &Path, content: &Content) -> Result<Node, AllocError>
    ensures { IfOk result (λ node. node ≡ with_content (node_at rows.now path.now) content.now) }
{
    let exec = is_exec(node_in(rows, path.names()));
    let content = content.copy()?;
    Ok(Node::File { content, exec })
}

/// A copy of what stands at the path, where a file may then be run, or not.
fn with_mode(rows: &Counted, path: &Path, exec: bool) -> Result<Option<Node>, AllocError>
    ensures { IfOk result (λ node. node ≡ mode_set exec (node_at rows.now path.now)) }
{
    match copy_node(node_in(rows, path.names()))? {
        Some(Node::File { content, exec: _ }) => Ok(Some(Node::File { content, exec })),
        other => Ok(other),
    }
}

/// Gives the node of a path to another.
fn move_node(rows: &mut Counted, from: &Path, to: &Path) -> Result<Undo, AllocError>
    requires tree { IsTree rows.old }
    requires allowed { apply (Effect.Move from.now to.now) rows.old ≡ Ok (changed (Effect.Move from.now to.now) rows.old) }
    ensures ok { OnOk result (rows.new ≡ changed (Effect.Move from.now to.now) rows.old) }
    ensures kept { IfOk result (λ undo. undo ≡ kept_rows (Effect.Move from.now to.now) rows.old) }
    ensures err { OnErr result (rows.new ≡ rows.old) }
{
    let node = copy_node(node_in(rows, from.names()))?;
    let from = from.copy()?;
    let second = rows.touch(to.copy()?, node)?;
    let first = rows.clear(from);
    Ok(Undo {
        first,
        second: Some(second),
    })
}

fn node_in<'a>(rows: &'a Counted, path: &[Content]) -> Option<&'a Node>
    ensures { option_copied result ≡ node_at rows.now path.now }
{
    rows.arena().find(path).0
}

fn is_folder_in(rows: &Counted, path: &[Content]) -> bool
    ensures { result ≡ is_folder rows.now path.now }
{
    path.is_empty() || is_folder_node(node_in(rows, path))
}

fn is_folder_node(node: Option<&Node>) -> bool
    ensures { result ≡ is_folder_of (option_copied node.entry) }
{
    matches!(node, Some(Node::Folder))
}

/// Whether a path of this version has no row, and the rows are full.
fn lacks_room(rows: &Counted, version: u64) -> bool
    requires { IsTree rows.now }
    ensures { (path : FilePath) → version ≡ version_at rows.now path → result ≡ has_no_room rows.now path }
{
    version == 0 && rows.count() >= MAX_ROWS as u64
}

/// The bytes of all files but the one that is this node, if it is one.
fn size_of_others(rows: &Counted, node: Option<&Node>) -> u64
    requires tree { IsTree rows.now }
    requires node { (path : FilePath) × (option_copied node ≡ node_at rows.now path) }
    ensures value { result ≡ total_size rows.now - node_size (option_copied node.entry) }
    ensures small { result ≤ max_files }
{
    rows.size() - size_of(node)
}

/// The name of the first that stands in this folder.
fn first_child<'a>(rows: &'a Counted, folder: &[Content]) -> Option<&'a Content>
    requires { IsTree rows.now }
    ensures refusal { option_map (λ child. TreeError.NotEmpty folder.now child.path) (find (is_child folder.now) rows.now) ≡ option_map
        (λ name. TreeError.NotEmpty folder.now (folder.now ++ name ∷ [])) (option_copied result) }
    ensures path { IfSome (option_copied result) (λ name. IsPath (folder.now ++ name ∷ [])) }
{
    rows.arena().child(folder, 0)
}
