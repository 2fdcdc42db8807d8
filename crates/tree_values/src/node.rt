//! What stands at paths, what changes it, and why a change is refused.

ghost use Rattle.std.specs.Prelude.{◌≡◌, ◌^◌, ◌<◌, IfOk, false};
ghost use Rattle.std.specs.Option.{option_copied};
ghost use Rattle.tree_values.specs.declared.node.Effect.TheVariants.{Put, Move, Mode};
ghost use Rattle.tree_values.specs.declared.node.TreeError.TheVariants.{NotEmpty, Memory};
ghost use Rattle.byte_fields.specs.Codec.{IsBytes};
ghost use Rattle.tree_values.specs.declared.node.Node.TheVariants.{File};
ghost use Rattle.tree_values.specs.Tree.{node_size, file_bytes, is_exec as is_exec_of};

use file_paths::{Content, Path, TryCopy};
use std::alloc::AllocError;
use thiserror::Error;

/// What stands at a path.
#[derive(Debug, Drop)]
pub enum Node {
    Folder,
    /// A file, and whether it may be run.
    File { content: Content, exec: bool },
}

/// What stands at a path, and how many applied effects touched it.
#[derive(Debug, Drop)]
pub struct Row {
    pub path: Path,
    pub version: u64,
    pub node: Option<Node>,
}

/// A path and the version that it had.
#[derive(Debug, Drop)]
pub struct Base {
    pub path: Path,
    pub version: u64,
}

/// A change of a tree: it makes a folder, writes a file, removes a file or an empty folder,
/// moves a file from one path to another, or says whether a file may be run.
#[derive(Debug, Drop)]
pub enum Effect {
    Make(Path),
    Put(Path, Content),
    Remove(Path),
    Move(Path, Path),
    Mode(Path, bool),
}

/// Why an effect is refused.
#[derive(Debug, Drop, Error)]
pub enum TreeError {
    /// The root is neither made, written, removed nor moved.
    #[error("the root is fixed")]
    RootFixed,
    /// This folder, in which something would stand, does not exist.
    #[error("no such folder")]
    NoParent(Path),
    /// Something stands at this path already.
    #[error("there is something already")]
    Exists(Path),
    /// Nothing stands at this path.
    #[error("there is nothing")]
    Missing(Path),
    /// A folder stands at this path, where a file is wanted.
    #[error("it is a folder")]
    IsFolder(Path),
    /// The folder holds something, the second path being the first such.
    #[error("the folder is not empty")]
    NotEmpty(Path, Path),
    /// The tree has this many rows, which is the most that it may have.
    #[error("more than {0} rows")]
    RowsFull(u32),
    /// The file would have this many bytes.
    #[error("a file of {0} bytes")]
    FileTooLarge(u64),
    /// All files together would have this many bytes.
    #[error("{0} bytes in all files")]
    TreeFull(u64),
    /// The version of this path is the greatest that there is.
    #[error("the last version")]
    VersionTop(Path),
    #[error("out of memory")]
    Memory,
}

impl From<AllocError> for TreeError {
    ghost from_gives = { λ _ e. e ≡ Memory };

    fn from(_: AllocError) -> TreeError {
        TreeError::Memory
    }
}

impl Node {
    /// A file that may not be run.
    pub fn file(content: Content) -> Node
        ensures { result ≡ File content false }
    {
        Node::File {
            content,
            exec: false,
        }
    }

    /// A copy of the node, whose content shares its bytes.
    pub fn copy(&self) -> Result<Node, AllocError>
        ensures { IfOk result (λ copied. copied ≡ self.now) }
    {
        match self {
            Node::Folder => Ok(Node::Folder),
            Node::File { content, exec } => copy_file(content, *exec),
        }
    }
}

impl TryCopy for Node {
    fn copy(&self) -> Result<Node, AllocError> {
        Node::copy(self)
    }
}

impl Row {
    /// A copy of the row.
    pub fn copy(&self) -> Result<Row, AllocError>
        ensures { IfOk result (λ copied. copied ≡ self.now) }
    {
        Ok(Row {
            path: self.path.copy()?,
            version: self.version,
            node: copy_node(self.node.as_ref())?,
        })
    }
}

impl TryCopy for Row {
    fn copy(&self) -> Result<Row, AllocError> {
        Row::copy(self)
    }
}

impl Base {
    /// A copy of the path and its version.
    pub fn copy(&self) -> Result<Base, AllocError>
        ensures { IfOk result (λ copied. copied ≡ self.now) }
    {
        Ok(Base {
            path: self.path.copy()?,
            version: self.version,
        })
    }
}

impl TryCopy for Base {
    fn copy(&self) -> Result<Base, AllocError> {
        Base::copy(self)
    }
}

impl Effect {
    /// A copy of the effect.
    pub fn copy(&self) -> Result<Effect, AllocError>
        ensures { IfOk result (λ copied. copied ≡ self.now) }
    {
        match self {
            Effect::Make(path) => Ok(Effect::Make(path.copy()?)),
            Effect::Put(path, content) => copy_put(path, content),
            Effect::Remove(path) => Ok(Effect::Remove(path.copy()?)),
            Effect::Move(from, to) => copy_move(from, to),
            Effect::Mode(path, exec) => copy_mode(path, *exec),
        }
    }
}

impl TryCopy for Effect {
    fn copy(&self) -> Result<Effect, AllocError> {
        Effect::copy(self)
    }
}

impl TreeError {
    /// A copy of the refusal.
    pub fn copy(&self) -> Result<TreeError, AllocError>
        ensures { IfOk result (λ copied. copied ≡ self.now) }
    {
        match self {
            TreeError::RootFixed => Ok(TreeError::RootFixed),
            TreeError::NoParent(path) => Ok(TreeError::NoParent(path.copy()?)),
            TreeError::Exists(path) => Ok(TreeError::Exists(path.copy()?)),
            TreeError::Missing(path) => Ok(TreeError::Missing(path.copy()?)),
            TreeError::IsFolder(path) => Ok(TreeError::IsFolder(path.copy()?)),
            TreeError::NotEmpty(path, child) => copy_not_empty(path, child),
            TreeError::RowsFull(rows) => Ok(TreeError::RowsFull(*rows)),
            TreeError::FileTooLarge(bytes) => Ok(TreeError::FileTooLarge(*bytes)),
            TreeError::TreeFull(bytes) => Ok(TreeError::TreeFull(*bytes)),
            TreeError::VersionTop(path) => Ok(TreeError::VersionTop(path.copy()?)),
            TreeError::Memory => Ok(TreeError::Memory),
        }
    }
}

impl TryCopy for TreeError {
    fn copy(&self) -> Result<TreeError, AllocError> {
        TreeError::copy(self)
    }
}

fn copy_put(path: &Path, content: &Content) -> Result<Effect, AllocError>
    ensures { IfOk result (λ copied. copied ≡ Put path.now content.now) }
{
    Ok(Effect::Put(path.copy()?, content.copy()?))
}

fn copy_move(from: &Path, to: &Path) -> Result<Effect, AllocError>
    ensures { IfOk result (λ copied. copied ≡ Move from.now to.now) }
{
    Ok(Effect::Move(from.copy()?, to.copy()?))
}

fn copy_mode(path: &Path, exec: bool) -> Result<Effect, AllocError>
    ensures { IfOk result (λ copied. copied ≡ Mode path.now exec) }
{
    Ok(Effect::Mode(path.copy()?, exec))
}

fn copy_file(content: &Content, exec: bool) -> Result<Node, AllocError>
    ensures { IfOk result (λ copied. copied ≡ File content.now exec) }
{
    let content = content.copy()?;
    Ok(Node::File { content, exec })
}

fn copy_not_empty(path: &Path, child: &Path) -> Result<TreeError, AllocError>
    ensures { IfOk result (λ copied. copied ≡ NotEmpty path.now child.now) }
{
    Ok(TreeError::NotEmpty(path.copy()?, child.copy()?))
}

/// A copy of what stands at a path.
pub fn copy_node(node: Option<&Node>) -> Result<Option<Node>, AllocError>
    ensures { IfOk result (λ copied. copied ≡ option_copied node.entry) }
{
    match node {
        Some(node) => Ok(Some(node.copy()?)),
        None => Ok(None),
    }
}

/// How many bytes what stands at a path has.
pub fn size_of(node: Option<&Node>) -> u64
    ensures value { result ≡ node_size (option_copied node.entry) }
    ensures bound { result < 2 ^ 63 }
    ensures bytes { IsBytes (file_bytes (option_copied node.entry)) }
{
    match node {
        Some(Node::File { content, .. }) => content.bytes().len() as u64,
        _ => 0,
    }
}

/// Whether what stands at a path is a file that may be run.
pub fn is_exec(node: Option<&Node>) -> bool
    ensures { result ≡ is_exec_of (option_copied node.entry) }
{
    match node {
        Some(Node::File { exec, .. }) => *exec,
        _ => false,
    }
}
