//! Rows with the length and the print of a file in its content's place.

ghost use Rattle.std.specs.Prelude.{◌≡◌, ◌++◌, OnOk, IfOk};
ghost use Rattle.tree_proof.specs.Slim.{node_spelling, slim_spelling, file_kind};

use byte_fields::{put_u32, put_u64};
use file_paths::Path;
use std::alloc::AllocError;

/// What stands at a path, with a file's length and print in its content's place.
#[derive(Debug, Drop)]
pub enum SlimNode {
    /// Nothing stands there any more.
    None,
    Folder,
    File {
        /// Whether it may be run.
        exec: bool,
        /// How many bytes it has.
        len: u32,
        /// Their SHA-256.
        print: [u8; 32],
    },
}

/// What stands at a path, as a certificate tells it.
#[derive(Debug, Drop)]
pub struct SlimRow {
    pub path: Path,
    pub version: u64,
    pub node: SlimNode,
}

impl SlimNode {
    /// An equal node.
    pub fn copy(&self) -> SlimNode
        ensures { result ≡ self.now }
    {
        match self {
            SlimNode::None => SlimNode::None,
            SlimNode::Folder => SlimNode::Folder,
            SlimNode::File { exec, len, print } => SlimNode::File {
                exec: *exec,
                len: *len,
                print: *print,
            },
        }
    }
}

impl SlimRow {
    /// An equal row.
    pub fn copy(&self) -> Result<SlimRow, AllocError>
        ensures { IfOk result (λ copied. copied ≡ self.now) }
    {
        Ok(SlimRow {
            path: self.path.copy()?,
            version: self.version,
            node: self.node.copy(),
        })
    }
}

/// Appends the spelling of a slim row, which is given by its parts.
pub(crate) fn put_slim(
    path: &Path,
    version: u64,
    node: &SlimNode,
    out: &mut Vec<u8>,
) -> Result<(), AllocError>
    ensures { OnOk result (out.new.items ≡ out.old.items
        ++ slim_spelling (record { path = path.now; version = version; node = node.now })) }
{
    Path::spell(path, out)?;
    put_u64(out, version)?;
    put_node(node, out)
}

/// Appends the kind of what stands there, and a file's length and print.
fn put_node(node: &SlimNode, out: &mut Vec<u8>) -> Result<(), AllocError>
    ensures { OnOk result (out.new.items ≡ out.old.items ++ node_spelling node.now) }
{
    match node {
        SlimNode::None => out.push(0)?,
        SlimNode::Folder => out.push(1)?,
        SlimNode::File { exec, len, print } => {
            out.push(file_kind(*exec))?;
            put_u32(out, *len)?;
            out.extend_from_slice(print)?;
        }
    }
    Ok(())
}

/// The byte of a file.
fn file_kind(exec: bool) -> u8
    ensures { result ≡ file_kind exec }
{
    if exec { 3 } else { 2 }
}
