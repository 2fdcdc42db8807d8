//! The root of a tree, and the certificate of a path.

ghost use Rattle.std.specs.Prelude.{◌≡◌, ◌+◌, ◌++◌, ◌<◌, ◌≤◌, length, OnOk, IfOk, IfErr};
ghost use Rattle.std.specs.List.{flat_map, AllByRecursion};
ghost use Rattle.std.specs.Option.{option_copied};
ghost use Rattle.file_paths.specs.Limits.{max_file};
ghost use Rattle.tree_values.specs.Limits.{max_rows};
ghost use Rattle.tree_values.specs.Tree.{IsTree, IsRow, AreInOrder, node_size};
ghost use Rattle.tree_values.specs.Inside.{StandsAt, BelongsAt};
ghost use Rattle.tree_proof.specs.Certificate.{head_spelling, kind_byte, leaf_spelling, first_place, place_limit};
ghost use Rattle.tree_proof.specs.Trees.{root_of, leaves, slim_node, certificate_head_of, leaves_from, shown_rows, proof_of};

use crate::certificate::{CertificateHead, Presence};
use crate::slim::{SlimNode, put_slim};
use crate::tops::{MAX_LEVELS, leaf_digest, put_beside, root_of_leaves};
use byte_fields::put_u32;
use file_paths::Path;
use rs_parity::print;
use std::alloc::{AllocError, Global};
use tree_values::{Node, Row};
use vol_tree::Tree;

/// The root of a tree. It reads every content once.
pub fn root_of(tree: &Tree) -> Result<[u8; 32], AllocError>
    ensures { IfOk result (λ root. root ≡ root_of tree.now) }
{
    let rows = tree.rows()?;
    let leaves = leaves(tree.allocator(), rows.as_slice())?;
    Ok(root_of_leaves(tree.count(), leaves.as_slice()))
}

/// The certificate of what stands at a path, to be checked against the tree's root.
pub fn prove(tree: &Tree, path: &Path) -> Result<Vec<u8>, AllocError>
    ensures { IfOk result (λ bytes. bytes.items ≡ proof_of tree.now path.now) }
{
    let rows = tree.rows()?;
    let leaves = leaves(tree.allocator(), rows.as_slice())?;
    let head = head_of(rows.as_slice(), path);
    let mut out = Vec::new(tree.allocator());
    put_head(head, &mut out)?;
    put_shown(rows.as_slice(), leaves.as_slice(), head, &mut out)?;
    Ok(out)
}

/// What is said of a path in a tree of these rows.
#[tactic(auto, using(crate::proofs::Heads::head_stands, crate::proofs::Heads::head_belongs))]
fn head_of(rows: &[Row], path: &Path) -> CertificateHead
    requires { IsTree rows.now }
    ensures value { result ≡ certificate_head_of rows.now path.now }
    ensures place { result.index < place_limit result.kind result.count }
{
    let count = rows.len() as u32;
    match locate(rows, path) {
        Ok(index) => CertificateHead {
            count,
            kind: Presence::Present,
            index: index as u32,
        },
        Err(index) => CertificateHead {
            count,
            kind: Presence::Absent,
            index: index as u32,
        },
    }
}

/// Where the row of a path stands, or else where it belongs.
fn locate(rows: &[Row], path: &Path) -> Result<usize, usize>
    requires { AreInOrder rows.now }
    ensures ok { IfOk result (StandsAt rows.now path.now) }
    ensures err { IfErr result (BelongsAt rows.now path.now) }
{
    rows.binary_search_by(|row| row.path.cmp(path))
}

fn put_head(head: CertificateHead, out: &mut Vec<u8>) -> Result<(), AllocError>
    ensures { OnOk result (out.new.items ≡ out.old.items ++ head_spelling head) }
{
    put_u32(out, head.count)?;
    out.push(kind_byte(head.kind))?;
    put_u32(out, head.index)
}

fn kind_byte(kind: Presence) -> u8
    ensures { result ≡ kind_byte kind }
{
    match kind {
        Presence::Present => 1,
        Presence::Absent => 2,
    }
}

/// Appends the rows that are shown, each with the digests beside its way.
fn put_shown(
    rows: &[Row],
    digests: &[[u8; 32]],
    head: CertificateHead,
    out: &mut Vec<u8>,
) -> Result<(), AllocError>
    requires tree { IsTree rows.now }
    requires count { head.count ≡ length rows.now }
    requires place { head.index < place_limit head.kind head.count }
    ensures { OnOk result (out.new.items ≡ out.old.items
        ++ flat_map leaf_spelling (leaves_from digests.now (first_place head.kind head.index) (shown_rows rows.now head))) }
{
    let first = head.first_place() as usize;
    let count = head.leaf_count() as usize;
    put_leaves(digests, first, &rows[first..first + count], out)
}

/// Appends rows that stand from a place on, each with the digests beside its way.
fn put_leaves(
    digests: &[[u8; 32]],
    place: usize,
    rows: &[Row],
    out: &mut Vec<u8>,
) -> Result<(), AllocError>
    requires rows { AllByRecursion IsRow rows.now }
    requires few { place + length rows.now ≤ max_rows }
    ensures { OnOk result (out.new.items ≡ out.old.items ++ flat_map leaf_spelling (leaves_from digests.now place rows.now)) }
{
    let [row, others @ ..] = rows else {
        return Ok(());
    };
    let node = slim_node(row.node.as_ref());
    put_slim(&row.path, row.version, &node, out)?;
    put_beside(MAX_LEVELS, digests, place, out)?;
    put_leaves(digests, place + 1, others, out)
}

/// The digests of the rows, in their order.
fn leaves(alloc: Global, rows: &[Row]) -> Result<Vec<[u8; 32]>, AllocError>
    requires { IsTree rows.now }
    ensures { IfOk result (λ digests. digests.items ≡ leaves rows.now) }
{
    let mut digests = Vec::with_capacity(alloc, rows.len())?;
    let mut spelled = Vec::new(alloc);
    for row in rows {
        spelled.clear();
        let node = slim_node(row.node.as_ref());
        put_slim(&row.path, row.version, &node, &mut spelled)?;
        digests.push(leaf_digest(&spelled))?;
    }
    Ok(digests)
}

/// What stands at a path of a tree, without its content. It takes no memory.
fn slim_node(node: Option<&Node>) -> SlimNode
    requires { node_size (option_copied node) ≤ max_file }
    ensures { result ≡ slim_node (option_copied node.entry) }
{
    match node {
        None => SlimNode::None,
        Some(Node::Folder) => SlimNode::Folder,
        Some(Node::File { content, exec }) => SlimNode::File {
            exec: *exec,
            len: content.bytes().len() as u32,
            print: print(content.bytes()),
        },
    }
}
