//! Checking a certificate against the root of a tree.

ghost use Rattle.std.specs.Prelude.{◌≡◌, ◌≢◌, ◌∷◌, [], Some, None, Ok, Err, IfOk, IfErr, find, not, map};
ghost use Rattle.std.specs.List.{AllByRecursion};
ghost use Rattle.std.specs.Str.{bytes_eq};
ghost use Rattle.std.specs.Option.{option_copied};
ghost use Rattle.byte_fields.specs.Codec.{IsBytes};
ghost use Rattle.byte_fields.specs.Numbers.{as_u32};
ghost use Rattle.tree_proof.specs.declared.checking.CheckError.TheVariants.{Memory};
ghost use Rattle.tree_proof.specs.Checking.{is_in_place, computed, roots_of, finding_of, checked_finding, checked};
ghost use Rattle.tree_proof.specs.Inside.{HasWay};

use crate::certificate::{CertificateHead, Leaf, Presence};
use crate::slim::{SlimRow, put_slim};
use crate::taking::certificate_in;
use crate::tops::{MAX_LEVELS, climbed_within, leaf_digest, root_over};
use byte_fields::{TakeError, saturate_u32};
use file_paths::Path;
use std::alloc::{AllocError, Global};
use thiserror::Error;

/// What a certificate says of a path.
#[derive(Debug, Drop)]
pub enum Finding {
    /// The path has this row.
    Row(SlimRow),
    /// It has none.
    NoRow,
}

/// Why a certificate is refused.
#[derive(Debug, Drop, Error)]
pub enum CheckError {
    /// The field that begins here is faulty, or these bytes are left behind the last one.
    #[error("the field at {0} is faulty")]
    BadCert(u32),
    /// A row that is shown has this path, and so does not say what stands at the path that is asked for.
    #[error("it is for another path")]
    OtherPath(Path),
    /// A row that is shown computes another root.
    #[error("it is for another root")]
    WrongRoot {
        /// The root at hand.
        wanted: [u8; 32],
        /// The first root that a row computes and that is another one.
        found: [u8; 32],
    },
    #[error("out of memory")]
    Memory,
}

impl From<AllocError> for CheckError {
    ghost from_gives = { λ _ e. e ≡ Memory };

    fn from(_: AllocError) -> CheckError {
        CheckError::Memory
    }
}

/// What the bytes say of the path, to the holder of a tree's root: the row that a tree with this root has there, or that it has
/// none. No tree is needed, and no content is read.
///
/// # Errors
///
/// In this order: `BadCert` where the bytes spell no certificate; `OtherPath` where a row that is shown is not the path's own, or
/// not on the side of it that its place says; `WrongRoot` where a row computes another root. And `Memory`.
pub fn check(
    alloc: Global,
    root: &[u8; 32],
    path: &Path,
    certificate: &[u8],
) -> Result<Finding, CheckError>
    ensures ok { IfOk result (λ finding. checked root.now path.now certificate.now ≡ Ok finding) }
    ensures err { IfErr result (λ e. e ≢ CheckError.Memory → checked root.now path.now certificate.now ≡ Err e) }
{
    are_bytes(certificate);
    match certificate_in(alloc, certificate) {
        Ok((head, leaves)) => {
            let judged = judge(alloc, root, path, head, leaves.as_slice());
            drop(leaves);
            judged
        }
        Err(TakeError::At(place)) => Err(CheckError::BadCert(saturate_u32(place))),
        Err(TakeError::Memory) => Err(CheckError::Memory),
    }
}

/// States what the type of a slice says of its numbers. It takes no time.
fn are_bytes(bytes: &[u8])
    ensures { IsBytes bytes.now }
{}

/// What the rows that are shown say of the path.
fn judge(
    alloc: Global,
    root: &[u8; 32],
    path: &Path,
    head: CertificateHead,
    leaves: &[Leaf],
) -> Result<Finding, CheckError>
    requires { AllByRecursion (HasWay head.count) leaves.now }
    ensures ok { IfOk result (λ finding. checked_finding (record { head = head; leaves = leaves.now }) root.now path.now ≡ Ok finding) }
    ensures err { IfErr result (λ e. e ≢ CheckError.Memory
        → checked_finding (record { head = head; leaves = leaves.now }) root.now path.now ≡ Err e) }
{
    if let Some(leaf) = other_leaf(head, path, leaves) {
        return Err(CheckError::OtherPath(leaf.row.path.copy()?));
    }
    if let Some(found) = wrong_root(alloc, root, head.count, leaves)? {
        return Err(CheckError::WrongRoot {
            wanted: *root,
            found,
        });
    }
    Ok(finding_of(head.kind, leaves)?)
}

/// The first row that is shown and does not stand as its place says.
fn other_leaf<'a>(head: CertificateHead, path: &Path, leaves: &'a [Leaf]) -> Option<&'a Leaf>
    ensures { option_copied result ≡ find (λ leaf. not (is_in_place head path.now leaf)) leaves.now }
{
    leaves.iter().find(|leaf| !is_in_place(head, path, leaf))
}

fn is_in_place(head: CertificateHead, path: &Path, leaf: &Leaf) -> bool
    ensures { result ≡ is_in_place head path.now leaf.now }
{
    let order = leaf.row.path.cmp(path);
    match head.kind {
        Presence::Present => order.is_eq(),
        Presence::Absent if leaf.place < head.index => order.is_lt(),
        Presence::Absent => order.is_gt(),
    }
}

/// The first root that the rows compute and that is another one. Without a row it is that of the tree without rows.
fn wrong_root(
    alloc: Global,
    root: &[u8; 32],
    count: u32,
    leaves: &[Leaf],
) -> Result<Option<[u8; 32]>, AllocError>
    requires { AllByRecursion (HasWay count) leaves.now }
    ensures { IfOk result (λ found. found ≡ find (λ computed. not (bytes_eq computed root.now)) (roots_of count leaves.now)) }
{
    if leaves.is_empty() {
        let found = root_over(count, b"".as_slice());
        return Ok(other_than(root, found));
    }
    wrong_among(alloc, root, count, leaves)
}

fn other_than(root: &[u8; 32], found: [u8; 32]) -> Option<[u8; 32]>
    ensures { result ≡ find (λ computed. not (bytes_eq computed root.now)) (found ∷ []) }
{
    if found == *root { None } else { Some(found) }
}

/// The first root that the rows compute and that is another one.
fn wrong_among(
    alloc: Global,
    root: &[u8; 32],
    count: u32,
    leaves: &[Leaf],
) -> Result<Option<[u8; 32]>, AllocError>
    requires { AllByRecursion (HasWay count) leaves.now }
    ensures { IfOk result (λ found. found ≡ find (λ computed. not (bytes_eq computed root.now)) (map (computed count) leaves.now)) }
{
    let [leaf, others @ ..] = leaves else {
        return Ok(None);
    };
    let found = computed(alloc, count, leaf)?;
    if found != *root {
        return Ok(Some(found));
    }
    wrong_among(alloc, root, count, others)
}

/// The root that a row computes in a tree of so many.
fn computed(alloc: Global, count: u32, leaf: &Leaf) -> Result<[u8; 32], AllocError>
    requires { HasWay count leaf.now }
    ensures { IfOk result (λ root. root ≡ computed count leaf.now) }
{
    let row = &leaf.row;
    let mut spelled = Vec::new(alloc);
    put_slim(&row.path, row.version, &row.node, &mut spelled)?;
    let digest = leaf_digest(&spelled);
    let top = climbed_within(
        MAX_LEVELS,
        count,
        leaf.place,
        digest,
        leaf.beside.as_slice(),
    );
    Ok(root_over(count, top.as_slice()))
}

/// What is found: the row that is shown, or that there is none.
fn finding_of(kind: Presence, leaves: &[Leaf]) -> Result<Finding, AllocError>
    ensures { IfOk result (λ finding. finding ≡ finding_of kind leaves.now) }
{
    match (kind, leaves.first()) {
        (Presence::Present, Some(leaf)) => Ok(Finding::Row(leaf.row.copy()?)),
        _ => Ok(Finding::NoRow),
    }
}
