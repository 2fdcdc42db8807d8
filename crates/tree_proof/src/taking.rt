//! Taking a certificate from the bytes that spell it, with the place of the first faulty field.

ghost use Rattle.std.specs.Prelude.{◌≡◌, ◌<◌, ◌≤◌, IfOk};
ghost use Rattle.byte_fields.specs.Field.{Gives, Lends, Answers, place_of, span_at};
ghost use Rattle.tree_values.specs.Limits.{max_rows};
ghost use Rattle.tree_proof.specs.Limits.{most_levels};
ghost use Rattle.tree_proof.specs.Slim.{slim_file_at, slim_node_at, slim_at};
ghost use Rattle.tree_proof.specs.Certificate.{kind_at, place_limit, head_at, digests_at, leaf_at};
ghost use Rattle.tree_proof.specs.Certificate.{next_place, leaves_at, certificate_at, certificate_in};

use crate::certificate::{CertificateHead, Leaf, Places, Presence};
use crate::slim::{SlimNode, SlimRow};
use crate::tops::{MAX_LEVELS, way_within};
use byte_fields::{Item, TakeError, span_at, take_each, u8_at, u32_at, u64_at};
use file_paths::{List, MAX_FILE, Path};
use std::alloc::Global;
use tree_values::MAX_ROWS;

/// The digest at the place, and the place after it.
fn digest_at(bytes: &[u8], at: usize) -> Result<([u8; 32], usize), TakeError>
    ensures { Gives result (span_at 32 bytes.now at) }
{
    let (span, next) = span_at(bytes, at, 32)?;
    let mut digest = [0; 32];
    digest.copy_from_slice(span);
    Ok((digest, next))
}

#[tactic(auto, unfolding(crate::specs::Slim::slim_file_at, byte_fields::specs::Field::ruled))]
fn slim_file_at(bytes: &[u8], at: usize, exec: bool) -> Result<(SlimNode, usize), TakeError>
    ensures { Gives result (slim_file_at exec bytes.now at) }
{
    let (len, after_len) = u32_at(bytes, at)?;
    if len > MAX_FILE as u32 {
        return Err(TakeError::At(at));
    }
    let (print, next) = digest_at(bytes, after_len)?;
    Ok((SlimNode::File { exec, len, print }, next))
}

#[tactic(auto, unfolding(crate::specs::Slim::slim_node_at))]
fn slim_node_at(bytes: &[u8], at: usize) -> Result<(SlimNode, usize), TakeError>
    ensures { Gives result (slim_node_at bytes.now at) }
{
    let (kind, start) = u8_at(bytes, at)?;
    match kind {
        0 => Ok((SlimNode::None, start)),
        1 => Ok((SlimNode::Folder, start)),
        2 => slim_file_at(bytes, start, false),
        3 => slim_file_at(bytes, start, true),
        _ => Err(TakeError::At(at)),
    }
}

#[tactic(auto, unfolding(crate::specs::Slim::slim_at, byte_fields::specs::Field::ruled))]
fn slim_at(alloc: Global, bytes: &[u8], at: usize) -> Result<(SlimRow, usize), TakeError>
    ensures { Gives result (slim_at bytes.now at) }
{
    let (path, after_path) = Path::take(alloc, bytes, at)?;
    if path.names().is_empty() {
        return Err(TakeError::At(at));
    }
    let (version, after_version) = u64_at(bytes, after_path)?;
    if version < 1 {
        return Err(TakeError::At(after_path));
    }
    let (node, next) = slim_node_at(bytes, after_version)?;
    Ok((
        SlimRow {
            path,
            version,
            node,
        },
        next,
    ))
}

#[tactic(auto, unfolding(crate::specs::Certificate::kind_at))]
fn kind_at(bytes: &[u8], at: usize) -> Result<(Presence, usize), TakeError>
    ensures { Gives result (kind_at bytes.now at) }
{
    let (kind, start) = u8_at(bytes, at)?;
    match kind {
        1 => Ok((Presence::Present, start)),
        2 => Ok((Presence::Absent, start)),
        _ => Err(TakeError::At(at)),
    }
}

/// How many places a path may have among so many rows.
fn place_limit(kind: Presence, count: u32) -> u32
    requires { count ≤ max_rows }
    ensures { result ≡ place_limit kind count }
{
    match kind {
        Presence::Present => count,
        Presence::Absent => count + 1,
    }
}

#[tactic(auto, unfolding(crate::specs::Certificate::head_at, byte_fields::specs::Field::ruled))]
fn head_at(bytes: &[u8], at: usize) -> Result<(CertificateHead, usize), TakeError>
    ensures read { Gives result (head_at bytes.now at) }
    ensures few { IfOk result (λ x. x.0.count ≤ max_rows) }
    ensures place { IfOk result (λ x. x.0.index < place_limit x.0.kind x.0.count) }
{
    let (count, after_count) = u32_at(bytes, at)?;
    if count > MAX_ROWS as u32 {
        return Err(TakeError::At(at));
    }
    let (kind, after_kind) = kind_at(bytes, after_count)?;
    let (index, next) = u32_at(bytes, after_kind)?;
    if index >= place_limit(kind, count) {
        return Err(TakeError::At(after_kind));
    }
    Ok((CertificateHead { count, kind, index }, next))
}

/// So many digests at the place, and the place after them.
fn digests_at(
    alloc: Global,
    bytes: &[u8],
    start: usize,
    count: u32,
) -> Result<(List<[u8; 32]>, usize), TakeError>
    ensures { Gives result (digests_at count bytes.now start) }
{
    let mut digests = List::new(alloc);
    let mut at = start;
    for _ in 0..count {
        let (digest, next) = digest_at(bytes, at)?;
        digests.push(digest)?;
        at = next;
    }
    Ok((digests, at))
}

impl Item<Places> for Leaf {
    ghost item_at = { leaf_at };

    ghost after = { next_place };

    #[tactic(auto, unfolding(crate::specs::Certificate::leaf_at))]
    fn take_next(
        alloc: Global,
        bytes: &[u8],
        at: usize,
        places: &mut Places,
    ) -> Result<(Leaf, usize), TakeError> {
        let (row, middle) = slim_at(alloc, bytes, at)?;
        let place = places.next;
        let way = way_within(MAX_LEVELS, places.count, place);
        let (beside, next) = digests_at(alloc, bytes, middle, way)?;
        places.next = place.saturating_add(1).min(places.count);
        Ok((Leaf { place, row, beside }, next))
    }
}

/// The certificate that the whole bytes spell.
///
/// # Errors
///
/// `At` the first faulty field or the first byte that is left, or `Memory`.
#[tactic(auto, unfolding(crate::specs::Certificate::certificate_in, crate::specs::Certificate::certificate_at, crate::specs::Certificate::leaves_at))]
pub(crate) fn certificate_in(
    alloc: Global,
    bytes: &[u8],
) -> Result<(CertificateHead, Vec<Leaf>), TakeError>
    ensures { Answers (λ x. record { head = x.0; leaves = x.1.items }) place_of result (certificate_in bytes.now) }
{
    let (head, start) = head_at(bytes, 0)?;
    let mut places = Places {
        count: head.count,
        next: head.first_place(),
    };
    let (leaves, end) = take_each::<Places, Leaf>(
        alloc,
        bytes,
        start,
        head.leaf_count(),
        &mut places,
    )?;
    if end != bytes.len() {
        drop(leaves);
        return Err(TakeError::At(end));
    }
    Ok((head, leaves))
}
