//! What stands before the steps of a parcel.

ghost use Rattle.std.specs.Prelude.{◌≡◌, ◌≤◌, IfOk, IfSome, length, take};
ghost use Rattle.std.specs.Int.{w64, from_be_bytes};
ghost use Rattle.byte_fields.specs.Field.{Gives};
ghost use Rattle.wire_frames.specs.Reading.{is_sized};
ghost use Rattle.file_paths.specs.Reading.{path_at};
ghost use Rattle.store_parcels.specs.Front.{front_at, front_of, is_parcel, named_store, sources_at};

use crate::limits::MAX_SOURCES;
use byte_fields::{Item, TakeError, span_at, take_each, u16_at};
use std::alloc::{AllocError, Global};
use vol_tree::{Path, Paths};
use wire_frames::MAX_FRAME;

/// The version of frames.
pub(crate) const FRAME_VERSION: u8 = 3;

/// The byte that tells the kind of a parcel; no message has it.
pub(crate) const PARCEL_KIND: u8 = 5;

/// Where the store ends that a parcel names.
const BEHIND_STORE: usize = 16;

/// The store whose frame a parcel stands for.
#[derive(Clone, Copy, Debug, PartialEq, Eq, Drop)]
pub struct NamedStore {
    pub client: u8,
    /// The number of the first entry.
    pub number: u64,
    /// How many entries there are.
    pub entries: u8,
}

/// What stands before the steps.
#[derive(Debug, Drop)]
pub(crate) struct Front {
    pub(crate) store: NamedStore,
    /// The SHA-256 of the frame.
    pub(crate) print: [u8; 32],
    /// The files whose contents are known.
    pub(crate) sources: Paths,
}

/// The state of paths of which none asks for another.
#[derive(Clone, Copy)]
struct Source;

impl Item<Source> for Path {
    ghost item_at = { λ state. path_at };

    ghost after = { λ state x. state };

    fn take_next(
        alloc: Global,
        bytes: &[u8],
        at: usize,
        _state: &mut Source,
    ) -> Result<(Path, usize), TakeError> {
        Path::take(alloc, bytes, at)
    }
}

/// The store that a parcel stands for; `None` where the bytes are no parcel, or end before it. It takes no memory.
pub fn named_store(bytes: &[u8]) -> Option<NamedStore>
    ensures exact { result ≡ named_store bytes.now }
    ensures long { IfSome result (λ store. 16 ≤ length bytes.now) }
{
    if !is_parcel(bytes) {
        return None;
    }
    let entries = bytes.get(15)?;
    Some(NamedStore {
        client: bytes[6],
        number: number_behind(&bytes[7..]),
        entries: *entries,
    })
}

/// The front of a parcel, and where its steps begin; `None` where the bytes are no parcel, or a field is faulty.
pub(crate) fn front_of(alloc: Global, bytes: &[u8]) -> Result<Option<(Front, usize)>, AllocError>
    ensures exact { IfOk result (λ found. found ≡ front_of bytes.now) }
    ensures within { IfOk result (λ found. IfSome found (λ x. x.1 ≤ length bytes.now)) }
{
    let Some(store) = named_store(bytes) else {
        return Ok(None);
    };
    match front_at(alloc, bytes, BEHIND_STORE, store) {
        Ok(read) => Ok(Some(read)),
        Err(TakeError::At(_)) => Ok(None),
        Err(TakeError::Memory) => Err(AllocError),
    }
}

/// Whether the bytes are as long as they say, and of the version and the kind of parcels.
fn is_parcel(bytes: &[u8]) -> bool
    ensures { result ≡ is_parcel bytes.now }
{
    is_sized(bytes) && bytes[4] == FRAME_VERSION && bytes[5] == PARCEL_KIND
}

fn is_sized(bytes: &[u8]) -> bool
    ensures { result ≡ is_sized bytes.now }
{
    if bytes.len() < 15 || bytes.len() > MAX_FRAME {
        return false;
    }
    let size = u32::from_be_bytes([bytes[0], bytes[1], bytes[2], bytes[3]]);
    size as usize + 4 == bytes.len()
}

/// The number in the first eight bytes.
fn number_behind(bytes: &[u8]) -> u64
    requires { 8 ≤ length bytes.now }
    ensures { result ≡ from_be_bytes w64 (take 8 bytes.now) }
{
    u64::from_be_bytes([
        bytes[0], bytes[1], bytes[2], bytes[3], bytes[4], bytes[5], bytes[6], bytes[7],
    ])
}

/// The paths of the sources at the place.
#[tactic(auto, unfolding(crate::specs::Front::sources_at, byte_fields::specs::Field::ruled))]
fn sources_at(alloc: Global, bytes: &[u8], at: usize) -> Result<(Paths, usize), TakeError>
    ensures { Gives result (sources_at bytes.now at) }
{
    let (count, start) = u16_at(bytes, at)?;
    if count > MAX_SOURCES {
        return Err(TakeError::At(at));
    }
    let (items, next) = take_each::<Source, Path>(alloc, bytes, start, count as u32, &mut Source)?;
    Ok((Paths::from_vec(items), next))
}

/// The print and the sources at the place, of a parcel that names this store.
#[tactic(auto, unfolding(crate::specs::Front::front_at))]
fn front_at(
    alloc: Global,
    bytes: &[u8],
    at: usize,
    store: NamedStore,
) -> Result<(Front, usize), TakeError>
    ensures read { Gives result (front_at store bytes.now at) }
    ensures within { IfOk result (λ x. x.1 ≤ length bytes.now) }
{
    let (span, paths_at) = span_at(bytes, at, 32)?;
    let mut print = [0; 32];
    print.copy_from_slice(span);
    let (sources, next) = sources_at(alloc, bytes, paths_at)?;
    Ok((
        Front {
            store,
            print,
            sources,
        },
        next,
    ))
}
