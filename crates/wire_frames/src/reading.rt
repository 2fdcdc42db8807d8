//! Reading a frame.

ghost use Rattle.std.specs.Prelude.{◌≡◌, Ok, IfOk};
ghost use Rattle.byte_fields.specs.Field.{Gives};
ghost use Rattle.wire_frames.specs.declared.message.Message.{Message};
ghost use Rattle.wire_frames.specs.Frame.{frame, IsValid};
ghost use Rattle.wire_frames.specs.Reading.{store_at, operate_at, accepted_at, refused_upto, stale_at, unfit_at, gap_at, full_at};
ghost use Rattle.wire_frames.specs.Reading.{snapshot_at, declined_at, malformed_at, body_at, message_at, is_sized, frame_of, GivesFrame};

use crate::cause::Cause;
use crate::faults::{FULL_NUMBERS, UNFIT_NUMBERS};
use crate::kind::FRAME_VERSION;
use crate::message::{FrameError, Kind, MAX_FRAME, Message};
use crate::operation::operation_at;
use crate::parts::parts_at;
use byte_fields::{TakeError, u8_at, u32_at, u64_at};
use std::alloc::Global;
use vol_tree::{Path, Rows, TreeError};

type Taken = Result<(Message, usize), TakeError>;

#[tactic(auto, unfolding(crate::specs::Reading::store_at))]
fn store_at(alloc: Global, bytes: &[u8], at: usize, client: u8, number: u64) -> Taken
    ensures { Gives result (store_at client number bytes.now at) }
{
    let (entries, next) = parts_at(alloc, bytes, at, number)?;
    Ok((
        Message::Store {
            client,
            number,
            entries,
        },
        next,
    ))
}

#[tactic(auto, unfolding(crate::specs::Reading::operate_at))]
fn operate_at(alloc: Global, bytes: &[u8], at: usize, client: u8, number: u64) -> Taken
    ensures { Gives result (operate_at client number bytes.now at) }
{
    let (entry, next) = operation_at(alloc, bytes, at, number)?;
    Ok((Message::Operate { client, entry }, next))
}

#[tactic(auto, unfolding(crate::specs::Reading::accepted_at, byte_fields::specs::Field::ruled))]
fn accepted_at(bytes: &[u8], at: usize, client: u8, number: u64) -> Taken
    ensures { Gives result (accepted_at client number bytes.now at) }
{
    let (upto, next) = u64_at(bytes, at)?;
    if upto < number {
        return Err(TakeError::At(at));
    }
    Ok((
        Message::Accepted {
            client,
            number,
            upto,
        },
        next,
    ))
}

/// The number up to which entries were taken before one was refused.
#[tactic(auto, unfolding(crate::specs::Reading::refused_upto, byte_fields::specs::Field::ruled))]
fn refused_upto(bytes: &[u8], at: usize, number: u64) -> Result<(u64, usize), TakeError>
    ensures { Gives result (refused_upto number bytes.now at) }
{
    let (upto, next) = u64_at(bytes, at)?;
    if number > 0 && upto < number - 1 {
        return Err(TakeError::At(at));
    }
    Ok((upto, next))
}

#[tactic(auto, unfolding(crate::specs::Reading::stale_at, crate::specs::Reading::conflict_at, byte_fields::specs::Field::ruled))]
fn stale_at(alloc: Global, bytes: &[u8], at: usize, client: u8, number: u64) -> Taken
    ensures { Gives result (stale_at client number bytes.now at) }
{
    let (upto, path_at) = refused_upto(bytes, at, number)?;
    let (path, theirs_at) = Path::take(alloc, bytes, path_at)?;
    let (theirs, ours_at) = u64_at(bytes, theirs_at)?;
    let (ours, next) = u64_at(bytes, ours_at)?;
    if ours == theirs {
        return Err(TakeError::At(ours_at));
    }
    Ok((
        Message::Stale {
            client,
            number,
            upto,
            path,
            theirs,
            ours,
        },
        next,
    ))
}

#[tactic(auto, unfolding(crate::specs::Reading::unfit_at))]
fn unfit_at(alloc: Global, bytes: &[u8], at: usize, client: u8, number: u64) -> Taken
    ensures { Gives result (unfit_at client number bytes.now at) }
{
    let (upto, index_at) = refused_upto(bytes, at, number)?;
    let (index, fault_at) = u32_at(bytes, index_at)?;
    let (fault, next) = TreeError::take_one_of(alloc, bytes, fault_at, &UNFIT_NUMBERS)?;
    Ok((
        Message::Unfit {
            client,
            number,
            upto,
            index,
            fault,
        },
        next,
    ))
}

#[tactic(auto, unfolding(crate::specs::Reading::snapshot_at))]
fn snapshot_at(alloc: Global, bytes: &[u8], at: usize, client: u8, number: u64) -> Taken
    ensures { Gives result (snapshot_at client number bytes.now at) }
{
    let (last, rows_at) = u64_at(bytes, at)?;
    let (rows, next) = Rows::take(alloc, bytes, rows_at)?;
    Ok((
        Message::Snapshot {
            client,
            number,
            last,
            rows,
        },
        next,
    ))
}

#[tactic(auto, unfolding(crate::specs::Reading::full_at))]
fn full_at(alloc: Global, bytes: &[u8], at: usize, client: u8, number: u64) -> Taken
    ensures { Gives result (full_at client number bytes.now at) }
{
    let (upto, index_at) = refused_upto(bytes, at, number)?;
    let (index, fault_at) = u32_at(bytes, index_at)?;
    let (fault, next) = TreeError::take_one_of(alloc, bytes, fault_at, &FULL_NUMBERS)?;
    Ok((
        Message::Full {
            client,
            number,
            upto,
            index,
            fault,
        },
        next,
    ))
}

#[tactic(auto, unfolding(crate::specs::Reading::declined_at))]
fn declined_at(alloc: Global, bytes: &[u8], at: usize, client: u8, number: u64) -> Taken
    ensures { Gives result (declined_at client number bytes.now at) }
{
    let (cause, next) = Cause::take(alloc, bytes, at)?;
    Ok((
        Message::Declined {
            client,
            number,
            cause,
        },
        next,
    ))
}

#[tactic(auto, unfolding(crate::specs::Reading::gap_at, byte_fields::specs::Field::ruled))]
fn gap_at(bytes: &[u8], at: usize, client: u8, number: u64) -> Taken
    ensures { Gives result (gap_at client number bytes.now at) }
{
    let (last, next) = u64_at(bytes, at)?;
    if number < 2 || last > number - 2 {
        return Err(TakeError::At(at));
    }
    Ok((
        Message::Gap {
            client,
            number,
            last,
        },
        next,
    ))
}

#[tactic(auto, unfolding(crate::specs::Reading::malformed_at, byte_fields::specs::Field::ruled))]
fn malformed_at(bytes: &[u8], at: usize) -> Taken
    ensures { Gives result (malformed_at bytes.now at) }
{
    let (code, offset_at) = u8_at(bytes, at)?;
    if code < 1 || code > 7 {
        return Err(TakeError::At(at));
    }
    let (offset, next) = u32_at(bytes, offset_at)?;
    if offset != 0 && code != 5 && code != 6 {
        return Err(TakeError::At(offset_at));
    }
    Ok((Message::Malformed { code, offset }, next))
}

fn body_at(alloc: Global, bytes: &[u8], at: usize, kind: Kind, client: u8, number: u64) -> Taken
    ensures { Gives result (body_at kind client number bytes.now at) }
{
    match kind {
        Kind::Store => store_at(alloc, bytes, at, client, number),
        Kind::Operate => operate_at(alloc, bytes, at, client, number),
        Kind::Pull => Ok((Message::Pull { client, number }, at)),
        Kind::Accepted => accepted_at(bytes, at, client, number),
        Kind::Stale => stale_at(alloc, bytes, at, client, number),
        Kind::Unfit => unfit_at(alloc, bytes, at, client, number),
        Kind::Full => full_at(alloc, bytes, at, client, number),
        Kind::Gap => gap_at(bytes, at, client, number),
        Kind::Snapshot => snapshot_at(alloc, bytes, at, client, number),
        Kind::Done => Ok((Message::Done { client, number }, at)),
        Kind::Declined => declined_at(alloc, bytes, at, client, number),
        Kind::Malformed => malformed_at(bytes, at),
    }
}

/// The number and the body.
#[tactic(auto, unfolding(crate::specs::Reading::message_at, byte_fields::specs::Field::ruled))]
fn message_at(alloc: Global, bytes: &[u8], at: usize, kind: Kind, client: u8) -> Taken
    ensures { Gives result (message_at kind client bytes.now at) }
{
    let (number, next) = u64_at(bytes, at)?;
    if !kind.takes_number(number) {
        return Err(TakeError::At(at));
    }
    body_at(alloc, bytes, next, kind, client, number)
}

fn is_sized(bytes: &[u8]) -> bool
    ensures { result ≡ is_sized bytes.now }
{
    if bytes.len() < 15 || bytes.len() > MAX_FRAME {
        return false;
    }
    let size = u32::from_be_bytes([bytes[0], bytes[1], bytes[2], bytes[3]]);
    size as usize + 4 == bytes.len()
}

/// The first refusal that fits, or the message.
#[tactic(auto, unfolding(crate::specs::Reading::frame_of))]
fn frame_of(alloc: Global, bytes: &[u8]) -> Result<Message, FrameError>
    ensures { GivesFrame result (frame_of bytes.now) }
{
    if !is_sized(bytes) {
        return Err(FrameError::BadLength);
    }
    if bytes[4] != FRAME_VERSION {
        return Err(FrameError::BadVersion);
    }
    let Some(kind) = Kind::of(bytes[5]) else {
        return Err(FrameError::BadKind);
    };
    let client = bytes[6];
    if !kind.takes_client(client) {
        return Err(FrameError::BadClient);
    }
    match message_at(alloc, bytes, 7, kind, client) {
        Err(TakeError::Memory) => Err(FrameError::Memory),
        Err(TakeError::At(place)) => Err(FrameError::BadField(place as u32)),
        Ok((message, next)) => {
            if next == bytes.len() {
                Ok(message)
            } else {
                drop(message);
                Err(FrameError::Trailing(next as u32))
            }
        }
    }
}

/// The message whose frame the bytes are.
///
/// Refuses, in this order: `BadLength` for fewer than 15 or more than `MAX_FRAME` bytes or where the first four do not
/// count the others, `BadVersion`, `BadKind`, `BadClient`, `BadField` at the first faulty field from byte 7 on, and
/// `Trailing` where bytes are left after the last field. `Memory` may come in place of each answer.
pub fn read(alloc: Global, bytes: &[u8]) -> Result<Message, FrameError>
    // What is read is spelled so.
    ensures found { IfOk result (λ m. IsValid m × (bytes.now ≡ frame m)) }
    // What is spelled so is read, unless memory runs out.
    ensures only { (m : Message) → IsValid m → bytes.now ≡ frame m → GivesFrame result (Ok m) }
    // Which refusal it is.
    ensures exact { GivesFrame result (frame_of bytes.now) }
{
    frame_of(alloc, bytes)
}
