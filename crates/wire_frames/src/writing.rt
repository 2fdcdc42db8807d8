//! Writing a frame.

ghost use Rattle.std.specs.Prelude.{◌≡◌, ◌-◌, ◌^◌, ◌<◌, ◌≤◌, ◌++◌, length, drop, OnOk, IfOk};
ghost use Rattle.std.specs.Int.{w32};
ghost use Rattle.byte_fields.specs.Field.{digits};
ghost use Rattle.wire_frames.specs.Frame.{frame, body, payload, BodyFits, IsValid};

use crate::cause::Cause;
use crate::kind::FRAME_VERSION;
use crate::message::Message;
use crate::operation::spell_operation;
use crate::parts::{Part, spell_parts};
use byte_fields::{put_u32, put_u64};
use mod_log::{bases_size, effects_size};
use std::alloc::{AllocError, Global};
use vol_tree::{Node, Path, Row, Rows, TreeError};

/// How long a frame is, about, that has no content.
const SHORT_FRAME: usize = 64;

/// How many bytes the spelling of most rows is shorter than, apart from the content.
const ROW_ROOM: usize = 64;

#[tactic(auto, using(crate::proofs::FaultLaws::unfit_is_spelled, crate::proofs::FaultLaws::full_is_spelled))]
fn spell_body(message: &Message, out: &mut Vec<u8>) -> Result<(), AllocError>
    requires { BodyFits message.now }
    ensures { OnOk result (out.new.items ≡ out.old.items ++ body message.now) }
{
    match message {
        Message::Store {
            number,
            entries,
            ..
        } => spell_parts(*number, entries, out),
        Message::Accepted { upto, .. } => put_u64(out, *upto),
        Message::Stale {
            upto,
            path,
            theirs,
            ours,
            ..
        } => {
            put_u64(out, *upto)?;
            Path::spell(path, out)?;
            put_u64(out, *theirs)?;
            put_u64(out, *ours)
        }
        Message::Unfit {
            upto,
            index,
            fault,
            ..
        }
        | Message::Full {
            upto,
            index,
            fault,
            ..
        } => {
            put_u64(out, *upto)?;
            put_u32(out, *index)?;
            TreeError::spell(fault, out)
        }
        Message::Gap { last, .. } => put_u64(out, *last),
        Message::Malformed { code, offset } => {
            out.extend_from_slice(&[*code])?;
            put_u32(out, *offset)
        }
        Message::Snapshot { last, rows, .. } => {
            put_u64(out, *last)?;
            Rows::spell(rows, out)
        }
        Message::Operate { entry, .. } => spell_operation(entry, out),
        Message::Declined { cause, .. } => Cause::spell(cause, out),
        Message::Pull { .. } | Message::Done { .. } => Ok(()),
    }
}

/// What follows the length.
fn spell_payload(message: &Message, out: &mut Vec<u8>) -> Result<(), AllocError>
    requires { BodyFits message.now }
    ensures { OnOk result (out.new.items ≡ out.old.items ++ payload message.now) }
{
    out.extend_from_slice(&[FRAME_VERSION, message.kind().code(), message.client()])?;
    put_u64(out, message.number())?;
    spell_body(message, out)
}

/// Sets the length of a frame, for which its first four bytes keep the place.
#[tactic(auto, unfolding(byte_fields::specs::Field::digits))]
fn set_length(frame: &mut Vec<u8>)
    requires place { 4 ≤ length frame.old.items }
    requires small { length frame.old.items < 2 ^ 32 }
    ensures { frame.new.items ≡ digits w32 (length frame.old.items - 4) ++ drop 4 frame.old.items }
{
    let length = (frame.len() - 4) as u32;
    if let Some(place) = frame.first_chunk_mut::<4>() {
        *place = length.to_be_bytes();
    }
}

/// About how long the frame of a message is. A buffer with this room does not grow, and so does not move, behind contents.
fn room_for(message: &Message) -> usize {
    match message {
        Message::Store { entries, .. } => parts_room(entries.as_slice()),
        Message::Snapshot { rows, .. } => rows_room(rows.as_slice()),
        Message::Operate { .. }
        | Message::Pull { .. }
        | Message::Accepted { .. }
        | Message::Stale { .. }
        | Message::Unfit { .. }
        | Message::Gap { .. }
        | Message::Done { .. }
        | Message::Declined { .. }
        | Message::Full { .. }
        | Message::Malformed { .. } => SHORT_FRAME,
    }
}

/// How long the spelling of a store's entries is, about.
fn parts_room(entries: &[Part]) -> usize {
    let mut room = SHORT_FRAME;
    for entry in entries {
        let effects = effects_size(entry.effects.as_slice()) as usize;
        let base = bases_size(entry.base.as_slice()) as usize;
        room = room
            .saturating_add(effects)
            .saturating_add(base)
            .saturating_add(8);
    }
    room
}

/// About how long the spelling of rows is.
fn rows_room(rows: &[Row]) -> usize {
    let mut room = SHORT_FRAME;
    for row in rows {
        let content = match &row.node {
            Some(Node::File { content, .. }) => content.bytes().len(),
            Some(Node::Folder) | None => 0,
        };
        room = room.saturating_add(ROW_ROOM).saturating_add(content);
    }
    room
}

/// The frame of a valid message, its one spelling. Fails where memory runs out.
#[tactic(auto, unfolding(byte_fields::specs::Field::digits), using(crate::proofs::Sizes::payload_small, crate::proofs::Sizes::frame_small))]
pub fn write(alloc: Global, message: &Message) -> Result<Vec<u8>, AllocError>
    requires { IsValid message.now }
    ensures { IfOk result (λ v. v.items ≡ frame message.now) }
{
    let mut frame = Vec::new(alloc);
    frame.reserve(room_for(message))?;
    put_u32(&mut frame, 0)?;
    spell_payload(message, &mut frame)?;
    set_length(&mut frame);
    Ok(frame)
}
