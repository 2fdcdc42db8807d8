//! Spelling records, each behind the number of its bytes.

ghost use Rattle.std.specs.Prelude.{◌≡◌, ◌+◌, ◌-◌, ◌^◌, ◌<◌, ◌≤◌, ◌++◌, length, take, drop, IfOk, OnOk};
ghost use Rattle.std.specs.Int.{w32};
ghost use Rattle.byte_fields.specs.Field.{digits};
ghost use Rattle.tree_values.specs.Spelling.{EffectsFit};
ghost use Rattle.store_image.specs.declared.record.ClientRecord.TheVariants as records;
ghost use Rattle.store_image.specs.Records.{IsSpelled, client_record, server_record, made_taken};

use crate::record::{ClientRecord, ServerRecord};
use byte_fields::{put_u32, put_u64};
use mod_log::{Entry, bases_size, effects_size};
use std::alloc::{AllocError, Global};
use vol_tree::Effects;

/// How many bytes are asked for beside an entry's effects and bases: for its counts, for what made it and for a record's head, and
/// so many that a block which was given back is not found too short by a little.
const ENTRY_ROOM: u64 = 4_096;

/// The bytes to ask for before an entry is spelled, so that a large one is not moved while it grows.
pub(crate) fn room_for(entry: &Entry) -> usize {
    let effects = effects_size(entry.effects.as_slice());
    let bases = bases_size(entry.base.as_slice());
    effects.saturating_add(bases).saturating_add(ENTRY_ROOM) as usize
}

/// Puts the number of the bytes behind it into the four at the place.
#[tactic(auto, unfolding(byte_fields::specs::Field::digits))]
fn put_size(out: &mut Vec<u8>, place: usize)
    requires within { place + 4 ≤ length out.old.items }
    requires small { length out.old.items < place + 4 + 2 ^ 32 }
    ensures { out.new.items ≡ take place out.old.items
        ++ (digits w32 (length out.old.items - place - 4) ++ drop (place + 4) out.old.items) }
{
    let start = place + 4;
    let size = (out.len() - start) as u32;
    out[place..start].copy_from_slice(&size.to_be_bytes());
}

/// Appends the record of an entry that was logged.
///
/// # Errors
///
/// `AllocError` where memory runs out; what was appended then is no record.
pub fn put_logged(entry: &Entry, out: &mut Vec<u8>) -> Result<(), AllocError>
    requires { IsSpelled (records.Logged entry.now) }
    ensures { OnOk result (out.new.items ≡ out.old.items ++ client_record (records.Logged entry.now)) }
{
    out.reserve(room_for(entry))?;
    let place = out.len();
    put_u32(out, 0)?;
    out.push(1)?;
    Entry::spell(entry, out)?;
    put_size(out, place);
    Ok(())
}

/// Appends the record that the entries up to this number were acknowledged.
///
/// # Errors
///
/// `AllocError` where memory runs out; what was appended then is no record.
pub fn put_acked(number: u64, out: &mut Vec<u8>) -> Result<(), AllocError>
    ensures { OnOk result (out.new.items ≡ out.old.items ++ client_record (records.Acked number)) }
{
    put_u32(out, 9)?;
    out.push(2)?;
    put_u64(out, number)?;
    Ok(())
}

/// Appends the record that this entry of this client was taken.
///
/// # Errors
///
/// `AllocError` where memory runs out; what was appended then is no record.
pub fn put_taken(
    client: u8,
    last: u64,
    effects: &Effects,
    out: &mut Vec<u8>,
) -> Result<(), AllocError>
    requires { EffectsFit effects.now }
    ensures { OnOk result (out.new.items ≡ out.old.items ++ server_record (made_taken client last effects.now)) }
{
    let size = 14 + effects_size(effects.as_slice()) as u32;
    out.reserve((size as usize).saturating_add(4))?;
    put_u32(out, size)?;
    out.push(3)?;
    out.push(client)?;
    put_u64(out, last)?;
    Effects::spell(effects, out)?;
    Ok(())
}

/// The record's spelling.
pub fn write_client_record(alloc: Global, note: &ClientRecord) -> Result<Vec<u8>, AllocError>
    requires { IsSpelled note.now }
    ensures { IfOk result (λ v. v.items ≡ client_record note.now) }
{
    let mut out = Vec::new(alloc);
    match note {
        ClientRecord::Logged(entry) => put_logged(entry, &mut out)?,
        ClientRecord::Acked(number) => put_acked(*number, &mut out)?,
    }
    Ok(out)
}

/// The record's spelling.
pub fn write_server_record(alloc: Global, note: &ServerRecord) -> Result<Vec<u8>, AllocError>
    requires { EffectsFit note.now.effects }
    ensures { IfOk result (λ v. v.items ≡ server_record note.now) }
{
    let mut out = Vec::new(alloc);
    put_taken(note.client, note.last, &note.effects, &mut out)?;
    Ok(out)
}
