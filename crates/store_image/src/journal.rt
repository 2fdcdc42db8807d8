//! Taking the records behind an image, up to a torn tail.

ghost use Rattle.std.specs.Prelude.{◌≡◌, ◌≢◌, ◌<◌, ◌≤◌, ◌+◌, length, true, false, IfOk, IfSome, IfErr, OnOk};
ghost use Rattle.std.specs.Int.{w64};
ghost use Rattle.byte_fields.specs.Field.{Gives, GivesInto, Lends, one, place_of, ruled, number_at, tagged_at};
ghost use Rattle.byte_fields.specs.Records.{framed_at};
ghost use Rattle.mod_log.specs.Log.{tree_of};
ghost use Rattle.store_image.specs.declared.record.ClientRecord.TheVariants as records;
ghost use Rattle.store_image.specs.declared.image.ServerImage.{ServerImage};
ghost use Rattle.store_image.specs.Reading.{next_entry_at};
ghost use Rattle.store_image.specs.Records.{behind_records, is_pending, client_kinds, has_room, client_record_at, client_records_at};
ghost use Rattle.store_image.specs.Records.{with_record, with_records, taken_at, server_kinds, with_taken};
ghost use Rattle.store_image.specs.Inside.{record_of, TakesNote, opened_record_at, with_opened};

use crate::entry::{applied_effects, next_effects};
use crate::image::ServerImage;
use crate::record::ServerRecord;
use byte_fields::{TakeError, Taken, is_torn, span_at, u8_at, u32_at, u64_at};
use mod_log::{Log, LogError, Origin};
use std::alloc::Global;
use vol_tree::{Effects, Format, Tree, TryCopy};

/// What a record of a client tells; an entry is told by what made it and its effects.
#[derive(Drop)]
enum Note {
    Logged(Option<Origin>, Effects),
    Acked(u64),
}

/// The entry behind those of the log. The other tree is the log's at first, and takes the effects.
fn logged_at(
    format: Format,
    alloc: Global,
    bytes: &[u8],
    at: usize,
    log: &Log,
    ahead: &mut Tree,
) -> Result<(Note, usize), TakeError>
    requires { ahead.old ≡ tree_of log.now }
    ensures read { Lends (λ x. (record_of x.0 log.now, x.1)) result (one (next_entry_at format log.now) records.Logged bytes.now at) }
    ensures applied { IfOk result (λ x. ahead.new ≡ tree_of (with_record log.now (record_of x.0 log.now))) }
{
    let ((origin, effects), next) = next_effects(format, alloc, bytes, at, log, ahead)?;
    Ok((Note::Logged(origin, effects), next))
}

/// The number of a pending entry.
#[tactic(auto, unfolding(byte_fields::specs::Field::ruled))]
fn acked_at(bytes: &[u8], at: usize, log: &Log) -> Result<(u64, usize), TakeError>
    ensures { Gives result (ruled (is_pending log.now) (number_at w64) bytes.now at) }
{
    let (number, next) = u64_at(bytes, at)?;
    let acked = log.acked();
    if number <= acked || number - acked > u64::from(log.pending()) {
        return Err(TakeError::At(at));
    }
    Ok((number, next))
}

/// What a record tells, behind the number of its bytes.
fn note_at(
    format: Format,
    alloc: Global,
    bytes: &[u8],
    at: usize,
    log: &Log,
    ahead: &mut Tree,
) -> Result<(Note, usize), TakeError>
    requires { ahead.old ≡ tree_of log.now }
    ensures read { Lends (λ x. (record_of x.0 log.now, x.1)) result (tagged_at (client_kinds format log.now) bytes.now at) }
    ensures applied { IfOk result (λ x. ahead.new ≡ tree_of (with_record log.now (record_of x.0 log.now))) }
{
    let (kind, start) = u8_at(bytes, at)?;
    match kind {
        1 => logged_at(format, alloc, bytes, start, log, ahead),
        2 => {
            let (number, next) = acked_at(bytes, start, log)?;
            Ok((Note::Acked(number), next))
        }
        _ => Err(TakeError::At(at)),
    }
}

/// What a whole record tells, and the place after it.
#[tactic(auto, unfolding(byte_fields::specs::Records::framed_at))]
fn framed_note_at(
    format: Format,
    alloc: Global,
    bytes: &[u8],
    at: usize,
    log: &Log,
    ahead: &mut Tree,
) -> Result<(Note, usize), TakeError>
    requires { ahead.old ≡ tree_of log.now }
    ensures read { Lends (λ x. (record_of x.0 log.now, x.1)) result (framed_at (tagged_at (client_kinds format log.now)) bytes.now at) }
    ensures applied { IfOk result (λ x. ahead.new ≡ tree_of (with_record log.now (record_of x.0 log.now))) }
    ensures further { IfOk result (λ x. at < x.1) }
{
    let (size, start) = u32_at(bytes, at)?;
    let (_span, end) = span_at(bytes, start, size as usize)?;
    let (note, next) = note_at(format, alloc, &bytes[..end], start, log, ahead)?;
    if next != end {
        drop(note);
        return Err(TakeError::At(next));
    }
    Ok((note, next))
}

/// The fault that it is where a log has no room for an entry, or no number, and the entry's record stands at the place.
fn fault_of(refusal: LogError, at: usize) -> TakeError
    ensures { IfSome (place_of result) (λ place. (place ≡ at) × (refusal ≢ LogError.Memory)) }
{
    let fault = match &refusal {
        LogError::Memory => TakeError::Memory,
        _ => TakeError::At(at),
    };
    drop(refusal);
    fault
}

/// The log takes what a record at the place tells.
fn take_note(log: &mut Log, note: Note, at: usize) -> Result<(), TakeError>
    requires { TakesNote log.old note }
    ensures ok { OnOk result
        ((has_room log.old (record_of note log.old) ≡ true) × (log.new ≡ with_record log.old (record_of note log.old))) }
    ensures err { IfErr result (λ e. IfSome (place_of e) (λ place. (place ≡ at) × (has_room log.old (record_of note log.old) ≡ false))) }
{
    match note {
        Note::Logged(origin, effects) => match log.append(origin, effects) {
            Ok(_seq) => Ok(()),
            Err(refusal) => Err(fault_of(refusal, at)),
        },
        Note::Acked(number) => {
            log.acknowledge(number);
            Ok(())
        }
    }
}

/// The log takes the record at the place. The other tree is the log's, before and after.
#[tactic(auto, unfolding(crate::specs::Records::client_record_at, byte_fields::specs::Field::ruled))]
fn take_record(
    format: Format,
    alloc: Global,
    bytes: &[u8],
    at: usize,
    log: &mut Log,
    ahead: &mut Tree,
) -> Result<usize, TakeError>
    requires within { at ≤ length bytes.now }
    requires same { ahead.old ≡ tree_of log.old }
    ensures into { GivesInto log.new (with_record log.old) result (client_record_at format log.old bytes.now at) }
    ensures further { IfOk result (λ next. at < next) }
    ensures same { OnOk result (ahead.new ≡ tree_of log.new) }
{
    let (note, next) = framed_note_at(format, alloc, bytes, at, log, ahead)?;
    take_note(log, note, at)?;
    Ok(next)
}

/// The log takes the whole records from the place on, up to a torn tail. The other tree is the log's at first.
fn take_records(
    format: Format,
    alloc: Global,
    bytes: &[u8],
    start: usize,
    log: &mut Log,
    ahead: &mut Tree,
) -> Result<usize, TakeError>
    requires { ahead.old ≡ tree_of log.old }
    ensures { GivesInto log.new (with_records log.old) result (client_records_at format log.old bytes.now start) }
{
    let mut at = start;
    while !is_torn(bytes, at) {
        at = take_record(format, alloc, bytes, at, log, ahead)?;
    }
    Ok(at)
}

/// The log behind the records from the place on, and the place where a torn tail begins.
pub(crate) fn log_behind(
    format: Format,
    alloc: Global,
    bytes: &[u8],
    start: usize,
    first: Log,
) -> Result<(Log, usize), TakeError>
    ensures { Gives result (behind_records (client_records_at format) with_record first bytes.now start) }
{
    let mut log = first;
    match take_behind(format, alloc, bytes, start, &mut log) {
        Ok(torn) => Ok((log, torn)),
        Err(fault) => {
            drop(log);
            Err(fault)
        }
    }
}

/// The log takes the whole records from the place on, and the place where a torn tail begins is given.
fn take_behind(
    format: Format,
    alloc: Global,
    bytes: &[u8],
    start: usize,
    log: &mut Log,
) -> Result<usize, TakeError>
    ensures { GivesInto log.new (with_records log.old) result (client_records_at format log.old bytes.now start) }
{
    let mut ahead = log.tree().copy()?;
    let taken = take_records(format, alloc, bytes, start, log, &mut ahead);
    drop(ahead);
    taken
}

/// What a record of a server tells goes into the server.
#[tactic(auto, unfolding(crate::specs::Records::taken_at, byte_fields::specs::Field::ruled))]
fn take_taken(
    format: Format,
    alloc: Global,
    bytes: &[u8],
    at: usize,
    image: &mut ServerImage,
) -> Result<usize, TakeError>
    ensures { GivesInto image.new (with_taken image.old) result (taken_at format image.old bytes.now at) }
{
    let (client, middle) = u8_at(bytes, at)?;
    if client < 1 || client > 64 {
        return Err(TakeError::At(at));
    }
    let (last, start) = u64_at(bytes, middle)?;
    if last <= image.last[client as usize - 1] {
        return Err(TakeError::At(middle));
    }
    let (effects, next) = applied_effects(format, alloc, bytes, start, &mut image.tree)?;
    drop(effects);
    image.last[client as usize - 1] = last;
    Ok(next)
}

/// A server whose records are read, and their format.
#[derive(Drop)]
pub(crate) struct Opened {
    pub(crate) format: Format,
    pub(crate) image: ServerImage,
}

impl Taken<ServerRecord> for Opened {
    ghost item_at = { opened_record_at };

    ghost after = { with_opened };

    fn take_next(&mut self, alloc: Global, bytes: &[u8], at: usize) -> Result<usize, TakeError> {
        let (kind, start) = u8_at(bytes, at)?;
        match kind {
            3 => take_taken(self.format, alloc, bytes, start, &mut self.image),
            _ => Err(TakeError::At(at)),
        }
    }
}
