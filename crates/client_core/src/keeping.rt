// Keeping a client under a name.
ghost use Rattle.std.specs.Prelude.{◌≡◌, ◌≤◌, ◌++◌, ◌-◌, None, Some, drop, map, slice_get, IfOk, OnOk};
ghost use Rattle.std.specs.Option.{option_to_list};
ghost use Rattle.outside.specs.Outside.{Told, CountsFault};
ghost use Rattle.outside.specs.Keeper.{Appends};
ghost use Rattle.store_image.specs.declared.record.ClientRecord.TheVariants.{Logged};
ghost use Rattle.store_image.specs.Records.{client_records};
ghost use Rattle.client_core.specs.Journal.{acked_notes, next_notes, journal_with, journal_after};
ghost use Rattle.client_core.specs.Keeping.{KeepsNext, WritesNext};
ghost use Rattle.client_core.specs.Inside.{MayKeep, IsPiece, IsCountedBy};

use mod_log::Log;
use outside::{KeepError, Keeper};
use std::alloc::AllocError;
use store_image::{MAX_RECORDS, put_acked, put_logged, write_client};

/// What the last keeping of a client left under its name. The next one may add to it.
#[derive(Clone, Copy)]
pub struct Journal {
    /// The number of the last entry that is kept.
    pub(crate) last: u64,
    /// The bytes of the records behind the image.
    pub(crate) bytes: u32,
}

/// What a keeping appends: records, and the bytes of all records with them.
#[derive(Drop)]
pub(crate) struct Piece {
    records: Vec<u8>,
    bytes: u32,
}

/// Keeps a client with this log under a name: adds to what the journal tells to stand there, or saves the whole image. Where
/// the acknowledged number rose since then, that is kept, too.
pub(crate) fn keep_log<K: Keeper>(
    client: u8,
    log: &Log,
    journal: &mut Option<Journal>,
    rose: bool,
    name: &[u8],
    keeper: &mut K,
) -> Result<(), KeepError>
    requires low { 1 ≤ client }
    requires high { client ≤ 64 }
    requires ready { MayKeep (next_notes journal.old rose log.now) (K.images keeper.old) name.now client log.now }
    requires counted { IsCountedBy (K.images keeper.old) name.now journal.old }
    ensures kept { Told (K.images keeper.old) (K.images keeper.new)
        (KeepsNext name.now client log.now (next_notes journal.old rose log.now) result) }
    ensures writes { Told (K.images keeper.old) (K.images keeper.new)
        (WritesNext name.now client log.now (next_notes journal.old rose log.now) result) }
    ensures journal { journal.new ≡ journal_after journal.old (next_notes journal.old rose log.now) log.now result }
    ensures counted { IsCountedBy (K.images keeper.new) name.now journal.new }
    ensures cause { CountsFault KeepError.Failed (K.faults keeper.old) (K.faults keeper.new) result }
{
    let piece = match next_piece(log, *journal, rose) {
        Ok(piece) => piece,
        Err(_refused) => {
            *journal = None;
            return Err(KeepError::Memory);
        }
    };
    match piece {
        Some(piece) => append_piece(log, piece, journal, name, keeper),
        None => save_log(client, log, journal, name, keeper),
    }
}

/// Appends a piece to what stands under a name.
fn append_piece<K: Keeper>(
    log: &Log,
    piece: Piece,
    journal: &mut Option<Journal>,
    name: &[u8],
    keeper: &mut K,
) -> Result<(), KeepError>
    ensures appended { Told (K.images keeper.old) (K.images keeper.new)
        (λ old new. Appends name.now piece.records.items result old new) }
    ensures journal { journal.new ≡ journal_with piece.bytes log.now result }
    ensures cause { CountsFault KeepError.Failed (K.faults keeper.old) (K.faults keeper.new) result }
{
    let kept = keeper.append(name, &piece.records);
    *journal = journal_with(log, piece.bytes, &kept);
    kept
}

/// Saves the whole image of a client under a name.
fn save_log<K: Keeper>(
    client: u8,
    log: &Log,
    journal: &mut Option<Journal>,
    name: &[u8],
    keeper: &mut K,
) -> Result<(), KeepError>
    requires low { 1 ≤ client }
    requires high { client ≤ 64 }
    ensures kept { Told (K.images keeper.old) (K.images keeper.new) (KeepsNext name.now client log.now None result) }
    ensures writes { Told (K.images keeper.old) (K.images keeper.new) (WritesNext name.now client log.now None result) }
    ensures journal { journal.new ≡ journal_with 0 log.now result }
    ensures counted { IsCountedBy (K.images keeper.new) name.now journal.new }
    ensures cause { CountsFault KeepError.Failed (K.faults keeper.old) (K.faults keeper.new) result }
{
    let kept = save_image(client, log, name, keeper);
    *journal = journal_with(log, 0, &kept);
    kept
}

fn save_image<K: Keeper>(
    client: u8,
    log: &Log,
    name: &[u8],
    keeper: &mut K,
) -> Result<(), KeepError>
    requires low { 1 ≤ client }
    requires high { client ≤ 64 }
    ensures kept { Told (K.images keeper.old) (K.images keeper.new) (KeepsNext name.now client log.now None result) }
    ensures writes { Told (K.images keeper.old) (K.images keeper.new) (WritesNext name.now client log.now None result) }
    ensures cause { CountsFault KeepError.Failed (K.faults keeper.old) (K.faults keeper.new) result }
{
    let image = match write_client(client, log) {
        Ok(image) => image,
        Err(_refused) => return Err(KeepError::Memory),
    };
    keeper.save(name, &image)
}

/// The journal after a keeping of a log, with so many bytes of records; none where it was refused.
fn journal_with(log: &Log, bytes: u32, kept: &Result<(), KeepError>) -> Option<Journal>
    ensures { result ≡ journal_with bytes log.now kept.now }
{
    let pending = log.pending();
    let last = log.acked() + pending as u64;
    match kept {
        Ok(()) => Some(Journal { last, bytes }),
        Err(_) => None,
    }
}

/// What the next keeping appends. `None`: it saves the whole image.
fn next_piece(log: &Log, journal: Option<Journal>, rose: bool) -> Result<Option<Piece>, AllocError>
    ensures { IfOk result (IsPiece journal (next_notes journal rose log.now)) }
{
    match journal {
        Some(journal) => piece_behind(log, journal, rose),
        None => Ok(None),
    }
}

/// The same behind what a journal tells.
fn piece_behind(log: &Log, journal: Journal, rose: bool) -> Result<Option<Piece>, AllocError>
    ensures { IfOk result (IsPiece (Some journal) (next_notes (Some journal) rose log.now)) }
{
    if journal.last < log.acked() {
        return Ok(None);
    }
    let records = piece_since(log, journal.last, rose)?;
    let bytes = journal.bytes as usize + records.len();
    if bytes > MAX_RECORDS {
        return Ok(None);
    }
    Ok(Some(Piece {
        records,
        bytes: bytes as u32,
    }))
}

/// The records of the entries behind this number, and of the acknowledged number, where it rose.
fn piece_since(log: &Log, last: u64, rose: bool) -> Result<Vec<u8>, AllocError>
    requires { log.now.acked ≤ last }
    ensures { IfOk result (λ piece. piece.items
        ≡ client_records (map Logged (drop (last - log.now.acked) log.now.pending) ++ acked_notes rose log.now)) }
{
    let acked = log.acked();
    let mut piece = Vec::new(log.tree().allocator());
    put_entries(log, last - acked, &mut piece)?;
    if rose {
        put_acked(acked, &mut piece)?;
    }
    Ok(piece)
}

/// The records of the pending entries behind so many.
fn put_entries(log: &Log, before: u64, out: &mut Vec<u8>) -> Result<(), AllocError>
    ensures { OnOk result (out.new.items ≡ out.old.items ++ client_records (map Logged (drop before log.now.pending))) }
{
    let count = log.pending();
    for i in 0..count {
        put_behind(log, before, i, out)?;
    }
    Ok(())
}

/// The record of the pending entry of this index, where there is one that is not among so many first ones.
fn put_behind(log: &Log, before: u64, i: u32, out: &mut Vec<u8>) -> Result<(), AllocError>
    ensures { OnOk result (out.new.items ≡ out.old.items
        ++ client_records (map Logged (drop (before - i) (option_to_list (slice_get log.now.pending i))))) }
{
    if before > i as u64 {
        return Ok(());
    }
    put_entry(log, i, out)
}

/// The record of the pending entry of this index, where there is one.
fn put_entry(log: &Log, i: u32, out: &mut Vec<u8>) -> Result<(), AllocError>
    ensures { OnOk result (out.new.items ≡ out.old.items
        ++ client_records (map Logged (option_to_list (slice_get log.now.pending i)))) }
{
    if let Some(entry) = log.entry(i) {
        put_logged(entry, out)?;
    }
    Ok(())
}
