//! Reading images, with the place of the first faulty field.

ghost use Rattle.std.specs.Prelude.{◌≡◌, ◌≢◌, ◌≤◌, ◌+◌, ℕ, [], length, take, Ok, Result, IfOk, IfErr};
ghost use Rattle.std.specs.Int.{w64};
ghost use Rattle.std.specs.Str.{bytes_eq};
ghost use Rattle.byte_fields.specs.Field.{Gives, Lends, Answers, place_of, number_at, each_at};
ghost use Rattle.tree_values.specs.Tree.{IsTree};
ghost use Rattle.tree_values.specs.Reading.{rows_in};
ghost use Rattle.mod_log.specs.Limits.{max_entries, max_log};
ghost use Rattle.mod_log.specs.Log.{Log, new_log_of};
ghost use Rattle.store_image.specs.Reading.{next_entry_at, with_entry, entries_at, log_at, client_body_at, client_at, server_body_at};
ghost use Rattle.store_image.specs.Reading.{server_at, version_of as version_byte, format_of};
ghost use Rattle.store_image.specs.Records.{behind_records, server_records_at, with_taken};
ghost use Rattle.store_image.specs.Image.{read_of, kept_client_at, kept_server_at, kept_client_of, server_of, GivesImage, IsKeptFor};
ghost use Rattle.store_image.specs.Image.{IsKeptForServer};
ghost use Rattle.store_image.specs.declared.image.ServerImage.{ServerImage};

use crate::entry::{log_entry, next_effects};
use crate::image::{ClientImage, IMAGE_VERSION, ImageError, ServerImage};
use crate::journal::{Opened, log_behind};
use crate::record::ServerRecord;
use byte_fields::{TakeError, saturate_u32, span_at, take_until_end, u8_at, u32_at, u64_at};
use mod_log::{Log, MAX_ENTRIES, MAX_LOG};
use std::alloc::{AllocError, Global};
use vol_tree::{Format, Rows, RowsError, Tree, TryCopy};

/// The tree whose rows stand at the place.
fn tree_at(
    format: Format,
    alloc: Global,
    bytes: &[u8],
    at: usize,
) -> Result<(Tree, usize), TakeError>
    requires { at ≤ length bytes.now }
    ensures { Gives result (rows_in format bytes.now at) }
{
    let (rows, next) = Rows::take_in(format, alloc, bytes, at)?;
    Ok((tree_of(alloc, rows)?, next))
}

/// The tree with these rows, which are one.
fn tree_of(alloc: Global, rows: Rows) -> Result<Tree, AllocError>
    requires { IsTree rows }
    ensures { IfOk result (λ tree. tree ≡ rows) }
{
    match Tree::from_rows(alloc, rows) {
        Ok(tree) => Ok(tree),
        Err(RowsError::Memory) => Err(AllocError),
        Err(RowsError::BadRow(_)) => unreachable!(),
    }
}

/// The bytes up to so many behind the place.
fn front(bytes: &[u8], at: usize, room: usize) -> &[u8]
    ensures { result.now ≡ take (at + room) bytes.now }
{
    if bytes.len() <= room || bytes.len() - room <= at {
        return bytes;
    }
    &bytes[..at + room]
}

/// So many entries behind a log with nothing pending. The other tree is the log's at first, and takes each effect as it is
/// read.
fn entries_from(
    format: Format,
    alloc: Global,
    bytes: &[u8],
    start: usize,
    count: u32,
    first: Log,
    ahead: &mut Tree,
) -> Result<(Log, usize), TakeError>
    requires within { start ≤ length bytes.now }
    requires room { length bytes.now ≤ start + max_log }
    requires few { count ≤ max_entries }
    requires numbers { first.acked + count ≤ 18446744073709551615 }
    requires nothing { first.pending ≡ [] }
    requires same { ahead.old ≡ first.base }
    ensures read { Lends (λ x. (x.0.pending, x.1)) result (each_at (next_entry_at format) with_entry count first bytes.now start) }
    ensures acked { IfOk result (λ x. x.0.acked ≡ first.acked) }
    ensures base { IfOk result (λ x. x.0.base ≡ first.base) }
{
    let _acked = first.acked();
    let mut log = first;
    let mut at = start;
    for _ in 0..count {
        let ((origin, effects), next) = next_effects(format, alloc, bytes, at, &log, ahead)?;
        log_entry(&mut log, origin, effects)?;
        at = next;
    }
    Ok((log, at))
}

/// The log with this acknowledged number and this base, whose pending entries stand at the place.
#[tactic(auto, unfolding(crate::specs::Reading::entries_at, byte_fields::specs::Field::ruled, byte_fields::specs::Field::limited))]
fn entries_at(
    format: Format,
    alloc: Global,
    bytes: &[u8],
    at: usize,
    acked: u64,
    base: Tree,
) -> Result<(Log, usize), TakeError>
    ensures read { Lends (λ x. (x.0.pending, x.1)) result (entries_at format (new_log_of acked base) bytes.now at) }
    ensures acked { IfOk result (λ x. x.0.acked ≡ acked) }
    ensures base { IfOk result (λ x. x.0.base ≡ base) }
{
    let (count, start) = u32_at(bytes, at)?;
    if count > MAX_ENTRIES as u32 || u64::from(count) > u64::MAX - acked {
        return Err(TakeError::At(at));
    }
    let mut ahead = base.copy()?;
    let log = Log::new(acked, base);
    let bytes = front(bytes, start, MAX_LOG);
    entries_from(format, alloc, bytes, start, count, log, &mut ahead)
}

/// The log at the place.
#[tactic(auto, unfolding(crate::specs::Reading::log_at))]
fn log_at(format: Format, alloc: Global, bytes: &[u8], at: usize) -> Result<(Log, usize), TakeError>
    ensures { Gives result (log_at format bytes.now at) }
{
    let (acked, start) = u64_at(bytes, at)?;
    let (base, middle) = tree_at(format, alloc, bytes, start)?;
    let (log, next) = entries_at(format, alloc, bytes, middle, acked, base)?;
    Ok((log, next))
}

/// The client's number and its log.
#[tactic(auto, unfolding(crate::specs::Reading::client_body_at, byte_fields::specs::Field::ruled))]
fn client_body_at(
    format: Format,
    alloc: Global,
    bytes: &[u8],
    at: usize,
) -> Result<(ClientImage, usize), TakeError>
    ensures { Gives result (client_body_at format bytes.now at) }
{
    let (client, start) = u8_at(bytes, at)?;
    if client < 1 || client > 64 {
        return Err(TakeError::At(at));
    }
    let (log, next) = log_at(format, alloc, bytes, start)?;
    Ok((ClientImage { client, log }, next))
}

/// A client's image in a format.
#[tactic(auto, unfolding(crate::specs::Reading::client_at, crate::specs::Reading::marked, byte_fields::specs::Field::ruled))]
fn client_at(
    format: Format,
    alloc: Global,
    bytes: &[u8],
    at: usize,
) -> Result<(ClientImage, usize), TakeError>
    ensures { Gives result (client_at format bytes.now at) }
{
    let (mark, start) = span_at(bytes, at, 4)?;
    if b"OSCI".as_slice() != mark {
        return Err(TakeError::At(at));
    }
    let (version, body) = u8_at(bytes, start)?;
    if version != version_of(format) {
        return Err(TakeError::At(start));
    }
    client_body_at(format, alloc, bytes, body)
}

/// The 64 numbers at the place.
fn numbers_at(bytes: &[u8], start: usize) -> Result<([u64; 64], usize), TakeError>
    ensures { Gives result (each_at (λ (_ : Unit {0}). number_at w64) (λ _ _. tt {0}) 64 (tt {0}) bytes.now start) }
{
    let mut numbers = [0; 64];
    let mut at = start;
    for i in 0..64 {
        let (number, next) = u64_at(bytes, at)?;
        numbers[i] = number;
        at = next;
    }
    Ok((numbers, at))
}

/// The last numbers of the clients, and the rows.
#[tactic(auto, unfolding(crate::specs::Reading::server_body_at, crate::specs::Reading::numbers_at))]
fn server_body_at(
    format: Format,
    alloc: Global,
    bytes: &[u8],
    at: usize,
) -> Result<(ServerImage, usize), TakeError>
    requires { at ≤ length bytes.now }
    ensures { Gives result (server_body_at format bytes.now at) }
{
    let (last, start) = numbers_at(bytes, at)?;
    let (tree, next) = tree_at(format, alloc, bytes, start)?;
    Ok((ServerImage { last, tree }, next))
}

/// A server's image in a format.
#[tactic(auto, unfolding(crate::specs::Reading::server_at, crate::specs::Reading::marked, byte_fields::specs::Field::ruled))]
fn server_at(
    format: Format,
    alloc: Global,
    bytes: &[u8],
    at: usize,
) -> Result<(ServerImage, usize), TakeError>
    ensures { Gives result (server_at format bytes.now at) }
{
    let (mark, start) = span_at(bytes, at, 4)?;
    if b"OSSI".as_slice() != mark {
        return Err(TakeError::At(at));
    }
    let (version, body) = u8_at(bytes, start)?;
    if version != version_of(format) {
        return Err(TakeError::At(start));
    }
    server_body_at(format, alloc, bytes, body)
}

/// The version byte of a format.
pub(crate) fn version_of(format: Format) -> u8
    ensures { result ≡ version_byte format }
{
    match format {
        Format::First => 1,
        Format::Second => IMAGE_VERSION,
    }
}

/// The format that the fifth byte tells; where it tells none, the readers of the second one refuse it.
fn format_of(bytes: &[u8]) -> Format
    ensures { result ≡ format_of bytes.now }
{
    match bytes.get(4) {
        Some(1) => Format::First,
        _ => Format::Second,
    }
}

fn begins_with(bytes: &[u8], mark: &[u8]) -> bool
    ensures { result ≡ bytes_eq mark.now (take 4 bytes.now) }
{
    &bytes[..bytes.len().min(4)] == mark
}

/// A client's image and the records behind it, in the format that the bytes tell.
#[tactic(auto, unfolding(crate::specs::Image::kept_client_at, crate::specs::Image::kept_client_in))]
fn kept_client_at(alloc: Global, bytes: &[u8], at: usize) -> Result<(ClientImage, usize), TakeError>
    ensures { Gives result (kept_client_at bytes.now at) }
{
    let format = format_of(bytes);
    let (image, start) = client_at(format, alloc, bytes, at)?;
    let ClientImage { client, log } = image;
    let (log, torn) = log_behind(format, alloc, bytes, start, log)?;
    Ok((ClientImage { client, log }, torn))
}

/// A server's image and the records behind it, in the format that the bytes tell.
#[tactic(auto, unfolding(crate::specs::Image::kept_server_at, crate::specs::Image::kept_server_in))]
fn kept_server_at(alloc: Global, bytes: &[u8], at: usize) -> Result<(ServerImage, usize), TakeError>
    ensures { Gives result (kept_server_at bytes.now at) }
{
    let format = format_of(bytes);
    let (image, start) = server_at(format, alloc, bytes, at)?;
    server_behind(format, alloc, bytes, start, image)
}

/// The server behind the records from the place on, and the place where a torn tail begins.
fn server_behind(
    format: Format,
    alloc: Global,
    bytes: &[u8],
    start: usize,
    image: ServerImage,
) -> Result<(ServerImage, usize), TakeError>
    ensures { Gives result (behind_records (server_records_at format) with_taken image bytes.now start) }
{
    let mut opened = Opened { format, image };
    match take_until_end::<ServerRecord, Opened>(alloc, bytes, start, &mut opened) {
        Ok(torn) => Ok((opened.image, torn)),
        Err(fault) => {
            drop(opened);
            Err(fault)
        }
    }
}

/// What was taken, whatever tail is torn.
fn read_of<T: Drop>(taken: Result<(T, usize), TakeError>) -> Result<T, ImageError>
    ensures { (wanted : Result (T × ℕ) ℕ) → Gives taken wanted → GivesImage result (read_of wanted) }
{
    match taken {
        Ok((image, _torn)) => Ok(image),
        Err(TakeError::At(place)) => Err(ImageError::BadImage(saturate_u32(place))),
        Err(TakeError::Memory) => Err(ImageError::Memory),
    }
}

/// The first refusal that fits, or the client.
fn client_of(alloc: Global, bytes: &[u8]) -> Result<ClientImage, ImageError>
    ensures { GivesImage result (kept_client_of bytes.now) }
{
    if begins_with(bytes, b"OSSI") {
        return Err(ImageError::WrongKind);
    }
    read_of(kept_client_at(alloc, bytes, 0))
}

/// The client that the bytes are kept for: that of the image and the whole records behind it. A torn tail is left.
///
/// Refuses `WrongKind` where the bytes begin as a server's image does, and else `BadImage` at the first faulty field; the first
/// byte that is left in a record is one. `Memory` may come in place of each answer.
pub fn read_client(alloc: Global, bytes: &[u8]) -> Result<ClientImage, ImageError>
    // The bytes are kept for what is read.
    ensures kept { IfOk result (λ image. IsKeptFor image.client image.log bytes.now) }
    // Bytes that are refused are kept for no client.
    ensures none { IfErr result (λ e. e ≢ ImageError.Memory → (number : ℕ) (log : Log) → IsKeptFor number log bytes.now → ⊥) }
    // Which refusal it is.
    ensures exact { GivesImage result (kept_client_of bytes.now) }
{
    client_of(alloc, bytes)
}

/// The first refusal that fits, or the server.
fn server_of(alloc: Global, bytes: &[u8]) -> Result<ServerImage, ImageError>
    ensures { GivesImage result (server_of bytes.now) }
{
    if begins_with(bytes, b"OSCI") {
        return Err(ImageError::WrongKind);
    }
    read_of(kept_server_at(alloc, bytes, 0))
}

/// The server that the bytes are kept for: that of the image and the whole records behind it. A torn tail is left.
///
/// Refuses `WrongKind` where the bytes begin as a client's image does, and else `BadImage` at the first faulty field; the first
/// byte that is left in a record is one. `Memory` may come in place of each answer.
pub fn read_server(alloc: Global, bytes: &[u8]) -> Result<ServerImage, ImageError>
    // The bytes are kept for what is read.
    ensures kept { IfOk result (λ image. IsKeptForServer image bytes.now) }
    // Bytes that are refused are kept for no server.
    ensures none { IfErr result (λ e. e ≢ ImageError.Memory → (image : ServerImage) → IsKeptForServer image bytes.now → ⊥) }
    // Which refusal it is.
    ensures exact { GivesImage result (server_of bytes.now) }
{
    server_of(alloc, bytes)
}
