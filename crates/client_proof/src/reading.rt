// Reading a certificate.
ghost use Rattle.std.specs.Prelude.{◌≡◌, ◌≤◌, ◌+◌, [], Ok, Some, IfOk, OnErr, length};
ghost use Rattle.outside.specs.Outside.{RisesWhere};
ghost use Rattle.client_lines.specs.Limits.{max_input};
ghost use Rattle.client_proof.specs.Inside.{AddsPiece, AddsWithin, ReadsAll, ReadsWithin};

use client_lines::{InputEnd, MAX_INPUT};
use outside::{INPUT_PIECE, Source};
use std::alloc::AllocError;

/// Reads an input to its end, or to the first byte past the limit, and says how it ended. The bytes are those of the whole
/// input where it was read to its end.
///
/// # Errors
///
/// Want of memory.
pub(crate) fn read_all<I: Source>(
    input: &mut I,
    bytes: &mut Vec<u8>,
) -> Result<InputEnd, AllocError>
    requires { bytes.old.items ≡ [] }
    ensures ok { IfOk result (ReadsAll (I.left input.old) (I.left input.new) bytes.new.items) }
    ensures err { OnErr result (ReadsWithin (I.left input.old) (I.left input.new) 0) }
    ensures cause { RisesWhere (result ≡ Ok InputEnd.Failed) (I.faults input.old) (I.faults input.new) }
{
    loop {
        if let Some(end) = read_piece(input, bytes)? {
            return Ok(end);
        }
    }
}

/// Adds the next piece of the input to the bytes, where it stays within the limit, and says how the input ended where it did.
///
/// # Errors
///
/// Want of memory; the piece is lost then.
fn read_piece<I: Source>(input: &mut I, bytes: &mut Vec<u8>) -> Result<Option<InputEnd>, AllocError>
    requires { length bytes.old.items ≤ max_input }
    ensures ok { IfOk result (AddsPiece (I.left input.old) (I.left input.new) bytes.old.items bytes.new.items) }
    ensures err { OnErr result (ReadsWithin (I.left input.old) (I.left input.new) (length bytes.old.items)) }
    ensures cause { RisesWhere (result ≡ Ok (Some InputEnd.Failed)) (I.faults input.old) (I.faults input.new) }
{
    let mut chunk = [0; INPUT_PIECE];
    let room = (MAX_INPUT + 1 - bytes.len()).min(INPUT_PIECE);
    let buf = &mut chunk[..room];
    let count = match input.read(buf) {
        Ok(0) => return Ok(Some(InputEnd::Read)),
        Ok(count) => count,
        Err(_) => return Ok(Some(InputEnd::Failed)),
    };
    add(bytes, &buf[..count])
}

/// Adds a piece to the bytes where it stays within the limit, and says that the input is too long where it does not.
fn add(bytes: &mut Vec<u8>, piece: &[u8]) -> Result<Option<InputEnd>, AllocError>
    requires { length bytes.old.items + length piece.now ≤ max_input + 1 }
    ensures ok { IfOk result (AddsWithin bytes.old.items piece.now bytes.new.items) }
    ensures err { OnErr result (length bytes.old.items + length piece.now ≤ max_input) }
{
    if bytes.len() + piece.len() > MAX_INPUT {
        return Ok(Some(InputEnd::TooLong));
    }
    bytes.extend_from_slice(piece)?;
    Ok(None)
}
