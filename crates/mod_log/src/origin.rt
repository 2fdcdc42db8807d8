//! What made an entry, in bytes and from them.

ghost use Rattle.std.specs.Prelude.{◌≡◌, ◌∷◌, ◌++◌, IfOk, OnOk, OnErr, length};
ghost use Rattle.byte_fields.specs.Field.{Gives, IsFront, span_at};
ghost use Rattle.byte_fields.specs.Codec.{IsBytes};
ghost use Rattle.cmd_capture.specs.Spelling.{IsCommand};
ghost use Rattle.mod_log.specs.Origin.{origin as spelled, made_by, OriginFits};
ghost use Rattle.mod_log.specs.Reading.{origin_at, made_by_at};

use byte_fields::{TakeError, span_at, u8_at};
use cmd_capture::Command;
use std::alloc::{AllocError, Global};
use vol_tree::TryCopy;

/// The command that made an entry, and the run whose changes the entry has.
#[derive(Debug, Drop)]
pub struct Origin {
    pub command: Command,
    /// The SHA-256 of the spelling of the job that was run.
    pub job_print: [u8; 32],
    /// The status with which the run ended.
    pub status: u8,
}

impl TryCopy for Origin {
    fn copy(&self) -> Result<Origin, AllocError> {
        Ok(Origin {
            command: self.command.copy()?,
            job_print: self.job_print,
            status: self.status,
        })
    }
}

impl Origin {
    /// The origin of the entry of a run: its command, the print of its job, and its status. It takes no memory.
    pub fn new(command: Command, job_print: [u8; 32], status: u8) -> Origin
        requires { IsCommand command }
        ensures origin { result ≡ record { command = command; job_print = job_print; status = status } }
        ensures fits { OriginFits result }
    {
        are_bytes(&job_print);
        Origin {
            command,
            job_print,
            status,
        }
    }

    /// Appends the spelling: the print of the job, a byte for the status, and the command.
    ///
    /// # Errors
    ///
    /// `AllocError` where memory runs out. A front of the spelling is then appended.
    pub fn spell(value: &Origin, out: &mut Vec<u8>) -> Result<(), AllocError>
        ensures ok { OnOk result (out.new.items ≡ out.old.items ++ spelled value.now) }
        ensures err { OnErr result (IsFront out.old.items out.new.items (spelled value.now)) }
    {
        out.extend_from_slice(&value.job_print)?;
        out.push(value.status)?;
        Command::spell(&value.command, out)
    }

    /// Takes the origin at the place, and gives the place after it.
    ///
    /// # Errors
    ///
    /// `At` the first faulty field: also in a command that breaks a rule. Want of memory.
    #[tactic(auto, unfolding(crate::specs::Reading::origin_at))]
    pub fn take(alloc: Global, bytes: &[u8], at: usize) -> Result<(Origin, usize), TakeError>
        ensures { Gives result (origin_at bytes.now at) }
    {
        let (job_print, after_print) = print_at(bytes, at)?;
        let (status, after_status) = u8_at(bytes, after_print)?;
        let (command, next) = Command::take(alloc, bytes, after_status)?;
        Ok((
            Origin {
                command,
                job_print,
                status,
            },
            next,
        ))
    }
}

/// Takes the print of a job, and gives the place after it.
fn print_at(bytes: &[u8], at: usize) -> Result<([u8; 32], usize), TakeError>
    ensures { Gives result (span_at 32 bytes.now at) }
{
    let (span, next) = span_at(bytes, at, 32)?;
    let mut print = [0; 32];
    print.copy_from_slice(span);
    Ok((print, next))
}

/// States what the type of a slice says of its numbers. It takes no time.
fn are_bytes(bytes: &[u8])
    ensures { IsBytes bytes.now }
{}

/// Appends what made an entry: a byte 0, or a byte 1 and the origin.
pub(crate) fn put_made_by(out: &mut Vec<u8>, origin: &Option<Origin>) -> Result<(), AllocError>
    ensures ok { OnOk result (out.new.items ≡ out.old.items ++ made_by origin.now) }
    ensures err { OnErr result (IsFront out.old.items out.new.items (made_by origin.now)) }
{
    match origin {
        None => out.push(0)?,
        Some(origin) => put_origin(origin, out)?,
    }
    Ok(())
}

/// Appends a byte 1 and the origin.
fn put_origin(origin: &Origin, out: &mut Vec<u8>) -> Result<(), AllocError>
    ensures ok { OnOk result (out.new.items ≡ out.old.items ++ (1 ∷ spelled origin.now)) }
    ensures err { OnErr result (IsFront out.old.items out.new.items (1 ∷ spelled origin.now)) }
{
    out.push(1)?;
    Origin::spell(origin, out)
}

/// Takes what made an entry, and gives the place after it.
///
/// # Errors
///
/// `At` the first faulty field: also a first byte that is neither 0 nor 1. Want of memory.
#[tactic(auto, unfolding(crate::specs::Reading::made_by_at))]
pub fn take_made_by(
    alloc: Global,
    bytes: &[u8],
    at: usize,
) -> Result<(Option<Origin>, usize), TakeError>
    ensures { Gives result (made_by_at bytes.now at) }
{
    let (kind, start) = u8_at(bytes, at)?;
    match kind {
        0 => Ok((None, start)),
        1 => {
            let (origin, next) = Origin::take(alloc, bytes, start)?;
            Ok((Some(origin), next))
        }
        _ => Err(TakeError::At(at)),
    }
}

/// The bytes of the spelling of what made an entry.
pub(crate) fn made_by_size(alloc: Global, origin: &Option<Origin>) -> Result<u64, AllocError>
    ensures { IfOk result (λ size. size ≡ length (made_by origin.now)) }
{
    let mut spelling = Vec::new(alloc);
    put_made_by(&mut spelling, origin)?;
    Ok(spelling.len() as u64)
}

/// An equal one.
pub(crate) fn copy_of(origin: &Option<Origin>) -> Result<Option<Origin>, AllocError>
    ensures { IfOk result (λ copied. copied ≡ origin.now) }
{
    match origin {
        None => Ok(None),
        Some(origin) => Ok(Some(origin.copy()?)),
    }
}
