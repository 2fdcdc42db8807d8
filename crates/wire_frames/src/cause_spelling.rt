//! Spelling causes in bytes, and taking them from the bytes.

ghost use Rattle.std.specs.Prelude.{◌≡◌, ◌++◌, OnOk};
ghost use Rattle.std.specs.Int.{w32};
ghost use Rattle.byte_fields.specs.Field.{Gives, one, number_at};
ghost use Rattle.file_paths.specs.Reading.{path_at};
ghost use Rattle.wire_frames.specs.declared.cause.Cause.TheVariants.{OddTree, Mismatch, Clash};
ghost use Rattle.wire_frames.specs.Cause.{cause, CauseFits, print_at, other_job_at, no_job_at, status_at, not_fit_at, refused_at, cause_at};

use crate::cause::Cause;
use byte_fields::{TakeError, put_u32, span_at, u8_at, u32_at};
use std::alloc::{AllocError, Global};
use vol_tree::{Path, TreeError};

/// A cause, and the place after it.
type Taken = Result<(Cause, usize), TakeError>;

impl Cause {
    /// Appends the spelling: a byte for the number of the cause, and what it tells.
    #[tactic(auto, using(crate::proofs::CauseLaws::fault_is_spelled))]
    pub(crate) fn spell(value: &Cause, out: &mut Vec<u8>) -> Result<(), AllocError>
        requires { CauseFits value.now }
        ensures { OnOk result (out.new.items ≡ out.old.items ++ cause value.now) }
    {
        match value {
            Cause::OtherJob { logged, found } => {
                out.extend_from_slice(&[1])?;
                out.extend_from_slice(logged)?;
                out.extend_from_slice(found)
            }
            Cause::NoJob { code, index } => {
                out.extend_from_slice(&[2, *code])?;
                put_u32(out, *index)
            }
            Cause::NoServer => out.extend_from_slice(&[3]),
            Cause::NotRun => out.extend_from_slice(&[4]),
            Cause::Status { logged, replayed } => out.extend_from_slice(&[5, *logged, *replayed]),
            Cause::OddTree(index) => {
                out.extend_from_slice(&[6])?;
                put_u32(out, *index)
            }
            Cause::Mismatch(path) => {
                out.extend_from_slice(&[7])?;
                Path::spell(path, out)
            }
            Cause::Clash(path) => {
                out.extend_from_slice(&[8])?;
                Path::spell(path, out)
            }
            Cause::NotFit { index, fault } => {
                out.extend_from_slice(&[9])?;
                put_u32(out, *index)?;
                TreeError::spell(fault, out)
            }
            Cause::Refused(kind) => out.extend_from_slice(&[10, *kind]),
            Cause::NoMemory => out.extend_from_slice(&[11]),
        }
    }

    /// Takes the cause at the place, and gives the place after it.
    #[tactic(auto, unfolding(crate::specs::Cause::cause_at))]
    pub(crate) fn take(alloc: Global, bytes: &[u8], at: usize) -> Taken
        ensures { Gives result (cause_at bytes.now at) }
    {
        let (number, start) = u8_at(bytes, at)?;
        match number {
            1 => other_job_at(bytes, start),
            2 => no_job_at(bytes, start),
            3 => Ok((Cause::NoServer, start)),
            4 => Ok((Cause::NotRun, start)),
            5 => status_at(bytes, start),
            6 => odd_tree_at(bytes, start),
            7 => mismatch_at(alloc, bytes, start),
            8 => clash_at(alloc, bytes, start),
            9 => not_fit_at(alloc, bytes, start),
            10 => refused_at(bytes, start),
            11 => Ok((Cause::NoMemory, start)),
            _ => Err(TakeError::At(at)),
        }
    }
}

/// The 32 bytes of a print at the place, and the place after them.
fn print_at(bytes: &[u8], at: usize) -> Result<([u8; 32], usize), TakeError>
    ensures { Gives result (print_at bytes.now at) }
{
    let (span, next) = span_at(bytes, at, 32)?;
    let mut print = [0; 32];
    print.copy_from_slice(span);
    Ok((print, next))
}

#[tactic(auto, unfolding(crate::specs::Cause::other_job_at, byte_fields::specs::Field::ruled))]
fn other_job_at(bytes: &[u8], at: usize) -> Taken
    ensures { Gives result (other_job_at bytes.now at) }
{
    let (logged, found_at) = print_at(bytes, at)?;
    let (found, next) = print_at(bytes, found_at)?;
    if found == logged {
        return Err(TakeError::At(found_at));
    }
    Ok((Cause::OtherJob { logged, found }, next))
}

#[tactic(auto, unfolding(crate::specs::Cause::no_job_at, byte_fields::specs::Field::ruled))]
fn no_job_at(bytes: &[u8], at: usize) -> Taken
    ensures { Gives result (no_job_at bytes.now at) }
{
    let (code, index_at) = u8_at(bytes, at)?;
    if code != 1 && code != 2 {
        return Err(TakeError::At(at));
    }
    let (index, next) = u32_at(bytes, index_at)?;
    if code != 2 && index != 0 {
        return Err(TakeError::At(index_at));
    }
    Ok((Cause::NoJob { code, index }, next))
}

#[tactic(auto, unfolding(crate::specs::Cause::status_at, byte_fields::specs::Field::ruled))]
fn status_at(bytes: &[u8], at: usize) -> Taken
    ensures { Gives result (status_at bytes.now at) }
{
    let (logged, replayed_at) = u8_at(bytes, at)?;
    let (replayed, next) = u8_at(bytes, replayed_at)?;
    if replayed == logged {
        return Err(TakeError::At(replayed_at));
    }
    Ok((Cause::Status { logged, replayed }, next))
}

fn odd_tree_at(bytes: &[u8], at: usize) -> Taken
    ensures { Gives result (one (number_at w32) OddTree bytes.now at) }
{
    let (index, next) = u32_at(bytes, at)?;
    Ok((Cause::OddTree(index), next))
}

fn mismatch_at(alloc: Global, bytes: &[u8], at: usize) -> Taken
    ensures { Gives result (one path_at Mismatch bytes.now at) }
{
    let (path, next) = Path::take(alloc, bytes, at)?;
    Ok((Cause::Mismatch(path), next))
}

fn clash_at(alloc: Global, bytes: &[u8], at: usize) -> Taken
    ensures { Gives result (one path_at Clash bytes.now at) }
{
    let (path, next) = Path::take(alloc, bytes, at)?;
    Ok((Cause::Clash(path), next))
}

#[tactic(auto, unfolding(crate::specs::Cause::not_fit_at))]
fn not_fit_at(alloc: Global, bytes: &[u8], at: usize) -> Taken
    ensures { Gives result (not_fit_at bytes.now at) }
{
    let (index, fault_at) = u32_at(bytes, at)?;
    let (fault, next) = TreeError::take(alloc, bytes, fault_at)?;
    Ok((Cause::NotFit { index, fault }, next))
}

#[tactic(auto, unfolding(crate::specs::Cause::refused_at, byte_fields::specs::Field::ruled))]
fn refused_at(bytes: &[u8], at: usize) -> Taken
    ensures { Gives result (refused_at bytes.now at) }
{
    let (kind, next) = u8_at(bytes, at)?;
    if !matches!(kind, 18 | 19 | 20 | 24) {
        return Err(TakeError::At(at));
    }
    Ok((Cause::Refused(kind), next))
}
