//! The texts of answers.

ghost use Rattle.std.specs.Prelude.{◌≡◌, ◌∷◌, ◌++◌, OnOk, IfOk, codes, flat_map};
ghost use Rattle.shell_lang.specs.Faults.{number, spaced_path as path_value, tree_fault_text, fault_text};
ghost use Rattle.shell_lang.specs.Texts.{answer_name, answer_values, answer_body, child_line, text_of, HasNoMemory};

use crate::answer::{Child, Fault, LineAnswer};
use crate::fault_text::{put_fault_text, put_tree_fault};
use crate::value::{put_decimal, put_number, put_path, put_path_text};
use std::alloc::{AllocError, Global};
use vol_tree::{Path, TreeError};

/// The text of the answer, with its line end. Only a content stands behind it as it is.
///
/// # Errors
///
/// Want of memory.
#[tactic(auto, using(std::proofs::Common::append_assoc))]
pub fn text_of(alloc: Global, answer: &LineAnswer) -> Result<Vec<u8>, AllocError>
    requires { HasNoMemory answer.now }
    ensures { IfOk result (λ text. text.items ≡ text_of answer.now) }
{
    let mut out = Vec::from_slice(alloc, answer_name(answer))?;
    put_values(&mut out, answer)?;
    out.push(b'\n')?;
    put_body(&mut out, answer)?;
    Ok(out)
}

/// The words that an answer begins with.
fn answer_name(answer: &LineAnswer) -> &'static [u8]
    ensures { result.now ≡ answer_name answer.now }
{
    match answer {
        LineAnswer::Text(_) | LineAnswer::Listing(_) => b"",
        LineAnswer::Logged { .. } | LineAnswer::Ran { .. } => b"logged",
        LineAnswer::At(_) => b"at /",
        LineAnswer::Nothing { .. } => b"nothing logged status",
        LineAnswer::NotRun => b"not run",
        LineAnswer::OddTree(_) => b"odd tree",
        LineAnswer::Clash(_) => b"clash",
        LineAnswer::Status { .. } => b"acknowledged",
        LineAnswer::Synced(_) => b"synced",
        LineAnswer::Stale { .. } => b"stale",
        LineAnswer::Unfit { .. } => b"unfit",
        LineAnswer::Full { .. } => b"full",
        LineAnswer::Unanswered { .. } | LineAnswer::PullUnanswered => b"unanswered",
        LineAnswer::Behind { .. } => b"behind",
        LineAnswer::Pulled(_) => b"pulled",
        LineAnswer::OtherLast(_) => b"other last",
        LineAnswer::Older { .. } => b"older",
        LineAnswer::Refused(_) => b"refused",
    }
}

/// What follows in the same line.
fn put_values(out: &mut Vec<u8>, answer: &LineAnswer) -> Result<(), AllocError>
    ensures { OnOk result (out.new.items ≡ out.old.items ++ answer_values answer.now) }
{
    match answer {
        LineAnswer::Text(content) => put_decimal(out, content.bytes().len() as u64),
        LineAnswer::Listing(children) => put_decimal(out, children.len() as u64),
        LineAnswer::At(path) => put_path_text(out, path),
        LineAnswer::Logged { seq: n }
        | LineAnswer::Unanswered { seq: n }
        | LineAnswer::Synced(n)
        | LineAnswer::OtherLast(n) => put_number(out, *n),
        LineAnswer::Ran { seq, status } => put_ran(out, *seq, *status),
        LineAnswer::Nothing { status } => put_number(out, u64::from(*status)),
        LineAnswer::Pulled(n) | LineAnswer::OddTree(n) => put_number(out, u64::from(*n)),
        LineAnswer::Clash(path) => put_path(out, path),
        LineAnswer::NotRun | LineAnswer::PullUnanswered => Ok(()),
        LineAnswer::Status { acked, pending } => put_status(out, *acked, *pending),
        LineAnswer::Behind { seq, last } => {
            put_number(out, *seq)?;
            put_number(out, *last)
        }
        LineAnswer::Stale {
            seq,
            path,
            theirs,
            ours,
        } => {
            put_number(out, *seq)?;
            put_versions(out, path, *theirs, *ours)
        }
        LineAnswer::Older { path, theirs, ours } => put_versions(out, path, *theirs, *ours),
        LineAnswer::Unfit { seq, index, fault } | LineAnswer::Full { seq, index, fault } => {
            put_refused_effect(out, *seq, *index, fault)
        }
        LineAnswer::Refused(fault) => put_fault(out, fault),
    }
}

/// The number of a command's entry, and the command's status.
fn put_ran(out: &mut Vec<u8>, seq: u64, status: u8) -> Result<(), AllocError>
    ensures { OnOk result (out.new.items ≡ out.old.items ++ (number seq ++ (codes " status" ++ number status))) }
{
    put_number(out, seq)?;
    out.extend_from_slice(b" status")?;
    put_number(out, u64::from(status))
}

/// The acknowledged number, and how many entries are pending.
fn put_status(out: &mut Vec<u8>, acked: u64, pending: u32) -> Result<(), AllocError>
    ensures { OnOk result (out.new.items ≡ out.old.items ++ (number acked ++ (codes " pending" ++ number pending))) }
{
    put_number(out, acked)?;
    out.extend_from_slice(b" pending")?;
    put_number(out, u64::from(pending))
}

/// A path and its two versions.
fn put_versions(out: &mut Vec<u8>, path: &Path, theirs: u64, ours: u64) -> Result<(), AllocError>
    ensures { OnOk result (out.new.items ≡ out.old.items ++ (path_value path.now ++ (number theirs ++ number ours))) }
{
    put_path(out, path)?;
    put_number(out, theirs)?;
    put_number(out, ours)
}

/// An entry's number, the index of its refused effect, and the refusal.
fn put_refused_effect(
    out: &mut Vec<u8>,
    seq: u64,
    index: u32,
    fault: &TreeError,
) -> Result<(), AllocError>
    ensures { OnOk result (out.new.items ≡ out.old.items ++ (number seq ++ (number index ++ 32 ∷ tree_fault_text fault.now))) }
{
    put_number(out, seq)?;
    put_number(out, u64::from(index))?;
    out.extend_from_slice(b" ")?;
    put_tree_fault(out, fault)
}

/// A space and the refusal.
fn put_fault(out: &mut Vec<u8>, fault: &Fault) -> Result<(), AllocError>
    ensures { OnOk result (out.new.items ≡ out.old.items ++ 32 ∷ fault_text fault.now) }
{
    out.extend_from_slice(b" ")?;
    put_fault_text(out, fault)
}

/// What follows the first line.
fn put_body(out: &mut Vec<u8>, answer: &LineAnswer) -> Result<(), AllocError>
    ensures { OnOk result (out.new.items ≡ out.old.items ++ answer_body answer.now) }
{
    match answer {
        LineAnswer::Text(content) => out.extend_from_slice(content.bytes()),
        LineAnswer::Listing(children) => put_children(out, children.as_slice()),
        _ => Ok(()),
    }
}

/// The lines of the children.
fn put_children(out: &mut Vec<u8>, children: &[Child]) -> Result<(), AllocError>
    ensures { OnOk result (out.new.items ≡ out.old.items ++ flat_map child_line children.now) }
{
    for child in children {
        put_child(out, child)?;
    }
    Ok(())
}

/// The letter of the kind, the name and a line end.
fn put_child(out: &mut Vec<u8>, child: &Child) -> Result<(), AllocError>
    ensures { OnOk result (out.new.items ≡ out.old.items ++ child_line child.now) }
{
    out.extend_from_slice(if child.folder { b"d " } else { b"f " })?;
    out.extend_from_slice(child.name.bytes())?;
    out.extend_from_slice(b"\n")
}
