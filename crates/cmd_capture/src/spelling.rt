//! Appending the spellings of commands and jobs.

ghost use Rattle.std.specs.Prelude.{◌≡◌, [], ◌∷◌, ◌++◌, length, OnOk, OnErr, Some};
ghost use Rattle.std.specs.List.{flat_map};
ghost use Rattle.std.specs.Int.{w8, w16, w32};
ghost use Rattle.byte_fields.specs.Field.{digits, IsFront};
ghost use Rattle.file_paths.specs.Spelling.{content, path};
ghost use Rattle.cmd_capture.specs.Spelling as spelling;

use crate::command::Command;
use crate::job::{Job, JobRow};
use byte_fields::{Spelled, put_each, put_u16, put_u32};
use std::alloc::AllocError;
use vol_tree::{Content, Node, Path};

#[tactic(auto, unfolding(byte_fields::specs::Field::digits))]
fn put_u8(out: &mut Vec<u8>, number: u8) -> Result<(), AllocError>
    ensures ok { OnOk result (out.new.items ≡ out.old.items ++ digits w8 number) }
    ensures err { OnErr result (out.new.items ≡ out.old.items) }
{
    out.extend_from_slice(&number.to_be_bytes())
}

/// A length or a count in one byte; of a greater one the low byte.
#[tactic(auto, using(crate::proofs::Wrapped::wrapped8))]
fn put_count8(out: &mut Vec<u8>, count: usize) -> Result<(), AllocError>
    ensures ok { OnOk result (out.new.items ≡ out.old.items ++ digits w8 count) }
    ensures err { OnErr result (out.new.items ≡ out.old.items) }
{
    put_u8(out, (count % 256) as u8)
}

/// A length or a count in two bytes; of a greater one the low bytes.
#[tactic(auto, using(crate::proofs::Wrapped::wrapped16))]
pub(crate) fn put_count16(out: &mut Vec<u8>, count: usize) -> Result<(), AllocError>
    ensures ok { OnOk result (out.new.items ≡ out.old.items ++ digits w16 count) }
    ensures err { OnErr result (out.new.items ≡ out.old.items) }
{
    put_u16(out, (count % 65_536) as u16)
}

/// A length or a count in four bytes; of a greater one the low bytes.
#[tactic(auto, using(crate::proofs::Wrapped::wrapped32))]
pub(crate) fn put_count32(out: &mut Vec<u8>, count: usize) -> Result<(), AllocError>
    ensures ok { OnOk result (out.new.items ≡ out.old.items ++ digits w32 count) }
    ensures err { OnErr result (out.new.items ≡ out.old.items) }
{
    put_u32(out, (count % 4_294_967_296) as u32)
}

/// The bytes, behind their number.
#[tactic(auto, using(byte_fields::proofs::Fronts::front_none, byte_fields::proofs::Fronts::front_before))]
pub(crate) fn put_text(out: &mut Vec<u8>, bytes: &[u8]) -> Result<(), AllocError>
    ensures ok { OnOk result (out.new.items ≡ out.old.items ++ content bytes.now) }
    ensures err { OnErr result (IsFront out.old.items out.new.items (content bytes.now)) }
{
    put_count32(out, bytes.len())?;
    out.extend_from_slice(bytes)?;
    Ok(())
}

fn put_template(out: &mut Vec<u8>, bytes: &[u8]) -> Result<(), AllocError>
    ensures ok { OnOk result (out.new.items ≡ out.old.items ++ spelling.template bytes.now) }
    ensures err { OnErr result (IsFront out.old.items out.new.items (spelling.template bytes.now)) }
{
    put_count8(out, bytes.len())?;
    out.extend_from_slice(bytes)?;
    Ok(())
}

fn put_all_texts(out: &mut Vec<u8>, texts: &[Content]) -> Result<(), AllocError>
    ensures ok { OnOk result (out.new.items ≡ out.old.items ++ flat_map content texts.now) }
    ensures err { OnErr result (IsFront out.old.items out.new.items (flat_map content texts.now)) }
{
    for text in texts {
        put_text(out, text.bytes())?;
    }
    Ok(())
}

fn put_all_paths(out: &mut Vec<u8>, paths: &[Path]) -> Result<(), AllocError>
    ensures ok { OnOk result (out.new.items ≡ out.old.items ++ flat_map path paths.now) }
    ensures err { OnErr result (IsFront out.old.items out.new.items (flat_map path paths.now)) }
{
    for path in paths {
        Path::spell(path, out)?;
    }
    Ok(())
}

fn put_all_templates(out: &mut Vec<u8>, templates: &[Content]) -> Result<(), AllocError>
    ensures ok { OnOk result (out.new.items ≡ out.old.items ++ flat_map spelling.template templates.now) }
    ensures err { OnErr result (IsFront out.old.items out.new.items (flat_map spelling.template templates.now)) }
{
    for template in templates {
        put_template(out, template.bytes())?;
    }
    Ok(())
}

fn put_texts(out: &mut Vec<u8>, texts: &[Content]) -> Result<(), AllocError>
    ensures ok { OnOk result (out.new.items ≡ out.old.items ++ spelling.counted content texts.now) }
    ensures err { OnErr result (IsFront out.old.items out.new.items (spelling.counted content texts.now)) }
{
    put_count16(out, texts.len())?;
    put_all_texts(out, texts)?;
    Ok(())
}

fn put_paths(out: &mut Vec<u8>, paths: &[Path]) -> Result<(), AllocError>
    ensures ok { OnOk result (out.new.items ≡ out.old.items ++ spelling.counted path paths.now) }
    ensures err { OnErr result (IsFront out.old.items out.new.items (spelling.counted path paths.now)) }
{
    put_count16(out, paths.len())?;
    put_all_paths(out, paths)?;
    Ok(())
}

fn put_templates(out: &mut Vec<u8>, templates: &[Content]) -> Result<(), AllocError>
    ensures ok { OnOk result (out.new.items ≡ out.old.items ++ spelling.counted spelling.template templates.now) }
    ensures err { OnErr result (IsFront out.old.items out.new.items (spelling.counted spelling.template templates.now)) }
{
    put_count16(out, templates.len())?;
    put_all_templates(out, templates)?;
    Ok(())
}

impl Command {
    /// Appends the spelling: program, arguments, folder, variables, inputs and templates.
    ///
    /// # Errors
    ///
    /// `AllocError` where memory runs out. A front of the spelling is then appended.
    pub fn spell(value: &Command, out: &mut Vec<u8>) -> Result<(), AllocError>
        ensures ok { OnOk result (out.new.items ≡ out.old.items ++ spelling.command value.now) }
        ensures err { OnErr result (IsFront out.old.items out.new.items (spelling.command value.now)) }
    {
        put_text(out, value.program.bytes())?;
        put_texts(out, value.args.as_slice())?;
        Path::spell(&value.cwd, out)?;
        value.env.spell(out)?;
        put_paths(out, value.inputs.as_slice())?;
        put_templates(out, value.templates.as_slice())?;
        Ok(())
    }
}

/// Appends a byte for the kind of what stands at a path.
fn put_kind(out: &mut Vec<u8>, kind: u8) -> Result<(), AllocError>
    ensures ok { OnOk result (out.new.items ≡ out.old.items ++ kind ∷ []) }
    ensures err { OnErr result (out.new.items ≡ out.old.items) }
{
    out.push(kind)?;
    Ok(())
}

/// Appends a file: its kind and its content.
fn put_file(out: &mut Vec<u8>, kind: u8, file: &Content) -> Result<(), AllocError>
    ensures ok { OnOk result (out.new.items ≡ out.old.items ++ kind ∷ content file.now) }
    ensures err { OnErr result (IsFront out.old.items out.new.items (kind ∷ content file.now)) }
{
    put_kind(out, kind)?;
    put_text(out, file.bytes())?;
    Ok(())
}

/// Appends what stands at a path: a byte for its kind, and a file's content.
fn put_node(out: &mut Vec<u8>, node: &Node) -> Result<(), AllocError>
    ensures ok { OnOk result (out.new.items ≡ out.old.items ++ spelling.job_node node.now) }
    ensures err { OnErr result (IsFront out.old.items out.new.items (spelling.job_node node.now)) }
{
    match node {
        Node::Folder => put_kind(out, 1),
        Node::File { content, exec } => put_file(out, if *exec { 3 } else { 2 }, content),
    }
}

impl JobRow {
    /// Appends the spelling: the path, and what stands there.
    ///
    /// # Errors
    ///
    /// `AllocError` where memory runs out. A front of the spelling is then appended.
    pub fn spell(value: &JobRow, out: &mut Vec<u8>) -> Result<(), AllocError>
        ensures ok { OnOk result (out.new.items ≡ out.old.items ++ spelling.job_row value.now) }
        ensures err { OnErr result (IsFront out.old.items out.new.items (spelling.job_row value.now)) }
    {
        Path::spell(&value.path, out)?;
        put_node(out, &value.node)?;
        Ok(())
    }
}

impl Spelled for JobRow {
    ghost spelling = { spelling.job_row };

    ghost fits = { λ _. Unit {0} };

    fn put(&self, out: &mut Vec<u8>) -> Result<(), AllocError> {
        JobRow::spell(self, out)
    }
}

/// Appends rows behind their number.
fn put_rows(out: &mut Vec<u8>, rows: &[JobRow]) -> Result<(), AllocError>
    ensures ok { OnOk result (out.new.items ≡ out.old.items ++ (digits w32 (length rows.now) ++ flat_map spelling.job_row rows.now)) }
    ensures err { OnErr result (IsFront out.old.items out.new.items (digits w32 (length rows.now) ++ flat_map spelling.job_row rows.now)) }
{
    put_count32(out, rows.len())?;
    put_each(rows, out)?;
    Ok(())
}

impl Job {
    /// Appends the spelling: the command, four bytes for the number of rows, and the rows.
    ///
    /// # Errors
    ///
    /// `AllocError` where memory runs out. A front of the spelling is then appended.
    pub fn spell(value: &Job, out: &mut Vec<u8>) -> Result<(), AllocError>
        ensures ok { OnOk result (out.new.items ≡ out.old.items ++ spelling.job value.now) }
        ensures err { OnErr result (IsFront out.old.items out.new.items (spelling.job value.now)) }
    {
        Command::spell(value.command(), out)?;
        put_rows(out, value.rows().as_slice())?;
        Ok(())
    }
}
