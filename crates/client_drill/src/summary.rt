// What is told of a drill.
ghost use Rattle.std.specs.Prelude.{◌≡◌, ◌++◌, length, fold, option_to_list, IfOk, OnOk};
ghost use Rattle.byte_fields.specs.Numbers.{as_u64};
ghost use Rattle.tree_values.specs.Tree.{node_size, total_size};
ghost use Rattle.wire_frames.specs.declared.message.Message.{Message};
ghost use Rattle.wire_frames.specs.Frame.{Spells};
ghost use Rattle.server_core.specs.Holding.{served};
ghost use Rattle.shell_lang.specs.Texts.{text_of};
ghost use Rattle.shell_lang.specs.declared.answer.LineAnswer.TheVariants.{Status};
ghost use Rattle.client_drill.specs.Drilled.{one_line, pair_line, summary_text, done_in, with_number, done_among};

use crate::session::Worked;
use mem_net::{DrillRunner, MemNet};
use server_core::Server;
use shell_lang::{LineAnswer, put_number, text_of};
use std::alloc::{AllocError, Global};
use tree_values::size_of;
use vol_tree::Row;
use wire_frames::{Message, read};

/// What is told of a drill behind its own words.
#[derive(Clone, Copy, Debug, PartialEq, Eq)]
pub(crate) struct Summary {
    /// What its session came to.
    pub(crate) worked: Worked,
    /// How many of the steps run a job.
    pub(crate) commands: u32,
    /// How many entries are said to be done by the surrogate.
    pub(crate) done: u64,
    /// How many troubles the network had.
    pub(crate) troubles: u64,
    /// How many rows the server has.
    pub(crate) rows: u32,
    /// How many bytes the files of these rows have.
    pub(crate) bytes: u64,
}

impl Summary {
    /// The text of a summary.
    pub(crate) fn text(&self, alloc: Global, seed: u16, count: u32) -> Result<Vec<u8>, AllocError>
        ensures { IfOk result (λ text. text.items ≡ summary_text seed count self.now) }
    {
        let mut text = Vec::new(alloc);
        put_pair(&mut text, b"drill", u64::from(seed), b"", u64::from(count))?;
        put_one(&mut text, b"logged", self.worked.logged)?;
        put_status(&mut text, self.worked.acked, self.worked.pending)?;
        put_pair(
            &mut text,
            b"commands",
            u64::from(self.commands),
            b" done",
            self.done,
        )?;
        put_one(&mut text, b"troubles", self.troubles)?;
        put_pair(
            &mut text,
            b"rows",
            u64::from(self.rows),
            b" bytes",
            self.bytes,
        )?;
        Ok(text)
    }
}

/// Adds the last line of a session.
fn put_status(out: &mut Vec<u8>, acked: u64, pending: u32) -> Result<(), AllocError>
    ensures { OnOk result (out.new.items ≡ out.old.items ++ text_of (Status acked pending)) }
{
    let status = LineAnswer::Status { acked, pending };
    let line = text_of(*out.allocator(), &status);
    drop(status);
    out.extend_from_slice(&line?)
}

/// Adds a line of two numbers, each behind its word.
fn put_pair(out: &mut Vec<u8>, word: &[u8], n: u64, other: &[u8], m: u64) -> Result<(), AllocError>
    ensures { OnOk result (out.new.items ≡ out.old.items ++ pair_line word.now n other.now m) }
{
    out.extend_from_slice(word)?;
    put_number(out, n)?;
    put_one(out, other, m)
}

/// Adds a line of a number behind a word.
fn put_one(out: &mut Vec<u8>, word: &[u8], n: u64) -> Result<(), AllocError>
    ensures { OnOk result (out.new.items ≡ out.old.items ++ one_line word.now n) }
{
    out.extend_from_slice(word)?;
    put_number(out, n)?;
    out.push(b'\n')?;
    Ok(())
}

/// How many different entries are said to be done among the packets of a network.
pub(crate) fn done_count(alloc: Global, net: &MemNet<DrillRunner>) -> Result<u64, AllocError>
    ensures { IfOk result (λ count. count ≡ length (done_among net.now.wires.packets)) }
{
    let mut done = Vec::new(alloc);
    for k in 0..u32::MAX {
        let Some(frame) = net.packet(k) else {
            return Ok(done.len() as u64);
        };
        note_done(alloc, &mut done, frame)?;
    }
    Err(AllocError)
}

/// Notes the entry that the frame of a message says to be done, unless it is noted.
fn note_done(alloc: Global, done: &mut Vec<u64>, frame: &[u8]) -> Result<(), AllocError>
    ensures { (message : Message) → Spells message frame.now
        → OnOk result (done.new.items ≡ fold with_number done.old.items (done_in message)) }
{
    let Ok(message) = read(alloc, frame) else {
        return Err(AllocError);
    };
    let number = number_if_done(&message);
    drop(message);
    if let Some(number) = number
        && !done.contains(&number)
    {
        done.push(number)?;
    }
    Ok(())
}

/// The number of the entry that a message says to be done.
fn number_if_done(message: &Message) -> Option<u64>
    ensures { option_to_list result ≡ done_in message.now }
{
    match message {
        Message::Done { number, .. } => Some(*number),
        _ => None,
    }
}

/// How many bytes the files of a server have.
pub(crate) fn size_of_files(server: &Server) -> Result<u64, AllocError>
    ensures { IfOk result (λ size. size ≡ total_size (served server.now).volume) }
{
    let rows = server.tree().rows()?;
    let size = size_of_all(rows.as_slice());
    drop(rows);
    Ok(size)
}

/// How many bytes the files of these rows have.
fn size_of_all(rows: &[Row]) -> u64
    ensures { result ≡ as_u64 (total_size rows.now) }
{
    let mut size = 0u64;
    for row in rows {
        size = size.saturating_add(size_of_row(row));
    }
    size
}

/// How many bytes the file of a row has.
fn size_of_row(row: &Row) -> u64
    ensures { result ≡ node_size row.now.node }
{
    size_of(row.node.as_ref())
}
