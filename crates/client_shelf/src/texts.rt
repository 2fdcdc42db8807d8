// What is written of an end.
ghost use Rattle.std.specs.Prelude.{◌≡◌, ◌++◌, flat_map, IfOk, OnOk};
ghost use Rattle.shell_lang.specs.Texts.{text_of};
ghost use Rattle.client_shelf.specs.Texts.{ending_text, shelf_text, shelved_line, counts_line};

use crate::ends::Ending;
use conflict_shelf::{Shelved, ShelvedList};
use shell_lang::{Fault, LineAnswer, has_no_memory, text_of};
use std::alloc::{AllocError, Global};

/// The text of an end.
pub(crate) fn text_of_ending(alloc: Global, ending: Ending) -> Result<Vec<u8>, AllocError>
    ensures { IfOk result (λ text. text.items ≡ ending_text ending) }
{
    match ending {
        Ending::NoImage => b"refused NoImage\n".to_vec(alloc),
        Ending::NewImage => b"refused NewImage\n".to_vec(alloc),
        Ending::NothingPending => b"refused NothingPending\n".to_vec(alloc),
        Ending::BadFolder(fault) => answered(alloc, LineAnswer::Refused(Fault::Path(fault))),
        Ending::BadPlace(fault) => answered(alloc, LineAnswer::Refused(Fault::Path(fault))),
        Ending::Unanswered => answered(alloc, LineAnswer::PullUnanswered),
        Ending::OtherLast(last) => answered(alloc, LineAnswer::OtherLast(last)),
        Ending::Older { path, theirs, ours } => {
            answered(alloc, LineAnswer::Older { path, theirs, ours })
        }
        Ending::Unlogged(refusal) => answered(alloc, LineAnswer::Refused(Fault::Log(refusal))),
        Ending::Shelved { entries, names } => {
            let text = text_of_shelf(alloc, entries, &names);
            drop(names);
            text
        }
    }
}

/// The text of an answer. One that is want of memory has none.
fn answered(alloc: Global, answer: LineAnswer) -> Result<Vec<u8>, AllocError>
    ensures { IfOk result (λ text. text.items ≡ text_of answer) }
{
    if !has_no_memory(&answer) {
        drop(answer);
        return Err(AllocError);
    }
    let text = text_of(alloc, &answer);
    drop(answer);
    text
}

/// A line for each content that was set aside, and one that counts them.
fn text_of_shelf(alloc: Global, entries: u32, names: &ShelvedList) -> Result<Vec<u8>, AllocError>
    ensures { IfOk result (λ text. text.items ≡ shelf_text entries names.now) }
{
    let mut text = Vec::new(alloc);
    for shelved in names.as_slice() {
        write_shelved(alloc, &mut text, shelved)?;
    }
    write_counts(alloc, &mut text, entries, names.len())?;
    Ok(text)
}

/// The line of a content.
fn write_shelved(alloc: Global, text: &mut Vec<u8>, shelved: &Shelved) -> Result<(), AllocError>
    ensures { OnOk result (text.new.items ≡ text.old.items ++ shelved_line shelved.now) }
{
    let (seq, index) = (shelved.seq, shelved.index);
    let place = format!(in alloc; "f {seq}.{index} ")?;
    text.extend_from_slice(place.as_bytes())?;
    let path = shelved.path.text()?;
    text.extend_from_slice(path.bytes())?;
    text.push(b'\n')?;
    Ok(())
}

/// The line that counts entries and contents.
fn write_counts(
    alloc: Global,
    text: &mut Vec<u8>,
    entries: u32,
    files: usize,
) -> Result<(), AllocError>
    ensures { OnOk result (text.new.items ≡ text.old.items ++ counts_line entries files) }
{
    let line = format!(in alloc; "shelved {entries} entries {files} files\n")?;
    text.extend_from_slice(line.as_bytes())
}
