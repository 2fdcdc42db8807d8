// Templates, and the names that a replay's files get.

ghost use Rattle.std.specs.Prelude.{IfOk};
ghost use Rattle.cmd_capture.specs.Rows.{AreJobRows};

use crate::given::{Given, Side, word_at};
use crate::judged::{tell_path, tell_rows};
use crate::judging::{entry_effects, legal_rows, templates};
use cmd_capture::{JobRows, Templates};
use mod_log::SketchEffects;
use std::alloc::{AllocError, Global};
use t_scene_files::Fault;
use temp_names::{Renamed, fits, rename, renaming_of};
use vol_tree::Content;

/// The line with what the template in it says of its name. `''` is the empty template.
pub(crate) fn fit_told(alloc: Global, words: &[&str]) -> Result<Vec<u8>, Fault> {
    let (word, name) = (word_at(words, 1), word_at(words, 2));
    let bytes = if word == "''" { "" } else { word };
    let template = Content::of(alloc, bytes.as_bytes())?;
    let is_fit = fits(&template, name.as_bytes());
    drop(template);
    let what = if is_fit { "fits" } else { "misfits" };
    let told = format!(in alloc; "{what} {word} {name}\n")?;
    Ok(told.into_bytes())
}

/// The pairs of the replay's rows.
fn pairs(alloc: Global, given: &[Given], rows: &JobRows) -> Result<Vec<Renamed>, Fault> {
    let job = legal_rows(alloc, given, Side::Job)?;
    let effects = entry_effects(alloc, given, &job);
    match effects {
        Ok(effects) => {
            let found = pairs_of(alloc, given, &effects, &job, rows);
            drop(effects);
            drop(job);
            Ok(found?)
        }
        Err(fault) => {
            drop(job);
            Err(fault)
        }
    }
}

fn pairs_of(
    alloc: Global,
    given: &[Given],
    effects: &SketchEffects,
    job: &JobRows,
    rows: &JobRows,
) -> Result<Vec<Renamed>, AllocError> {
    let templates = templates(alloc, given)?;
    let found = renaming_of(alloc, &templates, effects, job, rows);
    drop(templates);
    found
}

/// The two paths of each pair.
pub(crate) fn pairs_told(alloc: Global, given: &[Given]) -> Result<Vec<u8>, Fault> {
    let rows = legal_rows(alloc, given, Side::Replay)?;
    let pairs = pairs(alloc, given, &rows);
    drop(rows);
    let pairs = pairs?;
    let told = tell_pairs(alloc, &pairs);
    drop(pairs);
    Ok(told?)
}

fn tell_pairs(alloc: Global, pairs: &[Renamed]) -> Result<Vec<u8>, AllocError> {
    let mut text = Vec::new(alloc);
    text.extend_from_slice(b"pairs\n")?;
    for pair in pairs {
        tell_path(&mut text, "", &pair.from, " ")?;
        tell_path(&mut text, "", &pair.to, "\n")?;
    }
    Ok(text)
}

/// The replay's rows under the client's names.
pub(crate) fn renamed_told(alloc: Global, given: &[Given]) -> Result<Vec<u8>, Fault> {
    let rows = legal_rows(alloc, given, Side::Replay)?;
    match pairs(alloc, given, &rows) {
        Ok(pairs) => {
            let renamed = rename(alloc, rows, &pairs);
            drop(pairs);
            let renamed = renamed?;
            let told = tell_renamed(alloc, &renamed);
            drop(renamed);
            Ok(told?)
        }
        Err(fault) => {
            drop(rows);
            Err(fault)
        }
    }
}

fn tell_renamed(alloc: Global, rows: &JobRows) -> Result<Vec<u8>, AllocError> {
    let mut text = Vec::new(alloc);
    text.extend_from_slice(b"renamed\n")?;
    tell_rows(alloc, &mut text, rows.as_slice())?;
    Ok(text)
}
