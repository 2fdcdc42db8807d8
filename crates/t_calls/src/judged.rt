// Effects and rows as text.

use cmd_capture::JobRow;
use std::alloc::{AllocError, Global};
use vol_tree::{Content, Effect, Node, Path};

/// The path between two texts.
pub(crate) fn tell_path(
    text: &mut Vec<u8>,
    before: &str,
    path: &Path,
    behind: &str,
) -> Result<(), AllocError> {
    let spelled = path.text()?;
    let told = tell_between(text, before, &spelled, behind);
    drop(spelled);
    told
}

fn tell_between(
    text: &mut Vec<u8>,
    before: &str,
    spelled: &Content,
    behind: &str,
) -> Result<(), AllocError> {
    text.extend_from_slice(before.as_bytes())?;
    text.extend_from_slice(spelled.bytes())?;
    text.extend_from_slice(behind.as_bytes())
}

/// The path, how many bytes the content has, and these behind a line end.
fn tell_file(
    alloc: Global,
    text: &mut Vec<u8>,
    word: &str,
    path: &Path,
    content: &Content,
) -> Result<(), AllocError> {
    tell_path(text, word, path, " ")?;
    let bytes = content.bytes();
    let size = bytes.len().to_string(alloc)?;
    let told = text.extend_from_slice(size.as_bytes());
    drop(size);
    told?;
    text.push(b'\n')?;
    text.extend_from_slice(bytes)
}

fn tell_effect(alloc: Global, text: &mut Vec<u8>, effect: &Effect) -> Result<(), AllocError> {
    match effect {
        Effect::Make(path) => tell_path(text, "make ", path, "\n"),
        Effect::Put(path, content) => tell_file(alloc, text, "put ", path, content),
        Effect::Remove(path) => tell_path(text, "remove ", path, "\n"),
        Effect::Move(from, to) => {
            tell_path(text, "move ", from, " ")?;
            tell_path(text, "", to, "\n")
        }
        Effect::Mode(path, exec) => {
            tell_path(text, "mode ", path, if *exec { " 1\n" } else { " 0\n" })
        }
    }
}

/// Each effect.
pub(crate) fn tell_effects(
    alloc: Global,
    text: &mut Vec<u8>,
    effects: &[Effect],
) -> Result<(), AllocError> {
    for effect in effects {
        tell_effect(alloc, text, effect)?;
    }
    Ok(())
}

/// Each row.
pub(crate) fn tell_rows(
    alloc: Global,
    text: &mut Vec<u8>,
    rows: &[JobRow],
) -> Result<(), AllocError> {
    for row in rows {
        match &row.node {
            Node::Folder => tell_path(text, "folder ", &row.path, "\n")?,
            Node::File { content, exec } => {
                tell_file(alloc, text, word_of_file(*exec), &row.path, content)?;
            }
        }
    }
    Ok(())
}

/// The word of a file that may be run, or not.
fn word_of_file(exec: bool) -> &'static str {
    if exec { "program " } else { "file " }
}
