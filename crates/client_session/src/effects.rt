// The effects that lines name, their path words resolved in the current folder in the order of the line.
ghost use Rattle.client_session.specs.Session.{put_effect, make_effect, remove_effect, move_effect};
ghost use Rattle.client_session.specs.Inside.{GivesEffect};

use shell_lang::put_content;
use std::alloc::Global;
use vol_tree::{Content, Effect, Path, PathError};

/// A text and a line end are put.
pub(crate) fn put_effect(
    alloc: Global,
    folder: &Path,
    word: &Content,
    text: &Content,
) -> Result<Effect, PathError>
    ensures { GivesEffect result (put_effect folder.now word.now text.now) }
{
    let path = Path::resolve(alloc, folder, word.bytes())?;
    Ok(Effect::Put(path, put_content(alloc, text)?))
}

/// A folder is made.
pub(crate) fn make_effect(alloc: Global, folder: &Path, word: &Content) -> Result<Effect, PathError>
    ensures { GivesEffect result (make_effect folder.now word.now) }
{
    Ok(Effect::Make(Path::resolve(alloc, folder, word.bytes())?))
}

/// What stands there is removed.
pub(crate) fn remove_effect(
    alloc: Global,
    folder: &Path,
    word: &Content,
) -> Result<Effect, PathError>
    ensures { GivesEffect result (remove_effect folder.now word.now) }
{
    Ok(Effect::Remove(Path::resolve(alloc, folder, word.bytes())?))
}

/// A file is moved.
pub(crate) fn move_effect(
    alloc: Global,
    folder: &Path,
    from: &Content,
    to: &Content,
) -> Result<Effect, PathError>
    ensures { GivesEffect result (move_effect folder.now from.now to.now) }
{
    let from = Path::resolve(alloc, folder, from.bytes())?;
    let to = Path::resolve(alloc, folder, to.bytes())?;
    Ok(Effect::Move(from, to))
}
