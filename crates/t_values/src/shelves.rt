//! A shelf of a small log.

ghost use Rattle.std.specs.Prelude.{[], IfOk, ◌≢◌};

use conflict_shelf::{ShelfError, shelf_of};
use mod_log::Log;
use std::alloc::{AllocError, Global};
use std::test::Fail;
use vol_tree::{Content, Effect, Effects, Path, Tree};

fn path(alloc: Global, text: &[u8]) -> Result<Path, AllocError> {
    match Path::read(alloc, text) {
        Ok(path) => Ok(path),
        Err(refusal) => {
            drop(refusal);
            Err(AllocError)
        }
    }
}

/// An effect that puts one byte at `a`.
fn one_put(alloc: Global) -> Result<Effects, AllocError>
    ensures { IfOk result (λ effects. effects ≢ []) }
{
    let place = path(alloc, b"a")?;
    let content = Content::of(alloc, b"x")?;
    let mut effects = Effects::new(alloc);
    effects.push(Effect::Put(place, content))?;
    Ok(effects)
}

/// A log whose only pending entry, of number 10, puts one byte at `a`.
fn small_log(alloc: Global) -> Result<Log, AllocError> {
    let mut log = Log::new(9, Tree::new(alloc));
    let effects = one_put(alloc)?;
    match log.append(None, effects) {
        Ok(_) => Ok(log),
        Err(refusal) => {
            drop(refusal);
            Err(AllocError)
        }
    }
}

/// How many entries a shelf of the log has, and how many contents.
fn counts(log: &Log, folder: &Path) -> Result<(usize, usize), ShelfError> {
    let shelf = shelf_of(log, folder)?;
    let counts = (shelf.entries.len(), shelf.names.len());
    drop(shelf);
    Ok(counts)
}

#[test]
fn what_was_put_is_set_aside(rt: HostRuntime) -> Result<(), Fail> {
    let alloc = rt.alloc();
    let log = small_log(alloc)?;
    let folder = path(alloc, b"s")?;
    assert!(rt; matches!(counts(&log, &folder), Ok((2, 1))));
    Ok(())
}
