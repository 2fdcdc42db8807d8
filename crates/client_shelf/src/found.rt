// What a shelving finds under its two names, and what it is to log.
ghost use Rattle.std.specs.Prelude.{◌≡◌, ◌≢◌, ◌≤◌, ◌↔◌, Err, IfOk, IfErr, IsTrue};
ghost use Rattle.outside.specs.Outside.{CountsFault};
ghost use Rattle.wire_frames.specs.Limits.{max_client};
ghost use Rattle.client_shelf.specs.Shelving.{IsUnused};
ghost use Rattle.file_paths.specs.Path.{IsPath};
ghost use Rattle.client_shelf.specs.Inside.{IsBreak, Finds, FindsNone, FindsUnused, PlansInSo, PlansSo};

use crate::ends::{Ending, ShelvingStop};
use client_core::Client;
use client_lines::opened;
use conflict_shelf::{Shelf, ShelfError, shelf_of};
use mod_log::Log;
use outside::Keeper;
use std::alloc::{AllocError, Global};
use vol_tree::{Path, PathError};

/// The client of this number that is kept under a name; `None` where nothing is.
pub(crate) fn find<K: Keeper>(
    alloc: Global,
    number: u8,
    name: &[u8],
    keeper: &mut K,
) -> Result<Option<Client>, ShelvingStop>
    requires low { 1 ≤ number }
    requires high { number ≤ max_client }
    ensures ok { IfOk result (Finds (K.images keeper.old) name.now number) }
    ensures err { IfErr result (FindsNone (K.images keeper.old) name.now number) }
    ensures same { K.images keeper.new ≡ K.images keeper.old }
    ensures cause { CountsFault ShelvingStop.Keeper (K.faults keeper.old) (K.faults keeper.new) result }
{
    match keeper.load(name) {
        Ok(Some(bytes)) => Ok(Some(opened(alloc, number, &bytes)?)),
        Ok(None) => Ok(None),
        Err(refused) => Err(ShelvingStop::from(refused)),
    }
}

/// The client of this number, which has logged nothing, that is kept under a name, or a new one where nothing is; `None` where anything
/// else is kept.
pub(crate) fn find_unused<K: Keeper>(
    alloc: Global,
    number: u8,
    name: &[u8],
    keeper: &mut K,
) -> Result<Option<Client>, ShelvingStop>
    requires low { 1 ≤ number }
    requires high { number ≤ max_client }
    ensures ok { IfOk result (FindsUnused (K.images keeper.old) name.now number) }
    ensures err { IfErr result IsBreak }
    ensures same { K.images keeper.new ≡ K.images keeper.old }
    ensures cause { CountsFault ShelvingStop.Keeper (K.faults keeper.old) (K.faults keeper.new) result }
{
    match find(alloc, number, name, keeper) {
        Ok(None) => Ok(Some(Client::new(alloc, number))),
        Ok(Some(client)) => {
            if is_unused(client.log()) {
                return Ok(Some(client));
            }
            drop(client);
            Ok(None)
        }
        Err(ShelvingStop::Image) => Ok(None),
        Err(stop) => Err(stop),
    }
}

/// Whether nothing was ever logged.
fn is_unused(log: &Log) -> bool
    ensures { IsTrue result ↔ IsUnused log.now }
{
    log.acked() == 0 && log.pending() == 0
}

/// The shelf of a log in the folder with this text, or why there is none. Want of memory is the only error.
pub(crate) fn plan(
    alloc: Global,
    folder: &[u8],
    log: &Log,
) -> Result<Result<Shelf, Ending>, AllocError>
    ensures { IfOk result (PlansSo folder.now log.now.pending) }
{
    match Path::read(alloc, folder) {
        Ok(folder) => {
            let planned = plan_in(&folder, log);
            drop(folder);
            planned
        }
        Err(PathError::Memory) => Err(AllocError),
        Err(fault) => Ok(Err(Ending::BadFolder(fault))),
    }
}

/// The shelf of a log in a folder, or why there is none.
fn plan_in(folder: &Path, log: &Log) -> Result<Result<Shelf, Ending>, AllocError>
    requires { IsPath folder.now }
    ensures { IfOk result (PlansInSo folder.now log.now.pending) }
{
    if log.pending() == 0 {
        return Ok(Err(Ending::NothingPending));
    }
    match shelf_of(log, folder) {
        Ok(shelf) => Ok(Ok(shelf)),
        Err(ShelfError::Path(fault)) => Ok(Err(Ending::BadPlace(fault))),
        Err(ShelfError::Memory) => Err(AllocError),
    }
}
