// A whole shelving.
ghost use Rattle.std.specs.Prelude.{◌≡◌, ◌≤◌, ◌⊎◌, ℕ, None, length, take, IfErr, OnOk, OnErr};
ghost use Rattle.outside.specs.Outside.{Told, Adds, CountsFault, RisesWhere};
ghost use Rattle.program_words.specs.Status.{code};
ghost use Rattle.wire_frames.specs.Limits.{max_client};
ghost use Rattle.client_core.specs.Keeping.{IsKept};
ghost use Rattle.client_shelf.specs.Shelving.{said, IsShelving, IsStored, IsUnused};
ghost use Rattle.client_shelf.specs.Texts.{ending_text};
ghost use Rattle.client_shelf.specs.Ending.{ChangesOnly, WritesEnding, standing_of, moment_of, ShelveEnds};
ghost use Rattle.client_shelf.specs.Inside.{EndsSo};

use crate::asked::Shelving;
use crate::ends::{Ending, ShelvingStop, status_of_stop};
use crate::found::{find, find_unused, plan};
use crate::logging::set_aside;
use crate::texts::text_of_ending;
use client_core::Client;
use mod_log::Log;
use outside::{Keeper, Sink, write_all};
use program_words::Status;
use std::alloc::Global;
use world_rules::Link;

/// Sets the stuck log of a client aside: what its pending entries put is logged as files of a folder by a client that has logged nothing,
/// which pulls the server's rows first. What is kept of the stuck client is not touched. It writes how it ended, and gives the status:
///
/// - 0: it came to an end, which is written;
/// - 4: the sink failed, and all is as if the end had been written;
/// - 5: the keeper failed; nothing is written;
/// - 6: what is kept under the image's name is no client's image, or another client's, and nothing was touched;
/// - 7: memory ran out.
pub fn shelve<O: Sink, K: Keeper, L: Link>(
    alloc: Global,
    shelving: &Shelving<'_>,
    output: &mut O,
    keeper: &mut K,
    link: &mut L,
) -> u8
    requires { IsShelving (said shelving.now) }
    ensures { ShelveEnds (said shelving.now) result (moment_of O.Sink K.Keeper L.Link output.old keeper.old link.old)
        (moment_of O.Sink K.Keeper L.Link output.new keeper.new link.new) }
{
    match ending_of(alloc, shelving, keeper, link) {
        Ok(ending) => tell(alloc, ending, output).code(),
        Err(stop) => status_of_stop(stop).code(),
    }
}

/// Writes how a shelving ended, and gives the status.
fn tell<O: Sink>(alloc: Global, ending: Ending, output: &mut O) -> Status
    ensures text { WritesEnding (code result) (ending_text ending) (O.written output.old) (O.written output.new) }
    ensures sink { RisesWhere (code result ≡ 4) (O.faults output.old) (O.faults output.new) }
{
    match write_ending(alloc, ending, output) {
        Ok(()) => Status::Done,
        Err(stop) => status_of_stop(stop),
    }
}

fn write_ending<O: Sink>(alloc: Global, ending: Ending, output: &mut O) -> Result<(), ShelvingStop>
    ensures all { OnOk result (Adds (O.written output.old) (O.written output.new) (ending_text ending)) }
    ensures front { OnErr result ((count : ℕ) × (count ≤ length (ending_text ending))
        × Adds (O.written output.old) (O.written output.new) (take count (ending_text ending))) }
    ensures stop { IfErr result (λ stop. (stop ≡ ShelvingStop.Sink) ⊎ (stop ≡ ShelvingStop.Memory)) }
    ensures cause { CountsFault ShelvingStop.Sink (O.faults output.old) (O.faults output.new) result }
{
    let text = text_of_ending(alloc, ending)?;
    write_all(output, &text)?;
    Ok(())
}

/// Opens the stuck client, and sets its log aside.
fn ending_of<K: Keeper, L: Link>(
    alloc: Global,
    asked: &Shelving<'_>,
    keeper: &mut K,
    link: &mut L,
) -> Result<Ending, ShelvingStop>
    requires low { 1 ≤ asked.now.client }
    requires high { asked.now.client ≤ max_client }
    requires new_low { 1 ≤ asked.now.new_client }
    requires new_high { asked.now.new_client ≤ max_client }
    ensures did { EndsSo (said asked.now) result
        (standing_of K.Keeper L.Link keeper.old link.old) (standing_of K.Keeper L.Link keeper.new link.new) }
    ensures others { Told (K.images keeper.old) (K.images keeper.new) (ChangesOnly asked.now.new_image.now) }
    ensures later { (L.tells link.old).troubles ≤ (L.tells link.new).troubles }
    ensures keeper { CountsFault ShelvingStop.Keeper (K.faults keeper.old) (K.faults keeper.new) result }
{
    match find(alloc, asked.client, asked.image, keeper) {
        Ok(None) => Ok(Ending::NoImage),
        Ok(Some(stuck)) => {
            let ending = ending_of_log(alloc, asked, stuck.log(), keeper, link);
            drop(stuck);
            ending
        }
        Err(stop) => Err(stop),
    }
}

/// Opens the new client, and sets the stuck log aside.
fn ending_of_log<K: Keeper, L: Link>(
    alloc: Global,
    asked: &Shelving<'_>,
    stuck: &Log,
    keeper: &mut K,
    link: &mut L,
) -> Result<Ending, ShelvingStop>
    requires low { 1 ≤ asked.now.new_client }
    requires high { asked.now.new_client ≤ max_client }
    requires stuck { IsStored (K.images keeper.old) asked.now.image.now asked.now.client stuck.now }
    ensures did { EndsSo (said asked.now) result
        (standing_of K.Keeper L.Link keeper.old link.old) (standing_of K.Keeper L.Link keeper.new link.new) }
    ensures others { Told (K.images keeper.old) (K.images keeper.new) (ChangesOnly asked.now.new_image.now) }
    ensures later { (L.tells link.old).troubles ≤ (L.tells link.new).troubles }
    ensures keeper { CountsFault ShelvingStop.Keeper (K.faults keeper.old) (K.faults keeper.new) result }
{
    match find_unused(alloc, asked.new_client, asked.new_image, keeper) {
        Ok(None) => Ok(Ending::NewImage),
        Ok(Some(client)) => ending_by_plan(alloc, asked, stuck, client, keeper, link),
        Err(stop) => Err(stop),
    }
}

/// Sets the stuck log aside by a client that has logged nothing.
fn ending_by_plan<K: Keeper, L: Link>(
    alloc: Global,
    asked: &Shelving<'_>,
    stuck: &Log,
    client: Client,
    keeper: &mut K,
    link: &mut L,
) -> Result<Ending, ShelvingStop>
    requires stuck { IsStored (K.images keeper.old) asked.now.image.now asked.now.client stuck.now }
    requires number { client.number ≡ asked.now.new_client }
    requires unused { IsUnused client.log }
    requires kept { IsKept (K.images keeper.old) asked.now.new_image.now client.number client.log }
    requires journal { client.journal ≡ None }
    ensures did { EndsSo (said asked.now) result
        (standing_of K.Keeper L.Link keeper.old link.old) (standing_of K.Keeper L.Link keeper.new link.new) }
    ensures others { Told (K.images keeper.old) (K.images keeper.new) (ChangesOnly asked.now.new_image.now) }
    ensures later { (L.tells link.old).troubles ≤ (L.tells link.new).troubles }
    ensures keeper { CountsFault ShelvingStop.Keeper (K.faults keeper.old) (K.faults keeper.new) result }
{
    match plan(alloc, asked.folder, stuck) {
        Ok(Ok(shelf)) => set_aside(alloc, asked, stuck, shelf, client, keeper, link),
        Ok(Err(ending)) => {
            drop(client);
            Ok(ending)
        }
        Err(_refused) => {
            drop(client);
            Err(ShelvingStop::Memory)
        }
    }
}
