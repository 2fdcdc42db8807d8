// What a new client does for a stuck log: it pulls, logs the entries of the shelf, and is kept.
ghost use Rattle.std.specs.Prelude.{◌≡◌, ◌≢◌, ◌≤◌, ℕ, List, [], Option, Ok, Err, IfOk, IfErr, OnOk};
ghost use Rattle.std.specs.List.{AllByRecursion};
ghost use Rattle.outside.specs.Outside.{Told, CountsFault};
ghost use Rattle.outside.specs.Keeper.{Images};
ghost use Rattle.tree_values.specs.Spelling.{EffectsFit};
ghost use Rattle.client_core.specs.Keeping.{IsKept, IsReady, IsKeptReady};
ghost use Rattle.conflict_shelf.specs.Shelf.{names_in};
ghost use Rattle.client_shelf.specs.Shelving.{said, new_route, IsUnused, appended_all};
ghost use Rattle.client_shelf.specs.Ending.{ChangesOnly, standing_of};
ghost use Rattle.client_shelf.specs.Inside.{PullsTo, LogsTo, GoesTo, KeepsAll, pulled_to};

use crate::asked::Shelving;
use crate::ends::{Ending, ShelvingStop};
use client_core::{Client, PullEnd, Route};
use conflict_shelf::{EffectLists, Shelf};
use mod_log::{Log, LogError};
use outside::Keeper;
use std::alloc::{AllocError, Global};
use vol_tree::{Content, TryCopy};
use world_rules::Link;

/// Pulls the server's rows as a client that has logged nothing, logs the entries of the shelf behind them, all before they are kept, and
/// keeps them. The shelf is that of the stuck log.
pub(crate) fn set_aside<K: Keeper, L: Link>(
    alloc: Global,
    asked: &Shelving<'_>,
    stuck: &Log,
    shelf: Shelf,
    mut client: Client,
    keeper: &mut K,
    link: &mut L,
) -> Result<Ending, ShelvingStop>
    requires number { client.number ≡ asked.now.new_client }
    requires unused { IsUnused client.log }
    requires kept { IsKeptReady (K.images keeper.old) asked.now.new_image.now client }
    requires fit { AllByRecursion EffectsFit shelf.entries }
    requires names { shelf.names ≡ names_in stuck.now.pending }
    ensures did { GoesTo (said asked.now) stuck.now client.log shelf.entries result
        (standing_of K.Keeper L.Link keeper.old link.old) (standing_of K.Keeper L.Link keeper.new link.new) }
    ensures others { Told (K.images keeper.old) (K.images keeper.new) (ChangesOnly asked.now.new_image.now) }
    ensures later { (L.tells link.old).troubles ≤ (L.tells link.new).troubles }
    ensures keeper { CountsFault ShelvingStop.Keeper (K.faults keeper.old) (K.faults keeper.new) result }
{
    let ended = log_shelf(alloc, asked, &shelf.entries, &mut client, keeper, link);
    drop(client);
    let Shelf { entries, names } = shelf;
    drop(entries);
    match ended {
        Ok(None) => Ok(Ending::Shelved {
            entries: stuck.pending(),
            names,
        }),
        Ok(Some(ending)) => {
            drop(names);
            Ok(ending)
        }
        Err(stop) => {
            drop(names);
            Err(stop)
        }
    }
}

/// Pulls, logs these entries, and keeps them; the end that this comes to before, where it does.
fn log_shelf<K: Keeper, L: Link>(
    alloc: Global,
    asked: &Shelving<'_>,
    lists: &EffectLists,
    client: &mut Client,
    keeper: &mut K,
    link: &mut L,
) -> Result<Option<Ending>, ShelvingStop>
    requires number { client.old.number ≡ asked.now.new_client }
    requires unused { IsUnused client.old.log }
    requires kept { IsKeptReady (K.images keeper.old) asked.now.new_image.now client.old }
    requires fit { AllByRecursion EffectsFit lists.now }
    ensures did { LogsTo (said asked.now) client.old.log lists.now result
        (standing_of K.Keeper L.Link keeper.old link.old) (standing_of K.Keeper L.Link keeper.new link.new) }
    ensures others { Told (K.images keeper.old) (K.images keeper.new) (ChangesOnly asked.now.new_image.now) }
    ensures later { (L.tells link.old).troubles ≤ (L.tells link.new).troubles }
    ensures keeper { CountsFault ShelvingStop.Keeper (K.faults keeper.old) (K.faults keeper.new) result }
{
    match pull_rows(alloc, asked, client, keeper, link) {
        Ok(None) => keep_all(asked.new_image, lists, client, keeper),
        Ok(Some(ending)) => Ok(Some(ending)),
        Err(stop) => Err(stop),
    }
}

/// Pulls the server's rows; the end that the pull comes to where it takes none.
fn pull_rows<K: Keeper, L: Link>(
    alloc: Global,
    asked: &Shelving<'_>,
    client: &mut Client,
    keeper: &mut K,
    link: &mut L,
) -> Result<Option<Ending>, ShelvingStop>
    requires number { client.old.number ≡ asked.now.new_client }
    requires unused { IsUnused client.old.log }
    requires kept { IsKeptReady (K.images keeper.old) asked.now.new_image.now client.old }
    ensures did { PullsTo (said asked.now) client.old.log client.new.log result
        (standing_of K.Keeper L.Link keeper.old link.old) (standing_of K.Keeper L.Link keeper.new link.new) }
    ensures ready { IfOk result (λ ended. IsReady (K.images keeper.new) asked.now.new_image.now client.new) }
    ensures number { client.new.number ≡ client.old.number }
    ensures others { Told (K.images keeper.old) (K.images keeper.new) (ChangesOnly asked.now.new_image.now) }
    ensures later { (L.tells link.old).troubles ≤ (L.tells link.new).troubles }
    ensures keeper { CountsFault ShelvingStop.Keeper (K.faults keeper.old) (K.faults keeper.new) result }
{
    match route_of(alloc, asked) {
        Ok(route) => {
            let end = client.pull(&route, link, keeper);
            drop(route);
            ended(end)
        }
        Err(_refused) => Err(ShelvingStop::Memory),
    }
}

/// The new client's image, and the server; it has no surrogate, and runs no commands.
fn route_of(alloc: Global, asked: &Shelving<'_>) -> Result<Route, AllocError>
    ensures { IfOk result (λ route. route ≡ new_route (said asked.now)) }
{
    Ok(Route {
        image: Content::of(alloc, asked.new_image)?,
        server: Content::of(alloc, asked.server)?,
        surrogate: None,
        work: Content::of(alloc, b"")?,
    })
}

/// The end that a pull comes to which takes no rows. Nothing is pending before it.
fn ended(end: PullEnd) -> Result<Option<Ending>, ShelvingStop>
    requires { (count : ℕ) → end ≢ PullEnd.Pending count }
    ensures { result ≡ pulled_to end }
{
    match end {
        PullEnd::Pulled(_) => Ok(None),
        PullEnd::OtherLast { last, .. } => Ok(Some(Ending::OtherLast(last))),
        PullEnd::Older { path, theirs, ours } => Ok(Some(Ending::Older { path, theirs, ours })),
        PullEnd::Unanswered => Ok(Some(Ending::Unanswered)),
        PullEnd::KeepFault => Err(ShelvingStop::Keeper),
        PullEnd::Memory => Err(ShelvingStop::Memory),
        PullEnd::Pending(_) => unreachable!(),
    }
}

/// Logs these entries, and keeps the client once all are logged; the end that this comes to where the log refuses one.
fn keep_all<K: Keeper>(
    name: &[u8],
    lists: &EffectLists,
    client: &mut Client,
    keeper: &mut K,
) -> Result<Option<Ending>, ShelvingStop>
    requires idle { client.old.log.pending ≡ [] }
    requires kept { IsKeptReady (K.images keeper.old) name.now client.old }
    requires fit { AllByRecursion EffectsFit lists.now }
    ensures did { KeepsAll client.old.number name.now lists.now client.old.log result (K.images keeper.old) (K.images keeper.new) }
    ensures others { Told (K.images keeper.old) (K.images keeper.new) (ChangesOnly name.now) }
    ensures keeper { CountsFault ShelvingStop.Keeper (K.faults keeper.old) (K.faults keeper.new) result }
{
    match log_all(lists, client) {
        Ok(()) => match client.keep(name, keeper) {
            Ok(()) => Ok(None),
            Err(refused) => Err(ShelvingStop::from(refused)),
        },
        Err(LogError::Memory) => Err(ShelvingStop::Memory),
        Err(refusal) => Ok(Some(Ending::Unlogged(refusal))),
    }
}

/// Logs these entries, one after the other, up to the first that is refused.
fn log_all(lists: &EffectLists, client: &mut Client) -> Result<(), LogError>
    requires fit { AllByRecursion EffectsFit lists.now }
    ensures ok { OnOk result (appended_all lists.now client.old.log ≡ Ok client.new.log) }
    ensures err { IfErr result (λ e. e ≢ LogError.Memory → appended_all lists.now client.old.log ≡ Err e) }
    ensures number { client.new.number ≡ client.old.number }
    ensures journal { client.new.journal ≡ client.old.journal }
    ensures ready { (images : Option Images) (name : List ℕ) → IsReady images name client.old → IsReady images name client.new }
{
    for effects in lists.as_slice() {
        if let Err(refusal) = client.local_all(effects.copy()?) {
            return Err(refusal);
        }
    }
    Ok(())
}
