//! Keeping a client over a keeper in memory: what the next keeping leaves behind an append that was refused.

ghost use Rattle.std.specs.Prelude.{◌≡◌, ℕ, List, Option, None};
ghost use Rattle.outside.specs.Keeper.{Images};
ghost use Rattle.client_core.specs.Keeping.{IsReady};

use client_core::Client;
use outside::{KeepFail, Keeper, MemKeeper};
use std::alloc::Global;
use std::rt::HostRuntime;
use std::test::Fail;
use store_image::{read_client, write_client};
use vol_tree::{Content, Effect, Path};

/// The bytes of the record of an entry that puts one byte at a path of one.
const RECORD: u32 = 34;

/// Logs the effect that puts a file. Where the client may go on under a name, it still may.
fn put(alloc: Global, client: &mut Client, path: &[u8]) -> Result<(), Fail>
    ensures { (images : Option Images) (name : List ℕ) → IsReady images name client.old → IsReady images name client.new }
{
    let path = Path::read(alloc, path)?;
    let text = Content::of(alloc, b"x")?;
    match client.local(Effect::Put(path, text)) {
        Ok(_seq) => Ok(()),
        Err(refused) => {
            drop(refused);
            Err(Fail::from("refused"))
        }
    }
}

/// Keeps a client, and again behind each of two puts: which of these keepings were answered.
fn keep_thrice<K: Keeper>(
    alloc: Global,
    client: &mut Client,
    name: &[u8],
    keeper: &mut K,
) -> Result<[bool; 3], Fail>
    requires { IsReady (K.images keeper.old) name.now client.old }
{
    let first = client.keep(name, keeper).is_ok();
    put(alloc, client, b"a")?;
    let second = client.keep(name, keeper).is_ok();
    put(alloc, client, b"b")?;
    let third = client.keep(name, keeper).is_ok();
    Ok([first, second, third])
}

/// What is read of the bytes: the client, how many entries are pending, and how many rows the tree has.
fn read_of(alloc: Global, bytes: &[u8]) -> Result<[u64; 3], Fail> {
    let image = read_client(alloc, bytes)?;
    let client = u64::from(image.client);
    let pending = u64::from(image.log.pending());
    let rows = u64::from(image.log.tree().count());
    drop(image);
    Ok([client, pending, rows])
}

/// Whether the bytes are just the image of client 7 with this client's log, and what is read of them.
fn told_of(alloc: Global, client: &Client, bytes: &[u8]) -> Result<(bool, [u64; 3]), Fail> {
    let image = write_client(7, client.log())?;
    let saved = image.as_slice() == bytes;
    drop(image);
    Ok((saved, read_of(alloc, bytes)?))
}

/// What three keepings of a new client come to, and what is told of what they leave.
fn kept_by(
    alloc: Global,
    client: &mut Client,
    keeper: &mut MemKeeper,
) -> Result<([bool; 3], (bool, [u64; 3])), Fail>
    requires { client.old.journal ≡ None }
{
    let kept = keep_thrice(alloc, client, b"image", keeper)?;
    match keeper.image(b"image") {
        Some(bytes) => Ok((kept, told_of(alloc, client, bytes)?)),
        None => Err(Fail::from("no image")),
    }
}

fn kept_in(alloc: Global, keeper: &mut MemKeeper) -> Result<([bool; 3], (bool, [u64; 3])), Fail> {
    let mut client = Client::new(alloc, 7);
    let kept = kept_by(alloc, &mut client, keeper);
    drop(client);
    kept
}

/// The same where the second keeping appends so many bytes of its record, and is refused.
fn kept_around(alloc: Global, part: u32) -> Result<([bool; 3], (bool, [u64; 3])), Fail> {
    let fail = KeepFail {
        call: 1,
        leaves_new: false,
        part,
    };
    let mut fails = Vec::new(alloc);
    fails.push(fail)?;
    let mut keeper = MemKeeper::new(alloc, fails);
    let kept = kept_in(alloc, &mut keeper);
    drop(keeper);
    kept
}

#[test]
fn a_put_after_a_refused_append_is_saved(rt: HostRuntime) -> Result<(), Fail> {
    let alloc = rt.alloc();
    for part in 0..=RECORD {
        let wanted = ([true, false, true], (true, [7, 2, 2]));
        assert!(rt; kept_around(alloc, part)? == wanted, "{part}");
    }
    Ok(())
}
