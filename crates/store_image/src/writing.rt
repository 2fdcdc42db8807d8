//! Spelling images.

ghost use Rattle.std.specs.Prelude.{◌≡◌, ◌<◌, ◌≤◌, ◌^◌, ◌++◌, length, slice_get, IfOk, OnOk};
ghost use Rattle.std.specs.List.{flat_map, AllByRecursion};
ghost use Rattle.std.specs.Option.{option_to_list};
ghost use Rattle.tree_values.specs.Spelling.{rows};
ghost use Rattle.mod_log.specs.Log.{entry};
ghost use Rattle.store_image.specs.Spelling.{entries, log, numbers, client as client_image, server as server_image};
ghost use Rattle.store_image.specs.Image.{IsKeptFor, IsKeptForServer, IsKeptWholeFor, IsKeptWholeForServer};
ghost use Rattle.store_image.specs.declared.image.TheConstants.{MAX_CLIENT_IMAGE, MAX_SERVER_IMAGE};

use crate::appending::room_for;
use crate::image::IMAGE_VERSION;
use byte_fields::{put_u32, put_u64};
use mod_log::{Entry, Log};
use std::alloc::{AllocError, Global};
use vol_tree::Tree;

/// The pending entries, behind their number.
fn put_entries(value: &Log, out: &mut Vec<u8>) -> Result<(), AllocError>
    ensures { OnOk result (out.new.items ≡ out.old.items ++ entries value.now.pending) }
{
    let count = value.pending();
    put_u32(out, count)?;
    for i in 0..count {
        put_entry(value, i, out)?;
    }
    Ok(())
}

/// The pending entry of this index, where there is one.
fn put_entry(value: &Log, i: u32, out: &mut Vec<u8>) -> Result<(), AllocError>
    ensures { OnOk result (out.new.items ≡ out.old.items ++ flat_map entry (option_to_list (slice_get value.now.pending i))) }
{
    if let Some(entry) = value.entry(i) {
        out.reserve(room_for(entry))?;
        Entry::spell(entry, out)?;
    }
    Ok(())
}

/// The rows of the base.
fn put_base(value: &Log, out: &mut Vec<u8>) -> Result<(), AllocError>
    ensures { OnOk result (out.new.items ≡ out.old.items ++ rows value.now.base) }
{
    let base = value.base()?;
    let put = base.spell_rows(out);
    drop(base);
    put
}

/// The acknowledged number, the base and the pending entries.
fn put_log(value: &Log, out: &mut Vec<u8>) -> Result<(), AllocError>
    ensures { OnOk result (out.new.items ≡ out.old.items ++ log value.now) }
{
    put_u64(out, value.acked())?;
    put_base(value, out)?;
    put_entries(value, out)
}

/// The image of the client with this number and this log.
pub fn write_client(client: u8, log: &Log) -> Result<Vec<u8>, AllocError>
    requires low { 1 ≤ client }
    requires high { client ≤ 64 }
    ensures kept { IfOk result (λ v. IsKeptFor client log.now v.items) }
    ensures whole { IfOk result (λ v. IsKeptWholeFor client log.now v.items) }
    ensures spelled { IfOk result (λ v. v.items ≡ client_image (record { client = client; log = log.now })) }
    ensures small { IfOk result (λ v. length v.items ≤ MAX_CLIENT_IMAGE) }
{
    let alloc = log.tree().allocator();
    let mut out = Vec::from_slice(alloc, b"OSCI")?;
    out.push(IMAGE_VERSION)?;
    out.push(client)?;
    put_log(log, &mut out)?;
    Ok(out)
}

/// The numbers, eight bytes each.
fn put_numbers(values: &[u64], out: &mut Vec<u8>) -> Result<(), AllocError>
    ensures numbers { OnOk result (out.new.items ≡ out.old.items ++ numbers values.now) }
    ensures fit { OnOk result (AllByRecursion (λ n. n < 2 ^ 64) values.now) }
{
    for number in values {
        put_u64(out, *number)?;
    }
    Ok(())
}

/// The image of a server with these last numbers and this tree.
pub fn write_server(last: &[u64; 64], tree: &Tree) -> Result<Vec<u8>, AllocError>
    ensures kept { IfOk result (λ v. IsKeptForServer (record { last = last.now; tree = tree.now }) v.items) }
    ensures whole { IfOk result (λ v. IsKeptWholeForServer (record { last = last.now; tree = tree.now }) v.items) }
    ensures spelled { IfOk result (λ v. v.items ≡ server_image (record { last = last.now; tree = tree.now })) }
    ensures small { IfOk result (λ v. length v.items ≤ MAX_SERVER_IMAGE) }
{
    let mut out = Vec::from_slice(tree.allocator(), b"OSSI")?;
    out.push(IMAGE_VERSION)?;
    put_numbers(last.as_slice(), &mut out)?;
    tree.spell_rows(&mut out)?;
    Ok(out)
}
