// Fronts that parts come for.
ghost use Rattle.std.specs.Prelude.{◌≡◌, ◌↔◌, ◌≤◌, ◌<◌, ◌+◌, [], length, remove, filter, take, nat_le, slice_get, Some, if◌then◌else◌, IsTrue, IfOk, OnOk, OnErr};
ghost use Rattle.frame_parts.specs.Limits.{most_keyed, most_unkeyed};
ghost use Rattle.frame_parts.specs.Spelling.{Fits};
ghost use Rattle.frame_parts.specs.Fronts.{fronts_in, most_in, front_of, without, is_of, bytes_of, there, IsNamed, IsFront, HasRoom, FitBehind, TakesIn, Settles, Puts};

use crate::front::{Front, Fronts, Put};
use crate::part::Part;
use sha2::{Digest, Sha256};
use std::alloc::{AllocError, Global};

/// The most fronts that are kept where there are no keys.
pub const MOST_UNKEYED: usize = 8;

/// The most where there are: one for each client that may have a key.
pub const MOST_KEYED: usize = 64;

/// The most bytes of all fronts together: two of the longest frames.
pub const MOST_BYTES: usize = 134_217_728;

impl Fronts {
    /// No front. With keys there may be more of them than without.
    pub fn new(alloc: Global, keyed: bool) -> Fronts
        ensures empty { fronts_in result ≡ [] }
        ensures most { most_in result ≡ (if keyed then most_keyed else most_unkeyed) }
        ensures room { HasRoom (most_in result) (fronts_in result) }
    {
        Fronts {
            alloc,
            most: if keyed { MOST_KEYED } else { MOST_UNKEYED },
            fronts: Vec::new(alloc),
        }
    }

    /// Puts the piece of a part behind what is there of its frame. A part that does not begin there changes nothing. A frame that is whole
    /// is handed on where it has the print that is named and the client of its parts; what was there before its last piece stays, so that
    /// this may come once more. At `now` the caller's clock stands.
    ///
    /// # Errors
    ///
    /// Want of memory: what was there of the client's frame is gone.
    pub fn put(&mut self, part: &Part, piece: &[u8], now: u64) -> Result<Put, AllocError>
        requires { Fits part.now piece.now }
        ensures put { IfOk result (λ put. Puts (most_in self.old) part.now piece.now now (fronts_in self.old) put (fronts_in self.new)) }
        ensures most { most_in self.new ≡ most_in self.old }
        ensures err { OnErr result (fronts_in self.new ≡ without part.now.client (fronts_in self.old)) }
    {
        let there = count_there(&self.fronts, part);
        if part.at != there {
            return Ok(Put::Have(there));
        }
        let mut front = take_front(self.alloc, &mut self.fronts, part, now);
        front.bytes.extend_from_slice(piece)?;
        self.settle(part, front, there as usize)
    }

    /// Keeps a front to which a piece was added behind so many bytes, or hands its frame on, or drops it.
    ///
    /// # Errors
    ///
    /// Want of memory: the front is gone.
    fn settle(&mut self, part: &Part, mut front: Front, there: usize) -> Result<Put, AllocError>
        requires front { IsFront part.now front.bytes.items front.seen front }
        requires there { there ≤ length front.bytes.items }
        ensures put { IfOk result (λ put. Settles (most_in self.old) part.now (take there front.bytes.items) front.bytes.items front.seen
            (fronts_in self.old) put (fronts_in self.new)) }
        ensures most { most_in self.new ≡ most_in self.old }
        ensures err { OnErr result (fronts_in self.new ≡ fronts_in self.old) }
    {
        let have = front.bytes.len() as u32;
        if have < part.size {
            self.take_in(front)?;
            return Ok(Put::Have(have));
        }
        if !is_named(part, &front.bytes) {
            drop(front);
            return Ok(Put::Have(0));
        }
        let whole = Vec::from_slice(self.alloc, &front.bytes)?;
        front.bytes.truncate(there);
        self.take_in(front)?;
        Ok(Put::Whole(whole))
    }

    /// Puts a front first, and lets go of the others, the last first, those for which there is no room.
    ///
    /// # Errors
    ///
    /// Want of memory: all is as it was but for the front.
    fn take_in(&mut self, front: Front) -> Result<(), AllocError>
        ensures ok { OnOk result (TakesIn (most_in self.old) front (fronts_in self.old) (fronts_in self.new)) }
        ensures most { most_in self.new ≡ most_in self.old }
        ensures err { OnErr result (fronts_in self.new ≡ fronts_in self.old) }
    {
        let kept = count_that_fit(&self.fronts, self.most, front.bytes.len());
        self.fronts.insert(0, front)?;
        self.fronts.truncate(kept + 1);
        Ok(())
    }

    /// Lets go each front for which no part came since the caller's clock stood so.
    pub fn drop_older(&mut self, since: u64)
        ensures kept { fronts_in self.new ≡ filter (λ front. nat_le since front.seen) (fronts_in self.old) }
        ensures most { most_in self.new ≡ most_in self.old }
    {
        self.fronts.retain(|front| front.seen >= since);
    }
}

/// The place of the client's front; how many there are where it has none.
fn place_of(fronts: &[Front], client: u8) -> usize
    ensures within { result ≤ length fronts.now }
    ensures front { front_of client fronts.now ≡ slice_get fronts.now result }
    ensures others { without client fronts.now ≡ remove fronts.now result }
{
    for i in 0..fronts.len() {
        if fronts[i].client == client {
            return i;
        }
    }
    fronts.len()
}

/// Whether a front is of the frame that the part is of.
fn is_of(part: &Part, front: &Front) -> bool
    ensures { result ≡ is_of part.now front.now }
{
    front.client == part.client && front.print == part.print && front.size == part.size
}

/// How many bytes are there of the frame that the part is of.
fn count_there(fronts: &[Front], part: &Part) -> u32
    ensures { result ≡ length (there part.now fronts.now) }
{
    match fronts.get(place_of(fronts, part.client)) {
        Some(front) => count_of(part, front),
        None => 0,
    }
}

/// How many bytes the front has, where it is of the frame that the part is of.
fn count_of(part: &Part, front: &Front) -> u32
    ensures { result ≡ length (bytes_of part.now (Some front.now)) }
{
    if is_of(part, front) {
        front.bytes.len() as u32
    } else {
        0
    }
}

/// Takes the client's front out of the fronts; a new one, where it is not of the frame that the part is of.
fn take_front(alloc: Global, fronts: &mut Vec<Front>, part: &Part, now: u64) -> Front
    requires { part.now.size ≤ 67108864 }
    ensures front { IsFront part.now (there part.now fronts.old.items) now result }
    ensures others { fronts.new.items ≡ without part.now.client fronts.old.items }
{
    let place = place_of(fronts, part.client);
    if place >= fronts.len() {
        return no_bytes(alloc, part, now);
    }
    let mut front = fronts.remove(place);
    if is_of(part, &front) {
        front.seen = now;
        return front;
    }
    drop(front);
    no_bytes(alloc, part, now)
}

/// A front of no bytes of the frame that the part is of.
fn no_bytes(alloc: Global, part: &Part, now: u64) -> Front
    requires { part.now.size ≤ 67108864 }
    ensures { IsFront part.now [] now result }
{
    Front {
        client: part.client,
        print: part.print,
        size: part.size,
        bytes: Vec::new(alloc),
        seen: now,
    }
}

/// Whether the bytes are the frame that the part names.
fn is_named(part: &Part, bytes: &[u8]) -> bool
    ensures { IsTrue result ↔ IsNamed part.now bytes.now }
{
    match bytes.get(6) {
        Some(client) => *client == part.client && Sha256::digest(bytes) == part.print,
        None => false,
    }
}

/// How many of the fronts, from the first on, there is room for behind one of so many bytes.
fn count_that_fit(fronts: &[Front], most: usize, first: usize) -> usize
    requires some { 0 < most }
    requires short { first ≤ 67108864 }
    ensures { FitBehind most first fronts.now result }
{
    let mut bytes = first;
    for i in 0..fronts.len() {
        let count = fronts[i].bytes.len();
        if i + 1 >= most || bytes + count > MOST_BYTES {
            return i;
        }
        bytes += count;
    }
    fronts.len()
}
