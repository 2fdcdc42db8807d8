// Frames as they go to a peer.
ghost use Rattle.std.specs.Prelude.{◌≡◌, ◌↔◌, ◌≤◌, ℕ, List, false, IsTrue, None, Err, IfOk, OnErr};
ghost use Rattle.std.specs.Option.{option_copied};
ghost use Rattle.sealed_frames.specs.declared.sealing.Way.TheVariants.{Back};
ghost use Rattle.sealed_frames.specs.Sealing.{key_of, IsSealable, IsSealedUnder, frame_in};
ghost use Rattle.real_edge.specs.Outgoing.{way_to, bytes_of, GoesSealed, GoesOut, LacksKey, LacksRoom, OpensAs};

use crate::missed::Missed;
use sealed_frames::{Way, drop_seal, is_sealable, key_of, open_answer, put_seal, tag_of};
use std::alloc::Global;
use world_rules::Peer;

/// A frame as it goes to a peer.
#[derive(Drop)]
pub(crate) enum Outgoing<'f> {
    /// As it is.
    Plain(&'f [u8]),
    /// With its seal before it, whose tag this is, by the key of its client.
    Sealed {
        bytes: Vec<u8>,
        key: [u8; 32],
        tag: [u8; 32],
    },
}

impl<'f> Outgoing<'f> {
    /// The frame as it goes to this peer: as it is, or, where there are keys, sealed by that of its client.
    pub(crate) fn of(
        alloc: Global,
        keys: Option<&[Option<[u8; 32]>]>,
        to: Peer,
        frame: &'f [u8],
    ) -> Result<Outgoing<'f>, Missed>
        ensures goes { IfOk result (GoesOut (option_copied keys.entry) to frame.now) }
        ensures no_key { (result ≡ Err Missed.NoKey) ↔ LacksKey (option_copied keys.entry) frame.now }
        ensures oversize { (result ≡ Err Missed.Oversize) ↔ LacksRoom (option_copied keys.entry) frame.now }
    {
        match keys {
            None => Ok(Outgoing::Plain(frame)),
            Some(keys) => sealed(alloc, keys, to, frame),
        }
    }

    /// What goes over the connection.
    pub(crate) fn bytes(&self) -> &[u8]
        ensures { result.now ≡ bytes_of self.now }
    {
        match self {
            Outgoing::Plain(frame) => frame,
            Outgoing::Sealed { bytes, .. } => bytes,
        }
    }

    /// The frame in what came back: these bytes, or, where a sealed frame went, the one that they are sealed from as the answer to it.
    pub(crate) fn opened(&self, came: Vec<u8>) -> Result<Vec<u8>, Missed>
        ensures frame { IfOk result (λ frame. OpensAs self.now came.items frame.items) }
        ensures refused { OnErr result ((frame : List ℕ) → OpensAs self.now came.items frame → ⊥) }
    {
        match self {
            Outgoing::Plain(_) => Ok(came),
            Outgoing::Sealed { key, tag, .. } => unsealed(key, tag, came),
        }
    }
}

/// The frame, sealed by the key of its client on the way to this peer.
fn sealed<'f>(
    alloc: Global,
    keys: &[Option<[u8; 32]>],
    to: Peer,
    frame: &'f [u8],
) -> Result<Outgoing<'f>, Missed>
    ensures goes { IfOk result (GoesSealed keys.now to frame.now) }
    ensures no_key { (result ≡ Err Missed.NoKey) ↔ (key_of keys.now frame.now ≡ None) }
    ensures oversize { (result ≡ Err Missed.Oversize) ↔ (key_of keys.now frame.now ≡ None → ⊥) × (IsSealable frame.now → ⊥) }
{
    let Some(key) = key_of(keys, frame) else {
        return Err(Missed::NoKey);
    };
    if !is_sealable(frame) {
        return Err(Missed::Oversize);
    }
    let tag = tag_of(&key, &way_to(to), frame);
    match put_seal(alloc, &tag, frame) {
        Ok(bytes) => Ok(Outgoing::Sealed { bytes, key, tag }),
        Err(_) => Err(Missed::Memory),
    }
}

/// The way to a peer.
fn way_to(to: Peer) -> Way
    ensures { result ≡ way_to to }
{
    match to {
        Peer::Server => Way::ToServer,
        Peer::Surrogate => Way::ToSurrogate,
    }
}

/// The frame in the bytes that came back to the sealed frame with this tag. They lose their seal in place.
fn unsealed(key: &[u8; 32], asked: &[u8; 32], mut came: Vec<u8>) -> Result<Vec<u8>, Missed>
    ensures frame { IfOk result (λ frame. IsSealedUnder key.now (Back asked.now) came.items frame.items) }
    ensures refused { OnErr result ((frame : List ℕ) → IsSealedUnder key.now (Back asked.now) came.items frame → ⊥) }
{
    if !is_answer(key, asked, &came) {
        let missed = Missed::of_unsealed(&came);
        drop(came);
        return Err(missed);
    }
    drop_seal(&mut came);
    Ok(came)
}

/// Whether the bytes are sealed by this key as the answer to the sealed frame with this tag.
fn is_answer(key: &[u8; 32], asked: &[u8; 32], bytes: &[u8]) -> bool
    ensures frame { IsTrue result → IsSealedUnder key.now (Back asked.now) bytes.now (frame_in bytes.now) }
    ensures none { result ≡ false → (frame : List ℕ) → IsSealedUnder key.now (Back asked.now) bytes.now frame → ⊥ }
{
    open_answer(key, asked, bytes).is_ok()
}
