// A source and a sink in memory.
ghost use Rattle.std.specs.Prelude.{◌≡◌, ◌↔◌, ◌<◌, ◌≤◌, [], drop, length, min, IsErr, IsErrOf, IsTrue, IfOk, Some};
ghost use Rattle.outside.specs.Outside.{Told, Reads, Writes, CountsFault};
ghost use Rattle.outside.specs.Memory.{InMemory, is_named, fails_now, after_call};

use crate::calls::Calls;
use crate::{Failed, Sink, SinkError, Source};
use std::alloc::Global;
use std::marker::Model;

/// A source of given bytes. Contracts see the bytes left, the calls made, which of them fail, and the faults.
#[derive(Drop)]
pub struct MemSource {
    bytes: Vec<u8>,
    at: usize,
    fails: Vec<u32>,
    calls: Calls,
}

impl Model for MemSource {
    ghost Value = { InMemory };

    ghost view = { λ s. record { bytes = drop s.at s.bytes.items; fails = s.fails.items; calls = s.calls } };

    ghost invariant = { λ s. s.at ≤ length s.bytes.items };
}

impl MemSource {
    /// A source of these bytes that fails in the named calls, counted from 0 over all its calls.
    pub fn new(_alloc: Global, bytes: Vec<u8>, fails: Vec<u32>) -> MemSource
        ensures { result ≡ record { bytes = bytes.items; fails = fails.items; calls = record { made = 0; faults = 0 } } }
    {
        MemSource {
            bytes,
            at: 0,
            fails,
            calls: Calls::new(),
        }
    }
}

/// Whether a call is one of those named.
pub(crate) fn is_named(fails: &[u32], call: u64) -> bool
    ensures { result ≡ is_named fails.now call }
{
    fails.iter().any(|fail| u64::from(*fail) == call)
}

impl Source for MemSource {
    ghost left = { λ s. Some s.bytes };

    ghost faults = { λ s. s.calls.faults };

    /// Takes as many bytes as are left and fit, but in the named calls.
    fn read(&mut self, buf: &mut [u8]) -> Result<usize, Failed>
        requires { 0 < length buf.old }
        ensures within { IfOk result (λ count. count ≤ length buf.old) }
        ensures bytes { Told (Some self.old.bytes) (Some self.new.bytes) (λ old new. Reads old new buf.new result) }
        ensures cause { CountsFault (record {}) self.old.calls.faults self.new.calls.faults result }

        ensures full { IfOk result (λ count. count ≡ min (length self.old.bytes) (length buf.old)) }
        ensures exactly { IsErr result ↔ IsTrue (fails_now self.old) }
        ensures counted { self.new ≡ record self.old { bytes = self.new.bytes; calls = after_call (fails_now self.old) self.old.calls } }
    {
        let call = self.calls.count();
        if is_named(&self.fails, call) {
            self.calls.fail();
            return Err(Failed);
        }
        let left = &self.bytes[self.at..];
        let count = left.len().min(buf.len());
        buf[..count].copy_from_slice(&left[..count]);
        self.at += count;
        Ok(count)
    }
}

/// A sink that keeps what is written. Contracts see these bytes, the calls made, which of them fail, and the faults.
#[derive(Drop)]
pub struct MemSink {
    bytes: Vec<u8>,
    fails: Vec<u32>,
    calls: Calls,
}

impl Model for MemSink {
    ghost Value = { InMemory };

    ghost view = { λ s. record { bytes = s.bytes.items; fails = s.fails.items; calls = s.calls } };
}

impl MemSink {
    /// A sink with nothing written that fails in the named calls, counted from 0 over all its calls.
    pub fn new(alloc: Global, fails: Vec<u32>) -> MemSink
        ensures { result ≡ record { bytes = []; fails = fails.items; calls = record { made = 0; faults = 0 } } }
    {
        MemSink {
            bytes: Vec::new(alloc),
            fails,
            calls: Calls::new(),
        }
    }

    /// The bytes that were written.
    pub fn bytes(&self) -> &[u8]
        ensures { result.now ≡ self.now.bytes }
    {
        &self.bytes
    }
}

impl Sink for MemSink {
    ghost written = { λ s. Some s.bytes };

    ghost faults = { λ s. s.calls.faults };

    /// Takes the whole piece, but in the named calls.
    fn write(&mut self, piece: &[u8]) -> Result<usize, SinkError>
        requires { 0 < length piece.now }
        ensures within { IfOk result (λ count. (0 < count) × (count ≤ length piece.now)) }
        ensures bytes { Told (Some self.old.bytes) (Some self.new.bytes) (λ old new. Writes old new piece.now result) }
        ensures cause { CountsFault SinkError.Failed self.old.calls.faults self.new.calls.faults result }

        ensures full { IfOk result (λ count. count ≡ length piece.now) }
        ensures exactly { IsErrOf result SinkError.Failed ↔ IsTrue (fails_now self.old) }
        ensures counted { self.new ≡ record self.old { bytes = self.new.bytes; calls = after_call (fails_now self.old) self.old.calls } }
    {
        let call = self.calls.count();
        if is_named(&self.fails, call) {
            self.calls.fail();
            return Err(SinkError::Failed);
        }
        self.bytes.extend_from_slice(piece)?;
        Ok(piece.len())
    }
}
