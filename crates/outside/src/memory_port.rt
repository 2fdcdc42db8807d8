// A port in memory.
ghost use Rattle.std.specs.Prelude.{◌≡◌, ◌<◌, ◌-◌, ◌↔◌, [], Some, None, Ok, ◌∷◌, ◌++◌, length, map, slice_get, option_map, IfOk, OnOk};
ghost use Rattle.std.specs.Prelude.{OnErr, IsErrOf, IsTrue};
ghost use Rattle.std.specs.Option.{option_copied};
ghost use Rattle.outside.specs.Outside.{Told, CountsFault};
ghost use Rattle.outside.specs.Port.{AddsTalks, talks_begun, AnswersLast};
ghost use Rattle.outside.specs.MemoryPort.{PortInMemory, talks_of, reply_of, awaits_answer, take_fails, answer_fails, after_take};
ghost use Rattle.outside.specs.MemoryPort.{after_answer};

use crate::calls::Calls;
use crate::memory::is_named;
use crate::{Port, PortError};
use std::alloc::{AllocError, Global};
use std::marker::Model;

/// A frame that was taken, and the answer that its connection was given.
#[derive(Drop)]
struct HeldTalk {
    frame: Vec<u8>,
    reply: Option<Vec<u8>>,
}

/// A port of given frames, one connection each. Contracts see the frames left, those taken with their answers, the calls
/// made, which of them fail, and the faults.
#[derive(Drop)]
pub struct MemPort {
    left: Vec<Vec<u8>>,
    talks: Vec<HeldTalk>,
    fails: Vec<u32>,
    calls: Calls,
}

impl Model for MemPort {
    ghost Value = { PortInMemory };

    ghost view = { λ p. record
        { left = map (λ f. f.items) p.left.items; talks = talks_of p.talks.items; fails = p.fails.items; calls = p.calls } };
}

impl MemPort {
    /// A port with a connection for each of these frames, in order, that fails in the named calls, counted from 0 over
    /// all its calls. A take with no connection left does not fail.
    pub fn new(alloc: Global, frames: Vec<Vec<u8>>, fails: Vec<u32>) -> MemPort
        ensures { result ≡ record
            { left = map (λ f. f.items) frames.items; talks = []; fails = fails.items; calls = record { made = 0; faults = 0 } } }
    {
        MemPort {
            left: frames,
            talks: Vec::new(alloc),
            fails,
            calls: Calls::new(),
        }
    }

    /// The answer to the taken frame of this index, counted from 0.
    pub fn answered(&self, i: u32) -> Option<&[u8]>
        ensures { option_copied result ≡ reply_of (slice_get self.now.talks i) }
    {
        reply_at(&self.talks, i as usize)
    }
}

fn reply_at(talks: &[HeldTalk], i: usize) -> Option<&[u8]>
    ensures { option_copied result ≡ reply_of (slice_get (talks_of talks.now) i) }
{
    match talks.get(i) {
        Some(
            HeldTalk {
                reply: Some(reply),
                ..
            },
        ) => Some(reply.as_slice()),
        _ => None,
    }
}

impl Port for MemPort {
    ghost tells = { λ p. record { left = length p.left; talks = Some p.talks; faults = p.calls.faults } };

    /// Takes the next frame, but in the named calls.
    fn take(&mut self) -> Result<Option<Vec<u8>>, PortError>
        ensures left { length self.new.left ≡ length self.old.left - 1 }
        ensures none { (result ≡ Ok None) ↔ (length self.old.left ≡ 0) }
        ensures talks { AddsTalks (Some self.old.talks) (Some self.new.talks) (talks_begun result) }
        ensures cause { CountsFault PortError.Failed self.old.calls.faults self.new.calls.faults result }

        ensures next { IfOk result (λ frame. option_map (λ f. f.items) frame ≡ slice_get self.old.left 0) }
        ensures exactly { IsErrOf result PortError.Failed ↔ IsTrue (take_fails self.old) }
        ensures counted { self.new ≡ after_take self.old result }
    {
        let call = self.calls.count();
        if self.left.is_empty() {
            return Ok(None);
        }
        let frame = self.left.remove(0);
        if is_named(&self.fails, call) {
            self.calls.fail();
            return Err(PortError::Failed);
        }
        begin(&mut self.talks, &frame)?;
        Ok(Some(frame))
    }

    /// Keeps the answer, but in the named calls, and where no connection waits for one.
    fn answer(&mut self, frame: &[u8]) -> Result<(), PortError>
        ensures left { length self.new.left ≡ length self.old.left }
        ensures talks { Told (Some self.old.talks) (Some self.new.talks) (AnswersLast frame.now result) }
        ensures cause { CountsFault PortError.Failed self.old.calls.faults self.new.calls.faults result }

        ensures exactly { IsErrOf result PortError.Failed ↔ IsTrue (answer_fails self.old) }
        ensures counted { self.new ≡ after_answer self.old self.new.talks }
    {
        let call = self.calls.count();
        if is_named(&self.fails, call) || !awaits_answer(&self.talks) {
            self.calls.fail();
            return Err(PortError::Failed);
        }
        answer_last(&mut self.talks, frame)?;
        Ok(())
    }
}

/// Whether the talk that was begun last has no answer yet.
fn awaits_answer(talks: &[HeldTalk]) -> bool
    ensures { result ≡ awaits_answer (talks_of talks.now) }
{
    matches!(talks.last(), Some(HeldTalk { reply: None, .. }))
}

/// Begins a talk with a copy of the frame.
fn begin(talks: &mut Vec<HeldTalk>, frame: &[u8]) -> Result<(), AllocError>
    ensures ok { OnOk result (talks_of talks.new.items ≡ talks_of talks.old.items ++ record { frame = frame.now; reply = None } ∷ []) }
    ensures err { OnErr result (talks.new.items ≡ talks.old.items) }
{
    let frame = frame.to_vec(*talks.allocator())?;
    talks.push(HeldTalk { frame, reply: None })?;
    Ok(())
}

/// Gives the talk that was begun last a copy of the reply.
fn answer_last(talks: &mut Vec<HeldTalk>, reply: &[u8]) -> Result<(), AllocError>
    requires { IsTrue (awaits_answer (talks_of talks.old.items)) }
    ensures ok { AnswersLast reply.now result (talks_of talks.old.items) (talks_of talks.new.items) }
    ensures err { OnErr result (talks.new.items ≡ talks.old.items) }
{
    let copy = reply.to_vec(*talks.allocator())?;
    let last = talks.len() - 1;
    talks[last].reply = Some(copy);
    Ok(())
}
