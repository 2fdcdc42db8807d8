// A connection whose answer goes out.
ghost use Rattle.std.specs.Prelude.{◌≡◌, ◌≤◌, ◌-◌, vec_len, length, take, drop, OnOk, IfOk};
ghost use Rattle.std.specs.Io.KnownBytes.{Appends};
ghost use Rattle.paced_talks.specs.Talks.{HasMoved, MovedAt};

use crate::step::{Progress, passing};
use crate::window::{Window, later};
use std::alloc::{AllocError, Global};
use std::io;
use std::io::{ErrorKind, Write};
use std::time::{Duration, Instant};

/// A connection whose answer goes out.
#[derive(Drop)]
pub(crate) struct Answering<S: Write + Drop> {
    pub(crate) stream: S,
    pub(crate) rest: Vec<u8>,
    pub(crate) sent: usize,
    pub(crate) window: Window,
    pub(crate) moved_at: Instant,
    ghost in_bounds: { sent ≤ vec_len rest },
}

impl<S: Write + Drop> Answering<S> {
    /// A connection with the rest of an answer, which it sends within this window and those that follow.
    ///
    /// # Errors
    ///
    /// Want of memory: it is closed then.
    pub(crate) fn new(
        alloc: Global,
        stream: S,
        rest: &[u8],
        window: Window,
    ) -> Result<Answering<S>, AllocError>
        ensures stream { IfOk result (λ talk. talk.stream ≡ stream) }
        ensures rest { IfOk result (λ talk. (talk.rest.items ≡ rest.now) × (talk.sent ≡ 0)) }
        ensures window { IfOk result (λ talk. talk.window ≡ window) }
        ensures moved_at { IfOk result (λ talk. talk.moved_at ≡ window.start) }
    {
        let mut copy = Vec::new(alloc);
        copy.extend_from_slice(rest)?;
        Ok(Answering {
            stream,
            rest: copy,
            sent: 0,
            window,
            moved_at: window.start,
        })
    }

    /// Sends the next part of its rest, as much of it as goes at once.
    ///
    /// # Errors
    ///
    /// `TimedOut` where its time is over, and the stream's.
    #[tactic(auto, using(crate::proofs::Moving::stays, crate::proofs::Moving::moves_none, crate::proofs::Moving::moves_some, crate::proofs::Moving::moved_now, crate::proofs::Moving::moved_before))]
    pub(crate) fn step(&mut self, now: Instant) -> io::Result<Progress>
        ensures bytes { OnOk result (Appends (S.contents self.old.stream) (S.contents self.new.stream)
            (take (self.new.sent - self.old.sent) (drop self.old.sent self.old.rest.items))) }
        ensures forth { self.old.sent ≤ self.new.sent }
        ensures ended { IfOk result (λ step. step ≡ Progress.Ended → self.new.sent ≡ length self.new.rest.items) }
        ensures rest { self.new.rest.items ≡ self.old.rest.items }
        ensures window { OnOk result (HasMoved self.old.sent self.new.sent self.old.window self.new.window) }
        ensures moved_at { OnOk result (MovedAt self.old.sent self.new.sent now self.old.moved_at self.new.moved_at) }
    {
        self.window = self.window.go_on(now)?;
        match self.stream.write(&self.rest[self.sent..]) {
            Ok(0) => Err(io::Error::from(ErrorKind::WriteZero)),
            Ok(count) => {
                self.window = self.window.after(count);
                self.moved_at = now;
                self.sent += count;
                Ok(if self.sent == self.rest.len() {
                    Progress::Ended
                } else {
                    Progress::Moved
                })
            }
            Err(error) => passing(error),
        }
    }

    /// Gives it so much time more, in which nobody looked at it.
    pub(crate) fn delay(&mut self, by: Duration)
        ensures { self.new.rest.items ≡ self.old.rest.items }
    {
        self.window = self.window.delayed(by);
        self.moved_at = later(self.moved_at, by);
    }
}

/// Sends as much of an answer as goes at once, and says how many bytes that were.
#[tactic(auto, using(crate::proofs::Sending::sends_more, crate::proofs::Sending::sends_none, crate::proofs::Sending::sends_same))]
pub(crate) fn send_front<S: Write>(stream: &mut S, answer: &[u8]) -> io::Result<usize>
    ensures few { IfOk result (λ count. count ≤ length answer.now) }
    ensures bytes { IfOk result (λ count. Appends (S.contents stream.old) (S.contents stream.new) (take count answer.now)) }
{
    let mut sent = 0;
    while sent < answer.len() {
        match stream.write(&answer[sent..]) {
            Ok(0) => return Err(io::Error::from(ErrorKind::WriteZero)),
            Ok(count) => sent += count,
            Err(error) => {
                let _waits = passing(error)?;
                return Ok(sent);
            }
        }
    }
    Ok(sent)
}
