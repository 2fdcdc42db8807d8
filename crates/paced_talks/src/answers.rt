// The connections whose answers go out, side by side.
ghost use Rattle.std.specs.Prelude.{◌≡◌, ◌≤◌, ◌<◌, ◌+◌, [], ◌∷◌, ◌++◌, length};
ghost use Rattle.std.specs.Prelude.{remove, false, true, slice_index_or, None, IfOk, OnOk, IfSome};
ghost use Rattle.std.specs.Io.KnownBytes.{Appends};
ghost use Rattle.paced_talks.specs.Talks.{most_answering, most_held};
ghost use Rattle.paced_talks.specs.Going.{bytes_of, is_idler, IsIdlest, HasRoom, IsAtStart, IsQueued};

use crate::answering::{Answering, send_front};
use crate::step::{Progress, sooner};
use crate::window::Window;
use std::alloc::{AllocError, Global};
use std::io;
use std::io::{ErrorKind, Write};
use std::time::{Duration, Instant};

/// The most connections whose answers go out side by side.
const MOST_ANSWERING: usize = 64;

/// The most bytes of answers that are held until they are out: two of the longest.
const MOST_HELD: usize = 134_217_728;

/// The connections whose answers go out.
#[derive(Drop)]
pub struct Answers<S: Write + Drop> {
    alloc: Global,
    talks: Vec<Answering<S>>,
    /// How many bytes of answers are held.
    bytes: usize,
    ghost places: { length talks.items ≤ most_answering },
    ghost counted: { bytes ≡ bytes_of talks.items },
    ghost room: { bytes ≤ most_held },
}

impl<S: Write + Drop> Answers<S> {
    /// No connection.
    pub fn new(alloc: Global) -> Answers<S>
        ensures { result.talks.items ≡ [] }
    {
        Answers {
            alloc,
            talks: Vec::new(alloc),
            bytes: 0,
        }
    }

    /// Whether no answer goes out.
    pub fn is_empty(&self) -> bool {
        self.talks.is_empty()
    }

    /// Sends as much of an answer as goes at once, and has the rest go out beside others. Gives the stream back where nothing is
    /// left.
    ///
    /// # Errors
    ///
    /// The stream's, want of memory, and an answer over the limit: the connection is closed then.
    #[tactic(auto, using(crate::proofs::Sending::sends_all))]
    pub fn send(&mut self, mut stream: S, answer: &[u8], now: Instant) -> io::Result<Option<S>>
        ensures whole { IfOk result (λ left. IfSome left (λ done. Appends (S.contents stream) (S.contents done) answer.now)) }
        ensures queued { IfOk result (λ left. left ≡ None → IsQueued S.contents stream answer.now now self.new.talks.items) }
    {
        let sent = match send_front(&mut stream, answer) {
            Ok(sent) => sent,
            Err(error) => {
                drop(stream);
                return Err(error);
            }
        };
        if sent == answer.len() {
            return Ok(Some(stream));
        }
        self.admit(stream, &answer[sent..], Window::sending(now, answer.len()))?;
        Ok(None)
    }

    /// Has each connection send what goes at once. Answers whether more may go, and gives a stream whose answer was sent.
    pub fn step(&mut self, now: Instant) -> (bool, Option<S>) {
        let mut moved = false;
        let mut place = 0;
        while place < self.talks.len() {
            match self.talks[place].step(now) {
                Ok(Progress::Ended) => return (true, Some(self.remove(place).stream)),
                Ok(Progress::Moved) => {
                    moved = true;
                    place += 1;
                }
                Ok(Progress::Waits) => place += 1,
                Err(_) => drop(self.remove(place)),
            }
        }
        (moved, None)
    }

    /// The shorter of a wait and what is left of the time of a connection.
    pub fn soonest(&self, now: Instant, wait: Option<Duration>) -> Option<Duration> {
        let mut soonest = wait;
        for talk in &self.talks {
            soonest = sooner(soonest, talk.window.left(now));
        }
        soonest
    }

    /// Gives each connection so much time more, in which nobody looked at it.
    pub fn delay(&mut self, by: Duration)
        ensures { length self.new.talks.items ≡ length self.old.talks.items }
    {
        for place in 0..self.talks.len() {
            self.talks[place].delay(by);
        }
    }

    /// Has the rest of an answer go out within this window and those that follow, behind the others. Where there is no place or no room
    /// for it the idlest go.
    ///
    /// # Errors
    ///
    /// Want of memory, and a rest over the limit: it is closed then.
    fn admit(&mut self, stream: S, rest: &[u8], window: Window) -> io::Result<()>
        ensures { OnOk result ((kept : _) × (talk : _) × (self.new.talks.items ≡ kept ++ talk ∷ [])
            × IsAtStart talk stream rest.now window) }
    {
        if rest.len() > MOST_HELD {
            drop(stream);
            return Err(io::Error::from(ErrorKind::FileTooLarge));
        }
        self.make_room(rest.len());
        let talk = Answering::new(self.alloc, stream, rest, window)?;
        self.talks.push(talk)?;
        self.bytes += rest.len();
        Ok(())
    }

    /// Takes the connection at a place out of the list.
    fn remove(&mut self, place: usize) -> Answering<S>
        requires { place < length self.old.talks.items }
        ensures talk { result ≡ slice_index_or self.old.talks.items place result }
        ensures talks { self.new.talks.items ≡ remove self.old.talks.items place }
        ensures fewer { length self.new.talks.items + 1 ≡ length self.old.talks.items }
    {
        let talk = self.talks.remove(place);
        self.bytes -= talk.rest.len();
        talk
    }

    /// Lets the idlest connections go, one after the other, until there is a place, and room for so many bytes.
    fn make_room(&mut self, bytes: usize)
        requires { bytes ≤ most_held }
        ensures room { HasRoom bytes self.new.talks.items }
        ensures none { HasRoom bytes self.old.talks.items → self.new.talks.items ≡ self.old.talks.items }
    {
        while !self.has_room(bytes) {
            self.let_idlest_go();
        }
    }

    /// Whether there is a place, and room for so many bytes.
    fn has_room(&self, bytes: usize) -> bool
        ensures yes { result ≡ true → HasRoom bytes self.now.talks.items }
        ensures no { result ≡ false → HasRoom bytes self.now.talks.items → ⊥ }
    {
        self.talks.len() < MOST_ANSWERING && bytes <= MOST_HELD - self.bytes
    }

    /// Lets the idlest connection go.
    fn let_idlest_go(&mut self)
        requires { 0 < length self.old.talks.items }
        ensures idlest { (place : _) × IsIdlest self.old.talks.items place × (self.new.talks.items ≡ remove self.old.talks.items place) }
        ensures fewer { length self.new.talks.items + 1 ≡ length self.old.talks.items }
    {
        let place = self.idlest();
        drop(self.remove(place));
    }

    /// The place of the connection that has been idle longest.
    #[tactic(auto, using(crate::proofs::Turns::idlest_of_one))]
    fn idlest(&self) -> usize
        requires { 0 < length self.now.talks.items }
        ensures { IsIdlest self.now.talks.items result }
    {
        let mut idlest = 0;
        for place in 1..self.talks.len() {
            if is_idler(&self.talks[place], &self.talks[idlest]) {
                idlest = place;
            }
        }
        idlest
    }
}

/// Whether a connection has been idle longer than another one.
fn is_idler<S: Write + Drop>(one: &Answering<S>, other: &Answering<S>) -> bool
    ensures { result ≡ is_idler one.now other.now }
{
    !other.moved_at.duration_since(one.moved_at).is_zero()
}
