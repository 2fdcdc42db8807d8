// The connections whose frames come in, side by side.
ghost use Rattle.std.specs.Prelude.{◌≡◌, ◌⊎◌, ◌≤◌, ◌<◌, ◌+◌, [], ◌∷◌, ◌++◌, length};
ghost use Rattle.std.specs.Prelude.{remove, true, false, All, slice_index_or, OnOk, OnErr, IfSome, IfNone, MatchOption};
ghost use Rattle.paced_talks.specs.Frames.{frame_limit, block_bytes};
ghost use Rattle.paced_talks.specs.Talks.{IsFirstFrame, most_asking, most_gathered, most_counted, counted_up, Loses};
ghost use Rattle.paced_talks.specs.Coming.{bytes_of, goes_before, IsIdlest, LetsIdlestGo, HasLetIn, IsFirstWhole, KeepsWhole};

use crate::asking::Asking;
use crate::frames::BLOCK;
use crate::step::{Progress, sooner};
use std::alloc::{AllocError, Global};
use std::io;
use std::io::Read;
use std::net::SocketAddr;
use std::time::{Duration, Instant};

/// The most connections whose frames come in side by side.
const MOST_ASKING: usize = 256;

/// The most bytes of frames that come in side by side: two of the longest.
const MOST_GATHERED: usize = 134_217_728;

/// The most peers of connections that were let go of which the addresses are kept until they are told.
const MOST_NAMED: usize = 256;

/// Whether a connection goes before another one where there is no room for both: one whose frame is whole is behind all others, one
/// that has brought its head behind those that have not, and of two alike the one that has been idle longer goes first.
fn goes_before<S: Read + Drop>(one: &Asking<S>, other: &Asking<S>) -> bool
    ensures { result ≡ goes_before one.now other.now }
{
    if one.is_whole != other.is_whole {
        return other.is_whole;
    }
    let (has_head, other_has) = (one.has_head(), other.has_head());
    if has_head != other_has {
        return other_has;
    }
    !other.moved_at.duration_since(one.moved_at).is_zero()
}

/// The connections whose frames come in, those that came first at the front.
#[derive(Drop)]
pub struct Gathering<S: Read + Drop> {
    alloc: Global,
    talks: Vec<Asking<S>>,
    /// How many bytes came in of their frames.
    bytes: usize,
    /// How many connections were let go without their frame, and not told yet.
    lost: u64,
    /// Whose they were, as far as that is kept.
    lost_peers: Vec<SocketAddr>,
    ghost places: { length talks.items ≤ most_asking },
    ghost counted: { bytes ≡ bytes_of talks.items },
    ghost room: { bytes ≤ most_gathered },
    ghost countable: { lost ≤ most_counted },
}

impl<S: Read + Drop> Gathering<S> {
    /// No connection.
    pub fn new(alloc: Global) -> Gathering<S>
        ensures talks { result.talks.items ≡ [] }
        ensures lost { result.lost ≡ 0 }
    {
        Gathering {
            alloc,
            talks: Vec::new(alloc),
            bytes: 0,
            lost: 0,
            lost_peers: Vec::new(alloc),
        }
    }

    /// Whether a connection more has its place, or another one's: not where all places are taken, and each frame is whole.
    pub fn has_place(&self) -> bool
        ensures { result ≡ false → (length self.now.talks.items ≡ most_asking) × All (λ talk. talk.is_whole ≡ true) self.now.talks.items }
    {
        self.talks.len() < MOST_ASKING || self.idlest().is_some()
    }

    /// Lets a connection of this peer in that was taken at this moment, behind the others. Where all places are taken the idlest goes for it.
    ///
    /// # Errors
    ///
    /// Want of memory, and of a place where each frame is whole: it is counted as lost.
    pub fn admit(&mut self, stream: S, peer: SocketAddr, now: Instant) -> Result<(), AllocError>
        ensures let_in { OnOk result (HasLetIn self.old.talks.items stream now self.new.talks.items) }
        ensures counted { Loses (length self.old.talks.items + 1) (length self.new.talks.items) self.old.lost self.new.lost }
    {
        if self.talks.len() >= MOST_ASKING {
            self.let_idlest_go();
        }
        if self.talks.len() >= MOST_ASKING {
            drop(stream);
            self.count_lost(peer);
            return Err(AllocError);
        }
        self.push(Asking::new(self.alloc, stream, peer, now))
    }

    /// Has each connection read what has come, where there is room for it. Those whose frame is whole stay. Answers whether more may have
    /// come.
    #[tactic(auto, using(crate::proofs::Staying::keeps_all, crate::proofs::Staying::keeps_then, crate::proofs::Staying::keeps_removed))]
    pub fn step(&mut self, now: Instant) -> bool
        ensures counted { Loses (length self.old.talks.items) (length self.new.talks.items) self.old.lost self.new.lost }
        ensures whole { KeepsWhole self.old.talks.items self.new.talks.items }
    {
        let mut moved = false;
        let mut block = [0; BLOCK];
        let mut place = 0;
        while place < self.talks.len() {
            if MOST_GATHERED - self.bytes < BLOCK {
                return self.make_room();
            }
            match self.step_at(place, now, &mut block) {
                Ok(Progress::Moved) => {
                    moved = true;
                    place += 1;
                }
                Ok(_) => place += 1,
                Err(_) => self.let_go(place),
            }
        }
        moved
    }

    /// The first connection whose frame is whole, with its frame: the first one of all that its stream brings, or all of that. Behind
    /// them its peer.
    #[tactic(auto, using(crate::proofs::Pieces::begun_fits))]
    pub fn take_whole(&mut self) -> Option<(S, Vec<u8>, SocketAddr)>
        ensures limit { IfSome result (λ talk. length talk.1.items ≤ frame_limit) }
        ensures first { IfSome result (λ talk. IsFirstFrame talk.1.items (S.remaining talk.0)) }
        ensures oldest { IfSome result (λ talk. (place : _) × IsFirstWhole self.old.talks.items place
            × (self.new.talks.items ≡ remove self.old.talks.items place)) }
        ensures none { IfNone result (All (λ talk. talk.is_whole ≡ false) self.old.talks.items) }
        ensures lost { self.new.lost ≡ self.old.lost }
    {
        for place in 0..self.talks.len() {
            if self.talks[place].is_whole {
                let talk = self.remove(place);
                return Some((talk.stream, talk.frame, talk.peer));
            }
        }
        None
    }

    /// Takes note of a connection that was let go and not told yet; answers whether there was one.
    pub fn take_lost(&mut self) -> bool
        ensures told { result ≡ true → self.old.lost ≡ self.new.lost + 1 }
        ensures none { result ≡ false → (self.old.lost ≡ 0) × (self.new.lost ≡ 0) }
        ensures talks { self.new.talks ≡ self.old.talks }
    {
        if self.lost == 0 {
            return false;
        }
        self.lost -= 1;
        true
    }

    /// The peer of a connection that was let go and that was not given yet, those that went first before others; none where it is not
    /// kept.
    pub fn take_lost_peer(&mut self) -> Option<SocketAddr>
        ensures lost { self.new.lost ≡ self.old.lost }
        ensures talks { self.new.talks ≡ self.old.talks }
    {
        if self.lost_peers.is_empty() {
            return None;
        }
        Some(self.lost_peers.remove(0))
    }

    /// Counts a connection of this peer that was lost before it was let in. Where memory for the peer is wanted, it is not kept.
    pub fn count_lost(&mut self, peer: SocketAddr)
        ensures lost { self.new.lost ≡ counted_up 1 self.old.lost }
        ensures talks { self.new.talks ≡ self.old.talks }
    {
        self.lost = self.lost.saturating_add(1);
        if self.lost_peers.len() < MOST_NAMED {
            let _kept = self.lost_peers.push(peer);
        }
    }

    /// The shorter of a wait and what is left of the time of a connection.
    pub fn soonest(&self, now: Instant, wait: Option<Duration>) -> Option<Duration> {
        let mut soonest = wait;
        for talk in &self.talks {
            if !talk.is_whole {
                soonest = sooner(soonest, talk.window.left(now));
            }
        }
        soonest
    }

    /// Gives each connection so much time more, in which nobody looked at it.
    pub fn delay(&mut self, by: Duration)
        ensures talks { length self.new.talks.items ≡ length self.old.talks.items }
        ensures lost { self.new.lost ≡ self.old.lost }
    {
        for place in 0..self.talks.len() {
            self.talks[place].delay(by);
        }
    }

    /// Lets all connections go, at the end of all.
    pub fn clear(&mut self)
        ensures { self.new.talks.items ≡ [] }
    {
        self.talks.clear();
        self.bytes = 0;
    }

    /// Has the connection at a place read what has come.
    #[tactic(auto, using(crate::proofs::Staying::keeps_changed))]
    fn step_at(
        &mut self,
        place: usize,
        now: Instant,
        block: &mut [u8; BLOCK],
    ) -> io::Result<Progress>
        requires there { place < length self.old.talks.items }
        requires room { self.old.bytes + block_bytes ≤ most_gathered }
        ensures talks { length self.new.talks.items ≡ length self.old.talks.items }
        ensures whole { KeepsWhole self.old.talks.items self.new.talks.items }
        ensures failed { OnErr result ((none : _) → (slice_index_or self.new.talks.items place none).is_whole ≡ false) }
        ensures lost { self.new.lost ≡ self.old.lost }
    {
        let before = self.talks[place].frame.len();
        let step = self.talks[place].step(now, block);
        self.bytes = self.bytes - before + self.talks[place].frame.len();
        step
    }

    /// Puts a connection that has brought nothing yet behind the others, or counts it as lost where there is no memory for it.
    fn push(&mut self, talk: Asking<S>) -> Result<(), AllocError>
        requires place { length self.old.talks.items < most_asking }
        requires new { talk.frame.items ≡ [] }
        ensures ok { OnOk result (self.new.talks.items ≡ self.old.talks.items ++ talk ∷ []) }
        ensures counted { Loses (length self.old.talks.items + 1) (length self.new.talks.items) self.old.lost self.new.lost }
    {
        let peer = talk.peer;
        match self.talks.push(talk) {
            Ok(()) => Ok(()),
            Err(refused) => {
                drop(refused);
                self.count_lost(peer);
                Err(AllocError)
            }
        }
    }

    /// Takes the connection at a place out of the list.
    fn remove(&mut self, place: usize) -> Asking<S>
        requires { place < length self.old.talks.items }
        ensures talk { result ≡ slice_index_or self.old.talks.items place result }
        ensures talks { self.new.talks.items ≡ remove self.old.talks.items place }
        ensures fewer { length self.new.talks.items + 1 ≡ length self.old.talks.items }
        ensures lost { self.new.lost ≡ self.old.lost }
    {
        let talk = self.talks.remove(place);
        self.bytes -= talk.frame.len();
        talk
    }

    /// Lets the idlest connection go, unless a frame is whole: that one is taken next, and makes room. Answers that there may be more
    /// to read.
    #[tactic(auto, using(crate::proofs::Staying::keeps_all, crate::proofs::Staying::keeps_others))]
    fn make_room(&mut self) -> bool
        ensures counted { Loses (length self.old.talks.items) (length self.new.talks.items) self.old.lost self.new.lost }
        ensures whole { KeepsWhole self.old.talks.items self.new.talks.items }
    {
        if !self.talks.iter().any(|talk| talk.is_whole) {
            self.let_idlest_go();
        }
        true
    }

    /// Lets the idlest connection go whose frame is not whole, where there is one.
    fn let_idlest_go(&mut self)
        ensures one { (self.new.talks.items ≡ self.old.talks.items) ⊎ LetsIdlestGo self.old.talks.items self.new.talks.items }
        ensures counted { Loses (length self.old.talks.items) (length self.new.talks.items) self.old.lost self.new.lost }
    {
        if let Some(place) = self.idlest() {
            self.let_go(place);
        }
    }

    /// Lets the connection at a place go without its frame.
    fn let_go(&mut self, place: usize)
        requires { place < length self.old.talks.items }
        ensures talks { self.new.talks.items ≡ remove self.old.talks.items place }
        ensures fewer { length self.new.talks.items + 1 ≡ length self.old.talks.items }
        ensures lost { self.new.lost ≡ counted_up 1 self.old.lost }
    {
        let talk = self.remove(place);
        let peer = talk.peer;
        drop(talk);
        self.count_lost(peer);
    }

    /// The place of the idlest connection whose frame is not whole.
    #[tactic(auto, using(crate::proofs::Turns::first_of_one, crate::proofs::Turns::is_idlest, crate::proofs::Turns::are_whole))]
    fn idlest(&self) -> Option<usize>
        ensures { MatchOption result (All (λ talk. talk.is_whole ≡ true) self.now.talks.items)
            (λ place. IsIdlest self.now.talks.items place) }
    {
        if self.talks.is_empty() {
            return None;
        }
        let mut idlest = 0;
        for place in 1..self.talks.len() {
            if goes_before(&self.talks[place], &self.talks[idlest]) {
                idlest = place;
            }
        }
        if self.talks[idlest].is_whole {
            return None;
        }
        Some(idlest)
    }
}
