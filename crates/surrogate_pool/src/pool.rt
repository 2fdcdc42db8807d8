// A link that asks several surrogates.
ghost use Rattle.surrogate_pool.specs.declared.pool.PoolRound.{PoolRound};
ghost use Rattle.surrogate_pool.specs.Inside.{round_of};
ghost use Rattle.std.specs.Prelude.{◌≡◌, ◌++◌, ◌∷◌, [], List, OnOk, OnErr, false};

use crate::tries::{Tries, ask_link};
use std::alloc::{AllocError, Global};
use vol_tree::Content;
use world_rules::{Link, LinkError, Peer};

/// What is kept of one ask: its address, how many asks of the link were made for it and answered or failed, and whether it was answered
/// or failed itself.
#[derive(Drop)]
pub struct PoolRound {
    pub address: Content,
    pub tries: usize,
    pub answered: bool,
}

/// A link over another, by which an operation is asked of each of several surrogates in turn. A surrogate's address is one or more
/// joined by commas. What is asked of the server is asked once.
#[derive(Drop)]
pub struct Pool<L> {
    alloc: Global,
    link: L,
    rounds: Vec<PoolRound>,
}

impl<L: Link> Pool<L> {
    /// The pool over a link. It takes no memory.
    pub fn new(alloc: Global, link: L) -> Pool<L>
        ensures link { result.link ≡ link }
        ensures rounds { result.rounds.items ≡ [] }
    {
        Pool {
            alloc,
            link,
            rounds: Vec::new(alloc),
        }
    }

    /// The link inside.
    pub fn link(&self) -> &L
        ensures { result.now ≡ self.now.link }
    {
        &self.link
    }

    /// What is kept of each ask, in order.
    pub fn rounds(&self) -> &[PoolRound]
        ensures { result.now ≡ self.now.rounds.items }
    {
        &self.rounds
    }

    /// Takes room for what is kept of an ask at an address. Until it is noted, memory ran out in it.
    fn begin(&mut self, address: &[u8]) -> Result<(), AllocError>
        ensures ok { OnOk result (self.new.rounds.items
            ≡ self.old.rounds.items ++ record { address = address.now; tries = 0; answered = false } ∷ []) }
        ensures err { OnErr result (self.new.rounds.items ≡ self.old.rounds.items) }
        ensures link { self.new.link ≡ self.old.link }
    {
        let address = Content::of(self.alloc, address)?;
        self.rounds.push(PoolRound {
            address,
            tries: 0,
            answered: false,
        })?;
        Ok(())
    }

    /// Notes what the last ask came to.
    fn note(&mut self, tries: &Tries)
        ensures rounds { (before : List PoolRound) (round : PoolRound) → self.old.rounds.items ≡ before ++ round ∷ []
            → self.new.rounds.items ≡ before ++ round_of round.address tries.now.count tries.now.answer ∷ [] }
        ensures link { self.new.link ≡ self.old.link }
    {
        if let Some(last) = self.rounds.len().checked_sub(1) {
            let round = &mut self.rounds[last];
            round.tries = tries.count;
            round.answered = tries.is_answered();
        }
    }
}

impl<L: Link> Link for Pool<L> {
    ghost use Rattle.std.specs.Prelude.{IfOk};
    ghost use Rattle.outside.specs.Outside.{HasCause};
    ghost use Rattle.wire_frames.specs.declared.message.Message.{Message};
    ghost use Rattle.wire_frames.specs.Frame.{Spells};
    ghost use Rattle.world_rules.specs.Telling.{ToldWorlds, IsCalm};
    ghost use Rattle.world_rules.specs.Asking.{IsRequest, IsReplyTo, AsksOnce, IsDirect};
    ghost use Rattle.surrogate_pool.specs.Rounds.{pool_tells, AddsOne, AddsRounds};
    ghost use Rattle.surrogate_pool.specs.Keeping.{adds_none, adds_then};

    ghost tells = { λ pool. pool_tells pool.rounds.items (L.tells pool.link) };

    ghost keeps = { λ old new. L.keeps old.link new.link
        × ToldWorlds (L.tells old.link) (L.tells new.link) (AddsRounds old.rounds.items new.rounds.items) };

    ghost keeps_none = { λ pool. (L.keeps_none pool.link, adds_none pool.rounds.items (L.tells pool.link).world) };

    ghost keeps_then = { λ a b c first second. (
      L.keeps_then a.link b.link c.link first.0 second.0,
      adds_then a.rounds.items b.rounds.items c.rounds.items
          (L.tells a.link).world (L.tells b.link).world (L.tells c.link).world first.1 second.1,
    ) };

    /// Asks the server once, and the surrogate at each of the addresses in turn, until one has done the operation. Where none has, the
    /// answer is the first reply that came; it fails where each failed.
    fn ask(&mut self, to: Peer, address: &[u8], frame: &[u8]) -> Result<Vec<u8>, LinkError>
        requires { (request : Message) × Spells request frame.now × IsRequest to request }
        ensures reply { (request : Message) → Spells request frame.now
            → IfOk result (λ bytes. IsReplyTo request bytes.items) }
        ensures world { (request : Message) → Spells request frame.now
            → ToldWorlds (pool_tells self.old.rounds.items (L.tells self.old.link))
            (pool_tells self.new.rounds.items (L.tells self.new.link))
            (λ old new. AsksOnce to address.now request old new result) }
        ensures direct { (request : Message) → Spells request frame.now → to ≡ Peer.Server
            → IsCalm (L.tells self.old.link) (L.tells self.new.link)
            → ToldWorlds (pool_tells self.old.rounds.items (L.tells self.old.link))
            (pool_tells self.new.rounds.items (L.tells self.new.link))
            (λ old new. IsDirect to address.now request old new result) }
        ensures cause { HasCause LinkError.Failed (L.tells self.old.link).troubles (L.tells self.new.link).troubles result }
        ensures kept { L.keeps self.old.link self.new.link
            × ToldWorlds (L.tells self.old.link) (L.tells self.new.link) (AddsRounds self.old.rounds.items self.new.rounds.items) }
        ensures once { AddsOne self.old.rounds.items self.new.rounds.items }
    {
        match self.begin(address) {
            Ok(()) => {}
            Err(_refused) => return Err(LinkError::Memory),
        }
        let tries = ask_link(self.alloc, &mut self.link, to, address, frame);
        self.note(&tries);
        let Tries { answer, .. } = tries;
        answer
    }
}
