// A client: its number and its log.
ghost use Rattle.std.specs.Prelude.{◌≡◌, ◌≢◌, ◌≤◌, ℕ, List, Option, [], ◌∷◌, None, false, Ok, Err, IfOk, IfErr, OnOk, OnErr};
ghost use Rattle.outside.specs.Outside.{Told, CountsFault};
ghost use Rattle.outside.specs.Keeper.{Images};
ghost use Rattle.mod_log.specs.Log.{Log, IsLog, new_log};
ghost use Rattle.mod_log.specs.Append.{appended};
ghost use Rattle.client_core.specs.Logging.{local_entry};
ghost use Rattle.client_core.specs.Journal.{next_notes, journal_after};
ghost use Rattle.client_core.specs.Keeping.{IsReady, KeepsNext, WritesNext};

use crate::keeping::{Journal, keep_log};
use mod_log::{Log, LogError};
use outside::{KeepError, Keeper};
use std::alloc::Global;
use std::marker::Model;
use store_image::ClientImage;
use vol_tree::{Effect, Effects, Tree};

/// A client of a server: its number, from 1 to 64, and its log.
#[derive(Drop)]
pub struct Client {
    pub(crate) number: u8,
    pub(crate) log: Log,
    /// What its last keeping left, where the next one may add to that.
    pub(crate) journal: Option<Journal>,
}

impl Model for Client {
    ghost use Rattle.client_core.specs.Client.{Client};
    ghost use Rattle.std.specs.Prelude.{◌≤◌};

    ghost Value = { Client };

    ghost view = { λ client. record { number = client.number; log = client.log; journal = client.journal } };

    ghost invariant = { λ client. (1 ≤ client.number) × (client.number ≤ 64) };
}

impl Client {
    /// A client that has logged nothing. It takes no memory.
    pub fn new(alloc: Global, number: u8) -> Client
        requires low { 1 ≤ number }
        requires high { number ≤ 64 }
        ensures { result ≡ record { number = number; log = new_log; journal = None } }
    {
        Client {
            number,
            log: Log::new(0, Tree::new(alloc)),
            journal: None,
        }
    }

    /// The client that an image tells. It takes no memory.
    pub fn from_image(image: ClientImage) -> Client
        requires low { 1 ≤ image.client }
        requires high { image.client ≤ 64 }
        ensures { result ≡ record { number = image.client; log = image.log; journal = None } }
    {
        Client {
            number: image.client,
            log: image.log,
            journal: None,
        }
    }

    /// The client's number.
    pub fn number(&self) -> u8
        ensures number { result ≡ self.now.number }
        ensures low { 1 ≤ self.now.number }
        ensures high { self.now.number ≤ 64 }
    {
        self.number
    }

    /// The client's log.
    pub fn log(&self) -> &Log
        ensures log { result.now ≡ self.now.log }
        ensures sound { IsLog self.now.log }
    {
        let _acked = self.log.acked();
        &self.log
    }

    /// Logs an effect as an entry of its own, and gives its number.
    ///
    /// # Errors
    ///
    /// The refusal of the log. The client is then as before.
    pub fn local(&mut self, effect: Effect) -> Result<u64, LogError>
        ensures ok { OnOk result (appended None (effect ∷ []) self.old.log ≡ Ok self.new.log) }
        ensures seq { IfOk result (λ seq. seq ≡ (local_entry (effect ∷ []) self.old.log).seq) }
        ensures err { IfErr result (λ e. e ≢ LogError.Memory → appended None (effect ∷ []) self.old.log ≡ Err e) }
        ensures unchanged { OnErr result (self.new ≡ self.old) }
        ensures number { self.new.number ≡ self.old.number }
        ensures log { IsLog self.new.log }
        ensures journal { self.new.journal ≡ self.old.journal }
        // where the client may go on under a name, it still may
        ensures ready { (images : Option Images) (name : List ℕ) → IsReady images name self.old → IsReady images name self.new }
    {
        let tree = self.log.tree();
        let mut effects = Effects::new(tree.allocator());
        effects.push(effect)?;
        self.local_all(effects)
    }

    /// Logs effects as one entry, which no command made, and gives its number.
    ///
    /// # Errors
    ///
    /// The refusal of the log. The client is then as before.
    pub fn local_all(&mut self, effects: Effects) -> Result<u64, LogError>
        requires some { effects ≢ [] }
        ensures ok { OnOk result (appended None effects self.old.log ≡ Ok self.new.log) }
        ensures seq { IfOk result (λ seq. seq ≡ (local_entry effects self.old.log).seq) }
        ensures err { IfErr result (λ e. e ≢ LogError.Memory → appended None effects self.old.log ≡ Err e) }
        ensures unchanged { OnErr result (self.new ≡ self.old) }
        ensures number { self.new.number ≡ self.old.number }
        ensures log { IsLog self.new.log }
        ensures journal { self.new.journal ≡ self.old.journal }
        // where the client may go on under a name, it still may
        ensures ready { (images : Option Images) (name : List ℕ) → IsReady images name self.old → IsReady images name self.new }
    {
        self.log.append(None, effects)
    }

    /// Keeps the client under a name. Where it can, it adds the entries that were logged since the last keeping to what stands
    /// there. It saves the whole image where no keeping of this value succeeded, since the last one failed or the base was
    /// replaced since then, and where the records would have more than 8,388,608 bytes.
    ///
    /// Over a keeper that tells its images, a client that adds finds under the name what its last keeping left, or bytes that
    /// are kept for the same log, without a torn tail.
    ///
    /// # Errors
    ///
    /// Those of the keeper. What was kept under the name still is, or the client is, or the client with some of the added
    /// entries, from the first on. The next keeping saves the whole image.
    pub fn keep<K: Keeper>(&mut self, name: &[u8], keeper: &mut K) -> Result<(), KeepError>
        requires { IsReady (K.images keeper.old) name.now self.old }
        ensures kept { Told (K.images keeper.old) (K.images keeper.new)
            (KeepsNext name.now self.old.number self.old.log (next_notes self.old.journal false self.old.log) result) }
        // where it is refused, the bytes are as they were, or whole, or a front of what it appends stands behind them
        ensures writes { Told (K.images keeper.old) (K.images keeper.new)
            (WritesNext name.now self.old.number self.old.log (next_notes self.old.journal false self.old.log) result) }
        ensures ready { IsReady (K.images keeper.new) name.now self.new }
        ensures cause { CountsFault KeepError.Failed (K.faults keeper.old) (K.faults keeper.new) result }
        ensures number { self.new.number ≡ self.old.number }
        ensures log { self.new.log ≡ self.old.log }
        ensures journal { self.new.journal
            ≡ journal_after self.old.journal (next_notes self.old.journal false self.old.log) self.old.log result }
    {
        let _acked = self.log.acked();
        keep_log(
            self.number,
            &self.log,
            &mut self.journal,
            false,
            name,
            keeper,
        )
    }
}
