// Addresses that are remembered.
ghost use Rattle.std.specs.Prelude.{◌≡◌, ◌⊎◌, []};
ghost use Rattle.real_edge.specs.Addresses.{is_among, with_address, without_address};

use std::alloc::Global;
use std::marker::Model;
use vol_tree::Content;

/// The most addresses that are remembered. Past it the oldest one goes.
const MOST_REMEMBERED: usize = 8;

/// A few addresses, each once, the oldest first. Contracts see the list of their texts.
#[derive(Drop)]
pub(crate) struct Addresses {
    alloc: Global,
    texts: Vec<Content>,
}

impl Model for Addresses {
    ghost use Rattle.std.specs.Prelude.{ℕ, List};

    ghost Value = { List (List ℕ) };

    ghost view = { λ addresses. addresses.texts.items };
}

impl Addresses {
    /// No address. It takes no memory.
    pub(crate) fn new(alloc: Global) -> Addresses
        ensures { result ≡ [] }
    {
        Addresses {
            alloc,
            texts: Vec::new(alloc),
        }
    }

    /// Whether the address is remembered.
    pub(crate) fn contains(&self, address: &[u8]) -> bool
        ensures { result ≡ is_among address.now self.now }
    {
        self.texts.iter().any(|text| text.bytes() == address)
    }

    /// Remembers the address. Where memory for that is wanted, all is as before.
    pub(crate) fn remember(&mut self, address: &[u8])
        ensures { (self.new ≡ with_address address.now self.old) ⊎ (self.new ≡ self.old) }
    {
        if self.contains(address) {
            return;
        }
        let Ok(text) = Content::of(self.alloc, address) else {
            return;
        };
        if self.texts.push(text).is_ok() && self.texts.len() > MOST_REMEMBERED {
            drop(self.texts.remove(0));
        }
    }

    /// Forgets the address.
    pub(crate) fn forget(&mut self, address: &[u8])
        ensures { self.new ≡ without_address address.now self.old }
    {
        self.texts.retain(|text| text.bytes() != address);
    }
}
