// Asks of one request that got no reply.
use crate::missed::{Missed, ToldMiss};
use std::alloc::Global;
use vol_tree::Content;
use world_rules::Peer;

/// The asks at one address that got no reply.
#[derive(Drop)]
struct Miss {
    address: Content,
    /// The address, and why the last of them got none, for people.
    reason: String,
    tries: u32,
}

/// The asks of one request that got no reply, address by address.
#[derive(Drop)]
pub(crate) struct Misses {
    alloc: Global,
    list: Vec<Miss>,
}

impl Misses {
    /// No ask yet.
    pub(crate) fn new(alloc: Global) -> Misses {
        Misses {
            alloc,
            list: Vec::new(alloc),
        }
    }

    /// Forgets all of them.
    pub(crate) fn clear(&mut self) {
        self.list.clear();
    }

    /// Takes note of one. Where memory for it is wanted, nothing is told of its address.
    pub(crate) fn note(&mut self, to: Peer, address: &[u8], missed: &Missed) {
        let told = ToldMiss {
            to,
            address,
            missed,
        };
        let Ok(reason) = format!(in self.alloc; "{told}") else {
            return;
        };
        for miss in &mut self.list {
            if miss.address.bytes() == address {
                miss.reason = reason;
                miss.tries = miss.tries.saturating_add(1);
                return;
            }
        }
        self.add(address, reason);
    }

    /// Adds the first one of an address.
    fn add(&mut self, address: &[u8], reason: String) {
        match Content::of(self.alloc, address) {
            Ok(address) => {
                let _added = self.list.push(Miss {
                    address,
                    reason,
                    tries: 1,
                });
            }
            Err(_) => drop(reason),
        }
    }

    /// Tells them on standard error: a line for each address, which begins with the program's name.
    pub(crate) fn tell<R: Eprint>(&self, rt: &R, program: &str) {
        for miss in &self.list {
            let (reason, tries) = (miss.reason.as_str(), miss.tries);
            let _ = if tries == 1 {
                eprintln!(rt; "{program}: {reason}")
            } else {
                eprintln!(rt; "{program}: {reason} ({tries} tries)")
            };
        }
    }
}
