//! Asks over a link without replies. The link ends in the function that made it, so that the tests hold small values alone.
ghost use Rattle.std.specs.Prelude.{None};

use std::rt::HostRuntime;
use std::test::Fail;
use world_rules::{AskError, Link, LinkError, Peer, ask_eight};

/// A link over which no reply ever comes, and in one ask there is no memory.
#[derive(Drop)]
struct Dead {
    asks: u64,
    without_memory: u64,
    troubles: u64,
}

impl Link for Dead {
    ghost tells = { λ link. record { world = None; troubles = link.troubles } };

    ghost keeps = { λ _ _. Unit {0} };

    ghost keeps_none = { λ _. tt };

    ghost keeps_then = { λ _ _ _ _ _. tt };

    fn ask(&mut self, _to: Peer, _address: &[u8], _frame: &[u8]) -> Result<Vec<u8>, LinkError> {
        self.asks = self.asks.saturating_add(1);
        if self.asks == self.without_memory {
            return Err(LinkError::Memory);
        }
        self.troubles = self.troubles.saturating_add(1);
        Err(LinkError::Failed)
    }
}

/// Client 1 asks for all rows, and knows of no accepted entry.
const PULL: [u8; 15] = [0, 0, 0, 11, 3, 3, 1, 0, 0, 0, 0, 0, 0, 0, 0];

/// Why no reply comes over a link one ask of which finds no memory, and how many asks and troubles there are.
fn asked(without_memory: u64) -> (Option<AskError>, u64, u64) {
    let mut link = Dead {
        asks: 0,
        without_memory,
        troubles: 0,
    };
    let answer = ask_eight(&mut link, Peer::Server, b"server", &PULL);
    let error = match &answer {
        Ok(_) => None,
        Err(error) => Some(*error),
    };
    drop(answer);
    (error, link.asks, link.troubles)
}

#[test]
fn eight_asks_are_made(rt: HostRuntime) -> Result<(), Fail> {
    assert!(rt; asked(9) == (Some(AskError::Troubles), 8, 8));
    Ok(())
}

#[test]
fn want_of_memory_ends_the_asking(rt: HostRuntime) -> Result<(), Fail> {
    assert!(rt; asked(3) == (Some(AskError::Memory), 3, 2));
    Ok(())
}
