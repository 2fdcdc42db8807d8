// Opening what is kept of a client.
ghost use Rattle.std.specs.Prelude.{◌≡◌, ◌≤◌, None, Err, IfOk};
ghost use Rattle.outside.specs.Outside.{CountsFault};
ghost use Rattle.mod_log.specs.Log.{Log};
ghost use Rattle.wire_frames.specs.Limits.{max_client};
ghost use Rattle.client_core.specs.Keeping.{IsKept, TellsKept};
ghost use Rattle.client_lines.specs.Opening.{OpensBytes, unopened_by};

use client_core::Client;
use outside::{KeepError, Keeper};
use std::alloc::Global;
use store_image::{ImageError, read_client};

/// Why a run has no client to begin with.
#[derive(Clone, Copy, Debug, PartialEq, Eq)]
pub enum Unopened {
    /// The keeper failed.
    Keeper,
    /// What is kept is no client's image, or another client's.
    Image,
    /// Memory ran out.
    Memory,
}

/// The client that is kept under a name; where nothing is kept, a new one.
pub fn open<K: Keeper>(
    alloc: Global,
    number: u8,
    name: &[u8],
    keeper: &mut K,
) -> Result<Client, Unopened>
    requires low { 1 ≤ number }
    requires high { number ≤ max_client }
    ensures number { IfOk result (λ client. client.number ≡ number) }
    ensures kept { IfOk result (λ client. IsKept (K.images keeper.old) name.now number client.log) }
    // its first keeping saves the whole image
    ensures journal { IfOk result (λ client. client.journal ≡ None) }
    ensures only { (start : Log) → TellsKept (K.images keeper.old) name.now number start → IfOk result (λ client. client.log ≡ start) }
    ensures image { result ≡ Err Unopened.Image → (start : Log) → TellsKept (K.images keeper.old) name.now number start → ⊥ }
    ensures same { K.images keeper.new ≡ K.images keeper.old }
    ensures cause { CountsFault Unopened.Keeper (K.faults keeper.old) (K.faults keeper.new) result }
{
    match keeper.load(name) {
        Ok(None) => Ok(Client::new(alloc, number)),
        Ok(Some(bytes)) => opened(alloc, number, &bytes),
        Err(refused) => Err(unopened_by(refused)),
    }
}

/// The client of this number that bytes are kept for.
pub fn opened(alloc: Global, number: u8, bytes: &[u8]) -> Result<Client, Unopened>
    requires low { 1 ≤ number }
    requires high { number ≤ max_client }
    ensures { OpensBytes number bytes.now result }
{
    match read_client(alloc, bytes) {
        Ok(image) if image.client == number => Ok(Client::from_image(image)),
        Ok(other) => {
            drop(other);
            Err(Unopened::Image)
        }
        Err(ImageError::WrongKind) => Err(Unopened::Image),
        Err(ImageError::BadImage(_)) => Err(Unopened::Image),
        Err(ImageError::Memory) => Err(Unopened::Memory),
    }
}

/// Why nothing was opened where a load was refused.
fn unopened_by(refused: KeepError) -> Unopened
    ensures { result ≡ unopened_by refused }
{
    match refused {
        KeepError::Failed => Unopened::Keeper,
        KeepError::Memory => Unopened::Memory,
    }
}
