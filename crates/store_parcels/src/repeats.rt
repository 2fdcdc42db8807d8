//! Stores that are sent once more.

ghost use Rattle.std.specs.Prelude.{◌≡◌};
ghost use Rattle.store_parcels.specs.Repeats.{is_taken, taken_upto};

use crate::front::NamedStore;
use wire_frames::MAX_PARTS;

impl NamedStore {
    /// The number of the store's last entry, where the last accepted number of its client says that all are taken. Such a store is
    /// accepted without a look at its contents, and its parcel may not open any more.
    pub fn taken_upto(self, last: u64) -> Option<u64>
        ensures { result ≡ taken_upto self last }
    {
        if !self.is_taken(last) {
            return None;
        }
        Some(self.number + (self.entries as u64 - 1))
    }

    /// Whether all entries are taken, where the last one that is taken of the client has this number.
    fn is_taken(self, last: u64) -> bool
        ensures { result ≡ is_taken self last }
    {
        let upto = self.number as u128 + self.entries as u128;
        self.number >= 1
            && self.entries >= 1
            && self.entries <= MAX_PARTS as u8
            && upto <= last as u128 + 1
    }
}
