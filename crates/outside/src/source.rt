// What gives bytes.
ghost use Rattle.std.specs.Prelude.{List, ℕ, Option, ◌<◌, ◌≤◌, length, IfOk};
ghost use Rattle.outside.specs.Outside.{Told, Reads, CountsFault};

use crate::Failed;

/// How many bytes of an input are read at once.
pub const INPUT_PIECE: usize = 65_536;

/// Bytes that come in.
pub trait Source {
    /// The bytes that are left, where the source tells them.
    ghost left: { Self → Option (List ℕ) };

    /// How often the source has failed.
    ghost faults: { Self → ℕ };

    /// Takes the first bytes left into the front of the buffer, and says how many. `Ok(0)` is the end of the input.
    ///
    /// # Errors
    ///
    /// `Failed` takes nothing, and is counted.
    fn read(&mut self, buf: &mut [u8]) -> Result<usize, Failed>
        requires { 0 < length buf.old }
        ensures within { IfOk result (λ count. count ≤ length buf.old) }
        ensures bytes { Told (left self.old) (left self.new) (λ old new. Reads old new buf.new result) }
        ensures cause { CountsFault (record {}) (faults self.old) (faults self.new) result };
}
