// What takes bytes.
ghost use Rattle.std.specs.Prelude.{List, ℕ, Option, ◌<◌, ◌≤◌, length, take, IfOk, OnOk, OnErr};
ghost use Rattle.outside.specs.Outside.{Told, Writes, Adds, CountsFault};

use crate::SinkError;

/// Bytes that go out.
pub trait Sink {
    /// The bytes that were written, where the sink tells them.
    ghost written: { Self → Option (List ℕ) };

    /// How often the sink has failed.
    ghost faults: { Self → ℕ };

    /// Adds the first bytes of the piece, at least one, and says how many.
    ///
    /// # Errors
    ///
    /// `Failed` is counted. Either refusal adds nothing.
    fn write(&mut self, piece: &[u8]) -> Result<usize, SinkError>
        requires { 0 < length piece.now }
        ensures within { IfOk result (λ count. (0 < count) × (count ≤ length piece.now)) }
        ensures bytes { Told (written self.old) (written self.new) (λ old new. Writes old new piece.now result) }
        ensures cause { CountsFault SinkError.Failed (faults self.old) (faults self.new) result };
}

/// Writes the whole text.
///
/// # Errors
///
/// Those of the sink. A front of the text may have been written then.
pub fn write_all<O: Sink>(output: &mut O, text: &[u8]) -> Result<(), SinkError>
    ensures all { OnOk result (Adds (O.written output.old) (O.written output.new) text.now) }
    ensures front { OnErr result
        ((count : ℕ) × (count ≤ length text.now) × Adds (O.written output.old) (O.written output.new) (take count text.now)) }
    ensures cause { CountsFault SinkError.Failed (O.faults output.old) (O.faults output.new) result }
{
    let mut rest = text;
    while !rest.is_empty() {
        let count = output.write(rest)?;
        rest = &rest[count..];
    }
    Ok(())
}
