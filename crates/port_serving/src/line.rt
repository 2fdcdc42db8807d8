// The line that ends a program's output.
ghost use Rattle.std.specs.Prelude.{◌≡◌, ◌≤◌, ℕ, IfOk, OnOk, OnErr, length, take};
ghost use Rattle.std.specs.String.{string_bytes};
ghost use Rattle.outside.specs.Outside.{Adds, CountsFault};
ghost use Rattle.port_serving.specs.Serving.{served_line};

use crate::Tally;
use outside::{Sink, SinkError, write_all};
use std::alloc::{AllocError, Global};

/// The line that ends the output.
#[tactic(auto, using(std::proofs::Common::append_assoc))]
fn last_line(alloc: Global, tally: Tally) -> Result<String, AllocError>
    ensures { IfOk result (λ line. string_bytes line ≡ served_line tally.frames tally.faults) }
{
    let (frames, faults) = (tally.frames, tally.faults);
    format!(in alloc; "served {frames} faults {faults}\n")
}

/// Writes the line that ends the output: how many frames were taken, and how many calls of the port failed.
///
/// # Errors
///
/// Those of the sink. A front of the line may have been written then.
pub fn write_last<O: Sink>(alloc: Global, tally: Tally, output: &mut O) -> Result<(), SinkError>
    ensures all { OnOk result (Adds (O.written output.old) (O.written output.new) (served_line tally.frames tally.faults)) }
    ensures front { OnErr result
        ((count : ℕ) × (count ≤ length (served_line tally.frames tally.faults)) × Adds (O.written output.old) (O.written output.new)
        (take count (served_line tally.frames tally.faults))) }
    ensures cause { CountsFault SinkError.Failed (O.faults output.old) (O.faults output.new) result }
{
    let line = match last_line(alloc, tally) {
        Ok(line) => line,
        Err(_refused) => return Err(SinkError::Memory),
    };
    write_all(output, line.as_bytes())
}
