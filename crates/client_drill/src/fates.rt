// The fates that the asks of a drill meet.
ghost use Rattle.std.specs.Prelude.{◌≡◌, ◌≤◌, ◌+◌, ℕ, IfOk};
ghost use Rattle.client_drill.specs.Limits.{max_steps};
ghost use Rattle.client_drill.specs.Drill.{number_at, fate_by, fate_at, drill_fates};

use crate::numbers::{next, number_at};
use mem_net::Fate;
use std::alloc::{AllocError, Global};

/// The fates of a drill of so many steps: four for each, of which the last is to pass.
pub(crate) fn fates(alloc: Global, seed: u16, count: u32) -> Result<Vec<Fate>, AllocError>
    requires { count ≤ max_steps }
    ensures { IfOk result (λ fates. fates.items ≡ drill_fates seed count) }
{
    let mut fates = Vec::new(alloc);
    let mut x = number_at(seed, count + 1);
    for k in 0..4 * count {
        fates.push(fate_at(k, x))?;
        x = next(x);
    }
    Ok(fates)
}

/// Fate `k`, by its number.
fn fate_at(k: u32, x: u32) -> Fate
    ensures { (seed count : ℕ) → x ≡ number_at seed (count + 1 + k) → result ≡ fate_at seed count k }
{
    if k % 4 == 3 { Fate::Pass } else { fate_by(x) }
}

/// The fate by a number.
fn fate_by(x: u32) -> Fate
    ensures { result ≡ fate_by x }
{
    match x % 8 {
        0 => Fate::LoseRequest,
        1 => Fate::LoseReply,
        2 => Fate::Twice,
        _ => Fate::Pass,
    }
}
