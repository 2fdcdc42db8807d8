// Readers and writers that tell their bytes always, or never.
ghost use Rattle.std.specs.Prelude.{◌≡◌, None, refl};
ghost use Rattle.std.proofs.Common.{sym};
ghost use Rattle.std.proofs.lemmas.Option.{none-some};

use crate::prompting::{Noting, Prompting};
use std::io::{Printer, Read, StdinLock, Write};

/// A reader that tells contracts its bytes in each of its states, or in none. A contract of `Read` speaks of what is told alone: where
/// a reader told none before a call, it could tell any bytes after it.
pub trait SteadyRead: Read {
    /// Where it tells none in one state it tells none in any.
    ghost steady: { (one other : Self) → Self.remaining one ≡ None → Self.remaining other ≡ None };
}

/// A writer that tells contracts what it holds in each of its states, or in none.
pub trait SteadyWrite: Write {
    /// Where it tells none in one state it tells none in any.
    ghost steady: { (one other : Self) → Self.contents one ≡ None → Self.contents other ≡ None };
}

impl SteadyRead for &[u8] {
    ghost steady = { λ one other none. absurd (none-some _ (sym none)) };
}

impl SteadyWrite for Vec<u8> {
    ghost steady = { λ one other none. absurd (none-some _ (sym none)) };
}

/// Standard input tells none.
impl SteadyRead for StdinLock<'_> {
    ghost steady = { λ _ _ _. refl };
}

impl<'a, P: Eprint, R: SteadyRead + Drop> SteadyRead for Prompting<'a, P, R> {
    ghost steady = { λ one other none. R.steady one.reader other.reader none };
}

/// Standard output tells none.
impl<'a, P: Print> SteadyWrite for Noting<'a, P> {
    ghost steady = { λ _ _ _. refl };
}

/// Nor does what is written to it alone.
impl<P: Print> SteadyWrite for Printer<'_, P> {
    ghost steady = { λ _ _ _. refl };
}
