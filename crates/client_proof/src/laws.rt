//! What holds of roots as words, as a law: a function that does nothing, whose contract it is.

ghost use Rattle.client_proof.specs.Words.{RootsAreWritten};

/// Law: a word tells a root of 32 bytes exactly where it is their digits in lower case.
pub fn roots_are_written()
    ensures { RootsAreWritten }
{}
