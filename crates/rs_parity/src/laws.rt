//! Laws of code words and sketches, each as the contract of a function that does nothing.

ghost use Rattle.std.specs.Prelude.{ℕ};
ghost use Rattle.byte_fields.specs.Cuts.{IsCut};
ghost use Rattle.rs_parity.specs.Weight.{CodeWordsAreApart};
ghost use Rattle.rs_parity.specs.Blocks.{OneParity};
ghost use Rattle.rs_parity.specs.Sketches.{OneSketch};
ghost use Rattle.rs_parity.specs.Spelling.{sketch_spelling, SketchFits, sketch_at, OneSpelling, SketchesFit};
ghost use Rattle.rs_parity.specs.Fields.{sketch_fields};
ghost use Rattle.rs_parity.specs.Broken.{BrokenSketches};

/// Different code words of one length differ in at least 33 symbols.
pub fn code_words_are_apart()
    ensures { CodeWordsAreApart }
{}

/// A block has one parity.
pub fn one_parity()
    ensures { OneParity }
{}

/// A content has one sketch.
pub fn one_sketch()
    ensures { OneSketch }
{}

/// A sketch has one spelling, and a spelling one sketch.
pub fn one_spelling()
    ensures { OneSpelling }
{}

/// The sketch of a content of at most 8,388,608 bytes has a spelling.
pub fn sketches_fit()
    ensures { SketchesFit }
{}

/// Where the bytes end inside a sketch, the field in which they end is the faulty one.
pub fn sketches_end_with_their_bytes()
    ensures { (room : ℕ) → IsCut (sketch_at room) sketch_spelling sketch_fields (SketchFits room) }
{}

/// At which field a sketch that breaks a rule is refused, whatever stands before and behind it.
pub fn broken_sketches_are_refused_at_their_field()
    ensures { BrokenSketches }
{}
