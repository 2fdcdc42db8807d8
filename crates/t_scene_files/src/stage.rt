// What scenes are played on.

use crate::fault::Fault;
use crate::report::Report;

/// A line of a scene with the block behind it.
#[derive(Clone, Copy)]
pub struct Line<'a> {
    /// The line, cut at each space.
    pub words: &'a [&'a str],
    /// The first word, and all that stands behind it.
    pub first: &'a str,
    pub rest: &'a str,
    pub block: &'a [u8],
}

/// What scenes of one kind are played on, and the lines that they have.
pub trait Stage {
    /// All is as in the beginning of a scene.
    fn begin(&mut self);

    /// Whether a block may stand behind a line of these words.
    fn takes_block(&self, words: &[&str]) -> bool;

    /// Does what the line says. What is looked at and is otherwise than wanted goes into the report.
    ///
    /// # Errors
    ///
    /// The line is none of the language, cannot be followed there, or memory ran out.
    fn follow(&mut self, report: &mut Report, line: Line<'_>) -> Result<(), Fault>;

    /// Whether all that was answered was looked at.
    fn is_looked_at(&self) -> bool;

    /// Whether all that was prepared was met.
    fn is_met(&self) -> bool {
        true
    }
}
