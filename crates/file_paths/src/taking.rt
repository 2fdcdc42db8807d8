//! Taking paths and contents from the bytes that spell them, with the place of the first faulty field.

ghost use Rattle.byte_fields.specs.Field.{Gives};
ghost use Rattle.file_paths.specs.Limits.{max_file};
ghost use Rattle.file_paths.specs.Reading.{path_at, content_at};

use crate::content::{Content, MAX_FILE};
use crate::path::{Path, PathError};
use byte_fields::{TakeError, span_at, u16_at, u32_at};
use std::alloc::Global;

impl Path {
    /// Takes the path at the place, and gives the place after it.
    ///
    /// Refuses `At` where the bytes end in one of the two fields, or where the text spells no path.
    #[tactic(auto, unfolding(crate::specs::Reading::path_at, byte_fields::specs::Field::mapped))]
    pub fn take(alloc: Global, bytes: &[u8], at: usize) -> Result<(Path, usize), TakeError>
        ensures { Gives result (path_at bytes.now at) }
    {
        let (size, start) = u16_at(bytes, at)?;
        let (text, next) = span_at(bytes, start, size as usize)?;
        match Path::read(alloc, text) {
            Ok(path) => Ok((path, next)),
            Err(PathError::Memory) => Err(TakeError::Memory),
            Err(_) => Err(TakeError::At(start)),
        }
    }
}

impl Content {
    /// Takes the content of at most so many bytes at the place, and gives the place after it.
    ///
    /// Refuses `At` at a length above the limit before it looks at the content.
    #[tactic(auto, unfolding(crate::specs::Reading::content_at, byte_fields::specs::Field::ruled))]
    pub fn take_within(
        alloc: Global,
        bytes: &[u8],
        at: usize,
        limit: usize,
    ) -> Result<(Content, usize), TakeError>
        ensures { Gives result (content_at limit bytes.now at) }
    {
        let (size, start) = u32_at(bytes, at)?;
        let size = size as usize;
        if size > limit {
            return Err(TakeError::At(at));
        }
        let (content, next) = span_at(bytes, start, size)?;
        Ok((Content::of(alloc, content)?, next))
    }

    /// Takes the content of a file at the place, and gives the place after it.
    ///
    /// Refuses as `take_within` does, above 8 MiB.
    pub fn take(alloc: Global, bytes: &[u8], at: usize) -> Result<(Content, usize), TakeError>
        ensures { Gives result (content_at max_file bytes.now at) }
    {
        Content::take_within(alloc, bytes, at, MAX_FILE)
    }
}
