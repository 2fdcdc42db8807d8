//! What holds of paths and contents and of their spellings: functions that do nothing, whose contracts are laws.

ghost use Rattle.std.specs.Prelude.{◌≡◌, ◌<◌, ◌^◌, ℕ, List, Ok};
ghost use Rattle.std.specs.List.{AllByRecursion};
ghost use Rattle.byte_fields.specs.Codec.{IsBytes, IsCodec};
ghost use Rattle.byte_fields.specs.Cuts.{IsCut};
ghost use Rattle.file_paths.specs.Path.{FilePath, IsPath, path_of, path_text};
ghost use Rattle.file_paths.specs.Spelling.{path, content, ContentFits};
ghost use Rattle.file_paths.specs.Reading.{path_at, content_at};
ghost use Rattle.file_paths.specs.Fields.{path_fields, content_fields};
ghost use Rattle.file_paths.specs.Broken.{BrokenTexts, BrokenLengths};

/// States that a text has at most one path, and that each path is that of its text.
pub fn paths_are_read_from_their_texts()
    ensures read { (text : List ℕ) (path : FilePath) → path_of text ≡ Ok path → IsPath path × (path_text path ≡ text) }
    ensures again { (path : FilePath) → IsPath path → path_of (path_text path) ≡ Ok path }
{}

/// States that each path and each content has one spelling, and each spelling one value.
pub fn paths_are_spelled_once()
    ensures paths { IsCodec path_at path IsPath }
    ensures contents { (limit : ℕ) → limit < 2 ^ 32 → IsCodec (content_at limit) content (ContentFits limit) }
{}

/// States that the names of a path are bytes, and that paths and contents are spelled in bytes.
pub fn paths_are_spelled_in_bytes()
    ensures names { (p : FilePath) → IsPath p → AllByRecursion IsBytes p }
    ensures paths { (p : FilePath) → IsPath p → IsBytes (path p) }
    ensures contents { (bytes : List ℕ) → IsBytes bytes → IsBytes (content bytes) }
{}

/// States that, where the bytes end inside a path or a content, the field in which they end is the faulty one.
pub fn paths_end_with_their_bytes()
    ensures paths { IsCut path_at path path_fields IsPath }
    ensures contents { (limit : ℕ) → limit < 2 ^ 32 → IsCut (content_at limit) content content_fields (ContentFits limit) }
{}

/// States at which field a path or a content that breaks a rule is refused, whatever stands before and behind it.
pub fn broken_paths_are_refused_at_their_field()
    ensures texts { BrokenTexts }
    ensures lengths { BrokenLengths }
{}
