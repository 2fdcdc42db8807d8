// Paths as words.
ghost use Rattle.std.specs.Prelude.{◌≡◌, ◌==◌, is_ok, length, not, position};
ghost use Rattle.std.specs.List.{slice_split};
ghost use Rattle.file_paths.specs.Path.{is_name as name_test, path_of};

use file_paths::{MAX_DEPTH, MAX_TEXT, is_name};

/// Whether a word is the text of a path: one that `Path::read` refuses for want of memory alone. It takes no memory.
pub fn is_path_text(word: &[u8]) -> bool
    ensures { result ≡ is_ok (path_of word.now) }
{
    if word.is_empty() {
        return true;
    }
    if first_bad(word).is_some() {
        return false;
    }
    if pieces_count(word) > MAX_DEPTH {
        return false;
    }
    word.len() <= MAX_TEXT
}

/// The first piece between the slashes that is no name.
fn first_bad(text: &[u8]) -> Option<usize>
    ensures { result ≡ position (λ piece. not (name_test piece)) (slice_split (λ b. b == 47) text.now) }
{
    text.split(|byte| *byte == b'/')
        .position(|piece| !is_name(piece))
}

/// How many pieces there are between the slashes.
fn pieces_count(text: &[u8]) -> usize
    ensures { result ≡ length (slice_split (λ b. b == 47) text.now) }
{
    text.split(|byte| *byte == b'/').count()
}
