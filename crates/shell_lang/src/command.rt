//! What a line of words asks for.

ghost use Rattle.std.specs.Prelude.{◌≡◌, IfOk};
ghost use Rattle.shell_lang.specs.Words.{GivesLine};
ghost use Rattle.shell_lang.specs.Commands.{command_word, command_of, line_of, line_of_words, read_line, put_content};

use crate::line::{Line, LineError};
use crate::words::split_words;
use byte_fields::saturate_u32;
use cmd_capture::Words;
use std::alloc::{AllocError, Global};
use vol_tree::{Content, TryCopy};

/// What the first word of a line names.
#[derive(Copy, Clone, Drop)]
pub(crate) enum Verb {
    Put,
    Make,
    Remove,
    Move,
    Cat,
    List,
    Enter,
    Run,
    Status,
    Sync,
    Pull,
    Quit,
}

/// All commands that a line may name.
const COMMANDS: [Verb; 12] = [
    Verb::Put,
    Verb::Make,
    Verb::Remove,
    Verb::Move,
    Verb::Cat,
    Verb::List,
    Verb::Enter,
    Verb::Run,
    Verb::Status,
    Verb::Sync,
    Verb::Pull,
    Verb::Quit,
];

impl Verb {
    /// The word that names the command.
    fn word(self) -> &'static [u8]
        ensures { result.now ≡ command_word self }
    {
        match self {
            Verb::Put => b"put",
            Verb::Make => b"mkdir",
            Verb::Remove => b"rm",
            Verb::Move => b"mv",
            Verb::Cat => b"cat",
            Verb::List => b"ls",
            Verb::Enter => b"cd",
            Verb::Run => b"run",
            Verb::Status => b"status",
            Verb::Sync => b"sync",
            Verb::Pull => b"pull",
            Verb::Quit => b"quit",
        }
    }
}

/// Reads a line, without its end.
///
/// # Errors
///
/// The first word from the left that breaks the rule of words, then a first word that names no command, then a wrong
/// number of words behind it; want of memory at any time.
pub fn read_line(alloc: Global, line: &[u8]) -> Result<Line, LineError>
    ensures { GivesLine result (read_line line.now) }
{
    if line.is_empty() {
        return Ok(Line::Empty);
    }
    let words = split_words(alloc, line)?;
    line_of_words(alloc, words.as_slice())
}

/// The content of a file that is put: the text and a line end.
///
/// # Errors
///
/// Want of memory.
pub fn put_content(alloc: Global, text: &Content) -> Result<Content, AllocError>
    ensures { IfOk result (λ content. content ≡ put_content text.now) }
{
    let text = text.bytes();
    let mut bytes = Vec::new(alloc);
    bytes.reserve_exact(text.len().saturating_add(1))?;
    bytes.extend_from_slice(text)?;
    bytes.push(b'\n')?;
    Content::from_vec(bytes)
}

/// What these words ask for, the first of which names the command.
fn line_of_words(alloc: Global, words: &[Content]) -> Result<Line, LineError>
    ensures { GivesLine result (line_of_words words.now) }
{
    let [first, rest @ ..] = words else {
        return Ok(Line::Empty);
    };
    let Some(command) = command_of(first.bytes()) else {
        return Err(LineError::UnknownWord);
    };
    line_of(alloc, command, rest)
}

/// The command that the word names.
fn command_of(word: &[u8]) -> Option<Verb>
    ensures { result ≡ command_of word.now }
{
    COMMANDS
        .iter()
        .copied()
        .find(|command| word == command.word())
}

/// What the command asks for with these words.
fn line_of(alloc: Global, command: Verb, words: &[Content]) -> Result<Line, LineError>
    ensures { GivesLine result (line_of command words.now) }
{
    match (command, words) {
        (Verb::Put, [path, text]) => Ok(Line::Put(path.copy()?, text.copy()?)),
        (Verb::Make, [path]) => Ok(Line::Make(path.copy()?)),
        (Verb::Remove, [path]) => Ok(Line::Remove(path.copy()?)),
        (Verb::Move, [from, to]) => Ok(Line::Move(from.copy()?, to.copy()?)),
        (Verb::Cat, [path]) => Ok(Line::Cat(path.copy()?)),
        (Verb::List, []) => Ok(Line::List(None)),
        (Verb::List, [path]) => Ok(Line::List(Some(path.copy()?))),
        (Verb::Enter, [path]) => Ok(Line::Enter(path.copy()?)),
        (Verb::Run, words) => Ok(Line::Run(copies_of(alloc, words)?)),
        (Verb::Status, []) => Ok(Line::Status),
        (Verb::Sync, []) => Ok(Line::Sync),
        (Verb::Pull, []) => Ok(Line::Pull),
        (Verb::Quit, []) => Ok(Line::Quit),
        _ => Err(LineError::WrongCount(saturate_u32(words.len()))),
    }
}

/// Copies of the words.
fn copies_of(alloc: Global, words: &[Content]) -> Result<Words, AllocError>
    ensures { IfOk result (λ copied. copied ≡ words.now) }
{
    let mut copied = Words::new(alloc);
    for word in words {
        copied.push(word.copy()?)?;
    }
    Ok(copied)
}
