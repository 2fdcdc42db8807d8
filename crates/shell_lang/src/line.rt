//! What a line asks for, and why it is refused.

ghost use Rattle.std.specs.Prelude.{◌≡◌};
ghost use Rattle.shell_lang.specs.declared.line.LineError.TheVariants.{Memory};

use cmd_capture::Words;
use std::alloc::AllocError;
use thiserror::Error;
use vol_tree::Content;

/// Why a line is refused. A number that is too great for its type stands as the greatest.
#[derive(Debug, Drop, Error)]
pub enum LineError {
    /// This word, counted from 0, breaks the rule of words.
    #[error("word {0} breaks the rule of words")]
    BadWord(u32),
    /// A word begins with a quote, and no other quote closes it.
    #[error("a quoted word is not closed")]
    OpenQuote,
    /// The first word names no command.
    #[error("no such command")]
    UnknownWord,
    /// So many words follow the command, which takes another number.
    #[error("{0} words follow the command")]
    WrongCount(u32),
    #[error("out of memory")]
    Memory,
}

impl From<AllocError> for LineError {
    ghost from_gives = { λ _ e. e ≡ Memory };

    fn from(_: AllocError) -> LineError {
        LineError::Memory
    }
}

/// What a line asks for. Paths are the words as they stand in the line.
#[derive(Debug, Drop)]
pub enum Line {
    /// Nothing.
    Empty,
    /// A file at this path, with this text as its only line.
    Put(Content, Content),
    /// A folder at this path.
    Make(Content),
    /// Nothing at this path.
    Remove(Content),
    /// What stands at the first path, at the second.
    Move(Content, Content),
    /// The content of the file at this path.
    Cat(Content),
    /// What stands in the folder at this path, or in the current folder.
    List(Option<Content>),
    /// The folder at this path as the current folder.
    Enter(Content),
    /// The run of the command that these words make.
    Run(Words),
    /// How far the log is acknowledged.
    Status,
    /// What is logged is to be sent to the server.
    Sync,
    /// What the server has is to be the client's base, where nothing is pending.
    Pull,
    /// The end of the session.
    Quit,
}
