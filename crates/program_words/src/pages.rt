// The pages that words may ask for.
ghost use Rattle.std.specs.Prelude.{◌≡◌, ◌⊎◌, ◌↔◌, None, IfSome, map};
ghost use Rattle.std.specs.String.{string_bytes};
ghost use Rattle.outside.specs.Outside.{RisesWhere};
ghost use Rattle.program_words.specs.Status.{code};
ghost use Rattle.program_words.specs.Pages.{page_of, page_asked, page_text, Shows};

use crate::Status;
use outside::{Sink, SinkError, write_all};

/// A text about a program that its words may ask for.
#[derive(Clone, Copy, Debug, PartialEq, Eq)]
pub enum Page {
    /// How the program is used.
    Help,
    /// Which version it is.
    Version,
}

/// The texts of a program's pages.
#[derive(Clone, Copy, Debug)]
pub struct Pages {
    pub help: &'static str,
    pub version: &'static str,
}

impl Pages {
    /// The text of a page.
    pub fn text(&self, page: Page) -> &'static str
        ensures { result.now ≡ page_text self.now page }
    {
        match page {
            Page::Help => self.help,
            Page::Version => self.version,
        }
    }
}

/// The page that the words ask for: by `--help` or `--version`, as the only word.
pub fn page_asked(words: &[String]) -> Option<Page>
    ensures { result ≡ page_asked (map string_bytes words.now) }
{
    match words {
        [word] => page_of(word.as_str()),
        _ => None,
    }
}

fn page_of(word: &str) -> Option<Page>
    ensures { result ≡ page_of word.now }
{
    match word {
        "--help" => Some(Page::Help),
        "--version" => Some(Page::Version),
        _ => None,
    }
}

/// Writes a text, and says how that ended.
pub fn show<O: Sink>(output: &mut O, text: &str) -> Status
    ensures shows { Shows result text.now (O.written output.old) (O.written output.new) }
    ensures known { (code result ≡ 0) ⊎ ((code result ≡ 4) ⊎ (code result ≡ 7)) }
    ensures cause { RisesWhere (code result ≡ 4) (O.faults output.old) (O.faults output.new) }
{
    match write_all(output, text.as_bytes()) {
        Ok(()) => Status::Done,
        Err(SinkError::Failed) => Status::SinkFailed,
        Err(SinkError::Memory) => Status::NoMemory,
    }
}

/// Shows the page that the words ask for, and says how that ended; `None` where they ask for none.
pub fn page_shown<O: Sink>(pages: &Pages, words: &[String], output: &mut O) -> Option<Status>
    ensures asked { result ≡ None ↔ page_asked (map string_bytes words.now) ≡ None }
    ensures shows { IfSome result (λ status. IfSome (page_asked (map string_bytes words.now))
        (λ page. Shows status (page_text pages.now page) (O.written output.old) (O.written output.new))) }
    ensures known { IfSome result (λ status. (code status ≡ 0) ⊎ ((code status ≡ 4) ⊎ (code status ≡ 7))) }
    ensures cause { IfSome result (λ status. RisesWhere (code status ≡ 4) (O.faults output.old) (O.faults output.new)) }
    ensures untouched { result ≡ None → (O.written output.new ≡ O.written output.old) × (O.faults output.new ≡ O.faults output.old) }
{
    match page_asked(words) {
        Some(page) => Some(show(output, pages.text(page))),
        None => None,
    }
}
