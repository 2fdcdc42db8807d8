//! Laws of the definitions.

ghost use Rattle.shell_lang.specs.Commands.{OnlyQuitQuits};
ghost use Rattle.shell_lang.specs.Lines.{JoinedPartsAreTheInput, PartsAreOneLineEach, JoinedLinesAreFound, EndedLinesAreFound};
ghost use Rattle.shell_lang.specs.Lines.{PiecesAreCutAlike};
ghost use Rattle.shell_lang.specs.Reading.{ReadIsSpelled};
ghost use Rattle.shell_lang.specs.Refusing.{FrontIsRead, OpenIsRefused, FollowedIsRefused, BareIsRefused};
ghost use Rattle.shell_lang.specs.Spelling.{SpelledIsRead, HasOneReading};

/// Law: a line that spells words reads as these words.
pub fn spelled_words_are_read()
    ensures { SpelledIsRead }
{}

/// Law: whatever reads as words spells them.
pub fn read_words_are_spelled()
    ensures { ReadIsSpelled }
{}

/// Law: a line spells no more than one list of words.
pub fn lines_have_one_reading()
    ensures { HasOneReading }
{}

/// Law: where a line breaks the rule of words: behind which words, by an open quote, by a byte behind a closed one, by
/// an empty word or a quote in a bare one.
pub fn bad_words_are_refused()
    ensures front { FrontIsRead }
    ensures unclosed { OpenIsRefused }
    ensures followed { FollowedIsRefused }
    ensures bare { BareIsRefused }
{}

/// Law: a line asks for the end of the session exactly where it is the word `quit`, as it is or between quotes.
pub fn only_quit_quits()
    ensures { OnlyQuitQuits }
{}

/// Law: an input is its parts, joined by line ends. No part has one inside, and there is no other such cut. And lines that are each given
/// a line end are its lines.
pub fn inputs_are_cut_at_line_ends()
    ensures joined { JoinedPartsAreTheInput }
    ensures alone { PartsAreOneLineEach }
    ensures only { JoinedLinesAreFound }
    ensures ended { EndedLinesAreFound }
{}

/// Law: the lines do not depend on the pieces in which an input comes.
pub fn inputs_are_cut_alike_in_pieces()
    ensures { PiecesAreCutAlike }
{}
