// Which lines there are.

use t_scene_files::Fault;

/// What is wrong with a line whose first word is one of a line, and whose others are not.
pub(crate) const OTHER_WORDS: Fault = Fault::Line("this line has other words");

/// What network and keeper are to meet: these lines stand before the first run.
#[derive(Clone, Copy)]
pub(crate) enum Before {
    Fate,
    Keep,
    Keeper,
    Surrogate,
}

/// What the next program is to meet.
#[derive(Clone, Copy)]
pub(crate) enum Next {
    Source,
    Sink,
    Port,
    Connection,
    Liar,
    Runner,
    File,
    Program,
    Folder,
    Folders,
}

/// What is done.
#[derive(Clone, Copy)]
pub(crate) enum Act {
    Run,
    Ship,
    Client,
    Node,
    Serve,
    Ask,
    Operate,
    Again,
    Forget,
}

/// What is wanted of the last act.
#[derive(Clone, Copy)]
pub(crate) enum Came {
    Ends,
    Replies,
    Fails,
    Answer,
    Unanswered,
    Copies,
}

/// What is wanted of what is kept, and of the server.
#[derive(Clone, Copy)]
pub(crate) enum Stands {
    Kept,
    Unkept,
    Holds,
    Last,
}

/// What is wanted of the network and its packets.
#[derive(Clone, Copy)]
pub(crate) enum Passed {
    Leaves,
    Sent,
    Frames,
    Packet,
    Length,
    Troubles,
    Tries,
}

/// What a line is, by its first word.
#[derive(Clone, Copy)]
pub(crate) enum Verb {
    Before(Before),
    Next(Next),
    Act(Act),
    Came(Came),
    Stands(Stands),
    Passed(Passed),
    /// Something that was prepared is wanted not to have been met.
    Unmet,
}

/// The first word of each line.
const VERBS: [(&str, Verb); 41] = [
    ("fate", Verb::Before(Before::Fate)),
    ("keep", Verb::Before(Before::Keep)),
    ("keeper", Verb::Before(Before::Keeper)),
    ("surrogate", Verb::Before(Before::Surrogate)),
    ("source", Verb::Next(Next::Source)),
    ("sink", Verb::Next(Next::Sink)),
    ("port", Verb::Next(Next::Port)),
    ("connection", Verb::Next(Next::Connection)),
    ("liar", Verb::Next(Next::Liar)),
    ("runner", Verb::Next(Next::Runner)),
    ("file", Verb::Next(Next::File)),
    ("program", Verb::Next(Next::Program)),
    ("folder", Verb::Next(Next::Folder)),
    ("folders", Verb::Next(Next::Folders)),
    ("run", Verb::Act(Act::Run)),
    ("ship", Verb::Act(Act::Ship)),
    ("client", Verb::Act(Act::Client)),
    ("node", Verb::Act(Act::Node)),
    ("serve", Verb::Act(Act::Serve)),
    ("ask", Verb::Act(Act::Ask)),
    ("operate", Verb::Act(Act::Operate)),
    ("again", Verb::Act(Act::Again)),
    ("forget", Verb::Act(Act::Forget)),
    ("ends", Verb::Came(Came::Ends)),
    ("replies", Verb::Came(Came::Replies)),
    ("fails", Verb::Came(Came::Fails)),
    ("answer", Verb::Came(Came::Answer)),
    ("unanswered", Verb::Came(Came::Unanswered)),
    ("copies", Verb::Came(Came::Copies)),
    ("kept", Verb::Stands(Stands::Kept)),
    ("unkept", Verb::Stands(Stands::Unkept)),
    ("holds", Verb::Stands(Stands::Holds)),
    ("last", Verb::Stands(Stands::Last)),
    ("leaves", Verb::Passed(Passed::Leaves)),
    ("sent", Verb::Passed(Passed::Sent)),
    ("frames", Verb::Passed(Passed::Frames)),
    ("packet", Verb::Passed(Passed::Packet)),
    ("length", Verb::Passed(Passed::Length)),
    ("troubles", Verb::Passed(Passed::Troubles)),
    ("tries", Verb::Passed(Passed::Tries)),
    ("unmet", Verb::Unmet),
];

/// What a line is that begins with this word.
pub(crate) fn verb_of(word: &str) -> Option<Verb> {
    for (first, verb) in &VERBS {
        if *first == word {
            return Some(*verb);
        }
    }
    None
}

impl Verb {
    /// Whether a block may stand behind a line that ends with this word.
    pub(crate) fn takes_block(self, last: &str) -> bool {
        match self {
            Verb::Before(before) => match before {
                Before::Fate => last == "inject",
                Before::Keep => true,
                Before::Keeper | Before::Surrogate => false,
            },
            Verb::Next(next) => next.takes_block(),
            Verb::Act(act) => act.takes_block(),
            Verb::Came(came) => match came {
                Came::Ends | Came::Replies | Came::Answer => true,
                Came::Fails | Came::Unanswered | Came::Copies => false,
            },
            Verb::Stands(stands) => match stands {
                Stands::Kept | Stands::Holds => true,
                Stands::Unkept | Stands::Last => false,
            },
            Verb::Passed(passed) => match passed {
                Passed::Leaves | Passed::Sent | Passed::Frames | Passed::Packet => true,
                Passed::Length | Passed::Troubles | Passed::Tries => false,
            },
            Verb::Unmet => false,
        }
    }
}

impl Next {
    fn takes_block(self) -> bool {
        match self {
            Next::Connection | Next::Liar | Next::File | Next::Program => true,
            Next::Source | Next::Sink | Next::Port => false,
            Next::Runner | Next::Folder | Next::Folders => false,
        }
    }
}

impl Act {
    fn takes_block(self) -> bool {
        match self {
            Act::Run | Act::Ship | Act::Client | Act::Serve | Act::Ask | Act::Operate => true,
            Act::Node | Act::Again | Act::Forget => false,
        }
    }
}

/// That a line has no words behind its first.
pub(crate) fn none(words: &[&str]) -> Result<(), Fault> {
    match *words {
        [] => Ok(()),
        _ => Err(OTHER_WORDS),
    }
}

/// The only word behind a line's first.
pub(crate) fn one<'a>(words: &[&'a str]) -> Result<&'a str, Fault> {
    match *words {
        [word] => Ok(word),
        _ => Err(OTHER_WORDS),
    }
}

/// The two words behind a line's first.
pub(crate) fn two<'a>(words: &[&'a str]) -> Result<(&'a str, &'a str), Fault> {
    match *words {
        [first, second] => Ok((first, second)),
        _ => Err(OTHER_WORDS),
    }
}
