// The words that lines begin with: each names a call.

use crate::checks::{Claim, Edit, View};
use crate::kinds::{Change, Kind, Look, has_limits};
use crate::parts::{Law, Part, Want};
use t_scene_files::Fault;

/// What a scene speaks of.
#[derive(Clone, Copy, PartialEq, Eq)]
pub(crate) enum Topic {
    /// Bytes, and what they are read as.
    Bytes,
    /// A tree, its root and certificates.
    Tree,
    /// A run of the client and its replay.
    Runs,
    /// A content, and the parities of what it was.
    Content,
    /// What may be the spelling of a sketch.
    Spelling,
    /// What stands in the line alone.
    Line,
}

/// What a line is for.
#[derive(Clone, Copy)]
pub(crate) enum Act {
    /// Its block is looked at from here on.
    Read(Kind),
    /// So is the frame that has it behind its length.
    Payload,
    Look(Look),
    Edit(Edit),
    Claim(Claim),
    View(View),
    Tell(Part),
    Judge(Want),
}

/// The words that lines begin with: what scenes with them speak of, what the line is for, and whether a block stands behind it.
/// A scene that begins with a word speaks of what the first row with this word says.
const WORDS: [(&str, Topic, Act, bool); 75] = [
    ("frame", Topic::Bytes, Act::Read(Kind::Frame), true),
    ("payload", Topic::Bytes, Act::Payload, true),
    ("client", Topic::Bytes, Act::Read(Kind::Client), true),
    ("server", Topic::Bytes, Act::Read(Kind::Server), true),
    ("path", Topic::Bytes, Act::Read(Kind::Path), true),
    ("parent", Topic::Bytes, Act::Read(Kind::Parent), true),
    ("content", Topic::Bytes, Act::Read(Kind::Content), true),
    ("effect", Topic::Bytes, Act::Read(Kind::Effect), true),
    ("effects", Topic::Bytes, Act::Read(Kind::Effects), true),
    ("base", Topic::Bytes, Act::Read(Kind::Base), true),
    ("row", Topic::Bytes, Act::Read(Kind::Row), true),
    ("rows", Topic::Bytes, Act::Read(Kind::Rows), true),
    ("command", Topic::Bytes, Act::Read(Kind::Command), true),
    ("job", Topic::Bytes, Act::Read(Kind::Job), true),
    ("origin", Topic::Bytes, Act::Read(Kind::Origin), true),
    ("entry", Topic::Bytes, Act::Read(Kind::Entry), true),
    ("sketched", Topic::Bytes, Act::Read(Kind::Sketched), true),
    ("sketches", Topic::Bytes, Act::Read(Kind::Sketches), true),
    ("is", Topic::Bytes, Act::Look(Look::Is), true),
    ("refused", Topic::Bytes, Act::Look(Look::Refused), false),
    (
        "cuts",
        Topic::Bytes,
        Act::Look(Look::Changed(Change::Cut)),
        true,
    ),
    (
        "fronts",
        Topic::Bytes,
        Act::Look(Look::Changed(Change::End)),
        true,
    ),
    (
        "zeros",
        Topic::Bytes,
        Act::Look(Look::Changed(Change::Zero)),
        true,
    ),
    (
        "ones",
        Topic::Bytes,
        Act::Look(Look::Changed(Change::Ones)),
        true,
    ),
    (
        "complements",
        Topic::Bytes,
        Act::Look(Look::Changed(Change::Complement)),
        true,
    ),
    ("leads", Topic::Bytes, Act::Look(Look::Leads), true),
    ("turned", Topic::Bytes, Act::Look(Look::Turned), false),
    ("answered", Topic::Bytes, Act::Look(Look::Answered), true),
    (
        "unanswered",
        Topic::Bytes,
        Act::Look(Look::Unanswered),
        true,
    ),
    ("make", Topic::Tree, Act::Edit(Edit::Make), false),
    ("put", Topic::Tree, Act::Edit(Edit::Put), true),
    ("mode", Topic::Tree, Act::Edit(Edit::Mode), false),
    ("remove", Topic::Tree, Act::Edit(Edit::Remove), false),
    ("against", Topic::Tree, Act::Claim(Claim::Root), true),
    ("asked", Topic::Tree, Act::Claim(Claim::Path), false),
    (
        "certificate",
        Topic::Tree,
        Act::Claim(Claim::Certificate),
        true,
    ),
    ("root", Topic::Tree, Act::View(View::Root), true),
    ("proves", Topic::Tree, Act::View(View::Proof), true),
    ("says", Topic::Tree, Act::View(View::Said), false),
    ("cut", Topic::Tree, Act::View(View::SaidByFront), false),
    ("byte", Topic::Tree, Act::View(View::SaidWithByte), false),
    ("template", Topic::Runs, Act::Tell(Part::Template), false),
    ("folder", Topic::Runs, Act::Tell(Part::Folder), false),
    ("file", Topic::Runs, Act::Tell(Part::File), true),
    ("program", Topic::Runs, Act::Tell(Part::Program), true),
    ("beside", Topic::Runs, Act::Tell(Part::Beside), false),
    ("run", Topic::Runs, Act::Tell(Part::Run), false),
    ("logged", Topic::Runs, Act::Tell(Part::Logged), false),
    ("make", Topic::Runs, Act::Tell(Part::Make), false),
    ("put", Topic::Runs, Act::Tell(Part::Put), true),
    ("remove", Topic::Runs, Act::Tell(Part::Remove), false),
    ("move", Topic::Runs, Act::Tell(Part::Move), false),
    ("mode", Topic::Runs, Act::Tell(Part::Mode), false),
    ("replay", Topic::Runs, Act::Tell(Part::Replay), false),
    ("agrees", Topic::Runs, Act::Judge(Want::Verdict), true),
    ("status", Topic::Runs, Act::Judge(Want::Verdict), false),
    ("odd", Topic::Runs, Act::Judge(Want::Verdict), false),
    ("mismatch", Topic::Runs, Act::Judge(Want::Verdict), false),
    ("clash", Topic::Runs, Act::Judge(Want::Clash), false),
    ("pairs", Topic::Runs, Act::Judge(Want::Pairs), true),
    ("renamed", Topic::Runs, Act::Judge(Want::Renamed), true),
    ("bytes", Topic::Content, Act::Tell(Part::Bytes), true),
    ("parity", Topic::Content, Act::Tell(Part::Parity), true),
    ("repaired", Topic::Content, Act::Judge(Want::Repair), true),
    ("beyond", Topic::Content, Act::Judge(Want::Repair), false),
    ("sketch", Topic::Content, Act::Judge(Want::Sketch), true),
    ("spelling", Topic::Spelling, Act::Tell(Part::Spelling), true),
    ("taken", Topic::Spelling, Act::Judge(Want::Taken), true),
    ("refused", Topic::Spelling, Act::Judge(Want::Taken), false),
    ("fits", Topic::Line, Act::Judge(Want::Fit), false),
    ("misfits", Topic::Line, Act::Judge(Want::Fit), false),
    (
        "product",
        Topic::Line,
        Act::Judge(Want::Element(Law::Product)),
        false,
    ),
    (
        "sum",
        Topic::Line,
        Act::Judge(Want::Element(Law::Sum)),
        false,
    ),
    (
        "inverse",
        Topic::Line,
        Act::Judge(Want::Element(Law::Inverse)),
        false,
    ),
    (
        "power",
        Topic::Line,
        Act::Judge(Want::Element(Law::Power)),
        false,
    ),
];

/// What a line that begins with this word speaks of where the scene speaks of that, what it is for, and whether a block stands behind it.
///
/// # Errors
///
/// No line begins so, or none of such a scene. A scene that has spoken of nothing but its lines may go on with any.
pub(crate) fn meaning_of(first: &str, spoken: Topic) -> Result<(Topic, Act, bool), Fault> {
    for (word, topic, act, has_block) in &WORDS {
        if *word == first && may_follow(*topic, spoken) {
            return Ok((*topic, *act, *has_block));
        }
    }
    if is_word(first) {
        return Err(Fault::Line("the scene speaks of something else"));
    }
    Err(Fault::Line("no line begins so"))
}

/// Whether a line that speaks of this may stand in a scene that speaks of that.
fn may_follow(topic: Topic, spoken: Topic) -> bool {
    spoken == Topic::Line || spoken == topic
}

/// Whether a line may begin with this word.
fn is_word(first: &str) -> bool {
    for (word, _, _, _) in &WORDS {
        if *word == first {
            return true;
        }
    }
    false
}

/// Whether words may stand behind the first one. Those of judgements and of trees are counted where they are read.
pub(crate) fn takes_words(act: Act) -> bool {
    match act {
        Act::Read(kind) => has_limits(kind),
        Act::Payload => false,
        Act::Look(look) => matches!(look, Look::Is | Look::Refused | Look::Turned),
        Act::Edit(_) | Act::Claim(_) | Act::View(_) | Act::Tell(_) | Act::Judge(_) => true,
    }
}
