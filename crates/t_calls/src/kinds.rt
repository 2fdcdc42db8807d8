// What bytes are looked at as, and what is wanted of them.

/// What bytes are looked at as.
#[derive(Clone, Copy, PartialEq, Eq)]
pub(crate) enum Kind {
    Frame,
    Client,
    Server,
    Path,
    /// A path, of which the folder that it stands in is looked at.
    Parent,
    Content,
    Effect,
    Effects,
    Base,
    Row,
    Rows,
    Command,
    Job,
    Origin,
    Entry,
    /// One sketched effect.
    Sketched,
    Sketches,
}

/// How bytes differ at a place.
#[derive(Clone, Copy)]
pub(crate) enum Change {
    /// They end there.
    Cut,
    /// They end there, and a frame's length is that of its front.
    End,
    Zero,
    Ones,
    Complement,
}

/// What is wanted of bytes.
#[derive(Clone, Copy)]
pub(crate) enum Look {
    /// That they are read, and as what.
    Is,
    /// That they are refused, and where.
    Refused,
    /// How they are answered when they are changed so at each place.
    Changed(Change),
    /// What each front is read as.
    Leads,
    /// The sum of the answers to each bit turned round.
    Turned,
    /// That the message in the block answers them, or not.
    Answered,
    Unanswered,
}

/// Whether numbers or paths behind the kind say what is read.
pub(crate) fn has_limits(kind: Kind) -> bool {
    match kind {
        Kind::Content | Kind::Effect | Kind::Effects | Kind::Base => true,
        Kind::Entry | Kind::Sketched | Kind::Sketches => true,
        Kind::Frame | Kind::Client | Kind::Server => false,
        Kind::Path | Kind::Parent | Kind::Row | Kind::Rows => false,
        Kind::Command | Kind::Job | Kind::Origin => false,
    }
}
