// What lines tell of what is judged, and what is wanted of that.

/// What a line tells.
#[derive(Clone, Copy, PartialEq, Eq)]
pub(crate) enum Part {
    Template,
    Folder,
    File,
    /// A file that may be run.
    Program,
    /// The client's run ended.
    Run,
    /// The client logged an entry, in place of its run.
    Logged,
    Make,
    Put,
    Remove,
    Move,
    Mode,
    Replay,
    /// What is told from here on stands in the tree beside the job.
    Beside,
    /// A content.
    Bytes,
    Parity,
    Spelling,
}

/// What a line looks at.
#[derive(Clone, Copy)]
pub(crate) enum Want {
    Verdict,
    Clash,
    Pairs,
    Renamed,
    Repair,
    Sketch,
    Taken,
    Fit,
    Element(Law),
}

/// What elements of the field come to.
#[derive(Clone, Copy)]
pub(crate) enum Law {
    Product,
    Sum,
    Inverse,
    Power,
}
