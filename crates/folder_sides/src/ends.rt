// What becomes of a path.

/// What becomes of a path, by who changed what was laid there.
#[derive(Clone, Copy, Debug, PartialEq, Eq)]
pub enum End {
    /// The log has what stands here.
    Same,
    /// Others changed it: what the log has is laid.
    Lay,
    /// It was changed here, and stays.
    Own,
    /// Both are changes: what stands here has to go beside first.
    Both,
}
