//! What becomes of asks.

use vol_tree::Content;

/// What becomes of one ask, or what happens before the next fate. `Late` and `Inject` decide no ask. Each fate is met once, but for
/// `Stop`, which stays.
#[derive(Debug, Drop)]
pub enum Fate {
    /// The request is handled, and its reply is the answer.
    Pass,
    /// The request is not handled, and the ask fails.
    LoseRequest,
    /// The request is handled, and the ask fails.
    LoseReply,
    /// The request is handled twice, and the second reply is the answer.
    Twice,
    /// The request is not handled. The packet of this number, counted from 0, is the answer where it is a reply to the
    /// request; else the ask fails.
    Old(u32),
    /// The packet of this number, counted from 0, is handled where it is a request.
    Late(u32),
    /// These bytes are sent and handled where they are the frame of another client's store.
    Inject(Content),
    /// The request is not handled, and the ask fails; so are all later ones: this fate stays at the front.
    Stop,
}
