//! What a surrogate does next.

use wire_frames::Message;

/// What a surrogate does next.
#[derive(Debug, Drop)]
pub enum NextStep {
    /// Ask the server.
    Ask(Message),
    /// Answer the client.
    Answer(Message),
}
