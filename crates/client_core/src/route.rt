//! Where a client's image, peers and commands are.

use vol_tree::Content;

/// The names and addresses that a client works with.
#[derive(Debug, Drop)]
pub struct Route {
    /// The name under which the client's image is kept.
    pub image: Content,
    /// The address of the server.
    pub server: Content,
    /// The address of the surrogate, where there is one.
    pub surrogate: Option<Content>,
    /// The folder in which commands are run.
    pub work: Content,
}
