// What a session borrows.

use client_core::Route;
use std::alloc::Global;

/// What a session borrows while it runs: the route of its client, and one object of each kind of the outside but its input.
#[derive(Drop)]
pub(crate) struct SessionObjects<'t, 'o, 'k, 'r, 'l, O, K, R, L> {
    /// What gives it memory.
    pub(crate) alloc: Global,
    /// Where its client's image, peers and commands are.
    pub(crate) route: &'t Route,
    /// What its answers are written to.
    pub(crate) output: &'o mut O,
    /// What its client is kept in.
    pub(crate) keeper: &'k mut K,
    /// What runs its commands.
    pub(crate) runner: &'r mut R,
    /// What it asks its peers over.
    pub(crate) link: &'l mut L,
}
