// The network between a client, its server and its surrogate.
use cmd_capture::{ScriptAnswer, ScriptRunner};
use mem_net::{Fate, MemNet};
use server_core::Server;
use std::alloc::{AllocError, Global};
use surrogate_core::Surrogate;

/// A network in memory whose surrogate's runs are scripted.
pub type Network = MemNet<ScriptRunner>;

/// The network of client 1, this server, and a surrogate with an empty copy. The surrogate's runs come to these answers, in
/// order, and behind them each changes nothing and ends with 0; the asks meet these fates.
pub fn network(
    alloc: Global,
    server: Server,
    answers: Vec<ScriptAnswer>,
    fates: Vec<Fate>,
) -> Result<Network, AllocError> {
    let runner = ScriptRunner::new(alloc, answers);
    MemNet::new(alloc, 1, server, Surrogate::new(alloc), runner, fates)
}
