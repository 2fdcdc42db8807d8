//! What a program reads from and writes to: traits with a written meaning, and objects in memory that meet them.
//!
//! An object may tell its content to contracts; a real stream tells none. Each has a count of faults, which rises by one in
//! a call that answers `Failed`, and in no other. A count stands still at its type's end.
#![tactic(auto)]

mod calls;
mod errors;
mod keeper;
mod laws;
mod memory;
mod memory_keeper;
mod memory_port;
mod port;
mod sink;
mod source;

pub use errors::{Failed, KeepError, PortError, SinkError};
pub use keeper::Keeper;
pub use laws::limits_agree;
pub use memory::{MemSink, MemSource};
pub use memory_keeper::{KeepFail, MemKeeper};
pub use memory_port::MemPort;
pub use port::{MOST_CONNECTIONS, Port};
pub use sink::{Sink, write_all};
pub use source::{INPUT_PIECE, Source};
