//! The real streams, files and sockets behind the traits of the outside. A source and a sink tell the traits what their stream tells
//! contracts, and real streams tell none; the others carry what they are given, and tell none of it. Each call that failed is counted.
//! Every wait for a peer has an end.
#![tactic(auto)]

mod address_form;
mod addresses;
mod client_teller;
mod connections;
mod faults;
mod hints;
mod keeper;
mod laws;
mod link;
mod lock;
mod logged_port;
mod missed;
mod misses;
mod moment;
mod names;
mod outgoing;
mod pace;
mod port;
mod prompting;
mod steady;
mod streams;
mod talks;
mod telling;
mod terminal;
mod texts;
mod trouble;
mod wants;
mod watch;

pub use address_form::{AddressFault, address_fault, tell_addresses};
pub use client_teller::ClientTeller;
pub use keeper::FileKeeper;
pub use laws::frames_have_one_limit;
pub use link::TcpLink;
pub use lock::write_down;
pub use logged_port::{LoggedPort, PeerPort};
pub use missed::Missed;
pub use port::TcpPort;
pub use prompting::{LineProgram, Noting, Prompting, Terminals};
pub use steady::{SteadyRead, SteadyWrite};
pub use streams::{StdSink, StdSource};
pub use telling::{Teller, Untold};
pub use trouble::{FileStep, Trouble, Troubled, tell_trouble};
