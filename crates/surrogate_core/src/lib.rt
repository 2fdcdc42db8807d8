//! The surrogate: it makes the jobs of clients' operations again on its own copy of the server's tree, and asks the
//! server for them where what comes of it agrees with the client's.
#![tactic(auto)]

mod laws;
mod machine;
mod replaying;
mod serving;
mod step;

pub use laws::{
    accepted_stores_are_done, declines_have_causes, handlings_are_no_sendings,
    handlings_are_of_their_operation, handlings_keep_the_copy, refused_stores_are_declined,
    tries_have_one_end,
};
pub use machine::Surrogate;
pub use step::NextStep;
