//! A client's session: what each line logs, asks of the server and of a surrogate, and answers. It knows nothing of how its
//! lines come, nor where its answers go.
#![tactic(auto)]

mod effects;
mod laws;
mod looking;
mod running;
mod session;
mod stop;

pub use laws::{
    asks_and_runs_make_sessions, asks_are_of_the_route, asks_are_of_turns,
    distinct_contents_do_not_collide, sessions_are_licensed, sessions_change_so,
    unanswered_lines_cost_asks, unrun_lines_are_counted,
};
pub use session::Session;
pub use stop::LineStop;
