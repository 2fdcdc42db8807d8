//! What the programs do with their words, their pages and their statuses.
#![tactic(auto)]

mod ending;
mod given;
mod laws;
mod numbers;
mod pages;
mod paths;
mod places;
mod status;
mod telling;

pub use ending::{end, end_plainly};
pub use given::{checked_words, given_words, is_logged};
pub use laws::numbers_are_as_printed;
pub use numbers::printed_number;
pub use pages::{Page, Pages, page_asked, page_shown, show};
pub use paths::is_path_text;
pub use places::hold_places;
pub use status::Status;
pub use telling::{tell, tell_listening, tell_plainly};
