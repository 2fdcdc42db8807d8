//! Jobs as programs of this machine. Each runs in a folder that is made for it, is read back and is removed, within its time; each
//! run that failed is counted. No link is followed.
#![tactic(auto)]

mod beside;
mod clearing;
mod judging;
mod limits;
mod locks;
mod names;
mod places;
mod removing;
mod runner;
mod texts;
mod trouble;
mod works;

pub use beside::MAX_BESIDE;
pub use folder_reading::INPUT_SECONDS;
pub use judging::JUDGED_BYTES;
pub use limits::READING_SECONDS;
pub use locks::LOCK_RIGHTS;
pub use names::{MAX_TRIED, NAMED_BYTES, left_names_are_no_run_s, names_are_known};
pub use places::FOLDER_RIGHTS;
pub use programs_apart::{ApartWish, LEADER, WishError};
pub use removing::{MAX_LEFT, REMOVAL_SECONDS};
pub use runner::ChildRunner;
pub use works::WORK_RIGHTS;
