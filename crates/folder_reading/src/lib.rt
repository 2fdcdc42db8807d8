//! Folders of this machine that are written from rows and read back as rows. No link is followed, and a reading ends within its time.
#![tactic(auto)]

mod found;
mod opening;
mod reading;
mod sameness;
mod texts;
mod trouble;
mod watches;
mod withholding;
mod writing;

pub use reading::Reading;
pub use sameness::are_same;
pub use texts::{place_in, text_of};
pub use trouble::{HostTrouble, answered, odd, refused};
pub use watches::Stopwatch;
pub use withholding::withheld;
pub use writing::{INPUT_SECONDS, write_rows};
