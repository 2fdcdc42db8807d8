// The places of the standard streams.
use std::fs::File;
use std::os::fd::{AsRawFd, IntoRawFd};
use std::rt::Files;

/// How many standard streams there are. Theirs are the first descriptors.
const STREAMS: i32 = 3;

/// What stands in the place of a closed stream: it has no byte, and opened for reading it takes none.
const NOTHING: &str = "/dev/null";

/// Holds the place of each standard stream that is closed, to the end of the program: an input is empty then, and an output takes
/// nothing. A program does so before it opens anything, since the first thing that is opened gets the first free place, and so
/// what was printed.
pub fn hold_places<R: Files<File = File>>(files: &R) {
    for _ in 0..STREAMS {
        if !hold_place(files) {
            return;
        }
    }
}

/// Holds the first free place, where it is a standard stream's; answers whether it was.
fn hold_place<R: Files<File = File>>(files: &R) -> bool {
    match File::open(files, NOTHING) {
        Ok(file) if file.as_raw_fd() < STREAMS => {
            let _held = file.into_raw_fd();
            true
        }
        Ok(file) => {
            drop(file);
            false
        }
        Err(_) => false,
    }
}
