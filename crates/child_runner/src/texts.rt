// Names and words as the platform takes them.
pub(crate) use folder_reading::{place_in, text_of};
