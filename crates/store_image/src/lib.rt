//! Images of a client and of a server, as they are kept from one run to the next, and the records behind them: their
//! spellings, and why bytes are none.
#![tactic(auto)]

mod appending;
mod entry;
mod image;
mod journal;
mod laws;
mod reading;
mod record;
mod writing;

pub use appending::{put_acked, put_logged, put_taken, write_client_record, write_server_record};
pub use image::{
    ClientImage, IMAGE_VERSION, ImageError, MAX_CLIENT_IMAGE, MAX_LOADED, MAX_RECORDS,
    MAX_SERVER_IMAGE, ServerImage,
};
pub use laws::{
    broken_images_name_the_field, broken_records_name_the_field, cut_images_name_the_field,
    cut_records_are_torn, images_are_small, images_are_spelled_once, kept_states_are_read,
    records_are_appended,
};
pub use reading::{read_client, read_server};
pub use record::{ClientRecord, ServerRecord};
pub use writing::{write_client, write_server};
