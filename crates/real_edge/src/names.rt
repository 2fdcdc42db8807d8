// The names of an image and of what belongs to it.
use std::alloc::{AllocError, Global};
use std::io::{self, ErrorKind};

/// The platform takes names of text alone.
pub(crate) fn name_text(name: &[u8]) -> io::Result<&str> {
    str::from_utf8(name).map_err(|_| io::Error::from(ErrorKind::InvalidFilename))
}

/// The name of a file that belongs to the image.
pub(crate) fn beside(alloc: Global, name: &str, ending: &str) -> Result<String, AllocError> {
    let mut text = String::from_str(alloc, name)?;
    text.push_str(ending)?;
    Ok(text)
}

/// The folder that the name stands in.
pub(crate) fn folder_of(name: &str) -> &str {
    match name.rsplit_once('/') {
        None => ".",
        Some(("", _)) => "/",
        Some((folder, _)) => folder,
    }
}
