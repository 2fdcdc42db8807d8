// Which names of images are apart.
ghost use Rattle.std.specs.Prelude.{◌≡◌, ◌++◌};
ghost use Rattle.std.specs.Str.{bytes_eq};
ghost use Rattle.client_shelf.specs.Shelving.{is_beside, are_apart};

/// Whether two names are those of two images, of which neither is a file that belongs to the other.
pub fn are_apart(image: &[u8], other: &[u8]) -> bool
    ensures { result ≡ are_apart image.now other.now }
{
    image != other && !is_beside(image, other) && !is_beside(other, image)
}

/// Whether the name is that of a file which belongs to this image: what a save writes first, or the lock.
fn is_beside(name: &[u8], image: &[u8]) -> bool
    ensures { result ≡ is_beside name.now image.now }
{
    has_ending(name, image, b".new") || has_ending(name, image, b".lock")
}

/// Whether the name is the image's with this ending behind it.
fn has_ending(name: &[u8], image: &[u8], ending: &[u8]) -> bool
    ensures { result ≡ bytes_eq name.now (image.now ++ ending.now) }
{
    match name.strip_prefix(image) {
        Some(rest) => rest == ending,
        None => false,
    }
}
