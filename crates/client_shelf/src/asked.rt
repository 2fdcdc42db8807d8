// What a shelving is asked for.

/// Whose log is set aside, and by whom. No word is empty, the two clients are different ones, and so are their images, of which neither is
/// the other with `.new` or `.lock` added.
#[derive(Debug, Drop)]
pub struct Shelving<'a> {
    /// The number of the client whose log is stuck, from 1 to 64.
    pub client: u8,
    /// The name of its image.
    pub image: &'a [u8],
    /// The number of the client that is to go on with what it put, from 1 to 64.
    pub new_client: u8,
    /// The name of the image of that client.
    pub new_image: &'a [u8],
    /// The address of the server.
    pub server: &'a [u8],
    /// The text of the folder in which the files are to stand.
    pub folder: &'a [u8],
}
