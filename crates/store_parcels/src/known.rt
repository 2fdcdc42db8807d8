//! The bytes that the server knows.

ghost use Rattle.std.specs.Prelude.{◌≡◌, ◌≤◌, length, IfOk, IfSome};
ghost use Rattle.std.specs.Option.{option_map};
ghost use Rattle.tree_values.specs.Limits.{max_files};
ghost use Rattle.store_parcels.specs.Opening.{file_at, known_in};

use std::alloc::{AllocError, Global};
use vol_tree::{Content, MAX_FILES, Node, Path, Tree};

/// The contents of the files at these paths, one behind the other; `None` where one is no file, or they are more than a tree has.
///
/// # Errors
///
/// Want of memory.
pub(crate) fn known_in(
    alloc: Global,
    tree: &Tree,
    sources: &[Path],
) -> Result<Option<Vec<u8>>, AllocError>
    ensures exact { IfOk result (λ known. option_map (λ bytes. bytes.items) known ≡ known_in tree.now sources.now) }
    ensures few { IfOk result (λ known. IfSome known (λ bytes. length bytes.items ≤ max_files)) }
{
    let mut known = Vec::new(alloc);
    for source in sources {
        let Some(content) = file_at(tree, source) else {
            return Ok(None);
        };
        if content.bytes().len() > MAX_FILES - known.len() {
            return Ok(None);
        }
        known.extend_from_slice(content.bytes())?;
    }
    Ok(Some(known))
}

/// The content of the file at a path.
fn file_at<'a>(tree: &'a Tree, path: &Path) -> Option<&'a Content>
    ensures { option_map (λ content. content.now) result ≡ file_at tree.now path.now }
{
    match tree.get(path) {
        Some(Node::File { content, .. }) => Some(content),
        Some(Node::Folder) | None => None,
    }
}

/// The number of bytes of the file at a path; 0 where there is none.
pub(crate) fn size_at(tree: &Tree, path: &Path) -> usize {
    match file_at(tree, path) {
        Some(content) => content.bytes().len(),
        None => 0,
    }
}
