//! The values of answers, added to bytes.

ghost use Rattle.std.specs.Prelude.{◌≡◌, ◌∷◌, ◌++◌, OnOk, decimal};
ghost use Rattle.file_paths.specs.Path.{path_text};
ghost use Rattle.shell_lang.specs.Faults.{shown_path, number, spaced_path as path_value};

use std::alloc::AllocError;
use vol_tree::Path;

/// Adds the number in decimal.
///
/// # Errors
///
/// Want of memory; a part may have been added then.
pub fn put_decimal(out: &mut Vec<u8>, n: u64) -> Result<(), AllocError>
    ensures { OnOk result (out.new.items ≡ out.old.items ++ decimal n) }
{
    let alloc = *out.allocator();
    let text = n.to_string(alloc)?;
    out.extend_from_slice(text.as_bytes())
}

/// Adds a space and the number.
///
/// # Errors
///
/// Want of memory; a part may have been added then.
#[tactic(auto, unfolding(crate::specs::Faults::number))]
pub fn put_number(out: &mut Vec<u8>, n: u64) -> Result<(), AllocError>
    ensures { OnOk result (out.new.items ≡ out.old.items ++ number n) }
{
    out.extend_from_slice(b" ")?;
    put_decimal(out, n)
}

/// Adds a space and the path, the root as `/`.
///
/// # Errors
///
/// Want of memory; a part may have been added then.
#[tactic(auto, unfolding(crate::specs::Faults::spaced_path))]
pub fn put_path(out: &mut Vec<u8>, path: &Path) -> Result<(), AllocError>
    ensures { OnOk result (out.new.items ≡ out.old.items ++ path_value path.now) }
{
    out.extend_from_slice(b" ")?;
    put_shown_path(out, path)
}

/// Adds the path, and the root as `/`.
fn put_shown_path(out: &mut Vec<u8>, path: &Path) -> Result<(), AllocError>
    ensures { OnOk result (out.new.items ≡ out.old.items ++ shown_path path.now) }
{
    match path.names() {
        [] => out.extend_from_slice(b"/"),
        _ => put_path_text(out, path),
    }
}

/// Adds the names of the path, joined by `/`.
pub(crate) fn put_path_text(out: &mut Vec<u8>, path: &Path) -> Result<(), AllocError>
    ensures { OnOk result (out.new.items ≡ out.old.items ++ path_text path.now) }
{
    let text = path.text()?;
    out.extend_from_slice(text.bytes())
}
