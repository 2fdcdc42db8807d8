//! Which names a template stands for.

ghost use Rattle.std.specs.Prelude.{◌≡◌, length};
ghost use Rattle.file_paths.specs.Path.{last_name};
ghost use Rattle.temp_names.specs.Fits as rules;

use cmd_capture::Template;
use vol_tree::Path;

/// Whether the byte of a template stands for that of a name.
fn fits_byte(template: u8, name: u8) -> bool
    ensures { result ≡ rules.fits_byte template name }
{
    if template == b'?' {
        name.is_ascii_alphanumeric()
    } else {
        template == name
    }
}

/// Whether the template stands for the name: `?` for one letter or digit of ASCII, and every other
/// byte for itself.
pub fn fits(template: &Template, name: &[u8]) -> bool
    ensures { result ≡ rules.fits template.now name.now }
{
    let bytes = template.bytes();
    bytes.len() == name.len() && fits_in_turn(bytes, name)
}

fn fits_in_turn(template: &[u8], name: &[u8]) -> bool
    requires { length template.now ≡ length name.now }
    ensures { result ≡ rules.fits template.now name.now }
{
    for (i, byte) in template.iter().enumerate() {
        if !fits_byte(*byte, name[i]) {
            return false;
        }
    }
    true
}

/// The first template that stands for the path's last name.
pub(crate) fn first_fitting(templates: &[Template], path: &Path) -> Option<usize>
    ensures { result ≡ rules.first_fitting templates.now (last_name path.now) }
{
    let name = last_name(path);
    templates.iter().position(|template| fits(template, name))
}

/// The last name; no byte for the root.
fn last_name(path: &Path) -> &[u8]
    ensures { result.now ≡ last_name path.now }
{
    match path.names().last() {
        Some(name) => name.bytes(),
        None => &[],
    }
}
