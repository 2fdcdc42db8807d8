// Paths, which contracts see as the list of their names.
ghost use Rattle.std.specs.Prelude.{◌≤◌, ◌≡◌, ◌≢◌, ℕ, ◌+◌, ◌-◌, List, [], ◌∷◌, ◌++◌, length, min, not, ◌==◌, IfOk, IfErr, OnOk, OnErr};
ghost use Rattle.std.specs.Prelude.{IsTrue, position, map, slice_get};
ghost use Rattle.std.specs.List.{list_all, slice_split};
ghost use Rattle.byte_fields.specs.Field.{IsFront};
ghost use Rattle.file_paths.specs.Inside.{joined_size};
ghost use Rattle.file_paths.specs.Limits.{max_text};
ghost use Rattle.file_paths.specs.declared.path.PathError.TheVariants.{Memory};
ghost use Rattle.file_paths.specs.Path.{IsPath, is_name as name_test, is_dots as dots_test, is_name_byte, path_of, resolved};
ghost use Rattle.file_paths.specs.Path.{text_before, path_text, parent, folder_of, path_cmp, partial_order_of_paths};
ghost use Rattle.std.specs.Option.{option_copied};
ghost use Rattle.std.specs.Str.{bytes_eq};
ghost use Rattle.std.specs.Ordering.{nat_cmp, as_partial_cmp};
ghost use Rattle.std.specs.Cmp.{partial_equiv_from_equiv};
ghost use Rattle.std.specs.Cmp.Lexicographic.{pointwise, slice_cmp, nat_list_eq_equiv, nat_list_cmp_total, texts_ties, lists_equiv};
ghost use Rattle.std.specs.Cmp.Lexicographic.{lists_total, lists_ties};
ghost use Rattle.std.proofs.Common.{rules};

use crate::Names;
use crate::content::Content;
use crate::list::TryCopy;
use byte_fields::saturate_u32;
use std::alloc::{AllocError, Global};
use std::cmp::Ordering;
use std::marker::Model;
use thiserror::Error;

/// The most bytes that a name has.
pub const MAX_NAME: usize = 255;

/// The most names that a path has.
pub const MAX_DEPTH: usize = 32;

/// The most bytes that the text of a path has.
pub const MAX_TEXT: usize = 1024;

/// Why a text spells no path. A number that is too great for its type stands as the greatest.
#[derive(Debug, Drop, Error)]
pub enum PathError {
    /// The index of the first piece between slashes that is no name.
    #[error("piece {0} is no name")]
    BadName(u32),
    /// How many names there are, which is more than 32.
    #[error("{0} names")]
    TooDeep(u32),
    /// How many bytes there are, which is more than 1,024.
    #[error("{0} bytes")]
    TooLong(u32),
    #[error("out of memory")]
    Memory,
}

impl From<AllocError> for PathError {
    ghost from_gives = { λ _ e. e ≡ Memory };

    fn from(_: AllocError) -> PathError {
        PathError::Memory
    }
}

/// At most 32 names, whose text has at most 1,024 bytes. The root has no name.
#[derive(Debug, Drop)]
pub struct Path {
    names: Names,
}

impl Model for Path {
    ghost use Rattle.std.specs.Prelude.{ℕ, List};
    ghost use Rattle.file_paths.specs.Path.{IsPath};

    ghost Value = { List (List ℕ) };

    ghost view = { λ path. path.names };

    ghost invariant = { λ path. IsPath path.names };
}

impl Path {
    /// The root.
    pub fn root(alloc: Global) -> Path
        ensures { result ≡ [] }
    {
        Path {
            names: Names::new(alloc),
        }
    }

    /// The path that a text spells, its names separated by `/`.
    pub fn read(alloc: Global, text: &[u8]) -> Result<Path, PathError>
        ensures ok { IfOk result (λ path. path_of text.now ≡ Ok path) }
        ensures err { IfErr result (λ e. e ≢ PathError.Memory → path_of text.now ≡ Err e) }
    {
        if text.is_empty() {
            return Ok(Path::root(alloc));
        }
        let names = split_at_slashes(alloc, text)?;
        if let Some(i) = first_bad(names.as_slice()) {
            return Err(PathError::BadName(saturate_u32(i)));
        }
        if names.len() > MAX_DEPTH {
            return Err(PathError::TooDeep(saturate_u32(names.len())));
        }
        if text.len() > MAX_TEXT {
            return Err(PathError::TooLong(saturate_u32(text.len())));
        }
        Ok(Path { names })
    }

    /// The path that a word names in the folder `cwd`: from the root where it begins with `/`.
    pub fn resolve(alloc: Global, cwd: &Path, word: &[u8]) -> Result<Path, PathError>
        ensures ok { IfOk result (λ path. resolved cwd.now word.now ≡ Ok path) }
        ensures err { IfErr result (λ e. e ≢ PathError.Memory → resolved cwd.now word.now ≡ Err e) }
    {
        match word {
            [] => Ok(cwd.copy()?),
            [b'/', rest @ ..] => Path::read(alloc, rest),
            _ => Path::read(alloc, cwd.text_before(word)?.bytes()),
        }
    }

    /// A copy of the path.
    pub fn copy(&self) -> Result<Path, AllocError>
        ensures { IfOk result (λ copied. copied ≡ self.now) }
    {
        Ok(Path {
            names: self.names.copy()?,
        })
    }

    /// The names joined by `/`.
    pub fn text(&self) -> Result<Content, AllocError>
        ensures { IfOk result (λ text. text ≡ path_text self.now) }
    {
        Content::from_vec(joined(self.names.allocator(), self.names.as_slice())?)
    }

    /// Appends the text.
    pub(crate) fn put_text(&self, out: &mut Vec<u8>) -> Result<(), AllocError>
        ensures ok { OnOk result (out.new.items ≡ out.old.items ++ path_text self.now) }
        ensures err { OnErr result (IsFront out.old.items out.new.items (path_text self.now)) }
    {
        put_joined(self.names.as_slice(), out)
    }

    /// The number of bytes of the text.
    pub fn text_len(&self) -> u64
        ensures value { result ≡ length (path_text self.now) }
        ensures bound { result ≤ max_text }
    {
        size_of_names(self.names.as_slice()).saturating_sub(1)
    }

    /// The path's text, a `/` unless it is the root, and the word.
    fn text_before(&self, word: &[u8]) -> Result<Content, AllocError>
        ensures { IfOk result (λ text. text ≡ text_before self.now word.now) }
    {
        let mut text = joined(self.names.allocator(), self.names.as_slice())?;
        if self.names.len() > 0 {
            text.push(b'/')?;
        }
        text.extend_from_slice(word)?;
        Content::from_vec(text)
    }

    /// The path without its last name; `None` for the root.
    pub fn parent(&self) -> Result<Option<Path>, AllocError>
        ensures { IfOk result (λ found. found ≡ parent self.now) }
    {
        if self.names.len() == 0 {
            return Ok(None);
        }
        Ok(Some(self.folder()?))
    }

    /// The path without its last name; the root stays.
    pub fn folder(&self) -> Result<Path, AllocError>
        ensures { IfOk result (λ folder. folder ≡ folder_of self.now) }
    {
        let names = self.names.copy_front(self.folder_names().len())?;
        Ok(Path { names })
    }

    /// The path with one more name.
    pub fn child(&self, name: &Content) -> Result<Path, AllocError>
        requires { IsPath (self.now ++ name.now ∷ []) }
        ensures { IfOk result (λ child. child ≡ self.now ++ name.now ∷ []) }
    {
        let mut names = self.names.copy()?;
        names.push(name.copy()?)?;
        Ok(Path { names })
    }

    /// Lends the last name; `None` for the root.
    pub fn last(&self) -> Option<&Content>
        ensures { option_copied result ≡ slice_get self.now (length self.now - 1) }
    {
        self.names.as_slice().last()
    }

    /// Lends the names but the last.
    pub fn folder_names(&self) -> &[Content]
        ensures { result.now ≡ folder_of self.now }
    {
        let names = self.names.as_slice();
        match names.len() {
            0 => names,
            depth => &names[..depth - 1],
        }
    }

    /// Lends the names.
    pub fn names(&self) -> &[Content]
        ensures names { result.now ≡ self.now }
        ensures path { IsPath self.now }
    {
        self.names.as_slice()
    }

    /// Name `i`, counted from 0.
    pub fn name(&self, i: u32) -> Option<&Content>
        ensures { option_copied result ≡ slice_get self.now i }
    {
        self.names.get(i as usize)
    }

    /// The number of names.
    pub fn depth(&self) -> u32
        ensures depth { result ≡ length self.now }
        ensures path { IsPath self.now }
    {
        let path = &self.names;
        path.len() as u32
    }
}

impl TryCopy for Path {
    fn copy(&self) -> Result<Path, AllocError> {
        Path::copy(self)
    }
}

impl PartialEq for Path {
    ghost eq = { pointwise bytes_eq };

    ghost laws = { partial_equiv_from_equiv (lists_equiv nat_list_eq_equiv) };

    fn eq(&self, other: &Path) -> bool {
        self.names.as_slice() == other.names.as_slice()
    }
}

impl Eq for Path {
    ghost laws = { lists_equiv nat_list_eq_equiv };
}

impl PartialOrd for Path {
    ghost partial_cmp = { as_partial_cmp path_cmp };

    ghost laws = { partial_order_of_paths };

    fn partial_cmp(&self, other: &Path) -> Option<Ordering> {
        Some(self.cmp(other))
    }
}

/// By names from the front, a proper prefix first.
impl Ord for Path {
    ghost cmp = { path_cmp };

    ghost total = { lists_total nat_list_cmp_total };

    ghost matches_partial_cmp = { Prim.search rules };

    ghost matches_eq = { lists_ties (slice_cmp nat_cmp) texts_ties };

    fn cmp(&self, other: &Path) -> Ordering {
        self.names.as_slice().cmp(&other.names.as_slice())
    }
}

fn joined(alloc: Global, names: &[Content]) -> Result<Vec<u8>, AllocError>
    ensures { IfOk result (λ text. text.items ≡ path_text names.now) }
{
    let mut text = Vec::new(alloc);
    put_joined(names, &mut text)?;
    Ok(text)
}

/// Appends the names, joined by `/`.
fn put_joined(names: &[Content], out: &mut Vec<u8>) -> Result<(), AllocError>
    ensures ok { OnOk result (out.new.items ≡ out.old.items ++ path_text names.now) }
    ensures err { OnErr result (IsFront out.old.items out.new.items (path_text names.now)) }
{
    let Some((first, rest)) = names.split_first() else {
        return Ok(());
    };
    out.extend_from_slice(first.bytes())?;
    for name in rest {
        put_next(name, out)?;
    }
    Ok(())
}

/// Appends a `/` and the name.
#[tactic(auto, using(byte_fields::proofs::Fronts::front_none, byte_fields::proofs::Fronts::front_all, byte_fields::proofs::Fronts::front_before))]
fn put_next(name: &Content, out: &mut Vec<u8>) -> Result<(), AllocError>
    ensures ok { OnOk result (out.new.items ≡ out.old.items ++ 47 ∷ name.now) }
    ensures err { OnErr result (IsFront out.old.items out.new.items (47 ∷ name.now)) }
{
    out.push(b'/')?;
    out.extend_from_slice(name.bytes())?;
    Ok(())
}

/// The bytes of the names, with one more for each.
fn size_of_names(names: &[Content]) -> u64
    requires { joined_size names.now ≤ 1025 }
    ensures { result ≡ joined_size names.now }
{
    names.iter().map(|name| 1 + name.bytes().len() as u64).sum()
}

/// Whether the bytes are a name: 1 to 255, neither `/` nor zero among them, and not `.` or `..`.
pub fn is_name(bytes: &[u8]) -> bool
    ensures { result ≡ name_test bytes.now }
{
    1 <= bytes.len() && bytes.len() <= MAX_NAME && has_name_bytes(bytes) && !is_dots(bytes)
}

fn has_name_bytes(bytes: &[u8]) -> bool
    ensures { result ≡ list_all is_name_byte bytes.now }
{
    bytes.iter().all(|b| !(*b == b'/') && !(*b == 0))
}

fn is_dots(bytes: &[u8]) -> bool
    ensures { result ≡ dots_test bytes.now }
{
    bytes == b".".as_slice() || bytes == b"..".as_slice()
}

/// The first that is no name.
fn first_bad(pieces: &[Content]) -> Option<usize>
    ensures { result ≡ position (λ piece. not (name_test piece)) pieces.now }
{
    pieces.iter().position(|piece| !is_name(piece.bytes()))
}

fn first_slash(text: &[u8]) -> Option<usize>
    ensures { result ≡ position (λ b. b == 47) text.now }
{
    text.iter().position(|b| *b == b'/')
}

#[tactic(auto, using(crate::proofs::PathLemmas::one_more_piece, crate::proofs::PathLemmas::last_piece))]
fn split_at_slashes(alloc: Global, text: &[u8]) -> Result<Names, AllocError>
    ensures { IfOk result (λ pieces. pieces ≡ slice_split (λ b. b == 47) text.now) }
{
    let mut pieces = Names::new(alloc);
    let mut rest = text;
    while let Some(end) = first_slash(rest) {
        pieces.push(Content::of(alloc, &rest[..end])?)?;
        rest = rest.split_at(end + 1).1;
    }
    pieces.push(Content::of(alloc, rest)?)?;
    Ok(pieces)
}
