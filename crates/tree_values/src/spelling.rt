//! Appending the spellings of values, and how long they are.

ghost use Rattle.std.specs.Prelude.{◌≡◌, ◌<◌, ◌≤◌, ◌+◌, ◌^◌, ◌∷◌, ◌++◌, length, OnOk, OnErr};
ghost use Rattle.std.specs.Option.{option_copied};
ghost use Rattle.file_paths.specs.Limits.{max_file};
ghost use Rattle.tree_values.specs.Tree.{IsTree, node_size};
ghost use Rattle.byte_fields.specs.Field.{IsFront};
ghost use Rattle.tree_values.specs.Effects.{content_size};
ghost use Rattle.file_paths.specs.Spelling.{path, content};
ghost use Rattle.tree_values.specs.Spelling.{bit, effect, effects, base, bases, node, row, rows, EffectFits, EffectsFit};
ghost use Rattle.file_paths.specs.Path.{path_text};
ghost use Rattle.tree_values.specs.declared.node.Row.{Row};

use crate::lists::{Bases, Effects, Rows};
use crate::node::{Base, Effect, Node, Row};
use byte_fields::{Spelled, put_each, put_u32, put_u64};
use file_paths::{Content, MAX_FILE, Path};
use std::alloc::AllocError;

impl Effect {
    /// Appends the spelling: a byte for the kind, and the effect's paths and content.
    ///
    /// # Errors
    ///
    /// `AllocError` where memory runs out. A front of the spelling is then appended.
    pub fn spell(value: &Effect, out: &mut Vec<u8>) -> Result<(), AllocError>
        requires { EffectFits value.now }
        ensures ok { OnOk result (out.new.items ≡ out.old.items ++ effect value.now) }
        ensures err { OnErr result (IsFront out.old.items out.new.items (effect value.now)) }
    {
        match value {
            Effect::Make(path) => spell_path(1, path, out),
            Effect::Put(path, content) => spell_put(path, content, out),
            Effect::Remove(path) => spell_path(3, path, out),
            Effect::Move(from, to) => spell_paths(4, from, to, out),
            Effect::Mode(path, exec) => spell_mode(path, *exec, out),
        }
    }

    /// The number of bytes of the spelling.
    #[tactic(auto, using(crate::proofs::Sizes::put_length, crate::proofs::Sizes::mode_length))]
    pub fn size(&self) -> u64
        ensures value { result ≡ length (effect self.now) }
        ensures bound { result ≤ 2053 + content_size self.now }
    {
        match self {
            Effect::Make(path) => 1 + path.size(),
            Effect::Put(path, content) => 1 + path.size() + 4 + content.bytes().len() as u64,
            Effect::Remove(path) => 1 + path.size(),
            Effect::Move(from, to) => 1 + from.size() + to.size(),
            Effect::Mode(path, _) => 2 + path.size(),
        }
    }
}

/// Appends a kind that names a path, and the path.
#[tactic(auto, using(byte_fields::proofs::Fronts::front_none, byte_fields::proofs::Fronts::front_second))]
pub(crate) fn spell_path(kind: u8, value: &Path, out: &mut Vec<u8>) -> Result<(), AllocError>
    ensures ok { OnOk result (out.new.items ≡ out.old.items ++ (kind ∷ path value.now)) }
    ensures err { OnErr result (IsFront out.old.items out.new.items (kind ∷ path value.now)) }
{
    out.push(kind)?;
    Path::spell(value, out)?;
    Ok(())
}

/// Appends a kind that names two paths, and the paths.
pub(crate) fn spell_paths(
    kind: u8,
    first: &Path,
    second: &Path,
    out: &mut Vec<u8>,
) -> Result<(), AllocError>
    ensures ok { OnOk result (out.new.items ≡ out.old.items ++ (kind ∷ (path first.now ++ path second.now))) }
    ensures err { OnErr result (IsFront out.old.items out.new.items (kind ∷ (path first.now ++ path second.now))) }
{
    spell_path(kind, first, out)?;
    Path::spell(second, out)?;
    Ok(())
}

/// Appends the kind of a put, its path and its content.
fn spell_put(at: &Path, value: &Content, out: &mut Vec<u8>) -> Result<(), AllocError>
    requires { length value.now ≤ max_file }
    ensures ok { OnOk result (out.new.items ≡ out.old.items ++ (2 ∷ (path at.now ++ content value.now))) }
    ensures err { OnErr result (IsFront out.old.items out.new.items (2 ∷ (path at.now ++ content value.now))) }
{
    spell_path(2, at, out)?;
    Content::spell(value, out)?;
    Ok(())
}

/// Appends a kind that names a path and says yes or no, the path, and a byte that is 1 for yes and 0 for no.
#[tactic(auto, using(byte_fields::proofs::Fronts::front_first, byte_fields::proofs::Fronts::front_before))]
pub(crate) fn spell_mode(at: &Path, exec: bool, out: &mut Vec<u8>) -> Result<(), AllocError>
    ensures ok { OnOk result (out.new.items ≡ out.old.items ++ (5 ∷ (path at.now ++ bit exec))) }
    ensures err { OnErr result (IsFront out.old.items out.new.items (5 ∷ (path at.now ++ bit exec))) }
{
    spell_path(5, at, out)?;
    spell_bit(exec, out)
}

/// Appends 1 for yes and 0 for no.
#[tactic(auto, using(byte_fields::proofs::Fronts::front_none))]
pub fn spell_bit(value: bool, out: &mut Vec<u8>) -> Result<(), AllocError>
    ensures ok { OnOk result (out.new.items ≡ out.old.items ++ bit value) }
    ensures err { OnErr result (IsFront out.old.items out.new.items (bit value)) }
{
    out.push(if value { 1 } else { 0 })?;
    Ok(())
}

impl Effects {
    /// Appends the spelling: four bytes for the number of effects, and the effects.
    ///
    /// # Errors
    ///
    /// `AllocError` where memory runs out. A front of the spelling is then appended.
    #[tactic(auto, using(byte_fields::proofs::Fronts::front_none, byte_fields::proofs::Fronts::front_second))]
    pub fn spell(value: &Effects, out: &mut Vec<u8>) -> Result<(), AllocError>
        requires { EffectsFit value.now }
        ensures ok { OnOk result (out.new.items ≡ out.old.items ++ effects value.now) }
        ensures err { OnErr result (IsFront out.old.items out.new.items (effects value.now)) }
    {
        let items = value.as_slice();
        put_u32(out, value.len() as u32)?;
        put_each(items, out)?;
        Ok(())
    }
}

impl Base {
    /// Appends the spelling: the path, and eight bytes for the version.
    ///
    /// # Errors
    ///
    /// `AllocError` where memory runs out. A front of the spelling is then appended.
    #[tactic(auto, using(byte_fields::proofs::Fronts::front_first, byte_fields::proofs::Fronts::front_before))]
    pub fn spell(value: &Base, out: &mut Vec<u8>) -> Result<(), AllocError>
        ensures ok { OnOk result (out.new.items ≡ out.old.items ++ base value.now) }
        ensures err { OnErr result (IsFront out.old.items out.new.items (base value.now)) }
    {
        Path::spell(&value.path, out)?;
        put_u64(out, value.version)?;
        Ok(())
    }

    /// The number of bytes of the spelling.
    #[tactic(auto, using(crate::proofs::Sizes::base_length))]
    pub fn size(&self) -> u64
        ensures value { result ≡ length (base self.now) }
        ensures bound { result ≤ 1034 }
    {
        self.path.size() + 8
    }
}

impl Bases {
    /// Appends the spelling: four bytes for the number of bases, and the bases.
    ///
    /// # Errors
    ///
    /// `AllocError` where memory runs out. A front of the spelling is then appended.
    #[tactic(auto, using(byte_fields::proofs::Fronts::front_none, byte_fields::proofs::Fronts::front_second))]
    pub fn spell(value: &Bases, out: &mut Vec<u8>) -> Result<(), AllocError>
        ensures ok { OnOk result (out.new.items ≡ out.old.items ++ bases value.now) }
        ensures err { OnErr result (IsFront out.old.items out.new.items (bases value.now)) }
    {
        let items = value.as_slice();
        put_u32(out, value.len() as u32)?;
        put_each(items, out)?;
        Ok(())
    }
}

/// Appends what stands at a path: a byte for its kind, and a file's content.
#[tactic(auto, using(byte_fields::proofs::Fronts::front_none, byte_fields::proofs::Fronts::front_second))]
fn spell_node(value: Option<&Node>, out: &mut Vec<u8>) -> Result<(), AllocError>
    requires { node_size (option_copied value) ≤ max_file }
    ensures ok { OnOk result (out.new.items ≡ out.old.items ++ node (option_copied value.entry)) }
    ensures err { OnErr result (IsFront out.old.items out.new.items (node (option_copied value.entry))) }
{
    match value {
        None => out.push(0)?,
        Some(Node::Folder) => out.push(1)?,
        Some(Node::File { content, exec }) => {
            out.push(if *exec { 3 } else { 2 })?;
            Content::spell(content, out)?;
        }
    }
    Ok(())
}

/// Appends a row's path, its version and what stands at the path.
#[tactic(auto, using(byte_fields::proofs::Fronts::front_first, byte_fields::proofs::Fronts::front_before, byte_fields::proofs::Fronts::front_third))]
pub fn spell_row(
    path: &Path,
    version: u64,
    node: Option<&Node>,
    out: &mut Vec<u8>,
) -> Result<(), AllocError>
    requires { node_size (option_copied node) ≤ max_file }
    ensures ok { OnOk result
        (out.new.items ≡ out.old.items ++ row (record { path = path.now; version = version; node = option_copied node.entry })) }
    ensures err { OnErr result
        (IsFront out.old.items out.new.items (row (record { path = path.now; version = version; node = option_copied node.entry }))) }
{
    Path::spell(path, out)?;
    put_u64(out, version)?;
    spell_node(node, out)?;
    Ok(())
}

impl Row {
    /// Appends the spelling: the path, eight bytes for the version, and what stands at the path.
    ///
    /// # Errors
    ///
    /// `AllocError` where memory runs out. A front of the spelling is then appended.
    pub fn spell(value: &Row, out: &mut Vec<u8>) -> Result<(), AllocError>
        requires { node_size value.now.node ≤ max_file }
        ensures ok { OnOk result (out.new.items ≡ out.old.items ++ row value.now) }
        ensures err { OnErr result (IsFront out.old.items out.new.items (row value.now)) }
    {
        spell_row(&value.path, value.version, value.node.as_ref(), out)
    }
}

impl Rows {
    /// Appends the spelling of a tree's rows: four bytes for their number, and the rows.
    ///
    /// # Errors
    ///
    /// `AllocError` where memory runs out. A front of the spelling is then appended.
    #[tactic(auto, using(byte_fields::proofs::Fronts::front_none, byte_fields::proofs::Fronts::front_second))]
    pub fn spell(value: &Rows, out: &mut Vec<u8>) -> Result<(), AllocError>
        requires { IsTree value.now }
        ensures ok { OnOk result (out.new.items ≡ out.old.items ++ rows value.now) }
        ensures err { OnErr result (IsFront out.old.items out.new.items (rows value.now)) }
    {
        let items = value.as_slice();
        put_u32(out, value.len() as u32)?;
        put_each(items, out)?;
        Ok(())
    }
}

impl Spelled for Effect {
    ghost spelling = { effect };

    ghost fits = { EffectFits };

    fn put(&self, out: &mut Vec<u8>) -> Result<(), AllocError> {
        Effect::spell(self, out)
    }
}

impl Spelled for Base {
    ghost spelling = { base };

    ghost fits = { λ _. Unit {0} };

    fn put(&self, out: &mut Vec<u8>) -> Result<(), AllocError> {
        Base::spell(self, out)
    }
}

impl Spelled for Row {
    ghost spelling = { row };

    ghost fits = { λ x. node_size x.node ≤ max_file };

    fn put(&self, out: &mut Vec<u8>) -> Result<(), AllocError> {
        Row::spell(self, out)
    }
}
