//! Why an effect is refused: taking and spelling a refusal.

ghost use Rattle.std.specs.Prelude.{◌≡◌, ◌≢◌, [], ◌∷◌, ◌++◌, OnOk, OnErr};
ghost use Rattle.std.specs.Int.{w32, w64};
ghost use Rattle.byte_fields.specs.Field.{Gives, IsFront, digits, number_at, one, of_kind};
ghost use Rattle.tree_values.specs.declared.node.TreeError.TheVariants.{RowsFull, FileTooLarge, TreeFull, Memory};
ghost use Rattle.tree_values.specs.Fault.{tree_fault, fault_kinds, fault_at, fault_of};

use crate::node::TreeError;
use crate::spelling::{spell_path, spell_paths};
use byte_fields::{TakeError, put_u32, put_u64, u8_at, u32_at, u64_at};
use file_paths::Path;
use std::alloc::{AllocError, Global};

/// A refusal, and the place after it.
type Taken = Result<(TreeError, usize), TakeError>;

impl TreeError {
    /// Appends the spelling: a byte for the number of the refusal, and what it names. Want of memory has no spelling.
    ///
    /// # Errors
    ///
    /// `AllocError` where memory runs out. A front of the spelling is then appended.
    pub fn spell(value: &TreeError, out: &mut Vec<u8>) -> Result<(), AllocError>
        requires { value.now ≢ Memory }
        ensures ok { OnOk result (out.new.items ≡ out.old.items ++ tree_fault value.now) }
        ensures err { OnErr result (IsFront out.old.items out.new.items (tree_fault value.now)) }
    {
        match value {
            TreeError::RootFixed => spell_number(1, out),
            TreeError::NoParent(path) => spell_path(2, path, out),
            TreeError::Exists(path) => spell_path(3, path, out),
            TreeError::Missing(path) => spell_path(4, path, out),
            TreeError::IsFolder(path) => spell_path(5, path, out),
            TreeError::NotEmpty(path, child) => spell_paths(6, path, child, out),
            TreeError::RowsFull(rows) => spell_count(7, *rows, out),
            TreeError::FileTooLarge(size) => spell_size(8, *size, out),
            TreeError::TreeFull(size) => spell_size(9, *size, out),
            TreeError::VersionTop(path) => spell_path(10, path, out),
            TreeError::Memory => unreachable!(),
        }
    }

    /// Takes the refusal at the place, and gives the place after it.
    ///
    /// # Errors
    ///
    /// `At` the first faulty field: the number, where it is that of no refusal; or a field of what the refusal names.
    /// `Memory` where memory runs out.
    #[tactic(auto, unfolding(crate::specs::Fault::fault_at))]
    pub fn take(alloc: Global, bytes: &[u8], at: usize) -> Result<(TreeError, usize), TakeError>
        ensures { Gives result (fault_at bytes.now at) }
    {
        let (kind, start) = u8_at(bytes, at)?;
        fault_of_kind(alloc, bytes, at, kind, start)
    }

    /// Takes the refusal at the place, whose number is one of those that are allowed, and gives the place after it.
    ///
    /// # Errors
    ///
    /// As those of `take`, and `At` a number that is not allowed.
    #[tactic(auto, unfolding(crate::specs::Fault::fault_of))]
    pub fn take_one_of(
        alloc: Global,
        bytes: &[u8],
        at: usize,
        allowed: &[u8],
    ) -> Result<(TreeError, usize), TakeError>
        ensures { Gives result (fault_of allowed.now bytes.now at) }
    {
        let (kind, start) = u8_at(bytes, at)?;
        if !allowed.contains(&kind) {
            return Err(TakeError::At(at));
        }
        fault_of_kind(alloc, bytes, at, kind, start)
    }
}

/// What the refusal of this number names. The number stands at `at`, what follows it at `start`.
fn fault_of_kind(alloc: Global, bytes: &[u8], at: usize, kind: u8, start: usize) -> Taken
    ensures { Gives result (of_kind fault_kinds at kind bytes.now start) }
{
    match kind {
        1 => Ok((TreeError::RootFixed, start)),
        2 => {
            let (path, next) = Path::take(alloc, bytes, start)?;
            Ok((TreeError::NoParent(path), next))
        }
        3 => {
            let (path, next) = Path::take(alloc, bytes, start)?;
            Ok((TreeError::Exists(path), next))
        }
        4 => {
            let (path, next) = Path::take(alloc, bytes, start)?;
            Ok((TreeError::Missing(path), next))
        }
        5 => {
            let (path, next) = Path::take(alloc, bytes, start)?;
            Ok((TreeError::IsFolder(path), next))
        }
        6 => {
            let (path, middle) = Path::take(alloc, bytes, start)?;
            let (child, next) = Path::take(alloc, bytes, middle)?;
            Ok((TreeError::NotEmpty(path, child), next))
        }
        7 => rows_full_at(bytes, start),
        8 => file_too_large_at(bytes, start),
        9 => tree_full_at(bytes, start),
        10 => {
            let (path, next) = Path::take(alloc, bytes, start)?;
            Ok((TreeError::VersionTop(path), next))
        }
        _ => Err(TakeError::At(at)),
    }
}

fn rows_full_at(bytes: &[u8], at: usize) -> Taken
    ensures { Gives result (one (number_at w32) RowsFull bytes.now at) }
{
    let (rows, next) = u32_at(bytes, at)?;
    Ok((TreeError::RowsFull(rows), next))
}

fn file_too_large_at(bytes: &[u8], at: usize) -> Taken
    ensures { Gives result (one (number_at w64) FileTooLarge bytes.now at) }
{
    let (size, next) = u64_at(bytes, at)?;
    Ok((TreeError::FileTooLarge(size), next))
}

fn tree_full_at(bytes: &[u8], at: usize) -> Taken
    ensures { Gives result (one (number_at w64) TreeFull bytes.now at) }
{
    let (size, next) = u64_at(bytes, at)?;
    Ok((TreeError::TreeFull(size), next))
}

/// Appends the number of a refusal that names nothing.
#[tactic(auto, using(byte_fields::proofs::Fronts::front_none))]
fn spell_number(number: u8, out: &mut Vec<u8>) -> Result<(), AllocError>
    ensures ok { OnOk result (out.new.items ≡ out.old.items ++ (number ∷ [])) }
    ensures err { OnErr result (IsFront out.old.items out.new.items (number ∷ [])) }
{
    out.push(number)?;
    Ok(())
}

/// Appends the number of a refusal that names a number of rows, and that number.
#[tactic(auto, using(byte_fields::proofs::Fronts::front_none, byte_fields::proofs::Fronts::front_before))]
fn spell_count(number: u8, rows: u32, out: &mut Vec<u8>) -> Result<(), AllocError>
    ensures ok { OnOk result (out.new.items ≡ out.old.items ++ (number ∷ digits w32 rows)) }
    ensures err { OnErr result (IsFront out.old.items out.new.items (number ∷ digits w32 rows)) }
{
    out.push(number)?;
    put_u32(out, rows)?;
    Ok(())
}

/// Appends the number of a refusal that names a number of bytes, and that number.
#[tactic(auto, using(byte_fields::proofs::Fronts::front_none, byte_fields::proofs::Fronts::front_before))]
fn spell_size(number: u8, size: u64, out: &mut Vec<u8>) -> Result<(), AllocError>
    ensures ok { OnOk result (out.new.items ≡ out.old.items ++ (number ∷ digits w64 size)) }
    ensures err { OnErr result (IsFront out.old.items out.new.items (number ∷ digits w64 size)) }
{
    out.push(number)?;
    put_u64(out, size)?;
    Ok(())
}
