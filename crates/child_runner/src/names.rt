// The names of runs: of their folders, and of the locks beside those.
ghost use Rattle.std.specs.Prelude.{◌≡◌, ℕ, ◌<◌, ◌≤◌, ◌^◌, List, length, ◌++◌, true, false, IfOk, IfSome, OnOk, string_bytes};
ghost use Rattle.std.specs.Fmt.{digit_glyph};
ghost use Rattle.std.specs.List.{list_all, flat_map, AllByRecursion};
ghost use Rattle.child_runner.specs.Names as names;

use std::alloc::{AllocError, Global};

/// The most names that are tried for a run.
pub const MAX_TRIED: u32 = 65_536;

/// What each name of a run begins with.
const FRONT: &[u8] = b"run-";

/// How many bytes of its job's print stand in the name of a run.
pub const NAMED_BYTES: usize = 8;

/// How many digits those are.
const NAMED_DIGITS: usize = 2 * NAMED_BYTES;

/// What the name of a folder that waits for its removal begins with.
const LEFT: &str = "left-";

/// What stands behind the name of a folder in the name of its lock.
const LOCK: &str = ".lock";

/// The name of a run's folder: the front of its job's print, and, but for the first name, its number.
pub(crate) fn folder_name(
    alloc: Global,
    print: &[u8; 32],
    number: u32,
) -> Result<Vec<u8>, AllocError>
    ensures { IfOk result (λ name. name.items ≡ names.folder_name print.now number) }
{
    let mut name = Vec::from_slice(alloc, FRONT)?;
    push_print(&mut name, &print[..NAMED_BYTES])?;
    push_number(&mut name, number)?;
    Ok(name)
}

/// A name that a run is given is known as one.
#[tactic(auto, using(crate::proofs::Known::name_known))]
pub fn names_are_known()
    ensures { (print : List ℕ) (number : ℕ) → AllByRecursion (λ b. b < 256) print → names.named_bytes ≤ length print → number < 2 ^ 32
        → names.is_folder_name (names.folder_name print number) ≡ true }
{}

/// A folder that waits for its removal has a name of no run, and a run has no name of such a folder.
#[tactic(auto, using(crate::proofs::Left::left_is_no_run, crate::proofs::Left::run_is_not_left))]
pub fn left_names_are_no_run_s()
    ensures left { (number : ℕ) → names.is_folder_name (names.left_name number) ≡ false }
    ensures known { (number : ℕ) → names.is_left_name (names.left_name number) ≡ true }
    ensures runs { (print : List ℕ) (number : ℕ) → names.is_left_name (names.folder_name print number) ≡ false }
{}

/// Adds the digits of the bytes.
fn push_print(name: &mut Vec<u8>, bytes: &[u8]) -> Result<(), AllocError>
    ensures { OnOk result (name.new.items ≡ name.old.items ++ flat_map names.hex bytes.now) }
{
    for byte in bytes {
        push_hex(name, *byte)?;
    }
    Ok(())
}

/// Adds the two digits of a byte.
fn push_hex(name: &mut Vec<u8>, byte: u8) -> Result<(), AllocError>
    ensures { OnOk result (name.new.items ≡ name.old.items ++ names.hex byte) }
{
    name.extend_from_slice(&[hex_digit(byte / 16), hex_digit(byte % 16)])
}

fn hex_digit(n: u8) -> u8
    requires { n < 16 }
    ensures { result ≡ digit_glyph false n }
{
    if n < 10 { b'0' + n } else { b'a' + (n - 10) }
}

/// Adds the number of a name; the first name has none.
fn push_number(name: &mut Vec<u8>, number: u32) -> Result<(), AllocError>
    ensures { OnOk result (name.new.items ≡ name.old.items ++ names.numbered_suffix number) }
{
    if number == 0 {
        return Ok(());
    }
    name.extend_from_slice(b"-")?;
    let alloc = *name.allocator();
    let text = number.to_string(alloc)?;
    name.extend_from_slice(text.as_bytes())
}

/// The name of a folder that waits for its removal.
pub(crate) fn left_name(alloc: Global, number: u32) -> Result<String, AllocError>
    ensures { IfOk result (λ name. string_bytes name ≡ names.left_name number) }
{
    let mut name = String::from_str(alloc, LEFT)?;
    let text = number.to_string(alloc)?;
    name.push_str(text.as_str())?;
    Ok(name)
}

/// The place of the lock beside a folder.
pub(crate) fn lock_place(alloc: Global, folder: &str) -> Result<String, AllocError>
    ensures { IfOk result (λ place. string_bytes place ≡ folder.now ++ names.lock_end) }
{
    let mut place = String::from_str(alloc, folder)?;
    place.push_str(LOCK)?;
    Ok(place)
}

/// The name of the folder of the run that has this folder or this lock.
pub(crate) fn run_of(name: &str) -> Option<&str>
    ensures { IfSome result (λ folder. names.is_folder_name folder.now ≡ true) }
{
    let folder = name.strip_suffix(LOCK).unwrap_or(name);
    if !is_folder_name(folder.as_bytes()) {
        return None;
    }
    Some(folder)
}

/// Whether a run's folder may have this name.
pub(crate) fn is_folder_name(name: &[u8]) -> bool
    ensures { result ≡ names.is_folder_name name.now }
{
    if name.len() < FRONT.len() {
        return false;
    }
    let (front, rest) = name.split_at(FRONT.len());
    front == FRONT && is_print_and_number(rest)
}

fn is_print_and_number(rest: &[u8]) -> bool
    ensures { result ≡ names.is_print_and_number rest.now }
{
    if rest.len() < NAMED_DIGITS {
        return false;
    }
    let (print, number) = rest.split_at(NAMED_DIGITS);
    are_hex(print) && is_numbered(number)
}

fn are_hex(digits: &[u8]) -> bool
    ensures { result ≡ list_all names.is_hex digits.now }
{
    digits.iter().all(|b| is_hex(*b))
}

fn is_hex(b: u8) -> bool
    ensures { result ≡ names.is_hex b }
{
    is_digit(b) || (97 <= b && b <= 102)
}

fn is_digit(b: u8) -> bool
    ensures { result ≡ names.is_digit b }
{
    48 <= b && b <= 57
}

/// Whether it is nothing, or the number of a name.
fn is_numbered(text: &[u8]) -> bool
    ensures { result ≡ names.is_numbered text.now }
{
    match text {
        [] => true,
        [b'-', digits @ ..] => is_number(digits),
        _ => false,
    }
}

/// Whether they are digits of which the first is not 0.
fn is_number(digits: &[u8]) -> bool
    ensures { result ≡ names.is_number digits.now }
{
    match digits {
        [first, ..] => *first != 48 && are_digits(digits),
        [] => false,
    }
}

fn are_digits(digits: &[u8]) -> bool
    ensures { result ≡ list_all names.is_digit digits.now }
{
    digits.iter().all(|b| is_digit(*b))
}
