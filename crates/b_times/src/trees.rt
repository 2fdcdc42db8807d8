//! Times a tree. It looks up the paths of files and puts files, at 10, 1,000, 16,000 and 16,384 rows, and looks up the texts of the
//! same paths in a `BTreeMap`. It prints for each number of rows how many paths were found, the nanoseconds of that, how many puts were
//! applied, the nanoseconds of that, how many texts were found, and the nanoseconds of that.

ghost use Rattle.std.specs.Prelude.{◌<◌};

use std::alloc::{AllocError, Global};
use std::collections::BTreeMap;
use std::time::Instant;
use vol_tree::{Content, Effect, Path, Tree, TryCopy};

/// How many look-ups are timed.
const FINDS: usize = 200_000;

/// How many puts are timed.
const PUTS: usize = 20_000;

/// Two letters, which stand for the number below 256.
fn name_of(number: u32) -> [u8; 2] {
    let letter = |digit: u32| b'a' + (digit % 16) as u8;
    [letter(number / 16), letter(number)]
}

/// The texts of so many folders in the root.
fn folder_texts(alloc: Global, folders: u32) -> Result<Vec<Vec<u8>>, AllocError> {
    let mut texts = Vec::new(alloc);
    for folder in 0..folders {
        texts.push(Vec::from_slice(alloc, &name_of(folder))?)?;
    }
    Ok(texts)
}

/// The texts of so many files, one folder after the other.
fn file_texts(alloc: Global, folders: u32, files: u32) -> Result<Vec<Vec<u8>>, AllocError>
    requires { 0 < folders }
{
    let mut texts = Vec::new(alloc);
    for file in 0..files {
        let mut text = Vec::from_slice(alloc, &name_of(file % folders))?;
        text.push(b'/')?;
        text.extend_from_slice(&name_of(file / folders))?;
        texts.push(text)?;
    }
    Ok(texts)
}

fn paths_of(alloc: Global, texts: &[Vec<u8>]) -> Result<Vec<Path>, anyhow::Error> {
    let mut paths = Vec::new(alloc);
    for text in texts {
        paths.push(Path::read(alloc, text)?)?;
    }
    Ok(paths)
}

/// The effects that put a file of two bytes at each path.
fn puts_of(alloc: Global, paths: &[Path]) -> Result<Vec<Effect>, AllocError> {
    let content = Content::of(alloc, b"ok")?;
    let mut puts = Vec::new(alloc);
    for path in paths {
        puts.push(Effect::Put(path.copy()?, content.copy()?))?;
    }
    Ok(puts)
}

/// Applies so many effects, from the first again behind the last, and counts those that are not refused.
fn apply(tree: &mut Tree, effects: &[Effect], count: usize) -> usize {
    let mut applied = 0_usize;
    for effect in effects.iter().cycle().take(count) {
        if tree.apply(effect).is_ok() {
            applied = applied.wrapping_add(1);
        }
    }
    applied
}

/// Looks up so many paths, and counts those at which something stands.
fn find(tree: &Tree, paths: &[Path], count: usize) -> usize {
    let mut found = 0_usize;
    for path in paths.iter().cycle().take(count) {
        if tree.get(path).is_some() {
            found = found.wrapping_add(1);
        }
    }
    found
}

/// Looks up so many texts, and counts those that are there.
fn find_texts(map: &BTreeMap<Vec<u8>, u32>, texts: &[Vec<u8>], count: usize) -> usize {
    let mut found = 0_usize;
    for text in texts.iter().cycle().take(count) {
        if map.get(text).is_some() {
            found = found.wrapping_add(1);
        }
    }
    found
}

/// The tree of so many folders in the root, without files.
fn folder_tree(alloc: Global, folders: u32) -> Result<Tree, anyhow::Error> {
    let texts = folder_texts(alloc, folders)?;
    let paths = paths_of(alloc, &texts);
    drop(texts);
    tree_of(alloc, &paths?)
}

/// The tree of these folders without files.
fn tree_of(alloc: Global, folders: &[Path]) -> Result<Tree, anyhow::Error> {
    let mut tree = Tree::new(alloc);
    for folder in folders {
        let make = Effect::Make(folder.copy()?);
        let made = tree.apply(&make);
        drop(make);
        drop(made?);
    }
    Ok(tree)
}

fn map_of(alloc: Global, texts: &[Vec<u8>]) -> Result<BTreeMap<Vec<u8>, u32>, AllocError> {
    let mut map = BTreeMap::new(alloc);
    for text in texts {
        map.insert(text.clone()?, 1)?;
    }
    Ok(map)
}

/// What was counted while a time passed, and that time in nanoseconds.
#[derive(Clone, Copy, Debug)]
struct Timing {
    count: usize,
    nanos: u128,
}

/// What was counted since `start`.
fn timed(rt: &HostRuntime, start: Instant, count: usize) -> Result<Timing, anyhow::Error> {
    let nanos = start.elapsed(rt)?.as_nanos();
    Ok(Timing { count, nanos })
}

fn time_finds(rt: &HostRuntime, tree: &Tree, paths: &[Path]) -> Result<Timing, anyhow::Error> {
    let start = Instant::now(rt)?;
    timed(rt, start, find(tree, paths, FINDS))
}

fn time_puts(rt: &HostRuntime, tree: &mut Tree, puts: &[Effect]) -> Result<Timing, anyhow::Error> {
    let start = Instant::now(rt)?;
    timed(rt, start, apply(tree, puts, PUTS))
}

/// Times look-ups of the texts in a map of them.
fn time_texts(rt: &HostRuntime, texts: &[Vec<u8>]) -> Result<Timing, anyhow::Error> {
    let map = map_of(rt.alloc(), texts)?;
    let start = Instant::now(rt)?;
    timed(rt, start, find_texts(&map, texts, FINDS))
}

/// Puts the files at these paths into the tree, and prints what was timed of that tree, and of the texts in a map.
fn measure_files(
    rt: &HostRuntime,
    tree: &mut Tree,
    texts: &[Vec<u8>],
    paths: &[Path],
) -> Result<(), anyhow::Error> {
    let puts = puts_of(rt.alloc(), paths)?;
    let made = apply(tree, &puts, puts.len());
    let finds = time_finds(rt, tree, paths);
    let applied = time_puts(rt, tree, &puts);
    drop(puts);
    let (finds, applied) = (finds?, applied?);
    let known = time_texts(rt, texts)?;
    let count = tree.count();
    println!(rt;
        "{count} {made} {} {} {} {} {} {}",
        finds.count, finds.nanos, applied.count, applied.nanos, known.count, known.nanos
    )?;
    Ok(())
}

/// Times a tree of so many rows, `folders` of which are folders.
fn measure(rt: &HostRuntime, folders: u32, rows: u32) -> Result<(), anyhow::Error>
    requires { 0 < folders }
{
    let alloc = rt.alloc();
    let mut tree = folder_tree(alloc, folders)?;
    let texts = file_texts(alloc, folders, rows.saturating_sub(folders))?;
    let paths = paths_of(alloc, &texts)?;
    measure_files(rt, &mut tree, &texts, &paths)
}

pub(crate) fn measure_trees(rt: &HostRuntime) -> Result<(), anyhow::Error> {
    measure(rt, 2, 10)?;
    measure(rt, 64, 1_000)?;
    measure(rt, 64, 16_000)?;
    measure(rt, 64, 16_384)
}
