// Paths, contents, effects, bases and rows.

ghost use Rattle.std.specs.Prelude.{◌≤◌, IfOk};
ghost use Rattle.tree_values.specs.Limits.{max_effects, max_files};
ghost use Rattle.tree_values.specs.Spelling.{EffectFits, EffectsFit};

use crate::answers::{Answer, not_taken, read_until};
use crate::readers::Told;
use crate::texts::{
    put_file, put_mode, put_move, put_number, put_path, put_path_line, put_touched, put_word,
};
use std::alloc::{AllocError, Global};
use t_scene_files::{Fault, number};
use tree_values::size_of;
use vol_tree::{
    Base, Bases, Content, Effect, Effects, Format, MAX_EFFECTS, MAX_FILE, MAX_FILES, Node, Path,
    Paths, Row, Rows, TakeError, Tree, TryCopy,
};

/// Reads a path.
pub(crate) fn read_path(alloc: Global, bytes: &[u8], told: &mut Told) -> Result<Answer, Fault> {
    match Path::take(alloc, bytes, 0) {
        Ok((path, next)) => {
            let done = tell_path(&path, told);
            drop(path);
            done?;
            Ok(read_until(next, bytes))
        }
        Err(error) => not_taken(error),
    }
}

fn tell_path(path: &Path, told: &mut Told) -> Result<(), AllocError> {
    put_path(&mut told.text, "", path)?;
    let copy = path.copy()?;
    let done = Path::spell(&copy, &mut told.written);
    drop(copy);
    done
}

/// Reads a path, and tells the folder that it stands in.
pub(crate) fn read_parent(alloc: Global, bytes: &[u8], told: &mut Told) -> Result<Answer, Fault> {
    match Path::take(alloc, bytes, 0) {
        Ok((path, next)) => {
            let done = tell_parent(&path, told);
            drop(path);
            done?;
            Ok(read_until(next, bytes))
        }
        Err(error) => not_taken(error),
    }
}

fn tell_parent(path: &Path, told: &mut Told) -> Result<(), AllocError> {
    match path.parent()? {
        Some(parent) => {
            let done = put_path(&mut told.text, "below /", &parent);
            drop(parent);
            done?;
        }
        None => put_word(&mut told.text, "at the top")?,
    }
    Path::spell(path, &mut told.written)
}

/// The number that a word tells, or the greatest, where it is above that.
fn limit(word: &str, greatest: usize) -> Result<usize, Fault>
    ensures { IfOk result (λ limit. limit ≤ greatest) }
{
    let limit = number(word)? as usize;
    if limit > greatest {
        return Ok(greatest);
    }
    Ok(limit)
}

/// Reads a content, of at most so many bytes where the rest of the line tells how many.
pub(crate) fn read_content(
    alloc: Global,
    bytes: &[u8],
    rest: &str,
    told: &mut Told,
) -> Result<Answer, Fault> {
    let taken = if rest.is_empty() {
        Content::take(alloc, bytes, 0)
    } else {
        Content::take_within(alloc, bytes, 0, limit(rest, MAX_FILE)?)
    };
    match taken {
        Ok((content, next)) => {
            let done = tell_content(&content, told);
            drop(content);
            done?;
            Ok(read_until(next, bytes))
        }
        Err(error) => not_taken(error),
    }
}

fn tell_content(content: &Content, told: &mut Told) -> Result<(), AllocError> {
    told.text.extend_from_slice(content.bytes())?;
    if content.bytes().len() > MAX_FILE {
        return Ok(());
    }
    Content::spell(content, &mut told.written)
}

/// Reads an effect, with a content of at most so many bytes where the rest of the line tells how many.
pub(crate) fn read_effect(
    alloc: Global,
    bytes: &[u8],
    rest: &str,
    told: &mut Told,
) -> Result<Answer, Fault> {
    let taken = if rest.is_empty() {
        effect_taken(alloc, bytes)
    } else {
        effect_taken_within(alloc, bytes, room(rest)?)
    };
    match taken {
        Ok((effect, next)) => {
            let done = tell_effect(alloc, &effect, told);
            drop(effect);
            done?;
            Ok(read_until(next, bytes))
        }
        Err(error) => not_taken(error),
    }
}

fn effect_taken(alloc: Global, bytes: &[u8]) -> Result<(Effect, usize), TakeError>
    ensures { IfOk result (λ x. EffectFits x.0) }
{
    Effect::take(alloc, bytes, 0)
}

fn effect_taken_within(
    alloc: Global,
    bytes: &[u8],
    room: usize,
) -> Result<(Effect, usize), TakeError>
    ensures { IfOk result (λ x. EffectFits x.0) }
{
    Effect::take_in(Format::Second, alloc, bytes, 0, room)
}

fn tell_effect(alloc: Global, effect: &Effect, told: &mut Told) -> Result<(), AllocError>
    requires { EffectFits effect.now }
{
    put_effect(alloc, &mut told.text, effect)?;
    let copy = effect.copy()?;
    let done = Effect::spell(&copy, &mut told.written);
    drop(copy);
    done
}

/// The most bytes of a content that the rest of a line tells.
pub(crate) fn room(rest: &str) -> Result<usize, Fault>
    ensures { IfOk result (λ room. room ≤ max_files) }
{
    limit(rest, MAX_FILES)
}

/// The most effects, and the most bytes of their contents, that the rest of a line tells.
pub(crate) fn limits(rest: &str) -> Result<(u32, usize), Fault>
    ensures most { IfOk result (λ x. x.0 ≤ max_effects) }
    ensures room { IfOk result (λ x. x.1 ≤ max_files) }
{
    let Some((most, room)) = rest.split_once(' ') else {
        return Err(Fault::Line("two limits are wanted"));
    };
    let most = limit(most, MAX_EFFECTS)? as u32;
    Ok((most, limit(room, MAX_FILES)?))
}

/// Reads effects, at most so many with contents of at most so many bytes where the rest of the line tells how many.
pub(crate) fn read_effects(
    alloc: Global,
    bytes: &[u8],
    rest: &str,
    told: &mut Told,
) -> Result<Answer, Fault> {
    let taken = if rest.is_empty() {
        effects_taken(alloc, bytes)
    } else {
        let (most, room) = limits(rest)?;
        effects_taken_within(alloc, bytes, most, room)
    };
    match taken {
        Ok((effects, next)) => {
            let done = tell_effects(alloc, &effects, told);
            drop(effects);
            done?;
            Ok(read_until(next, bytes))
        }
        Err(error) => not_taken(error),
    }
}

fn effects_taken(alloc: Global, bytes: &[u8]) -> Result<(Effects, usize), TakeError>
    ensures { IfOk result (λ x. EffectsFit x.0) }
{
    Effects::take(alloc, bytes, 0)
}

fn effects_taken_within(
    alloc: Global,
    bytes: &[u8],
    most: u32,
    room: usize,
) -> Result<(Effects, usize), TakeError>
    requires most { most ≤ max_effects }
    requires room { room ≤ max_files }
    ensures { IfOk result (λ x. EffectsFit x.0) }
{
    Effects::take_within(alloc, bytes, 0, most, room)
}

/// Each effect and each touched path; what is written of a copy.
fn tell_effects(alloc: Global, effects: &Effects, told: &mut Told) -> Result<(), AllocError>
    requires { EffectsFit effects.now }
{
    put_effects(alloc, &mut told.text, effects.as_slice())?;
    put_touched(&mut told.text, effects.touched()?)?;
    let copy = effects.copy()?;
    let done = Effects::spell(&copy, &mut told.written);
    drop(copy);
    done
}

/// Appends a line for each effect, and a put's content behind its own.
pub(crate) fn put_effects(
    alloc: Global,
    text: &mut Vec<u8>,
    effects: &[Effect],
) -> Result<(), AllocError> {
    for effect in effects {
        put_effect(alloc, text, effect)?;
    }
    Ok(())
}

fn put_effect(alloc: Global, text: &mut Vec<u8>, effect: &Effect) -> Result<(), AllocError> {
    match effect {
        Effect::Make(path) => put_path_line(text, "make ", path),
        Effect::Put(path, content) => {
            put_path(text, "put ", path)?;
            put_file(alloc, text, " ", content)
        }
        Effect::Remove(path) => put_path_line(text, "remove ", path),
        Effect::Move(from, to) => put_move(text, from, to),
        Effect::Mode(path, exec) => put_mode(text, path, *exec),
    }
}

/// Reads the versions of these paths.
pub(crate) fn read_base(
    alloc: Global,
    bytes: &[u8],
    rest: &str,
    told: &mut Told,
) -> Result<Answer, Fault> {
    let touched = paths_in(alloc, rest)?;
    let taken = Bases::take(alloc, bytes, 0, &touched);
    drop(touched);
    match taken {
        Ok((bases, next)) => {
            let done = tell_base(alloc, &bases, told);
            drop(bases);
            done?;
            Ok(read_until(next, bytes))
        }
        Err(error) => not_taken(error),
    }
}

/// The paths of these texts.
fn paths_in(alloc: Global, texts: &str) -> Result<Paths, Fault> {
    let mut paths = Paths::new(alloc);
    for text in texts.split(' ') {
        let done = push_path(alloc, &mut paths, text);
        if let Err(fault) = done {
            drop(paths);
            return Err(fault);
        }
    }
    Ok(paths)
}

fn push_path(alloc: Global, paths: &mut Paths, text: &str) -> Result<(), Fault> {
    match Path::read(alloc, text.as_bytes()) {
        Ok(path) => Ok(paths.push(path)?),
        Err(_) => Err(Fault::Line("that is no path")),
    }
}

fn tell_base(alloc: Global, bases: &Bases, told: &mut Told) -> Result<(), AllocError> {
    put_bases(alloc, &mut told.text, bases.as_slice())?;
    let copy = bases.copy()?;
    let done = Bases::spell(&copy, &mut told.written);
    drop(copy);
    done
}

/// Appends a line for each path and its version.
pub(crate) fn put_bases(
    alloc: Global,
    text: &mut Vec<u8>,
    bases: &[Base],
) -> Result<(), AllocError> {
    for base in bases {
        put_path(text, "base ", &base.path)?;
        put_number(alloc, text, " ", base.version)?;
        put_word(text, "\n")?;
    }
    Ok(())
}

/// Reads a row, with no rows before it.
pub(crate) fn read_row(alloc: Global, bytes: &[u8], told: &mut Told) -> Result<Answer, Fault> {
    match Row::take(alloc, bytes, 0) {
        Ok((row, next)) => {
            let done = tell_row(alloc, &row, told);
            drop(row);
            done?;
            Ok(read_until(next, bytes))
        }
        Err(error) => not_taken(error),
    }
}

fn tell_row(alloc: Global, row: &Row, told: &mut Told) -> Result<(), AllocError> {
    put_row(alloc, &mut told.text, row)?;
    if size_of(row.node.as_ref()) > MAX_FILE as u64 {
        return Ok(());
    }
    let copy = row.copy()?;
    let done = Row::spell(&copy, &mut told.written);
    drop(copy);
    done
}

/// Reads rows, and writes those of their tree.
pub(crate) fn read_rows(alloc: Global, bytes: &[u8], told: &mut Told) -> Result<Answer, Fault> {
    match Rows::take(alloc, bytes, 0) {
        Ok((rows, next)) => {
            let done = tell_rows(alloc, rows, told);
            done?;
            Ok(read_until(next, bytes))
        }
        Err(error) => not_taken(error),
    }
}

fn tell_rows(alloc: Global, rows: Rows, told: &mut Told) -> Result<(), Fault> {
    let done = put_rows(alloc, &mut told.text, rows.as_slice());
    if done.is_err() {
        drop(rows);
        return Err(Fault::Memory);
    }
    match Tree::from_rows(alloc, rows) {
        Ok(tree) => {
            let done = tree.spell_rows(&mut told.written);
            drop(tree);
            Ok(done?)
        }
        Err(_) => Err(Fault::Line("these rows are no tree")),
    }
}

/// Appends a line for each row, and a file's content behind its own.
fn put_rows(alloc: Global, text: &mut Vec<u8>, rows: &[Row]) -> Result<(), AllocError> {
    for row in rows {
        put_row(alloc, text, row)?;
    }
    Ok(())
}

fn put_row(alloc: Global, text: &mut Vec<u8>, row: &Row) -> Result<(), AllocError> {
    put_path(text, "row ", &row.path)?;
    put_number(alloc, text, " ", row.version)?;
    put_node(alloc, text, row.node.as_ref())
}

pub(crate) fn put_node(
    alloc: Global,
    text: &mut Vec<u8>,
    node: Option<&Node>,
) -> Result<(), AllocError> {
    match node {
        None => put_word(text, " nothing\n"),
        Some(Node::Folder) => put_word(text, " folder\n"),
        Some(Node::File { content, exec }) => put_file(alloc, text, word_of_file(*exec), content),
    }
}

/// The word of a file that may be run, or not.
fn word_of_file(exec: bool) -> &'static str {
    if exec { " program " } else { " file " }
}
