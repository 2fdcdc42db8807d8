// Commands, what made entries, entries, and sketched effects.

ghost use Rattle.std.specs.Prelude.{IfOk};
ghost use Rattle.tree_values.specs.Spelling.{EffectsFit};

use crate::answers::{Answer, not_taken, read_until};
use crate::readers::Told;
use crate::texts::{
    put_digits, put_line, put_mode, put_move, put_number, put_path, put_path_line, put_paths,
    put_touched, put_word,
};
use crate::values::{limits, put_bases, put_effects, room};
use cmd_capture::{Command, Env};
use mod_log::{Entry, Origin, SketchEffect, SketchEffects};
use std::alloc::{AllocError, Global};
use t_scene_files::{Fault, number};
use vol_tree::{Content, TakeError, TryCopy};

/// Reads a command.
pub(crate) fn read_command(alloc: Global, bytes: &[u8], told: &mut Told) -> Result<Answer, Fault> {
    match Command::take(alloc, bytes, 0) {
        Ok((command, next)) => {
            let done = tell_command(&command, told);
            drop(command);
            done?;
            Ok(read_until(next, bytes))
        }
        Err(error) => not_taken(error),
    }
}

fn tell_command(command: &Command, told: &mut Told) -> Result<(), AllocError> {
    put_command(&mut told.text, command)?;
    let copy = command.copy()?;
    let done = Command::spell(&copy, &mut told.written);
    drop(copy);
    done
}

/// Appends a line for each part of a command.
pub(crate) fn put_command(text: &mut Vec<u8>, command: &Command) -> Result<(), AllocError> {
    put_line(text, "program ", command.program.bytes())?;
    put_contents(text, "argument ", command.args.as_slice())?;
    put_path_line(text, "in /", &command.cwd)?;
    put_variables(text, &command.env)?;
    put_paths(text, "input ", command.inputs.as_slice())?;
    put_contents(text, "template ", command.templates.as_slice())
}

fn put_contents(text: &mut Vec<u8>, word: &str, contents: &[Content]) -> Result<(), AllocError> {
    for content in contents {
        put_line(text, word, content.bytes())?;
    }
    Ok(())
}

/// Appends a line for each variable.
fn put_variables(text: &mut Vec<u8>, env: &Env) -> Result<(), AllocError> {
    for i in 0..env.len() {
        if let Some((key, value)) = env.get(i) {
            put_word(text, "variable ")?;
            text.extend_from_slice(key.bytes())?;
            put_line(text, "=", value.bytes())?;
        }
    }
    Ok(())
}

/// Reads the origin of an entry.
pub(crate) fn read_origin(alloc: Global, bytes: &[u8], told: &mut Told) -> Result<Answer, Fault> {
    match Origin::take(alloc, bytes, 0) {
        Ok((origin, next)) => {
            let done = tell_origin(alloc, &origin, told);
            drop(origin);
            done?;
            Ok(read_until(next, bytes))
        }
        Err(error) => not_taken(error),
    }
}

fn tell_origin(alloc: Global, origin: &Origin, told: &mut Told) -> Result<(), AllocError> {
    put_origin(alloc, &mut told.text, origin)?;
    let copy = origin.copy()?;
    let done = Origin::spell(&copy, &mut told.written);
    drop(copy);
    done
}

/// Appends the print of the job, the status, and the command.
fn put_origin(alloc: Global, text: &mut Vec<u8>, origin: &Origin) -> Result<(), AllocError> {
    put_digits(text, "print ", &origin.job_print)?;
    put_number(alloc, text, "status ", u64::from(origin.status))?;
    put_word(text, "\n")?;
    put_command(text, &origin.command)
}

/// Reads the entry of the number in the rest of the line.
pub(crate) fn read_entry(
    alloc: Global,
    bytes: &[u8],
    rest: &str,
    told: &mut Told,
) -> Result<Answer, Fault> {
    match entry_taken(alloc, bytes, u64::from(number(rest)?)) {
        Ok((entry, next)) => {
            let done = tell_entry(alloc, &entry, told);
            drop(entry);
            done?;
            Ok(read_until(next, bytes))
        }
        Err(error) => not_taken(error),
    }
}

fn entry_taken(alloc: Global, bytes: &[u8], number: u64) -> Result<(Entry, usize), TakeError>
    ensures { IfOk result (λ x. EffectsFit x.0.effects) }
{
    Entry::take(alloc, bytes, 0, number)
}

/// The number, what made it, the effects and the bases; what is written of a copy.
fn tell_entry(alloc: Global, entry: &Entry, told: &mut Told) -> Result<(), AllocError>
    requires { EffectsFit entry.now.effects }
{
    put_number(alloc, &mut told.text, "entry ", entry.seq)?;
    put_word(&mut told.text, "\n")?;
    if let Some(origin) = &entry.origin {
        put_origin(alloc, &mut told.text, origin)?;
    }
    put_effects(alloc, &mut told.text, entry.effects.as_slice())?;
    put_bases(alloc, &mut told.text, entry.base.as_slice())?;
    let copy = entry.copy()?;
    let done = Entry::spell(&copy, &mut told.written);
    drop(copy);
    done
}

/// Reads a sketched effect, for a content of at most so many bytes where the rest of the line tells how many.
pub(crate) fn read_sketched(
    alloc: Global,
    bytes: &[u8],
    rest: &str,
    told: &mut Told,
) -> Result<Answer, Fault> {
    let taken = if rest.is_empty() {
        SketchEffect::take(alloc, bytes, 0)
    } else {
        SketchEffect::take_within(alloc, bytes, 0, room(rest)? as u32)
    };
    match taken {
        Ok((effect, next)) => {
            let done = tell_sketched(alloc, &effect, told);
            drop(effect);
            done?;
            Ok(read_until(next, bytes))
        }
        Err(error) => not_taken(error),
    }
}

fn tell_sketched(alloc: Global, effect: &SketchEffect, told: &mut Told) -> Result<(), AllocError> {
    put_sketched(alloc, &mut told.text, effect)?;
    let copy = effect.copy()?;
    let done = SketchEffect::spell(&copy, &mut told.written);
    drop(copy);
    done
}

/// Reads sketched effects, at most so many for contents of at most so many bytes where the rest of the line tells how many.
pub(crate) fn read_sketches(
    alloc: Global,
    bytes: &[u8],
    rest: &str,
    told: &mut Told,
) -> Result<Answer, Fault> {
    let taken = if rest.is_empty() {
        SketchEffects::take(alloc, bytes, 0)
    } else {
        let (most, room) = limits(rest)?;
        SketchEffects::take_within(alloc, bytes, 0, most, room as u32)
    };
    match taken {
        Ok((effects, next)) => {
            let done = tell_sketches(alloc, &effects, told);
            drop(effects);
            done?;
            Ok(read_until(next, bytes))
        }
        Err(error) => not_taken(error),
    }
}

/// Each sketched effect and each touched path; what is written of a copy.
fn tell_sketches(
    alloc: Global,
    effects: &SketchEffects,
    told: &mut Told,
) -> Result<(), AllocError> {
    put_sketches(alloc, &mut told.text, effects.as_slice())?;
    put_touched(&mut told.text, effects.touched()?)?;
    let copy = effects.copy()?;
    let done = SketchEffects::spell(&copy, &mut told.written);
    drop(copy);
    done
}

fn put_sketches(
    alloc: Global,
    text: &mut Vec<u8>,
    effects: &[SketchEffect],
) -> Result<(), AllocError> {
    for effect in effects {
        put_sketched(alloc, text, effect)?;
    }
    Ok(())
}

/// Appends a line for an effect; of a put how many bytes and how many parities its content has.
fn put_sketched(
    alloc: Global,
    text: &mut Vec<u8>,
    effect: &SketchEffect,
) -> Result<(), AllocError> {
    match effect {
        SketchEffect::Make(path) => put_path_line(text, "make ", path),
        SketchEffect::Put(path, sketch) => {
            put_path(text, "put ", path)?;
            put_number(alloc, text, " ", u64::from(sketch.len))?;
            put_number(alloc, text, " ", sketch.parities.len() as u64)?;
            put_word(text, "\n")
        }
        SketchEffect::Remove(path) => put_path_line(text, "remove ", path),
        SketchEffect::Move(from, to) => put_move(text, from, to),
        SketchEffect::Mode(path, exec) => put_mode(text, path, *exec),
    }
}
