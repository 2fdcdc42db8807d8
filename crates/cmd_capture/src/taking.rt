//! Taking commands and jobs from the bytes that spell them, with the place of the first faulty field.

ghost use Rattle.std.specs.Prelude.{◌≡◌, ◌&&◌, false, [], take, IfOk};
ghost use Rattle.byte_fields.specs.Field.{Gives, each_at, three};
ghost use Rattle.file_paths.specs.Reading.{path_at};
ghost use Rattle.cmd_capture.specs.Environment.{has_key};
ghost use Rattle.cmd_capture.specs.Rules.{is_text, is_program, is_key, is_pattern};
ghost use Rattle.cmd_capture.specs.Reading.{bytes_at, text_at, template_at, is_new_key, variable_at, with_pair, variables_at, alike_at};
ghost use Rattle.cmd_capture.specs.Reading.{counted_at, parts_at, command_at, job_file_at, job_node_at, job_row_at, job_rows_at, job_at};

use crate::command::{Command, Setting, Start, Templates, Words};
use crate::environment::Env;
use crate::job::{Job, JobRow, JobRows};
use crate::limits::MAX_COMMAND;
use crate::rules::{is_key, is_pattern, is_program, is_text};
use byte_fields::{Item, TakeError, span_at, take_each, u8_at, u16_at, u32_at};
use std::alloc::Global;
use vol_tree::{Content, Node, Path, Paths};

/// The name of a program.
#[tactic(auto, unfolding(crate::specs::Reading::bytes_at, byte_fields::specs::Field::ruled))]
fn program_at(alloc: Global, bytes: &[u8], at: usize) -> Result<(Content, usize), TakeError>
    ensures { Gives result (bytes_at is_program bytes.now at) }
{
    let (size, start) = u32_at(bytes, at)?;
    let (text, next) = span_at(bytes, start, size as usize)?;
    if !is_program(text) {
        return Err(TakeError::At(start));
    }
    Ok((Content::of(alloc, text)?, next))
}

/// An argument or a value.
#[tactic(auto, unfolding(crate::specs::Reading::bytes_at, byte_fields::specs::Field::ruled))]
fn text_at(alloc: Global, bytes: &[u8], at: usize) -> Result<(Content, usize), TakeError>
    ensures { Gives result (text_at bytes.now at) }
{
    let (size, start) = u32_at(bytes, at)?;
    let (text, next) = span_at(bytes, start, size as usize)?;
    if !is_text(text) {
        return Err(TakeError::At(start));
    }
    Ok((Content::of(alloc, text)?, next))
}

/// A key that none of the variables has.
#[tactic(auto, unfolding(crate::specs::Reading::bytes_at, byte_fields::specs::Field::ruled))]
fn key_at(alloc: Global, bytes: &[u8], at: usize, env: &Env) -> Result<(Content, usize), TakeError>
    ensures exact { Gives result (bytes_at (λ key. is_key key && is_new_key env.now key) bytes.now at) }
    ensures new { IfOk result (λ x. has_key env.now x.0 ≡ false) }
{
    let (size, start) = u32_at(bytes, at)?;
    let (text, next) = span_at(bytes, start, size as usize)?;
    let key = Content::of(alloc, text)?;
    if !is_key(text) || env.has(&key) {
        return Err(TakeError::At(start));
    }
    Ok((key, next))
}

/// A variable behind these.
#[tactic(auto, unfolding(crate::specs::Reading::variable_at))]
fn variable_at(
    alloc: Global,
    bytes: &[u8],
    at: usize,
    env: &Env,
) -> Result<((Content, Content), usize), TakeError>
    ensures exact { Gives result (variable_at env.now bytes.now at) }
    ensures new { IfOk result (λ x. has_key env.now x.0.0 ≡ false) }
{
    let (key, middle) = key_at(alloc, bytes, at, env)?;
    let (value, next) = text_at(alloc, bytes, middle)?;
    Ok(((key, value), next))
}

/// So many variables.
fn variables_from(
    alloc: Global,
    bytes: &[u8],
    start: usize,
    count: u32,
) -> Result<(Env, usize), TakeError>
    ensures { Gives result (each_at variable_at with_pair count [] bytes.now start) }
{
    let mut env = Env::new(alloc);
    let mut at = start;
    for _ in 0..count {
        let ((key, value), next) = variable_at(alloc, bytes, at, &env)?;
        env.set(key, value)?;
        at = next;
    }
    Ok((env, at))
}

#[tactic(auto, unfolding(crate::specs::Reading::variables_at))]
fn variables_at(alloc: Global, bytes: &[u8], at: usize) -> Result<(Env, usize), TakeError>
    ensures { Gives result (variables_at bytes.now at) }
{
    let (count, start) = u16_at(bytes, at)?;
    variables_from(alloc, bytes, start, count as u32)
}

/// 1 to 255 bytes of a template.
#[tactic(auto, unfolding(crate::specs::Reading::template_at, byte_fields::specs::Field::ruled))]
fn template_at(alloc: Global, bytes: &[u8], at: usize) -> Result<(Content, usize), TakeError>
    ensures { Gives result (template_at bytes.now at) }
{
    let (size, start) = u8_at(bytes, at)?;
    if size < 1 {
        return Err(TakeError::At(at));
    }
    let (text, next) = span_at(bytes, start, size as usize)?;
    if !is_pattern(text) {
        return Err(TakeError::At(start));
    }
    Ok((Content::of(alloc, text)?, next))
}

// Items of which none asks for another, with a state that says as what they are read.

/// As an argument of a program.
#[derive(Clone, Copy)]
struct Argument;

/// As an input of a command.
#[derive(Clone, Copy)]
struct Input;

/// As a template.
#[derive(Clone, Copy)]
struct Pattern;

/// As a row of a job.
#[derive(Clone, Copy)]
struct InJob;

impl Item<Argument> for Content {
    ghost item_at = { λ state. text_at };

    ghost after = { λ state x. state };

    fn take_next(
        alloc: Global,
        bytes: &[u8],
        at: usize,
        _state: &mut Argument,
    ) -> Result<(Content, usize), TakeError> {
        text_at(alloc, bytes, at)
    }
}

impl Item<Input> for Path {
    ghost item_at = { λ state. path_at };

    ghost after = { λ state x. state };

    fn take_next(
        alloc: Global,
        bytes: &[u8],
        at: usize,
        _state: &mut Input,
    ) -> Result<(Path, usize), TakeError> {
        Path::take(alloc, bytes, at)
    }
}

impl Item<Pattern> for Content {
    ghost item_at = { λ state. template_at };

    ghost after = { λ state x. state };

    fn take_next(
        alloc: Global,
        bytes: &[u8],
        at: usize,
        _state: &mut Pattern,
    ) -> Result<(Content, usize), TakeError> {
        template_at(alloc, bytes, at)
    }
}

impl Item<InJob> for JobRow {
    ghost item_at = { λ state. job_row_at };

    ghost after = { λ state x. state };

    fn take_next(
        alloc: Global,
        bytes: &[u8],
        at: usize,
        _state: &mut InJob,
    ) -> Result<(JobRow, usize), TakeError> {
        JobRow::take(alloc, bytes, at)
    }
}

#[tactic(auto, unfolding(crate::specs::Reading::counted_at))]
fn args_at(alloc: Global, bytes: &[u8], at: usize) -> Result<(Words, usize), TakeError>
    ensures { Gives result (counted_at text_at bytes.now at) }
{
    let (count, start) = u16_at(bytes, at)?;
    let (items, next) = take_each::<Argument, Content>(
        alloc,
        bytes,
        start,
        count as u32,
        &mut Argument,
    )?;
    Ok((Words::from_vec(items), next))
}

#[tactic(auto, unfolding(crate::specs::Reading::counted_at))]
fn inputs_at(alloc: Global, bytes: &[u8], at: usize) -> Result<(Paths, usize), TakeError>
    ensures { Gives result (counted_at path_at bytes.now at) }
{
    let (count, start) = u16_at(bytes, at)?;
    let (items, next) = take_each::<Input, Path>(alloc, bytes, start, count as u32, &mut Input)?;
    Ok((Paths::from_vec(items), next))
}

#[tactic(auto, unfolding(crate::specs::Reading::counted_at))]
fn templates_at(alloc: Global, bytes: &[u8], at: usize) -> Result<(Templates, usize), TakeError>
    ensures { Gives result (counted_at template_at bytes.now at) }
{
    let (count, start) = u16_at(bytes, at)?;
    let (items, next) = take_each::<Pattern, Content>(
        alloc,
        bytes,
        start,
        count as u32,
        &mut Pattern,
    )?;
    Ok((Templates::from_vec(items), next))
}

/// The program, its arguments and its folder.
fn start_at(alloc: Global, bytes: &[u8], at: usize) -> Result<(Start, usize), TakeError>
    ensures { Gives result (three (bytes_at is_program) (λ _. counted_at text_at) (λ _ _. path_at)
        (λ program args cwd. record { program = program; args = args; cwd = cwd }) bytes.now at) }
{
    let (program, args_start) = program_at(alloc, bytes, at)?;
    let (args, cwd_start) = args_at(alloc, bytes, args_start)?;
    let (cwd, next) = Path::take(alloc, bytes, cwd_start)?;
    Ok((Start { program, args, cwd }, next))
}

/// The variables, inputs and templates.
fn setting_at(alloc: Global, bytes: &[u8], at: usize) -> Result<(Setting, usize), TakeError>
    ensures { Gives result (three variables_at (λ _. counted_at path_at) (λ _ _. counted_at template_at)
        (λ env inputs templates. record { env = env; inputs = inputs; templates = templates }) bytes.now at) }
{
    let (env, inputs_start) = variables_at(alloc, bytes, at)?;
    let (inputs, templates_start) = inputs_at(alloc, bytes, inputs_start)?;
    let (templates, next) = templates_at(alloc, bytes, templates_start)?;
    let setting = Setting {
        env,
        inputs,
        templates,
    };
    Ok((setting, next))
}

/// The parts of a command one after the other.
fn parts_at(alloc: Global, bytes: &[u8], at: usize) -> Result<(Command, usize), TakeError>
    ensures { Gives result (parts_at bytes.now at) }
{
    let (start, middle) = start_at(alloc, bytes, at)?;
    let (setting, next) = setting_at(alloc, bytes, middle)?;
    Ok((start.joined(setting), next))
}

impl Command {
    /// Takes the command at the place, and gives the place after it.
    ///
    /// Refuses `At` also at the program, an argument, a key, a value or a template that breaks a rule, at the length of
    /// a template of no byte, and at the first field that ends more than 65,536 bytes behind the place.
    #[tactic(auto, unfolding(crate::specs::Reading::command_at, byte_fields::specs::Field::limited))]
    pub fn take(alloc: Global, bytes: &[u8], at: usize) -> Result<(Command, usize), TakeError>
        ensures { Gives result (command_at bytes.now at) }
    {
        parts_at(alloc, front(bytes, at.saturating_add(MAX_COMMAND)), at)
    }
}

/// The first `end` bytes, or all where there are fewer.
fn front(bytes: &[u8], end: usize) -> &[u8]
    ensures { result.now ≡ take end bytes.now }
{
    if end < bytes.len() {
        &bytes[..end]
    } else {
        bytes
    }
}

/// A file, which may be run or not.
#[tactic(auto, unfolding(crate::specs::Reading::job_file_at))]
fn file_at(exec: bool, alloc: Global, bytes: &[u8], at: usize) -> Result<(Node, usize), TakeError>
    ensures { Gives result (job_file_at exec bytes.now at) }
{
    let (content, next) = Content::take(alloc, bytes, at)?;
    Ok((Node::File { content, exec }, next))
}

/// What stands at a path.
#[tactic(auto, unfolding(crate::specs::Reading::job_node_at))]
fn node_at(alloc: Global, bytes: &[u8], at: usize) -> Result<(Node, usize), TakeError>
    ensures { Gives result (job_node_at bytes.now at) }
{
    let (kind, start) = u8_at(bytes, at)?;
    match kind {
        1 => Ok((Node::Folder, start)),
        2 => file_at(false, alloc, bytes, start),
        3 => file_at(true, alloc, bytes, start),
        _ => Err(TakeError::At(at)),
    }
}

impl JobRow {
    /// Takes the row at the place, and gives the place after it.
    ///
    /// Refuses `At` also at a kind of node that is none, and at a content of more than 8 MiB.
    #[tactic(auto, unfolding(crate::specs::Reading::job_row_at))]
    pub fn take(alloc: Global, bytes: &[u8], at: usize) -> Result<(JobRow, usize), TakeError>
        ensures { Gives result (job_row_at bytes.now at) }
    {
        let (path, middle) = Path::take(alloc, bytes, at)?;
        let (node, next) = node_at(alloc, bytes, middle)?;
        Ok((JobRow { path, node }, next))
    }
}

#[tactic(auto, unfolding(crate::specs::Reading::job_rows_at))]
fn job_rows_at(alloc: Global, bytes: &[u8], at: usize) -> Result<(JobRows, usize), TakeError>
    ensures { Gives result (job_rows_at bytes.now at) }
{
    let (count, start) = u32_at(bytes, at)?;
    let (items, next) = take_each::<InJob, JobRow>(alloc, bytes, start, count, &mut InJob)?;
    Ok((JobRows::from_vec(items), next))
}

impl Job {
    /// Takes the job at the place, and gives the place after it.
    ///
    /// Refuses `At` where its command or one of its rows is refused.
    #[tactic(auto, unfolding(crate::specs::Reading::job_at))]
    pub fn take(alloc: Global, bytes: &[u8], at: usize) -> Result<(Job, usize), TakeError>
        ensures { Gives result (job_at bytes.now at) }
    {
        let (command, middle) = Command::take(alloc, bytes, at)?;
        match job_rows_at(alloc, bytes, middle) {
            Ok((rows, next)) => Ok((Job::new(alloc, command, rows)?, next)),
            Err(error) => {
                drop(command);
                Err(error)
            }
        }
    }
}
