//! A command from its words.

ghost use Rattle.std.specs.Prelude.{◌≡◌, ◌≢◌, ◌+◌, ◌||◌, ◌==◌, true, false, [], Some, None, Ok, Err, length, slice_index_or, position};
ghost use Rattle.std.specs.Prelude.{is_some, option_map, IfOk, IfErr, OnOk};
ghost use Rattle.std.specs.List.{fold, filter_map};
ghost use Rattle.std.specs.Option.{option_copied, option_to_list};
ghost use Rattle.byte_fields.specs.Numbers.{as_u32};
ghost use Rattle.cmd_capture.specs.declared.capturing.CaptureError.TheVariants.{Memory};
ghost use Rattle.cmd_capture.specs.Spelling.{command as spelled_command, IsCommand};
ghost use Rattle.file_paths.specs.Refusals.{unless_refused};
ghost use Rattle.cmd_capture.specs.Rules as rules_of_parts;
ghost use Rattle.cmd_capture.specs.Capture as rules;
ghost use Rattle.cmd_capture.specs.Capture.{capture, options, program_words};

use crate::command::{Command, Setting, Start, Templates, Words};
use crate::environment::Env;
use crate::limits::MAX_COMMAND;
use crate::rules::{is_absolute, is_template, is_text};
use byte_fields::saturate_u32;
use std::alloc::{AllocError, Global};
use thiserror::Error;
use vol_tree::{Content, Path, PathError, Paths, TryCopy};

/// Why words are no command. Words are counted from 0, and a number that is too great for its type stands as the greatest.
#[derive(Clone, Copy, Debug, PartialEq, Eq, Error)]
pub enum CaptureError {
    /// There is no `--`, or nothing behind it.
    #[error("no program")]
    NoProgram,
    /// The first word before `--` that is no option.
    #[error("word {0} is no option")]
    BadOption(u32),
    /// The first input whose path is none.
    #[error("word {0} has a bad path")]
    BadInput(u32),
    /// The first variable without a key and a value, or with a zero byte.
    #[error("word {0} is no assignment")]
    BadEnv(u32),
    /// The first template that is empty or too long, or has a `/` or a zero byte.
    #[error("word {0} is no template")]
    BadTemplate(u32),
    /// The program does not begin with `/`.
    #[error("the program's name does not begin with /")]
    NotAbsolute,
    /// The first word behind `--` that has a zero byte.
    #[error("word {0} has a zero byte")]
    ZeroByte(u32),
    /// How many bytes the command's spelling has, which is more than [`crate::MAX_COMMAND`].
    #[error("the command has {0} bytes")]
    CommandTooLong(u64),
    #[error("out of memory")]
    Memory,
}

impl From<AllocError> for CaptureError {
    ghost from_gives = { λ _ e. e ≡ Memory };

    fn from(_: AllocError) -> CaptureError {
        CaptureError::Memory
    }
}

/// What stands behind the mark in a word that begins with it.
fn behind<'a>(mark: &[u8], word: &'a [u8]) -> Option<&'a [u8]>
    ensures { option_copied result ≡ rules.behind mark.now word.now }
{
    word.strip_prefix(mark)
}

/// Whether the word begins with the mark.
fn has_mark(mark: &[u8], word: &[u8]) -> bool
    ensures { result ≡ is_some (rules.behind mark.now word.now) }
{
    behind(mark, word).is_some()
}

fn is_unknown(word: &[u8]) -> bool
    ensures { result ≡ rules.is_unknown word.now }
{
    !has_mark(b"in=", word) && !has_mark(b"env=", word) && !has_mark(b"tmp=", word)
}

fn first_equals(text: &[u8]) -> Option<usize>
    ensures { result ≡ position (λ b. b == 61) text.now }
{
    text.iter().position(|b| *b == b'=')
}

/// A zero byte, or no `=`, or nothing before it.
fn is_bad_assignment(text: &[u8]) -> bool
    ensures { result ≡ rules.is_bad_assignment text.now }
{
    !is_text(text) || first_equals(text).unwrap_or(0) < 1
}

fn has_bad_assignment(word: &[u8]) -> bool
    ensures { result ≡ rules.holds_behind rules.env_mark rules.is_bad_assignment word.now }
{
    match behind(b"env=", word) {
        Some(text) => is_bad_assignment(text),
        None => false,
    }
}

fn has_bad_template(word: &[u8]) -> bool
    ensures { result ≡ rules.holds_behind rules.tmp_mark rules.is_bad_template word.now }
{
    match behind(b"tmp=", word) {
        Some(text) => !is_template(text),
        None => false,
    }
}

fn first_unknown(options: &[Content]) -> Option<usize>
    ensures { result ≡ position rules.is_unknown options.now }
{
    options.iter().position(|word| is_unknown(word.bytes()))
}

fn first_bad_assignment(options: &[Content]) -> Option<usize>
    ensures { result ≡ position (rules.holds_behind rules.env_mark rules.is_bad_assignment) options.now }
{
    options
        .iter()
        .position(|word| has_bad_assignment(word.bytes()))
}

fn first_bad_template(options: &[Content]) -> Option<usize>
    ensures { result ≡ position (rules.holds_behind rules.tmp_mark rules.is_bad_template) options.now }
{
    options
        .iter()
        .position(|word| has_bad_template(word.bytes()))
}

fn first_with_zero(texts: &[Content]) -> Option<usize>
    ensures { result ≡ position rules.has_zero texts.now }
{
    texts.iter().position(|text| !is_text(text.bytes()))
}

fn first_dashes(words: &[Content]) -> Option<usize>
    ensures { result ≡ position rules.is_dashes words.now }
{
    words
        .iter()
        .position(|word| word.bytes() == b"--".as_slice())
}

/// The words before the first `--`, and those behind it.
fn split_at_dashes(words: &[Content]) -> (&[Content], &[Content])
    ensures options { result.0.now ≡ options words.now }
    ensures program { result.1.now ≡ program_words words.now }
{
    match first_dashes(words) {
        Some(i) => (&words[..i], &words[i + 1..]),
        None => (words, &words[words.len()..]),
    }
}

/// The path of an input; `None` for another option.
fn input_of(alloc: Global, cwd: &Path, word: &[u8]) -> Result<Option<Path>, PathError>
    ensures good { OnOk result (rules.holds_behind rules.in_mark (rules.is_bad_path cwd.now) word.now ≡ false) }
    ensures path { IfOk result (λ found. found ≡ rules.input_of cwd.now word.now) }
    ensures bad { IfErr result (λ e. e ≢ PathError.Memory → rules.holds_behind rules.in_mark (rules.is_bad_path cwd.now) word.now ≡ true) }
{
    match behind(b"in=", word) {
        Some(text) => Ok(Some(Path::resolve(alloc, cwd, text)?)),
        None => Ok(None),
    }
}

/// The refusal of word `i`, whose path is refused.
fn bad_input(error: PathError, i: usize) -> CaptureError
    ensures cause { result ≢ CaptureError.Memory → error ≢ PathError.Memory }
    ensures place { result ≢ CaptureError.Memory → result ≡ CaptureError.BadInput (as_u32 i) }
{
    match error {
        PathError::Memory => CaptureError::Memory,
        _ => CaptureError::BadInput(saturate_u32(i)),
    }
}

/// The inputs of the options, or the first bad one.
fn inputs_of(alloc: Global, cwd: &Path, options: &[Content]) -> Result<Paths, CaptureError>
    ensures good { OnOk result (position (rules.holds_behind rules.in_mark (rules.is_bad_path cwd.now)) options.now ≡ None) }
    ensures paths { IfOk result (λ paths. paths ≡ filter_map (rules.input_of cwd.now) options.now) }
    ensures bad { IfErr result (λ e. e ≢ CaptureError.Memory
        → rules.refusal_at CaptureError.BadInput
        (position (rules.holds_behind rules.in_mark (rules.is_bad_path cwd.now)) options.now) ≡ Some e) }
{
    let mut inputs = Paths::new(alloc);
    for (i, word) in options.iter().enumerate() {
        match input_of(alloc, cwd, word.bytes()) {
            Ok(found) => inputs.push_found(found)?,
            Err(error) => return Err(bad_input(error, i)),
        }
    }
    Ok(inputs)
}

/// The variables of the options, each at its first place with its last value.
fn env_of(alloc: Global, options: &[Content]) -> Result<Env, AllocError>
    ensures { IfOk result (λ env. env ≡ fold rules.set_variable [] (filter_map rules.variable_of options.now)) }
{
    let mut env = Env::new(alloc);
    for word in options {
        assign(alloc, &mut env, word.bytes())?;
    }
    Ok(env)
}

/// The key and the value of an assignment; `None` for another option.
fn variable_of(word: &[u8]) -> Option<(&[u8], &[u8])>
    ensures { option_map (λ p. (p.0.now, p.1.now)) result ≡ rules.variable_of word.now }
{
    let text = behind(b"env=", word)?;
    let at = first_equals(text)?;
    Some((&text[..at], &text[at + 1..]))
}

/// Sets the variable of an assignment; another option changes nothing.
fn assign(alloc: Global, env: &mut Env, word: &[u8]) -> Result<(), AllocError>
    ensures { OnOk result (env.new ≡ fold rules.set_variable env.old (option_to_list (rules.variable_of word.now))) }
{
    if let Some((key, value)) = variable_of(word) {
        env.set(Content::of(alloc, key)?, Content::of(alloc, value)?)?;
    }
    Ok(())
}

fn template_of(alloc: Global, word: &[u8]) -> Result<Option<Content>, AllocError>
    ensures { IfOk result (λ template. template ≡ rules.behind rules.tmp_mark word.now) }
{
    match behind(b"tmp=", word) {
        Some(text) => Ok(Some(Content::of(alloc, text)?)),
        None => Ok(None),
    }
}

fn templates_of(alloc: Global, options: &[Content]) -> Result<Templates, AllocError>
    ensures { IfOk result (λ templates. templates ≡ filter_map (rules.behind rules.tmp_mark) options.now) }
{
    let mut templates = Templates::new(alloc);
    for word in options {
        templates.push_found(template_of(alloc, word.bytes())?)?;
    }
    Ok(templates)
}

fn copies_of(alloc: Global, words: &[Content]) -> Result<Words, AllocError>
    ensures { IfOk result (λ copied. copied ≡ words.now) }
{
    let mut copied = Words::new(alloc);
    for word in words {
        copied.push(word.copy()?)?;
    }
    Ok(copied)
}

/// Whether the first of the texts begins with `/`.
fn has_absolute_program(texts: &[Content]) -> bool
    ensures { result ≡ rules_of_parts.is_absolute (slice_index_or texts.now 0 []) }
{
    match texts.first() {
        Some(program) => is_absolute(program.bytes()),
        None => false,
    }
}

/// Refuses options, and words behind `--`, that break a rule other than that of paths.
fn check_texts(options: &[Content], texts: &[Content]) -> Result<(), CaptureError>
    ensures { result ≡ unless_refused (rules.text_refusals options.now texts.now) tt }
{
    if let Some(i) = first_bad_assignment(options) {
        return Err(CaptureError::BadEnv(saturate_u32(i)));
    }
    if let Some(i) = first_bad_template(options) {
        return Err(CaptureError::BadTemplate(saturate_u32(i)));
    }
    if !has_absolute_program(texts) {
        return Err(CaptureError::NotAbsolute);
    }
    if let Some(i) = first_with_zero(texts) {
        return Err(CaptureError::ZeroByte(saturate_u32(options.len() + 1 + i)));
    }
    Ok(())
}

/// The first half of a command, of copies.
fn start_from(
    alloc: Global,
    program: &Content,
    args: &[Content],
    cwd: &Path,
) -> Result<Start, AllocError>
    ensures { IfOk result (λ start. start ≡ record { program = program.now; args = args.now; cwd = cwd.now }) }
{
    Ok(Start {
        program: program.copy()?,
        args: copies_of(alloc, args)?,
        cwd: cwd.copy()?,
    })
}

/// The other half, of options with these inputs.
fn setting_from(alloc: Global, options: &[Content], inputs: Paths) -> Result<Setting, AllocError>
    ensures { IfOk result (λ setting. setting ≡ record {
      env = fold rules.set_variable [] (filter_map rules.variable_of options.now);
      inputs = inputs;
      templates = filter_map (rules.behind rules.tmp_mark) options.now;
    }) }
{
    Ok(Setting {
        inputs,
        env: env_of(alloc, options)?,
        templates: templates_of(alloc, options)?,
    })
}

/// The command of a program and its arguments, and of options with these inputs.
fn command_of(
    alloc: Global,
    program: &Content,
    args: &[Content],
    cwd: &Path,
    options: &[Content],
    inputs: Paths,
) -> Result<Command, AllocError>
    ensures { IfOk result (λ c. c ≡ record {
      program = program.now;
      args = args.now;
      cwd = cwd.now;
      env = fold rules.set_variable [] (filter_map rules.variable_of options.now);
      inputs = inputs;
      templates = filter_map (rules.behind rules.tmp_mark) options.now;
    }) }
{
    let setting = setting_from(alloc, options, inputs)?;
    match start_from(alloc, program, args, cwd) {
        Ok(start) => Ok(start.joined(setting)),
        Err(error) => {
            drop(setting);
            Err(error)
        }
    }
}

/// The number of bytes of the command's spelling.
fn spelled_size(alloc: Global, command: &Command) -> Result<u64, AllocError>
    ensures { IfOk result (λ size. size ≡ length (spelled_command command.now)) }
{
    let mut spelling = Vec::new(alloc);
    Command::spell(command, &mut spelling)?;
    Ok(spelling.len() as u64)
}

/// The command that words make in the folder `cwd`.
pub fn capture(alloc: Global, words: &Words, cwd: &Path) -> Result<Command, CaptureError>
    ensures ok { IfOk result (λ command. capture words.now cwd.now ≡ Ok command) }
    ensures err { IfErr result (λ e. e ≢ CaptureError.Memory → capture words.now cwd.now ≡ Err e) }
    ensures spelled { IfOk result IsCommand }
{
    let _depth = cwd.depth();
    captured(alloc, words, cwd)
}

/// The same, of which it is not said that the command has a spelling.
fn captured(alloc: Global, words: &Words, cwd: &Path) -> Result<Command, CaptureError>
    ensures ok { IfOk result (λ command. capture words.now cwd.now ≡ Ok command) }
    ensures err { IfErr result (λ e. e ≢ CaptureError.Memory → capture words.now cwd.now ≡ Err e) }
{
    let (options, texts) = split_at_dashes(words.as_slice());
    let Some((program, args)) = texts.split_first() else {
        return Err(CaptureError::NoProgram);
    };
    if let Some(i) = first_unknown(options) {
        return Err(CaptureError::BadOption(saturate_u32(i)));
    }
    let inputs = inputs_of(alloc, cwd, options)?;
    if let Err(refusal) = check_texts(options, texts) {
        drop(inputs);
        return Err(refusal);
    }
    let command = command_of(alloc, program, args, cwd, options, inputs)?;
    match spelled_size(alloc, &command) {
        Ok(size) if size <= MAX_COMMAND as u64 => Ok(command),
        Ok(size) => {
            drop(command);
            Err(CaptureError::CommandTooLong(size))
        }
        Err(error) => {
            drop(command);
            Err(error.into())
        }
    }
}
