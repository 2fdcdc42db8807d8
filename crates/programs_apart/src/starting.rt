// A program that is started, and waited for.
ghost use Rattle.std.specs.Prelude.{◌≡◌, ◌+◌, ◌<◌, ℕ, List, ◌∷◌, ◌++◌, true, Some, None, option_map, length, take, pos};
ghost use Rattle.std.specs.Prelude.{IfOk, OnOk, string_bytes};
ghost use Rattle.std.specs.Process.{exit_code, command_program, command_args, command_dir, command_var, clears_env};
ghost use Rattle.std.specs.Process.{SameProgramAndArgs, SameOtherVars};
ghost use Rattle.file_paths.specs.Path.{path_text};
ghost use Rattle.programs_apart.specs.Variables.{TellsVariables};
ghost use Rattle.programs_apart.specs.Starting.{started_program, first_words, set_variables};

use crate::care::Care;
use crate::groups::end_group;
use crate::passing::Passing;
use crate::pipes::pipe;
use crate::waiting::{end, wait_within};
use crate::ways::{Way, called};
use cmd_capture::{Command, Env};
use file_paths::{Content, Path};
use folder_reading::{HostTrouble, Stopwatch, answered, place_in, text_of};
use std::alloc::{AllocGlobal, Global};
use std::fs::{self, Files};
use std::io::Eprint;
use std::process::{self, ExitStatus, Processes, Stdio};
use std::time::Clock;

/// Starts the command's program in the folder, and waits until it has ended, at most as long as the watch goes: then it is ended. It
/// has no input.
pub fn run_there<R: Files + Processes + AllocGlobal + Clock + Eprint>(
    host: &R,
    folder: &str,
    command: &Command,
    watch: &Stopwatch,
    care: &Care,
) -> Result<u8, HostTrouble> {
    let folder = real_folder(host, folder, &care.way)?;
    let program = text_of(command.program.bytes())?;
    let plain = Way::Plain;
    let way = care
        .way_of(host, folder.as_str(), program)?
        .unwrap_or(&plain);
    let mut start = start_of(host.alloc(), folder.as_str(), command, way)?;
    let mut passing = set_output(host, &mut start, care.is_shown)?;
    let child = start.spawn(host);
    drop(start);
    let mut child = answered(host.alloc(), "start", program, child)?;
    let ended = wait_within(host, &mut child, watch, &mut passing);
    if let Way::Led(_) = way {
        end_group(host, child.id());
    }
    end(&mut child);
    drop(child);
    if let Some(mut passing) = passing {
        passing.finish(host);
    }
    status_of(ended?)
}

/// The folder as what runs its program names it: without links, and in the WORK that is hidden beside it.
fn real_folder<R: Files + AllocGlobal>(
    host: &R,
    folder: &str,
    way: &Way,
) -> Result<String, HostTrouble> {
    let Way::Apart(walls) = way else {
        return Ok(String::from_str(host.alloc(), folder)?);
    };
    let real = answered(
        host.alloc(),
        "look at",
        folder,
        fs::canonicalize(host, folder),
    )?;
    let real = real.into_string();
    let is_within = match real.as_str().strip_prefix(walls.work.as_str()) {
        Some(name) => name.starts_with('/'),
        None => false,
    };
    if is_within {
        return Ok(real);
    }
    drop(real);
    Err(HostTrouble::Told("its folder is not in WORK"))
}

/// Says where the program's output goes.
fn set_output<R: Files + AllocGlobal>(
    host: &R,
    start: &mut process::Command,
    is_shown: bool,
) -> Result<Option<Passing>, HostTrouble> {
    if !is_shown {
        start.stdout(Stdio::null());
        start.stderr(Stdio::null());
        return Ok(None);
    }
    let (writer, reader) = pipe(host)?;
    let second = answered(host.alloc(), "make", "a pipe", writer.try_clone())?;
    start.stdout(Stdio::from(writer));
    start.stderr(Stdio::from(second));
    Ok(Some(Passing::new(host.alloc(), reader)))
}

/// The status that the program gave. One that was ended by a signal gave none.
fn status_of(ended: ExitStatus) -> Result<u8, HostTrouble>
    ensures { IfOk result (λ status. exit_code ended ≡ Some (pos status)) }
{
    match ended.code() {
        Some(code) => match u8::try_from(code) {
            Ok(status) => Ok(status),
            Err(_) => Err(HostTrouble::Told("its status is above 255")),
        },
        None => Err(HostTrouble::Told("it was ended by a signal")),
    }
}

/// What is started: the program under its own word, with its words and variables alone, in the command's folder; or, by its way, what
/// runs it so.
pub fn start_of(
    alloc: Global,
    folder: &str,
    command: &Command,
    way: &Way,
) -> Result<process::Command, HostTrouble>
    ensures program { IfOk result (λ start. command_program start ≡ started_program way.now command.now.program) }
    ensures words { IfOk result (λ start. command_args start ≡ first_words way.now folder.now (folder.now ++ 47 ∷ path_text command.now.cwd)
        command.now.env command.now.program ++ command.now.args) }
    ensures alone { IfOk result (λ start. clears_env start ≡ true) }
    ensures variables { IfOk result (λ start. TellsVariables start (set_variables way.now command.now.env)) }
    ensures folder { IfOk result (λ start. command_dir start ≡ Some (folder.now ++ 47 ∷ path_text command.now.cwd)) }
{
    let place = place_of(alloc, folder, &command.cwd)?;
    let program = text_of(command.program.bytes())?;
    let mut start = called(alloc, way, folder, place.as_str(), &command.env, program)?;
    add_words(&mut start, command.args.as_slice())?;
    start.env_clear();
    set_variables_by(&mut start, way, &command.env)?;
    start.current_dir(place.as_str())?;
    start.stdin(Stdio::null());
    Ok(start)
}

/// Sets the variables, where words do not.
fn set_variables_by(
    start: &mut process::Command,
    way: &Way,
    variables: &Env,
) -> Result<(), HostTrouble>
    requires { (name : List ℕ) → command_var start.old name ≡ None }
    ensures variables { OnOk result (TellsVariables start.new (set_variables way.now variables.now)) }
    ensures call { OnOk result (SameProgramAndArgs start.old start.new) }
    ensures clears { OnOk result (clears_env start.new ≡ clears_env start.old) }
{
    match way {
        Way::Plain | Way::Led(_) => add_variables(start, variables),
        Way::Split(_) | Way::Apart(_) => Ok(()),
    }
}

/// The folder that the program is started in.
fn place_of(alloc: Global, folder: &str, cwd: &Path) -> Result<String, HostTrouble>
    ensures { IfOk result (λ place. string_bytes place ≡ folder.now ++ 47 ∷ path_text cwd.now) }
{
    let text = cwd.text()?;
    Ok(place_in(alloc, folder, text_of(text.bytes())?)?)
}

fn add_words(start: &mut process::Command, words: &[Content]) -> Result<(), HostTrouble>
    ensures program { OnOk result (command_program start.new ≡ command_program start.old) }
    ensures words { OnOk result (command_args start.new ≡ command_args start.old ++ words.now) }
{
    for word in words {
        start.arg(text_of(word.bytes())?)?;
    }
    Ok(())
}

fn add_variables(start: &mut process::Command, variables: &Env) -> Result<(), HostTrouble>
    requires { (name : List ℕ) → command_var start.old name ≡ None }
    ensures variables { OnOk result (TellsVariables start.new variables.now) }
    ensures call { OnOk result (SameProgramAndArgs start.old start.new) }
    ensures clears { OnOk result (clears_env start.new ≡ clears_env start.old) }
{
    for i in 0..variables.len() {
        add_variable(start, variables, i)?;
    }
    Ok(())
}

/// Adds variable `i`, counted from 0.
fn add_variable(start: &mut process::Command, variables: &Env, i: usize) -> Result<(), HostTrouble>
    requires { i < length variables.now }
    ensures variables { TellsVariables start.old (take i variables.now)
        → OnOk result (TellsVariables start.new (take (i + 1) variables.now)) }
    ensures call { OnOk result (SameProgramAndArgs start.old start.new) }
    ensures clears { OnOk result (clears_env start.new ≡ clears_env start.old) }
{
    let Some((key, value)) = variables.get(i) else {
        unreachable!()
    };
    set_variable(start, text_of(key.bytes())?, text_of(value.bytes())?)
}

/// Sets one variable.
fn set_variable(start: &mut process::Command, key: &str, value: &str) -> Result<(), HostTrouble>
    ensures set { OnOk result (command_var start.new key.now ≡ Some (Some value.now)) }
    ensures others { OnOk result (SameOtherVars start.old start.new key.now) }
    ensures call { OnOk result (SameProgramAndArgs start.old start.new) }
    ensures clears { OnOk result (clears_env start.new ≡ clears_env start.old) }
{
    start.env(key, value)?;
    Ok(())
}
