//! A command and its parts.

ghost use Rattle.std.specs.Prelude.{◌≡◌, IfOk};

use crate::environment::Env;
use std::alloc::AllocError;
use vol_tree::{Content, List, Path, Paths, TryCopy};

/// Words, as those of a line or the arguments of a program.
pub type Words = List<Content>;

/// A pattern of names.
pub type Template = Content;

/// Patterns, the first that fits being the one that counts.
pub type Templates = List<Template>;

/// A program with all that it is started with.
#[derive(Debug, Drop)]
pub struct Command {
    pub program: Content,
    pub args: Words,
    /// The folder that the program is started in.
    pub cwd: Path,
    pub env: Env,
    /// What the program is said to read; the folder where there is none.
    pub inputs: Paths,
    /// Patterns of the names that may differ from run to run.
    pub templates: Templates,
}

/// The first half of a command: what is started, with which arguments, and in which folder.
#[derive(Drop)]
pub(crate) struct Start {
    pub program: Content,
    pub args: Words,
    pub cwd: Path,
}

/// The other half: what is set for the program, and what is said of its files.
#[derive(Drop)]
pub(crate) struct Setting {
    pub env: Env,
    pub inputs: Paths,
    pub templates: Templates,
}

impl Start {
    /// The command of both halves.
    pub(crate) fn joined(self, setting: Setting) -> Command
        ensures { result ≡ record {
          program = self.program;
          args = self.args;
          cwd = self.cwd;
          env = setting.env;
          inputs = setting.inputs;
          templates = setting.templates;
        } }
    {
        Command {
            program: self.program,
            args: self.args,
            cwd: self.cwd,
            env: setting.env,
            inputs: setting.inputs,
            templates: setting.templates,
        }
    }
}

/// A first half of copies.
fn copy_start(program: &Content, args: &Words, cwd: &Path) -> Result<Start, AllocError>
    ensures { IfOk result (λ start. start ≡ record { program = program.now; args = args.now; cwd = cwd.now }) }
{
    Ok(Start {
        program: program.copy()?,
        args: args.copy()?,
        cwd: cwd.copy()?,
    })
}

/// Another half of copies.
fn copy_setting(env: &Env, inputs: &Paths, templates: &Templates) -> Result<Setting, AllocError>
    ensures { IfOk result (λ setting. setting ≡ record { env = env.now; inputs = inputs.now; templates = templates.now }) }
{
    Ok(Setting {
        env: env.copy()?,
        inputs: inputs.copy()?,
        templates: templates.copy()?,
    })
}

impl TryCopy for Command {
    fn copy(&self) -> Result<Command, AllocError> {
        let start = copy_start(&self.program, &self.args, &self.cwd)?;
        match copy_setting(&self.env, &self.inputs, &self.templates) {
            Ok(setting) => Ok(start.joined(setting)),
            Err(error) => {
                drop(start);
                Err(error)
            }
        }
    }
}
