// What failed, for people.
ghost use Rattle.std.specs.Prelude.{◌≡◌, ◌↔◌, None, Ok, IfOk, OnErr, IsErr};
ghost use Rattle.outside.specs.Outside.{raised};

use crate::faults::count_fault;
use std::fmt::{self, Display, Formatter};
use std::io::{self, ErrorKind};

/// What a keeper does with the files of an image.
#[derive(Clone, Copy, Debug, PartialEq, Eq)]
pub enum FileStep {
    /// Locks the file beside the image.
    Lock,
    /// Reads the image.
    Read,
    /// Writes the file that is to take the image's place.
    Write,
    /// Puts it there.
    Replace,
    /// Writes behind what the image has.
    Append,
    /// Has the platform write down what stands in the image's folder.
    Settle,
}

/// A step that the platform refused.
#[derive(Drop)]
pub(crate) struct Refusal {
    pub(crate) step: FileStep,
    pub(crate) error: io::Error,
}

/// What came of a step.
pub(crate) fn at<T>(step: FileStep, came: io::Result<T>) -> Result<T, Refusal>
    ensures ok { IfOk came (λ value. result ≡ Ok value) }
    ensures err { OnErr came (IsErr result) }
{
    match came {
        Ok(value) => Ok(value),
        Err(error) => Err(Refusal { step, error }),
    }
}

/// What failed: its text says which call it was, of what, and why the platform refused it.
#[derive(Debug, Drop)]
pub enum Trouble {
    /// A step with an image's files. Without its name, where memory for that was wanted.
    OfImage {
        step: FileStep,
        image: String,
        error: io::Error,
    },
    /// A call of the standard stream with this name.
    OfStream {
        stream: &'static str,
        error: io::Error,
    },
}

impl Display for Trouble {
    fn fmt<W: fmt::Write>(&self, f: &mut Formatter<W>) -> fmt::Result {
        match self {
            Trouble::OfImage { step, image, error } => tell_step(*step, image.as_str(), error, f),
            Trouble::OfStream { stream, error } => write!(f, "{stream}: {error}"),
        }
    }
}

/// What can say what its call met that failed last.
pub trait Troubled {
    /// What that call met; `None` where it is not known, or none has failed.
    fn trouble(&self) -> Option<&Trouble>;
}

/// Tells what a call met, where that is known: on standard error, in a line that begins with the program's name.
pub fn tell_trouble<R: Eprint>(rt: &R, program: &str, trouble: Option<&Trouble>) {
    if let Some(trouble) = trouble {
        let _ = eprintln!(rt; "{program}: {trouble}");
    }
}

/// Tells a step that was refused.
fn tell_step<W: fmt::Write>(
    step: FileStep,
    image: &str,
    error: &io::Error,
    f: &mut Formatter<W>,
) -> fmt::Result {
    match step {
        FileStep::Lock if error.kind() == ErrorKind::WouldBlock => {
            write!(f, "{image}.lock is held by another program")
        }
        FileStep::Lock => write!(f, "cannot lock {image}.lock: {error}"),
        FileStep::Read => write!(f, "cannot read {image}: {error}"),
        FileStep::Write => write!(f, "cannot write {image}.new: {error}"),
        FileStep::Replace => write!(f, "cannot rename {image}.new to {image}: {error}"),
        FileStep::Append => write!(f, "cannot append to {image}: {error}"),
        FileStep::Settle => write!(f, "cannot sync the folder of {image}: {error}"),
    }
}

/// How often the calls of an adapter failed, and what failed last.
#[derive(Drop)]
pub(crate) struct Troubles {
    pub(crate) count: u64,
    last: Option<Trouble>,
    ghost told: { (last ≡ None) ↔ (count ≡ 0) },
}

impl Troubles {
    /// Nothing failed yet.
    pub(crate) fn none() -> Troubles
        ensures { result.count ≡ 0 }
    {
        Troubles {
            count: 0,
            last: None,
        }
    }

    /// Counts one that failed.
    pub(crate) fn count(&mut self, trouble: Trouble)
        ensures { self.new.count ≡ raised 1 self.old.count }
    {
        count_fault(&mut self.count);
        self.last = Some(trouble);
    }

    /// What failed last; none where nothing did.
    pub(crate) fn last(&self) -> Option<&Trouble>
        ensures { (result ≡ None) ↔ (self.now.count ≡ 0) }
    {
        self.last.as_ref()
    }
}
