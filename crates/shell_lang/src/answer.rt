//! The answers of the shell.

ghost use Rattle.std.specs.Bool.{OnTrue, OnFalse};
ghost use Rattle.shell_lang.specs.Faults.{IsShown};
ghost use Rattle.shell_lang.specs.Texts.{HasNoMemory};

use crate::line::LineError;
use cmd_capture::CaptureError;
use mod_log::LogError;
use std::alloc::AllocError;
use vol_tree::{Content, List, Path, PathError, TreeError, TryCopy};
use work_area::JobError;

/// Something that stands in a folder.
#[derive(Debug, Drop)]
pub struct Child {
    pub name: Content,
    /// Whether it is a folder, and not a file.
    pub folder: bool,
}

impl TryCopy for Child {
    fn copy(&self) -> Result<Child, AllocError> {
        Ok(Child {
            name: self.name.copy()?,
            folder: self.folder,
        })
    }
}

/// What stands in a folder, in the order of the names.
pub type Children = List<Child>;

/// Why a line is refused.
#[derive(Debug, Drop)]
pub enum Fault {
    Path(PathError),
    Line(LineError),
    Tree(TreeError),
    Log(LogError),
    /// The words of a line `run` are no command.
    Capture(CaptureError),
    /// The command has no job.
    Job(JobError),
    /// A file stands at this path, where a folder is wanted.
    NotFolder(Path),
    /// So many entries are pending, and the line wants none.
    Pending(u32),
}

/// What a line is answered.
#[derive(Debug, Drop)]
pub enum LineAnswer {
    /// The line made the entry with this number.
    Logged {
        seq: u64,
    },
    /// The content of a file.
    Text(Content),
    /// What stands in a folder.
    Listing(Children),
    /// The current folder.
    At(Path),
    /// The command ended with this status, and what it changed made the entry with this number.
    Ran {
        seq: u64,
        status: u8,
    },
    /// The command ended with this status and changed nothing.
    Nothing {
        status: u8,
    },
    /// The command was not run.
    NotRun,
    /// The row of this index that the command left has no place in a tree.
    OddTree(u32),
    /// What the command changed at this path would touch what stands beside its job.
    Clash(Path),
    /// The last number that is acknowledged, and how many entries are pending.
    Status {
        acked: u64,
        pending: u32,
    },
    /// All entries are acknowledged, up to this number.
    Synced(u64),
    /// This entry rests on an older state: at this path the server has another version than the entry's base.
    Stale {
        seq: u64,
        path: Path,
        theirs: u64,
        ours: u64,
    },
    /// The server refuses this entry, whose effect of this index does not apply.
    Unfit {
        seq: u64,
        index: u32,
        fault: TreeError,
    },
    /// The server has no room for this entry's effect of this index.
    Full {
        seq: u64,
        index: u32,
        fault: TreeError,
    },
    /// The server did not answer this entry.
    Unanswered {
        seq: u64,
    },
    /// The server has this last number, which is not the one before the entry's.
    Behind {
        seq: u64,
        last: u64,
    },
    /// The server's rows are the client's base now; how many rows.
    Pulled(u32),
    /// The server's last accepted entry of the client, which is not the last acknowledged one.
    OtherLast(u64),
    /// The first path at which the server told a lower version than the client's.
    Older {
        path: Path,
        theirs: u64,
        ours: u64,
    },
    /// The server did not answer the pull.
    PullUnanswered,
    /// The line is refused.
    Refused(Fault),
}

/// Whether no refusal in the answer is want of memory.
pub fn has_no_memory(answer: &LineAnswer) -> bool
    ensures yes { OnTrue result (HasNoMemory answer.now) }
    ensures no { OnFalse result (HasNoMemory answer.now → ⊥) }
{
    match answer {
        LineAnswer::Unfit { fault, .. } | LineAnswer::Full { fault, .. } => {
            !matches!(fault, TreeError::Memory)
        }
        LineAnswer::Refused(fault) => is_shown(fault),
        _ => true,
    }
}

/// Whether the refusal is another than want of memory.
fn is_shown(fault: &Fault) -> bool
    ensures yes { OnTrue result (IsShown fault.now) }
    ensures no { OnFalse result (IsShown fault.now → ⊥) }
{
    !matches!(
        fault,
        Fault::Path(PathError::Memory)
            | Fault::Line(LineError::Memory)
            | Fault::Tree(TreeError::Memory)
            | Fault::Log(LogError::Memory | LogError::Tree(_, TreeError::Memory))
            | Fault::Capture(CaptureError::Memory)
            | Fault::Job(JobError::Memory)
    )
}
