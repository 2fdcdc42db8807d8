//! The texts of refusals.

ghost use Rattle.std.specs.Prelude.{◌≡◌, ◌++◌, OnOk};
ghost use Rattle.shell_lang.specs.Faults.{path_fault_name, path_fault_values, line_fault_name, line_fault_values, tree_fault_name};
ghost use Rattle.shell_lang.specs.Faults.{tree_fault_values, log_fault_name, log_fault_values, tree_fault_text, fault_name};
ghost use Rattle.shell_lang.specs.Faults.{capture_fault_name, capture_fault_values, job_fault_name, job_fault_values};
ghost use Rattle.shell_lang.specs.Faults.{fault_values, fault_text};

use crate::answer::Fault;
use crate::line::LineError;
use crate::value::{put_number, put_path};
use cmd_capture::CaptureError;
use mod_log::LogError;
use std::alloc::AllocError;
use vol_tree::{PathError, TreeError};
use work_area::JobError;

/// Adds the words of a refusal.
///
/// # Errors
///
/// Want of memory; a part may have been added then.
pub fn put_fault_text(out: &mut Vec<u8>, fault: &Fault) -> Result<(), AllocError>
    ensures { OnOk result (out.new.items ≡ out.old.items ++ fault_text fault.now) }
{
    out.extend_from_slice(fault_name(fault))?;
    put_fault_values(out, fault)
}

/// Adds the words of a refusal by the tree.
pub(crate) fn put_tree_fault(out: &mut Vec<u8>, fault: &TreeError) -> Result<(), AllocError>
    ensures { OnOk result (out.new.items ≡ out.old.items ++ tree_fault_text fault.now) }
{
    out.extend_from_slice(tree_name(fault))?;
    put_tree_values(out, fault)
}

fn path_name(fault: &PathError) -> &'static [u8]
    ensures { result.now ≡ path_fault_name fault.now }
{
    match fault {
        PathError::BadName(_) => b"BadName",
        PathError::TooDeep(_) => b"TooDeep",
        PathError::TooLong(_) => b"TooLong",
        PathError::Memory => b"Memory",
    }
}

fn put_path_values(out: &mut Vec<u8>, fault: &PathError) -> Result<(), AllocError>
    ensures { OnOk result (out.new.items ≡ out.old.items ++ path_fault_values fault.now) }
{
    match fault {
        PathError::BadName(n) | PathError::TooDeep(n) | PathError::TooLong(n) => put_number(
            out,
            u64::from(*n),
        ),
        PathError::Memory => Ok(()),
    }
}

fn line_name(fault: &LineError) -> &'static [u8]
    ensures { result.now ≡ line_fault_name fault.now }
{
    match fault {
        LineError::BadWord(_) => b"BadWord",
        LineError::OpenQuote => b"OpenQuote",
        LineError::UnknownWord => b"UnknownWord",
        LineError::WrongCount(_) => b"WrongCount",
        LineError::Memory => b"Memory",
    }
}

fn put_line_values(out: &mut Vec<u8>, fault: &LineError) -> Result<(), AllocError>
    ensures { OnOk result (out.new.items ≡ out.old.items ++ line_fault_values fault.now) }
{
    match fault {
        LineError::BadWord(n) | LineError::WrongCount(n) => put_number(out, u64::from(*n)),
        LineError::OpenQuote | LineError::UnknownWord | LineError::Memory => Ok(()),
    }
}

fn tree_name(fault: &TreeError) -> &'static [u8]
    ensures { result.now ≡ tree_fault_name fault.now }
{
    match fault {
        TreeError::RootFixed => b"RootFixed",
        TreeError::NoParent(_) => b"NoParent",
        TreeError::Exists(_) => b"Exists",
        TreeError::Missing(_) => b"Missing",
        TreeError::IsFolder(_) => b"IsFolder",
        TreeError::NotEmpty(_, _) => b"NotEmpty",
        TreeError::RowsFull(_) => b"RowsFull",
        TreeError::FileTooLarge(_) => b"FileTooLarge",
        TreeError::TreeFull(_) => b"TreeFull",
        TreeError::VersionTop(_) => b"VersionTop",
        TreeError::Memory => b"Memory",
    }
}

fn put_tree_values(out: &mut Vec<u8>, fault: &TreeError) -> Result<(), AllocError>
    ensures { OnOk result (out.new.items ≡ out.old.items ++ tree_fault_values fault.now) }
{
    match fault {
        TreeError::NoParent(path)
        | TreeError::Exists(path)
        | TreeError::Missing(path)
        | TreeError::IsFolder(path)
        | TreeError::VersionTop(path) => put_path(out, path),
        TreeError::NotEmpty(path, child) => {
            put_path(out, path)?;
            put_path(out, child)
        }
        TreeError::RowsFull(n) => put_number(out, u64::from(*n)),
        TreeError::FileTooLarge(n) | TreeError::TreeFull(n) => put_number(out, *n),
        TreeError::RootFixed | TreeError::Memory => Ok(()),
    }
}

fn log_name(fault: &LogError) -> &'static [u8]
    ensures { result.now ≡ log_fault_name fault.now }
{
    match fault {
        LogError::EntryTooLarge { .. } => b"EntryTooLarge",
        LogError::LogFull { .. } => b"LogFull",
        LogError::LastNumber => b"LastNumber",
        LogError::Tree(_, fault) => tree_name(fault),
        LogError::Memory => b"Memory",
    }
}

fn put_log_values(out: &mut Vec<u8>, fault: &LogError) -> Result<(), AllocError>
    ensures { OnOk result (out.new.items ≡ out.old.items ++ log_fault_values fault.now) }
{
    match fault {
        LogError::EntryTooLarge {
            effects: count,
            bytes,
        }
        | LogError::LogFull {
            entries: count,
            bytes,
        } => {
            put_number(out, u64::from(*count))?;
            put_number(out, *bytes)
        }
        LogError::Tree(_, fault) => put_tree_values(out, fault),
        LogError::LastNumber | LogError::Memory => Ok(()),
    }
}

fn capture_name(fault: &CaptureError) -> &'static [u8]
    ensures { result.now ≡ capture_fault_name fault.now }
{
    match fault {
        CaptureError::NoProgram => b"NoProgram",
        CaptureError::BadOption(_) => b"BadOption",
        CaptureError::BadInput(_) => b"BadInput",
        CaptureError::BadEnv(_) => b"BadEnv",
        CaptureError::BadTemplate(_) => b"BadTemplate",
        CaptureError::NotAbsolute => b"NotAbsolute",
        CaptureError::ZeroByte(_) => b"ZeroByte",
        CaptureError::CommandTooLong(_) => b"CommandTooLong",
        CaptureError::Memory => b"Memory",
    }
}

fn put_capture_values(out: &mut Vec<u8>, fault: &CaptureError) -> Result<(), AllocError>
    ensures { OnOk result (out.new.items ≡ out.old.items ++ capture_fault_values fault.now) }
{
    match fault {
        CaptureError::BadOption(i)
        | CaptureError::BadInput(i)
        | CaptureError::BadEnv(i)
        | CaptureError::BadTemplate(i)
        | CaptureError::ZeroByte(i) => put_number(out, u64::from(*i)),
        CaptureError::CommandTooLong(n) => put_number(out, *n),
        CaptureError::NoProgram | CaptureError::NotAbsolute | CaptureError::Memory => Ok(()),
    }
}

fn job_name(fault: &JobError) -> &'static [u8]
    ensures { result.now ≡ job_fault_name fault.now }
{
    match fault {
        JobError::NoFolder(_) => b"NoFolder",
        JobError::NoInput(_) => b"NoInput",
        JobError::Memory => b"Memory",
    }
}

fn put_job_values(out: &mut Vec<u8>, fault: &JobError) -> Result<(), AllocError>
    ensures { OnOk result (out.new.items ≡ out.old.items ++ job_fault_values fault.now) }
{
    match fault {
        JobError::NoFolder(path) => put_path(out, path),
        JobError::NoInput(i) => put_number(out, u64::from(*i)),
        JobError::Memory => Ok(()),
    }
}

fn fault_name(fault: &Fault) -> &'static [u8]
    ensures { result.now ≡ fault_name fault.now }
{
    match fault {
        Fault::Path(fault) => path_name(fault),
        Fault::Line(fault) => line_name(fault),
        Fault::Tree(fault) => tree_name(fault),
        Fault::Log(fault) => log_name(fault),
        Fault::Capture(fault) => capture_name(fault),
        Fault::Job(fault) => job_name(fault),
        Fault::NotFolder(_) => b"NotFolder",
        Fault::Pending(_) => b"Pending",
    }
}

fn put_fault_values(out: &mut Vec<u8>, fault: &Fault) -> Result<(), AllocError>
    ensures { OnOk result (out.new.items ≡ out.old.items ++ fault_values fault.now) }
{
    match fault {
        Fault::Path(fault) => put_path_values(out, fault),
        Fault::Line(fault) => put_line_values(out, fault),
        Fault::Tree(fault) => put_tree_values(out, fault),
        Fault::Log(fault) => put_log_values(out, fault),
        Fault::Capture(fault) => put_capture_values(out, fault),
        Fault::Job(fault) => put_job_values(out, fault),
        Fault::NotFolder(path) => put_path(out, path),
        Fault::Pending(n) => put_number(out, u64::from(*n)),
    }
}
