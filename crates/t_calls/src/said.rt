// What is found, as text.

use std::alloc::{AllocError, Global};
use t_scene_files::Fault;
use tree_proof::{CheckError, Finding, SlimNode, SlimRow};

/// What a check came to.
pub(crate) fn told(alloc: Global, checked: &Result<Finding, CheckError>) -> Result<String, Fault> {
    match checked {
        Ok(Finding::Row(row)) => Ok(row_told(alloc, row)?),
        Ok(Finding::NoRow) => Ok(String::from_str(alloc, "no row")?),
        Err(CheckError::BadCert(place)) => Ok(format!(in alloc; "BadCert {place}")?),
        Err(CheckError::OtherPath(path)) => {
            let text = path.text()?;
            let told = digits_behind(alloc, "OtherPath ", text.bytes());
            drop(text);
            Ok(told?)
        }
        Err(CheckError::WrongRoot { found, .. }) => Ok(digits_behind(alloc, "WrongRoot ", found)?),
        Err(CheckError::Memory) => Err(Fault::Memory),
    }
}

fn row_told(alloc: Global, row: &SlimRow) -> Result<String, AllocError> {
    let version = row.version;
    match &row.node {
        SlimNode::None => format!(in alloc; "row {version} none"),
        SlimNode::Folder => format!(in alloc; "row {version} folder"),
        SlimNode::File { exec, len, print } => {
            let kind = if *exec { "program" } else { "file" };
            let front = format!(in alloc; "row {version} {kind} {len} ")?;
            let told = digits_behind(alloc, &front, print);
            drop(front);
            told
        }
    }
}

/// The digits of bytes, behind a text.
fn digits_behind(alloc: Global, front: &str, bytes: &[u8]) -> Result<String, AllocError> {
    let mut text = String::from_str(alloc, front)?;
    for byte in bytes {
        text.push_str(&format!(in alloc; "{byte:02x}")?)?;
    }
    Ok(text)
}
