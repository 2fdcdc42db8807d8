// The line that tells what a certificate says.
ghost use Rattle.std.specs.Prelude.{◌≡◌, ◌++◌, IfOk, OnOk};
ghost use Rattle.hex.specs.Hex.{encode_lower};
ghost use Rattle.client_proof.specs.Texts.{file_word, node_text, finding_text, refusal_text, answer_line};

use hex::encode_to_slice;
use shell_lang::{put_number, put_path};
use std::alloc::{AllocError, Global};
use tree_proof::{CheckError, Finding, SlimNode, SlimRow};

/// The line that answers: what was found, or why the certificate is refused.
///
/// # Errors
///
/// Want of memory.
#[tactic(auto, using(std::proofs::Common::append_assoc))]
pub(crate) fn answer_line(
    alloc: Global,
    answer: &Result<Finding, CheckError>,
) -> Result<Vec<u8>, AllocError>
    ensures { IfOk result (λ line. line.items ≡ answer_line answer.now) }
{
    let mut line = Vec::new(alloc);
    match answer {
        Ok(finding) => put_finding(&mut line, finding)?,
        Err(refused) => {
            line.extend_from_slice(b"refused ")?;
            put_refusal(&mut line, refused)?;
        }
    }
    line.push(b'\n')?;
    Ok(line)
}

/// Appends what was found.
fn put_finding(line: &mut Vec<u8>, finding: &Finding) -> Result<(), AllocError>
    ensures { OnOk result (line.new.items ≡ line.old.items ++ finding_text finding.now) }
{
    match finding {
        Finding::Row(row) => put_row(line, row),
        Finding::NoRow => line.extend_from_slice(b"no row"),
    }
}

/// Appends a row: its version, and what stands there.
#[tactic(auto, using(std::proofs::Common::append_assoc))]
fn put_row(line: &mut Vec<u8>, row: &SlimRow) -> Result<(), AllocError>
    ensures { OnOk result (line.new.items ≡ line.old.items ++ finding_text (Finding.Row row.now)) }
{
    line.extend_from_slice(b"row")?;
    put_number(line, row.version)?;
    line.push(b' ')?;
    put_node(line, &row.node)
}

/// Appends what stands there, and of a file its length and its print.
fn put_node(line: &mut Vec<u8>, node: &SlimNode) -> Result<(), AllocError>
    ensures { OnOk result (line.new.items ≡ line.old.items ++ node_text node.now) }
{
    match node {
        SlimNode::None => line.extend_from_slice(b"none"),
        SlimNode::Folder => line.extend_from_slice(b"folder"),
        SlimNode::File { exec, len, print } => {
            line.extend_from_slice(file_word(*exec))?;
            put_number(line, u64::from(*len))?;
            line.push(b' ')?;
            line.extend_from_slice(&digits_of(print))
        }
    }
}

/// What a file is called.
fn file_word(exec: bool) -> &'static [u8]
    ensures { result.now ≡ file_word exec }
{
    if exec { b"program" } else { b"file" }
}

/// Appends why a certificate is refused. Want of memory has no text.
fn put_refusal(line: &mut Vec<u8>, refused: &CheckError) -> Result<(), AllocError>
    ensures { OnOk result (line.new.items ≡ line.old.items ++ refusal_text refused.now) }
{
    match refused {
        CheckError::BadCert(place) => {
            line.extend_from_slice(b"BadCert")?;
            put_number(line, u64::from(*place))
        }
        CheckError::OtherPath(path) => {
            line.extend_from_slice(b"OtherPath")?;
            put_path(line, path)
        }
        CheckError::WrongRoot { wanted: _, found } => {
            line.extend_from_slice(b"WrongRoot ")?;
            line.extend_from_slice(&digits_of(found))
        }
        CheckError::Memory => Ok(()),
    }
}

/// The lower-case hexadecimal digits of a digest.
fn digits_of(digest: &[u8; 32]) -> [u8; 64]
    ensures { result ≡ encode_lower digest.now }
{
    let mut digits = [0; 64];
    let _written = encode_to_slice(digest.as_slice(), &mut digits);
    digits
}
