// A check of the certificate that an input holds.
ghost use Rattle.std.specs.Prelude.{◌≡◌, IfOk, OnErr};
ghost use Rattle.outside.specs.Outside.{CountsFault, RisesWhere};
ghost use Rattle.program_words.specs.Status.{code};
ghost use Rattle.tree_proof.specs.Checking.{checked};
ghost use Rattle.client_proof.specs.Ending.{answer_status, WritesAnswer, BreaksAnswer, stream_faults_of, CheckEnds};
ghost use Rattle.client_proof.specs.Inside.{TellsFinding};

use crate::reading::read_all;
use crate::telling::answer_line;
use client_lines::InputEnd;
use file_paths::Path;
use outside::{Sink, SinkError, Source, write_all};
use program_words::Status;
use std::alloc::{AllocError, Global};
use tree_proof::{CheckError, Finding, check};

/// Reads a certificate to the end of the input, checks it against the root of a volume, and writes one line: what it says of the
/// path, `row VERSION none`, `row VERSION folder`, `row VERSION file LEN DIGITS`, `row VERSION program LEN DIGITS` or `no row`; or
/// why it is refused, `refused BadCert PLACE`, `refused OtherPath PATH` or `refused WrongRoot DIGITS`, with the root that it
/// computes. The status that it gives:
///
/// - 0: the line tells what stands at the path;
/// - 3: the source failed, and nothing was written;
/// - 4: the sink failed;
/// - 7: memory ran out;
/// - 8: the input has more than 16,777,216 bytes, and nothing was written;
/// - 9: the line tells why the certificate is refused.
pub fn check_run<I: Source, O: Sink>(
    alloc: Global,
    root: &[u8; 32],
    path: &Path,
    input: &mut I,
    output: &mut O,
) -> u8
    ensures { let faults = stream_faults_of I.Source O.Sink in
        CheckEnds root.now path.now result (I.left input.old) (I.left input.new) (O.written output.old) (O.written output.new)
        (faults input.old output.old) (faults input.new output.new) }
{
    let mut certificate = Vec::new(alloc);
    let status = match read_all(input, &mut certificate) {
        Ok(InputEnd::Read) => tell(alloc, root, path, &certificate, output),
        Ok(InputEnd::Failed) => Status::SourceFailed,
        Ok(InputEnd::TooLong) => Status::TooLong,
        Err(_refused) => Status::NoMemory,
    };
    drop(certificate);
    status.code()
}

/// Writes the line that answers, and says how that ended.
fn tell<O: Sink>(
    alloc: Global,
    root: &[u8; 32],
    path: &Path,
    certificate: &[u8],
    output: &mut O,
) -> Status
    ensures tells { TellsFinding (checked root.now path.now certificate.now) result (O.written output.old) (O.written output.new) }
    ensures cause { RisesWhere (code result ≡ 4) (O.faults output.old) (O.faults output.new) }
{
    match answer(alloc, root, path, certificate, output) {
        Ok(status) => status,
        Err(SinkError::Failed) => Status::SinkFailed,
        Err(SinkError::Memory) => Status::NoMemory,
    }
}

/// The same, where a line that was not written whole is an error.
fn answer<O: Sink>(
    alloc: Global,
    root: &[u8; 32],
    path: &Path,
    certificate: &[u8],
    output: &mut O,
) -> Result<Status, SinkError>
    ensures all { IfOk result (λ status. WritesAnswer (checked root.now path.now certificate.now) (code status) (O.written output.old)
        (O.written output.new)) }
    ensures front { OnErr result (BreaksAnswer (checked root.now path.now certificate.now) (O.written output.old) (O.written output.new)) }
    ensures cause { CountsFault SinkError.Failed (O.faults output.old) (O.faults output.new) result }
{
    let answer = checked(alloc, root, path, certificate)?;
    let line = answer_line(alloc, &answer);
    let status = status_of(&answer);
    drop(answer);
    write_all(output, &line?)?;
    Ok(status)
}

/// What the certificate says of the path, or why it is refused. Want of memory is the only error.
fn checked(
    alloc: Global,
    root: &[u8; 32],
    path: &Path,
    certificate: &[u8],
) -> Result<Result<Finding, CheckError>, AllocError>
    ensures { IfOk result (λ answer. answer ≡ checked root.now path.now certificate.now) }
{
    match check(alloc, root, path, certificate) {
        Err(CheckError::Memory) => Err(AllocError),
        answer => Ok(answer),
    }
}

/// The status of a check with this answer.
fn status_of(answer: &Result<Finding, CheckError>) -> Status
    ensures { code result ≡ answer_status answer.now }
{
    match answer {
        Ok(_) => Status::Done,
        Err(_) => Status::Refused,
    }
}
