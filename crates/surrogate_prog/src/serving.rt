// Serving the connections of a port as a surrogate.
ghost use Rattle.std.specs.Prelude.{◌≡◌, ◌≤◌, IfOk, OnErr};
ghost use Rattle.outside.specs.Port.{most_connections};
ghost use Rattle.wire_frames.specs.Frame.{IsValid, frame};
ghost use Rattle.surrogate_core.specs.Handling.{Idle};
ghost use Rattle.surrogate_prog.specs.Serving.{outside_told};
ghost use Rattle.surrogate_prog.specs.Inside.{RepliesTo, BreaksReply, IsMessageHandled, BreaksHandled, SurrogateServesNext, BreaksTaking};
ghost use Rattle.surrogate_prog.specs.Inside.{SurrogateServesAll, SurrogateServesFront};

use cmd_capture::Runner;
use outside::Port;
use port_serving::{Came, Taking, Tally, answer_frame, take_frame, tallied};
use std::alloc::{AllocError, Global};
use surrogate_core::Surrogate;
use wire_frames::{FrameError, Message, malformed, read, write};
use world_rules::Link;

/// Whom a surrogate asks, and where it works.
#[derive(Clone, Copy)]
pub(crate) struct SurrogateRoute<'a> {
    /// Its server's address.
    pub(crate) server: &'a [u8],
    /// The folder in which commands are run.
    pub(crate) work: &'a [u8],
}

/// Handles a message, and writes the reply.
fn handle<R: Runner, L: Link>(
    alloc: Global,
    surrogate: &mut Surrogate,
    request: Message,
    route: &SurrogateRoute<'_>,
    runner: &mut R,
    link: &mut L,
) -> Result<Vec<u8>, AllocError>
    requires idle { surrogate.old.phase ≡ Idle }
    requires valid { IsValid request }
    ensures idle { surrogate.new.phase ≡ Idle }
    ensures ok { IfOk result (λ bytes. IsMessageHandled route.now.server.now route.now.work.now surrogate.old.copy request bytes.items
        surrogate.new.copy (outside_told (R.runs runner.old) (R.faults runner.old) (L.tells link.old))
        (outside_told (R.runs runner.new) (R.faults runner.new) (L.tells link.new))) }
    ensures err { OnErr result (BreaksHandled route.now.server.now route.now.work.now surrogate.old.copy request
        (outside_told (R.runs runner.old) (R.faults runner.old) (L.tells link.old))
        (outside_told (R.runs runner.new) (R.faults runner.new) (L.tells link.new))) }
{
    let reply = surrogate.serve(request, route.work, runner, link, route.server)?;
    in_frame(alloc, reply)
}

fn in_frame(alloc: Global, message: Message) -> Result<Vec<u8>, AllocError>
    requires { IsValid message }
    ensures { IfOk result (λ bytes. bytes.items ≡ frame message) }
{
    let bytes = write(alloc, &message);
    drop(message);
    bytes
}

/// The frame that answers a frame: its message is handled, and bytes that are refused are answered so.
fn reply_to<R: Runner, L: Link>(
    alloc: Global,
    surrogate: &mut Surrogate,
    bytes: &[u8],
    route: &SurrogateRoute<'_>,
    runner: &mut R,
    link: &mut L,
) -> Result<Vec<u8>, AllocError>
    requires idle { surrogate.old.phase ≡ Idle }
    ensures idle { surrogate.new.phase ≡ Idle }
    ensures ok { IfOk result (λ reply. RepliesTo route.now.server.now route.now.work.now bytes.now reply.items surrogate.old.copy
        surrogate.new.copy (outside_told (R.runs runner.old) (R.faults runner.old) (L.tells link.old))
        (outside_told (R.runs runner.new) (R.faults runner.new) (L.tells link.new))) }
    ensures err { OnErr result (BreaksReply route.now.server.now route.now.work.now bytes.now surrogate.old.copy
        (outside_told (R.runs runner.old) (R.faults runner.old) (L.tells link.old))
        (outside_told (R.runs runner.new) (R.faults runner.new) (L.tells link.new))) }
{
    match read(alloc, bytes) {
        Ok(request) => handle(alloc, surrogate, request, route, runner, link),
        Err(FrameError::Memory) => Err(AllocError),
        Err(refusal) => in_frame(alloc, malformed(&refusal)),
    }
}

/// Serves the next connection: takes its frame, handles it, and answers it.
fn serve_next<P: Port, R: Runner, L: Link>(
    alloc: Global,
    surrogate: &mut Surrogate,
    port: &mut P,
    route: &SurrogateRoute<'_>,
    runner: &mut R,
    link: &mut L,
) -> Result<Came, AllocError>
    requires idle { surrogate.old.phase ≡ Idle }
    ensures idle { surrogate.new.phase ≡ Idle }
    ensures ok { IfOk result (λ came. SurrogateServesNext route.now.server.now route.now.work.now came surrogate.old.copy surrogate.new.copy
        (P.tells port.old) (P.tells port.new) (outside_told (R.runs runner.old) (R.faults runner.old) (L.tells link.old))
        (outside_told (R.runs runner.new) (R.faults runner.new) (L.tells link.new))) }
    ensures err { OnErr result (BreaksTaking route.now.server.now route.now.work.now surrogate.old.copy (P.tells port.old)
        (P.tells port.new) (outside_told (R.runs runner.old) (R.faults runner.old) (L.tells link.old))
        (outside_told (R.runs runner.new) (R.faults runner.new) (L.tells link.new))) }
{
    let bytes = match take_frame(port)? {
        Taking::Taken(bytes) => bytes,
        Taking::Missed => return Ok(Came::Missed),
        Taking::NoConnection => return Ok(Came::NoConnection),
    };
    let reply = reply_to(alloc, surrogate, &bytes, route, runner, link)?;
    answer_frame(port, &reply)
}

/// Serves so many connections, or all that are left. A fault of the port ends one connection alone.
pub(crate) fn serve<P: Port, R: Runner, L: Link>(
    alloc: Global,
    surrogate: &mut Surrogate,
    port: &mut P,
    route: &SurrogateRoute<'_>,
    count: u32,
    runner: &mut R,
    link: &mut L,
) -> Result<Tally, AllocError>
    requires idle { surrogate.old.phase ≡ Idle }
    requires count { count ≤ most_connections }
    ensures ok { IfOk result (λ tally. SurrogateServesAll route.now.server.now route.now.work.now count tally surrogate.old.copy
        (P.tells port.old) (P.tells port.new) (outside_told (R.runs runner.old) (R.faults runner.old) (L.tells link.old))
        (outside_told (R.runs runner.new) (R.faults runner.new) (L.tells link.new))) }
    ensures err { OnErr result (SurrogateServesFront route.now.server.now route.now.work.now count surrogate.old.copy (P.tells port.old)
        (P.tells port.new) (outside_told (R.runs runner.old) (R.faults runner.old) (L.tells link.old))
        (outside_told (R.runs runner.new) (R.faults runner.new) (L.tells link.new))) }
{
    let mut tally = Tally::new();
    for _take in 0..count {
        match serve_next(alloc, surrogate, port, route, runner, link)? {
            Came::NoConnection => break,
            came => tally = tallied(tally, came),
        }
    }
    Ok(tally)
}
