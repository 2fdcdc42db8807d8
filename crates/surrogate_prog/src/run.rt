// A run of the surrogate over its connections.
ghost use Rattle.std.specs.Prelude.{◌≡◌, ◌≤◌, IsTrue, map};
ghost use Rattle.std.specs.String.{string_bytes};
ghost use Rattle.outside.specs.Outside.{CountsFault};
ghost use Rattle.outside.specs.Port.{most_connections};
ghost use Rattle.surrogate_prog.specs.Words.{run_said};
ghost use Rattle.surrogate_prog.specs.Serving.{outside_told};
ghost use Rattle.surrogate_prog.specs.Run.{surrogate_status_of, is_surrogate_status, surrogate_telling, SurrogateRun};
ghost use Rattle.surrogate_prog.specs.Run.{surrogate_objects_of, SurrogateEnds};
ghost use Rattle.surrogate_prog.specs.Inside.{surrogate_stopped_by_sink};

use crate::serving::{SurrogateRoute, serve};
use crate::words::{Form, RunWords, form_of};
use cmd_capture::Runner;
use outside::{Port, Sink, SinkError};
use port_serving::write_last;
use program_words::Status;
use std::alloc::{AllocError, Global};
use surrogate_core::Surrogate;
use world_rules::Link;

/// Why a run ended without its last line.
#[derive(Clone, Copy)]
pub(crate) enum Stopped {
    /// The sink failed.
    Sink,
    /// Memory ran out.
    Memory,
}

impl From<SinkError> for Stopped {
    ghost from_gives = { λ error stopped. stopped ≡ surrogate_stopped_by_sink error };

    fn from(error: SinkError) -> Stopped {
        match error {
            SinkError::Failed => Stopped::Sink,
            SinkError::Memory => Stopped::Memory,
        }
    }
}

impl From<AllocError> for Stopped {
    ghost use Rattle.surrogate_prog.specs.declared.run.Stopped.TheVariants.{Memory};

    ghost from_gives = { λ _ stopped. stopped ≡ Memory };

    fn from(_: AllocError) -> Stopped {
        Stopped::Memory
    }
}

/// The status of a run that ended so.
fn status_of(ended: Result<(), Stopped>) -> u8
    ensures status { result ≡ surrogate_status_of ended }
    ensures known { IsTrue (is_surrogate_status result) }
{
    let status = match ended {
        Ok(()) => Status::Done,
        Err(Stopped::Sink) => Status::SinkFailed,
        Err(Stopped::Memory) => Status::NoMemory,
    };
    status.code()
}

/// Serves from a copy without rows, and writes the last line.
fn run<P: Port, R: Runner, L: Link, O: Sink>(
    alloc: Global,
    words: &RunWords<'_>,
    port: &mut P,
    link: &mut L,
    runner: &mut R,
    output: &mut O,
) -> Result<(), Stopped>
    requires { words.now.count ≤ most_connections }
    ensures turn { SurrogateRun (run_said words.now)
        (surrogate_telling (P.tells port.old) (outside_told (R.runs runner.old) (R.faults runner.old) (L.tells link.old)))
        (surrogate_telling (P.tells port.new) (outside_told (R.runs runner.new) (R.faults runner.new) (L.tells link.new)))
        (O.written output.old) (O.written output.new) result }
    ensures sink { CountsFault Stopped.Sink (O.faults output.old) (O.faults output.new) result }
{
    let route = SurrogateRoute {
        server: words.server.as_bytes(),
        work: words.work.as_bytes(),
    };
    let mut surrogate = Surrogate::new(alloc);
    let served = serve(
        alloc,
        &mut surrogate,
        port,
        &route,
        words.count,
        runner,
        link,
    );
    drop(surrogate);
    write_last(alloc, served?, output)?;
    Ok(())
}

/// Runs the surrogate on its words: takes frames from a port, and answers each by a handling of its message before it takes the
/// next one. A handling may run a command in the folder of the words, and ask the server of the words. A fault of the port ends
/// one connection alone. It gives a status.
pub fn surrogate_run<P: Port, O: Sink, R: Runner, L: Link>(
    alloc: Global,
    words: &[String],
    port: &mut P,
    link: &mut L,
    runner: &mut R,
    output: &mut O,
) -> u8
    ensures { let told = surrogate_objects_of P.Port R.Runner L.Link O.Sink in
        SurrogateEnds (map string_bytes words.now) result (told port.old runner.old link.old output.old)
        (told port.new runner.new link.new output.new) }
{
    match form_of(words) {
        Some(Form::Run(words)) => status_of(run(alloc, &words, port, link, runner, output)),
        None => Status::NoForm.code(),
    }
}
