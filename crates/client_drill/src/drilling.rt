// A drill is worked off and told of.
ghost use Rattle.std.specs.Prelude.{◌≡◌, ◌≤◌, false, IfOk};
ghost use Rattle.outside.specs.Outside.{Adds};
ghost use Rattle.program_words.specs.Status.{code};
ghost use Rattle.client_drill.specs.declared.summary.Summary.{Summary};
ghost use Rattle.client_drill.specs.Limits.{max_steps};
ghost use Rattle.client_drill.specs.Drilled.{summary_text, new_runner, IsDrillNet, Drilled};
ghost use Rattle.client_drill.specs.Ending.{status_of_drill, DrillEnds};

use crate::fates::fates;
use crate::script::job_count;
use crate::session::{network, work_off};
use crate::summary::{Summary, done_count, size_of_files};
use mem_net::{DrillRunner, MemNet};
use outside::{Sink, SinkError, write_all};
use program_words::Status;
use std::alloc::{AllocError, Global};

/// Works a drill off over a network, as the session of a new client that is kept in memory, and writes what came of it. The status that
/// it gives:
///
/// - 0: the summary was written;
/// - 4: the sink failed;
/// - 7: memory ran out, here or in an ask of the network, or not all of the entries were logged.
pub fn drill_on<O: Sink>(
    alloc: Global,
    seed: u16,
    count: u32,
    runner: &mut DrillRunner,
    net: &mut MemNet<DrillRunner>,
    output: &mut O,
) -> u8
    requires low { 1 ≤ count }
    requires high { count ≤ max_steps }
    requires runner { runner.old ≡ new_runner false }
    requires net { IsDrillNet seed count net.old }
    ensures ends { DrillEnds seed count result (O.written output.old) (O.written output.new) (O.faults output.old) (O.faults output.new) }
    ensures drilled { result ≡ 0 → (summary : Summary) × Drilled seed count runner.old runner.new net.old net.new summary
        × Adds (O.written output.old) (O.written output.new) (summary_text seed count summary) }
{
    match told(alloc, seed, count, runner, net) {
        Ok(text) => status_of(write_all(output, &text)).code(),
        Err(_wanted) => Status::NoMemory.code(),
    }
}

/// The status of a drill whose summary was so written.
fn status_of(written: Result<(), SinkError>) -> Status
    ensures { code result ≡ status_of_drill written }
{
    match written {
        Ok(()) => Status::Done,
        Err(SinkError::Failed) => Status::SinkFailed,
        Err(SinkError::Memory) => Status::NoMemory,
    }
}

/// Works a drill off over a network that is made for it, and writes what came of it. The statuses are those of `drill_on`.
pub fn drill<O: Sink>(alloc: Global, seed: u16, count: u32, output: &mut O) -> u8
    requires low { 1 ≤ count }
    requires high { count ≤ max_steps }
    ensures { DrillEnds seed count result (O.written output.old) (O.written output.new) (O.faults output.old) (O.faults output.new) }
{
    let Ok(fates) = fates(alloc, seed, count) else {
        return Status::NoMemory.code();
    };
    let Ok(mut net) = network(alloc, fates) else {
        return Status::NoMemory.code();
    };
    let mut runner = DrillRunner::new(alloc, false);
    let status = drill_on(alloc, seed, count, &mut runner, &mut net, output);
    drop(net);
    drop(runner);
    status
}

/// The text that tells what came of a drill.
fn told(
    alloc: Global,
    seed: u16,
    count: u32,
    runner: &mut DrillRunner,
    net: &mut MemNet<DrillRunner>,
) -> Result<Vec<u8>, AllocError>
    requires count { count ≤ max_steps }
    requires runner { runner.old ≡ new_runner false }
    requires net { IsDrillNet seed count net.old }
    ensures { IfOk result (λ text. (summary : Summary) × Drilled seed count runner.old runner.new net.old net.new summary
        × (text.items ≡ summary_text seed count summary)) }
{
    let summary = summary(alloc, seed, count, runner, net)?;
    summary.text(alloc, seed, count)
}

/// Works a drill off, and counts what came of it.
fn summary(
    alloc: Global,
    seed: u16,
    count: u32,
    runner: &mut DrillRunner,
    net: &mut MemNet<DrillRunner>,
) -> Result<Summary, AllocError>
    requires count { count ≤ max_steps }
    requires runner { runner.old ≡ new_runner false }
    requires net { IsDrillNet seed count net.old }
    ensures { IfOk result (Drilled seed count runner.old runner.new net.old net.new) }
{
    let worked = work_off(alloc, seed, count, runner, net)?;
    if worked.logged != u64::from(count) + 2 {
        return Err(AllocError);
    }
    Ok(Summary {
        worked,
        commands: job_count(seed, count),
        done: done_count(alloc, net)?,
        troubles: net.troubles(),
        rows: net.server().tree().count(),
        bytes: size_of_files(net.server())?,
    })
}
