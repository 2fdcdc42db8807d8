// The session of a drill, over objects in memory.
ghost use Rattle.std.specs.Prelude.{◌≡◌, ◌≤◌, ◌+◌, [], true, false, length, codes, Some, IfOk, OnOk};
ghost use Rattle.outside.specs.MemoryKeeper.{images_of};
ghost use Rattle.mod_log.specs.Log.{Log as LogState};
ghost use Rattle.client_core.specs.Keeping.{TellsKept};
ghost use Rattle.world_rules.specs.Served.{new_served};
ghost use Rattle.mem_wires.specs.Wire.{world_of, new_world};
ghost use Rattle.mem_net.specs.Handed.{IsByRule};
ghost use Rattle.client_drill.specs.Limits.{max_steps};
ghost use Rattle.client_drill.specs.Drill.{script};
ghost use Rattle.client_drill.specs.Drilled.{worked_of, drill_route, new_runner, IsDrillNet, WorksOff};

use crate::script::script;
use client_core::Route;
use client_lines::{open, session_run};
use mem_net::{DrillRunner, Fate, Handed, MemNet};
use mod_log::Log;
use outside::{MemKeeper, MemSink, MemSource};
use program_words::Status;
use server_core::Server;
use std::alloc::{AllocError, Global};
use std::mem;
use surrogate_core::Surrogate;
use vol_tree::Content;

/// The number of the client of a drill.
pub(crate) const CLIENT: u8 = 1;

/// The name under which it is kept.
const IMAGE: &[u8] = b"drill";

/// What the session of a drill came to.
#[derive(Clone, Copy, Debug, PartialEq, Eq)]
pub(crate) struct Worked {
    /// How many entries were logged.
    pub(crate) logged: u64,
    /// How many of them are acknowledged.
    pub(crate) acked: u64,
    /// How many of them are pending.
    pub(crate) pending: u32,
}

/// Works the lines of a drill off over a network. Memory is wanted, too, where an ask of the network
/// wanted some.
pub(crate) fn work_off(
    alloc: Global,
    seed: u16,
    count: u32,
    runner: &mut DrillRunner,
    net: &mut MemNet<DrillRunner>,
) -> Result<Worked, AllocError>
    requires count { count ≤ max_steps }
    requires runner { runner.old ≡ new_runner false }
    requires net { IsDrillNet seed count net.old }
    ensures worked { IfOk result (WorksOff (script seed count) runner.old runner.new net.old net.new) }
    ensures rule { OnOk result (IsByRule (world_of net.new.wires) net.new.wires.fates) }
{
    let lines = script(alloc, seed, count)?;
    let route = route(alloc)?;
    let spare = network(alloc, Vec::new(alloc))?;
    let mut link = Handed::new(mem::replace(net, spare), CLIENT);
    let worked = work_through(alloc, &route, lines, runner, &mut link);
    drop(route);
    let (used, wanted) = link.into_net();
    drop(mem::replace(net, used));
    if wanted {
        return Err(AllocError);
    }
    worked
}

/// The network of a drill: of its client, a new server and a new surrogate, whose asks meet these fates.
pub(crate) fn network(alloc: Global, fates: Vec<Fate>) -> Result<MemNet<DrillRunner>, AllocError>
    ensures world { IfOk result (λ net. world_of net.wires ≡ new_world 1 new_served) }
    ensures fates { IfOk result (λ net. net.wires.fates ≡ fates.items) }
    ensures troubles { IfOk result (λ net. net.wires.troubles ≡ 0) }
    ensures copy { IfOk result (λ net. net.surrogate.copy ≡ []) }
    ensures runner { IfOk result (λ net. net.runner ≡ new_runner true) }
{
    let far = DrillRunner::new(alloc, true);
    MemNet::new(
        alloc,
        CLIENT,
        Server::new(alloc),
        Surrogate::new(alloc),
        far,
        fates,
    )
}

/// Where the image, the peers and the commands of a drill are.
fn route(alloc: Global) -> Result<Route, AllocError>
    ensures { IfOk result (λ route. route ≡ drill_route) }
{
    Ok(Route {
        image: Content::of(alloc, IMAGE)?,
        server: Content::of(alloc, b"srv")?,
        surrogate: Some(Content::of(alloc, b"sur")?),
        work: Content::of(alloc, b"work")?,
    })
}

/// The session of a drill's client over these lines.
fn work_through(
    alloc: Global,
    route: &Route,
    lines: Vec<u8>,
    runner: &mut DrillRunner,
    link: &mut Handed<DrillRunner>,
) -> Result<Worked, AllocError>
    requires { route.now ≡ drill_route }
    ensures { IfOk result (WorksOff lines.items runner.old runner.new link.old.net link.new.net) }
{
    let mut input = MemSource::new(alloc, lines, Vec::new(alloc));
    let mut output = MemSink::new(alloc, Vec::new(alloc));
    let mut keeper = MemKeeper::new(alloc, Vec::new(alloc));
    let status = session_run(
        alloc,
        CLIENT,
        route,
        &mut input,
        &mut output,
        &mut keeper,
        runner,
        link,
    );
    drop(input);
    drop(output);
    if status != Status::Done.code() {
        return Err(AllocError);
    }
    kept(alloc, &mut keeper)
}

/// What the client of a drill has that is kept.
fn kept(alloc: Global, keeper: &mut MemKeeper) -> Result<Worked, AllocError>
    ensures { (log : LogState) → TellsKept (Some (images_of keeper.old.slots)) (codes "drill") 1 log → IfOk result (λ worked.
        worked ≡ worked_of log) }
{
    let Ok(client) = open(alloc, CLIENT, IMAGE, keeper) else {
        return Err(AllocError);
    };
    let worked = worked_of(client.log());
    drop(client);
    Ok(worked)
}

/// What a session came to that began with a new log, by its log at the end.
fn worked_of(log: &Log) -> Worked
    ensures { result ≡ worked_of log.now }
{
    let (acked, pending) = (log.acked(), log.pending());
    Worked {
        logged: acked + u64::from(pending),
        acked,
        pending,
    }
}
