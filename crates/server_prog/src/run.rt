// A run of the server over its connections.
ghost use Rattle.std.specs.Prelude.{◌≡◌, ◌≤◌, IfOk, IsErrOf, IsTrue, map};
ghost use Rattle.std.specs.String.{string_bytes};
ghost use Rattle.outside.specs.Outside.{CountsFault};
ghost use Rattle.outside.specs.Keeper.{kept_under};
ghost use Rattle.outside.specs.Port.{most_connections};
ghost use Rattle.world_rules.specs.Served.{Served};
ghost use Rattle.server_core.specs.Holding.{served};
ghost use Rattle.server_core.specs.Keeping.{IsKeptForServed};
ghost use Rattle.server_prog.specs.declared.run.Stopped.TheVariants.{Memory};
ghost use Rattle.server_prog.specs.Serving.{server_telling};
ghost use Rattle.server_prog.specs.Run.{server_status_of, is_server_status, Opens, OpensNone, ServerRun, OthersKept, objects_of, Ends};
ghost use Rattle.server_prog.specs.Inside.{stopped_by_keeper, stopped_by_sink};

use crate::serving::serve;
use crate::telling::{tell_proof, tell_root};
use crate::words::{Form, form_of};
use outside::{KeepError, Keeper, Port, Sink, SinkError};
use port_serving::write_last;
use program_words::Status;
use server_core::Server;
use std::alloc::{AllocError, Global};
use store_image::{ImageError, read_server};

/// Why a run ended without its last line.
#[derive(Clone, Copy)]
pub(crate) enum Stopped {
    /// The sink failed.
    Sink,
    /// The keeper failed.
    Keeper,
    /// What is kept is no server's image.
    Image,
    /// Memory ran out.
    Memory,
}

impl From<AllocError> for Stopped {
    ghost from_gives = { λ _ stopped. stopped ≡ Memory };

    fn from(_: AllocError) -> Stopped {
        Stopped::Memory
    }
}

impl From<SinkError> for Stopped {
    ghost from_gives = { λ error stopped. stopped ≡ stopped_by_sink error };

    fn from(error: SinkError) -> Stopped {
        match error {
            SinkError::Failed => Stopped::Sink,
            SinkError::Memory => Stopped::Memory,
        }
    }
}

impl From<KeepError> for Stopped {
    ghost from_gives = { λ error stopped. stopped ≡ stopped_by_keeper error };

    fn from(error: KeepError) -> Stopped {
        match error {
            KeepError::Failed => Stopped::Keeper,
            KeepError::Memory => Stopped::Memory,
        }
    }
}

/// The status of a run that ended so.
fn status_of(ended: Result<(), Stopped>) -> u8
    ensures status { result ≡ server_status_of ended }
    ensures known { IsTrue (is_server_status result) }
{
    let status = match ended {
        Ok(()) => Status::Done,
        Err(Stopped::Sink) => Status::SinkFailed,
        Err(Stopped::Keeper) => Status::KeeperFailed,
        Err(Stopped::Image) => Status::OtherImage,
        Err(Stopped::Memory) => Status::NoMemory,
    };
    status.code()
}

/// The server that is kept under the name, or a new one where nothing is.
#[tactic(auto, using(crate::proofs::Others::others_none, crate::proofs::Others::others_loaded, crate::proofs::Others::images_loaded))]
pub(crate) fn opened<K: Keeper>(
    alloc: Global,
    name: &[u8],
    keeper: &mut K,
) -> Result<Server, Stopped>
    ensures opens { IfOk result (λ server. Opens (kept_under name.now (K.images keeper.old)) (served server)) }
    ensures none { IsErrOf result Stopped.Image → OpensNone (kept_under name.now (K.images keeper.old)) }
    ensures same { (kept_under name.now (K.images keeper.new)) ≡ (kept_under name.now (K.images keeper.old)) }
    ensures no_sink { IsErrOf result Stopped.Sink → ⊥ }
    ensures others { OthersKept name.now (K.images keeper.old) (K.images keeper.new) }
    ensures images { K.images keeper.new ≡ K.images keeper.old }
    ensures cause { CountsFault Stopped.Keeper (K.faults keeper.old) (K.faults keeper.new) result }
{
    match keeper.load(name)? {
        Some(image) => server_of(alloc, &image),
        None => Ok(Server::new(alloc)),
    }
}

/// The server that the bytes keep.
fn server_of(alloc: Global, bytes: &[u8]) -> Result<Server, Stopped>
    ensures opens { IfOk result (λ server. IsKeptForServed (served server) bytes.now) }
    ensures none { IsErrOf result Stopped.Image → (state : Served) → IsKeptForServed state bytes.now → ⊥ }
    ensures no_sink { IsErrOf result Stopped.Sink → ⊥ }
    ensures no_keeper { IsErrOf result Stopped.Keeper → ⊥ }
{
    match read_server(alloc, bytes) {
        Ok(image) => Ok(Server::from_image(image)),
        Err(error) => match error {
            ImageError::Memory => Err(Stopped::Memory),
            ImageError::WrongKind | ImageError::BadImage(_) => Err(Stopped::Image),
        },
    }
}

/// Serves as the server that is kept under the name, and writes the last line.
#[tactic(auto, using(crate::proofs::Others::others_none, crate::proofs::Others::others_then))]
fn run<P: Port, K: Keeper, O: Sink>(
    alloc: Global,
    name: &[u8],
    count: u32,
    port: &mut P,
    keeper: &mut K,
    output: &mut O,
) -> Result<(), Stopped>
    requires { count ≤ most_connections }
    ensures turn { ServerRun count (server_telling (P.tells port.old) (kept_under name.now (K.images keeper.old)))
        (server_telling (P.tells port.new) (kept_under name.now (K.images keeper.new))) (O.written output.old) (O.written output.new)
        result }
    ensures others { OthersKept name.now (K.images keeper.old) (K.images keeper.new) }
    ensures sink { CountsFault Stopped.Sink (O.faults output.old) (O.faults output.new) result }
    ensures keeper { CountsFault Stopped.Keeper (K.faults keeper.old) (K.faults keeper.new) result }
{
    let mut server = opened(alloc, name, keeper)?;
    let tally = serve(&mut server, port, name, keeper, count)?;
    write_last(alloc, tally, output)?;
    Ok(())
}

/// Runs the server on its words: takes frames from a port, and answers each by the server that is kept under the image's name,
/// or a new one, before it takes the next one. Where a frame changes what the server holds, that change is kept before the frame
/// is answered: the first one by an image, each later one by its record behind it, as long as the records are few. A fault of
/// the port ends one connection alone. Or, where the words ask for that, it writes the root of the volume that is kept, or the
/// certificate of a path in it, and touches nothing else. It gives a status.
pub fn server_run<P: Port, O: Sink, K: Keeper>(
    alloc: Global,
    words: &[String],
    port: &mut P,
    keeper: &mut K,
    output: &mut O,
) -> u8
    ensures { let told = objects_of P.Port K.Keeper O.Sink in
        Ends (map string_bytes words.now) result (told port.old keeper.old output.old)
        (told port.new keeper.new output.new) }
{
    match form_of(words) {
        Some(Form::Run(words)) => {
            let name = words.image.as_bytes();
            status_of(run(alloc, name, words.count, port, keeper, output))
        }
        Some(Form::Root(image)) => {
            let name = image.as_bytes();
            status_of(tell_root(alloc, name, keeper, output))
        }
        Some(Form::Prove(image, path)) => {
            let name = image.as_bytes();
            status_of(tell_proof(alloc, name, path.as_bytes(), keeper, output))
        }
        None => Status::NoForm.code(),
    }
}
