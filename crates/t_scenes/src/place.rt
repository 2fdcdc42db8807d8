// The network and the keeper of a scene.

use crate::counted::Counted;
use crate::keeping::{Image, bytes_of, keeper_of};
use crate::scripts::{Scripts, Whose};
use cmd_capture::ScriptAnswer;
use mem_net::Fate;
use outside::{KeepFail, MemKeeper};
use server_core::Server;
use std::alloc::{AllocError, Global};
use std::mem;
use surrogate_pool::Pool;
use t_run_probe::{Network, network};
use t_scene_files::Fault;
use vol_tree::TryCopy;

/// What the network and the keeper of the next run are to meet.
#[derive(Drop)]
pub(crate) struct Prepared {
    pub(crate) server: Server,
    pub(crate) fates: Vec<Fate>,
    pub(crate) images: Vec<Image>,
    pub(crate) fails: Vec<KeepFail>,
    /// How many lines say that the keeper fails.
    pub(crate) lines: u32,
}

impl Prepared {
    /// A new server, nothing kept, and nothing that fails or is lost.
    pub(crate) fn new(alloc: Global) -> Prepared {
        Prepared {
            server: Server::new(alloc),
            fates: Vec::new(alloc),
            images: Vec::new(alloc),
            fails: Vec::new(alloc),
            lines: 0,
        }
    }

    /// Whether nothing is to fail or to be lost.
    pub(crate) fn is_met(&self) -> bool {
        self.fates.is_empty() && self.lines == 0
    }
}

/// A network under a pool, by which an operation goes to each of the addresses that an ask names.
pub(crate) type Pooled = Pool<Network>;

/// A network and a keeper.
#[derive(Drop)]
pub(crate) struct Place {
    pub(crate) net: Pooled,
    pub(crate) keeper: Counted<MemKeeper>,
    /// How many lines said that the keeper fails.
    lines: u32,
}

impl Place {
    /// Whether each line that says so made the keeper fail, the surrogate's runs came to each answer, and asks to each fate.
    pub(crate) fn is_met(&self) -> bool {
        let net = self.net.link();
        self.keeper.failed >= self.lines && net.runner().answers_left() == 0 && are_met(net)
    }

    /// Nothing is kept any more, and no call of the keeper fails.
    pub(crate) fn forget(&mut self, alloc: Global) {
        let keeper = Counted::new(MemKeeper::new(alloc, Vec::new(alloc)));
        drop(mem::replace(&mut self.keeper, keeper));
        self.lines = 0;
    }
}

/// Whether asks came to each fate. A stop stays, where one came to it.
fn are_met(net: &Network) -> bool {
    match net.fates_left() {
        0 => true,
        1 => net.is_stopped() && net.troubles() > 0,
        _ => false,
    }
}

/// The network and the keeper; what was prepared goes into them where that is still to do.
pub(crate) fn started<'a>(
    alloc: Global,
    prepared: &mut Prepared,
    scripts: &mut Scripts,
    place: &'a mut Option<Place>,
) -> Result<&'a mut Place, Fault> {
    if place.is_none() {
        let answers = scripts.take(alloc, Whose::Surrogate);
        let begun = place_of(alloc, prepared, answers)?;
        drop(mem::replace(place, Some(begun)));
        drop(mem::replace(prepared, Prepared::new(alloc)));
    }
    match place {
        Some(place) => Ok(place),
        None => Err(Fault::Line("there is no network")),
    }
}

/// The network of client 1 and what was prepared, and the keeper.
fn place_of(
    alloc: Global,
    prepared: &mut Prepared,
    answers: Vec<ScriptAnswer>,
) -> Result<Place, Fault> {
    let server = mem::replace(&mut prepared.server, Server::new(alloc));
    let fates = mem::replace(&mut prepared.fates, Vec::new(alloc));
    let net = network(alloc, server, answers, fates)?;
    match keeper_of(alloc, &prepared.images, &prepared.fails) {
        Ok(keeper) => Ok(Place {
            net: Pool::new(alloc, net),
            keeper,
            lines: prepared.lines,
        }),
        Err(fault) => {
            drop(net);
            Err(fault)
        }
    }
}

/// Prepares what is kept under these names, and a copy of the server.
pub(crate) fn prepare_again(
    alloc: Global,
    place: &Place,
    names: &[String],
    prepared: &mut Prepared,
) -> Result<(), Fault> {
    for name in names {
        if let Some(image) = place.keeper.inner.image(name.as_bytes()) {
            let image = Image::new(alloc, name, image)?;
            prepared.images.push(image)?;
        }
    }
    Ok(copy_server(place.net.link().server(), &mut prepared.server)?)
}

fn copy_server(server: &Server, copy: &mut Server) -> Result<(), AllocError> {
    let copied = server.copy()?;
    drop(mem::replace(copy, copied));
    Ok(())
}

/// What is kept under the name.
pub(crate) fn image<'a>(
    prepared: &'a Prepared,
    place: &'a Option<Place>,
    name: &str,
) -> Option<&'a [u8]> {
    match place {
        Some(place) => place.keeper.inner.image(name.as_bytes()),
        None => bytes_of(&prepared.images, name),
    }
}

/// The server.
pub(crate) fn server<'a>(prepared: &'a Prepared, place: &'a Option<Place>) -> &'a Server {
    match place {
        Some(place) => place.net.link().server(),
        None => &prepared.server,
    }
}
