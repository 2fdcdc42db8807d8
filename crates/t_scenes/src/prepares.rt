// Lines that say what is outside.

use crate::keeping::{Image, add_fails, remember};
use crate::lines::{Before, Next, OTHER_WORDS, none, one};
use crate::outside_clients::OutsideClients;
use crate::place::Prepared;
use crate::scripts::{Left, Whose};
use mem_net::Fate;
use std::alloc::Global;
use t_scene_files::{Fault, Line, calls, number};
use vol_tree::Content;

/// What is wrong with a line that comes too late.
const LATE: Fault = Fault::Line("this stands before the first run, or behind `again`");

/// What is wrong with a fate of another name.
const NO_FATE: Fault = Fault::Line("there is no such fate");

impl OutsideClients {
    /// Follows a line that says what the network and the keeper are to meet.
    pub(crate) fn prepare(
        &mut self,
        before: Before,
        words: &[&str],
        block: &[u8],
    ) -> Result<(), Fault> {
        if self.place.is_some() {
            return Err(LATE);
        }
        match before {
            Before::Fate => meet(self.alloc, &mut self.prepared.fates, words, block),
            Before::Keep => keep(
                self.alloc,
                &mut self.prepared,
                &mut self.names,
                words,
                block,
            ),
            Before::Keeper => fail_keeping(&mut self.prepared, words),
            Before::Surrogate => self.scripts.answer(self.alloc, Whose::Surrogate, words),
        }
    }

    /// Follows a line that says what the next program is to meet.
    pub(crate) fn give(&mut self, next: Next, words: &[&str], line: Line<'_>) -> Result<(), Fault> {
        let alloc = self.alloc;
        match next {
            Next::Source => self.next.source.add(words),
            Next::Sink => self.next.sink.add(words),
            Next::Port => self.next.port.add(words),
            Next::Connection => add_bytes(alloc, &mut self.next.connections, words, line.block),
            Next::Liar => add_bytes(alloc, &mut self.next.lies, words, line.block),
            Next::Runner => self.scripts.answer(alloc, Whose::Client, words),
            Next::File => self.leave(line.rest, Left::File(line.block)),
            Next::Program => self.leave(line.rest, Left::Program(line.block)),
            Next::Folder => self.leave(line.rest, Left::Folder),
            Next::Folders => self.scripts.leave_folders(alloc, words),
        }
    }

    /// The run that was told last leaves this at the path.
    fn leave(&mut self, path: &str, left: Left<'_>) -> Result<(), Fault> {
        self.scripts.leave(self.alloc, path, left)
    }
}

/// The next program has one more connection that brings these bytes, or one more reply of a liar.
fn add_bytes(
    alloc: Global,
    pieces: &mut Vec<Vec<u8>>,
    words: &[&str],
    bytes: &[u8],
) -> Result<(), Fault> {
    none(words)?;
    let bytes = bytes.to_vec(alloc)?;
    Ok(pieces.push(bytes)?)
}

/// The next ask, or so many, meet the fate that the words tell.
fn meet(alloc: Global, fates: &mut Vec<Fate>, words: &[&str], block: &[u8]) -> Result<(), Fault> {
    match *words {
        [name] => add_fates(alloc, fates, 1, name, block),
        [first, second] => match first {
            "old" => Ok(fates.push(Fate::Old(number(second)?))?),
            "late" => Ok(fates.push(Fate::Late(number(second)?))?),
            _ => add_fates(alloc, fates, number(first)?, second, block),
        },
        _ => Err(NO_FATE),
    }
}

fn add_fates(
    alloc: Global,
    fates: &mut Vec<Fate>,
    count: u32,
    name: &str,
    block: &[u8],
) -> Result<(), Fault> {
    for _ in 0..count {
        let fate = fate_of(alloc, name, block)?;
        fates.push(fate)?;
    }
    Ok(())
}

fn fate_of(alloc: Global, name: &str, block: &[u8]) -> Result<Fate, Fault> {
    match name {
        "pass" => Ok(Fate::Pass),
        "lose-request" => Ok(Fate::LoseRequest),
        "lose-reply" => Ok(Fate::LoseReply),
        "twice" => Ok(Fate::Twice),
        "stop" => Ok(Fate::Stop),
        "inject" => Ok(Fate::Inject(Content::of(alloc, block)?)),
        _ => Err(NO_FATE),
    }
}

/// The block is kept under the name.
fn keep(
    alloc: Global,
    prepared: &mut Prepared,
    names: &mut Vec<String>,
    words: &[&str],
    block: &[u8],
) -> Result<(), Fault> {
    let name = one(words)?;
    remember(alloc, names, name)?;
    let image = Image::new(alloc, name, block)?;
    Ok(prepared.images.push(image)?)
}

/// Calls of the keeper fail.
fn fail_keeping(prepared: &mut Prepared, words: &[&str]) -> Result<(), Fault> {
    match *words {
        ["fails", which, left] => {
            prepared.lines = prepared.lines.saturating_add(1);
            add_fails(&mut prepared.fails, calls(which)?, left)
        }
        _ => Err(OTHER_WORDS),
    }
}
