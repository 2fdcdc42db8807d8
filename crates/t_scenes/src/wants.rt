// Lines that say what is wanted.

use crate::lines::{Passed, Stands, none, one, two};
use crate::outside_clients::OutsideClients;
use crate::place::{image, server};
use server_core::Server;
use std::alloc::{AllocError, Global};
use surrogate_pool::PoolRound;
use t_run_probe::{Network, account_of_network, rows_of_server, sent_packets};
use t_scene_files::{Fault, Report, number, small};

impl OutsideClients {
    /// Looks at what is kept, or at the server.
    pub(crate) fn look(
        &self,
        report: &mut Report,
        stands: Stands,
        words: &[&str],
        block: &[u8],
    ) -> Result<(), Fault> {
        report.look();
        let server = server(&self.prepared, &self.place);
        match stands {
            Stands::Kept => self.look_at_image(report, words, block),
            Stands::Unkept => self.look_for_none(report, words),
            Stands::Holds => look_at_rows(self.alloc, report, server, words, block),
            Stands::Last => look_at_last(report, server, words),
        }
    }

    /// The block is kept under the name.
    fn look_at_image(
        &self,
        report: &mut Report,
        words: &[&str],
        block: &[u8],
    ) -> Result<(), Fault> {
        let compared = match image(&self.prepared, &self.place, one(words)?) {
            Some(image) => report.compare(image, block),
            None => report.tell("nothing is kept"),
        };
        Ok(compared?)
    }

    /// Nothing is kept under the name.
    fn look_for_none(&self, report: &mut Report, words: &[&str]) -> Result<(), Fault> {
        match image(&self.prepared, &self.place, one(words)?) {
            Some(_) => Ok(report.tell("something is kept")?),
            None => Ok(()),
        }
    }

    /// Looks at the network and its packets.
    pub(crate) fn look_at_network(
        &self,
        report: &mut Report,
        passed: Passed,
        words: &[&str],
        block: &[u8],
    ) -> Result<(), Fault> {
        report.look();
        let Some(place) = &self.place else {
            return Err(Fault::Line("nothing was run or asked before this"));
        };
        let (alloc, net) = (self.alloc, place.net.link());
        match passed {
            Passed::Leaves => compare_all(report, words, account_of_network(alloc, net), block),
            Passed::Sent => compare_all(report, words, sent_packets(alloc, net), block),
            Passed::Frames => compare_all(report, words, frames(alloc, net), block),
            Passed::Packet => look_at_packet(report, net, words, block),
            Passed::Length => look_at_length(report, net, words),
            Passed::Troubles => look_at_troubles(report, net, words),
            Passed::Tries => look_at_tries(report, place.net.rounds(), words),
        }
    }
}

/// The rows of the server.
fn look_at_rows(
    alloc: Global,
    report: &mut Report,
    server: &Server,
    words: &[&str],
    block: &[u8],
) -> Result<(), Fault> {
    compare_all(report, words, rows_of_server(alloc, server), block)
}

/// The server's last number of a client.
fn look_at_last(report: &mut Report, server: &Server, words: &[&str]) -> Result<(), Fault> {
    let (client, last) = two(words)?;
    let (client, last) = (small(client)?, number(last)?);
    if client < 1 || client > 64 {
        return Err(Fault::Line("no client has this number"));
    }
    Ok(report.compare_numbers(server.last(client), u64::from(last))?)
}

/// The frames of all packets behind one another.
fn frames(alloc: Global, net: &Network) -> Result<Vec<u8>, AllocError> {
    let mut frames = Vec::new(alloc);
    for k in 0..u32::MAX {
        let Some(frame) = net.packet(k) else {
            break;
        };
        frames.extend_from_slice(frame)?;
    }
    Ok(frames)
}

/// The frame of the packet of a number.
fn frame_of<'a>(net: &'a Network, word: &str) -> Result<&'a [u8], Fault> {
    match net.packet(number(word)?) {
        Some(frame) => Ok(frame),
        None => Err(Fault::Line("no packet has this number")),
    }
}

fn look_at_packet(
    report: &mut Report,
    net: &Network,
    words: &[&str],
    block: &[u8],
) -> Result<(), Fault> {
    let frame = frame_of(net, one(words)?)?;
    Ok(report.compare(frame, block)?)
}

fn look_at_length(report: &mut Report, net: &Network, words: &[&str]) -> Result<(), Fault> {
    let (packet, bytes) = two(words)?;
    let bytes = number(bytes)?;
    let frame = frame_of(net, packet)?;
    Ok(report.compare_numbers(frame.len() as u64, u64::from(bytes))?)
}

fn look_at_troubles(report: &mut Report, net: &Network, words: &[&str]) -> Result<(), Fault> {
    let troubles = number(one(words)?)?;
    Ok(report.compare_numbers(net.troubles(), u64::from(troubles))?)
}

/// How many asks of the network were made for each ask.
fn look_at_tries(report: &mut Report, rounds: &[PoolRound], words: &[&str]) -> Result<(), Fault> {
    report.compare_numbers(rounds.len() as u64, words.len() as u64)?;
    for (round, word) in rounds.iter().zip(words) {
        report.compare_numbers(round.tries as u64, u64::from(number(word)?))?;
    }
    Ok(())
}

/// Looks whether what is found is the block, behind a line of one word.
fn compare_all(
    report: &mut Report,
    words: &[&str],
    found: Result<Vec<u8>, AllocError>,
    wanted: &[u8],
) -> Result<(), Fault> {
    let found = found?;
    let compared = report.compare(&found, wanted);
    drop(found);
    none(words)?;
    Ok(compared?)
}
