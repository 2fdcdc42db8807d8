// Serving the connections of a port, and keeping the server.
ghost use Rattle.std.specs.Prelude.{◌≤◌, IfOk, OnErr};
ghost use Rattle.outside.specs.Outside.{CountsFault};
ghost use Rattle.outside.specs.Keeper.{kept_under};
ghost use Rattle.outside.specs.Port.{most_connections};
ghost use Rattle.server_core.specs.Holding.{served};
ghost use Rattle.server_prog.specs.Serving.{server_telling};
ghost use Rattle.server_prog.specs.Inside.{Journals, ServesNext, BreaksConnection, ServesAll, ServesFront};
ghost use Rattle.server_prog.specs.Run.{OthersKept};

use crate::journal::{ServerJournal, keep};
use outside::{KeepError, Keeper, Port};
use port_serving::{Came, Taking, Tally, answer_frame, take_frame, tallied};
use server_core::Server;

/// Serves the next connection: takes its frame, keeps what the frame changed, and answers the frame.
#[tactic(auto, using(crate::proofs::Others::others_none))]
fn serve_next<P: Port, K: Keeper>(
    server: &mut Server,
    journal: &mut ServerJournal,
    port: &mut P,
    name: &[u8],
    keeper: &mut K,
) -> Result<Came, KeepError>
    requires journals { Journals journal.old (served server.old) (kept_under name.now (K.images keeper.old)) }
    ensures ok { IfOk result (λ came. ServesNext came journal.old journal.new (served server.old) (served server.new)
        (server_telling (P.tells port.old) (kept_under name.now (K.images keeper.old)))
        (server_telling (P.tells port.new) (kept_under name.now (K.images keeper.new)))) }
    ensures err { OnErr result
        (BreaksConnection journal.old (served server.old) (server_telling (P.tells port.old) (kept_under name.now (K.images keeper.old)))
        (server_telling (P.tells port.new) (kept_under name.now (K.images keeper.new)))) }
    ensures others { OthersKept name.now (K.images keeper.old) (K.images keeper.new) }
    ensures cause { CountsFault KeepError.Failed (K.faults keeper.old) (K.faults keeper.new) result }
{
    let frame = match take_frame(port)? {
        Taking::Taken(frame) => frame,
        Taking::Missed => return Ok(Came::Missed),
        Taking::NoConnection => return Ok(Came::NoConnection),
    };
    let (reply, note) = server.serve_noted(&frame)?;
    *journal = keep(*journal, note, server, name, keeper)?;
    Ok(answer_frame(port, &reply)?)
}

/// Serves so many connections, or all that are left. A fault of the port ends one connection alone, a fault of the keeper
/// ends the serving.
#[tactic(auto, using(crate::proofs::Others::others_none, crate::proofs::Others::others_then))]
pub(crate) fn serve<P: Port, K: Keeper>(
    server: &mut Server,
    port: &mut P,
    name: &[u8],
    keeper: &mut K,
    count: u32,
) -> Result<Tally, KeepError>
    requires { count ≤ most_connections }
    ensures ok { IfOk result (λ tally. ServesAll count tally (served server.old) (served server.new)
        (server_telling (P.tells port.old) (kept_under name.now (K.images keeper.old)))
        (server_telling (P.tells port.new) (kept_under name.now (K.images keeper.new)))) }
    ensures err { OnErr result (ServesFront count (served server.old) (server_telling (P.tells port.old)
        (kept_under name.now (K.images keeper.old))) (server_telling (P.tells port.new) (kept_under name.now (K.images keeper.new)))) }
    ensures others { OthersKept name.now (K.images keeper.old) (K.images keeper.new) }
    ensures cause { CountsFault KeepError.Failed (K.faults keeper.old) (K.faults keeper.new) result }
{
    let mut tally = Tally::new();
    let mut journal = ServerJournal::Unsaved;
    for _take in 0..count {
        match serve_next(server, &mut journal, port, name, keeper)? {
            Came::NoConnection => break,
            came => tally = tallied(tally, came),
        }
    }
    Ok(tally)
}
