// What a run keeps of the server: a save first, and then a record for each frame of which an entry is taken.
ghost use Rattle.std.specs.Prelude.{◌≡◌, true, Some, is_some, IfOk, IfSome, OnErr};
ghost use Rattle.outside.specs.Outside.{CountsFault};
ghost use Rattle.outside.specs.Keeper.{kept_under};
ghost use Rattle.tree_values.specs.Spelling.{EffectsFit};
ghost use Rattle.store_image.specs.Records.{server_record};
ghost use Rattle.world_rules.specs.Served.{Served};
ghost use Rattle.server_core.specs.Holding.{served};
ghost use Rattle.server_core.specs.Keeping.{Leads, NoteLeads};
ghost use Rattle.server_prog.specs.Inside.{Journals, KeepsOn, ServerMayKeep, room_for};
ghost use Rattle.server_prog.specs.Run.{OthersKept};

use outside::{KeepError, Keeper};
use server_core::Server;
use std::alloc::AllocError;
use store_image::{MAX_RECORDS, ServerRecord, write_server_record};

/// What this run has kept of the server.
#[derive(Clone, Copy)]
pub(crate) enum ServerJournal {
    /// Nothing yet. What an earlier run has left may end in a torn record.
    Unsaved,
    /// The whole image, and behind it whole records of so many bytes.
    Saved(usize),
}

impl ServerJournal {
    /// The bytes of the records with one more of this size, where it may stand behind them.
    fn room_for(self, size: usize) -> Option<usize>
        ensures { result ≡ room_for self size }
    {
        match self {
            ServerJournal::Unsaved => None,
            ServerJournal::Saved(records) => {
                let total = records.saturating_add(size);
                (total <= MAX_RECORDS).then_some(total)
            }
        }
    }
}

/// The bytes of a record.
fn spelled(note: ServerRecord) -> Result<Vec<u8>, AllocError>
    requires { EffectsFit note.effects }
    ensures { IfOk result (λ piece. piece.items ≡ server_record note) }
{
    let alloc = note.effects.allocator();
    let piece = write_server_record(alloc, &note);
    drop(note);
    piece
}

/// Keeps what a frame has changed. Behind a saved image it appends the frame's record, as long as the records are few; else it
/// saves the whole image.
#[tactic(auto, using(crate::proofs::Others::others_none, crate::proofs::Others::others_saved, crate::proofs::Others::others_appended))]
fn keep_record<K: Keeper>(
    journal: ServerJournal,
    note: ServerRecord,
    server: &Server,
    name: &[u8],
    keeper: &mut K,
) -> Result<ServerJournal, KeepError>
    requires fits { EffectsFit note.effects }
    ensures ok { (before : Served) → Leads note before (served server.now)
        → Journals journal before (kept_under name.now (K.images keeper.old))
        → IfOk result (λ next. KeepsOn (Some note) journal next (served server.now) (kept_under name.now (K.images keeper.old))
        (kept_under name.now (K.images keeper.new))) }
    ensures err { (before : Served) → Leads note before (served server.now)
        → Journals journal before (kept_under name.now (K.images keeper.old))
        → OnErr result (ServerMayKeep true journal before (served server.now) (kept_under name.now (K.images keeper.old))
        (kept_under name.now (K.images keeper.new))) }
    ensures others { OthersKept name.now (K.images keeper.old) (K.images keeper.new) }
    ensures cause { CountsFault KeepError.Failed (K.faults keeper.old) (K.faults keeper.new) result }
{
    let piece = spelled(note)?;
    match journal.room_for(piece.len()) {
        Some(records) => {
            keeper.append(name, &piece)?;
            Ok(ServerJournal::Saved(records))
        }
        None => {
            drop(piece);
            let image = server.image()?;
            keeper.save(name, &image)?;
            Ok(ServerJournal::Saved(0))
        }
    }
}

/// Keeps what a frame has changed, where there is a record of it, and gives the journal that is then.
#[tactic(auto, using(crate::proofs::Others::others_none))]
pub(crate) fn keep<K: Keeper>(
    journal: ServerJournal,
    note: Option<ServerRecord>,
    server: &Server,
    name: &[u8],
    keeper: &mut K,
) -> Result<ServerJournal, KeepError>
    requires fits { IfSome note (λ note. EffectsFit note.effects) }
    ensures ok { (before : Served) → NoteLeads note before (served server.now)
        → Journals journal before (kept_under name.now (K.images keeper.old))
        → IfOk result (λ next. KeepsOn note journal next (served server.now) (kept_under name.now (K.images keeper.old))
        (kept_under name.now (K.images keeper.new))) }
    ensures err { (before : Served) → NoteLeads note before (served server.now)
        → Journals journal before (kept_under name.now (K.images keeper.old))
        → OnErr result (ServerMayKeep (is_some note) journal before (served server.now) (kept_under name.now (K.images keeper.old))
        (kept_under name.now (K.images keeper.new))) }
    ensures others { OthersKept name.now (K.images keeper.old) (K.images keeper.new) }
    ensures cause { CountsFault KeepError.Failed (K.faults keeper.old) (K.faults keeper.new) result }
{
    match note {
        Some(note) => keep_record(journal, note, server, name, keeper),
        None => Ok(journal),
    }
}
