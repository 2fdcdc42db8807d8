// What a server holds, and how it answers.
ghost use Rattle.std.specs.Prelude.{◌≡◌, ◌≢◌, ◌≤◌, ◌<◌, ◌+◌, ◌-◌, ◌++◌, ◌^◌, [], ◌∷◌, find, length, replicate};
ghost use Rattle.std.specs.Prelude.{false, is_some, option_to_list, Some, None, Ok, Err, IfOk, OnOk, OnErr};
ghost use Rattle.std.specs.Option.{option_copied};
ghost use Rattle.std.specs.List.{AllByRecursion};
ghost use Rattle.tree_values.specs.Effects.{first_conflict as conflict_in, apply_all as applied_all};
ghost use Rattle.tree_values.specs.Tree.{IsLegalEffect};
ghost use Rattle.vol_tree.specs.Undos.{CanUndoAll};
ghost use Rattle.wire_frames.specs.Limits.{max_client};
ghost use Rattle.wire_frames.specs.Frame.{IsValid, frame};
ghost use Rattle.world_rules.specs.Served.{IsServed, new_served, answer, state_after, taken_of, with_last};
ghost use Rattle.world_rules.specs.Served.{Repeated, Early, Outdated, Refused, verdict, served_after, served_through, taken_through};
ghost use Rattle.server_core.specs.Holding.{Holding, served};
ghost use Rattle.server_core.specs.Keeping.{holding_of, IsKeptWholeForServed, IsImageForServed, NoteLeads, record_of_all, records_taken};
ghost use Rattle.server_core.specs.Framing.{frame_answer, frame_after, is_any, takes};
ghost use Rattle.server_core.specs.Inside.{is_outdated, effects_numbered_above, effects_between, record_with};
ghost use Rattle.server_core.specs.Inside.{reply_to, reply_through, IsAnsweredBy, IsUnderway, IsLookedAs, IsTakenAs};
ghost use Rattle.server_core.specs.Inside.{served_with, CanTakeBack, store_undone};
ghost use Rattle.store_image.specs.declared.image.TheConstants.{MAX_SERVER_IMAGE};

use std::alloc::{AllocError, Global};
use std::marker::Model;
use store_image::{ServerImage, ServerRecord, write_server};
use vol_tree::{
    ApplyAllError, Base, Effect, Effects, Path, Tree, TreeError, TryCopy, Undo, apply_all, undo_all,
};
use wire_frames::{FrameError, Message, Part, Parts, malformed, not_for_this_node, read, write};

/// The volume, and for each of the clients 1 to 64 the number of its last accepted entry.
#[derive(Drop)]
pub struct Server {
    tree: Tree,
    last: [u64; 64],
}

impl Model for Server {
    ghost use Rattle.server_core.specs.Holding.{Holding};

    ghost Value = { Holding };

    ghost view = { λ server. record { rows = server.tree; last = server.last } };

    ghost use Rattle.world_rules.specs.Served.{IsServed};
    ghost use Rattle.server_core.specs.Holding.{served};

    ghost invariant = { λ server. IsServed (served (record { rows = server.tree; last = server.last })) };
}

impl Server {
    /// The server without rows, to which no client has written. It takes no memory.
    pub fn new(alloc: Global) -> Server
        ensures new { served result ≡ new_served }
    {
        Server {
            tree: Tree::new(alloc),
            last: none_accepted(),
        }
    }

    /// The server that an image keeps. It takes no memory.
    pub fn from_image(image: ServerImage) -> Server
        ensures held { result ≡ holding_of image }
        ensures legal { IsServed (served result) }
    {
        let ServerImage { last, tree } = image;
        let _rows = tree.count();
        Server { tree, last }
    }

    /// The bytes of the image that keeps the server.
    pub fn image(&self) -> Result<Vec<u8>, AllocError>
        ensures kept { IfOk result (λ bytes. IsKeptWholeForServed (served self.now) bytes.items) }
        ensures image { IfOk result (λ bytes. IsImageForServed (served self.now) bytes.items) }
        ensures small { IfOk result (λ bytes. length bytes.items ≤ MAX_SERVER_IMAGE) }
    {
        write_server(&self.last, &self.tree)
    }

    /// The volume.
    pub fn tree(&self) -> &Tree
        ensures tree { result.now ≡ (served self.now).volume }
        ensures legal { IsServed (served self.now) }
    {
        &self.tree
    }

    /// The number of the client's last accepted entry; 0 where there is none.
    pub fn last(&self, client: u8) -> u64
        requires low { 1 ≤ client }
        requires high { client ≤ max_client }
        ensures last { result ≡ (served self.now).last client }
        ensures legal { IsServed (served self.now) }
    {
        self.last[client as usize - 1]
    }

    /// Answers a message. The entries of a store are gone through in order. One whose number was accepted before changes
    /// nothing; one beyond the next is answered `Gap`. The next one is answered `Stale` at the first path of its base that
    /// has another version, else `Full` or `Unfit` at its first effect that does not apply, and is else taken: its effects
    /// are applied. Where all are taken, now or before, the store is accepted; a refusal leaves those taken that stand before
    /// the refused one. A pull is answered by all rows; any other message is `Malformed`. After `AllocError` all is as before.
    pub fn serve(&mut self, message: &Message) -> Result<Message, AllocError>
        requires valid { IsValid message.now }
        ensures ok { IfOk result (λ reply. reply ≡ answer message.now (served self.old)) }
        ensures state { OnOk result (served self.new ≡ state_after message.now (served self.old)) }
        ensures err { OnErr result (self.new ≡ self.old) }
        // Where nothing is taken, nothing changes.
        ensures kept { OnOk result (is_any (taken_of message.now (served self.old)) ≡ false → self.new ≡ self.old) }
        ensures legal { IsServed (served self.new) }
    {
        match message {
            Message::Store {
                client,
                number,
                entries,
            } => {
                let answered = self.store(*client, *number, entries)?;
                drop(answered.frame);
                Ok(answered.reply)
            }
            Message::Pull { client, number } => self.snapshot(*client, *number),
            Message::Operate { .. }
            | Message::Accepted { .. }
            | Message::Stale { .. }
            | Message::Unfit { .. }
            | Message::Gap { .. }
            | Message::Snapshot { .. }
            | Message::Done { .. }
            | Message::Declined { .. }
            | Message::Full { .. }
            | Message::Malformed { .. } => {
                let _ = &self.tree;
                Ok(not_for_this_node())
            }
        }
    }

    /// Answers a frame by a frame: reads it, serves the message and writes the reply. Bytes that
    /// are refused are answered by `Malformed` with the number of the refusal, 1 to 6, and the
    /// place that it tells, or 0. After `AllocError` all is as before.
    pub fn serve_frame(&mut self, bytes: &[u8]) -> Result<Vec<u8>, AllocError>
        ensures ok { IfOk result (λ reply. reply.items ≡ frame_answer bytes.now (served self.old)) }
        ensures state { OnOk result (served self.new ≡ frame_after bytes.now (served self.old)) }
        ensures err { OnErr result (self.new ≡ self.old) }
        ensures legal { IsServed (served self.new) }
    {
        let alloc = self.tree.allocator();
        match read(alloc, bytes) {
            Ok(message) => {
                let reply = self.serve_in_frame(&message);
                drop(message);
                reply
            }
            Err(FrameError::Memory) => Err(AllocError),
            Err(refusal) => in_frame(alloc, malformed(&refusal)),
        }
    }

    /// The same, and one record of all entries that were taken of the frame's store, which alone change what the server holds. The
    /// record has copies of their effects, which share the contents.
    pub fn serve_noted(
        &mut self,
        bytes: &[u8],
    ) -> Result<(Vec<u8>, Option<ServerRecord>), AllocError>
        ensures ok { IfOk result (λ noted. noted.0.items ≡ frame_answer bytes.now (served self.old)) }
        ensures taken { IfOk result (λ noted. is_some noted.1 ≡ takes bytes.now (served self.old)) }
        ensures entry { IfOk result (λ noted. option_to_list noted.1 ≡ records_taken (bytes.now ∷ []) (served self.old)) }
        ensures leads { IfOk result (λ noted. NoteLeads noted.1 (served self.old) (served self.new)) }
        ensures state { OnOk result (served self.new ≡ frame_after bytes.now (served self.old)) }
        ensures err { OnErr result (self.new ≡ self.old) }
        ensures legal { IsServed (served self.new) }
    {
        let alloc = self.tree.allocator();
        match read(alloc, bytes) {
            Ok(message) => {
                let noted = self.serve_recorded(&message);
                drop(message);
                noted
            }
            Err(FrameError::Memory) => Err(AllocError),
            Err(refusal) => Ok((in_frame(alloc, malformed(&refusal))?, None)),
        }
    }

    /// Serves a message, writes the reply, and gives the record of the entries of a store that were taken.
    fn serve_recorded(
        &mut self,
        message: &Message,
    ) -> Result<(Vec<u8>, Option<ServerRecord>), AllocError>
        requires valid { IsValid message.now }
        ensures ok { IfOk result (λ noted. noted.0.items ≡ frame (answer message.now (served self.old))) }
        ensures taken { IfOk result (λ noted. is_some noted.1 ≡ is_any (taken_of message.now (served self.old))) }
        ensures entry { IfOk result (λ noted. noted.1 ≡ record_of_all (taken_of message.now (served self.old))) }
        ensures leads { IfOk result (λ noted. NoteLeads noted.1 (served self.old) (served self.new)) }
        ensures state { OnOk result (served self.new ≡ state_after message.now (served self.old)) }
        ensures err { OnErr result (self.new ≡ self.old) }
        ensures legal { IsServed (served self.new) }
    {
        match message {
            Message::Store {
                client,
                number,
                entries,
            } => self.store_recorded(*client, *number, entries),
            Message::Pull { .. }
            | Message::Operate { .. }
            | Message::Accepted { .. }
            | Message::Stale { .. }
            | Message::Unfit { .. }
            | Message::Gap { .. }
            | Message::Snapshot { .. }
            | Message::Done { .. }
            | Message::Declined { .. }
            | Message::Full { .. }
            | Message::Malformed { .. } => Ok((self.serve_in_frame(message)?, None)),
        }
    }

    /// The same of a store. What its record needs is made before: once anything is taken nothing may fail.
    fn store_recorded(
        &mut self,
        client: u8,
        number: u64,
        entries: &Parts,
    ) -> Result<(Vec<u8>, Option<ServerRecord>), AllocError>
        requires valid { IsValid (Message.Store client number entries.now) }
        ensures ok { IfOk result (λ noted. noted.0.items ≡ frame (answer (Message.Store client number entries.now) (served self.old))) }
        ensures taken { IfOk result (λ noted. is_some noted.1 ≡ is_any (taken_through client number entries.now (served self.old))) }
        ensures entry { IfOk result (λ noted. noted.1 ≡ record_of_all (taken_through client number entries.now (served self.old))) }
        ensures leads { IfOk result (λ noted. NoteLeads noted.1 (served self.old) (served self.new)) }
        ensures state { OnOk result (served self.new ≡ served_through client number entries.now (served self.old)) }
        ensures err { OnErr result (self.new ≡ self.old) }
        ensures legal { IsServed (served self.new) }
    {
        let before = self.last(client);
        let copies = copies_above(self.tree.allocator(), number, entries.as_slice(), before)?;
        match self.store(client, number, entries) {
            Ok(answered) => {
                drop(answered.reply);
                let last = self.last(client);
                let note = record_of(client, number, entries.as_slice(), before, last, copies);
                Ok((answered.frame, note))
            }
            Err(error) => {
                drop(copies);
                Err(error)
            }
        }
    }

    /// Serves a message, and writes the reply. The reply to a store is written while what was taken can still be taken back.
    fn serve_in_frame(&mut self, message: &Message) -> Result<Vec<u8>, AllocError>
        requires valid { IsValid message.now }
        ensures ok { IfOk result (λ reply. reply.items ≡ frame (answer message.now (served self.old))) }
        ensures state { OnOk result (served self.new ≡ state_after message.now (served self.old)) }
        ensures err { OnErr result (self.new ≡ self.old) }
        ensures legal { IsServed (served self.new) }
    {
        let alloc = self.tree.allocator();
        match message {
            Message::Store {
                client,
                number,
                entries,
            } => {
                let answered = self.store(*client, *number, entries)?;
                drop(answered.reply);
                Ok(answered.frame)
            }
            Message::Pull { client, number } => {
                let reply = self.snapshot(*client, *number)?;
                in_frame(alloc, reply)
            }
            Message::Operate { .. }
            | Message::Accepted { .. }
            | Message::Stale { .. }
            | Message::Unfit { .. }
            | Message::Gap { .. }
            | Message::Snapshot { .. }
            | Message::Done { .. }
            | Message::Declined { .. }
            | Message::Full { .. }
            | Message::Malformed { .. } => in_frame(alloc, not_for_this_node()),
        }
    }

    fn snapshot(&self, client: u8, number: u64) -> Result<Message, AllocError>
        requires valid { IsValid (Message.Pull client number) }
        ensures ok { IfOk result (λ reply. reply ≡ answer (Message.Pull client number) (served self.now)) }
        ensures legal { IsServed (served self.now) }
    {
        let last = self.last(client);
        let rows = self.tree.rows()?;
        Ok(Message::Snapshot {
            client,
            number,
            last,
            rows,
        })
    }

    /// Answers a store: its reply, with the reply's frame.
    fn store(&mut self, client: u8, number: u64, entries: &Parts) -> Result<Answered, AllocError>
        requires valid { IsValid (Message.Store client number entries.now) }
        ensures ok { IfOk result (IsAnsweredBy (answer (Message.Store client number entries.now) (served self.old))) }
        ensures state { OnOk result (served self.new ≡ state_after (Message.Store client number entries.now) (served self.old)) }
        ensures err { OnErr result (self.new ≡ self.old) }
        ensures kept { OnOk result (is_any (taken_through client number entries.now (served self.old)) ≡ false → self.new ≡ self.old) }
        ensures legal { IsServed (served self.new) }
    {
        let upto = number + (entries.len() as u64 - 1);
        let store = Underway {
            client,
            number,
            upto,
        };
        self.go_through(store, 0, entries.as_slice())
    }

    /// Goes through the entries of a store that stand behind so many others, and answers. After `AllocError` all is as before:
    /// what is taken here is taken back.
    fn go_through(
        &mut self,
        store: Underway,
        done: u64,
        entries: &[Part],
    ) -> Result<Answered, AllocError>
        requires { IsUnderway store done entries.now (served self.old) }
        ensures ok { IfOk result (IsAnsweredBy (reply_through store done entries.now (served self.old))) }
        ensures state { OnOk result (served self.new ≡ served_through store.client (store.number + done) entries.now (served self.old)) }
        ensures err { OnErr result (self.new ≡ self.old) }
        ensures kept { OnOk result (is_any (taken_through store.client (store.number + done) entries.now (served self.old)) ≡ false
            → self.new ≡ self.old) }
        ensures legal { IsServed (served self.new) }
    {
        let alloc = self.tree.allocator();
        let Some((entry, later)) = entries.split_first() else {
            return framed(alloc, store.acceptance());
        };
        let before = self.last(store.client);
        match self.look(store.client, store.number + done, entry)? {
            Looked::Repeated => self.go_through(store, done + 1, later),
            Looked::Taken(undos) => match self.go_through(store, done + 1, later) {
                Ok(told) => {
                    drop(undos);
                    Ok(told)
                }
                Err(error) => {
                    self.take_back(store.client, before, undos);
                    Err(error)
                }
            },
            Looked::Early => framed(alloc, store.gap(before)),
            Looked::Outdated { path, theirs, ours } => {
                framed(alloc, store.stale(before, path, theirs, ours))
            }
            Looked::Refused(index, fault) => framed(alloc, store.refusal(before, index, fault)),
        }
    }

    /// What becomes of an entry of this number. Where it is taken its effects are applied, and can be undone.
    fn look(&mut self, client: u8, number: u64, entry: &Part) -> Result<Looked, AllocError>
        requires low { 1 ≤ client }
        requires high { client ≤ max_client }
        requires some { 1 ≤ number }
        requires legal { AllByRecursion IsLegalEffect entry.now.effects }
        ensures ok { IfOk result (IsLookedAs (verdict client number entry.now.effects entry.now.base (served self.old))) }
        ensures state { OnOk result (served self.new ≡ served_after client number
            (verdict client number entry.now.effects entry.now.base (served self.old)) (served self.old)) }
        ensures err { OnErr result (self.new ≡ self.old) }
        ensures undo { IfOk result (CanTakeBack client number self.old self.new) }
        ensures legal { IsServed (served self.new) }
    {
        let last = self.last(client);
        if number <= last {
            return Ok(Looked::Repeated);
        }
        if number - 1 > last {
            return Ok(Looked::Early);
        }
        if let Some(base) = first_conflict(&self.tree, entry.base.as_slice()) {
            let path = base.path.copy()?;
            let theirs = self.tree.version(&base.path);
            let ours = base.version;
            return Ok(Looked::Outdated { path, theirs, ours });
        }
        self.take(client, number, &entry.effects)
    }

    /// Applies the effects of the client's next entry, whose base is current.
    fn take(&mut self, client: u8, number: u64, effects: &Effects) -> Result<Looked, AllocError>
        requires low { 1 ≤ client }
        requires high { client ≤ max_client }
        requires legal { AllByRecursion IsLegalEffect effects.now }
        ensures ok { IfOk result (IsTakenAs (applied_all 0 effects.now (served self.old).volume)) }
        ensures state { OnOk result (served self.new ≡ served_with client number
            (applied_all 0 effects.now (served self.old).volume) (served self.old)) }
        ensures err { OnErr result (self.new ≡ self.old) }
        ensures undo { IfOk result (CanTakeBack client number self.old self.new) }
        ensures legal { IsServed (served self.new) }
    {
        match apply_all(&mut self.tree, effects) {
            Ok(undos) => {
                self.last[client as usize - 1] = number;
                Ok(Looked::Taken(undos))
            }
            Err(ApplyAllError::At(index, fault)) => Ok(Looked::Refused(index, fault)),
            Err(ApplyAllError::Memory) => Err(AllocError),
        }
    }

    /// Takes an entry of the client back that was taken, after which its last number is the given one again. It takes no memory.
    fn take_back(&mut self, client: u8, last: u64, undos: Vec<Undo>)
        requires low { 1 ≤ client }
        requires high { client ≤ max_client }
        requires undo { CanUndoAll undos.items self.old.rows }
        requires legal { IsServed (served (store_undone client last undos.items self.old)) }
        ensures held { self.new ≡ store_undone client last undos.items self.old }
        ensures legal { IsServed (served self.new) }
    {
        undo_all(&mut self.tree, undos);
        self.last[client as usize - 1] = last;
    }
}

impl TryCopy for Server {
    fn copy(&self) -> Result<Server, AllocError>
        ensures copied { IfOk result (λ copied. copied ≡ self.now) }
        ensures legal { IsServed (served self.now) }
    {
        Ok(Server {
            tree: self.tree.copy()?,
            last: self.last,
        })
    }
}

fn none_accepted() -> [u64; 64]
    ensures { result ≡ replicate 64 0 }
{
    [0; 64]
}

/// The first path whose version is not that of the tree.
fn first_conflict<'a>(tree: &Tree, base: &'a [Base]) -> Option<&'a Base>
    ensures { option_copied result ≡ find (is_outdated tree.now) base.now }
{
    base.iter()
        .find(|base| tree.version(&base.path) != base.version)
}

/// A store whose entries are gone through: whose it is, its number, and the number of its last entry.
#[derive(Clone, Copy, Debug)]
pub(crate) struct Underway {
    client: u8,
    number: u64,
    upto: u64,
}

/// What becomes of an entry of a store.
#[derive(Drop)]
enum Looked {
    /// It was taken before.
    Repeated,
    /// It is beyond the next.
    Early,
    /// The first path of its base that has another version than the server's.
    Outdated { path: Path, theirs: u64, ours: u64 },
    /// Its first effect that does not apply.
    Refused(u32, TreeError),
    /// Its effects are applied, and can be undone.
    Taken(Vec<Undo>),
}

/// A reply and its frame.
#[derive(Drop)]
pub(crate) struct Answered {
    reply: Message,
    frame: Vec<u8>,
}

impl Underway {
    fn acceptance(self) -> Message
        ensures { result ≡ reply_to self 0 Repeated }
    {
        Message::Accepted {
            client: self.client,
            number: self.number,
            upto: self.upto,
        }
    }

    fn gap(self, last: u64) -> Message
        ensures { result ≡ reply_to self last Early }
    {
        Message::Gap {
            client: self.client,
            number: self.number,
            last,
        }
    }

    fn stale(self, last: u64, path: Path, theirs: u64, ours: u64) -> Message
        ensures { result ≡ reply_to self last (Outdated (record { path = path; theirs = theirs; ours = ours })) }
    {
        Message::Stale {
            client: self.client,
            number: self.number,
            upto: last,
            path,
            theirs,
            ours,
        }
    }

    fn refusal(self, last: u64, index: u32, fault: TreeError) -> Message
        ensures { result ≡ reply_to self last (Refused (index, fault)) }
    {
        match fault {
            TreeError::RowsFull(_) | TreeError::TreeFull(_) => Message::Full {
                client: self.client,
                number: self.number,
                upto: last,
                index,
                fault,
            },
            _ => Message::Unfit {
                client: self.client,
                number: self.number,
                upto: last,
                index,
                fault,
            },
        }
    }
}

/// A reply, and its frame.
fn framed(alloc: Global, reply: Message) -> Result<Answered, AllocError>
    requires { IsValid reply }
    ensures { IfOk result (IsAnsweredBy reply) }
{
    match write(alloc, &reply) {
        Ok(frame) => Ok(Answered { reply, frame }),
        Err(error) => {
            drop(reply);
            Err(error)
        }
    }
}

/// Copies of the effects of the entries that are numbered above this number, one after the other.
fn copies_above(
    alloc: Global,
    number: u64,
    entries: &[Part],
    last: u64,
) -> Result<Vec<Effect>, AllocError>
    requires { number + length entries.now ≤ 18446744073709551616 }
    ensures { IfOk result (λ copies. copies.items ≡ effects_numbered_above number entries.now last) }
{
    let mut copies = Vec::new(alloc);
    let mut at = number;
    for entry in entries {
        if at > last {
            push_copies(&mut copies, entry.effects.as_slice())?;
        }
        at = at.saturating_add(1);
    }
    Ok(copies)
}

/// Adds copies of these effects.
fn push_copies(copies: &mut Vec<Effect>, effects: &[Effect]) -> Result<(), AllocError>
    ensures { OnOk result (copies.new.items ≡ copies.old.items ++ effects.now) }
{
    for effect in effects {
        let copy = effect.copy()?;
        copies.push(copy)?;
    }
    Ok(())
}

/// How many effects the entries have together that stand up to a number.
fn count_upto(number: u64, entries: &[Part], above: u64, upto: u64) -> usize
    requires numbered { number + length entries.now ≤ 18446744073709551616 }
    requires few { effects_between number entries.now above upto ≤ 4096 }
    ensures { result ≡ effects_between number entries.now above upto }
{
    let mut count = 0usize;
    let mut at = number;
    for entry in entries {
        if at > above && at <= upto {
            count = count.saturating_add(entry.effects.len());
        }
        at = at.saturating_add(1);
    }
    count
}

/// The record of the entries of a store that raised its client's last number so, of whose effects these are copies; none where it was
/// not raised.
fn record_of(
    client: u8,
    number: u64,
    entries: &[Part],
    before: u64,
    last: u64,
    mut copies: Vec<Effect>,
) -> Option<ServerRecord>
    requires { IsValid (Message.Store client number entries.now) }
    ensures { result ≡ record_with client number entries.now before last copies.items }
{
    if last <= before {
        drop(copies);
        return None;
    }
    copies.truncate(count_upto(number, entries, before, last));
    Some(ServerRecord {
        client,
        last,
        effects: Effects::from_vec(copies),
    })
}

fn in_frame(alloc: Global, message: Message) -> Result<Vec<u8>, AllocError>
    requires { IsValid message }
    ensures { IfOk result (λ bytes. bytes.items ≡ frame message) }
{
    let frame = write(alloc, &message);
    drop(message);
    frame
}
