// The wires of one client and one server in memory, over which a surrogate asks, too.
ghost use Rattle.std.specs.Prelude.{◌≡◌, ◌↔◌, IsTrue};
ghost use Rattle.world_rules.specs.World.{IsForServer};
ghost use Rattle.world_rules.specs.Asking.{IsRequest};
ghost use Rattle.mem_wires.specs.Underway.{is_store};

use crate::fate::Fate;
use crate::packet::Packet;
use crate::taken::{ListedEntry, note_above};
use server_core::Server;
use std::alloc::{AllocError, Global};
use std::collections::VecDeque;
use std::marker::Model;
use vol_tree::{Content, TryCopy};
use wire_frames::{FrameError, Message, echoes, read};
use world_rules::{Answer, Ask, Link, LinkError, Peer};

/// One client, one server and the packets between them, which are kept for good. Contracts see the world about the
/// client: what was served at first and is served now, each entry that was taken, every message that was sent, and
/// each ask.
#[derive(Drop)]
pub struct Wires {
    alloc: Global,
    client: u8,
    opening: Server,
    server: Server,
    taken: Vec<ListedEntry>,
    packets: Vec<Packet>,
    asks: Vec<Ask>,
    fates: VecDeque<Fate>,
    troubles: u64,
}

impl Model for Wires {
    ghost use Rattle.mem_wires.specs.Wire.{Wire};

    ghost Value = { Wire };

    ghost view = { λ n. record {
      client = n.client;
      opening = n.opening;
      server = n.server;
      taken = n.taken.items;
      packets = n.packets.items;
      asks = n.asks.items;
      fates = n.fates.items;
      troubles = n.troubles;
    } };
}

impl Wires {
    ghost use Rattle.std.specs.Prelude.{◌≤◌, ◌∷◌, ◌++◌, [], true, false, length, take, Some, option_map, slice_get};
    ghost use Rattle.std.specs.Prelude.{Ok, IfOk, IfErr, IfSome, IfNone, OnOk, OnErr};
    ghost use Rattle.std.specs.Option.{option_copied};
    ghost use Rattle.tree_values.specs.Lists.{IsIn};
    ghost use Rattle.wire_frames.specs.Limits.{max_client};
    ghost use Rattle.wire_frames.specs.declared.message.Message.{Message};
    ghost use Rattle.wire_frames.specs.Frame.{IsValid, Spells, Echoes, client_of, frame};
    ghost use Rattle.wire_frames.specs.Reading.{frame_of};
    ghost use Rattle.server_core.specs.Holding.{served};
    ghost use Rattle.world_rules.specs.Served.{answer, state_after, IsServed};
    ghost use Rattle.world_rules.specs.World.{Is, MovedBy, sent, delivered};
    ghost use Rattle.world_rules.specs.Asking.{ask_of};
    ghost use Rattle.mem_wires.specs.Wire.{Wire, world_of, new_world};
    ghost use Rattle.mem_wires.specs.Fates.{decides, deciding, left_after, at_decision, befallen, delivered_late, injected};
    ghost use Rattle.mem_wires.specs.Fates.{answered, one_more, troubles_after, is_stopped, AreTakenFrom, AreLeft, IsEndOf, IsNoReply};
    ghost use Rattle.mem_wires.specs.Underway.{MovedFree, IsSent, KeepsFates, decision, MeetsUnlessMemory, IsUndecided, stored_above};
    ghost use Rattle.mem_wires.specs.declared.fate.Fate.TheVariants.{Pass, LoseRequest, Old};

    /// The wires of a client and this server, over which nothing was sent. The asks meet these fates in their order;
    /// with none left an ask passes. Fails where memory runs out.
    pub fn new(
        alloc: Global,
        client: u8,
        server: Server,
        fates: Vec<Fate>,
    ) -> Result<Wires, AllocError>
        requires low { 1 ≤ client }
        requires high { client ≤ max_client }
        ensures world { IfOk result (λ net. world_of net ≡ new_world client (served server)) }
        ensures server { IfOk result (λ net. net.server ≡ server) }
        ensures fates { IfOk result (λ net. net.fates ≡ fates.items) }
        ensures troubles { IfOk result (λ net. net.troubles ≡ 0) }
        ensures legal { IsServed (served server) }
    {
        Ok(Wires {
            alloc,
            client,
            opening: server.copy()?,
            server,
            taken: Vec::new(alloc),
            packets: Vec::new(alloc),
            asks: Vec::new(alloc),
            fates: VecDeque::from_vec(fates),
            troubles: 0,
        })
    }

    /// The server.
    pub fn server(&self) -> &Server
        ensures { result.now ≡ self.now.server }
    {
        &self.server
    }

    /// The frame of the packet of this number, counted from 0 in the order of sending; `None` where fewer were sent.
    pub fn packet(&self, k: u32) -> Option<&[u8]>
        ensures frame { option_copied result ≡ option_map frame (slice_get self.now.packets k) }
        ensures valid { IfSome (slice_get self.now.packets k) IsValid }
    {
        match self.packet_at(k) {
            Some(packet) => Some(packet.frame()),
            None => None,
        }
    }

    /// How many fates are left for the asks to come.
    pub fn fates_left(&self) -> usize
        ensures { result ≡ length self.now.fates }
    {
        self.fates.len()
    }

    /// How many asks were lost, stopped or answered by an old packet. The count stands still at the end of its type.
    pub fn troubles(&self) -> u64
        ensures { result ≡ self.now.troubles }
    {
        self.troubles
    }

    /// The allocator that it takes memory from.
    pub fn allocator(&self) -> Global {
        self.alloc
    }

    /// How many asks were noted.
    pub fn asks(&self) -> usize
        ensures { result ≡ length self.now.asks }
    {
        self.asks.len()
    }

    /// Forgets the asks behind so many.
    pub fn forget(&mut self, asks: usize)
        ensures { self.new ≡ record self.old { asks = take asks self.old.asks } }
    {
        self.asks.truncate(asks);
    }

    fn packet_at(&self, k: u32) -> Option<&Packet>
        ensures { option_copied result ≡ slice_get self.now.packets k }
    {
        self.packets.get(k as usize)
    }

    /// Whether a stop is the first of the fates, so that no ask is handled any more.
    pub fn is_stopped(&self) -> bool
        ensures { result ≡ is_stopped self.now.fates }
    {
        matches!(self.fates.front(), Some(Fate::Stop))
    }

    /// Takes the first of the fates, where a stop stays; `None` where none is left.
    pub fn take_fate(&mut self) -> Option<Fate>
        ensures some { IfSome result (λ fate. AreTakenFrom (fate ∷ []) self.old.fates self.new.fates) }
        ensures none { IfNone result ((self.old.fates ≡ []) × (self.new.fates ≡ [])) }
        ensures rest { self.new ≡ record self.old { fates = self.new.fates } }
    {
        if self.is_stopped() {
            return Some(Fate::Stop);
        }
        self.fates.pop_front()
    }

    fn trouble(&mut self)
        ensures counted { self.new ≡ record self.old { troubles = one_more self.old.troubles } }
        ensures later { self.old.troubles ≤ self.new.troubles }
    {
        self.troubles = self.troubles.saturating_add(1);
    }

    /// A packet joins the others.
    fn join(&mut self, packet: Packet) -> Result<(), AllocError>
        ensures ok { OnOk result (self.new ≡ record self.old { packets = self.old.packets ++ packet ∷ [] }) }
        ensures err { OnErr result (self.new ≡ self.old) }
    {
        self.packets.push(packet)?;
        Ok(())
    }

    /// A copy of a packet joins the others.
    fn join_copy(&mut self, packet: &Packet) -> Result<(), AllocError>
        ensures ok { OnOk result (self.new ≡ record self.old { packets = self.old.packets ++ packet.now ∷ [] }) }
        ensures err { OnErr result (self.new ≡ self.old) }
    {
        let copy = packet.copy()?;
        self.join(copy)
    }

    /// A message joins the packets.
    pub fn send(&mut self, message: &Message) -> Result<(), AllocError>
        requires { IsValid message.now }
        ensures ok { OnOk result (self.new ≡ record self.old { packets = self.old.packets ++ message.now ∷ [] }) }
        ensures err { OnErr result (self.new ≡ self.old) }
    {
        let packet = Packet::of(self.alloc, message.copy()?)?;
        self.join(packet)
    }

    /// An ask and what came back join the asks.
    fn note(
        &mut self,
        to: Peer,
        address: &[u8],
        request: Message,
        answer: Answer,
    ) -> Result<(), AllocError>
        ensures ok { OnOk result (self.new ≡ record self.old { asks = self.old.asks ++ ask_of to address.now request answer ∷ [] }) }
        ensures err { OnErr result (self.new ≡ self.old) }
    {
        let address = match Content::of(self.alloc, address) {
            Ok(address) => address,
            Err(refused) => {
                drop(request);
                drop(answer);
                return Err(refused);
            }
        };
        self.asks.push(Ask {
            to,
            address,
            request,
            answer,
        })?;
        Ok(())
    }

    /// The number of the last entry that the server took of a message's client.
    fn last_of(&self, message: &Message) -> u64
        requires valid { IsValid message.now }
        requires request { IsForServer message.now }
        ensures last { result ≡ (served self.now.server).last (client_of message.now) }
        ensures legal { IsServed (served self.now.server) }
    {
        match message {
            Message::Store { client, .. } | Message::Pull { client, .. } => {
                self.server.last(*client)
            }
            _ => unreachable!(),
        }
    }

    /// Copies of a store's entries that are numbered above this number join the taken ones.
    fn note_entries(&mut self, request: &Message, last: u64) -> Result<(), AllocError>
        requires { IsValid request.now }
        ensures ok { OnOk result (self.new.taken ≡ self.old.taken ++ stored_above request.now last) }
        ensures front { take (length self.old.taken) self.new.taken ≡ self.old.taken }
        ensures rest { self.new ≡ record self.old { taken = self.new.taken } }
    {
        match request {
            Message::Store {
                client,
                number,
                entries,
            } => note_above(&mut self.taken, *client, *number, entries.as_slice(), last),
            _ => Ok(()),
        }
    }

    /// The server serves a request, behind copies of its entries that are numbered above this number.
    fn serve_noted(&mut self, request: &Message, last: u64) -> Result<Message, AllocError>
        requires valid { IsValid request.now }
        ensures ok { IfOk result (λ reply. reply ≡ answer request.now (served self.old.server)) }
        ensures state { OnOk result (served self.new.server ≡ state_after request.now (served self.old.server)) }
        ensures noted { OnOk result (self.new.taken ≡ self.old.taken ++ stored_above request.now last) }
        ensures front { take (length self.old.taken) self.new.taken ≡ self.old.taken }
        ensures err { OnErr result (self.new.server ≡ self.old.server) }
        ensures rest { self.new ≡ record self.old { server = self.new.server; taken = self.new.taken } }
    {
        self.note_entries(request, last)?;
        self.server.serve(request)
    }

    /// The server handles a request. The entries that it takes join the taken ones: of those numbered above the client's last
    /// number they are the first, as many as it rises by.
    fn handle(&mut self, request: &Message) -> Result<Message, AllocError>
        requires valid { IsValid request.now }
        requires request { IsForServer request.now }
        ensures ok { IfOk result (λ reply. (reply ≡ answer request.now (served self.old.server)) × IsValid reply) }
        ensures world { OnOk result (world_of self.new ≡ delivered request.now false (world_of self.old)) }
        ensures kept { KeepsFates self.old self.new }
        ensures err { OnErr result (self.new ≡ self.old) }
    {
        let before = self.last_of(request);
        let count = self.taken.len();
        let reply = self.serve_noted(request, before);
        let taken = self.last_of(request) - before;
        self.taken.truncate(count + taken as usize);
        reply
    }

    /// A packet that is a request is handled, and the reply joins the packets.
    fn deliver(&mut self, request: &Message) -> Result<Packet, AllocError>
        requires valid { IsValid request.now }
        requires request { IsForServer request.now }
        requires sent { IsIn request.now self.old.packets }
        ensures ok { IfOk result (λ reply. reply ≡ answer request.now (served self.old.server)) }
        ensures world { OnOk result (world_of self.new ≡ delivered request.now true (world_of self.old)) }
        ensures moved { MovedFree (world_of self.old) (world_of self.new) }
        ensures kept { KeepsFates self.old self.new }
    {
        let reply = self.handle(request)?;
        let packet = Packet::of(self.alloc, reply)?;
        match self.join_copy(&packet) {
            Ok(()) => Ok(packet),
            Err(refused) => {
                drop(packet);
                Err(refused)
            }
        }
    }

    /// The packet of this number is delivered late, where it is a request.
    pub fn late(&mut self, k: u32) -> Result<(), AllocError>
        ensures world { OnOk result (world_of self.new ≡ delivered_late (slice_get self.old.packets k) (world_of self.old)) }
        ensures moved { MovedFree (world_of self.old) (world_of self.new) }
        ensures kept { KeepsFates self.old self.new }
    {
        let Some(packet) = self.packet_at(k) else {
            return Ok(());
        };
        if !is_request(packet.message()) {
            return Ok(());
        }
        let request = packet.message().copy()?;
        let delivered = self.deliver(&request);
        drop(request);
        let reply = delivered?;
        drop(reply);
        Ok(())
    }

    /// The bytes are sent and delivered, where they are the frame of another client's store.
    fn inject(&mut self, bytes: &[u8]) -> Result<(), AllocError>
        ensures world { OnOk result (world_of self.new ≡ injected (frame_of bytes.now) (world_of self.old)) }
        ensures moved { MovedFree (world_of self.old) (world_of self.new) }
        ensures kept { KeepsFates self.old self.new }
    {
        let store = match read(self.alloc, bytes) {
            Ok(message) => message,
            Err(FrameError::Memory) => return Err(AllocError),
            Err(_refusal) => return Ok(()),
        };
        let injected = self.inject_message(&store);
        drop(store);
        injected
    }

    /// A copy of the packet of this number, where it is an operation.
    pub fn operation_at(&self, k: u32) -> Result<Option<Message>, AllocError>
        ensures some { IfOk result (λ found. IfSome found (λ message.
            (slice_get self.now.packets k ≡ Some message) × IsValid message × IsRequest Peer.Surrogate message)) }
        ensures none { IfOk result (λ found. IfNone found ((message : Message)
            → slice_get self.now.packets k ≡ Some message → IsRequest Peer.Surrogate message → ⊥)) }
    {
        match self.packet_at(k) {
            Some(packet) if is_operation(packet.message()) => { Ok(Some(packet.message().copy()?)) }
            _ => Ok(None),
        }
    }

    /// A reply joins the packets, and is given with its frame.
    pub fn reply(&mut self, message: Message) -> Result<Packet, AllocError>
        requires { IsValid message }
        ensures ok { IfOk result (λ reply. reply ≡ message) }
        ensures joined { OnOk result (self.new ≡ record self.old { packets = self.old.packets ++ message ∷ [] }) }
        ensures err { OnErr result (self.new ≡ self.old) }
    {
        let packet = Packet::of(self.alloc, message)?;
        match self.join_copy(&packet) {
            Ok(()) => Ok(packet),
            Err(refused) => {
                drop(packet);
                Err(refused)
            }
        }
    }

    /// The message is sent and delivered, where it is another client's store.
    fn inject_message(&mut self, message: &Message) -> Result<(), AllocError>
        requires { IsValid message.now }
        ensures world { OnOk result (world_of self.new ≡ injected (Ok message.now) (world_of self.old)) }
        ensures moved { MovedFree (world_of self.old) (world_of self.new) }
        ensures kept { KeepsFates self.old self.new }
    {
        if !is_store(message) || message.client() == self.client {
            return Ok(());
        }
        self.send(message)?;
        let reply = self.deliver(message)?;
        drop(reply);
        Ok(())
    }

    /// What happens by a fate that decides nothing; one that decides is given back.
    pub fn befall(&mut self, fate: Fate) -> Result<Option<Fate>, AllocError>
        ensures ok { IfOk result (λ decided. decided ≡ decision fate) }
        ensures err { OnErr result (decides fate ≡ false) }
        ensures world { OnOk result (world_of self.new ≡ befallen fate (world_of self.old)) }
        ensures moved { MovedFree (world_of self.old) (world_of self.new) }
        ensures kept { KeepsFates self.old self.new }
    {
        match fate {
            Fate::Late(k) => self.late(k)?,
            Fate::Inject(bytes) => self.inject(bytes.bytes())?,
            decided => return Ok(Some(decided)),
        }
        Ok(None)
    }

    /// Takes the fates up to the first that decides, which is the result. Those before it happen, and a stop stays.
    fn decide(&mut self) -> Result<Fate, AllocError>
        ensures fate { IfOk result (λ fate. fate ≡ deciding self.old.fates) }
        ensures decides { IfOk result (λ fate. decides fate ≡ true) }
        ensures left { OnOk result (self.new.fates ≡ left_after self.old.fates) }
        ensures reached { OnOk result (world_of self.new ≡ at_decision self.old.fates (world_of self.old)) }
        ensures moved { MovedFree (world_of self.old) (world_of self.new) }
        ensures rest { AreLeft self.new.fates self.old.fates }
        ensures behind { IsEndOf (left_after self.old.fates) self.new.fates }
        ensures troubles { self.new.troubles ≡ self.old.troubles }
    {
        while let Some(fate) = self.take_fate() {
            if let Some(decided) = self.befall(fate)? {
                return Ok(decided);
            }
        }
        Ok(Fate::Pass)
    }

    /// An ask is answered by a packet.
    pub fn answer(
        &mut self,
        to: Peer,
        address: &[u8],
        request: Message,
        reply: Packet,
    ) -> Result<Vec<u8>, LinkError>
        ensures ok { OnOk result (world_of self.new ≡ answered to address.now request (Answer.Reply reply) (world_of self.old)) }
        ensures frame { IfOk result (λ bytes. Spells reply bytes.items) }
        ensures err { OnErr result (self.new ≡ self.old) }
        ensures memory { IfErr result (λ error. error ≡ LinkError.Memory) }
        ensures kept { KeepsFates self.old self.new }
    {
        let (message, frame) = reply.open();
        self.note(to, address, request, Answer::Reply(message))?;
        Ok(frame)
    }

    /// A request that was sent is handled, and its reply is the answer.
    fn pass(&mut self, to: Peer, address: &[u8], request: Message) -> Result<Vec<u8>, LinkError>
        requires valid { IsValid request }
        requires request { IsForServer request }
        requires sent { IsIn request self.old.packets }
        ensures met { MeetsUnlessMemory Pass to address.now request (world_of self.old) (world_of self.new) result }
        ensures kept { KeepsFates self.old self.new }
    {
        match self.deliver(&request) {
            Ok(reply) => self.answer(to, address, request, reply),
            Err(_refused) => {
                drop(request);
                Err(LinkError::Memory)
            }
        }
    }

    /// A request that was sent has no answer.
    pub fn lose(&mut self, to: Peer, address: &[u8], request: Message) -> Result<Vec<u8>, LinkError>
        requires { IsIn request self.old.packets }
        ensures met { MeetsUnlessMemory LoseRequest to address.now request (world_of self.old) (world_of self.new) result }
        ensures fates { self.new.fates ≡ self.old.fates }
        ensures troubles { self.new.troubles ≡ troubles_after LoseRequest result self.old.troubles }
        ensures later { self.old.troubles ≤ self.new.troubles }
    {
        self.note(to, address, request, Answer::Failed)?;
        self.trouble();
        Err(LinkError::Failed)
    }

    /// A copy of the packet of this number, where it is a reply to the request.
    fn old_reply(&self, k: u32, request: &Message) -> Result<Option<Packet>, AllocError>
        ensures some { IfOk result (λ found. IfSome found (λ reply.
            (slice_get self.now.packets k ≡ Some reply) × Echoes request.now reply)) }
        ensures none { IfOk result (λ found. IfNone found (IsNoReply (slice_get self.now.packets k) request.now)) }
    {
        match self.packet_at(k) {
            Some(packet) if echoes(request, packet.message()) => Ok(Some(packet.copy()?)),
            _ => Ok(None),
        }
    }

    /// A request that was sent is not handled, and an old packet is the answer, where it is a reply to the request.
    pub fn answer_by_old(
        &mut self,
        k: u32,
        to: Peer,
        address: &[u8],
        request: Message,
    ) -> Result<Vec<u8>, LinkError>
        requires { IsIn request self.old.packets }
        ensures met { MeetsUnlessMemory (Old k) to address.now request (world_of self.old) (world_of self.new) result }
        ensures fates { self.new.fates ≡ self.old.fates }
        ensures troubles { self.new.troubles ≡ troubles_after (Old k) result self.old.troubles }
        ensures later { self.old.troubles ≤ self.new.troubles }
    {
        match self.old_reply(k, &request) {
            Ok(Some(reply)) => {
                let frame = self.answer(to, address, request, reply)?;
                self.trouble();
                Ok(frame)
            }
            Ok(None) => self.lose(to, address, request),
            Err(_refused) => {
                drop(request);
                Err(LinkError::Memory)
            }
        }
    }

    /// A request that was sent meets the fate that decides its ask.
    pub fn meet(
        &mut self,
        fate: Fate,
        to: Peer,
        address: &[u8],
        request: Message,
    ) -> Result<Vec<u8>, LinkError>
        requires decides { decides fate ≡ true }
        requires valid { IsValid request }
        requires request { IsForServer request }
        requires sent { IsIn request self.old.packets }
        ensures met { MeetsUnlessMemory fate to address.now request (world_of self.old) (world_of self.new) result }
        ensures fates { self.new.fates ≡ self.old.fates }
        ensures troubles { self.new.troubles ≡ troubles_after fate result self.old.troubles }
        ensures later { self.old.troubles ≤ self.new.troubles }
    {
        match fate {
            Fate::Pass => self.pass(to, address, request),
            Fate::LoseRequest => self.lose(to, address, request),
            Fate::Stop => self.lose(to, address, request),
            Fate::LoseReply => match self.deliver(&request) {
                Ok(lost) => {
                    drop(lost);
                    self.lose(to, address, request)
                }
                Err(_refused) => {
                    drop(request);
                    Err(LinkError::Memory)
                }
            },
            Fate::Twice => match self.deliver(&request) {
                Ok(first) => {
                    drop(first);
                    self.pass(to, address, request)
                }
                Err(_refused) => {
                    drop(request);
                    Err(LinkError::Memory)
                }
            },
            Fate::Old(k) => self.answer_by_old(k, to, address, request),
            Fate::Late(_) | Fate::Inject(_) => unreachable!(),
        }
    }

    /// A request is sent, and what comes before its ask is decided happens.
    fn reach(&mut self, request: &Message) -> Result<Fate, AllocError>
        requires { IsValid request.now }
        ensures fate { IfOk result (λ fate. fate ≡ deciding self.old.fates) }
        ensures decides { IfOk result (λ fate. decides fate ≡ true) }
        ensures left { OnOk result (self.new.fates ≡ left_after self.old.fates) }
        ensures reached { OnOk result (world_of self.new ≡ at_decision self.old.fates (sent request.now (world_of self.old))) }
        ensures moved { MovedBy (Is request.now) [] (world_of self.old) (world_of self.new) }
        ensures asking { OnOk result (IsSent request.now (world_of self.old) (world_of self.new)) }
        ensures sent { OnOk result (IsIn request.now self.new.packets) }
        ensures rest { AreLeft self.new.fates self.old.fates }
        ensures behind { IsEndOf (left_after self.old.fates) self.new.fates }
        ensures troubles { self.new.troubles ≡ self.old.troubles }
    {
        self.send(request)?;
        self.decide()
    }
}

fn is_request(message: &Message) -> bool
    ensures { IsTrue result ↔ IsForServer message.now }
{
    matches!(message, Message::Store { .. } | Message::Pull { .. })
}

fn is_operation(message: &Message) -> bool
    ensures { IsTrue result ↔ IsRequest Peer.Surrogate message.now }
{
    matches!(message, Message::Operate { .. })
}

fn is_store(message: &Message) -> bool
    ensures { result ≡ is_store message.now }
{
    matches!(message, Message::Store { .. })
}

impl Link for Wires {
    ghost use Rattle.std.specs.Prelude.{Some, IfOk};
    ghost use Rattle.outside.specs.Outside.{Told, Rose, HasCause};
    ghost use Rattle.wire_frames.specs.declared.message.Message.{Message};
    ghost use Rattle.wire_frames.specs.Frame.{Spells};
    ghost use Rattle.world_rules.specs.World.{sent};
    ghost use Rattle.world_rules.specs.Asking.{IsReplyTo, AsksOnce, IsDirect};
    ghost use Rattle.mem_wires.specs.Wire.{world_of};
    ghost use Rattle.mem_wires.specs.Fates.{fate_of, at_decision, MeetsFate, LeavesFates, troubles_after};
    ghost use Rattle.mem_wires.specs.Spending.{Spends, spends_none, spends_then};

    ghost tells = { λ n. record { world = Some (world_of n); troubles = n.troubles } };

    ghost keeps = { Spends };

    ghost keeps_none = { spends_none };

    ghost keeps_then = { spends_then };

    /// Sends the request and takes fates up to the first that decides, where a stop stays: that one says what becomes of the ask. An
    /// ask of the surrogate is lost.
    fn ask(&mut self, to: Peer, address: &[u8], frame: &[u8]) -> Result<Vec<u8>, LinkError>
        requires { (request : Message) × Spells request frame.now × IsRequest to request }
        ensures reply { (request : Message) → Spells request frame.now
            → IfOk result (λ bytes. IsReplyTo request bytes.items) }
        ensures world { (request : Message) → Spells request frame.now
            → Told (Some (world_of self.old)) (Some (world_of self.new))
            (λ old new. AsksOnce to address.now request old new result) }
        ensures direct { (request : Message) → Spells request frame.now → to ≡ Peer.Server
            → (Rose self.old.troubles self.new.troubles → ⊥)
            → Told (Some (world_of self.old)) (Some (world_of self.new))
            (λ old new. IsDirect to address.now request old new result) }
        ensures cause { HasCause LinkError.Failed self.old.troubles self.new.troubles result }
        ensures kept { Spends self.old self.new }

        // What the request, the world and the fates make of it.
        ensures fate { (request : Message) → Spells request frame.now
            → MeetsFate (fate_of to self.old.fates) to address.now request
            (at_decision self.old.fates (sent request (world_of self.old))) (world_of self.new) result }
        ensures fates { LeavesFates result self.old.fates self.new.fates }
        ensures troubles { self.new.troubles ≡ troubles_after (fate_of to self.old.fates) result self.old.troubles }
    {
        let Ok(request) = read(self.alloc, frame) else {
            return Err(LinkError::Memory);
        };
        let Ok(decided) = self.reach(&request) else {
            drop(request);
            return Err(LinkError::Memory);
        };
        match to {
            Peer::Server => self.meet(decided, to, address, request),
            Peer::Surrogate => {
                drop(decided);
                self.lose(to, address, request)
            }
        }
    }
}
