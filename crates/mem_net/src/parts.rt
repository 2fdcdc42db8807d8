// A network with the surrogate beside it: what its client asks of either.
ghost use Rattle.std.specs.Prelude.{◌≡◌, ◌⊎◌, [], false, true, IfOk, IfErr, OnOk, OnErr};
ghost use Rattle.outside.specs.Outside.{Rose, HasCause};
ghost use Rattle.tree_values.specs.Lists.{IsIn};
ghost use Rattle.wire_frames.specs.declared.message.Message.{Message};
ghost use Rattle.wire_frames.specs.Frame.{IsValid, Spells, Echoes};
ghost use Rattle.world_rules.specs.World.{Is, MovedBy, IsFree, sent};
ghost use Rattle.world_rules.specs.Asking.{IsRequest, IsReplyTo, AsksOnce, IsDirect};
ghost use Rattle.surrogate_core.specs.Handling.{Idle};
ghost use Rattle.mem_wires.specs.Wire.{world_of};
ghost use Rattle.mem_wires.specs.Fates.{decides, comes_late, deciding, troubles_after, LeavesFates};
ghost use Rattle.mem_wires.specs.Spending.{TakesFront, Spends};
ghost use Rattle.mem_net.specs.Scenes.{scene_of, with_world, HasServed, IsHandled, Befalls, IsReached, UnlessMemory};
ghost use Rattle.mem_net.specs.Scenes.{MeetsOperation, IsMet, TakesFates};
ghost use Rattle.mem_net.specs.Scenes.{OnMemory, IsUnhandled, IsHandledInPart, BefallsInPart, IsCutBefore, handlings, IsCutShort};
ghost use Rattle.mem_wires.specs.Underway.{IsSent, AsksSent, decision};
ghost use Rattle.mem_net.specs.Inside.{GoesFree, FrontWaits, TakesBeside};
ghost use Rattle.mem_wires.specs.declared.fate.Fate.TheVariants.{Pass, Late};

use cmd_capture::Runner;
use mem_wires::{Fate, Packet, Wires};
use std::alloc::AllocError;
use surrogate_core::Surrogate;
use vol_tree::TryCopy;
use wire_frames::{Message, read};
use world_rules::{LinkError, Peer};

/// The wires of client and server, the surrogate, and what runs its jobs. Its fields can be lent one beside the other.
#[derive(Drop)]
pub(crate) struct NetworkParts<R> {
    pub(crate) wires: Wires,
    pub(crate) surrogate: Surrogate,
    pub(crate) runner: R,
}

impl<R: Runner> NetworkParts<R> {
    /// The surrogate serves an operation that was sent, over these wires. Its own asks are not its client's.
    fn serve(&mut self, operation: Message) -> Result<Message, AllocError>
        requires idle { self.old.surrogate.phase ≡ Idle }
        requires valid { IsValid operation }
        requires request { IsRequest Peer.Surrogate operation }
        requires sent { IsIn operation self.old.wires.packets }
        ensures idle { self.new.surrogate.phase ≡ Idle }
        ensures served { HasServed operation result (scene_of R.runs R.faults self.old) (scene_of R.runs R.faults self.new) }
        ensures echoes { IfOk result (Echoes operation) }
        ensures free { IfOk result (IsFree (world_of self.new.wires)) }
        ensures goes { GoesFree self.old.wires self.new.wires }
    {
        let asks = self.wires.asks();
        let served = self.surrogate.serve(
            operation,
            b"work",
            &mut self.runner,
            &mut self.wires,
            b"srv",
        );
        self.wires.forget(asks);
        served
    }

    /// An operation that was sent is handled by the surrogate: its reply joins the packets.
    fn operate(&mut self, request: &Message) -> Result<Packet, AllocError>
        requires idle { self.old.surrogate.phase ≡ Idle }
        requires valid { IsValid request.now }
        requires request { IsRequest Peer.Surrogate request.now }
        requires sent { IsIn request.now self.old.wires.packets }
        ensures idle { self.new.surrogate.phase ≡ Idle }
        ensures handled { IfOk result (λ reply. IsHandled request.now reply (scene_of R.runs R.faults self.old)
            (scene_of R.runs R.faults self.new)) }
        ensures cut { OnErr result (IsUnhandled request.now (scene_of R.runs R.faults self.old) (scene_of R.runs R.faults self.new)) }
        ensures echoes { IfOk result (Echoes request.now) }
        ensures goes { GoesFree self.old.wires self.new.wires }
    {
        let operation = request.copy()?;
        match self.serve(operation) {
            Ok(reply) => self.wires.reply(reply),
            Err(refused) => Err(refused),
        }
    }

    /// The packet of this number is delivered late, where it is a request: an operation to the surrogate.
    fn late(&mut self, k: u32) -> Result<(), AllocError>
        requires idle { self.old.surrogate.phase ≡ Idle }
        ensures idle { self.new.surrogate.phase ≡ Idle }
        ensures befalls { OnOk result (Befalls (Late k) (scene_of R.runs R.faults self.old) (scene_of R.runs R.faults self.new)) }
        ensures cut { OnErr result (BefallsInPart (Late k) (scene_of R.runs R.faults self.old) (scene_of R.runs R.faults self.new)) }
        ensures goes { GoesFree self.old.wires self.new.wires }
    {
        match self.wires.operation_at(k)? {
            Some(operation) => {
                let handled = self.operate(&operation);
                drop(operation);
                let reply = handled?;
                drop(reply);
                Ok(())
            }
            None => self.wires.late(k),
        }
    }

    /// What happens by a fate that decides nothing; one that decides is given back.
    fn befall(&mut self, fate: Fate) -> Result<Option<Fate>, AllocError>
        requires idle { self.old.surrogate.phase ≡ Idle }
        ensures idle { self.new.surrogate.phase ≡ Idle }
        ensures ok { IfOk result (λ decided. decided ≡ decision fate) }
        ensures err { OnErr result (decides fate ≡ false) }
        ensures befalls { OnOk result (Befalls fate (scene_of R.runs R.faults self.old) (scene_of R.runs R.faults self.new)) }
        ensures cut { OnErr result (BefallsInPart fate (scene_of R.runs R.faults self.old) (scene_of R.runs R.faults self.new)) }
        ensures goes { GoesFree self.old.wires self.new.wires }
    {
        match fate {
            Fate::Late(k) => {
                self.late(k)?;
                Ok(None)
            }
            other => self.wires.befall(other),
        }
    }

    /// Takes the fates up to the first that decides, which is the result. Those before it happen, and a stop stays.
    fn decide(&mut self) -> Result<Fate, AllocError>
        requires idle { self.old.surrogate.phase ≡ Idle }
        ensures idle { self.new.surrogate.phase ≡ Idle }
        ensures decides { IfOk result (λ fate. decides fate ≡ true) }
        ensures reaches { IfOk result (λ fate. IsReached (scene_of R.runs R.faults self.old) fate (scene_of R.runs R.faults self.new)) }
        ensures goes { GoesFree self.old.wires self.new.wires }
        ensures front { OnErr result (FrontWaits self.old.wires.fates) }
        ensures cut { OnErr result (IsCutBefore (scene_of R.runs R.faults self.old) (scene_of R.runs R.faults self.new)) }
    {
        while let Some(fate) = self.wires.take_fate() {
            if let Some(decided) = self.befall(fate)? {
                return Ok(decided);
            }
        }
        Ok(Fate::Pass)
    }

    /// A request is sent, and what comes before its ask is decided happens.
    fn reach(&mut self, request: &Message) -> Result<Fate, AllocError>
        requires idle { self.old.surrogate.phase ≡ Idle }
        requires valid { IsValid request.now }
        ensures idle { self.new.surrogate.phase ≡ Idle }
        ensures decides { IfOk result (λ fate. decides fate ≡ true) }
        ensures reaches { IfOk result (λ fate. IsReached (with_world (sent request.now (world_of self.old.wires))
            (scene_of R.runs R.faults self.old)) fate (scene_of R.runs R.faults self.new)) }
        ensures moved { MovedBy (Is request.now) [] (world_of self.old.wires) (world_of self.new.wires) }
        ensures asking { OnOk result (IsSent request.now (world_of self.old.wires) (world_of self.new.wires)) }
        ensures sent { OnOk result (IsIn request.now self.new.wires.packets) }
        ensures takes { TakesFront self.old.wires.fates self.new.wires.fates self.old.wires.troubles self.new.wires.troubles }
        ensures front { OnErr result ((self.new.wires ≡ self.old.wires) ⊎ FrontWaits self.old.wires.fates) }
        ensures cut { OnErr result ((scene_of R.runs R.faults self.new ≡ scene_of R.runs R.faults self.old)
            ⊎ IsCutBefore (with_world (sent request.now (world_of self.old.wires)) (scene_of R.runs R.faults self.old))
            (scene_of R.runs R.faults self.new)) }
    {
        self.wires.send(request)?;
        self.decide()
    }

    /// An operation that was sent is handled, and the reply is the answer.
    fn pass(&mut self, address: &[u8], request: Message) -> Result<Vec<u8>, LinkError>
        requires idle { self.old.surrogate.phase ≡ Idle }
        requires valid { IsValid request }
        requires request { IsRequest Peer.Surrogate request }
        requires sent { IsIn request self.old.wires.packets }
        ensures idle { self.new.surrogate.phase ≡ Idle }
        ensures met { UnlessMemory result (MeetsOperation Pass Peer.Surrogate address.now request (scene_of R.runs R.faults self.old)
            (scene_of R.runs R.faults self.new) result) }
        ensures once { AsksSent Peer.Surrogate address.now request (world_of self.old.wires) (world_of self.new.wires) result }
        ensures takes { TakesFront self.old.wires.fates self.new.wires.fates self.old.wires.troubles self.new.wires.troubles }
        ensures memory { IfErr result (λ error. error ≡ LinkError.Memory) }
        ensures cut { OnErr result (IsHandledInPart 1 request (scene_of R.runs R.faults self.old) (scene_of R.runs R.faults self.new)) }
    {
        match self.operate(&request) {
            Ok(reply) => self.wires.answer(Peer::Surrogate, address, request, reply),
            Err(_refused) => {
                drop(request);
                Err(LinkError::Memory)
            }
        }
    }

    /// An operation that was sent meets the fate that decides its ask.
    fn meet(&mut self, fate: Fate, address: &[u8], request: Message) -> Result<Vec<u8>, LinkError>
        requires idle { self.old.surrogate.phase ≡ Idle }
        requires decides { decides fate ≡ true }
        requires valid { IsValid request }
        requires request { IsRequest Peer.Surrogate request }
        requires sent { IsIn request self.old.wires.packets }
        ensures idle { self.new.surrogate.phase ≡ Idle }
        ensures met { UnlessMemory result (MeetsOperation fate Peer.Surrogate address.now request (scene_of R.runs R.faults self.old)
            (scene_of R.runs R.faults self.new) result) }
        ensures once { AsksSent Peer.Surrogate address.now request (world_of self.old.wires) (world_of self.new.wires) result }
        ensures takes { TakesBeside fate self.old.wires.fates self.new.wires.fates self.old.wires.troubles self.new.wires.troubles }
        ensures cause { HasCause LinkError.Failed self.old.wires.troubles self.new.wires.troubles result }
        ensures cut { OnMemory result (IsHandledInPart (handlings Peer.Surrogate fate) request (scene_of R.runs R.faults self.old)
            (scene_of R.runs R.faults self.new)) }
    {
        match fate {
            Fate::Pass => self.pass(address, request),
            Fate::LoseRequest => self.wires.lose(Peer::Surrogate, address, request),
            Fate::Stop => self.wires.lose(Peer::Surrogate, address, request),
            Fate::LoseReply => match self.operate(&request) {
                Ok(lost) => {
                    drop(lost);
                    self.wires.lose(Peer::Surrogate, address, request)
                }
                Err(_refused) => {
                    drop(request);
                    Err(LinkError::Memory)
                }
            },
            Fate::Twice => match self.operate(&request) {
                Ok(first) => {
                    drop(first);
                    self.pass(address, request)
                }
                Err(_refused) => {
                    drop(request);
                    Err(LinkError::Memory)
                }
            },
            Fate::Old(k) => self
                .wires
                .answer_by_old(k, Peer::Surrogate, address, request),
            Fate::Late(_) | Fate::Inject(_) => unreachable!(),
        }
    }

    /// Sends the request and takes fates up to the first that decides, where a stop stays: that one says what becomes of the ask.
    pub(crate) fn ask(
        &mut self,
        to: Peer,
        address: &[u8],
        frame: &[u8],
    ) -> Result<Vec<u8>, LinkError>
        requires idle { self.old.surrogate.phase ≡ Idle }
        requires request { (request : Message) × Spells request frame.now × IsRequest to request }
        ensures idle { self.new.surrogate.phase ≡ Idle }
        ensures reply { (request : Message) → Spells request frame.now
            → IfOk result (λ bytes. IsReplyTo request bytes.items) }
        ensures world { (request : Message) → Spells request frame.now
            → AsksOnce to address.now request (world_of self.old.wires) (world_of self.new.wires) result }
        ensures direct { (request : Message) → Spells request frame.now → to ≡ Peer.Server
            → (Rose self.old.wires.troubles self.new.wires.troubles → ⊥)
            → IsDirect to address.now request (world_of self.old.wires) (world_of self.new.wires) result }
        ensures cause { HasCause LinkError.Failed self.old.wires.troubles self.new.wires.troubles result }
        ensures kept { Spends self.old.wires self.new.wires }
        ensures fates { TakesFates self.old.wires.fates self.new.wires.fates self.old.wires.troubles self.new.wires.troubles to result }
        ensures met { (request : Message) → Spells request frame.now
            → UnlessMemory result
            (IsMet to address.now request (scene_of R.runs R.faults self.old) (scene_of R.runs R.faults self.new) result) }
        ensures cut { (request : Message) → Spells request frame.now
            → OnMemory result (IsCutShort to request (scene_of R.runs R.faults self.old) (scene_of R.runs R.faults self.new)) }

        // Where no packet comes late before it is decided, an ask of the server is as without a surrogate.
        ensures lone { to ≡ Peer.Server → comes_late self.old.wires.fates ≡ false
            → LeavesFates result self.old.wires.fates self.new.wires.fates
            × (self.new.wires.troubles ≡ troubles_after (deciding self.old.wires.fates) result self.old.wires.troubles) }
    {
        let Ok(request) = read(self.wires.allocator(), frame) else {
            return Err(LinkError::Memory);
        };
        let Ok(decided) = self.reach(&request) else {
            drop(request);
            return Err(LinkError::Memory);
        };
        match to {
            Peer::Server => self.wires.meet(decided, to, address, request),
            Peer::Surrogate => self.meet(decided, address, request),
        }
    }
}
