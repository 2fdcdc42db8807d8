// A network of one client, one server and one surrogate in memory.
ghost use Rattle.std.specs.Prelude.{◌≡◌};

use crate::parts::NetworkParts;
use cmd_capture::Runner;
use mem_wires::{Fate, Wires};
use server_core::Server;
use std::alloc::{AllocError, Global};
use std::marker::Model;
use surrogate_core::Surrogate;
use world_rules::{Link, LinkError, Peer};

/// One client, one server, one surrogate with what runs its jobs, and the packets between them, which are kept for good.
/// The surrogate asks the server over the same packets, in the same order of fates. Contracts see the world about the
/// client, the surrogate, which is idle between the client's asks, and the runner.
#[derive(Drop)]
pub struct MemNet<R> {
    parts: NetworkParts<R>,
}

impl<R> Model for MemNet<R> {
    ghost use Rattle.std.specs.Prelude.{◌≡◌};
    ghost use Rattle.surrogate_core.specs.Handling.{Idle};
    ghost use Rattle.mem_net.specs.declared.parts.NetworkParts.{NetworkParts};

    ghost Value = { NetworkParts R };

    ghost view = { λ n. n.parts };

    ghost invariant = { λ n. n.parts.surrogate.phase ≡ Idle };
}

impl<R: Drop> MemNet<R> {
    ghost use Rattle.std.specs.Prelude.{◌≤◌, IfOk};
    ghost use Rattle.wire_frames.specs.Limits.{max_client};
    ghost use Rattle.world_rules.specs.Served.{IsServed};
    ghost use Rattle.server_core.specs.Holding.{served};
    ghost use Rattle.surrogate_core.specs.Handling.{Idle};
    ghost use Rattle.mem_wires.specs.Wire.{world_of, new_world};

    /// The network of a client, this server and this surrogate with its runner, in which nothing was sent. The asks meet
    /// these fates in their order; with none left an ask passes. The surrogate runs its jobs in the folder `work`, and asks
    /// the server at the address `srv`. Fails where memory runs out.
    pub fn new(
        alloc: Global,
        client: u8,
        server: Server,
        surrogate: Surrogate,
        runner: R,
        fates: Vec<Fate>,
    ) -> Result<MemNet<R>, AllocError>
        requires low { 1 ≤ client }
        requires high { client ≤ max_client }
        requires idle { surrogate.phase ≡ Idle }
        ensures world { IfOk result (λ net. world_of net.wires ≡ new_world client (served server)) }
        ensures server { IfOk result (λ net. net.wires.server ≡ server) }
        ensures fates { IfOk result (λ net. net.wires.fates ≡ fates.items) }
        ensures troubles { IfOk result (λ net. net.wires.troubles ≡ 0) }
        ensures surrogate { IfOk result (λ net. net.surrogate ≡ surrogate) }
        ensures runner { IfOk result (λ net. net.runner ≡ runner) }
        ensures legal { IsServed (served server) }
    {
        match Wires::new(alloc, client, server, fates) {
            Ok(wires) => Ok(MemNet {
                parts: NetworkParts {
                    wires,
                    surrogate,
                    runner,
                },
            }),
            Err(refused) => {
                drop(surrogate);
                drop(runner);
                Err(refused)
            }
        }
    }
}

impl<R> MemNet<R> {
    ghost use Rattle.std.specs.Prelude.{length, option_map, slice_get, IfSome};
    ghost use Rattle.std.specs.Option.{option_copied};
    ghost use Rattle.wire_frames.specs.Frame.{IsValid, frame};
    ghost use Rattle.mem_wires.specs.Fates.{is_stopped};

    /// The server.
    pub fn server(&self) -> &Server
        ensures { result.now ≡ self.now.wires.server }
    {
        self.parts.wires.server()
    }

    /// What runs the surrogate's jobs.
    pub fn runner(&self) -> &R
        ensures { result.now ≡ self.now.runner }
    {
        &self.parts.runner
    }

    /// The frame of the packet of this number, counted from 0 in the order of sending; `None` where fewer were sent.
    pub fn packet(&self, k: u32) -> Option<&[u8]>
        ensures frame { option_copied result ≡ option_map frame (slice_get self.now.wires.packets k) }
        ensures valid { IfSome (slice_get self.now.wires.packets k) IsValid }
    {
        self.parts.wires.packet(k)
    }

    /// How many fates are left for the asks to come.
    pub fn fates_left(&self) -> usize
        ensures { result ≡ length self.now.wires.fates }
    {
        self.parts.wires.fates_left()
    }

    /// Whether a stop is the first of the fates, so that no ask is handled any more.
    pub fn is_stopped(&self) -> bool
        ensures { result ≡ is_stopped self.now.wires.fates }
    {
        self.parts.wires.is_stopped()
    }

    /// How many asks were lost, stopped or answered by an old packet. The count stands still at the end of its type.
    pub fn troubles(&self) -> u64
        ensures { result ≡ self.now.wires.troubles }
    {
        self.parts.wires.troubles()
    }
}

impl<R: Runner> Link for MemNet<R> {
    ghost use Rattle.std.specs.Prelude.{false, Some, IfOk};
    ghost use Rattle.outside.specs.Outside.{Told, Rose, HasCause};
    ghost use Rattle.wire_frames.specs.declared.message.Message.{Message};
    ghost use Rattle.wire_frames.specs.Frame.{Spells};
    ghost use Rattle.world_rules.specs.Asking.{IsRequest, IsReplyTo, AsksOnce, IsDirect};
    ghost use Rattle.mem_wires.specs.Wire.{world_of};
    ghost use Rattle.mem_wires.specs.Fates.{comes_late, deciding, troubles_after, LeavesFates};
    ghost use Rattle.mem_wires.specs.Spending.{Spends, spends_none, spends_then};
    ghost use Rattle.mem_net.specs.Scenes.{scene_of, UnlessMemory, IsMet, TakesFates, OnMemory, IsCutShort};

    ghost tells = { λ n. record { world = Some (world_of n.wires); troubles = n.wires.troubles } };

    ghost keeps = { λ old new. Spends old.wires new.wires };

    ghost keeps_none = { λ n. spends_none n.wires };

    ghost keeps_then = { λ a b c. spends_then a.wires b.wires c.wires };

    /// Sends the request and takes fates up to the first that decides, where a stop stays: that one says what becomes of the ask. An
    /// operation is handled by the surrogate, as is one that a fate delivers late.
    fn ask(&mut self, to: Peer, address: &[u8], frame: &[u8]) -> Result<Vec<u8>, LinkError>
        requires { (request : Message) × Spells request frame.now × IsRequest to request }
        ensures reply { (request : Message) → Spells request frame.now
            → IfOk result (λ bytes. IsReplyTo request bytes.items) }
        ensures world { (request : Message) → Spells request frame.now
            → Told (Some (world_of self.old.wires)) (Some (world_of self.new.wires))
            (λ old new. AsksOnce to address.now request old new result) }
        ensures direct { (request : Message) → Spells request frame.now → to ≡ Peer.Server
            → (Rose self.old.wires.troubles self.new.wires.troubles → ⊥)
            → Told (Some (world_of self.old.wires)) (Some (world_of self.new.wires))
            (λ old new. IsDirect to address.now request old new result) }
        ensures cause { HasCause LinkError.Failed self.old.wires.troubles self.new.wires.troubles result }
        ensures kept { Spends self.old.wires self.new.wires }

        // What the request, the network and the fates make of it.
        ensures fates { TakesFates self.old.wires.fates self.new.wires.fates self.old.wires.troubles self.new.wires.troubles to result }
        ensures met { (request : Message) → Spells request frame.now
            → UnlessMemory result
            (IsMet to address.now request (scene_of R.runs R.faults self.old) (scene_of R.runs R.faults self.new) result) }
        ensures cut { (request : Message) → Spells request frame.now
            → OnMemory result (IsCutShort to request (scene_of R.runs R.faults self.old) (scene_of R.runs R.faults self.new)) }

        // Where no packet comes late before it is decided, an ask of the server is as without a surrogate.
        ensures lone { to ≡ Peer.Server → comes_late self.old.wires.fates ≡ false
            → LeavesFates result self.old.wires.fates self.new.wires.fates
            × (self.new.wires.troubles ≡ troubles_after (deciding self.old.wires.fates) result self.old.wires.troubles) }
    {
        self.parts.ask(to, address, frame)
    }
}
