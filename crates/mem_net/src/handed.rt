// A network that is handed on as a link.
ghost use Rattle.std.specs.Prelude.{◌≡◌, ◌≢◌, ◌↔◌, false, Err};
ghost use Rattle.server_core.specs.Holding.{served};
ghost use Rattle.mem_net.specs.Handed.{HasNoOthers};

use crate::net::MemNet;
use cmd_capture::Runner;
use server_core::Server;
use std::marker::Model;
use wire_frames::CLIENTS;
use world_rules::{Link, LinkError, Peer};

/// A network inside a link of its own, which passes each ask on and tells the network's world. It notes whether memory was
/// wanted in an ask; that another client has written to the server counts as such. While neither was so, nothing that was
/// taken is of another client, and of any four asks of the server in a row one did not fail. Contracts see the network, and
/// whether memory was wanted.
#[derive(Drop)]
pub struct Handed<R> {
    net: MemNet<R>,
    client: u8,
    wanted: bool,
}

impl<R> Model for Handed<R> {
    ghost use Rattle.std.specs.Prelude.{◌≡◌};
    ghost use Rattle.mem_net.specs.Handed.{Handing, KeepsRule};

    ghost Value = { Handing R };

    ghost view = { λ h. record { net = h.net; wanted = h.wanted } };

    ghost invariant = { λ h. (h.client ≡ h.net.wires.client) × KeepsRule h.wanted h.net.wires };
}

impl<R> Handed<R> {
    ghost use Rattle.mem_net.specs.Handed.{KeepsRule, IsByRule};
    ghost use Rattle.mem_wires.specs.Wire.{world_of};

    /// The network of this client, handed on. It takes no memory.
    pub fn new(net: MemNet<R>, client: u8) -> Handed<R>
        requires own { client ≡ net.wires.client }
        requires rule { IsByRule (world_of net.wires) net.wires.fates }
        ensures { result ≡ record { net = net; wanted = false } }
    {
        Handed {
            net,
            client,
            wanted: false,
        }
    }

    /// The network, and whether memory was wanted in an ask.
    pub fn into_net(self) -> (MemNet<R>, bool)
        ensures net { result.0 ≡ self.net }
        ensures wanted { result.1 ≡ self.wanted }
        ensures rule { KeepsRule self.wanted self.net.wires }
    {
        (self.net, self.wanted)
    }
}

/// Whether a client but this one has an entry at the server.
fn has_others(server: &Server, own: u8) -> bool
    ensures { result ≡ false ↔ HasNoOthers own (served server.now) }
{
    for other in 1..=CLIENTS {
        let last = server.last(other);
        if other != own && last != 0 {
            return true;
        }
    }
    false
}

/// Whether memory is wanted from here on: it was before, it ran out in the ask that came to this, or there are others.
fn is_wanted(wanted: bool, came: &Result<Vec<u8>, LinkError>, others: bool) -> bool
    ensures { result ≡ false ↔ ((wanted ≡ false) × (came.now ≢ Err LinkError.Memory) × (others ≡ false)) }
{
    wanted || others || matches!(came, Err(LinkError::Memory))
}

impl<R: Runner> Link for Handed<R> {
    ghost use Rattle.std.specs.Prelude.{Some, IfOk};
    ghost use Rattle.outside.specs.Outside.{Told, Rose, HasCause};
    ghost use Rattle.wire_frames.specs.declared.message.Message.{Message};
    ghost use Rattle.wire_frames.specs.Frame.{Spells};
    ghost use Rattle.world_rules.specs.Asking.{IsRequest, IsReplyTo, AsksOnce, IsDirect};
    ghost use Rattle.mem_wires.specs.Wire.{world_of};
    ghost use Rattle.mem_wires.specs.Spending.{Spends, spends_none, spends_then};
    ghost use Rattle.mem_net.specs.Scenes.{scene_of, UnlessMemory, IsMet, TakesFates, OnMemory, IsCutShort};

    ghost tells = { λ h. record { world = Some (world_of h.net.wires); troubles = h.net.wires.troubles } };

    ghost keeps = { λ old new. Spends old.net.wires new.net.wires };

    ghost keeps_none = { λ h. spends_none h.net.wires };

    ghost keeps_then = { λ a b c. spends_then a.net.wires b.net.wires c.net.wires };

    /// Passes the ask on. Where another client has an entry at the server then, that counts as want of memory.
    fn ask(&mut self, to: Peer, address: &[u8], frame: &[u8]) -> Result<Vec<u8>, LinkError>
        requires { (request : Message) × Spells request frame.now × IsRequest to request }
        ensures reply { (request : Message) → Spells request frame.now
            → IfOk result (λ bytes. IsReplyTo request bytes.items) }
        ensures world { (request : Message) → Spells request frame.now
            → Told (Some (world_of self.old.net.wires)) (Some (world_of self.new.net.wires))
            (λ old new. AsksOnce to address.now request old new result) }
        ensures direct { (request : Message) → Spells request frame.now → to ≡ Peer.Server
            → (Rose self.old.net.wires.troubles self.new.net.wires.troubles → ⊥)
            → Told (Some (world_of self.old.net.wires)) (Some (world_of self.new.net.wires))
            (λ old new. IsDirect to address.now request old new result) }
        ensures cause { HasCause LinkError.Failed self.old.net.wires.troubles self.new.net.wires.troubles result }
        ensures kept { Spends self.old.net.wires self.new.net.wires }

        // What the request, the network and the fates make of it.
        ensures fates { TakesFates self.old.net.wires.fates self.new.net.wires.fates self.old.net.wires.troubles
            self.new.net.wires.troubles to result }
        ensures met { (request : Message) → Spells request frame.now
            → UnlessMemory result
            (IsMet to address.now request (scene_of R.runs R.faults self.old.net) (scene_of R.runs R.faults self.new.net) result) }
        ensures cut { (request : Message) → Spells request frame.now
            → OnMemory result
            (IsCutShort to request (scene_of R.runs R.faults self.old.net) (scene_of R.runs R.faults self.new.net)) }

        // What was wanted stays so.
        ensures wanted { self.new.wanted ≡ false ↔ ((self.old.wanted ≡ false) × (result ≢ Err LinkError.Memory)
            × HasNoOthers self.new.net.wires.client (served self.new.net.wires.server)) }
    {
        let came = self.net.ask(to, address, frame);
        let others = has_others(self.net.server(), self.client);
        self.wanted = is_wanted(self.wanted, &came, others);
        came
    }
}
