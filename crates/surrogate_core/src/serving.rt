// Operations that are handled over a link.
ghost use Rattle.std.specs.Prelude.{◌≡◌, ◌<◌, false, IfOk, OnErr};
ghost use Rattle.wire_frames.specs.Frame.{IsValid};
ghost use Rattle.world_rules.specs.Asking.{IsRequest};
ghost use Rattle.surrogate_core.specs.declared.step.NextStep.TheVariants as steps;
ghost use Rattle.surrogate_core.specs.Handling.{Idle, is_fetching, idle, copy_before, IsFitStep};
ghost use Rattle.cmd_capture.specs.Runs.{telling, IsAskedAtMostOnce};
ghost use Rattle.surrogate_core.specs.Serving.{Serves};
ghost use Rattle.surrogate_core.specs.Inside.{Awaits, Follows, Breaks, asks_left};

use crate::machine::Surrogate;
use crate::step::NextStep;
use cmd_capture::Runner;
use std::alloc::AllocError;
use wire_frames::Message;
use world_rules::{Link, Peer, settle};

impl Surrogate {
    /// Handles an operation to its answer: tries it on the copy, and asks the server at the address. Any other message is
    /// malformed. The runner is asked once at most.
    ///
    /// # Errors
    ///
    /// Where memory runs out while the server is asked. What was open is taken back then.
    pub fn serve<R: Runner, L: Link>(
        &mut self,
        request: Message,
        work: &[u8],
        runner: &mut R,
        link: &mut L,
        server: &[u8],
    ) -> Result<Message, AllocError>
        requires idle { self.old.phase ≡ Idle }
        requires valid { IsValid request }
        ensures idle { self.new.phase ≡ Idle }
        ensures reply { IfOk result IsValid }
        ensures kept { L.keeps link.old link.new }
        ensures served { Serves server.now work.now self.old.copy request result self.new.copy
            (telling (R.runs runner.old) (R.faults runner.old)) (telling (R.runs runner.new) (R.faults runner.new)) (L.tells link.old)
            (L.tells link.new) }
        ensures asked { IsAskedAtMostOnce (R.calls runner.old) (R.calls runner.new) }
    {
        let mut step = self.on_operate(request, work, runner);
        'asking: loop {
            match step {
                NextStep::Answer(reply) => return Ok(reply),
                NextStep::Ask(asked) => {
                    let followed = self.follow(&asked, work, runner, link, server);
                    drop(asked);
                    step = match followed {
                        Ok(next) => next,
                        Err(refused) => return Err(refused),
                    };
                }
            }
        }
    }

    /// Settles the request with the server, and goes on with its reply or with none.
    ///
    /// # Errors
    ///
    /// Where memory runs out in the settling. What was open is taken back then.
    fn follow<R: Runner, L: Link>(
        &mut self,
        asked: &Message,
        work: &[u8],
        runner: &mut R,
        link: &mut L,
        server: &[u8],
    ) -> Result<NextStep, AllocError>
        requires awaits { Awaits self.old.phase asked.now }
        requires valid { IsValid asked.now }
        requires request { IsRequest Peer.Server asked.now }
        ensures follows { IfOk result (λ step. Follows server.now work.now asked.now
            (record {
              step = steps.Ask asked.now;
              after = self.old;
            }) (record {
              step = step;
              after = self.new;
            })
            (telling (R.runs runner.old) (R.faults runner.old)) (telling (R.runs runner.new) (R.faults runner.new)) (L.tells link.old)
            (L.tells link.new)) }
        ensures sent { IfOk result IsFitStep }
        ensures fewer { IfOk result (λ step. asks_left self.new.phase < asks_left self.old.phase) }
        ensures breaks { OnErr result (Breaks server.now asked.now (L.tells link.old) (L.tells link.new)) }
        ensures taken_back { OnErr result (self.new ≡ idle (copy_before self.old)) }
        ensures unrun { OnErr result (telling (R.runs runner.new) (R.faults runner.new) ≡ telling (R.runs runner.old)
            (R.faults runner.old)) }
        ensures asked { IsAskedAtMostOnce (R.calls runner.old) (R.calls runner.new) }
        ensures unasked { is_fetching self.old.phase ≡ false → R.calls runner.new ≡ R.calls runner.old }
        ensures kept { L.keeps link.old link.new }
    {
        match settle(self.allocator(), link, Peer::Server, server, asked) {
            Ok(Some(reply)) => Ok(self.on_server(reply, work, runner)),
            Ok(None) => Ok(self.on_silence()),
            Err(refused) => {
                self.give_up();
                Err(refused)
            }
        }
    }
}
