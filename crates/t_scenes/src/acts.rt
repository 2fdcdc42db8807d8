// Lines that say what is done.

use crate::lines::{Act, none};
use crate::outside_clients::OutsideClients;
use crate::place::prepare_again;
use t_scene_files::Fault;

impl OutsideClients {
    /// Does what the line says.
    pub(crate) fn act(&mut self, act: Act, words: &[&str], block: &[u8]) -> Result<(), Fault> {
        match act {
            Act::Run => self.run_plainly("-", words, block),
            Act::Ship => self.run_plainly("surrogate", words, block),
            Act::Client => self.run(words, block),
            Act::Node => self.serve_connections(words),
            Act::Serve => self.serve(words, block),
            Act::Ask => self.ask(words, block),
            Act::Operate => self.operate(words, block),
            Act::Again => self.begin_again(words),
            Act::Forget => self.forget(words),
        }
    }

    /// Runs client 1 with this surrogate.
    fn run_plainly(&mut self, surrogate: &str, words: &[&str], block: &[u8]) -> Result<(), Fault> {
        none(words)?;
        self.run(&["run", "1", "image", "server", surrogate, "work"], block)
    }

    /// What is kept and what the server holds is prepared for a network and a keeper that do not fail.
    fn begin_again(&mut self, words: &[&str]) -> Result<(), Fault> {
        none(words)?;
        let Some(place) = self.place.take() else {
            return Err(NOTHING_RUN);
        };
        self.is_missed = self.is_missed || !place.is_met();
        let prepared = prepare_again(self.alloc, &place, &self.names, &mut self.prepared);
        drop(place);
        prepared
    }

    /// Nothing is kept any more, and no call of the keeper fails.
    fn forget(&mut self, words: &[&str]) -> Result<(), Fault> {
        none(words)?;
        match &mut self.place {
            Some(place) => {
                self.is_missed = self.is_missed || !place.is_met();
                place.forget(self.alloc);
                Ok(())
            }
            None => Err(NOTHING_RUN),
        }
    }
}

/// What is wrong with an act that needs an earlier one.
const NOTHING_RUN: Fault = Fault::Line("nothing was run before this");
