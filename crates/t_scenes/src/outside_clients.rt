// What stands outside clients, and stays there between their runs.

use crate::answers::Answers;
use crate::lines::{Verb, none, verb_of};
use crate::place::{Place, Prepared};
use crate::runs::NextProgram;
use crate::scripts::{Scripts, Whose};
use cmd_capture::ScriptRunner;
use std::alloc::Global;
use std::mem;
use t_scene_files::{Fault, Line, Report, Stage};

/// One scene's outside.
#[derive(Drop)]
pub(crate) struct OutsideClients {
    pub(crate) alloc: Global,
    pub(crate) prepared: Prepared,
    /// The network and the keeper, from the first run or ask on.
    pub(crate) place: Option<Place>,
    pub(crate) scripts: Scripts,
    /// What runs the commands of clients.
    pub(crate) runner: ScriptRunner,
    pub(crate) next: NextProgram,
    pub(crate) answers: Answers,
    /// The names of images that runs were given.
    pub(crate) names: Vec<String>,
    /// Whether something was prepared for a keeper or a runner that is gone, which did not meet it.
    pub(crate) is_missed: bool,
    /// Whether it is wanted that not all that was prepared was met.
    is_unmet: bool,
}

impl OutsideClients {
    /// Nothing is kept, the server is new, and nothing fails or is lost.
    pub(crate) fn new(alloc: Global) -> OutsideClients {
        OutsideClients {
            alloc,
            prepared: Prepared::new(alloc),
            place: None,
            scripts: Scripts::new(alloc),
            runner: ScriptRunner::new(alloc, Vec::new(alloc)),
            next: NextProgram::new(alloc),
            answers: Answers::new(alloc),
            names: Vec::new(alloc),
            is_missed: false,
            is_unmet: false,
        }
    }

    /// The runner of the clients' commands comes to what was told since it was used last, where something was.
    pub(crate) fn renew_runner(&mut self) {
        let answers = self.scripts.take(self.alloc, Whose::Client);
        if answers.is_empty() {
            drop(answers);
            return;
        }
        self.is_missed = self.is_missed || self.runner.answers_left() > 0;
        let runner = ScriptRunner::new(self.alloc, answers);
        drop(mem::replace(&mut self.runner, runner));
    }

    fn is_place_met(&self) -> bool {
        match &self.place {
            Some(place) => place.is_met(),
            None => self.prepared.is_met(),
        }
    }

    /// Whether all that was prepared was met.
    fn is_all_met(&self) -> bool {
        !self.is_missed
            && self.is_place_met()
            && self.scripts.is_met()
            && self.runner.answers_left() == 0
            && self.next.is_met()
    }

    /// Not all that was prepared was met.
    fn look_for_unmet(&mut self, report: &mut Report, words: &[&str]) -> Result<(), Fault> {
        none(words)?;
        report.look();
        self.is_unmet = true;
        if self.is_all_met() {
            report.tell("all that is prepared is met")?;
        }
        Ok(())
    }
}

impl Stage for OutsideClients {
    fn begin(&mut self) {
        let fresh = OutsideClients::new(self.alloc);
        drop(mem::replace(self, fresh));
    }

    fn takes_block(&self, words: &[&str]) -> bool {
        let ([first, ..], [.., last]) = (words, words) else {
            return false;
        };
        match verb_of(first) {
            Some(verb) => verb.takes_block(last),
            None => false,
        }
    }

    fn follow(&mut self, report: &mut Report, line: Line<'_>) -> Result<(), Fault> {
        let (Some(verb), [_, words @ ..]) = (verb_of(line.first), line.words) else {
            return Err(Fault::Line("no line begins so"));
        };
        match verb {
            Verb::Before(before) => self.prepare(before, words, line.block),
            Verb::Next(next) => self.give(next, words, line),
            Verb::Act(_) if !self.is_looked_at() => {
                Err(Fault::Line("the last answer is not looked at"))
            }
            Verb::Act(act) => self.act(act, words, line.block),
            Verb::Came(came) => self.answers.look(report, came, words, line.block),
            Verb::Stands(stands) => self.look(report, stands, words, line.block),
            Verb::Passed(passed) => self.look_at_network(report, passed, words, line.block),
            Verb::Unmet => self.look_for_unmet(report, words),
        }
    }

    fn is_looked_at(&self) -> bool {
        self.answers.is_looked_at()
    }

    fn is_met(&self) -> bool {
        self.is_unmet || self.is_all_met()
    }
}
