// Programs of this machine behind the trait of what runs jobs.
ghost use Rattle.std.specs.Prelude.{◌≡◌, None, Some, option_map, List, IfOk};
ghost use Rattle.std.specs.Duration.{as_nanos};
ghost use Rattle.outside.specs.Outside.{Told, CountsFault, RisesWhere};
ghost use Rattle.cmd_capture.specs.declared.runner.Run.{Run};
ghost use Rattle.cmd_capture.specs.Runs.{AddsRun, IsAskedOnce};
ghost use Rattle.folder_reading.specs.Found.{HasTreeSize};
ghost use Rattle.folder_reading.specs.Withheld.{withheld_in, withheld_of};
ghost use Rattle.child_runner.specs.Judging.{longest_run};
ghost use Rattle.child_runner.specs.Waiting.{reading_nanos};

use crate::beside::Removals;
use crate::clearing::remove_left;
use crate::limits::{Limits, Stopwatch};
use crate::places::Place;
use crate::texts::text_of;
use crate::trouble::{RunTrouble, count};
use crate::works::Work;
use cmd_capture::{Job, Outcome, RawRow, RunError, Runner};
use folder_reading::{Reading, withheld, write_rows};
use programs_apart::{ApartWish, Care, run_there};
use std::alloc::AllocGlobal;
use std::fs::{File, Files};
use std::io::Eprint;
use std::process::Processes;
use std::time::{Clock, Duration};

/// What is told where this is root.
const NOT_LIMITED: &str = "runs as root: processes are not limited";

/// Runs jobs as programs of this machine, each in a folder that has its name of the job. It tells on standard error why a job was
/// not run.
#[derive(Drop)]
pub struct ChildRunner<'a, R: Files<File = File> + Processes + AllocGlobal + Clock + Eprint> {
    host: &'a R,
    program: &'static str,
    limits: Limits,
    care: Care,
    removals: Removals<R>,
    faults: u64,
    calls: u64,
}

impl<'a, R: Files<File = File> + Processes + AllocGlobal + Clock + Eprint> ChildRunner<'a, R> {
    /// A runner of the client `program`, as its lines on standard error begin, that has not failed yet. A job's program may run as long
    /// as it does, since its user can end it; what it prints is passed on to standard error. Reading back has a limit.
    pub fn at_client(host: &'a R, program: &'static str) -> ChildRunner<'a, R>
        ensures faults { result.faults ≡ 0 }
        ensures whole { result.limits.whole ≡ None }
        ensures reading { option_map as_nanos result.limits.reading ≡ Some reading_nanos }
    {
        ChildRunner {
            host,
            program,
            limits: Limits::of_client(),
            care: Care::plain(host.alloc()),
            removals: Removals::new(host.alloc()),
            faults: 0,
            calls: 0,
        }
    }

    /// A runner of the surrogate `program` that has not failed yet. A run may take the `longest` time, with reading back, less what its
    /// job takes to judge: then its program is ended, which is a run that failed. What a program started in its group ends with it,
    /// where the system has what that takes. What it prints is not kept.
    pub fn at_surrogate(host: &'a R, program: &'static str, longest: Duration) -> ChildRunner<'a, R>
        ensures faults { result.faults ≡ 0 }
        ensures limits { result.limits ≡ record { whole = Some longest; reading = None } }
    {
        ChildRunner {
            host,
            program,
            limits: Limits::of_surrogate(longest),
            care: Care::led(host),
            removals: Removals::new(host.alloc()),
            faults: 0,
            calls: 0,
        }
    }

    /// How many calls have failed.
    pub fn faults(&self) -> u64
        ensures { result ≡ self.now.faults }
    {
        self.faults
    }

    /// Keeps the programs of the runs that follow apart from other processes, from the network and from files, as far as the wish asks
    /// for that and as it can be done in `work`, which is tried there. Whether they are is told. The `files` are empty for a program
    /// that is kept apart from files, wherever they are.
    pub fn keep_apart(&mut self, work: &[u8], wish: &ApartWish, files: Vec<String>)
        ensures faults { self.new.faults ≡ self.old.faults }
        ensures calls { self.new.calls ≡ self.old.calls }
        ensures limits { self.new.limits ≡ self.old.limits }
    {
        let mut is_root = false;
        if wish.is_wanted {
            match self.try_apart(work, wish) {
                Ok(by_root) => is_root = by_root,
                Err(trouble) => self.tell_not_apart(trouble),
            }
        }
        self.care.empty(files);
        self.tell_kept(is_root);
    }

    /// Tells why programs are not kept apart.
    fn tell_not_apart(&self, trouble: RunTrouble) {
        let _ = eprintln!(self.host; "{}: not apart: {trouble}", self.program);
        drop(trouble);
    }

    /// Tells how far programs are kept apart, and what holds where this is root.
    fn tell_kept(&self, is_root: bool) {
        let _ = eprintln!(self.host; "{}: {}", self.program, self.kept());
        if is_root {
            let _ = eprintln!(self.host; "{}: {NOT_LIMITED}", self.program);
        }
    }

    /// Tries over an empty folder in `work` how far programs can be kept apart, keeps them so, and tells whether this is root.
    fn try_apart(&mut self, work: &[u8], wish: &ApartWish) -> Result<bool, RunTrouble>
        ensures faults { self.new.faults ≡ self.old.faults }
        ensures calls { self.new.calls ≡ self.old.calls }
        ensures limits { self.new.limits ≡ self.old.limits }
    {
        let work = Work::made(self.host, text_of(work)?)?;
        let watch = Stopwatch::begin(self.host, "trying took", None)?;
        let place = Place::take(self.host, &work, &[0u8; 32], &watch)?;
        let folder = place.folder.as_str();
        let kept = self
            .care
            .keep_apart(self.host, work.place, folder, work.is_root(), wish);
        let removed = place.give_up(self.host, &work).remove(self.host, true);
        drop(removed);
        kept?;
        Ok(work.is_root())
    }

    /// How far programs are kept apart, as it is told.
    pub fn kept(&self) -> &'static str {
        self.care.kept()
    }

    /// Removes what runs left in `work` that were cut off, folders and locks, as a program does at its start. That takes two seconds at
    /// most: what takes longer goes on beside. What belongs to a run or to a removal that goes on stays, and so does all that has
    /// neither's name.
    ///
    /// # Errors
    ///
    /// `Failed` is counted.
    pub fn clear(&mut self, work: &[u8]) -> Result<(), RunError>
        ensures cause { CountsFault RunError.Failed self.old.faults self.new.faults result }
    {
        self.settle();
        match self.clear_work(work) {
            Ok(()) => Ok(()),
            Err(trouble) => Err(self.failed("not cleared", trouble)),
        }
    }

    fn clear_work(&self, work: &[u8]) -> Result<(), RunTrouble> {
        match Work::found(self.host, text_of(work)?)? {
            Some(work) => remove_left(self.host, &work),
            None => Ok(()),
        }
    }

    /// Tells of the trouble, and counts it unless memory ran out.
    fn failed(&mut self, what: &str, trouble: RunTrouble) -> RunError
        ensures cause { RisesWhere (result ≡ RunError.Failed) self.old.faults self.new.faults }
        ensures calls { self.new.calls ≡ self.old.calls }
    {
        let error = match &trouble {
            RunTrouble::Memory => RunError::Memory,
            RunTrouble::Refused { .. }
            | RunTrouble::Odd { .. }
            | RunTrouble::Told(_)
            | RunTrouble::Long { .. } => {
                let _ = eprintln!(self.host; "{}: {what}: {trouble}", self.program);
                count(&mut self.faults);
                RunError::Failed
            }
        };
        drop(trouble);
        error
    }

    /// Runs the job in a folder of its own, which is removed whether or not the job ran. Where it cannot be removed the outcome stands
    /// all the same: its rows were read, and the folder has a name of no run.
    #[tactic(auto, using(folder_reading::proofs::ToldBack::all_are_withheld))]
    fn run_placed(&mut self, work: &[u8], job: &Job) -> Result<Outcome, RunTrouble>
        ensures faults { self.new.faults ≡ self.old.faults }
        ensures calls { self.new.calls ≡ self.old.calls }
        ensures small { IfOk result (λ outcome. HasTreeSize outcome.rows) }
        ensures withheld { IfOk result (λ outcome. withheld_in outcome.rows ≡ withheld_of job.now.rows) }
    {
        let withheld = withheld(self.host.alloc(), job.rows().as_slice())?;
        self.tell_withheld(withheld.as_slice());
        let ran = self.run_with(work, job, withheld.as_slice());
        drop(withheld);
        ran
    }

    /// Runs the job without the rows that are withheld, and tells those back.
    fn run_with(
        &mut self,
        work: &[u8],
        job: &Job,
        withheld: &[RawRow],
    ) -> Result<Outcome, RunTrouble>
        ensures faults { self.new.faults ≡ self.old.faults }
        ensures calls { self.new.calls ≡ self.old.calls }
        ensures small { IfOk result (λ outcome. HasTreeSize outcome.rows) }
        ensures withheld { IfOk result (λ outcome. withheld_in outcome.rows ≡ withheld_in withheld.now) }
    {
        let watch = self.whole_watch(job)?;
        let print = job.print();
        let work = Work::made(self.host, text_of(work)?)?;
        let place = Place::take(self.host, &work, &print, &watch)?;
        let ended = self.run_in(place.folder.as_str(), job, &watch);
        let watch = self.watch_behind(watch);
        let ran = match ended {
            Ok(status) => self.read_in(&place, status, &watch, withheld),
            Err(trouble) => Err(trouble),
        };
        self.remove(&work, place, ran.is_ok());
        ran
    }

    /// Writes the job's rows and runs its command.
    fn run_in(&self, folder: &str, job: &Job, watch: &Stopwatch) -> Result<u8, RunTrouble> {
        write_rows(self.host, folder, job.rows().as_slice())?;
        run_there(self.host, folder, job.command(), watch, &self.care)
    }

    /// The watch of the whole run: the longest one, less what its job takes to judge.
    fn whole_watch(&self, job: &Job) -> Result<Stopwatch, RunTrouble>
        ensures { IfOk result (λ watch. option_map as_nanos watch.longest
            ≡ longest_run (option_map as_nanos self.now.limits.whole) job.now.rows) }
    {
        let longest = self.limits.whole_of(job.rows().as_slice());
        Stopwatch::begin(self.host, "it took", longest)
    }

    /// The watch of what comes behind the end of the program.
    fn watch_behind(&self, whole: Stopwatch) -> Stopwatch {
        match self.limits.reading {
            Some(longest) => match Stopwatch::begin(self.host, "reading took", Some(longest)) {
                Ok(watch) => watch,
                Err(trouble) => {
                    drop(trouble);
                    whole
                }
            },
            None => whole,
        }
    }

    /// What the program left.
    fn read_in(
        &self,
        place: &Place,
        status: u8,
        watch: &Stopwatch,
        withheld: &[RawRow],
    ) -> Result<Outcome, RunTrouble>
        ensures small { IfOk result (λ outcome. HasTreeSize outcome.rows) }
        ensures withheld { IfOk result (λ outcome. withheld_in outcome.rows ≡ withheld_in withheld.now) }
    {
        let reading = Reading {
            host: self.host,
            folder: place.folder.as_str(),
            device: place.lock.device(self.host)?,
            watch: *watch,
            withheld,
        };
        let rows = reading.rows()?;
        Ok(Outcome { status, rows })
    }

    /// Tells of the rows that the program is not given.
    fn tell_withheld(&self, withheld: &[RawRow]) {
        let Some(first) = withheld.first() else {
            return;
        };
        if let Ok(path) = String::from_utf8_lossy(self.host.alloc(), first.path.bytes()) {
            let _ = match withheld.len() {
                1 => eprintln!(self.host;
                    "{}: passed over: {path:?} is no text of UTF-8",
                    self.program
                ),
                more => eprintln!(self.host;
                    "{}: passed over: {path:?} and {} more are no text of UTF-8",
                    self.program,
                    more.saturating_sub(1)
                ),
            };
        }
    }

    /// Removes the place of a run, and tells of what is left. Where its folder `is_read`, which is that it was read back whole, that is
    /// started and not waited for.
    fn remove(&mut self, work: &Work<'_>, place: Place, is_read: bool)
        ensures faults { self.new.faults ≡ self.old.faults }
        ensures calls { self.new.calls ≡ self.old.calls }
    {
        let given = place.give_up(self.host, work);
        let removed = match is_read {
            true => given.remove_behind(self.host, work, &mut self.removals),
            false => given.remove(self.host, false),
        };
        self.tell_left(removed);
    }

    /// Asks for the removals that have ended.
    fn settle(&mut self)
        ensures faults { self.new.faults ≡ self.old.faults }
        ensures calls { self.new.calls ≡ self.old.calls }
    {
        let settled = self.removals.settle(self.host);
        self.tell_left(settled);
    }

    /// Tells of what is left behind.
    fn tell_left(&self, removed: Result<(), RunTrouble>) {
        if let Err(trouble) = removed {
            let _ = eprintln!(self.host; "{}: left behind: {trouble}", self.program);
        }
    }
}

impl<'a, R: Files<File = File> + Processes + AllocGlobal + Clock + Eprint> Runner
    for ChildRunner<'a, R> {
    ghost runs = { λ _. None };

    ghost faults = { λ runner. runner.faults };

    ghost calls = { λ runner. runner.calls };

    fn run(&mut self, work: &[u8], job: &Job) -> Result<Outcome, RunError>
        ensures runs { Told {A = List Run} None None (AddsRun work.now job.now result) }
        ensures cause { CountsFault RunError.Failed self.old.faults self.new.faults result }
        ensures called { IsAskedOnce self.old.calls self.new.calls }

        ensures small { IfOk result (λ outcome. HasTreeSize outcome.rows) }
        ensures withheld { IfOk result (λ outcome. withheld_in outcome.rows ≡ withheld_of job.now.rows) }
    {
        count(&mut self.calls);
        self.settle();
        let ran = match self.care.begin(self.host) {
            Ok(()) => self.run_placed(work, job),
            Err(trouble) => Err(trouble),
        };
        match ran {
            Ok(outcome) => Ok(outcome),
            Err(trouble) => Err(self.failed("not run", trouble)),
        }
    }
}
