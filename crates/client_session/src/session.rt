// The turns of a session's lines.
ghost use Rattle.std.specs.Prelude.{◌≡◌, ◌≢◌, ◌≤◌, [], false, Some, Ok, Err, IfOk, OnErr};
ghost use Rattle.std.specs.Option.{option_copied};
ghost use Rattle.outside.specs.Outside.{CountsFault};
ghost use Rattle.mod_log.specs.Log.{tree_of};
ghost use Rattle.client_core.specs.Keeping.{IsKeptReady};
ghost use Rattle.client_core.specs.Noting.{KeepsLogged};
ghost use Rattle.client_session.specs.Session.{state_of, put_effect, make_effect, remove_effect, move_effect};
ghost use Rattle.client_session.specs.Session.{with_folder, local_answer, word_answer, status_answer, has_pulled};
ghost use Rattle.client_session.specs.Looking.{cat_answer, list_answer, enter_answer, folder_by};
ghost use Rattle.cmd_capture.specs.Runs.{RunnerTelling, telling, IsAskedAtMostOnce};
ghost use Rattle.client_session.specs.Doing.{beside, WentDoing, LineEnds, LineNoting};
ghost use Rattle.client_session.specs.Causes.{HasLineCause, asks_to_run};
ghost use Rattle.client_session.specs.Stops.{told, or_memory, sync_result, pull_result};
ghost use Rattle.client_session.specs.Inside.{LogsOrRefuses, LogsMade};

use crate::effects::{make_effect, move_effect, put_effect, remove_effect};
use crate::looking::{cat, enter, list};
use crate::stop::LineStop;
use client_core::{Client, PullEnd, Route, SyncEnd};
use cmd_capture::Runner;
use mod_log::LogError;
use outside::Keeper;
use shell_lang::{Fault, Line, LineAnswer, LineError};
use std::alloc::{AllocError, Global};
use std::marker::Model;
use vol_tree::{Content, Effect, Path, PathError, TryCopy};
use world_rules::Link;

/// A user's session: the client, and the current folder.
#[derive(Drop)]
pub struct Session {
    pub(crate) client: Client,
    pub(crate) folder: Path,
}

impl Model for Session {
    ghost use Rattle.client_session.specs.Session.{Sitting};

    ghost Value = { Sitting };

    ghost view = { λ session. record { client = session.client; folder = session.folder } };
}

impl Session {
    /// A client's session, in the root folder. It takes no memory.
    pub fn new(alloc: Global, client: Client) -> Session
        ensures { result ≡ record { client = client; folder = [] } }
    {
        Session {
            client,
            folder: Path::root(alloc),
        }
    }

    /// Does what a line asks for, keeps the client where it logs, syncs or pulls, and gives its answer; the empty line and
    /// `quit` have none. Only a line `run` asks the runner for something, and once at most.
    ///
    /// # Errors
    ///
    /// Want of memory, or a keeping that failed. The line may then have done nothing, all but answer, or a part of its run, sync
    /// or pull; what is kept is the client after the last change or before it.
    pub fn answer<L: Link, K: Keeper, R: Runner>(
        &mut self,
        alloc: Global,
        route: &Route,
        line: Result<Line, LineError>,
        link: &mut L,
        keeper: &mut K,
        runner: &mut R,
    ) -> Result<Option<LineAnswer>, LineStop>
        requires { IsKeptReady (K.images keeper.old) route.now.image self.old.client }
        // each change was kept by itself, but for a pull that took rows
        ensures did { WentDoing route.now (LineNoting route.now self.old line result self.new (K.images keeper.old) (K.images keeper.new))
            (state_of self.old) (state_of self.new) (K.images keeper.old) (K.images keeper.new)
            (beside (L.tells link.old) (telling (R.runs runner.old) (R.faults runner.old)))
            (beside (L.tells link.new) (telling (R.runs runner.new) (R.faults runner.new))) }
        ensures cause { HasLineCause route.now (state_of self.old) line result (state_of self.new)
            (beside (L.tells link.old) (telling (R.runs runner.old) (R.faults runner.old)))
            (beside (L.tells link.new) (telling (R.runs runner.new) (R.faults runner.new))) (K.faults keeper.old) (K.faults keeper.new) }
        ensures kept { IfOk result (λ answer. IsKeptReady (K.images keeper.new) route.now.image self.new.client) }
        ensures later { (L.tells link.old).troubles ≤ (L.tells link.new).troubles }
        ensures runner_later { R.faults runner.old ≤ R.faults runner.new }
        ensures runner { asks_to_run line ≡ false → telling (R.runs runner.new) (R.faults runner.new) ≡ telling (R.runs runner.old)
            (R.faults runner.old) }
        ensures keeper { CountsFault LineStop.Keeper (K.faults keeper.old) (K.faults keeper.new) result }
        // no line asks the runner twice
        ensures asked { IsAskedAtMostOnce (R.calls runner.old) (R.calls runner.new) }
    {
        let image = route.image.bytes();
        match line {
            Err(refusal) => Ok(Some(LineAnswer::Refused(Fault::Line(refusal)))),
            Ok(Line::Empty) => Ok(None),
            Ok(Line::Quit) => Ok(None),
            Ok(Line::Put(path, text)) => self.put(alloc, &path, text, image, keeper).map(Some),
            Ok(Line::Make(path)) => self.make(alloc, &path, image, keeper).map(Some),
            Ok(Line::Remove(path)) => self.remove(alloc, &path, image, keeper).map(Some),
            Ok(Line::Move(from, to)) => self.relocate(alloc, &from, &to, image, keeper).map(Some),
            Ok(Line::Cat(path)) => Ok(Some(self.cat(alloc, &path)?)),
            Ok(Line::List(path)) => Ok(Some(self.list(alloc, path.as_ref())?)),
            Ok(Line::Enter(path)) => Ok(Some(self.enter(alloc, &path)?)),
            Ok(Line::Run(words)) => self.run(alloc, &words, route, keeper, runner).map(Some),
            Ok(Line::Status) => Ok(Some(self.status())),
            Ok(Line::Sync) => self.sync(route, link, keeper).map(Some),
            Ok(Line::Pull) => self.pull(route, link, keeper).map(Some),
        }
    }

    /// The acknowledged number, and how many entries are pending.
    pub fn status(&self) -> LineAnswer
        ensures { result ≡ status_answer (state_of self.now) }
    {
        let log = self.client.log();
        LineAnswer::Status {
            acked: log.acked(),
            pending: log.pending(),
        }
    }

    fn put<K: Keeper>(
        &mut self,
        alloc: Global,
        path: &Content,
        text: Content,
        image: &[u8],
        keeper: &mut K,
    ) -> Result<LineAnswer, LineStop>
        requires { IsKeptReady (K.images keeper.old) image.now self.old.client }
        ensures logs { LogsOrRefuses image.now (put_effect self.old.folder path.now text) (state_of self.old) result (state_of self.new)
            (K.images keeper.old)
            (K.images keeper.new) }
        ensures kept { IfOk result (λ answer. IsKeptReady (K.images keeper.new) image.now self.new.client) }
        ensures records { IfOk result (λ answer. KeepsLogged image.now self.old.client self.new.client
            (K.images keeper.old) (K.images keeper.new)) }
        ensures keeper { CountsFault LineStop.Keeper (K.faults keeper.old) (K.faults keeper.new) result }
    {
        let made = put_effect(alloc, &self.folder, path, &text);
        drop(text);
        self.log(made, image, keeper)
    }

    fn make<K: Keeper>(
        &mut self,
        alloc: Global,
        path: &Content,
        image: &[u8],
        keeper: &mut K,
    ) -> Result<LineAnswer, LineStop>
        requires { IsKeptReady (K.images keeper.old) image.now self.old.client }
        ensures logs { LogsOrRefuses image.now (make_effect self.old.folder path.now) (state_of self.old) result (state_of self.new)
            (K.images keeper.old)
            (K.images keeper.new) }
        ensures kept { IfOk result (λ answer. IsKeptReady (K.images keeper.new) image.now self.new.client) }
        ensures records { IfOk result (λ answer. KeepsLogged image.now self.old.client self.new.client
            (K.images keeper.old) (K.images keeper.new)) }
        ensures keeper { CountsFault LineStop.Keeper (K.faults keeper.old) (K.faults keeper.new) result }
    {
        let made = make_effect(alloc, &self.folder, path);
        self.log(made, image, keeper)
    }

    fn remove<K: Keeper>(
        &mut self,
        alloc: Global,
        path: &Content,
        image: &[u8],
        keeper: &mut K,
    ) -> Result<LineAnswer, LineStop>
        requires { IsKeptReady (K.images keeper.old) image.now self.old.client }
        ensures logs { LogsOrRefuses image.now (remove_effect self.old.folder path.now) (state_of self.old) result (state_of self.new)
            (K.images keeper.old)
            (K.images keeper.new) }
        ensures kept { IfOk result (λ answer. IsKeptReady (K.images keeper.new) image.now self.new.client) }
        ensures records { IfOk result (λ answer. KeepsLogged image.now self.old.client self.new.client
            (K.images keeper.old) (K.images keeper.new)) }
        ensures keeper { CountsFault LineStop.Keeper (K.faults keeper.old) (K.faults keeper.new) result }
    {
        let made = remove_effect(alloc, &self.folder, path);
        self.log(made, image, keeper)
    }

    fn relocate<K: Keeper>(
        &mut self,
        alloc: Global,
        from: &Content,
        to: &Content,
        image: &[u8],
        keeper: &mut K,
    ) -> Result<LineAnswer, LineStop>
        requires { IsKeptReady (K.images keeper.old) image.now self.old.client }
        ensures logs { LogsOrRefuses image.now (move_effect self.old.folder from.now to.now) (state_of self.old) result
            (state_of self.new) (K.images keeper.old)
            (K.images keeper.new) }
        ensures kept { IfOk result (λ answer. IsKeptReady (K.images keeper.new) image.now self.new.client) }
        ensures records { IfOk result (λ answer. KeepsLogged image.now self.old.client self.new.client
            (K.images keeper.old) (K.images keeper.new)) }
        ensures keeper { CountsFault LineStop.Keeper (K.faults keeper.old) (K.faults keeper.new) result }
    {
        let made = move_effect(alloc, &self.folder, from, to);
        self.log(made, image, keeper)
    }

    /// Logs an effect that was made of a line's words and keeps the client, or answers why the effect is refused.
    fn log<K: Keeper>(
        &mut self,
        made: Result<Effect, PathError>,
        image: &[u8],
        keeper: &mut K,
    ) -> Result<LineAnswer, LineStop>
        requires { IsKeptReady (K.images keeper.old) image.now self.old.client }
        ensures logs { LogsMade image.now made (state_of self.old) result (state_of self.new) (K.images keeper.old) (K.images keeper.new) }
        ensures kept { IfOk result (λ answer. IsKeptReady (K.images keeper.new) image.now self.new.client) }
        ensures records { IfOk result (λ answer. KeepsLogged image.now self.old.client self.new.client
            (K.images keeper.old) (K.images keeper.new)) }
        ensures keeper { CountsFault LineStop.Keeper (K.faults keeper.old) (K.faults keeper.new) result }
    {
        let effect = match made {
            Ok(effect) => effect,
            Err(refusal) => return word_answer(refusal),
        };
        let seq = match self.client.local(effect) {
            Ok(seq) => seq,
            Err(refusal) => return local_refusal(refusal),
        };
        if let Err(refused) = self.client.keep(image, keeper) {
            return Err(LineStop::from(refused));
        }
        Ok(LineAnswer::Logged { seq })
    }

    fn cat(&self, alloc: Global, path: &Content) -> Result<LineAnswer, AllocError>
        ensures { IfOk result (λ answer. answer ≡ cat_answer (tree_of self.now.client.log) self.now.folder path.now) }
    {
        let tree = self.client.log().tree();
        cat(alloc, tree, &self.folder, path)
    }

    fn list(&self, alloc: Global, path: Option<&Content>) -> Result<LineAnswer, AllocError>
        ensures { IfOk result (λ answer. answer ≡ list_answer (tree_of self.now.client.log) self.now.folder (option_copied path.entry)) }
    {
        let tree = self.client.log().tree();
        list(alloc, tree, &self.folder, path)
    }

    /// Answers `cd`, and makes the folder at which the answer says to be the current one.
    fn enter(&mut self, alloc: Global, path: &Content) -> Result<LineAnswer, AllocError>
        ensures ok { IfOk result (λ answer. answer ≡ enter_answer (tree_of self.old.client.log) self.old.folder path.now) }
        ensures folder { IfOk result (λ answer. state_of self.new ≡ with_folder (state_of self.old)
            (folder_by (enter_answer (tree_of self.old.client.log) self.old.folder path.now) self.old.folder)) }
        ensures err { OnErr result (self.new ≡ self.old) }
        ensures client { self.new.client ≡ self.old.client }
    {
        let tree = self.client.log().tree();
        let answer = enter(alloc, tree, &self.folder, path)?;
        if let LineAnswer::At(entered) = &answer {
            match entered.copy() {
                Ok(folder) => self.folder = folder,
                Err(refused) => {
                    drop(answer);
                    return Err(refused);
                }
            }
        }
        Ok(answer)
    }

    /// Syncs, and answers how it ended.
    fn sync<L: Link, K: Keeper>(
        &mut self,
        route: &Route,
        link: &mut L,
        keeper: &mut K,
    ) -> Result<LineAnswer, LineStop>
        requires { IsKeptReady (K.images keeper.old) route.now.image self.old.client }
        ensures did { (runner : RunnerTelling) → WentDoing route.now
            (LineNoting route.now self.old (Ok Line.Sync) (told result) self.new (K.images keeper.old) (K.images keeper.new))
            (state_of self.old) (state_of self.new) (K.images keeper.old) (K.images keeper.new)
            (beside (L.tells link.old) runner) (beside (L.tells link.new) runner) }
        ensures cause { (runner : RunnerTelling) → HasLineCause route.now (state_of self.old) (Ok Line.Sync) (told result)
            (state_of self.new) (beside (L.tells link.old) runner) (beside (L.tells link.new) runner)
            (K.faults keeper.old) (K.faults keeper.new) }
        ensures kept { IfOk result (λ answer. IsKeptReady (K.images keeper.new) route.now.image self.new.client) }
        ensures later { (L.tells link.old).troubles ≤ (L.tells link.new).troubles }
        ensures keeper { CountsFault LineStop.Keeper (K.faults keeper.old) (K.faults keeper.new) result }
    {
        sync_answer(self.client.sync(route, link, keeper))
    }

    /// Pulls, and answers how it ended.
    fn pull<L: Link, K: Keeper>(
        &mut self,
        route: &Route,
        link: &mut L,
        keeper: &mut K,
    ) -> Result<LineAnswer, LineStop>
        requires { IsKeptReady (K.images keeper.old) route.now.image self.old.client }
        ensures did { (runner : RunnerTelling) → WentDoing route.now
            (LineEnds route.now (state_of self.old) (Ok Line.Pull) (told result) (state_of self.new)) (state_of self.old)
            (state_of self.new) (K.images keeper.old) (K.images keeper.new)
            (beside (L.tells link.old) runner) (beside (L.tells link.new) runner) }
        ensures cause { (runner : RunnerTelling) → HasLineCause route.now (state_of self.old) (Ok Line.Pull) (told result)
            (state_of self.new) (beside (L.tells link.old) runner) (beside (L.tells link.new) runner)
            (K.faults keeper.old) (K.faults keeper.new) }
        ensures kept { IfOk result (λ answer. IsKeptReady (K.images keeper.new) route.now.image self.new.client) }
        ensures records { IfOk result (λ answer. has_pulled (Ok Line.Pull) (Some answer) ≡ false
            → KeepsLogged route.now.image self.old.client self.new.client (K.images keeper.old) (K.images keeper.new)) }
        ensures later { (L.tells link.old).troubles ≤ (L.tells link.new).troubles }
        ensures keeper { CountsFault LineStop.Keeper (K.faults keeper.old) (K.faults keeper.new) result }
    {
        pull_answer(self.client.pull(route, link, keeper))
    }
}

/// How an effect is answered that the log refused.
pub(crate) fn local_refusal(refusal: LogError) -> Result<LineAnswer, LineStop>
    ensures { result ≡ or_memory (local_answer (Err refusal)) }
{
    match refusal {
        LogError::Memory => Err(LineStop::Memory),
        refusal => Ok(LineAnswer::Refused(Fault::Log(refusal))),
    }
}

/// How the refusal of a path word is answered.
fn word_answer(refusal: PathError) -> Result<LineAnswer, LineStop>
    ensures { result ≡ or_memory (word_answer refusal) }
{
    match refusal {
        PathError::Memory => Err(LineStop::Memory),
        refusal => Ok(LineAnswer::Refused(Fault::Path(refusal))),
    }
}

/// How the end of a sync is answered, or what broke it off.
fn sync_answer(end: SyncEnd) -> Result<LineAnswer, LineStop>
    ensures { result ≡ sync_result end }
{
    match end {
        SyncEnd::Synced(seq) => Ok(LineAnswer::Synced(seq)),
        SyncEnd::Stale {
            seq,
            path,
            theirs,
            ours,
        } => Ok(LineAnswer::Stale {
            seq,
            path,
            theirs,
            ours,
        }),
        SyncEnd::Unfit { seq, index, fault } => Ok(LineAnswer::Unfit { seq, index, fault }),
        SyncEnd::Full { seq, index, fault } => Ok(LineAnswer::Full { seq, index, fault }),
        SyncEnd::Unanswered { seq } => Ok(LineAnswer::Unanswered { seq }),
        SyncEnd::Behind { seq, last } => Ok(LineAnswer::Behind { seq, last }),
        SyncEnd::KeepFault => Err(LineStop::Keeper),
        SyncEnd::Memory => Err(LineStop::Memory),
    }
}

/// How the end of a pull is answered, or what broke it off.
fn pull_answer(end: PullEnd) -> Result<LineAnswer, LineStop>
    ensures { result ≡ pull_result end }
{
    match end {
        PullEnd::Pulled(count) => Ok(LineAnswer::Pulled(count)),
        PullEnd::Pending(count) => Ok(LineAnswer::Refused(Fault::Pending(count))),
        PullEnd::OtherLast { last, .. } => Ok(LineAnswer::OtherLast(last)),
        PullEnd::Older { path, theirs, ours } => Ok(LineAnswer::Older { path, theirs, ours }),
        PullEnd::Unanswered => Ok(LineAnswer::PullUnanswered),
        PullEnd::KeepFault => Err(LineStop::Keeper),
        PullEnd::Memory => Err(LineStop::Memory),
    }
}
