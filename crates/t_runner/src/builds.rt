//! A build by programs of this machine: a client logs what its runner left, and what another runner leaves in another second
//! is judged to be the client's. What an entry, a job or an outcome is made for ends in the function that made it.

ghost use Rattle.std.specs.Prelude.{IfOk};
ghost use Rattle.cmd_capture.specs.Spelling.{IsCommand};
ghost use Rattle.cmd_capture.specs.Rows.{AreJobRows};
ghost use Rattle.mod_log.specs.Origin.{OriginFits};

use crate::tests::{outcome_of, remove_work};
use cmd_capture::{Command, Job, Outcome, Words, capture};
use mod_log::{Log, Origin, SketchEntry, sketch_entry};
use replay_judge::{Verdict, judge};
use std::alloc::Global;
use std::fs;
use std::test::Fail;
use vol_tree::{Content, Effect, Effects, Node, Path, Tree};
use work_area::{changes, job_of, rows_of};

/// A source whose object has the second in which it was compiled.
const MAIN: &[u8] = b"const char built_at[] = __TIME__;\n\nint part(void);\n\n\
    int main(void) { return part() - built_at[2]; }\n";

/// A source whose object is the same in every second.
const PART: &[u8] = b"int part(void) { return ':'; }\n";

/// Two objects under names that `mktemp` chooses, and a program of both. Whatever runs next runs in another second.
const BUILD: &[u8] = b"a=$(mktemp ccXXXXXX.o) && b=$(mktemp ccXXXXXX.o) && \
    /usr/bin/cc -c -o $a main.c && /usr/bin/cc -c -o $b part.c && \
    /usr/bin/cc -Wl,--build-id=none -o app $a $b && sleep 1";

/// The same of files that no compiler made.
const STAMP: &[u8] = b"a=$(mktemp ccXXXXXX.o) && b=$(mktemp ccXXXXXX.o) && \
    date +%T > $a && cat part.c > $b && cat $a $b > app && sleep 1";

/// What is built.
const BUILT: &[u8] = b"app";

fn put(alloc: Global, tree: &mut Tree, path: &[u8], bytes: &[u8]) -> Result<(), Fail> {
    let effect = Effect::Put(Path::read(alloc, path)?, Content::of(alloc, bytes)?);
    let applied = tree.apply(&effect);
    drop(effect);
    drop(applied?);
    Ok(())
}

/// The two sources.
fn sources(alloc: Global) -> Result<Tree, Fail> {
    let mut tree = Tree::new(alloc);
    put(alloc, &mut tree, b"main.c", MAIN)?;
    put(alloc, &mut tree, b"part.c", PART)?;
    Ok(tree)
}

/// The command that runs the script as the shell in the root, with a template for the objects.
fn command(alloc: Global, script: &[u8]) -> Result<Command, Fail>
    ensures { IfOk result IsCommand }
{
    let mut words = Words::new(alloc);
    for word in [
        b"env=PATH=/usr/bin:/bin".as_slice(),
        b"tmp=cc??????.o".as_slice(),
        b"--".as_slice(),
        b"/bin/sh".as_slice(),
        b"-c".as_slice(),
        script,
    ] {
        words.push(Content::of(alloc, word)?)?;
    }
    let captured = capture(alloc, &words, &Path::root(alloc));
    drop(words);
    Ok(captured?)
}

/// Runs the job by a runner of its own in `work`, where it leaves nothing.
fn ran(rt: &HostRuntime, work: &str, job: &Job) -> Result<Outcome, Fail> {
    let outcome = outcome_of(rt, work, job)?;
    match remove_work(rt, work) {
        Ok(()) => Ok(outcome),
        Err(fail) => {
            drop(outcome);
            Err(fail)
        }
    }
}

/// What the run changed.
fn changed(alloc: Global, job: &Job, outcome: &Outcome) -> Result<Effects, Fail>
    requires { AreJobRows job.now.rows }
{
    let rows = rows_of(alloc, &outcome.rows)?;
    let effects = changes(alloc, job.rows(), &rows);
    drop(rows);
    Ok(effects?)
}

/// Logs effects that a command made.
fn append(log: &mut Log, origin: Origin, effects: Effects) -> Result<(), Fail>
    requires { OriginFits origin }
{
    if effects.is_empty() {
        drop(origin);
        return Err(Fail::from("no effect"));
    }
    let _ = log.append(Some(origin), effects)?;
    Ok(())
}

/// What made the client's entry of the run, and its effects.
fn made(
    alloc: Global,
    command: Command,
    job: &Job,
    outcome: &Outcome,
) -> Result<(Origin, Effects), Fail>
    requires command { IsCommand command }
    requires rows { AreJobRows job.now.rows }
    ensures { IfOk result (λ x. OriginFits x.0) }
{
    let effects = match changed(alloc, job, outcome) {
        Ok(effects) => effects,
        Err(error) => {
            drop(command);
            return Err(error);
        }
    };
    Ok((Origin::new(command, job.print(), outcome.status), effects))
}

/// The client's log of the tree behind the run.
fn logged(
    alloc: Global,
    tree: Tree,
    command: Command,
    job: &Job,
    outcome: &Outcome,
) -> Result<Log, Fail>
    requires command { IsCommand command }
    requires rows { AreJobRows job.now.rows }
{
    match made(alloc, command, job, outcome) {
        Ok((origin, effects)) => {
            let mut log = Log::new(0, tree);
            append(&mut log, origin, effects)?;
            Ok(log)
        }
        Err(error) => {
            drop(tree);
            Err(error)
        }
    }
}

/// The entry with sketches in its contents' places.
#[tactic(auto, using(mod_log::proofs::Sketches::short_contents))]
fn sketched(alloc: Global, log: &Log) -> Result<SketchEntry, Fail> {
    match log.entry(0) {
        Some(entry) if entry.origin.is_some() => Ok(sketch_entry(alloc, entry)?),
        _ => Err(Fail::from("no origin")),
    }
}

/// Whether they are the same, byte for byte.
fn are_same(one: &Effect, other: &Effect) -> bool {
    match (one, other) {
        (Effect::Put(at, bytes), Effect::Put(there, others)) => at == there && bytes == others,
        (Effect::Make(at), Effect::Make(there)) | (Effect::Remove(at), Effect::Remove(there)) => {
            at == there
        }
        (Effect::Mode(at, exec), Effect::Mode(there, other)) => at == there && exec == other,
        _ => false,
    }
}

/// Whether the effects are those of the log's entry, each in its place.
fn are_logged(log: &Log, effects: &[Effect]) -> bool {
    match log.entry(0) {
        Some(entry) => {
            let own = entry.effects.as_slice();
            own.len() == effects.len()
                && own
                    .iter()
                    .zip(effects)
                    .all(|(one, other)| are_same(one, other))
        }
        None => false,
    }
}

/// Whether the outcome is judged to have the effects of the log's entry.
fn is_agreed(alloc: Global, log: &Log, job: &Job, outcome: &Outcome) -> Result<bool, Fail>
    requires { AreJobRows job.now.rows }
{
    let entry = sketched(alloc, log)?;
    let verdict = judge(alloc, &entry, job, outcome);
    drop(entry);
    let verdict = verdict?;
    let agreed = match &verdict {
        Verdict::Agree(effects) => are_logged(log, effects.as_slice()),
        Verdict::Status { .. } | Verdict::OddTree(_) | Verdict::Mismatch(_) => false,
    };
    drop(verdict);
    Ok(agreed)
}

/// The bytes of what was built.
fn built(outcome: &Outcome) -> Result<&[u8], Fail> {
    for row in outcome.rows.as_slice() {
        if let Node::File { content, .. } = &row.node {
            if row.path.bytes() == BUILT {
                return Ok(content.bytes());
            }
        }
    }
    Err(Fail::from("nothing was built"))
}

/// Whether the outcome is of other bytes than the client's own, and whether they are agreed to be the client's all the same.
fn seen(
    alloc: Global,
    log: &Log,
    job: &Job,
    own: &Outcome,
    outcome: &Outcome,
) -> Result<(bool, bool), Fail>
    requires { AreJobRows job.now.rows }
{
    let is_other = built(own)? != built(outcome)?;
    Ok((is_other, is_agreed(alloc, log, job, outcome)?))
}

/// The same of what another runner builds.
fn built_again(
    rt: &HostRuntime,
    work: &str,
    log: &Log,
    job: &Job,
    own: &Outcome,
) -> Result<(bool, bool), Fail>
    requires { AreJobRows job.now.rows }
{
    let outcome = ran(rt, work, job)?;
    let seen = seen(rt.alloc(), log, job, own, &outcome);
    drop(outcome);
    seen
}

/// The same of the job of the command on the tree, which the client runs first.
fn built_first(
    rt: &HostRuntime,
    works: (&str, &str),
    tree: Tree,
    command: Command,
    job: &Job,
) -> Result<(bool, bool), Fail>
    requires command { IsCommand command }
    requires rows { AreJobRows job.now.rows }
{
    let own = match ran(rt, works.0, job) {
        Ok(own) => own,
        Err(error) => {
            drop(tree);
            drop(command);
            return Err(error);
        }
    };
    let seen = match logged(rt.alloc(), tree, command, job, &own) {
        Ok(log) => {
            let seen = built_again(rt, works.1, &log, job, &own);
            drop(log);
            seen
        }
        Err(error) => Err(error),
    };
    drop(own);
    seen
}

/// The same of the script on the sources.
fn built_twice(rt: &HostRuntime, works: (&str, &str), script: &[u8]) -> Result<(bool, bool), Fail> {
    let command = command(rt.alloc(), script)?;
    let tree = match sources(rt.alloc()) {
        Ok(tree) => tree,
        Err(error) => {
            drop(command);
            return Err(error);
        }
    };
    match job_of(rt.alloc(), &tree, &command) {
        Ok(job) => {
            let seen = built_first(rt, works, tree, command, &job);
            drop(job);
            seen
        }
        Err(refused) => {
            drop(tree);
            drop(command);
            Err(Fail::from(refused))
        }
    }
}

/// By the compiler, where the machine has one.
#[test]
fn a_build_of_another_second_is_the_client_s(rt: HostRuntime) -> Result<(), Fail> {
    let script = if fs::exists(&rt, "/usr/bin/cc")? {
        BUILD
    } else {
        STAMP
    };
    let works = ("work_build_one", "work_build_two");
    assert!(rt; built_twice(&rt, works, script)? == (true, true));
    Ok(())
}

#[test]
fn a_stamp_of_another_second_is_the_client_s(rt: HostRuntime) -> Result<(), Fail> {
    let works = ("work_stamp_one", "work_stamp_two");
    assert!(rt; built_twice(&rt, works, STAMP)? == (true, true));
    Ok(())
}
