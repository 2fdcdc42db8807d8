// A run of the client: what its words ask for.
ghost use Rattle.std.specs.Prelude.{◌≡◌, ◌≤◌, Ok, IfOk, map};
ghost use Rattle.std.specs.Option.{option_copied};
ghost use Rattle.std.specs.String.{string_bytes};
ghost use Rattle.wire_frames.specs.Limits.{max_client};
ghost use Rattle.file_paths.specs.Path.{FilePath, path_of};
ghost use Rattle.client_lines.specs.Ending.{SessionEnds};
ghost use Rattle.client_lines.specs.Telling.{around_of, faults_of};
ghost use Rattle.client_proof.specs.Ending.{stream_faults_of, CheckEnds};
ghost use Rattle.client_prog.specs.Words.{route_of};
ghost use Rattle.client_prog.specs.Ending.{ClientEnds};
ghost use Rattle.client_prog.specs.Inside.{run_said};

use crate::words::{CheckWords, Form, RunWords, form_of};
use client_core::Route;
use client_drill::drill;
use client_lines::session_run;
use client_proof::check_run;
use client_shelf::shelve;
use cmd_capture::Runner;
use outside::{Keeper, Sink, Source};
use program_words::Status;
use std::alloc::{AllocError, Global};
use vol_tree::{Content, Path};
use world_rules::Link;

/// Where the client's image, peers and commands are, by the words of a run.
fn route_of(alloc: Global, words: &RunWords<'_>) -> Result<Route, AllocError>
    ensures { IfOk result (λ route. route ≡ route_of (run_said words.now)) }
{
    Ok(Route {
        image: Content::of(alloc, words.image)?,
        server: Content::of(alloc, words.server)?,
        surrogate: address(alloc, words.surrogate)?,
        work: Content::of(alloc, words.work)?,
    })
}

/// An address, where there is one.
fn address(alloc: Global, word: Option<&[u8]>) -> Result<Option<Content>, AllocError>
    ensures { IfOk result (λ address. address ≡ option_copied word.entry) }
{
    match word {
        Some(address) => Ok(Some(Content::of(alloc, address)?)),
        None => Ok(None),
    }
}

/// Runs the session that the words of a run ask for.
fn run_words_session<I: Source, O: Sink, K: Keeper, R: Runner, L: Link>(
    alloc: Global,
    words: &RunWords<'_>,
    input: &mut I,
    output: &mut O,
    keeper: &mut K,
    runner: &mut R,
    link: &mut L,
) -> u8
    requires low { 1 ≤ words.now.client }
    requires high { words.now.client ≤ max_client }
    ensures { let around = around_of I.Source O.Sink K.Keeper R.Runner L.Link in
        let faults = faults_of I.Source O.Sink K.Keeper in
        SessionEnds words.now.client (route_of (run_said words.now)) result
        (around input.old output.old keeper.old runner.old link.old) (around input.new output.new keeper.new runner.new link.new)
        (faults input.old output.old keeper.old) (faults input.new output.new keeper.new) }
{
    match route_of(alloc, words) {
        Ok(route) => {
            let number = words.client;
            let status = session_run(alloc, number, &route, input, output, keeper, runner, link);
            drop(route);
            status
        }
        Err(_refused) => Status::NoMemory.code(),
    }
}

/// Checks the certificate that the input holds against the root of the words, for their path.
fn check_by_words<I: Source, O: Sink>(
    alloc: Global,
    words: &CheckWords<'_>,
    input: &mut I,
    output: &mut O,
) -> u8
    ensures { let faults = stream_faults_of I.Source O.Sink in (path : FilePath) → path_of words.now.path.now ≡ Ok path
        → CheckEnds words.now.root path result (I.left input.old) (I.left input.new) (O.written output.old) (O.written output.new)
        (faults input.old output.old) (faults input.new output.new) }
{
    match Path::read(alloc, words.path) {
        Ok(path) => {
            let status = check_run(alloc, &words.root, &path, input, output);
            drop(path);
            status
        }
        Err(_refused) => Status::NoMemory.code(),
    }
}

/// Runs the client on its words: what their form asks for, which is read before anything is opened. Status 2: the words are of no form,
/// and nothing was touched. The others are those of the session.
pub fn client_run<I: Source, O: Sink, K: Keeper, R: Runner, L: Link>(
    alloc: Global,
    words: &[String],
    input: &mut I,
    output: &mut O,
    keeper: &mut K,
    runner: &mut R,
    link: &mut L,
) -> u8
    ensures { let around = around_of I.Source O.Sink K.Keeper R.Runner L.Link in
        let faults = faults_of I.Source O.Sink K.Keeper in
        ClientEnds (map string_bytes words.now) result
        (around input.old output.old keeper.old runner.old link.old) (around input.new output.new keeper.new runner.new link.new)
        (faults input.old output.old keeper.old) (faults input.new output.new keeper.new) }
{
    match form_of(words) {
        Some(Form::Run(run)) => {
            run_words_session(alloc, &run, input, output, keeper, runner, link)
        }
        Some(Form::Drill(words)) => drill(alloc, words.seed, words.count, output),
        Some(Form::Shelve(asked)) => shelve(alloc, &asked, output, keeper, link),
        Some(Form::Check(words)) => check_by_words(alloc, &words, input, output),
        None => Status::NoForm.code(),
    }
}
