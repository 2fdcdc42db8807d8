// The program: the client over the standard streams and TCP.
ghost use Rattle.std.specs.Prelude.{◌≡◌, ◌↔◌, None, IsTrue, map};
ghost use Rattle.std.specs.String.{string_bytes};
ghost use Rattle.std.specs.Process.{exit_status};
ghost use Rattle.program_words.specs.Pages.{page_asked};
ghost use Rattle.client_prog.specs.Words.{form_of};
ghost use Rattle.client_prog.specs.Ending.{is_status, is_exit};

use crate::reasons::{Failures, end_shown, end_told};
use crate::run::client_run;
use crate::untold::UntoldReader;
use crate::wishing::{Wishes, end_unwished, prepare_work};
use crate::words::{Form, form_of};
use child_runner::ChildRunner;
use client_keys::sealing;
use cmd_capture::Runner;
use outside::{Sink, Source};
use program_words::{Pages, checked_words, end_plainly, given_words, hold_places, page_shown};
use real_edge::{
    ClientTeller, FileKeeper, LineProgram, Noting, Prompting, StdSink, StdSource, SteadyRead,
    TcpLink, Terminals, Troubled, tell_addresses,
};
use std::cell::Cell;
use std::fs::File;
use std::net::Net;
use std::process::{ExitCode, Processes};
use std::rt::{Env, Files};
use std::time::Clock;
use surrogate_pool::Pool;
use world_rules::Link;

const HELP: &str = "\
Usage: client run NUMBER IMAGE SERVER SURROGATE WORK
       client shelve NUMBER IMAGE NEW NEWIMAGE SERVER FOLDER
       client check ROOT PATH
       client drill SEED COUNT
       client --help | --version

  run        answers lines from standard input; IMAGE keeps what they change
  shelve     sets aside what client NUMBER cannot sync, as files of client NEW
  check      checks a certificate on standard input against ROOT
  drill      makes a run of COUNT steps, from SEED, over a bad network in memory

  NUMBER     1 to 64. It goes with one IMAGE for ever: used with another, it
             loses changes without a word. Ask 'pull' first
  IMAGE      the file that keeps the client; if there is none, the client is new
  SERVER     the server's address with a port, as 127.0.0.1:7001
  SURROGATE  a surrogate's address, or up to eight joined by ',', or - for none
  WORK       the folder in which programs run: the same text as the surrogate's

Lines of 'run':
  put PATH TEXT     writes TEXT and a line end to the file PATH
  mkdir PATH        makes a folder
  rm PATH           removes a file or an empty folder
  mv FROM TO        moves a file
  cat PATH          shows a file: its length, and then its bytes
  ls [PATH]         lists a folder
  cd PATH           makes a folder the current one
  run [OPTION ..] -- PROGRAM [ARG ..]
                    runs a program on a copy of the current folder and logs what
                    it changed. OPTION: in=PATH, env=KEY=VALUE or tmp=TEMPLATE
  status            tells how much the server has, and how much waits
  sync              sends what waits
  pull              takes all files of the server, if nothing waits
  quit              ends the session

One space stands between words; a word with spaces stands between quotes: 'a b'.
A surrogate runs a program again, with what it does outside its folder: give -
as SURROGATE where that does harm. With HAURPIKO_APART=1 in the environment
programs run apart; HAURPIKO_SHOW=/a:/b names folders that they may read then.
With HAURPIKO_KEY=FILE each message is sealed by the key in FILE, which the
server and the surrogate have too; haurpiko-key makes one.
Refused lines are answers too, and the status is 0. Other statuses have their
reason on standard error.

For answers, statuses and files: man haurpiko-client
";

const VERSION: &str = "\
client 0.1.0
frames: version 3; images: written: version 2; read: versions 1 and 2
kit: rattle-kit-13f logic dac8208d650f15bf
";

/// What the words may ask for in place of a run.
const PAGES: Pages = Pages {
    help: HELP,
    version: VERSION,
};

/// The program's name, as standard error tells it.
pub(crate) const NAME: &str = "client";

/// What its lines begin with.
const LINES: LineProgram = LineProgram {
    program: NAME,
    words: &[
        "put", "mkdir", "rm", "mv", "cat", "ls", "cd", "run", "status", "sync", "pull", "quit",
    ],
    shows: "cat",
};

/// Runs the client with the words behind the program's name, whose streams are these terminals. Words that are no text are of no
/// form.
pub fn client_program<
    R: Input + Print + Eprint + AllocGlobal + Env + Files<File = File> + Processes + Net + Clock,
>(rt: &R, terminals: Terminals) -> ExitCode
    ensures { IsTrue (is_exit (exit_status result)) }
{
    match checked_words(given_words(rt)) {
        Ok(words) => client_main(rt, terminals, &words),
        Err(status) => end_plainly(rt, NAME, status),
    }
}

/// Runs the client with these words over the standard streams, and ends with its status. The places of standard streams that are
/// closed are held before anything is opened. Where its streams are terminals, standard error shows a prompt, and how an ask goes on
/// that takes long.
///
/// `--help` and `--version`, as the only word, are answered on standard output. Where the status is not 0, standard
/// error says so, and why.
pub fn client_main<
    R: Input + Print + Eprint + AllocGlobal + Env + Files<File = File> + Processes + Net + Clock,
>(rt: &R, terminals: Terminals, words: &[String]) -> ExitCode
    ensures form { exit_status result ≡ 2 ↔ (page_asked (map string_bytes words.now) ≡ None)
        × (form_of (map string_bytes words.now) ≡ None) }
    ensures known { IsTrue (is_exit (exit_status result)) }
{
    hold_places(rt);
    let steered = Cell::new(false);
    let mut output = StdSink::new(Noting::new(rt, &steered));
    let ended = answer_words(rt, terminals, &steered, words, &mut output);
    drop(output);
    ended
}

/// Shows the page that the words ask for, or runs the client on them.
fn answer_words<
    R: Input + Eprint + AllocGlobal + Env + Files<File = File> + Processes + Net + Clock,
    O: Sink + Troubled,
>(rt: &R, terminals: Terminals, steered: &Cell<bool>, words: &[String], output: &mut O) -> ExitCode
    ensures form { exit_status result ≡ 2 ↔ (page_asked (map string_bytes words.now) ≡ None)
        × (form_of (map string_bytes words.now) ≡ None) }
    ensures known { IsTrue (is_exit (exit_status result)) }
{
    match page_shown(&PAGES, words, output) {
        Some(status) => end_shown(rt, status, output),
        None => run_wished(rt, terminals, steered, words, output),
    }
}

/// Runs the client on its words as its environment wishes. Where that says nothing that can be followed, it ends with status 1 before
/// it touches anything, and says why. Words of no form have no wish.
fn run_wished<
    R: Input + Eprint + AllocGlobal + Env + Files<File = File> + Processes + Net + Clock,
    O: Sink + Troubled,
>(rt: &R, terminals: Terminals, steered: &Cell<bool>, words: &[String], output: &mut O) -> ExitCode
    ensures form { exit_status result ≡ 2 ↔ form_of (map string_bytes words.now) ≡ None }
    ensures known { IsTrue (is_exit (exit_status result)) }
{
    if form_of(words).is_none() {
        let mut none = Wishes::none(rt.alloc());
        let ended = run_client(rt, terminals, steered, words, &mut none, output);
        drop(none);
        return ended;
    }
    match Wishes::read(rt, words) {
        Ok(mut wishes) => {
            let ended = run_client(rt, terminals, steered, words, &mut wishes, output);
            drop(wishes);
            ended
        }
        Err(refused) => end_unwished(rt, refused),
    }
}

/// Runs the client on its words over standard input, files, programs and TCP, and ends the program with the status of the run. What
/// runs of programs that were killed left in the work folder is removed first. The cell tells whether what is shown steers a terminal.
fn run_client<
    R: Input + Eprint + AllocGlobal + Files<File = File> + Processes + Net + Clock,
    O: Sink + Troubled,
>(
    rt: &R,
    terminals: Terminals,
    steered: &Cell<bool>,
    words: &[String],
    wishes: &mut Wishes,
    output: &mut O,
) -> ExitCode
    ensures form { exit_status result ≡ 2 ↔ form_of (map string_bytes words.now) ≡ None }
    ensures known { IsTrue (is_status (exit_status result)) }
{
    let typed = Prompting::new(
        rt.alloc(),
        rt,
        LINES,
        rt.reader(),
        terminals.is_typed,
        steered,
    );
    run_over(
        rt,
        terminals,
        words,
        wishes,
        UntoldReader::new(typed),
        output,
    )
}

/// The same over what this reader gives.
fn run_over<
    R: Eprint + AllocGlobal + Files<File = File> + Processes + Net + Clock,
    I: SteadyRead + Drop,
    O: Sink + Troubled,
>(
    rt: &R,
    terminals: Terminals,
    words: &[String],
    wishes: &mut Wishes,
    reader: I,
    output: &mut O,
) -> ExitCode
    ensures form { exit_status result ≡ 2 ↔ form_of (map string_bytes words.now) ≡ None }
    ensures known { IsTrue (is_status (exit_status result)) }
{
    let mut input = StdSource::new(reader);
    tell_odd_addresses(rt, words);
    let mut runner = ChildRunner::at_client(rt, NAME);
    prepare_work(rt.alloc(), &mut runner, words, wishes);
    let sealed = link_over(rt, terminals).sealed(sealing(&wishes.keys));
    let mut link = Pool::new(rt.alloc(), sealed);
    let ended = answered(rt, words, &mut input, output, &mut runner, &mut link);
    drop(link);
    drop(runner);
    drop(input);
    ended
}

/// A link that tells of its asks on standard error.
fn link_over<'a, R: Eprint + AllocGlobal + Net + Clock>(
    rt: &'a R,
    terminals: Terminals,
) -> TcpLink<'a, R, ClientTeller<'a, R>> {
    let teller = ClientTeller::new(rt, NAME, terminals.is_shown);
    TcpLink::telling(rt.alloc(), rt, teller)
}

/// Runs the client on its words over these objects and files, and ends the program with the status of the run, and why.
fn answered<
    R: Eprint + AllocGlobal + Files<File = File>,
    I: Source + Troubled,
    O: Sink + Troubled,
    J: Runner,
    L: Link,
>(rt: &R, words: &[String], input: &mut I, output: &mut O, runner: &mut J, link: &mut L) -> ExitCode
    ensures form { exit_status result ≡ 2 ↔ form_of (map string_bytes words.now) ≡ None }
    ensures known { IsTrue (is_status (exit_status result)) }
{
    let mut keeper = FileKeeper::new(rt.alloc(), rt);
    let status = client_run(rt.alloc(), words, input, output, &mut keeper, runner, link);
    let failures = Failures {
        input: input.trouble(),
        output: output.trouble(),
        keeper: keeper.trouble(),
    };
    let ended = end_told(rt, words, status, &failures);
    drop(keeper);
    ended
}

/// Tells which addresses of these words have no form of one.
fn tell_odd_addresses<R: Eprint>(rt: &R, words: &[String]) {
    match form_of(words) {
        Some(Form::Run(run)) => {
            tell_addresses(rt, NAME, "SERVER", run.server);
            if let Some(surrogates) = run.surrogate {
                tell_addresses(rt, NAME, "SURROGATE", surrogates);
            }
        }
        Some(Form::Shelve(asked)) => tell_addresses(rt, NAME, "SERVER", asked.server),
        Some(Form::Drill(_) | Form::Check(_)) | None => {}
    }
}
