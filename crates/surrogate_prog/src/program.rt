// The program: the surrogate over TCP, with commands as programs of this machine.
ghost use Rattle.std.specs.Prelude.{◌≡◌, ◌≢◌, ◌↔◌, None, Some, IfOk, IsOk, IsErr, IsTrue, map};
ghost use Rattle.std.specs.String.{string_bytes};
ghost use Rattle.std.specs.Process.{exit_status};
ghost use Rattle.program_words.specs.Pages.{page_asked};
ghost use Rattle.surrogate_prog.specs.Run.{is_surrogate_exit, surrogate_objects_of, SurrogateEnds};
ghost use Rattle.surrogate_prog.specs.Words.{Run, form_of, run_said};

use crate::reasons::end_told;
use crate::run::surrogate_run;
use crate::wishing::{Wishes, end_unwished};
use crate::words::{Form, RunWords, form_of};
use crate::wrong_word::tell_wrong_word;
use child_runner::ChildRunner;
use client_keys::sealing;
use cmd_capture::Runner;
use outside::{Port, Sink};
use program_words::{
    Pages, Status, checked_words, end_plainly, given_words, hold_places, is_logged, page_shown,
    tell_listening,
};
use real_edge::{LoggedPort, PeerPort, StdSink, TcpLink, TcpPort, Troubled, tell_addresses};
use sealed_frames::Way;
use sealed_port::SealedPort;
use std::alloc::Global;
use std::fs::File;
use std::net::Net;
use std::process::{ExitCode, Processes};
use std::rt::{Env, Files};
use std::time::{Clock, Duration};
use std::{io, mem};
use world_rules::Link;

const HELP: &str = "\
Usage: surrogate run LISTEN SERVER WORK COUNT
       surrogate --help | --version

  run     runs clients' commands again, on the files of the server; what agrees
          with a client's fingerprints, the server is asked to take

  LISTEN  the address to listen at, with a port, as 127.0.0.1:7002
  SERVER  the server's address with a port
  WORK    the folder in which commands run: the same text as the clients'
  COUNT   how many connections are taken before it ends, 1 to 65536

Clients run programs with the rights of this program: use a user of its own.
With HAURPIKO_KEYS=FOLDER in the environment, clients are those whose messages
are sealed by the key FOLDER/NUMBER.key; haurpiko-key makes keys. Without, they
are whoever reaches LISTEN: a literal of 127.0.0.0/8 or [::1], or, with
HAURPIKO_OPEN=1, any address.
At its start it says on standard error how far programs run apart. Unless they
do, they can reach SERVER, and write there under every client's number.
With HAURPIKO_APART=0 in the environment they do not; HAURPIKO_SHOW=/a:/b names
folders that such programs may read all the same.
Commands run one after the other, for at most 500 seconds each. Nothing is kept:
a surrogate that starts again asks the server for its files. At its end it
writes 'served K faults F': K requests were taken, F calls of the network
failed. With HAURPIKO_LOG=1, standard error has a line for each request, with
time and peer. Statuses other than 0 have their reason there.

For statuses and files: man haurpiko-surrogate
";

const VERSION: &str = "\
surrogate 0.1.0
frames: version 3
kit: rattle-kit-13f logic dac8208d650f15bf
";

/// What the words may ask for in place of a run.
pub const PAGES: Pages = Pages {
    help: HELP,
    version: VERSION,
};

/// How many seconds a command may run, less one for each 1,000,000 bytes of its job. A client waits 600 seconds for the first byte of
/// its answer. What remains is for pulling the server's files, for judging and for asking the server, none of which has a limit as a
/// whole: where all of that takes longer, the client takes the surrogate for silent.
const COMMAND_SECONDS: u64 = 500;

/// The program's name, as standard error tells it.
pub(crate) const NAME: &str = "surrogate";

/// Runs the surrogate with the words behind the program's name. Words that are no text are of no form.
pub fn surrogate_program<
    R: Print + Eprint + AllocGlobal + Env + Files<File = File> + Net + Clock + Processes,
>(rt: &R) -> ExitCode
    ensures { IsTrue (is_surrogate_exit (exit_status result)) }
{
    match checked_words(given_words(rt)) {
        Ok(words) => surrogate_main(rt, &words),
        Err(status) => end_plainly(rt, NAME, status),
    }
}

/// Runs the surrogate with these words over TCP and standard output, and ends with its status. The places of standard streams that
/// are closed are held before anything is opened, and what a surrogate left in the work folder that was killed is removed first.
///
/// `--help` and `--version`, as the only word, are answered on standard output. Standard error says where the surrogate listens, or
/// why it cannot. Where the status is not 0, standard error says so, and why.
pub fn surrogate_main<
    R: Print + Eprint + AllocGlobal + Env + Files<File = File> + Net + Clock + Processes,
>(rt: &R, words: &[String]) -> ExitCode
    ensures form { exit_status result ≡ 2 ↔ (page_asked (map string_bytes words.now) ≡ None)
        × (form_of (map string_bytes words.now) ≡ None) }
    ensures known { IsTrue (is_surrogate_exit (exit_status result)) }
{
    hold_places(rt);
    let mut output = StdSink::new(io::writer(rt));
    let ended = answer_words(rt, words, &mut output);
    drop(output);
    ended
}

/// Shows the page that the words ask for, or does what their form asks for. Nothing is bound or opened before the words are read.
fn answer_words<
    R: Eprint + AllocGlobal + Env + Files<File = File> + Net + Clock + Processes,
    O: Sink + Troubled,
>(rt: &R, words: &[String], output: &mut O) -> ExitCode
    ensures form { exit_status result ≡ 2 ↔ (page_asked (map string_bytes words.now) ≡ None)
        × (form_of (map string_bytes words.now) ≡ None) }
    ensures known { IsTrue (is_surrogate_exit (exit_status result)) }
{
    if let Some(status) = page_shown(&PAGES, words, output) {
        return end_told(rt, status.code(), output.trouble());
    }
    match form_of(words) {
        Some(Form::Run(run)) => match Wishes::read(rt, run.address) {
            Ok(mut wishes) => {
                let bound = TcpPort::bind(rt.alloc(), rt, run.address);
                let ended = serve_bound(rt, words, &run, &mut wishes, bound, output);
                drop(wishes);
                ended
            }
            Err(refused) => end_unwished(rt, refused),
        },
        None => {
            tell_wrong_word(rt, words);
            end_plainly(rt, NAME, Status::NoForm)
        }
    }
}

/// Runs the surrogate over the port that was bound at the address of its words. Where none was, it says so, and ends with status 1.
fn serve_bound<
    R: Eprint + AllocGlobal + Env + Files<File = File> + Net + Clock + Processes,
    O: Sink + Troubled,
>(
    rt: &R,
    words: &[String],
    run: &RunWords<'_>,
    wishes: &mut Wishes,
    bound: io::Result<TcpPort<'_, R>>,
    output: &mut O,
) -> ExitCode
    requires said { form_of (map string_bytes words.now) ≡ Some (Run (run_said run.now)) }
    requires there { IfOk bound (λ port. port.address.now ≡ run.now.address.now) }
    ensures refused { IsErr bound.entry → exit_status result ≡ 1 }
    ensures bound { IsOk bound.entry → exit_status result ≢ 1 }
    ensures form { exit_status result ≢ 2 }
    ensures known { IsTrue (is_surrogate_exit (exit_status result)) }
{
    match bound {
        Ok(port) => {
            tell_listening(rt, NAME, run.address, port.number());
            serve_wished(rt, words, run, wishes, port, output)
        }
        Err(error) => {
            let address = run.address;
            let _ = eprintln!(rt; "{NAME}: cannot listen at {address}: {error}");
            ExitCode::from(Status::CannotListen.code())
        }
    }
}

/// Runs the surrogate over this port: for who has one of the keys, where there are some.
fn serve_wished<
    R: Eprint + AllocGlobal + Env + Files<File = File> + Net + Clock + Processes,
    O: Sink + Troubled,
>(
    rt: &R,
    words: &[String],
    run: &RunWords<'_>,
    wishes: &mut Wishes,
    port: TcpPort<'_, R>,
    output: &mut O,
) -> ExitCode
    requires said { form_of (map string_bytes words.now) ≡ Some (Run (run_said run.now)) }
    ensures bound { exit_status result ≢ 1 }
    ensures form { exit_status result ≢ 2 }
    ensures known { IsTrue (is_surrogate_exit (exit_status result)) }
{
    let hidden = mem::replace(&mut wishes.hidden, Vec::new(rt.alloc()));
    match sealing(&wishes.keys) {
        Some(keys) => {
            let sealed = SealedPort::new(rt.alloc(), keys, Way::ToSurrogate, port);
            let (ended, sealed) = serve_over(rt, words, run, wishes, hidden, sealed, output);
            sealed.into_port().finish();
            ended
        }
        None => {
            let (ended, port) = serve_over(rt, words, run, wishes, hidden, port, output);
            port.finish();
            ended
        }
    }
}

/// Runs the surrogate over this port, which tells its requests where the environment asks for that, and gives the port back. What runs
/// left in the work folder that were cut off is removed first. How far programs are kept apart is told then; the hidden files are empty for
/// them.
fn serve_over<
    R: Eprint + AllocGlobal + Env + Files<File = File> + Net + Clock + Processes,
    P: PeerPort + Drop,
    O: Sink + Troubled,
>(
    rt: &R,
    words: &[String],
    run: &RunWords<'_>,
    wishes: &Wishes,
    hidden: Vec<String>,
    port: P,
    output: &mut O,
) -> (ExitCode, P)
    requires said { form_of (map string_bytes words.now) ≡ Some (Run (run_said run.now)) }
    ensures bound { exit_status result.0 ≢ 1 }
    ensures form { exit_status result.0 ≢ 2 }
    ensures known { IsTrue (is_surrogate_exit (exit_status result.0)) }
{
    let mut logged = LoggedPort::new(rt, NAME, port, is_logged(rt));
    tell_addresses(rt, NAME, "SERVER", run.server.as_bytes());
    let mut link = TcpLink::new(rt.alloc(), rt).sealed(sealing(&wishes.keys));
    let mut runner = ChildRunner::at_surrogate(rt, NAME, Duration::from_secs(COMMAND_SECONDS));
    let _cleared = runner.clear(run.work.as_bytes());
    runner.keep_apart(run.work.as_bytes(), &wishes.apart, hidden);
    let ended = served(
        rt,
        rt.alloc(),
        words,
        &mut logged,
        &mut link,
        &mut runner,
        output,
    );
    drop(runner);
    (ended, logged.into_port())
}

/// Runs the surrogate on its words over these objects, and ends the program with the status of the run. Where it is not 0, standard
/// error says why.
pub fn served<E: Eprint, P: Port, L: Link, R: Runner, O: Sink + Troubled>(
    rt: &E,
    alloc: Global,
    words: &[String],
    port: &mut P,
    link: &mut L,
    runner: &mut R,
    output: &mut O,
) -> ExitCode
    ensures { let told = surrogate_objects_of P.Port R.Runner L.Link O.Sink in
        SurrogateEnds (map string_bytes words.now) (exit_status result) (told port.old runner.old link.old output.old)
        (told port.new runner.new link.new output.new) }
{
    let status = surrogate_run(alloc, words, port, link, runner, output);
    end_told(rt, status, output.trouble())
}
