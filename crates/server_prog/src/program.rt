// The program: the server over TCP and standard output.
ghost use Rattle.std.specs.Prelude.{◌≡◌, ◌≢◌, ◌↔◌, None, Some, IfOk, IsOk, IsErr, IsTrue, map};
ghost use Rattle.std.specs.String.{string_bytes};
ghost use Rattle.std.specs.Process.{exit_status};
ghost use Rattle.program_words.specs.Pages.{page_asked};
ghost use Rattle.server_prog.specs.Run.{is_exit, is_server_status, objects_of, Ends};
ghost use Rattle.server_prog.specs.Words.{Run, form_of, run_said};

use crate::reading::ReadKeeper;
use crate::reasons::{end_told, tell_missing};
use crate::run::server_run;
use crate::words::{Form, RunWords, form_of};
use crate::wrong_word::tell_wrong_word;
use client_keys::{Keys, KeysError, is_loopback, sealing};
use outside::{Keeper, MemPort, Port, Sink};
use program_words::{
    Pages, Status, checked_words, end_plainly, given_words, hold_places, is_logged, page_shown,
    tell_listening,
};
use real_edge::{FileKeeper, LoggedPort, PeerPort, StdSink, TcpPort, Troubled};
use sealed_frames::Way;
use sealed_port::SealedPort;
use std::alloc::Global;
use std::fs::File;
use std::io;
use std::net::Net;
use std::process::ExitCode;
use std::rt::{Env, Files};
use std::time::Clock;

const HELP: &str = "\
Usage: server run LISTEN IMAGE COUNT
       server root IMAGE
       server prove IMAGE PATH
       server --help | --version

  run     takes what clients ship, keeps it in IMAGE, and answers
  root    writes the root of the files in IMAGE: 64 hexadecimal digits
  prove   writes a certificate of what stands at PATH in them

  LISTEN  the address to listen at, with a port, as 127.0.0.1:7001
  IMAGE   the file that keeps the server; if there is none, the server is new
  COUNT   how many connections are taken before the server ends, 1 to 65536

With HAURPIKO_KEYS=FOLDER in the environment it takes only what is sealed by the
key FOLDER/NUMBER.key of the client NUMBER; haurpiko-key makes keys. Without,
whoever reaches LISTEN can write every file: listen at 127.0.0.1 then. Whoever
sees the link can read every file: nothing is encrypted.
At COUNT the server ends with status 0; start it again on its IMAGE. At its end
it writes 'served K faults F': K requests were taken, F calls of the network
failed. With HAURPIKO_LOG=1 in the environment, standard error has a line for
each request. Statuses other than 0 have their reason there.

For statuses, files and limits: man haurpiko-server
";

const VERSION: &str = "\
server 0.1.0
frames: version 3; images: written: version 2; read: versions 1 and 2
kit: rattle-kit-13f logic dac8208d650f15bf
";

/// What the words may ask for in place of a run.
pub const PAGES: Pages = Pages {
    help: HELP,
    version: VERSION,
};

/// The program's name, as standard error tells it.
pub(crate) const NAME: &str = "server";

/// Runs the server with the words behind the program's name. Words that are no text are of no form.
pub fn server_program<R: Print + Eprint + AllocGlobal + Env + Files<File = File> + Net + Clock>(
    rt: &R,
) -> ExitCode
    ensures { IsTrue (is_exit (exit_status result)) }
{
    match checked_words(given_words(rt)) {
        Ok(words) => server_main(rt, &words),
        Err(status) => end_plainly(rt, NAME, status),
    }
}

/// Runs the server with these words over TCP and standard output, and ends with its status. The places of standard streams that are
/// closed are held before anything is opened.
///
/// `--help` and `--version`, as the only word, are answered on standard output. Standard error says where the server listens, or
/// why it cannot. Where the status is not 0, standard error says so, and why.
pub fn server_main<R: Print + Eprint + AllocGlobal + Env + Files<File = File> + Net + Clock>(
    rt: &R,
    words: &[String],
) -> ExitCode
    ensures form { exit_status result ≡ 2 ↔ (page_asked (map string_bytes words.now) ≡ None)
        × (form_of (map string_bytes words.now) ≡ None) }
    ensures known { IsTrue (is_exit (exit_status result)) }
{
    hold_places(rt);
    let mut output = StdSink::new(io::writer(rt));
    let ended = answer_words(rt, words, &mut output);
    drop(output);
    ended
}

/// Shows the page that the words ask for, or does what their form asks for. Nothing is bound or opened before the words are read.
fn answer_words<
    R: Eprint + AllocGlobal + Env + Files<File = File> + Net + Clock,
    O: Sink + Troubled,
>(rt: &R, words: &[String], output: &mut O) -> ExitCode
    ensures form { exit_status result ≡ 2 ↔ (page_asked (map string_bytes words.now) ≡ None)
        × (form_of (map string_bytes words.now) ≡ None) }
    ensures known { IsTrue (is_exit (exit_status result)) }
{
    if let Some(status) = page_shown(&PAGES, words, output) {
        return end_told(rt, words, status.code(), None, output.trouble());
    }
    match form_of(words) {
        Some(Form::Run(run)) => serve_wished(rt, words, &run, output),
        Some(Form::Root(_) | Form::Prove(_, _)) => read_kept(rt, words, output),
        None => {
            tell_wrong_word(rt, words);
            end_plainly(rt, NAME, Status::NoForm)
        }
    }
}

/// Writes what the words ask of the volume that is kept: over a port without connections, and a keeper that only reads.
fn read_kept<R: Eprint + AllocGlobal + Files<File = File>, O: Sink + Troubled>(
    rt: &R,
    words: &[String],
    output: &mut O,
) -> ExitCode
    ensures form { exit_status result ≡ 2 ↔ form_of (map string_bytes words.now) ≡ None }
    ensures known { IsTrue (is_server_status (exit_status result)) }
{
    let alloc = rt.alloc();
    let mut port = MemPort::new(alloc, Vec::new(alloc), Vec::new(alloc));
    let mut keeper = ReadKeeper::new(alloc, rt);
    let ended = served(rt, alloc, words, &mut port, &mut keeper, output);
    if keeper.is_missing() {
        tell_missing(rt, words);
    }
    drop(keeper);
    drop(port);
    ended
}

/// Runs the server on its words for who has one of the keys that the environment names, where it names some. Where it names what is none,
/// nothing is bound.
fn serve_wished<
    R: Eprint + AllocGlobal + Env + Files<File = File> + Net + Clock,
    O: Sink + Troubled,
>(rt: &R, words: &[String], run: &RunWords<'_>, output: &mut O) -> ExitCode
    requires { form_of (map string_bytes words.now) ≡ Some (Run (run_said run.now)) }
    ensures form { exit_status result ≢ 2 }
    ensures known { IsTrue (is_exit (exit_status result)) }
{
    match Keys::of_all(rt) {
        Ok(keys) => {
            let bound = TcpPort::bind(rt.alloc(), rt, run.address);
            let ended = serve_bound(rt, words, run, sealing(&keys), bound, output);
            drop(keys);
            ended
        }
        Err(refused) => end_unsealed(rt, refused),
    }
}

/// Ends with status 1, and says why there are no keys; or by want of memory.
fn end_unsealed<R: Eprint>(rt: &R, refused: KeysError) -> ExitCode
    ensures form { exit_status result ≢ 2 }
    ensures known { IsTrue (is_exit (exit_status result)) }
{
    if let KeysError::Memory = &refused {
        drop(refused);
        return end_plainly(rt, NAME, Status::NoMemory);
    }
    let _ = eprintln!(rt; "{NAME}: no keys: {refused}");
    drop(refused);
    ExitCode::from(Status::CannotListen.code())
}

/// Runs the server over the port that was bound at the address of its words, for who has one of these keys, where there are some. Where
/// none was bound, it says so, and ends with status 1.
fn serve_bound<
    R: Eprint + AllocGlobal + Env + Files<File = File> + Net + Clock,
    O: Sink + Troubled,
>(
    rt: &R,
    words: &[String],
    run: &RunWords<'_>,
    keys: Option<&[Option<[u8; 32]>]>,
    bound: io::Result<TcpPort<'_, R>>,
    output: &mut O,
) -> ExitCode
    requires said { form_of (map string_bytes words.now) ≡ Some (Run (run_said run.now)) }
    requires there { IfOk bound (λ port. port.address.now ≡ run.now.address.now) }
    ensures refused { IsErr bound.entry → exit_status result ≡ 1 }
    ensures bound { IsOk bound.entry → exit_status result ≢ 1 }
    ensures form { exit_status result ≢ 2 }
    ensures known { IsTrue (is_exit (exit_status result)) }
{
    match bound {
        Ok(port) => {
            tell_listening(rt, NAME, run.address, port.number());
            match keys {
                Some(keys) => serve_sealed(rt, words, run, keys, port, output),
                None => serve_plain(rt, words, run, port, output),
            }
        }
        Err(error) => {
            let address = run.address;
            let _ = eprintln!(rt; "{NAME}: cannot listen at {address}: {error}");
            ExitCode::from(Status::CannotListen.code())
        }
    }
}

/// Runs the server over this port for who has one of these keys.
fn serve_sealed<
    R: Eprint + AllocGlobal + Env + Files<File = File> + Net + Clock,
    O: Sink + Troubled,
>(
    rt: &R,
    words: &[String],
    run: &RunWords<'_>,
    keys: &[Option<[u8; 32]>],
    port: TcpPort<'_, R>,
    output: &mut O,
) -> ExitCode
    requires said { form_of (map string_bytes words.now) ≡ Some (Run (run_said run.now)) }
    ensures bound { exit_status result ≢ 1 }
    ensures form { exit_status result ≢ 2 }
    ensures known { IsTrue (is_exit (exit_status result)) }
{
    let sealed = SealedPort::new(rt.alloc(), keys, Way::ToServer, port);
    let (ended, sealed) = serve_over(rt, words, run, sealed, output);
    sealed.into_port().finish();
    ended
}

/// Runs the server over this port for whoever reaches it. Where that is not this machine alone, it says so.
fn serve_plain<
    R: Eprint + AllocGlobal + Env + Files<File = File> + Net + Clock,
    O: Sink + Troubled,
>(rt: &R, words: &[String], run: &RunWords<'_>, port: TcpPort<'_, R>, output: &mut O) -> ExitCode
    requires said { form_of (map string_bytes words.now) ≡ Some (Run (run_said run.now)) }
    ensures bound { exit_status result ≢ 1 }
    ensures form { exit_status result ≢ 2 }
    ensures known { IsTrue (is_exit (exit_status result)) }
{
    let address = run.address;
    if !is_loopback(address) {
        let _ = eprintln!(rt; "{NAME}: no keys: clients are taken on trust at {address}");
    }
    let (ended, port) = serve_over(rt, words, run, port, output);
    port.finish();
    ended
}

/// Runs the server over this port, which tells its requests where the environment asks for that, and gives the port back.
fn serve_over<
    R: Eprint + AllocGlobal + Env + Files<File = File> + Clock,
    P: PeerPort + Drop,
    O: Sink + Troubled,
>(rt: &R, words: &[String], run: &RunWords<'_>, port: P, output: &mut O) -> (ExitCode, P)
    requires said { form_of (map string_bytes words.now) ≡ Some (Run (run_said run.now)) }
    ensures bound { exit_status result.0 ≢ 1 }
    ensures form { exit_status result.0 ≢ 2 }
    ensures known { IsTrue (is_exit (exit_status result.0)) }
{
    let mut logged = LoggedPort::new(rt, NAME, port, is_logged(rt));
    let mut keeper = FileKeeper::new(rt.alloc(), rt);
    let ended = served(rt, rt.alloc(), words, &mut logged, &mut keeper, output);
    drop(keeper);
    (ended, logged.into_port())
}

/// Runs the server on its words over these objects, and ends the program with the status of the run. Where it is not 0, standard
/// error says why.
pub fn served<R: Eprint, P: Port, K: Keeper + Troubled, O: Sink + Troubled>(
    rt: &R,
    alloc: Global,
    words: &[String],
    port: &mut P,
    keeper: &mut K,
    output: &mut O,
) -> ExitCode
    ensures { let told = objects_of P.Port K.Keeper O.Sink in
        Ends (map string_bytes words.now) (exit_status result) (told port.old keeper.old output.old)
        (told port.new keeper.new output.new) }
{
    let status = server_run(alloc, words, port, keeper, output);
    end_told(rt, words, status, keeper.trouble(), output.trouble())
}
