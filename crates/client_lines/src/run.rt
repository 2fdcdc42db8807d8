// A client's session over an input.
ghost use Rattle.std.specs.Prelude.{◌≡◌, ◌≢◌, ◌≤◌, ◌∷◌, ℕ, [], false, Ok, Err, IfOk, OnOk, OnErr, IsTrue, take};
ghost use Rattle.outside.specs.Outside.{Adds, CountsFault, RisesWhere};
ghost use Rattle.wire_frames.specs.Limits.{max_client};
ghost use Rattle.program_words.specs.Status.{code};
ghost use Rattle.shell_lang.specs.Lines.{whole_lines, last_line};
ghost use Rattle.shell_lang.specs.Commands.{read_line};
ghost use Rattle.client_lines.specs.Input.{last_at};
ghost use Rattle.client_session.specs.Session.{IsText, state_of};
ghost use Rattle.client_lines.specs.Opening.{status_unopened};
ghost use Rattle.client_lines.specs.Run.{status_of, is_session_status, is_quit, quits, has_quit, up_to_quit};
ghost use Rattle.client_lines.specs.Run.{closing_line, closing_at};
ghost use Rattle.client_lines.specs.Ending.{SessionEnds};
ghost use Rattle.client_lines.specs.Telling.{around_of, faults_of};
ghost use Rattle.client_lines.specs.InsideRun.{HasUnfinished, TakesInput};
ghost use Rattle.client_lines.specs.Objects.{objects_tell, SameObjects, KeepsClient, SessionAnswered, SessionAnsweredInput, SessionRan};

use crate::input::{InputEnd, LineReader};
use crate::objects::SessionObjects;
use crate::opening::{Unopened, open};
use client_core::Route;
use client_session::{LineStop, Session};
use cmd_capture::Runner;
use outside::{Keeper, Sink, SinkError, Source, write_all};
use program_words::Status;
use shell_lang::{Line, LineAnswer, LineError, has_no_memory, read_line, text_of};
use std::alloc::{AllocError, Global};
use world_rules::Link;

/// What stops a run before its last answer.
#[derive(Clone, Copy, Debug, PartialEq, Eq)]
pub enum Stop {
    /// The sink failed.
    Sink,
    /// The keeper failed.
    Keeper,
    /// Memory ran out.
    Memory,
}

impl From<AllocError> for Stop {
    ghost use Rattle.std.specs.Prelude.{◌≡◌};
    ghost use Rattle.client_lines.specs.declared.run.Stop.TheVariants.{Memory};

    ghost from_gives = { λ _ stop. stop ≡ Memory };

    fn from(_: AllocError) -> Stop {
        Stop::Memory
    }
}

impl From<SinkError> for Stop {
    ghost use Rattle.std.specs.Prelude.{◌≡◌};
    ghost use Rattle.client_lines.specs.Run.{stop_of};

    ghost from_gives = { λ refused stop. stop ≡ stop_of refused };

    fn from(refused: SinkError) -> Stop {
        match refused {
            SinkError::Failed => Stop::Sink,
            SinkError::Memory => Stop::Memory,
        }
    }
}

impl From<LineStop> for Stop {
    ghost use Rattle.std.specs.Prelude.{◌≡◌};
    ghost use Rattle.client_lines.specs.Run.{stop_by};

    ghost from_gives = { λ stopped stop. stop ≡ stop_by stopped };

    fn from(stopped: LineStop) -> Stop {
        match stopped {
            LineStop::Keeper => Stop::Keeper,
            LineStop::Memory => Stop::Memory,
        }
    }
}

/// The status of a run whose input ended so, or that was stopped before.
fn status_of(ended: Result<InputEnd, Stop>) -> Status
    ensures status { code result ≡ status_of ended }
    ensures known { IsTrue (is_session_status (code result)) }
{
    match ended {
        Ok(InputEnd::Read) => Status::Done,
        Ok(InputEnd::Failed) => Status::SourceFailed,
        Ok(InputEnd::TooLong) => Status::TooLong,
        Err(Stop::Sink) => Status::SinkFailed,
        Err(Stop::Keeper) => Status::KeeperFailed,
        Err(Stop::Memory) => Status::NoMemory,
    }
}

/// What a line asks for, or why it is refused. Want of memory is the only error.
fn asked(alloc: Global, line: &[u8]) -> Result<Result<Line, LineError>, AllocError>
    ensures { IfOk result (λ asked. asked ≡ read_line line.now) }
{
    match read_line(alloc, line) {
        Err(LineError::Memory) => Err(AllocError),
        asked => Ok(asked),
    }
}

/// Whether a line asks for the end of the session.
fn is_quit(asked: &Result<Line, LineError>) -> bool
    ensures { result ≡ is_quit asked.now }
{
    matches!(asked, Ok(Line::Quit))
}

/// The text of an answer, and none where there is no answer. An answer that is want of memory has no text.
fn text(alloc: Global, answer: Option<LineAnswer>) -> Result<Vec<u8>, AllocError>
    ensures { IfOk result (λ text. IsText answer text.items) }
{
    let Some(answer) = answer else {
        return Ok(Vec::new(alloc));
    };
    if !has_no_memory(&answer) {
        drop(answer);
        return Err(AllocError);
    }
    let text = text_of(alloc, &answer);
    drop(answer);
    text
}

/// Writes the line that ends the output, where the input was read to its end.
fn close<O: Sink>(
    alloc: Global,
    session: &Session,
    end: InputEnd,
    output: &mut O,
) -> Result<(), Stop>
    ensures all { OnOk result (Adds (O.written output.old) (O.written output.new) (closing_at end (state_of session.now))) }
    ensures front { OnErr result ((end ≡ InputEnd.Read) × ((count : ℕ)
        × Adds (O.written output.old) (O.written output.new) (take count (closing_line (state_of session.now))))) }
    ensures cause { CountsFault Stop.Sink (O.faults output.old) (O.faults output.new) result }
    ensures keeper { result ≢ Err Stop.Keeper }
{
    match end {
        InputEnd::Read => {
            let text = closing(alloc, session)?;
            write_all(output, &text)?;
            Ok(())
        }
        InputEnd::Failed | InputEnd::TooLong => Ok(()),
    }
}

/// The line that ends the output.
fn closing(alloc: Global, session: &Session) -> Result<Vec<u8>, AllocError>
    ensures { IfOk result (λ text. text.items ≡ closing_line (state_of session.now)) }
{
    let status = session.status();
    let text = text_of(alloc, &status);
    drop(status);
    text
}

impl<O: Sink, K: Keeper, R: Runner, L: Link> SessionObjects<'_, '_, '_, '_, '_, O, K, R, L> {
    /// Does what a line asks for, writes its answer, and says whether it quits.
    fn answer(&mut self, session: &mut Session, line: &[u8]) -> Result<bool, Stop>
        requires { KeepsClient (objects_tell O.Sink K.Keeper R.Runner L.Link self.old) session.old }
        ensures did { let told = objects_tell O.Sink K.Keeper R.Runner L.Link in
            SessionAnswered (line.now ∷ []) result session.old session.new (told self.old) (told self.new) }
        ensures quit { IfOk result (λ quit. quit ≡ quits line.now) }
        ensures same { SameObjects self.old self.new }
    {
        let asked = asked(self.alloc, line)?;
        let quit = is_quit(&asked);
        let answer = session.answer(
            self.alloc,
            self.route,
            asked,
            self.link,
            self.keeper,
            self.runner,
        )?;
        let text = text(self.alloc, answer)?;
        write_all(self.output, &text)?;
        Ok(quit)
    }

    /// Answers the lines that are there, up to the last line end or the first that quits, and says whether one quits.
    fn answer_lines(&mut self, session: &mut Session, reader: &mut LineReader) -> Result<bool, Stop>
        requires { KeepsClient (objects_tell O.Sink K.Keeper R.Runner L.Link self.old) session.old }
        ensures did { let told = objects_tell O.Sink K.Keeper R.Runner L.Link in
            SessionAnswered (up_to_quit (whole_lines reader.old.bytes)) result session.old session.new (told self.old) (told self.new) }
        ensures quit { IfOk result (λ quit. quit ≡ has_quit (whole_lines reader.old.bytes)) }
        ensures left { IfOk result (λ quit. quit ≡ false → HasUnfinished reader.old reader.new) }
        ensures same { SameObjects self.old self.new }
    {
        while let Some(line) = reader.first_line() {
            let end = line.len() + 1;
            let quit = self.answer(session, line)?;
            if quit {
                return Ok(true);
            }
            reader.pass(end);
        }
        Ok(false)
    }

    /// Reads the input piece by piece up to a line that quits, and answers the lines of each piece before it reads on.
    fn answer_input<I: Source>(
        &mut self,
        session: &mut Session,
        input: &mut I,
    ) -> Result<InputEnd, Stop>
        requires { KeepsClient (objects_tell O.Sink K.Keeper R.Runner L.Link self.old) session.old }
        ensures did { let told = objects_tell O.Sink K.Keeper R.Runner L.Link in
            SessionAnsweredInput (I.left input.old) (I.left input.new) result session.old session.new (told self.old) (told self.new) }
        ensures input { TakesInput (I.left input.old) (I.left input.new) result }
        ensures source { RisesWhere (result ≡ Ok InputEnd.Failed) (I.faults input.old) (I.faults input.new) }
        ensures same { SameObjects self.old self.new }
    {
        let mut reader = LineReader::new(self.alloc);
        loop {
            let end = reader.read_piece(input)?;
            if let Some(InputEnd::Failed) = end {
                return Ok(InputEnd::Failed);
            }
            let quit = self.answer_lines(session, &mut reader)?;
            if quit {
                return Ok(InputEnd::Read);
            }
            if let Some(end) = end {
                self.answer_last(session, &reader, end)?;
                return Ok(end);
            }
        }
    }

    /// At the end of the input answers the bytes behind its last line end, where there are any.
    fn answer_last(
        &mut self,
        session: &mut Session,
        reader: &LineReader,
        end: InputEnd,
    ) -> Result<(), Stop>
        requires { KeepsClient (objects_tell O.Sink K.Keeper R.Runner L.Link self.old) session.old }
        ensures did { let told = objects_tell O.Sink K.Keeper R.Runner L.Link in
            SessionAnswered (last_at end reader.now.bytes) result session.old session.new (told self.old) (told self.new) }
        ensures same { SameObjects self.old self.new }
    {
        match end {
            InputEnd::Read => self.answer_unfinished(session, reader.bytes()),
            InputEnd::Failed | InputEnd::TooLong => Ok(()),
        }
    }

    /// Answers a line without an end, which is none where it has no bytes.
    fn answer_unfinished(&mut self, session: &mut Session, line: &[u8]) -> Result<(), Stop>
        requires { KeepsClient (objects_tell O.Sink K.Keeper R.Runner L.Link self.old) session.old }
        ensures did { let told = objects_tell O.Sink K.Keeper R.Runner L.Link in
            SessionAnswered (last_line line.now) result session.old session.new (told self.old) (told self.new) }
        ensures same { SameObjects self.old self.new }
    {
        if line.is_empty() {
            return Ok(());
        }
        self.answer(session, line)?;
        Ok(())
    }

    /// Answers the input of a client, and closes the output.
    fn run<I: Source>(&mut self, session: &mut Session, input: &mut I) -> Result<InputEnd, Stop>
        requires { KeepsClient (objects_tell O.Sink K.Keeper R.Runner L.Link self.old) session.old }
        ensures did { let told = objects_tell O.Sink K.Keeper R.Runner L.Link in
            SessionRan (I.left input.old) (I.left input.new) result session.old session.new (told self.old) (told self.new) }
        ensures input { TakesInput (I.left input.old) (I.left input.new) result }
        ensures source { RisesWhere (result ≡ Ok InputEnd.Failed) (I.faults input.old) (I.faults input.new) }
        ensures same { SameObjects self.old self.new }
    {
        let end = self.answer_input(session, input)?;
        close(self.alloc, session, end, self.output)?;
        Ok(end)
    }
}

/// The status of a run that has no client to begin with.
fn status_unopened(unopened: Unopened) -> Status
    ensures status { code result ≡ status_unopened unopened }
    ensures known { IsTrue (is_session_status (code result)) }
{
    match unopened {
        Unopened::Keeper => Status::KeeperFailed,
        Unopened::Image => Status::OtherImage,
        Unopened::Memory => Status::NoMemory,
    }
}

/// Runs the session of the client of this number: opens what is kept of it, reads lines, answers each before it reads on, and ships
/// what they log to the server, or, where the route has a surrogate, as an operation to that. The client is kept after each change,
/// before the line is answered and before more is asked. Its commands are run by the runner, in the work folder of the route.
/// The status that it gives:
///
/// - 0: every line was answered, up to the first that quits where one does, and the output ends with
///   `acknowledged A pending P`;
/// - 3: the source failed; the whole lines before were answered, and none of them quits;
/// - 4: the sink failed;
/// - 5: the keeper failed; the last line that was handled is not answered;
/// - 6: what is kept is no client's image, or another client's, and nothing was touched;
/// - 7: memory ran out;
/// - 8: the input has more than 16,777,216 bytes; the whole lines within them were answered, and none of them quits.
pub fn session_run<I: Source, O: Sink, K: Keeper, R: Runner, L: Link>(
    alloc: Global,
    number: u8,
    route: &Route,
    input: &mut I,
    output: &mut O,
    keeper: &mut K,
    runner: &mut R,
    link: &mut L,
) -> u8
    requires low { 1 ≤ number }
    requires high { number ≤ max_client }
    ensures { let around = around_of I.Source O.Sink K.Keeper R.Runner L.Link in
        let faults = faults_of I.Source O.Sink K.Keeper in
        SessionEnds number route.now result
        (around input.old output.old keeper.old runner.old link.old) (around input.new output.new keeper.new runner.new link.new)
        (faults input.old output.old keeper.old) (faults input.new output.new keeper.new) }
{
    match open(alloc, number, route.image.bytes(), keeper) {
        Ok(client) => {
            let mut session = Session::new(alloc, client);
            let mut objects = SessionObjects {
                alloc,
                route,
                output,
                keeper,
                runner,
                link,
            };
            let ended = objects.run(&mut session, input);
            drop(session);
            status_of(ended).code()
        }
        Err(unopened) => status_unopened(unopened).code(),
    }
}
