// What a client's standard error tells of its asks.
use crate::missed::Missed;
use crate::misses::Misses;
use crate::telling::Teller;
use crate::terminal::Progress;
use crate::texts::{Grouped, Reads, bytes, cause_text};
use mod_log::{Origin, SketchEffect, SketchEntry};
use std::alloc::Global;
use std::time::Clock;
use wire_frames::{Head, Kind, Message, head_of, read};
use world_rules::{MAX_ASKS, Peer};

/// What came of the command of an entry.
#[derive(Drop)]
enum CommandEnd {
    /// No surrogate has answered yet.
    Unanswered,
    /// A surrogate declined it: why, in words.
    Declined(String),
    /// A surrogate answered, and memory for what it said was wanted.
    Unknown,
}

/// An entry whose command a surrogate was asked to run.
#[derive(Drop)]
struct ToldCommand {
    client: u8,
    number: u64,
    /// How many bytes its operation has.
    bytes: usize,
    /// How many bytes the contents have for which that stands.
    contents: Option<u64>,
    /// What it is said to read.
    reads: Reads,
    outcome: CommandEnd,
    /// The asks that no surrogate answered.
    misses: Misses,
    /// How many bytes its store has, once that is asked.
    store_bytes: usize,
}

/// A request that a server is asked, which has got no reply yet.
#[derive(Drop)]
struct Unanswered {
    request: Head,
    asks: u32,
    misses: Misses,
}

/// Tells on standard error how asks go on that take long, where that is a terminal; which way each entry went that was asked of
/// a surrogate as a command, once it is settled; and why a request that is given up got no reply.
#[derive(Drop)]
pub struct ClientTeller<'a, R: Eprint + Clock + AllocGlobal> {
    rt: &'a R,
    program: &'static str,
    progress: Progress<'a, R>,
    /// The request that is asked now.
    asked: Option<(Peer, Head)>,
    command: Option<ToldCommand>,
    unanswered: Option<Unanswered>,
}

impl<'a, R: Eprint + Clock + AllocGlobal> ClientTeller<'a, R> {
    /// Each line that it tells begins with the program's name. How an ask goes on is shown only where standard error is a terminal.
    pub fn new(rt: &'a R, program: &'static str, is_terminal: bool) -> ClientTeller<'a, R> {
        ClientTeller {
            rt,
            program,
            progress: Progress::new(rt, program, is_terminal),
            asked: None,
            command: None,
            unanswered: None,
        }
    }

    /// Takes note of the request, which this frame spells.
    fn note_request(&mut self, request: Head, frame: &[u8]) {
        let is_same = is_about(&self.command, request);
        if request.kind == Kind::Operate && !is_same {
            self.command = Some(command_of(self.rt.alloc(), request, frame));
        } else if request.kind == Kind::Store && is_same {
            if let Some(command) = &mut self.command {
                command.store_bytes = frame.len();
            }
        } else if !is_same {
            self.command = None;
        }
    }

    /// Takes note of what came of an ask about the command's entry.
    fn note_answer(&mut self, request: Head, address: &[u8], reply: Result<&[u8], &Missed>) {
        let Some(mut command) = self.command.take() else {
            return;
        };
        let is_settled = match request.kind {
            Kind::Operate => self.is_operated(&mut command, address, reply),
            Kind::Store => self.is_stored(&command, reply),
            _ => true,
        };
        if is_settled {
            drop(command);
        } else {
            self.command = Some(command);
        }
    }

    /// Takes note of an operation's answer. Answers whether the entry is settled.
    fn is_operated(
        &self,
        command: &mut ToldCommand,
        address: &[u8],
        reply: Result<&[u8], &Missed>,
    ) -> bool {
        match reply {
            Err(missed) => {
                command.misses.note(Peer::Surrogate, address, missed);
                false
            }
            Ok(reply) if is_of_kind(reply, Kind::Done) => {
                self.tell_done(command);
                true
            }
            Ok(reply) => {
                command.outcome = outcome_of(self.rt.alloc(), reply, &command.reads);
                false
            }
        }
    }

    /// Takes note of a store's answer. Answers whether the entry is settled.
    fn is_stored(&self, command: &ToldCommand, reply: Result<&[u8], &Missed>) -> bool {
        match reply {
            Ok(reply) if is_of_kind(reply, Kind::Accepted) => self.tell_files(command),
            Ok(_) => self.tell_declined(command),
            Err(_) => return false,
        }
        true
    }

    /// Takes note of an ask of the server that got a reply, or none. A request that is given up is told with its reason, behind what is
    /// told of its entry's command.
    fn note_server(&mut self, request: Head, address: &[u8], reply: Result<&[u8], &Missed>) {
        let Err(missed) = reply else {
            self.unanswered = None;
            return;
        };
        let mut unanswered = self.unanswered_of(request);
        unanswered.asks = unanswered.asks.saturating_add(1);
        unanswered.misses.note(Peer::Server, address, missed);
        if unanswered.asks < MAX_ASKS {
            self.unanswered = Some(unanswered);
            return;
        }
        if let Some(command) = self.command.take() {
            self.tell_declined(&command);
            drop(command);
        }
        unanswered.misses.tell(self.rt, self.program);
        drop(unanswered);
    }

    /// What is noted of this request to the server.
    fn unanswered_of(&mut self, request: Head) -> Unanswered {
        match self.unanswered.take() {
            Some(unanswered) if is_alike(unanswered.request, request) => unanswered,
            other => {
                drop(other);
                Unanswered {
                    request,
                    asks: 0,
                    misses: Misses::new(self.rt.alloc()),
                }
            }
        }
    }

    /// Tells that the entry went as its command.
    fn tell_done(&self, command: &ToldCommand) {
        let (program, number) = (self.program, command.number);
        let sent = bytes(command.bytes);
        if let Some(contents) = command.contents {
            let contents = Grouped(contents);
            let _ = eprintln!(self.rt;
                "{program}: entry {number}: went as its command, {sent} bytes for {contents}"
            );
        }
    }

    /// Tells that the entry's files went in place of its command, and why.
    fn tell_files(&self, command: &ToldCommand) {
        let (program, number) = (self.program, command.number);
        let sent = bytes(command.store_bytes);
        if let CommandEnd::Unanswered = &command.outcome {
            command.misses.tell(self.rt, program);
        }
        let _ = match &command.outcome {
            CommandEnd::Unanswered => eprintln!(self.rt;
                "{program}: entry {number}: no surrogate answered; its files went, {sent} bytes"
            ),
            CommandEnd::Declined(cause) => eprintln!(self.rt;
                "{program}: entry {number}: declined: {cause}; its files went, {sent} bytes"
            ),
            CommandEnd::Unknown => Ok(()),
        };
    }

    /// Tells why the entry's command was declined, where it was.
    fn tell_declined(&self, command: &ToldCommand) {
        let (program, number) = (self.program, command.number);
        if let CommandEnd::Declined(cause) = &command.outcome {
            let _ = eprintln!(self.rt; "{program}: entry {number}: declined: {cause}");
        }
    }
}

/// Whether the request is about the command's entry.
fn is_about(command: &Option<ToldCommand>, request: Head) -> bool {
    match command {
        Some(command) => command.client == request.client && command.number == request.number,
        None => false,
    }
}

/// Whether the requests are the same one.
fn is_alike(one: Head, other: Head) -> bool {
    one.kind == other.kind && one.client == other.client && one.number == other.number
}

/// The command of the entry that this frame of an operation is about.
fn command_of(alloc: Global, request: Head, frame: &[u8]) -> ToldCommand {
    let (contents, reads) = operation_of(alloc, frame);
    ToldCommand {
        client: request.client,
        number: request.number,
        bytes: frame.len(),
        contents,
        reads,
        outcome: CommandEnd::Unanswered,
        misses: Misses::new(alloc),
        store_bytes: 0,
    }
}

/// Whether the bytes are a frame of this kind.
fn is_of_kind(bytes: &[u8], kind: Kind) -> bool {
    head_of(bytes).is_some_and(|head| head.kind == kind)
}

/// How many bytes the contents have for which an operation's frame stands, and what its command is said to read; neither where memory
/// to look is wanted.
fn operation_of(alloc: Global, frame: &[u8]) -> (Option<u64>, Reads) {
    let Ok(message) = read(alloc, frame) else {
        return (None, Reads::Unknown);
    };
    let told = match &message {
        Message::Operate { entry, .. } => (Some(bytes_of(entry)), reads_of(&entry.origin)),
        _ => (None, Reads::Unknown),
    };
    drop(message);
    told
}

/// What the command is said to read that made an entry.
fn reads_of(origin: &Origin) -> Reads {
    if !origin.command.inputs.as_slice().is_empty() {
        return Reads::Inputs;
    }
    match origin.command.cwd.text() {
        Ok(folder) => Reads::Folder(folder),
        Err(_) => Reads::Unknown,
    }
}

/// How many bytes the contents have that an entry makes.
fn bytes_of(entry: &SketchEntry) -> u64 {
    let mut sum = 0_u64;
    for effect in entry.effects.as_slice() {
        if let SketchEffect::Put(_, sketch) = effect {
            sum = sum.saturating_add(sketch.len as u64);
        }
    }
    sum
}

/// What a reply to the operation of a command that reads this says, which is not that it is done.
fn outcome_of(alloc: Global, reply: &[u8], reads: &Reads) -> CommandEnd {
    let Ok(message) = read(alloc, reply) else {
        return CommandEnd::Unknown;
    };
    let text = match &message {
        Message::Declined { cause, .. } => cause_text(alloc, cause, reads).ok(),
        _ => None,
    };
    drop(message);
    match text {
        Some(text) => CommandEnd::Declined(text),
        None => CommandEnd::Unknown,
    }
}

impl<'a, R: Eprint + Clock + AllocGlobal> Teller for ClientTeller<'a, R> {
    fn begin(&mut self, to: Peer, request: Head, frame: &[u8]) {
        self.progress.begin(to, request, frame.len());
        self.asked = Some((to, request));
        self.note_request(request, frame);
    }

    fn sent(&mut self, bytes: usize) {
        self.progress.sent(bytes);
    }

    fn waits(&mut self) {
        self.progress.show();
    }

    fn came(&mut self, bytes: usize) {
        self.progress.came(bytes);
    }

    fn end(&mut self, address: &[u8], reply: Result<&[u8], &Missed>) {
        self.progress.end();
        let Some((to, request)) = self.asked.take() else {
            return;
        };
        self.note_answer(request, address, reply);
        if to == Peer::Server {
            self.note_server(request, address, reply);
        }
    }
}
