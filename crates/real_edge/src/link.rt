// Asks over TCP.
ghost use Rattle.std.specs.Prelude.{◌≡◌, ◌≤◌, ◌⊎◌, None, Some, Ok, IfOk, OnOk};
ghost use Rattle.outside.specs.Outside.{Told, Rose, HasCause, CountsFault};
ghost use Rattle.wire_frames.specs.declared.message.Message.{Message};
ghost use Rattle.wire_frames.specs.Frame.{Spells};
ghost use Rattle.world_rules.specs.World.{World};
ghost use Rattle.world_rules.specs.Asking.{IsRequest, IsReplyTo, AsksOnce, IsDirect};
ghost use Rattle.paced_talks.specs.Window.{HasWaited};
ghost use Rattle.real_edge.specs.Addresses.{without_address};
ghost use Rattle.real_edge.specs.Patience.{patience, pause, after_silence, silent_after, RemembersSilence};
ghost use Rattle.real_edge.specs.Patience.{RemembersBreak, longer_pause, pause_after};
ghost use Rattle.real_edge.specs.Inside.{IsEchoTo};

use crate::addresses::Addresses;
use crate::faults::count_fault;
use crate::missed::{Missed, to_link};
use crate::outgoing::Outgoing;
use crate::pace::Paced;
use crate::telling::{Teller, ToldStream, Untold};
use paced_talks::{in_buffers, read_frame};
use std::alloc::Global;
use std::io::{ErrorKind, Read, Write};
use std::net::{Net, OpenStream, TcpStream, ToSocketAddrs};
use std::time::{Clock, Duration, Instant};
use std::{io, thread};
use wire_frames::{Head, head_of, read};
use world_rules::{Link, LinkError, Peer};

/// For how many seconds the first byte of an answer is waited for.
const SILENCE_SECONDS: u64 = 30;

/// For how many seconds the first byte of a surrogate's answer is waited for. 500 are the command's, which is ended then. The others are
/// for the commands that wait there before it, for what the surrogate asks its server, and for comparing and repairing; where that takes
/// longer the answer comes too late, and the ask fails.
const COMMAND_SECONDS: u64 = 600;

/// The longest wait for one address of a peer to answer.
const CONNECT_SECONDS: u64 = 10;

/// The most addresses of one name that are tried.
const MOST_ADDRESSES: usize = 4;

/// How long an address that refused a connection is left alone before the next ask, in milliseconds: a peer that is started again is
/// back by the last try.
const PAUSE_MILLIS: u64 = 250;

/// How often what is left of a pause is told, in milliseconds.
const TOLD_MILLIS: u64 = 200;

/// How long an address is left alone behind the first try that broke there, in milliseconds: what was given up leaves the link
/// meanwhile.
const FIRST_PAUSE: u64 = 1_000;

/// And at most, behind several in a row: a queue of ten seconds is empty by then.
const MOST_PAUSE: u64 = 16_000;

/// Asks over TCP, each over a connection of its own, and tells how that goes on. Addresses that were `silent` are remembered, so that a
/// surrogate that is gone costs one long wait, and no more until it answers; those that `refused` a connection are left alone for a
/// moment before the next ask, and those where the last tries broke for a longer one. The time since the last ask that failed counts.
#[derive(Drop)]
pub struct TcpLink<'a, N: Net + Clock, T: Teller + Drop = Untold> {
    alloc: Global,
    net: &'a N,
    teller: T,
    /// The keys that its frames are sealed by; at place N that of client N; none where they go as they are.
    keys: Option<&'a [Option<[u8; 32]>]>,
    silent: Addresses,
    refused: Addresses,
    broken: Addresses,
    /// How many milliseconds pass behind the last try that broke.
    broken_pause: u64,
    /// When the last ask failed, at any address.
    failed_at: Option<Instant>,
    troubles: u64,
}

impl<'a, N: Net + Clock> TcpLink<'a, N, Untold> {
    /// A link without trouble yet, which tells nobody. It opens nothing.
    pub fn new(alloc: Global, net: &'a N) -> TcpLink<'a, N, Untold>
        ensures { result.troubles ≡ 0 }
    {
        TcpLink::telling(alloc, net, Untold)
    }
}

impl<'a, N: Net + Clock, T: Teller + Drop> TcpLink<'a, N, T> {
    /// A link without trouble yet, which tells this one how its asks go on. It opens nothing.
    pub fn telling(alloc: Global, net: &'a N, teller: T) -> TcpLink<'a, N, T>
        ensures { result.troubles ≡ 0 }
    {
        TcpLink {
            alloc,
            net,
            teller,
            keys: None,
            silent: Addresses::new(alloc),
            refused: Addresses::new(alloc),
            broken: Addresses::new(alloc),
            broken_pause: 0,
            failed_at: None,
            troubles: 0,
        }
    }

    /// The link whose frames are sealed by these keys, where there are any: each by the key of its client, which stands at the place of
    /// the client's number. It takes no answer that is not sealed by the same key, as the answer to that very frame.
    pub fn sealed(self, keys: Option<&'a [Option<[u8; 32]>]>) -> TcpLink<'a, N, T>
        ensures { result.troubles ≡ self.entry.troubles }
    {
        TcpLink { keys, ..self }
    }

    /// Asks once, and gives the frame that comes back where it spells a reply to the request.
    fn reply_to(&mut self, to: Peer, address: &[u8], frame: &[u8]) -> Result<Vec<u8>, LinkError>
        ensures reply { (request : Message) → Spells request frame.now → IfOk result (λ bytes. IsReplyTo request bytes.items) }
        ensures troubles { self.new.troubles ≡ self.old.troubles }
    {
        match head_of(frame) {
            Some(request) => self.reply_to_request(to, address, request, frame),
            None => Err(LinkError::Failed),
        }
    }

    /// Asks once, and gives the frame that comes back where it spells a reply to the request with this head, which the frame
    /// spells.
    fn reply_to_request(
        &mut self,
        to: Peer,
        address: &[u8],
        request: Head,
        frame: &[u8],
    ) -> Result<Vec<u8>, LinkError>
        ensures reply { IfOk result (λ bytes. IsEchoTo request bytes.items) }
        ensures troubles { self.new.troubles ≡ self.old.troubles }
        // whoever answers is silent no more
        ensures answered { IfOk result (λ _. self.new.silent ≡ silent_after to address.now self.old.silent) }
        // and no pause follows
        ensures unbroken { IfOk result (λ _. self.new.broken ≡ without_address address.now self.old.broken) }
        // memory may be wanted for an address
        ensures silent { (self.new.silent ≡ silent_after to address.now self.old.silent)
            ⊎ (self.new.silent ≡ after_silence to address.now self.old.silent) ⊎ (self.new.silent ≡ self.old.silent) }
    {
        self.teller.begin(to, request, frame);
        let reply = self.asked(to, address, request, frame);
        tell_end(&mut self.teller, address, &reply);
        to_link(reply)
    }

    /// Asks once, and gives the frame that comes back where it spells a reply to the request; else why there is none.
    fn asked(
        &mut self,
        to: Peer,
        address: &[u8],
        request: Head,
        frame: &[u8],
    ) -> Result<Vec<u8>, Missed>
        ensures reply { IfOk result (λ bytes. IsEchoTo request bytes.items) }
        ensures troubles { self.new.troubles ≡ self.old.troubles }
        ensures answered { IfOk result (λ _. self.new.silent ≡ silent_after to address.now self.old.silent) }
        ensures unbroken { IfOk result (λ _. self.new.broken ≡ without_address address.now self.old.broken) }
        ensures silent { (self.new.silent ≡ silent_after to address.now self.old.silent)
            ⊎ (self.new.silent ≡ after_silence to address.now self.old.silent) ⊎ (self.new.silent ≡ self.old.silent) }
    {
        let outgoing = Outgoing::of(self.alloc, self.keys, to, frame)?;
        let pause = pause(&self.refused, &self.broken, self.broken_pause, address);
        let seconds = patience(&self.silent, to, address) + in_buffers(outgoing.bytes().len());
        let left = left_of(self.net, pause, self.failed_at);
        let_pass(self.net, &mut self.teller, left);
        let came = exchange(
            self.alloc,
            self.net,
            &mut self.teller,
            address,
            &outgoing,
            seconds,
        );
        drop(outgoing);
        note_refusal(&mut self.refused, address, &came);
        note_silence(&mut self.silent, to, address, &came);
        let reply = echoed(self.alloc, request, seconds, came);
        self.broken_pause = pause_after(&self.broken, self.broken_pause, address, &reply);
        note_break(&mut self.broken, address, &reply);
        if reply.is_err() {
            self.failed_at = Instant::now(self.net).ok();
        }
        reply
    }
}

/// Tells that an ask at the address is over, and what came.
fn tell_end<T: Teller>(teller: &mut T, address: &[u8], reply: &Result<Vec<u8>, Missed>) {
    match reply {
        Ok(bytes) => teller.end(address, Ok(bytes.as_slice())),
        Err(missed) => teller.end(address, Err(missed)),
    }
}

/// Remembers whether the address refused the connection of its last ask.
fn note_refusal(refused: &mut Addresses, address: &[u8], came: &Result<Option<Vec<u8>>, Missed>)
    ensures { IfOk came.now (λ _. refused.new ≡ without_address address.now refused.old) }
{
    refused.forget(address);
    if let Err(Missed::NoConnection(error)) = came
        && error.kind() == ErrorKind::ConnectionRefused
    {
        refused.remember(address);
    }
}

/// Remembers whether the address was silent.
fn note_silence(
    silent: &mut Addresses,
    to: Peer,
    address: &[u8],
    came: &Result<Option<Vec<u8>>, Missed>,
)
    ensures { RemembersSilence to address.now came.now silent.old silent.new }
{
    if to == Peer::Server {
        return;
    }
    match came {
        Ok(Some(_)) => silent.forget(address),
        Ok(None) => silent.remember(address),
        Err(_) => {}
    }
}

/// Remembers whether the last try at the address broke.
fn note_break(broken: &mut Addresses, address: &[u8], reply: &Result<Vec<u8>, Missed>)
    ensures { RemembersBreak address.now reply.now broken.old broken.new }
{
    match reply {
        Err(missed) if missed.is_break() => broken.remember(address),
        Ok(_) | Err(_) => broken.forget(address),
    }
}

/// How many milliseconds pass behind the last try that broke, after an ask of the address of which this came, where the last tries at
/// these broke, and so many passed behind the one before.
fn pause_after(
    broken: &Addresses,
    before: u64,
    address: &[u8],
    reply: &Result<Vec<u8>, Missed>,
) -> u64
    ensures { result ≡ pause_after address.now reply.now broken.now before }
{
    match reply {
        Err(missed) if missed.is_break() => longer_pause(broken, before, address),
        Ok(_) | Err(_) => before,
    }
}

/// How many milliseconds pass behind a try at the address that broke: twice as many as before, where the one before broke there, too.
fn longer_pause(broken: &Addresses, before: u64, address: &[u8]) -> u64
    ensures { result ≡ longer_pause address.now broken.now before }
{
    if broken.contains(address) {
        before.saturating_mul(2).min(MOST_PAUSE)
    } else {
        FIRST_PAUSE
    }
}

/// What came of an ask that waited for so many seconds, where it spells a reply to the request with this head.
fn echoed(
    alloc: Global,
    request: Head,
    seconds: u64,
    came: Result<Option<Vec<u8>>, Missed>,
) -> Result<Vec<u8>, Missed>
    ensures reply { IfOk result (λ bytes. IsEchoTo request bytes.items) }
    ensures some { IfOk result (λ bytes. came ≡ Ok (Some bytes)) }
{
    match came {
        Ok(Some(bytes)) => match check_echo(alloc, request, &bytes) {
            Ok(()) => Ok(bytes),
            Err(refused) => {
                drop(bytes);
                Err(refused)
            }
        },
        Ok(None) => Err(Missed::Silent(seconds)),
        Err(missed) => Err(missed),
    }
}

/// How many milliseconds pass before an ask of the address, where these refused a connection, and the last tries at these broke, with so
/// long a pause behind them.
fn pause(refused: &Addresses, broken: &Addresses, behind: u64, address: &[u8]) -> u64
    ensures { result ≡ pause address.now refused.now broken.now behind }
{
    if refused.contains(address) {
        PAUSE_MILLIS
    } else if broken.contains(address) {
        behind
    } else {
        0
    }
}

/// How many milliseconds are left of a pause of so many behind an ask that failed then: all of them, where nobody knows the time.
fn left_of<C: Clock>(clock: &C, pause: u64, failed_at: Option<Instant>) -> u64 {
    let Some(failed_at) = failed_at else {
        return pause;
    };
    match failed_at.elapsed(clock) {
        Ok(passed) => Duration::from_millis(pause)
            .saturating_sub(passed)
            .as_millis() as u64,
        Err(_) => pause,
    }
}

/// Lets so many milliseconds go by, and tells meanwhile that the ask is waited for.
fn let_pass<C: Clock, T: Teller>(clock: &C, teller: &mut T, millis: u64) {
    for _ in 0..millis / TOLD_MILLIS {
        thread::sleep(clock, Duration::from_millis(TOLD_MILLIS));
        teller.waits();
    }
    thread::sleep(clock, Duration::from_millis(millis % TOLD_MILLIS));
}

/// Sends the frame over a new connection, and gives the frame that comes back; none where its first byte has not come within so
/// many seconds.
fn exchange<N: Net + Clock, T: Teller>(
    alloc: Global,
    net: &N,
    teller: &mut T,
    address: &[u8],
    outgoing: &Outgoing<'_>,
    seconds: u64,
) -> Result<Option<Vec<u8>>, Missed> {
    let stream = connect(alloc, net, address)?;
    match talk(alloc, net, stream, teller, outgoing.bytes(), seconds) {
        Ok(Some(bytes)) => Ok(Some(outgoing.opened(bytes)?)),
        Ok(None) => Ok(None),
        Err(error) => Err(Missed::of_talk(error)),
    }
}

/// Sends the bytes over this connection, and gives the frame that comes back, as it stands there.
fn talk<N: Net + Clock, T: Teller>(
    alloc: Global,
    net: &N,
    stream: N::Stream,
    teller: &mut T,
    frame: &[u8],
    seconds: u64,
) -> io::Result<Option<Vec<u8>>> {
    let mut stream = Paced::start(stream, net)?;
    let reply = converse(alloc, &mut stream, teller, frame, seconds);
    drop(stream);
    reply
}

/// For how many seconds an ask of the address waits for the first byte of its answer, where these were silent.
fn patience(silent: &Addresses, to: Peer, address: &[u8]) -> u64
    ensures { result ≡ patience to address.now silent.now }
{
    match to {
        Peer::Server => SILENCE_SECONDS,
        Peer::Surrogate => {
            if silent.contains(address) {
                SILENCE_SECONDS
            } else {
                COMMAND_SECONDS
            }
        }
    }
}

/// Sends the frame, and reads the one that comes back once the peer has worked; none where that takes longer than so many seconds.
fn converse<S: Read + Write + OpenStream + Drop, C: Clock, T: Teller>(
    alloc: Global,
    stream: &mut Paced<'_, S, C>,
    teller: &mut T,
    frame: &[u8],
    seconds: u64,
) -> io::Result<Option<Vec<u8>>>
    ensures { IfOk result (λ reply. reply ≡ None → HasWaited seconds stream.new.window) }
{
    stream.begin_sending(frame.len())?;
    send(stream, teller, frame)?;
    if !stream.wait(seconds, teller)? {
        return Ok(None);
    }
    Ok(Some(receive(alloc, stream, teller)?))
}

/// Sends the frame, and tells how much of it went.
fn send<S: Read + Write, T: Teller>(
    stream: &mut S,
    teller: &mut T,
    frame: &[u8],
) -> io::Result<()> {
    let mut told = ToldStream { stream, teller };
    told.write_all(frame)
}

/// Reads a frame, and tells how much of it came.
fn receive<S: Read + Write, T: Teller>(
    alloc: Global,
    stream: &mut S,
    teller: &mut T,
) -> io::Result<Vec<u8>> {
    let mut told = ToldStream { stream, teller };
    read_frame(alloc, &mut told)
}

/// Refuses bytes that spell no reply to the request with this head.
fn check_echo(alloc: Global, request: Head, bytes: &[u8]) -> Result<(), Missed>
    ensures { OnOk result (IsEchoTo request bytes.now) }
{
    match read(alloc, bytes) {
        Ok(reply) => {
            let fits = request.is_echoed_by(&reply);
            let missed = Missed::of_message(&reply);
            drop(reply);
            if fits { Ok(()) } else { Err(missed) }
        }
        Err(refused) => Err(Missed::of_bytes(&refused, bytes)),
    }
}

/// Connects to the first address of a peer that answers.
fn connect<N: Net>(alloc: Global, net: &N, address: &[u8]) -> Result<N::Stream, Missed> {
    let Ok(address) = str::from_utf8(address) else {
        return Err(Missed::NoForm);
    };
    let addresses = match address.to_socket_addrs(net) {
        Ok(addresses) => addresses,
        Err(error) => return Err(Missed::of_lookup(alloc, error)),
    };
    let mut last = io::Error::from(ErrorKind::AddrNotAvailable);
    for found in addresses.take(MOST_ADDRESSES) {
        match TcpStream::connect_timeout(net, &found, Duration::from_secs(CONNECT_SECONDS)) {
            Ok(stream) => return Ok(stream),
            Err(error) => last = error,
        }
    }
    Err(Missed::of_connection(last))
}

impl<'a, N: Net + Clock, T: Teller + Drop> Link for TcpLink<'a, N, T> {
    ghost tells = { λ l. record { world = None; troubles = l.troubles } };

    ghost keeps = { λ _ _. Unit {0} };

    ghost keeps_none = { λ _. tt };

    ghost keeps_then = { λ _ _ _ _ _. tt };

    fn ask(&mut self, to: Peer, address: &[u8], frame: &[u8]) -> Result<Vec<u8>, LinkError>
        requires { (request : Message) × Spells request frame.now × IsRequest to request }
        ensures reply { (request : Message) → Spells request frame.now
            → IfOk result (λ bytes. IsReplyTo request bytes.items) }
        ensures world { (request : Message) → Spells request frame.now
            → Told {A = World} None None (λ old new. AsksOnce to address.now request old new result) }
        ensures direct { (request : Message) → Spells request frame.now → to ≡ Peer.Server
            → (Rose self.old.troubles self.new.troubles → ⊥)
            → Told {A = World} None None (λ old new. IsDirect to address.now request old new result) }
        ensures cause { HasCause LinkError.Failed self.old.troubles self.new.troubles result }
        ensures kept { Unit {0} }

        ensures counted { CountsFault LinkError.Failed self.old.troubles self.new.troubles result }
    {
        let answered = self.reply_to(to, address, frame);
        if let Err(LinkError::Failed) = &answered {
            count_fault(&mut self.troubles);
        }
        answered
    }
}
