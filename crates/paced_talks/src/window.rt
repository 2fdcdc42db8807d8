// How long a connection may take.
ghost use Rattle.std.specs.Prelude.{◌≡◌, ◌-◌, ◌*◌, ◌+◌, ◌/◌, ◌≤◌, ◌<◌, min, None, Some, IfOk};
ghost use Rattle.std.specs.Duration.{as_nanos};
ghost use Rattle.std.specs.declared.time.Instant.{Instant};
ghost use Rattle.paced_talks.specs.Window.{window_bytes, in_buffers, fresh, of_request, waiting, sending_seconds, sending, next_window};
ghost use Rattle.paced_talks.specs.Window.{spent, limit, after_bytes, IsLater, LeadsOn};

use std::io;
use std::io::ErrorKind;
use std::time::{Duration, Instant};

/// How many seconds a window has: at 2,400 bits a second over a queue that drops, and with one packet of 100 lost, nothing came for up
/// to 50.
const WINDOW_SECONDS: u64 = 60;

/// How many bytes a window has to move, so that another follows it.
const WINDOW_BYTES: u64 = 512;

/// The most bytes that lie in buffers of this machine once the system has taken what goes out, on a thin link: some 130,000 were seen.
const MOST_BUFFERED: u64 = 262_144;

/// How many bytes a second leave those buffers at least, as far as that is waited for: 50,000 took 226 seconds at 2,400 bits a second
/// over a queue that drops.
const SLOWEST_PACE: u64 = 200;

/// How many bytes the head of a frame has.
pub(crate) const HEAD_BYTES: u64 = 4;

/// Within how many seconds of its connection the head of a request has to come.
const HEAD_SECONDS: u64 = 30;

/// A window of a connection's time. Nothing is saved up: what it moved earns the window behind it, and no later
/// one.
#[derive(Clone, Copy)]
pub struct Window {
    pub start: Instant,
    pub head_seconds: u64,
    /// For how many seconds it goes on once the head is there.
    pub seconds: u64,
    pub moved: u64,
}

impl Window {
    /// A window that begins at this moment.
    pub fn new(start: Instant) -> Window
        ensures { result ≡ fresh start }
    {
        Window::lasting(start, WINDOW_SECONDS)
    }

    /// The first window of a connection that a port took at this moment.
    pub fn of_request(start: Instant) -> Window
        ensures { result ≡ of_request start }
    {
        Window {
            start,
            head_seconds: HEAD_SECONDS,
            seconds: WINDOW_SECONDS,
            moved: 0,
        }
    }

    /// The window of a wait of so many seconds that begins at this moment.
    pub fn waiting(start: Instant, seconds: u64) -> Window
        ensures { result ≡ waiting seconds start }
    {
        Window {
            start,
            head_seconds: seconds,
            seconds: WINDOW_SECONDS,
            moved: 0,
        }
    }

    /// The first window of so many bytes that begin to go out at this moment. Each goes on for as long as buffers may hold them, since
    /// on a thin link the system takes them in lumps.
    pub fn sending(start: Instant, bytes: usize) -> Window
        ensures { result ≡ sending bytes start }
    {
        Window::lasting(start, WINDOW_SECONDS + in_buffers(bytes))
    }

    /// The window of so many seconds that begins at this moment.
    fn lasting(start: Instant, seconds: u64) -> Window
        ensures { result ≡ record { start = start; head_seconds = seconds; seconds = seconds; moved = 0 } }
    {
        Window {
            start,
            head_seconds: seconds,
            seconds,
            moved: 0,
        }
    }

    /// How long it may go on: until the head is there, no longer than the head may take.
    fn limit(&self) -> Duration
        ensures { as_nanos result ≡ limit self.now }
    {
        if self.moved < HEAD_BYTES {
            return Duration::from_secs(self.head_seconds);
        }
        Duration::from_secs(self.seconds)
    }

    /// The window that holds at a moment: this one while it lasts, and another one behind it, where it has moved its share.
    pub fn at(self, now: Instant) -> Option<Window>
        ensures lasts { spent self now < limit self → result ≡ Some self }
        ensures follows { limit self ≤ spent self now → window_bytes ≤ self.moved → result ≡ Some (next_window self now) }
        ensures over { limit self ≤ spent self now → self.moved < window_bytes → result ≡ None }
    {
        if now.duration_since(self.start) < self.limit() {
            return Some(self);
        }
        if self.moved < WINDOW_BYTES {
            return None;
        }
        Some(Window::lasting(now, self.seconds))
    }

    /// The window that holds at a moment.
    ///
    /// # Errors
    ///
    /// `TimedOut`, where it is over and has not moved its share.
    pub(crate) fn go_on(self, now: Instant) -> io::Result<Window>
        ensures { IfOk result (λ next. LeadsOn self next) }
    {
        match self.at(now) {
            Some(next) => Ok(next),
            None => Err(io::Error::from(ErrorKind::TimedOut)),
        }
    }

    /// What is left of it at a moment.
    pub fn left(&self, now: Instant) -> Duration
        ensures { as_nanos result ≡ limit self.now - spent self.now now }
    {
        self.limit().saturating_sub(now.duration_since(self.start))
    }

    /// The window that so many more bytes went through.
    pub fn after(self, moved: usize) -> Window
        ensures { result ≡ after_bytes moved self }
    {
        Window {
            moved: self.moved.saturating_add(moved as u64),
            ..self
        }
    }

    /// The window that begins so much later, where the clock goes so far. So time in which nobody looked is not its peer's.
    pub fn delayed(self, by: Duration) -> Window
        ensures { (start : Instant) × IsLater (as_nanos by) self.start start × (result ≡ record self { start = start }) }
    {
        Window {
            start: later(self.start, by),
            ..self
        }
    }
}

/// How many seconds the end of so many bytes takes to leave the buffers of this machine, at the slowest pace that is waited for.
pub fn in_buffers(bytes: usize) -> u64
    ensures { result ≡ in_buffers bytes }
{
    (bytes as u64).min(MOST_BUFFERED) / SLOWEST_PACE
}

/// The moment so much behind another one, or that one where the clock does not go so far.
pub(crate) fn later(moment: Instant, by: Duration) -> Instant
    ensures { IsLater (as_nanos by) moment result }
{
    match moment.checked_add(by) {
        Some(moved) => moved,
        None => moment,
    }
}
