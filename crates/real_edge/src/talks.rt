// The connections of a port, side by side.
ghost use Rattle.std.specs.Prelude.{◌≡◌, IfOk};

use crate::watch::Watch;
use paced_talks::{Answers, Gathering, Partings};
use std::alloc::Global;
use std::io;
use std::net::{Net, OpenStream, SocketAddr};
use std::time::{Clock, Duration, Instant};

/// For how many seconds the last answers go out once no connection more is taken. A peer that goes on reading slowly would else hold up
/// the end of its node for hours.
const FINISH_SECONDS: u64 = 600;

/// The connections of a port: those whose frames come in, those whose answers go out, and those that were answered.
#[derive(Drop)]
pub(crate) struct Talks<'a, N: Net + Clock> {
    net: &'a N,
    watch: Watch,
    gathering: Gathering<N::Stream>,
    answers: Answers<N::Stream>,
    partings: Partings<N::Stream>,
    /// Since when its node works: nobody looks at the connections meanwhile.
    left_at: Option<Instant>,
}

impl<'a, N: Net + Clock> Talks<'a, N> {
    /// No connection, at a port with this listener.
    pub(crate) fn new(
        alloc: Global,
        net: &'a N,
        listener: &N::Listener,
    ) -> io::Result<Talks<'a, N>> {
        let mut watch = Watch::new(alloc, net)?;
        watch.add(listener);
        Ok(Talks {
            net,
            watch,
            gathering: Gathering::new(alloc),
            answers: Answers::new(alloc),
            partings: Partings::new(alloc),
            left_at: None,
        })
    }

    /// Whether a connection more has its place, or another one's.
    pub(crate) fn has_place(&self) -> bool {
        self.gathering.has_place()
    }

    /// Lets a connection of this peer in, or counts it as lost.
    pub(crate) fn admit(&mut self, stream: N::Stream, peer: SocketAddr, now: Instant) {
        if stream.set_nonblocking(true).is_err() {
            drop(stream);
            self.gathering.count_lost(peer);
            return;
        }
        self.watch.add(&stream);
        let _counted = self.gathering.admit(stream, peer, now);
    }

    /// Has each connection do what can be done at once. Answers whether more may be.
    pub(crate) fn step(&mut self, now: Instant) -> bool {
        let came = self.gathering.step(now);
        let sent = self.step_answers(now);
        came || sent
    }

    /// The first frame that is whole, with its connection and its peer.
    pub(crate) fn take_whole(&mut self) -> Option<(N::Stream, Vec<u8>, SocketAddr)> {
        self.gathering.take_whole()
    }

    /// Takes note of a connection that was let go without a frame, and not told yet; answers whether there was one.
    pub(crate) fn take_lost(&mut self) -> bool {
        self.gathering.take_lost()
    }

    /// Whose connection that was, where it is known.
    pub(crate) fn take_lost_peer(&mut self) -> Option<SocketAddr> {
        self.gathering.take_lost_peer()
    }

    /// Sends an answer: as much as goes at once, and the rest beside others.
    ///
    /// # Errors
    ///
    /// The stream's, and want of memory: it is closed then.
    pub(crate) fn answer(&mut self, stream: N::Stream, frame: &[u8]) -> io::Result<()> {
        let now = self.come_back()?;
        if let Some(stream) = self.answers.send(stream, frame, now)? {
            let _parted = self.partings.admit(stream, now);
        }
        Ok(())
    }

    /// Sends what is left of the answers, and lets their peers end, within ten minutes. The other connections are let go.
    pub(crate) fn finish(&mut self) -> io::Result<()> {
        self.gathering.clear();
        let begun = self.come_back()?;
        let mut now = begun;
        for _ in 0..u64::MAX {
            let moved = self.step_answers(now);
            let spent = now.duration_since(begun);
            let left = Duration::from_secs(FINISH_SECONDS).saturating_sub(spent);
            if left.is_zero() || (self.answers.is_empty() && self.partings.is_empty()) {
                break;
            }
            now = self.rest(now, moved, Some(left))?;
        }
        Ok(())
    }

    /// Sleeps until a connection can go on or its time is over, at most for so long; not at all where something moved. Answers
    /// the time then.
    pub(crate) fn rest(
        &mut self,
        now: Instant,
        moved: bool,
        longest: Option<Duration>,
    ) -> io::Result<Instant> {
        if !moved {
            let wait = self.gathering.soonest(now, longest);
            let wait = self.answers.soonest(now, wait);
            let wait = self.partings.soonest(now, wait);
            self.watch.sleep(self.net, wait)?;
        }
        Instant::now(self.net)
    }

    /// Leaves the connections to themselves, while their node works.
    pub(crate) fn leave(&mut self) {
        self.left_at = Instant::now(self.net).ok();
    }

    /// Looks at the connections again. The time in which their node worked is not the peers'.
    pub(crate) fn come_back(&mut self) -> io::Result<Instant> {
        let now = Instant::now(self.net)?;
        if let Some(left_at) = self.left_at {
            let away = now.duration_since(left_at);
            self.gathering.delay(away);
            self.answers.delay(away);
        }
        self.left_at = None;
        Ok(now)
    }

    /// Has answers go out, and peers that were answered end. Answers whether more may be done at once.
    fn step_answers(&mut self, now: Instant) -> bool {
        let (sent, done) = self.answers.step(now);
        if let Some(stream) = done {
            let _parted = self.partings.admit(stream, now);
        }
        let parted = self.partings.step(now);
        sent || parted
    }
}
