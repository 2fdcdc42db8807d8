// Objects in memory that count how often they failed.
ghost use Rattle.std.specs.Prelude.{None};

use outside::{Failed, KeepError, Keeper, Port, PortError, Sink, SinkError, Source};

/// An object that counts its calls that failed. Contracts see its faults alone.
#[derive(Drop)]
pub(crate) struct Counted<T> {
    pub(crate) inner: T,
    pub(crate) failed: u32,
}

impl<T> Counted<T> {
    /// An object that has not failed yet.
    pub(crate) fn new(inner: T) -> Counted<T> {
        Counted { inner, failed: 0 }
    }
}

fn count(failed: &mut u32, has_failed: bool) {
    if has_failed {
        *failed = failed.saturating_add(1);
    }
}

impl<I: Source> Source for Counted<I> {
    ghost left = { λ _. None };

    ghost faults = { λ counted. I.faults counted.inner };

    fn read(&mut self, buf: &mut [u8]) -> Result<usize, Failed> {
        let read = self.inner.read(buf);
        count(&mut self.failed, read.is_err());
        read
    }
}

impl<O: Sink> Sink for Counted<O> {
    ghost written = { λ _. None };

    ghost faults = { λ counted. O.faults counted.inner };

    fn write(&mut self, piece: &[u8]) -> Result<usize, SinkError> {
        let written = self.inner.write(piece);
        count(&mut self.failed, matches!(written, Err(SinkError::Failed)));
        written
    }
}

impl<K: Keeper> Keeper for Counted<K> {
    ghost images = { λ _. None };

    ghost faults = { λ counted. K.faults counted.inner };

    fn load(&mut self, name: &[u8]) -> Result<Option<Vec<u8>>, KeepError> {
        let loaded = self.inner.load(name);
        count(&mut self.failed, matches!(loaded, Err(KeepError::Failed)));
        loaded
    }

    fn save(&mut self, name: &[u8], image: &[u8]) -> Result<(), KeepError> {
        let saved = self.inner.save(name, image);
        count(&mut self.failed, matches!(saved, Err(KeepError::Failed)));
        saved
    }

    fn append(&mut self, name: &[u8], piece: &[u8]) -> Result<(), KeepError> {
        let appended = self.inner.append(name, piece);
        count(&mut self.failed, matches!(appended, Err(KeepError::Failed)));
        appended
    }
}

impl<P: Port> Port for Counted<P> {
    ghost tells = { λ counted. P.tells counted.inner };

    fn take(&mut self) -> Result<Option<Vec<u8>>, PortError> {
        let taken = self.inner.take();
        count(&mut self.failed, matches!(taken, Err(PortError::Failed)));
        taken
    }

    fn answer(&mut self, frame: &[u8]) -> Result<(), PortError> {
        let answered = self.inner.answer(frame);
        count(&mut self.failed, matches!(answered, Err(PortError::Failed)));
        answered
    }
}
