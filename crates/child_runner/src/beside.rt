// Removals that go on beside, and that nothing waits for.
use crate::removing::{Left, REMOVER, can_remove};
use crate::trouble::RunTrouble;
use crate::works::Work;
use programs_apart::{begun, ended};
use std::alloc::{AllocGlobal, Global};
use std::fs::{File, Files};
use std::io::Eprint;
use std::process::{Child, Processes, Stdio};
use std::time::Clock;

/// The most removals of one runner that go on beside; one more is waited for.
pub const MAX_BESIDE: usize = 4;

/// A removal that goes on, with the folder that it removes and the user whose folder that is.
#[derive(Drop)]
struct Removal<R: Processes> {
    child: Child<R::Started>,
    place: String,
    user: u32,
}

/// The removals that were started and have not been asked for since they ended.
#[derive(Drop)]
pub(crate) struct Removals<R: Processes> {
    going: Vec<Removal<R>>,
}

impl<R: Files<File = File> + Processes + AllocGlobal + Clock + Eprint> Removals<R> {
    pub(crate) fn new(alloc: Global) -> Removals<R> {
        Removals {
            going: Vec::new(alloc),
        }
    }

    /// Starts the removal of a folder that was read back whole, in which its owner may so remove all. What removes reads the file of
    /// the lock, and holds the lock as long as it goes on; that file goes last. The folder comes back where as many removals go on as
    /// may, and where no program removes.
    pub(crate) fn begin(
        &mut self,
        host: &R,
        work: &Work<'_>,
        left: Left,
    ) -> Result<Option<Left>, RunTrouble> {
        if self.going.len() >= MAX_BESIDE || !can_remove(host) {
            return Ok(Some(left));
        }
        let removal = Removal::begun(host, work, left)?;
        self.going.push(removal)?;
        Ok(None)
    }

    /// Asks for the removals that have ended, so that nothing is left of them. What one of them did not remove is removed by a shell,
    /// also beside.
    pub(crate) fn settle(&mut self, host: &R) -> Result<(), RunTrouble> {
        let mut going = Vec::new(host.alloc());
        let mut settled = Ok(());
        for _ in 0..self.going.len() {
            let Some(removal) = self.going.pop() else {
                break;
            };
            match removal.settled(host) {
                Ok(Some(removal)) => going.push(removal)?,
                Ok(None) => {}
                Err(trouble) => settled = Err(trouble),
            }
        }
        self.going = going;
        settled
    }
}

impl<R: Files<File = File> + Processes + AllocGlobal + Clock + Eprint> Removal<R> {
    fn begun(host: &R, work: &Work<'_>, left: Left) -> Result<Removal<R>, RunTrouble> {
        let (place, lock, file) = left.into_parts();
        let words = ["-rf", "--", place.as_str(), lock.as_str()];
        let child = begun(host, REMOVER, &words, Stdio::from(file));
        drop(lock);
        match child {
            Ok(child) => Ok(Removal {
                child,
                place,
                user: work.user,
            }),
            Err(trouble) => {
                drop(place);
                Err(trouble)
            }
        }
    }

    /// The removal where it goes on. Where it ended, but not well, another one is started.
    fn settled(mut self, host: &R) -> Result<Option<Removal<R>>, RunTrouble> {
        match ended(host, &mut self.child) {
            Ok(None) => Ok(Some(self)),
            Ok(Some(status)) if status.success() => {
                drop(self);
                Ok(None)
            }
            Ok(Some(_)) => self.again(host),
            Err(trouble) => {
                drop(self);
                Err(trouble)
            }
        }
    }

    /// Has what it left removed, where nobody else does that by now.
    fn again(self, host: &R) -> Result<Option<Removal<R>>, RunTrouble> {
        let Removal { child, place, user } = self;
        drop(child);
        match Left::take_for(host, user, place)? {
            Some(left) => match left.hand_over(host) {
                Ok(()) => Ok(None),
                Err(trouble) => Err(trouble),
            },
            None => Ok(None),
        }
    }
}
