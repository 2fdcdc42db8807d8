// What takes connections.
ghost use Rattle.std.specs.Prelude.{◌≡◌, ◌-◌, ◌↔◌, None, Ok};
ghost use Rattle.outside.specs.Outside.{Told, CountsFault};
ghost use Rattle.outside.specs.Port.{PortTelling, AddsTalks, talks_begun, AnswersLast};

use crate::PortError;

/// The most connections that a port takes, and that a run serves.
pub const MOST_CONNECTIONS: u32 = 65_536;

/// Connections that come in one after the other, each with one frame, and each to be answered by one.
pub trait Port {
    /// What the port tells of itself.
    ghost tells: { Self → PortTelling };

    /// Takes the frame of the next connection; `None` where no connection is left. Where one is left it is used up, also
    /// by a take that is refused.
    ///
    /// # Errors
    ///
    /// `Failed` is counted. Either refusal takes no frame.
    fn take(&mut self) -> Result<Option<Vec<u8>>, PortError>
        ensures left { (tells self.new).left ≡ (tells self.old).left - 1 }
        ensures none { (result ≡ Ok None) ↔ ((tells self.old).left ≡ 0) }
        ensures talks { AddsTalks (tells self.old).talks (tells self.new).talks (talks_begun result) }
        ensures cause { CountsFault PortError.Failed (tells self.old).faults (tells self.new).faults result };

    /// Answers the connection whose frame was taken last, where it has no answer yet.
    ///
    /// # Errors
    ///
    /// `Failed` is counted. Either refusal answers nothing.
    fn answer(&mut self, frame: &[u8]) -> Result<(), PortError>
        ensures left { (tells self.new).left ≡ (tells self.old).left }
        ensures talks { Told (tells self.old).talks (tells self.new).talks (AnswersLast frame.now result) }
        ensures cause { CountsFault PortError.Failed (tells self.old).faults (tells self.new).faults result };
}
