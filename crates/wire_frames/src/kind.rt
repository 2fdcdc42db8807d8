//! Kinds, and what every message of a kind has.

ghost use Rattle.std.specs.Prelude.{◌≡◌};
ghost use Rattle.wire_frames.specs.Frame.{kind, client_of, number_of, code_of, client_rule, number_rule};
ghost use Rattle.wire_frames.specs.Reading.{kind_of};

use crate::message::{CLIENTS, Kind, Message};

/// The version of the format, byte 4 of each frame.
pub(crate) const FRAME_VERSION: u8 = 3;

impl Kind {
    /// The kind with this code; `None` where there is none.
    pub fn of(code: u8) -> Option<Kind>
        ensures { result ≡ kind_of code }
    {
        match code {
            1 => Some(Kind::Store),
            2 => Some(Kind::Operate),
            3 => Some(Kind::Pull),
            17 => Some(Kind::Accepted),
            18 => Some(Kind::Stale),
            19 => Some(Kind::Unfit),
            20 => Some(Kind::Gap),
            21 => Some(Kind::Snapshot),
            22 => Some(Kind::Done),
            23 => Some(Kind::Declined),
            24 => Some(Kind::Full),
            31 => Some(Kind::Malformed),
            _ => None,
        }
    }

    /// The byte that tells the kind.
    pub fn code(self) -> u8
        ensures { result ≡ code_of self }
    {
        match self {
            Kind::Store => 1,
            Kind::Operate => 2,
            Kind::Pull => 3,
            Kind::Accepted => 17,
            Kind::Stale => 18,
            Kind::Unfit => 19,
            Kind::Gap => 20,
            Kind::Snapshot => 21,
            Kind::Done => 22,
            Kind::Declined => 23,
            Kind::Full => 24,
            Kind::Malformed => 31,
        }
    }

    /// Whether a message of the kind may have this client.
    pub fn takes_client(self, client: u8) -> bool
        ensures { result ≡ client_rule self client }
    {
        match self {
            Kind::Malformed => client == 0,
            _ => client >= 1 && client <= CLIENTS,
        }
    }

    /// Whether a message of the kind may have this number.
    pub fn takes_number(self, number: u64) -> bool
        ensures { result ≡ number_rule self number }
    {
        match self {
            Kind::Pull | Kind::Snapshot => true,
            Kind::Malformed => number == 0,
            _ => number >= 1,
        }
    }
}

impl Message {
    /// Which message it is.
    pub fn kind(&self) -> Kind
        ensures { result ≡ kind self.now }
    {
        match self {
            Message::Store { .. } => Kind::Store,
            Message::Operate { .. } => Kind::Operate,
            Message::Pull { .. } => Kind::Pull,
            Message::Accepted { .. } => Kind::Accepted,
            Message::Stale { .. } => Kind::Stale,
            Message::Unfit { .. } => Kind::Unfit,
            Message::Gap { .. } => Kind::Gap,
            Message::Snapshot { .. } => Kind::Snapshot,
            Message::Done { .. } => Kind::Done,
            Message::Declined { .. } => Kind::Declined,
            Message::Full { .. } => Kind::Full,
            Message::Malformed { .. } => Kind::Malformed,
        }
    }

    /// The number of the client, from 1 to `CLIENTS`; 0 for a `Malformed`.
    pub fn client(&self) -> u8
        ensures { result ≡ client_of self.now }
    {
        match self {
            Message::Store { client, .. }
            | Message::Operate { client, .. }
            | Message::Pull { client, .. }
            | Message::Accepted { client, .. }
            | Message::Stale { client, .. }
            | Message::Unfit { client, .. }
            | Message::Gap { client, .. }
            | Message::Snapshot { client, .. }
            | Message::Done { client, .. }
            | Message::Declined { client, .. }
            | Message::Full { client, .. } => *client,
            Message::Malformed { .. } => 0,
        }
    }

    /// The number of the request or of the request that is answered, that of a `Store` is its first entry's, that of an
    /// `Operate` is its entry's; 0 for a `Malformed`.
    pub fn number(&self) -> u64
        ensures { result ≡ number_of self.now }
    {
        match self {
            Message::Store { number, .. }
            | Message::Pull { number, .. }
            | Message::Accepted { number, .. }
            | Message::Stale { number, .. }
            | Message::Unfit { number, .. }
            | Message::Gap { number, .. }
            | Message::Snapshot { number, .. }
            | Message::Done { number, .. }
            | Message::Declined { number, .. }
            | Message::Full { number, .. } => *number,
            Message::Operate { entry, .. } => entry.seq,
            Message::Malformed { .. } => 0,
        }
    }
}
