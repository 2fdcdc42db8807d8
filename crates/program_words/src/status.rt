// The statuses that programs end with.
ghost use Rattle.std.specs.Prelude.{◌≡◌, ◌<◌, MatchOption};
ghost use Rattle.program_words.specs.Status.{code};

/// How a program ended.
#[derive(Clone, Copy, Debug, PartialEq, Eq)]
pub enum Status {
    /// It did what its words ask for.
    Done,
    /// It cannot listen at its address.
    CannotListen,
    /// Its words have another form.
    NoForm,
    /// Its input failed.
    SourceFailed,
    /// Its output failed.
    SinkFailed,
    /// Its image could not be read or written.
    KeeperFailed,
    /// What is kept under the image's name is another's, or none.
    OtherImage,
    /// Memory ran out.
    NoMemory,
    /// Its input is too long.
    TooLong,
    /// What it was to check was refused.
    Refused,
}

impl Status {
    /// The status for which a number stands.
    pub fn of(number: u8) -> Option<Status>
        ensures { MatchOption result (code Status.Refused < number) (λ status. code status ≡ number) }
    {
        match number {
            0 => Some(Status::Done),
            1 => Some(Status::CannotListen),
            2 => Some(Status::NoForm),
            3 => Some(Status::SourceFailed),
            4 => Some(Status::SinkFailed),
            5 => Some(Status::KeeperFailed),
            6 => Some(Status::OtherImage),
            7 => Some(Status::NoMemory),
            8 => Some(Status::TooLong),
            9 => Some(Status::Refused),
            _ => None,
        }
    }

    /// The number that stands for it.
    pub fn code(self) -> u8
        ensures { result ≡ code self }
    {
        match self {
            Status::Done => 0,
            Status::CannotListen => 1,
            Status::NoForm => 2,
            Status::SourceFailed => 3,
            Status::SinkFailed => 4,
            Status::KeeperFailed => 5,
            Status::OtherImage => 6,
            Status::NoMemory => 7,
            Status::TooLong => 8,
            Status::Refused => 9,
        }
    }

    /// Why a program ends with it, where it is the same in every program and run.
    pub fn reason(self) -> Option<&'static str> {
        match self {
            Status::NoForm => Some("see --help"),
            Status::NoMemory => Some("memory ran out"),
            Status::Done
            | Status::CannotListen
            | Status::SourceFailed
            | Status::SinkFailed
            | Status::KeeperFailed
            | Status::OtherImage
            | Status::TooLong
            | Status::Refused => None,
        }
    }
}
