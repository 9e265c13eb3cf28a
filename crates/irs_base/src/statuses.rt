//! The exit statuses, which are our rule.
ghost use Rattle.std.specs.Prelude.{◌≡◌, IfSome, IfNone};
ghost use Rattle.irs_base.specs.Outcomes.{status_number};

/// How a run ends.
#[derive(Clone, Copy, PartialEq, Eq)]
pub enum Status {
    /// Done.
    Done,
    /// The cash flows don't agree with the schedule.
    NotAgreed,
    /// A rule is broken.
    RuleBroken,
    /// A calendar, fixing or flow file is outside its grammar or limits.
    BadFile,
    /// The words are no listed command.
    BadWords,
    /// A file can't be read.
    NoFile,
    /// A write failed.
    PutFailed,
    /// Memory ran out.
    NoMemory,
    /// A file is too long.
    TooLong,
    /// A word isn't text.
    NotText,
}

impl Status {
    /// The number of a status, 0 for `Done`.
    pub fn number(self) -> u8
        ensures { result ≡ status_number self }
    {
        match self {
            Status::Done => 0,
            Status::NotAgreed => 1,
            Status::RuleBroken => 2,
            Status::BadFile => 3,
            Status::BadWords => 4,
            Status::NoFile => 5,
            Status::PutFailed => 6,
            Status::NoMemory => 7,
            Status::TooLong => 8,
            Status::NotText => 9,
        }
    }

    /// The status with that number; `None` exactly where no status has it.
    pub fn of(number: u8) -> Option<Status>
        ensures some { IfSome result (λ s. status_number s ≡ number) }
        ensures none { IfNone result ((s : Status) → status_number s ≡ number → ⊥) }
    {
        match number {
            0 => Some(Status::Done),
            1 => Some(Status::NotAgreed),
            2 => Some(Status::RuleBroken),
            3 => Some(Status::BadFile),
            4 => Some(Status::BadWords),
            5 => Some(Status::NoFile),
            6 => Some(Status::PutFailed),
            7 => Some(Status::NoMemory),
            8 => Some(Status::TooLong),
            9 => Some(Status::NotText),
            _ => None,
        }
    }
}
