//! What a calendar file says of one centre.
ghost use Rattle.std.specs.Prelude.{◌≡◌, ◌<◌};
ghost use Rattle.irs_base.specs.Days.{weekday_at};

use crate::holidays::Holidays;
use irs_base::{Day, FIRST_DAY, Text};

/// What a file says of one centre.
#[derive(Drop)]
pub struct Section {
    /// The centre, as `center` names it (FpML `businessCenter`).
    pub name: Text,
    /// The first day of its cover.
    pub first: Day,
    /// The last day of its cover; it is included.
    pub last: Day,
    /// Which weekdays are closed, from Monday.
    pub weekend: [bool; 7],
    /// The days that are closed whatever weekday they are.
    pub holidays: Holidays,
}

// This number of days before 1970-01-01 lies a Monday: the first day, 1901-01-01, is a Tuesday.
const SINCE_A_MONDAY: i32 = 1 - FIRST_DAY;

/// The place in the week, from Monday.
pub fn weekday_place(d: Day) -> usize
    ensures place { result ≡ weekday_at d }
    ensures range { result < 7 }
{
    let days = d.number() + SINCE_A_MONDAY;
    days as usize % 7
}
