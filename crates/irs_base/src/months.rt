//! Months, counted from January of the year 0: `12*year + month - 1`.
ghost use Rattle.std.specs.Prelude.{◌≡◌, ◌<◌, ◌≤◌, pos, SomeIff};
ghost use Rattle.irs_base.specs.Days.{IsDay, first_month, last_month, InMonth, day_in_month};
ghost use Rattle.jiff_core.specs.Calendar.{IsBetween};

use crate::day::day_of_date;
use crate::{Day, civil_of};
use jiff_core::civil::Date;

/// The month of January 1901.
const FIRST_MONTH: i64 = 22_812;

/// The month of December 2299.
const LAST_MONTH: i64 = 27_599;

/// The month in which a day lies.
pub fn month_index(d: Day) -> i32
    ensures month { InMonth d result }
    ensures range { IsBetween (pos first_month) (pos last_month) result }
    ensures day { IsDay d }
{
    let c = civil_of(d);
    12 * c.year + i32::from(c.month) - 1
}

/// The day of a month with that number, or its last day where the month is shorter; `None` exactly
/// where that day isn't in range.
pub fn month_day(m: i64, n: u8) -> Option<Day>
    requires { 0 < n }
    ensures { SomeIff result (IsDay (day_in_month n m)) (day_in_month n m) }
{
    if m < FIRST_MONTH || m > LAST_MONTH {
        return None;
    }
    Some(day_of_month(m as u32, n))
}

// The same for a month of the range, all of whose days are in range.
fn day_of_month(index: u32, n: u8) -> Day
    requires number { 0 < n }
    requires low { first_month ≤ index }
    requires high { index ≤ last_month }
    ensures { result ≡ day_in_month n (pos index) }
{
    let date = Date::constrain((index / 12) as i16, (index % 12 + 1) as u8, n);
    day_of_date(date)
}
