//! Actual days, and ACT/ACT.ISDA: the 2006 ISDA Definitions, section 4.16.
//!
//! ACT/ACT.ISDA is the days in leap years over 366 plus the other days over 365. Over the one
//! denominator 365 * 366, a day of a leap year has 365 parts and any other day 366. So each whole
//! year has 133590 parts, and the numerator is the difference of two places. The years and days in
//! between are not visited.
ghost use Rattle.std.specs.Prelude.{◌≡◌, ◌≤◌, ◌+◌, ◌-◌, ◌<ℤ◌, ◌-ℤ◌};
ghost use Rattle.std.specs.Int.{IsInRange};
ghost use Rattle.jiff_core.specs.Calendar.{IsCivilDate, day_of_year, days_of_months};
ghost use Rattle.irs_base.specs.Days.{IsDay, last_year};
ghost use Rattle.irs_daycount.specs.Fractions.{ActAct};
ghost use Rattle.irs_daycount.specs.Private.FractionLaws.{most_place, place_at, place_of_day};

use irs_base::{Civil, Day, civil_of};
use irs_terms::Frac;
use jiff_core::civil::is_leap_year;

/// 365 * 366: the parts of a year, so that a day is a whole number of them in both kinds of year.
const ACT_ACT_DENOMINATOR: u32 = 133_590;

/// The days from `s`, included, to `e`, excluded.
pub fn actual_days(s: Day, e: Day) -> i64
    ensures { result ≡ e -ℤ s }
{
    i64::from(e.number()) - i64::from(s.number())
}

/// The fraction of ACT/ACT.ISDA, over 133590.
pub fn act_act(s: Day, e: Day) -> Frac
    requires { s <ℤ e }
    ensures { ActAct s e result }
{
    Frac {
        num: i64::from(place(e)) - i64::from(place(s)),
        den: i64::from(ACT_ACT_DENOMINATOR),
    }
}

// Where the day begins, in parts of years that are counted from the year 0.
fn place(d: Day) -> u32
    ensures value { result ≡ place_of_day d }
    ensures range { result ≤ most_place }
    ensures day { IsDay d }
{
    let date = civil_of(d);
    place_at(date.year as u32, days_into_year(date))
}

fn place_at(year: u32, days: u32) -> u32
    requires year_fits { year ≤ last_year }
    requires days_fit { days ≤ 365 }
    ensures value { result ≡ place_at year days }
    ensures range { result ≤ most_place }
{
    if is_leap_year(year as i16) {
        ACT_ACT_DENOMINATOR * year + 365 * days
    } else {
        ACT_ACT_DENOMINATOR * year + 366 * days
    }
}

// The days of the date's year before it.
fn days_into_year(date: Civil) -> u32
    requires { IsCivilDate date.year date.month date.day }
    ensures value { result + 1 ≡ day_of_year date.year date.month date.day }
    ensures range { result ≤ 365 }
{
    days_before_month(date.year as i16, date.month) + u32::from(date.day) - 1
}

// The days of the year before the month.
fn days_before_month(year: i16, month: u8) -> u32
    requires { IsInRange 1 12 month }
    ensures value { result ≡ days_of_months year (month - 1) }
    ensures range { result ≤ 366 }
{
    const COMMON: [u32; 12] = [0, 31, 59, 90, 120, 151, 181, 212, 243, 273, 304, 334];
    let leap_day = if month > 2 && is_leap_year(year) {
        1
    } else {
        0
    };
    COMMON[month as usize - 1] + leap_day
}
