//! Days: the dates of the proleptic Gregorian calendar from 1901-01-01 to 2299-12-31, counted from
//! 1970-01-01.
//!
//! The range is our rule; the calendar is that of ISO 8601, by `jiff`'s core.
ghost use Rattle.std.specs.Prelude.{◌≡◌, ℤ, pos, ◌+ℤ◌, ◌≤ℤ◌, IfSome, IfNone, SomeIff};
ghost use Rattle.irs_base.specs.Days.{IsDay, first_day, first_year, last_day, last_year, weekday_at};

use jiff_core::civil::{Date, Weekday};
use std::marker::Model;

/// The number of the first day, 1901-01-01.
pub const FIRST_DAY: i32 = -25_202;

/// The number of the last day, 2299-12-31.
pub const LAST_DAY: i32 = 120_529;

/// A date of the proleptic Gregorian calendar as three numbers, of which there may be no such date.
#[derive(Clone, Copy)]
pub struct Civil {
    /// The year; the year 0 is 1 BCE.
    pub year: i32,
    /// The month, from 1 to 12.
    pub month: u8,
    /// The day of the month, from 1.
    pub day: u8,
}

/// A day of the week.
#[derive(Clone, Copy, Debug, PartialEq, Eq)]
pub enum DayName {
    /// Monday, the first day of the week (ISO 8601).
    Mon,
    /// Tuesday.
    Tue,
    /// Wednesday.
    Wed,
    /// Thursday.
    Thu,
    /// Friday.
    Fri,
    /// Saturday.
    Sat,
    /// Sunday, the last day of the week.
    Sun,
}

/// A day from 1901-01-01 to 2299-12-31. Contracts see its number, counted from 1970-01-01.
#[derive(Clone, Copy, PartialEq, Eq, PartialOrd, Ord)]
pub struct Day {
    number: i32,
}

impl Model for Day {
    ghost Value = { ℤ };

    ghost view = { λ d. d.number };

    ghost invariant = { λ d. IsDay d.number };

    ghost inverse = { λ n. record { number = n } };
}

impl Day {
    /// The first day, 1901-01-01.
    pub fn earliest() -> Day
        ensures { result ≡ first_day }
    {
        Day { number: FIRST_DAY }
    }

    /// The last day, 2299-12-31.
    pub fn latest() -> Day
        ensures { result ≡ last_day }
    {
        Day { number: LAST_DAY }
    }

    /// The number of days since 1970-01-01, negative before it.
    pub fn number(self) -> i32
        ensures value { result ≡ self }
        ensures range { IsDay self }
    {
        self.number
    }
}

ghost use Rattle.irs_base.specs.Days.{IsCivilOf, place_in_week, year_of, month_of, day_of_month};
ghost use Rattle.jiff_core.specs.Date.{epoch_day};
ghost use Rattle.jiff_core.specs.Calendar.{IsCivilDate, IsBetween};

/// The day of a date; `None` exactly where no day in range has it.
pub fn day_of(c: Civil) -> Option<Day>
    ensures some { IfSome result (λ d. IsCivilOf d c) }
    ensures range { IfSome result (λ d. IsDay d) }
    ensures none { IfNone result ((d : ℤ) → IsDay d → IsCivilOf d c → ⊥) }
{
    let (Ok(year), Ok(month), Ok(day)) = (
        i16::try_from(c.year),
        i8::try_from(c.month),
        i8::try_from(c.day),
    ) else {
        return None;
    };
    let Ok(date) = Date::new(year, month, day) else {
        return None;
    };
    let number = date.to_unix_epoch_day();
    if number < FIRST_DAY || number > LAST_DAY {
        return None;
    }
    Some(Day { number })
}

/// The day of a date in range.
pub(crate) fn day_of_date(date: Date) -> Day
    requires { IsDay (epoch_day date) }
    ensures { result ≡ epoch_day date }
{
    Day {
        number: date.to_unix_epoch_day(),
    }
}

// The number of days from -9999-01-01, the first date of `jiff`, to 1970-01-01.
const EPOCH: i32 = 4_371_587;

fn date_of(d: Day) -> Date
    ensures value { epoch_day result ≡ d }
    ensures civil { IsCivilDate result.year result.month result.day }
    ensures day { IsDay d }
{
    Date::from_days_since_min((d.number + EPOCH) as u32)
}

/// The date of a day.
#[tactic(auto, using(crate::proofs::Dates::year_range))]
pub fn civil_of(d: Day) -> Civil
    ensures date { IsCivilOf d result }
    ensures range { IsBetween (pos first_year) (pos last_year) result.year }
    ensures exact { (result.year ≡ pos (year_of d)) × (result.month ≡ month_of d) × (result.day ≡ day_of_month d) }
    ensures day { IsDay d }
{
    let date = date_of(d);
    Civil {
        year: i32::from(date.year),
        month: date.month,
        day: date.day,
    }
}

/// The day of the week. Day 0 is a Thursday.
pub fn weekday(d: Day) -> DayName
    ensures name { place_in_week result ≡ weekday_at d }
    ensures day { IsDay d }
{
    match date_of(d).weekday() {
        Weekday::Monday => DayName::Mon,
        Weekday::Tuesday => DayName::Tue,
        Weekday::Wednesday => DayName::Wed,
        Weekday::Thursday => DayName::Thu,
        Weekday::Friday => DayName::Fri,
        Weekday::Saturday => DayName::Sat,
        Weekday::Sunday => DayName::Sun,
    }
}

/// The day that lies n days on, or back where n is negative; `None` exactly out of range.
pub fn plus(d: Day, n: i64) -> Option<Day>
    ensures { SomeIff result (IsDay (d +ℤ n)) (d +ℤ n) }
{
    let number = i64::from(d.number).checked_add(n)?;
    if number < i64::from(FIRST_DAY) || number > i64::from(LAST_DAY) {
        return None;
    }
    Some(Day {
        number: number as i32,
    })
}

/// The day that lies k days on, where it is in range.
pub fn ahead(d: Day, k: u32) -> Day
    requires { (d +ℤ pos k) ≤ℤ last_day }
    ensures { result ≡ d +ℤ pos k }
{
    Day {
        number: d.number + k as i32,
    }
}
