//! The roll day of a month: the last day, the day with a number, or the third Wednesday. Futures of
//! the money market roll on the third Wednesday (IMM).
ghost use Rattle.std.specs.Prelude.{◌≡◌, ◌↔◌, ◌<◌, ◌≤◌, ◌-◌, ◌%◌, min, ℤ, pos, IsTrue, SomeIff};
ghost use Rattle.jiff_core.specs.Calendar.{IsBetween, days_in_month as length_of_month};
ghost use Rattle.irs_base.specs.Days.{IsCivilOf, IsDay, first_year, last_year, weekday_at, InMonth, day_in_month};
ghost use Rattle.irs_base.proofs.MonthLemmas.{day_in_month-in_month};
ghost use Rattle.irs_roll.specs.Rolls.{OnRollDay, IsLastDay, IsNumbered, IsThirdWednesday, last_day_of};
ghost use Rattle.irs_roll.specs.Rolls.{third_wednesday};
ghost use Rattle.irs_roll.specs.Private.Laws.{last_day-is, last_day_only, last_day-in_month, numbered-is};
ghost use Rattle.irs_roll.specs.Private.Laws.{numbered_only, third_wednesday-is, third_wednesday_only};
ghost use Rattle.irs_roll.specs.Private.Laws.{third_wednesday-in_month};

use irs_base::{Civil, Day, DayName, month_day, plus, weekday};
use jiff_core::civil::days_in_month;

/// A rule that gives each month one roll day. Months count from January of the year 0.
pub trait Roll {
    /// The day is the roll day of the month, as the rule says it.
    ghost rolls: { Self → ℤ → ℤ → Type 0 };

    /// The roll day of a month, for every month.
    ghost day: { Self → ℤ → ℤ };

    /// The roll day of a month; `None` exactly where it lies outside the range of dates.
    fn day_in(&self, month: i64) -> Option<Day>
        ensures { SomeIff result (IsDay (day self.now month)) (day self.now month) };

    /// Whether a day is the roll day of its month. The condition is that the date is that of the day.
    fn rolls_on(&self, d: Day, date: Civil) -> bool
        requires day { IsDay d }
        requires date { IsCivilOf d date }
        ensures { IsTrue result ↔ OnRollDay (rolls self.now) d };

    /// That day is the roll day.
    ghost is: { (r : Self) (m : ℤ) → rolls r m (day r m) };

    /// A month has no other roll day.
    ghost only: { (r : Self) (m d : ℤ) → rolls r m d → d ≡ day r m };

    /// The roll day of a month lies in the month.
    ghost stays: { (r : Self) (m : ℤ) → InMonth (day r m) m };
}

/// The day with a number from 1, or the last day where the month is shorter.
#[derive(Clone, Copy)]
pub struct DayNumber {
    number: u8,
    ghost counts_from_one: { 0 < number },
}

impl DayNumber {
    /// The day with that number, which is at least 1.
    pub fn new(number: u8) -> DayNumber
        requires { 0 < number }
        ensures { result.number ≡ number }
    {
        DayNumber { number }
    }
}

// Whether a date has that number in its month, or is its last day where the month is shorter.
fn has_number(date: Civil, number: u8) -> bool
    requires { IsBetween (pos first_year) (pos last_year) date.year }
    ensures { IsTrue result ↔ (date.day ≡ min number (length_of_month date.year date.month)) }
{
    date.day == number.min(days_in_month(date.year as i16, date.month))
}

impl Roll for DayNumber {
    ghost rolls = { λ r m d. IsNumbered r.number m d };

    ghost day = { λ r m. day_in_month r.number m };

    fn day_in(&self, month: i64) -> Option<Day> {
        month_day(month, self.number)
    }

    fn rolls_on(&self, _d: Day, date: Civil) -> bool {
        has_number(date, self.number)
    }

    ghost is = { λ r m. numbered-is r.number m r.counts_from_one };

    ghost only = { λ r m d h. numbered_only r.number m d h };

    ghost stays = { λ r m. day_in_month-in_month r.number m r.counts_from_one };
}

/// The last day (EOM).
#[derive(Clone, Copy)]
pub struct EndOfMonth;

impl Roll for EndOfMonth {
    ghost rolls = { λ _ m d. IsLastDay m d };

    ghost day = { λ _ m. last_day_of m };

    fn day_in(&self, month: i64) -> Option<Day> {
        month_day(month, 31)
    }

    fn rolls_on(&self, _d: Day, date: Civil) -> bool {
        has_number(date, 31)
    }

    ghost is = { λ _ m. last_day-is m };

    ghost only = { λ _ m d h. last_day_only m d h };

    ghost stays = { λ _ m. last_day-in_month m };
}

/// The third Wednesday (IMM).
#[derive(Clone, Copy)]
pub struct Imm;

// The number of days to the next Wednesday, 0 on a Wednesday.
fn to_wednesday(d: Day) -> i64
    ensures { result ≡ pos ((9 - weekday_at d) % 7) }
{
    match weekday(d) {
        DayName::Mon => 2,
        DayName::Tue => 1,
        DayName::Wed => 0,
        DayName::Thu => 6,
        DayName::Fri => 5,
        DayName::Sat => 4,
        DayName::Sun => 3,
    }
}

// Whether a day with that place in its month is a Wednesday from the 15th to the 21st.
fn is_third_wednesday(place: u8, d: Day) -> bool
    ensures { IsTrue result ↔ (((15 ≤ place) × (place ≤ 21)) × (weekday_at d ≡ 2)) }
{
    15 <= place && place <= 21 && weekday(d) == DayName::Wed
}

impl Roll for Imm {
    ghost rolls = { λ _ m d. IsThirdWednesday m d };

    ghost day = { λ _ m. third_wednesday m };

    // The third Wednesday is the first from the 15th on.
    fn day_in(&self, month: i64) -> Option<Day> {
        let fifteenth = month_day(month, 15)?;
        plus(fifteenth, to_wednesday(fifteenth))
    }

    fn rolls_on(&self, d: Day, date: Civil) -> bool {
        is_third_wednesday(date.day, d)
    }

    ghost is = { λ _ m. third_wednesday-is m };

    ghost only = { λ _ m d h. third_wednesday_only m d h };

    ghost stays = { λ _ m. third_wednesday-in_month m };
}
