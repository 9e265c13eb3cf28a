//! The day from which a grid counts, with its month worked out once for all questions.
ghost use Rattle.std.specs.Prelude.{◌≡◌, ℤ, pos, neg_ℤ};
ghost use Rattle.jiff_core.specs.Calendar.{IsBetween};
ghost use Rattle.irs_base.specs.Days.{first_month, last_month, first_year, last_year, month_index_of, InMonth};
ghost use Rattle.irs_roll.specs.Rolls.{MonthsTo};

use irs_base::{Civil, Day, month_index};
use std::marker::Model;

/// The anchor of a grid, which the roll need not fit. Contracts see its day.
#[derive(Drop)]
pub struct Anchor {
    day: Day,
    month: i32,
}

impl Model for Anchor {
    ghost Value = { ℤ };

    ghost view = { λ a. a.day };

    ghost invariant = { λ a. InMonth a.day a.month × IsBetween (pos first_month) (pos last_month) a.month };
}

impl Anchor {
    /// The anchor at a day.
    pub fn new(day: Day) -> Anchor
        ensures { result ≡ day }
    {
        Anchor {
            day,
            month: month_index(day),
        }
    }

    /// Its day.
    pub fn day(&self) -> Day
        ensures { result ≡ self.now }
    {
        self.day
    }

    /// How many months lie from the anchor's month to that of a date, whose year is in range.
    pub fn months_to(&self, date: Civil) -> i64
        requires { IsBetween (pos first_year) (pos last_year) date.year }
        ensures months { MonthsTo self.now (month_index_of date.year date.month) result }
        ensures near { IsBetween (neg_ℤ (pos 1_099_511_627_776)) (pos 1_099_511_627_776) result }
    {
        i64::from(12 * date.year + i32::from(date.month) - 1 - self.month)
    }
}
