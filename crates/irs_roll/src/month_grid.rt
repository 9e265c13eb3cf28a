//! Grids of months and years: a roll day every given number of months from the anchor's month.
ghost use Rattle.std.specs.Prelude.{◌≡◌, ◌↔◌, ◌<◌, ◌≤◌, ℤ, pos, IfSome, IfNone};
ghost use Rattle.irs_base.specs.Days.{InMonth};
ghost use Rattle.irs_roll.specs.Rolls.{OnMonths, OnMonthsFrom, kth, IsLastDay, IsNumbered, IsThirdWednesday};
ghost use Rattle.irs_roll.specs.Private.Laws.{kth_rises, roll_rises, roll_is_on, roll_misses_none};

use crate::Grid;
use crate::rolls::{DayNumber, EndOfMonth, Imm, Roll};
use crate::steps::whole_steps;
use irs_base::{Day, month_index};

/// A roll day every given number of months. Months count from the anchor's month, never from the
/// previous roll day. So after a short month the roll day is again the one that the rule gives.
#[derive(Drop)]
pub struct MonthGrid<R: Roll> {
    roll: R,
    start: i32,
    months: u32,
    anchor: Day,
    ghost step: { 0 < months },
    ghost begins: { InMonth anchor start },
    ghost fits: { R.day roll start ≡ anchor },
}

/// A day number from 1 to 30, or the last day where the month is shorter.
pub type MonthDay = MonthGrid<DayNumber>;

/// The last day of the month (EOM).
pub type MonthEnd = MonthGrid<EndOfMonth>;

/// The third Wednesday of the month (IMM).
pub type ThirdWednesday = MonthGrid<Imm>;

impl<R: Roll> MonthGrid<R> {
    /// The grid of the roll days by one rule. The conditions are that the anchor is the roll day of
    /// its month and that the step is at least 1 month.
    fn of(anchor: Day, months: u32, roll: R) -> MonthGrid<R>
        requires step { 0 < months }
        requires fits { (m : ℤ) → InMonth anchor m → R.rolls roll m anchor }
        ensures first { ⟦<MonthGrid<R> as Grid>⟧.at result (pos 0) ≡ anchor }
        ensures on { (d : ℤ) → ⟦<MonthGrid<R> as Grid>⟧.on result d ↔ OnMonths (R.rolls roll) months anchor d }
    {
        MonthGrid {
            roll,
            start: month_index(anchor),
            months,
            anchor,
        }
    }
}

impl MonthGrid<DayNumber> {
    /// The grid of a day number from 1 to 30. The conditions are that the anchor is that day of its
    /// month and that the step is at least 1 month.
    pub fn new(anchor: Day, months: u32, day: u8) -> MonthDay
        requires step { 0 < months }
        requires number { (1 ≤ day) × (day ≤ 30) }
        requires fits { (m : ℤ) → InMonth anchor m → IsNumbered day m anchor }
        ensures first { ⟦<MonthGrid<DayNumber> as Grid>⟧.at result (pos 0) ≡ anchor }
        ensures on { (d : ℤ) → ⟦<MonthGrid<DayNumber> as Grid>⟧.on result d
            ↔ OnMonths (IsNumbered day) months anchor d }
    {
        MonthGrid::of(anchor, months, DayNumber::new(day))
    }
}

impl MonthGrid<EndOfMonth> {
    /// The grid of last days. The conditions are that the anchor is the last day of its month and
    /// that the step is at least 1 month.
    pub fn new(anchor: Day, months: u32) -> MonthEnd
        requires step { 0 < months }
        requires fits { (m : ℤ) → InMonth anchor m → IsLastDay m anchor }
        ensures first { ⟦<MonthGrid<EndOfMonth> as Grid>⟧.at result (pos 0) ≡ anchor }
        ensures on { (d : ℤ) → ⟦<MonthGrid<EndOfMonth> as Grid>⟧.on result d ↔ OnMonths IsLastDay months anchor d }
    {
        MonthGrid::of(anchor, months, EndOfMonth)
    }
}

impl MonthGrid<Imm> {
    /// The grid of third Wednesdays. The conditions are that the anchor is the third Wednesday of
    /// its month and that the step is at least 1 month.
    pub fn new(anchor: Day, months: u32) -> ThirdWednesday
        requires step { 0 < months }
        requires fits { (m : ℤ) → InMonth anchor m → IsThirdWednesday m anchor }
        ensures first { ⟦<MonthGrid<Imm> as Grid>⟧.at result (pos 0) ≡ anchor }
        ensures on { (d : ℤ) → ⟦<MonthGrid<Imm> as Grid>⟧.on result d ↔ OnMonths IsThirdWednesday months anchor d }
    {
        MonthGrid::of(anchor, months, Imm)
    }
}

impl<R: Roll> Grid for MonthGrid<R> {
    ghost at = { λ g k. R.day g.roll (kth g.start g.months k) };

    ghost on = { λ g d. OnMonths (R.rolls g.roll) g.months g.anchor d };

    fn nth(&self, k: i64) -> Option<Day> {
        let month = i64::from(self.start).checked_add(k.checked_mul(i64::from(self.months))?)?;
        self.roll.day_in(month)
    }

    fn index(&self, d: Day) -> Option<i64> {
        steps_to(&self.roll, self.months, self.start, d)
    }

    fn on_grid(&self, d: Day) -> bool {
        self.index(d).is_some()
    }

    ghost nth_is_on = { λ g k. roll_is_on (R.rolls g.roll) (R.day g.roll) (R.is g.roll) (R.only g.roll)
        (R.stays g.roll) g.months g.anchor g.start k g.begins };

    ghost rises = { λ g j k h. roll_rises (R.day g.roll) (R.stays g.roll) (kth g.start g.months j) (kth g.start g.months k)
        (kth_rises g.start g.months j k g.step h) };

    ghost misses_none = { λ g d h. roll_misses_none (R.rolls g.roll) (R.day g.roll) (R.is g.roll) (R.only g.roll)
        (R.stays g.roll) g.months g.anchor g.start d g.begins h };
}

/// The number of steps of months from the month `start` to a roll day, or `None` exactly off the
/// grid. Months count from January of the year 0.
fn steps_to<R: Roll>(roll: &R, months: u32, start: i32, d: Day) -> Option<i64>
    requires step { 0 < months }
    ensures some { IfSome result (λ k. R.day roll.now (kth start months k) ≡ d) }
    ensures none { IfNone result (OnMonthsFrom (R.rolls roll.now) months start d → ⊥) }
{
    let month = month_index(d);
    let rolled = roll.day_in(i64::from(month))?;
    if rolled.number() != d.number() {
        return None;
    }
    whole_steps(i64::from(month) - i64::from(start), months)
}
