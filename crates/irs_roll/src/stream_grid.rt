//! The grid of a frequency and a roll convention, whichever kind they give.
ghost use Rattle.std.specs.Prelude.{◌≡◌, ◌↔◌, ◌<◌, ℤ, pos};
ghost use Rattle.irs_roll.specs.Rolls.{OnMonths, OnRollDay, Fits, IsRollDay, OnGrid};
ghost use Rattle.irs_roll.specs.Private.Laws.{kth_rises, OnDays-kth, kth-OnDays, number_is_on, number_rises};
ghost use Rattle.irs_roll.specs.Private.Laws.{number_misses_none, end_is_on, end_rises, end_misses_none};
ghost use Rattle.irs_roll.specs.Private.Laws.{wednesday_is_on, wednesday_rises, wednesday_misses_none};
ghost use Rattle.irs_terms.specs.TermDates.{IsWholeTerm, RollsMonths, Suits};

use crate::{EveryDays, Grid, MonthDay, MonthEnd, ThirdWednesday};
use irs_base::Day;
use irs_terms::{Frequency, RollCode, Unit};

/// The grid of a stream's frequency and roll, one variant a kind.
#[derive(Drop)]
pub enum StreamGrid {
    /// Days and weeks.
    Days(EveryDays),
    /// Months and years that roll on a day number.
    Numbers(MonthDay),
    /// Months and years that roll on the last day.
    Ends(MonthEnd),
    /// Months and years that roll on the third Wednesday.
    Wednesdays(ThirdWednesday),
}

impl Grid for StreamGrid {
    ghost use Rattle.irs_roll.specs.declared.stream_grid.StreamGrid.TheVariants.{Days, Numbers, Ends, Wednesdays};

    ghost at = { elim [
      | Days g ↦ ⟦<EveryDays as Grid>⟧.at g
      | Numbers g ↦ ⟦<MonthDay as Grid>⟧.at g
      | Ends g ↦ ⟦<MonthEnd as Grid>⟧.at g
      | Wednesdays g ↦ ⟦<ThirdWednesday as Grid>⟧.at g
    ] };

    ghost on = { elim [
      | Days g ↦ ⟦<EveryDays as Grid>⟧.on g
      | Numbers g ↦ ⟦<MonthDay as Grid>⟧.on g
      | Ends g ↦ ⟦<MonthEnd as Grid>⟧.on g
      | Wednesdays g ↦ ⟦<ThirdWednesday as Grid>⟧.on g
    ] };

    fn nth(&self, k: i64) -> Option<Day> {
        match self {
            StreamGrid::Days(grid) => grid.nth(k),
            StreamGrid::Numbers(grid) => grid.nth(k),
            StreamGrid::Ends(grid) => grid.nth(k),
            StreamGrid::Wednesdays(grid) => grid.nth(k),
        }
    }

    fn index(&self, d: Day) -> Option<i64> {
        match self {
            StreamGrid::Days(grid) => grid.index(d),
            StreamGrid::Numbers(grid) => grid.index(d),
            StreamGrid::Ends(grid) => grid.index(d),
            StreamGrid::Wednesdays(grid) => grid.index(d),
        }
    }

    fn on_grid(&self, d: Day) -> bool {
        match self {
            StreamGrid::Days(grid) => grid.on_grid(d),
            StreamGrid::Numbers(grid) => grid.on_grid(d),
            StreamGrid::Ends(grid) => grid.on_grid(d),
            StreamGrid::Wednesdays(grid) => grid.on_grid(d),
        }
    }

    ghost nth_is_on = { elim [
      | Days g ↦ λ k. OnDays-kth g.days g.anchor k
      | Numbers g ↦ λ k. number_is_on g.months g.anchor g.start g.begins g.roll.number g.roll.counts_from_one k
      | Ends g ↦ λ k. end_is_on g.months g.anchor g.start g.begins k
      | Wednesdays g ↦ λ k. wednesday_is_on g.months g.anchor g.start g.begins k
    ] };

    ghost rises = { elim [
      | Days g ↦ λ j k h. kth_rises g.anchor g.days j k g.step h
      | Numbers g ↦ λ j k h. number_rises g.months g.start g.step j k h g.roll.number g.roll.counts_from_one
      | Ends g ↦ λ j k h. end_rises g.months g.start g.step j k h
      | Wednesdays g ↦ λ j k h. wednesday_rises g.months g.start g.step j k h
    ] };

    ghost misses_none = { elim [
      | Days g ↦ λ d h. kth-OnDays g.days g.anchor d h
      | Numbers g ↦
          λ d h. number_misses_none g.months g.anchor g.start g.begins g.roll.number g.roll.counts_from_one d h
      | Ends g ↦ λ d h. end_misses_none g.months g.anchor g.start g.begins d h
      | Wednesdays g ↦ λ d h. wednesday_misses_none g.months g.anchor g.start g.begins d h
    ] };
}

impl StreamGrid {
    /// The grid of a frequency and a roll from an anchor. The conditions: the frequency isn't the
    /// term, its multiplier is at least 1, the roll suits it, and the roll fits the anchor.
    pub fn new(freq: Frequency, roll: RollCode, anchor: Day) -> StreamGrid
        requires term { ¬ (IsWholeTerm freq) }
        requires step { 0 < freq.count }
        requires suits { Suits freq roll }
        requires fits { Fits roll freq anchor }
        ensures first { ⟦<StreamGrid as Grid>⟧.at result (pos 0) ≡ anchor }
        ensures on { (d : ℤ) → ⟦<StreamGrid as Grid>⟧.on result d ↔ OnGrid freq roll anchor d }
    {
        let count = u32::from(freq.count);
        match freq.unit {
            Unit::D => StreamGrid::Days(EveryDays::new(anchor, count)),
            Unit::W => StreamGrid::Days(EveryDays::new(anchor, 7 * count)),
            Unit::M => StreamGrid::of_months(roll, anchor, count),
            Unit::Y => StreamGrid::of_months(roll, anchor, 12 * count),
            Unit::T => unreachable!(),
        }
    }

    // The grid with a day every `months` months.
    fn of_months(roll: RollCode, anchor: Day, months: u32) -> StreamGrid
        requires step { 0 < months }
        requires suits { RollsMonths roll }
        requires fits { OnRollDay (IsRollDay roll) anchor }
        ensures first { ⟦<StreamGrid as Grid>⟧.at result (pos 0) ≡ anchor }
        ensures on { (d : ℤ) → ⟦<StreamGrid as Grid>⟧.on result d ↔ OnMonths (IsRollDay roll) months anchor d }
    {
        match roll {
            RollCode::Eom => StreamGrid::Ends(MonthEnd::new(anchor, months)),
            RollCode::Dom(day) => StreamGrid::Numbers(MonthDay::new(anchor, months, day)),
            RollCode::Imm => StreamGrid::Wednesdays(ThirdWednesday::new(anchor, months)),
            RollCode::OnWeekday(_) | RollCode::NoRoll => unreachable!(),
        }
    }
}
