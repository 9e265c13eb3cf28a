//! Grids of days and weeks: one day every given number of days from an anchor.
ghost use Rattle.std.specs.Prelude.{◌≡◌, ◌↔◌, ◌<◌, ℤ, pos};
ghost use Rattle.irs_base.specs.Days.{IsDay};
ghost use Rattle.irs_roll.specs.Rolls.{OnDays, kth};
ghost use Rattle.irs_roll.specs.Private.Laws.{kth_rises, OnDays-kth, kth-OnDays};

use crate::Grid;
use crate::steps::whole_steps;
use irs_base::{Day, plus};

/// One day every given number of days from an anchor: the frequencies in days and in weeks.
#[derive(Clone, Copy)]
pub struct EveryDays {
    anchor: Day,
    days: u32,
    ghost step: { 0 < days },
    ghost in_range: { IsDay anchor },
}

impl EveryDays {
    /// The days that lie a whole multiple of `days` from the anchor. The condition is that the
    /// step is at least 1 day; every anchor fits.
    pub fn new(anchor: Day, days: u32) -> EveryDays
        requires { 0 < days }
        ensures first { ⟦<EveryDays as Grid>⟧.at result (pos 0) ≡ anchor }
        ensures on { (d : ℤ) → ⟦<EveryDays as Grid>⟧.on result d ↔ OnDays days anchor d }
    {
        // hands the prover the range of the day
        let _in_range = anchor.number();
        EveryDays { anchor, days }
    }
}

impl Grid for EveryDays {
    ghost at = { λ g k. kth g.anchor g.days k };

    ghost on = { λ g d. OnDays g.days g.anchor d };

    fn nth(&self, k: i64) -> Option<Day> {
        plus(self.anchor, k.checked_mul(i64::from(self.days))?)
    }

    fn index(&self, d: Day) -> Option<i64> {
        let apart = i64::from(d.number() - self.anchor.number());
        whole_steps(apart, self.days)
    }

    fn on_grid(&self, d: Day) -> bool {
        self.index(d).is_some()
    }

    ghost nth_is_on = { λ g k. OnDays-kth g.days g.anchor k };

    ghost rises = { λ g j k h. kth_rises g.anchor g.days j k g.step h };

    ghost misses_none = { λ g d h. kth-OnDays g.days g.anchor d h };
}
