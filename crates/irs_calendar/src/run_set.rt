//! Business days as sorted runs, so that a business day is found in few steps.
//!
//! A set of business days is kept as its cover and its runs and nothing else. One call reads a run,
//! and each call is a step. So the number of steps of a search is the number of runs it reads.
ghost use Rattle.std.specs.Prelude.{◌≡◌, ◌+◌, ◌-◌, ◌*◌, ◌^◌, ◌<◌, ◌≤◌, ℤ, length, IfSome, IfNone};
ghost use Rattle.irs_calendar.specs.GoodDays.{Next, Prev, IsWhole, CoveredRuns, AreRuns, set_of_runs};

use crate::runs::{Run, Runs};
use crate::search::{End, count_before, count_near};
use crate::{GoodDays, Steps};
use irs_base::Day;
use std::marker::{Brand, Model};
use std::sync::ledger::{Blank, Ledger};

/// Business days as sorted runs in a cover. Every day of a run is a business day, and between two
/// runs lies at least one day that isn't. Contracts see the cover and the runs, and as `GoodDays`
/// the set of the runs' days.
#[derive(Drop)]
pub struct RunSet {
    first: Day,
    last: Day,
    runs: Runs,
}

impl Model for RunSet {
    ghost Value = { CoveredRuns };

    ghost view = { λ s. record { first = s.first; last = s.last; runs = s.runs } };

    ghost invariant = { λ s. AreRuns (record { first = s.first; last = s.last; runs = s.runs }) };
}

impl RunSet {
    /// The whole range of dates as one run: every day is a business day. No memory is taken.
    pub fn all() -> RunSet
        ensures whole { IsWhole (set_of_runs result) }
        ensures one { length result.runs ≡ 1 }
    {
        let (first, last) = (Day::earliest(), Day::latest());
        RunSet {
            first,
            last,
            runs: Runs::one(Run { first, last }),
        }
    }

    /// How many runs there are. No memory is taken.
    pub fn count(&self) -> u32
        ensures { result ≡ length self.now.runs }
    {
        let (_first, _last) = (self.first.number(), self.last.number());
        self.runs.count() as u32
    }

    /// As `next_good`, in at most as many steps as the number of runs has binary digits, and one
    /// more. A step is one run read.
    pub fn next_good_counted<L: Ledger>(&self, d: Day, steps: &mut Steps<L>) -> Option<Day>
        ensures some { IfSome result (Next (set_of_runs self.now) d) }
        ensures none { IfNone result ((r : ℤ) → Next (set_of_runs self.now) d r → ⊥) }
        ensures rises { steps.old ≤ steps.new }
        ensures cost { 2 ^ (steps.new - steps.old) ≤ 4 * length self.now.runs + 2 }
    {
        if d < self.first || self.last < d {
            return None;
        }
        let place = count_before(&self.runs, End::Last, d, steps);
        if place == self.runs.count() {
            return None;
        }
        let run = self.runs.read(place, steps);
        if d < run.first {
            Some(run.first)
        } else {
            Some(d)
        }
    }

    /// As `next_good_near`, in at most five steps more than `next_good_counted`.
    pub fn next_good_near_counted<L: Ledger>(
        &self,
        d: Day,
        near: usize,
        steps: &mut Steps<L>,
    ) -> (Option<Day>, usize)
        ensures some { IfSome result.0 (Next (set_of_runs self.now) d) }
        ensures none { IfNone result.0 ((r : ℤ) → Next (set_of_runs self.now) d r → ⊥) }
        ensures rises { steps.old ≤ steps.new }
        ensures cost { 2 ^ (steps.new - steps.old) ≤ 64 * length self.now.runs + 32 }
    {
        if d < self.first || self.last < d {
            return (None, near);
        }
        let place = count_near(&self.runs, End::Last, d, near, steps);
        if place == self.runs.count() {
            return (None, place);
        }
        let run = self.runs.read(place, steps);
        if d < run.first {
            (Some(run.first), place)
        } else {
            (Some(d), place)
        }
    }

    /// As `prev_good`, in at most as many steps as the number of runs has binary digits, and one
    /// more. A step is one run read.
    pub fn prev_good_counted<L: Ledger>(&self, d: Day, steps: &mut Steps<L>) -> Option<Day>
        ensures some { IfSome result (Prev (set_of_runs self.now) d) }
        ensures none { IfNone result ((r : ℤ) → Prev (set_of_runs self.now) d r → ⊥) }
        ensures rises { steps.old ≤ steps.new }
        ensures cost { 2 ^ (steps.new - steps.old) ≤ 4 * length self.now.runs + 2 }
    {
        if d < self.first || self.last < d {
            return None;
        }
        let place = count_before(&self.runs, End::First, d, steps);
        if place == 0 {
            return None;
        }
        let run = self.runs.read(place - 1, steps);
        if run.last < d {
            Some(run.last)
        } else {
            Some(d)
        }
    }

    /// The days of these runs.
    pub(crate) fn of_runs(first: Day, last: Day, runs: Vec<Run>) -> RunSet
        requires { AreRuns (record { first = first; last = last; runs = runs.items }) }
        ensures { result ≡ record { first = first; last = last; runs = runs.items } }
    {
        RunSet {
            first,
            last,
            runs: Runs::many(runs),
        }
    }

    // `next_good`, its steps not counted.
    fn next_from<L: Ledger>(&self, d: Day, blank: Blank) -> Option<Day>
        requires name { blank.name ≡ L.name }
        requires parts { blank.parts ≡ L.parts }
        requires positive { 0 < L.parts }
        ensures some { IfSome result (Next (set_of_runs self.now) d) }
        ensures none { IfNone result ((r : ℤ) → Next (set_of_runs self.now) d r → ⊥) }
    {
        self.next_good_counted::<L>(d, &mut Steps::new(blank))
    }

    // `next_good_near`, its steps not counted.
    fn next_near_from<L: Ledger>(&self, d: Day, near: usize, blank: Blank) -> (Option<Day>, usize)
        requires name { blank.name ≡ L.name }
        requires parts { blank.parts ≡ L.parts }
        requires positive { 0 < L.parts }
        ensures some { IfSome result.0 (Next (set_of_runs self.now) d) }
        ensures none { IfNone result.0 ((r : ℤ) → Next (set_of_runs self.now) d r → ⊥) }
    {
        self.next_good_near_counted::<L>(d, near, &mut Steps::new(blank))
    }

    // `prev_good`, its steps not counted.
    fn prev_from<L: Ledger>(&self, d: Day, blank: Blank) -> Option<Day>
        requires name { blank.name ≡ L.name }
        requires parts { blank.parts ≡ L.parts }
        requires positive { 0 < L.parts }
        ensures some { IfSome result (Prev (set_of_runs self.now) d) }
        ensures none { IfNone result ((r : ℤ) → Prev (set_of_runs self.now) d r → ⊥) }
    {
        self.prev_good_counted::<L>(d, &mut Steps::new(blank))
    }
}

impl GoodDays for RunSet {
    ghost days = { set_of_runs };

    fn cover(&self) -> (Day, Day) {
        let (_first, _last) = (self.first.number(), self.last.number());
        (self.first, self.last)
    }

    fn is_good(&self, d: Day) -> bool {
        match self.next_good(d) {
            Some(x) => x == d,
            None => false,
        }
    }

    fn next_good(&self, d: Day) -> Option<Day> {
        self.next_from::<Brand>(d, Blank::new(1))
    }

    fn next_good_near(&self, d: Day, near: usize) -> (Option<Day>, usize) {
        self.next_near_from::<Brand>(d, near, Blank::new(1))
    }

    fn prev_good(&self, d: Day) -> Option<Day> {
        self.prev_from::<Brand>(d, Blank::new(1))
    }
}
