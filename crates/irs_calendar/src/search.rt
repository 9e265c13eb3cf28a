//! Binary search in runs.
ghost use Rattle.std.specs.Prelude.{◌≡◌, ◌+◌, ◌-◌, ◌*◌, ◌^◌, ◌≤◌, length, IsTrue};
ghost use Rattle.irs_calendar.specs.Private.Closed.{begins_or_ends_before, IsDownward, Splits};

use crate::Steps;
use crate::runs::{Run, Runs};
use irs_base::Day;
use std::sync::ledger::Ledger;

/// Which end of a run is compared with a day.
#[derive(Clone, Copy)]
pub enum End {
    /// The first day: a run comes before the days from its first one on.
    First,
    /// The last day: a run comes before the days that are later than its last one.
    Last,
}

/// The run begins at or before the day, or ends before it.
pub fn is_before(end: End, run: Run, d: Day) -> bool
    ensures { result ≡ begins_or_ends_before end d run }
{
    match end {
        End::First => run.first <= d,
        End::Last => run.last < d,
    }
}

/// How many of the runs come before the day.
pub fn count_before<L: Ledger>(runs: &Runs, end: End, d: Day, steps: &mut Steps<L>) -> usize
    requires { IsDownward (begins_or_ends_before end d) runs.now }
    ensures place { Splits (begins_or_ends_before end d) runs.now result }
    ensures rises { steps.old ≤ steps.new }
    ensures cost { 2 ^ (steps.new - steps.old) ≤ 2 * length runs.now + 1 }
{
    let mut low = 0;
    let mut high = runs.count();
    while low < high {
        let mid = low + (high - low) / 2;
        let run = runs.read(mid, steps);
        if is_before(end, run, d) {
            low = mid + 1;
        } else {
            high = mid;
        }
    }
    low
}

// Whether the run before a place comes before the day, and the run at the place doesn't. It reads at most
// two runs.
fn is_cut<L: Ledger>(runs: &Runs, end: End, d: Day, place: usize, steps: &mut Steps<L>) -> bool
    requires { IsDownward (begins_or_ends_before end d) runs.now }
    ensures place { IsTrue result → Splits (begins_or_ends_before end d) runs.now place }
    ensures rises { steps.old ≤ steps.new }
    ensures few { steps.new ≤ steps.old + 2 }
{
    if place == 0 {
        return false;
    }
    if place >= runs.count() {
        return false;
    }
    let before = runs.read(place - 1, steps);
    let run = runs.read(place, steps);
    is_before(end, before, d) && !is_before(end, run, d)
}

/// As `count_before`. Two places are tried first, which takes at most four steps.
pub fn count_near<L: Ledger>(
    runs: &Runs,
    end: End,
    d: Day,
    near: usize,
    steps: &mut Steps<L>,
) -> usize
    requires { IsDownward (begins_or_ends_before end d) runs.now }
    ensures place { Splits (begins_or_ends_before end d) runs.now result }
    ensures rises { steps.old ≤ steps.new }
    ensures cost { 2 ^ (steps.new - steps.old) ≤ 32 * length runs.now + 16 }
{
    if is_cut(runs, end, d, near, steps) {
        return near;
    }
    let next = near.saturating_add(1);
    if is_cut(runs, end, d, next, steps) {
        return next;
    }
    count_before(runs, end, d, steps)
}
