//! The end of the regular span next to a stub is the grid day nearest to the end of the term. It is
//! found by halving the number of steps from the anchor.
ghost use Rattle.std.specs.Prelude.{◌≡◌, ◌↔◌, ◌+◌, ◌≤◌, pos, IsTrue, SomeIff};
ghost use Rattle.irs_base.specs.Days.{IsDay, all_days};
ghost use Rattle.irs_periods.specs.Private.Spans.{steps, Within, ShortEnd, LongEnd};

use irs_base::{ALL_DAYS, Day};
use irs_roll::Grid;

/// The side of the anchor on which the stub is.
#[derive(Clone, Copy)]
pub enum Way {
    /// Before it: the anchor is the termination date.
    Back,
    /// After it: the anchor is the first day.
    Ahead,
}

// The grid day that lies n steps from the anchor; `None` exactly where it isn't in range.
fn step_from<G: Grid>(grid: &G, way: Way, n: u32) -> Option<Day>
    ensures { SomeIff result (IsDay (G.at grid.now (steps way n))) (G.at grid.now (steps way n)) }
{
    match way {
        Way::Back => grid.nth(-i64::from(n)),
        Way::Ahead => grid.nth(i64::from(n)),
    }
}

// Whether that day doesn't pass the bound.
fn is_within<G: Grid>(grid: &G, way: Way, n: u32, bound: Day) -> bool
    requires anchor { IsDay (G.at grid.now (pos 0)) }
    requires bound { IsDay bound }
    ensures { IsTrue result ↔ Within way bound (G.at grid.now (steps way n)) }
{
    let Some(d) = step_from(grid, way, n) else {
        return false;
    };
    match way {
        Way::Back => bound <= d,
        Way::Ahead => d <= bound,
    }
}

// The most steps that don't pass the bound.
fn farthest<G: Grid>(grid: &G, way: Way, bound: Day) -> u32
    requires anchor { IsDay (G.at grid.now (pos 0)) }
    requires bound { IsDay bound }
    requires begins { Within way bound (G.at grid.now (pos 0)) }
    ensures within { Within way bound (G.at grid.now (steps way result)) }
    ensures last { Within way bound (G.at grid.now (steps way (result + 1))) → ⊥ }
    ensures range { result ≤ all_days }
{
    let mut low = 0;
    // This number of steps of at least one day leads out of the range of dates.
    let mut high = ALL_DAYS;
    while high - low > 1 {
        let middle = low + (high - low) / 2;
        if is_within(grid, way, middle, bound) {
            low = middle;
        } else {
            high = middle;
        }
    }
    low
}

// The grid day that lies n steps from the anchor and doesn't pass the bound.
fn day_within<G: Grid>(grid: &G, way: Way, n: u32, bound: Day) -> Day
    requires anchor { IsDay (G.at grid.now (pos 0)) }
    requires bound { IsDay bound }
    requires within { Within way bound (G.at grid.now (steps way n)) }
    ensures { result ≡ G.at grid.now (steps way n) }
{
    match step_from(grid, way, n) {
        Some(d) => d,
        None => unreachable!(),
    }
}

/// The end of the regular span before a short stub that reaches to the bound: the farthest grid
/// day that doesn't pass it.
pub fn short_end<G: Grid>(grid: &G, way: Way, bound: Day) -> Day
    requires anchor { IsDay (G.at grid.now (pos 0)) }
    requires bound { IsDay bound }
    requires begins { Within way bound (G.at grid.now (pos 0)) }
    ensures { ShortEnd way (G.on grid.now) bound result }
{
    day_within(grid, way, farthest(grid, way, bound), bound)
}

/// The end of the regular span before a long stub that reaches to the bound. It is the bound where
/// that is on the grid. Else it is one step nearer to the anchor than before a short stub, or the
/// anchor itself.
pub fn long_end<G: Grid>(grid: &G, way: Way, anchor: Day, bound: Day) -> Day
    requires anchored { G.at grid.now (pos 0) ≡ anchor }
    requires anchor { IsDay anchor }
    requires bound { IsDay bound }
    requires begins { Within way bound anchor }
    ensures { LongEnd way (G.on grid.now) anchor bound result }
{
    let n = farthest(grid, way, bound);
    if day_within(grid, way, n, bound) == bound {
        bound
    } else if n == 0 {
        anchor
    } else {
        day_within(grid, way, n - 1, bound)
    }
}
