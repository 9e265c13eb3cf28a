//! What a grid of days is, and what every kind of grid keeps.
ghost use Rattle.std.specs.Prelude.{◌≡◌, ◌↔◌, ℤ, ◌<ℤ◌, IsTrue, SomeIff, IfSome, IfNone};
ghost use Rattle.irs_base.specs.Days.{IsDay};

use irs_base::Day;

/// A grid of days, numbered from its anchor, which is its day 0. No call takes memory.
pub trait Grid {
    /// The k-th day, for every whole number k, as a number counted from 1970-01-01.
    ghost at: { Self → ℤ → ℤ };

    /// The day is on the grid.
    ghost on: { Self → ℤ → Type 0 };

    /// The k-th day; `None` exactly where it lies outside the range of dates.
    fn nth(&self, k: i64) -> Option<Day>
        ensures { SomeIff result (IsDay (at self.now k)) (at self.now k) };

    /// The number of a day; `None` exactly where the day isn't on the grid.
    fn index(&self, d: Day) -> Option<i64>
        ensures some { IfSome result (λ k. at self.now k ≡ d) }
        ensures none { IfNone result (on self.now d → ⊥) };

    /// Whether the day is on the grid.
    fn on_grid(&self, d: Day) -> bool
        ensures { IsTrue result ↔ on self.now d };

    /// Each numbered day is on the grid.
    ghost nth_is_on: { (g : Self) (k : ℤ) → on g (at g k) };

    /// The days rise strictly with their numbers.
    ghost rises: { (g : Self) (j k : ℤ) → j <ℤ k → at g j <ℤ at g k };

    /// Each day on the grid has a number.
    ghost misses_none: { (g : Self) (d : ℤ) → on g d → (k : ℤ) × (at g k ≡ d) };
}
