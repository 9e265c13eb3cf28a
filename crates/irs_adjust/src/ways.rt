//! One business day after another, ahead or back.
//!
//! A Business offset leads from a day to the n-th business day on one side of it. Both sides are
//! searched in the same way, so there is one loop.
ghost use Rattle.std.specs.Prelude.{◌<◌, ℤ, IfSome, IfNone};
ghost use Rattle.irs_base.specs.Days.{IsDay};
ghost use Rattle.irs_calendar.specs.GoodDays.{InCover};
ghost use Rattle.irs_adjust.specs.MovedDays.{MovesOn};
ghost use Rattle.irs_adjust.specs.Private.MovedDays.{IsNextOn};

use irs_base::{Day, plus};
use irs_calendar::GoodDays;

/// The side on which business days are counted.
#[derive(Clone, Copy, PartialEq, Eq)]
pub enum Way {
    /// After the day.
    Ahead,
    /// Before the day.
    Back,
}

/// The business day nearest to the day on that side, the day itself left out.
fn step<G: GoodDays>(way: Way, g: &G, d: Day) -> Option<Day>
    requires { (x : ℤ) → InCover (G.days g.now) x → IsDay x }
    ensures some { IfSome result (IsNextOn way (G.days g.now) d) }
    ensures none { IfNone result ((r : ℤ) → IsNextOn way (G.days g.now) d r → ⊥) }
{
    match way {
        Way::Ahead => g.next_good(plus(d, 1)?),
        Way::Back => g.prev_good(plus(d, -1)?),
    }
}

/// The n-th business day on that side; `None` exactly where there is none in the cover.
pub fn walk<G: GoodDays>(way: Way, g: &G, d: Day, n: u32) -> Option<Day>
    requires { 0 < n }
    ensures some { IfSome result (MovesOn way (G.days g.now) d n) }
    ensures none { IfNone result ((r : ℤ) → MovesOn way (G.days g.now) d n r → ⊥) }
{
    let (first, last) = g.cover();
    if d < first || last < d {
        return None;
    }
    let mut day = d;
    for _i in 0..n {
        day = step(way, g, day)?;
    }
    Some(day)
}
