//! What a business day convention is: it gives each day its adjusted day, or none.
ghost use Rattle.std.specs.Prelude.{◌≡◌, ℤ, IfSome, IfNone};
ghost use Rattle.irs_base.specs.Days.{IsDay};
ghost use Rattle.irs_calendar.specs.GoodDays.{DaySet, IsGood};

use irs_base::Day;
use irs_calendar::GoodDays;

/// A business day convention (2006 ISDA Definitions, section 4.12; FpML `businessDayConvention`).
///
/// What every implementation keeps: a day has at most one adjusted day, and a business day stays as
/// it is.
pub trait Convention {
    /// r is the adjusted day of d.
    ghost adjusts: { Self → DaySet → ℤ → ℤ → Type 0 };

    /// The adjusted day; `None` exactly where there is none. All days that the convention searches,
    /// the day itself included, must lie in the cover. No memory is taken.
    fn adjust<G: GoodDays>(&self, g: &G, d: Day) -> Option<Day>
        ensures some { IfSome result (adjusts self.now (G.days g.now) d) }
        ensures none { IfNone result ((r : ℤ) → adjusts self.now (G.days g.now) d r → ⊥) };

    ghost at_most_one: { (c : Self) (s : DaySet) (d r t : ℤ) → adjusts c s d r → adjusts c s d t → r ≡ t };

    ghost good_stays: { (c : Self) (s : DaySet) (d : ℤ) → IsDay d → IsGood s d → adjusts c s d d };
}
