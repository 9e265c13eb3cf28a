//! Business days: days of a cover on which business is done.
//!
//! A set of business days has a cover, from a first day to a last one. Outside it nothing is known,
//! so no day there is a business day. A search for a business day looks through days of the cover
//! alone.
ghost use Rattle.std.specs.Prelude.{◌≡◌, ◌↔◌, ℤ, IsTrue, IfSome, IfNone};
ghost use Rattle.irs_base.specs.Days.{IsDay};
ghost use Rattle.irs_calendar.specs.GoodDays.{DaySet, InCover, IsGood, Next, Prev};

use irs_base::Day;

/// A set of business days in a cover: the business days of one centre or of several together (2006
/// ISDA Definitions, article 1, 'Business Day').
///
/// What every implementation keeps: a business day lies in the cover. Between a day and the result
/// of a search that starts there lies no business day. No call takes memory.
pub trait GoodDays {
    /// The cover, and the test of its days.
    ghost days: { Self → DaySet };

    /// The first and the last day of the cover, in the range of dates. An empty cover has its first
    /// day after its last.
    fn cover(&self) -> (Day, Day)
        ensures ends { result ≡ ((days self.now).first, (days self.now).last) }
        ensures range { (d : ℤ) → InCover (days self.now) d → IsDay d };

    /// The day is in the cover and is a business day.
    fn is_good(&self, d: Day) -> bool
        ensures { IsTrue result ↔ IsGood (days self.now) d };

    /// The first business day at or after the day; `None` exactly where the day is outside the
    /// cover, or none follows in it.
    fn next_good(&self, d: Day) -> Option<Day>
        ensures some { IfSome result (Next (days self.now) d) }
        ensures none { IfNone result ((r : ℤ) → Next (days self.now) d r → ⊥) };

    /// As `next_good`, and a place for the search of a later day. The search begins at a place, and the day
    /// is the same from every place. A search for the next day or soon after it takes few steps from
    /// the place of the one before.
    fn next_good_near(&self, d: Day, near: usize) -> (Option<Day>, usize)
        ensures some { IfSome result.0 (Next (days self.now) d) }
        ensures none { IfNone result.0 ((r : ℤ) → Next (days self.now) d r → ⊥) };

    /// The last business day at or before the day; `None` exactly where the day is outside the
    /// cover, or none comes before it there.
    fn prev_good(&self, d: Day) -> Option<Day>
        ensures some { IfSome result (Prev (days self.now) d) }
        ensures none { IfNone result ((r : ℤ) → Prev (days self.now) d r → ⊥) };
}
