//! The days from which daily rates hold: the first day of a calculation period, and each business
//! day after it in the period.
ghost use Rattle.std.specs.Prelude.{◌≡◌, ◌↔◌, ◌<◌, ◌-◌, IsTrue, IfOk, pos, ◌<ℤ◌, ◌≤ℤ◌, ◌-ℤ◌, ◌+ℤ◌, unsigned_abs};
ghost use Rattle.irs_base.specs.Days.{all_days};
ghost use Rattle.irs_observed.specs.Observations.{LeavesCover};
ghost use Rattle.irs_overnight.specs.Observations.{AreStarts};

use irs_base::{Day, DayList, Memory, ahead};
use irs_calendar::GoodDays;
use std::alloc::Global;

/// The number of days from one day to another.
pub fn days_between(start: Day, end: Day) -> i64
    ensures value { result ≡ end -ℤ start }
    ensures small { unsigned_abs result < all_days }
{
    i64::from(end.number()) - i64::from(start.number())
}

/// The same where the second isn't before the first.
pub fn days_ahead(start: Day, end: Day) -> u32
    requires { start ≤ℤ end }
    ensures value { start +ℤ pos result ≡ end }
{
    (end.number() - start.number()) as u32
}

// Whether the day before the end lies after the last day of a cover.
fn ends_past(last: Day, end: Day) -> bool
    ensures { IsTrue result ↔ (last +ℤ pos 1) <ℤ end }
{
    days_between(last, end) > 1
}

/// Whether a day of the period lies outside the cover.
pub(crate) fn leaves_cover<G: GoodDays>(days: &G, start: Day, end: Day) -> bool
    requires order { start <ℤ end }
    ensures { IsTrue result ↔ LeavesCover (G.days days.now) start end }
{
    let (first, last) = days.cover();
    if start < first {
        return true;
    }
    ends_past(last, end)
}

/// The days from which daily rates hold.
pub(crate) fn starts<G: GoodDays>(
    alloc: Global,
    days: &G,
    start: Day,
    end: Day,
) -> Result<DayList, Memory>
    requires order { start <ℤ end }
    ensures { IfOk result (λ u. AreStarts (G.days days.now) start end u) }
{
    let mut found = DayList::new(alloc);
    found.push(start)?;
    for k in 1..days_ahead(start, end) {
        let day = ahead(start, k);
        if days.is_good(day) {
            found.push(day)?;
        }
    }
    Ok(found)
}
