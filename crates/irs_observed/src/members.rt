//! The members of an observation period: its first day, and each business day after it.
ghost use Rattle.std.specs.Prelude.{◌≡◌, ◌↔◌, ℤ, IsTrue, IfOk, IfSome, IfNone, pos, ◌<ℤ◌, ◌≤ℤ◌, ◌+ℤ◌};
ghost use Rattle.irs_calendar.specs.GoodDays.{IsGood, Next};
ghost use Rattle.irs_observed.specs.Observations.{AreMembers, LeavesCover};

use irs_base::{Day, DayList, Memory, ahead};
use irs_calendar::GoodDays;
use std::alloc::Global;

/// The number of days from one day to a later one.
pub(crate) fn days_ahead(start: Day, end: Day) -> u32
    requires { start ≤ℤ end }
    ensures { start +ℤ pos result ≡ end }
{
    (end.number() - start.number()) as u32
}

// Whether the day before the end comes after the last day of a cover.
fn ends_past(last: Day, end: Day) -> bool
    ensures { IsTrue result ↔ (last +ℤ pos 1) <ℤ end }
{
    i64::from(end.number()) - i64::from(last.number()) > 1
}

// Whether a day from the first to the end, which is later, lies outside the cover.
fn some_leave<G: GoodDays>(days: &G, start: Day, end: Day) -> bool
    requires order { start <ℤ end }
    ensures { IsTrue result ↔ LeavesCover (G.days days.now) start end }
{
    let (first, last) = days.cover();
    if start < first {
        return true;
    }
    ends_past(last, end)
}

/// Whether a day from the first, included, to the end, excluded, lies outside the cover.
pub(crate) fn leaves_cover<G: GoodDays>(days: &G, start: Day, end: Day) -> bool
    ensures { IsTrue result ↔ LeavesCover (G.days days.now) start end }
{
    if start < end {
        some_leave(days, start, end)
    } else {
        false
    }
}

// The first business day at or after the day. The search begins at the place `near`, which becomes the
// place for the next one.
fn good_near<G: GoodDays>(days: &G, d: Day, near: &mut usize) -> Option<Day>
    ensures some { IfSome result (Next (G.days days.now) d) }
    ensures none { IfNone result ((r : ℤ) → Next (G.days days.now) d r → ⊥) }
{
    let (found, place) = days.next_good_near(d, *near);
    *near = place;
    found
}

// The first business day after the day and before the end, else the end.
fn next_or_end<G: GoodDays>(days: &G, day: Day, end: Day, near: &mut usize) -> Day
    requires order { day <ℤ end }
    requires covered { LeavesCover (G.days days.now) day end → ⊥ }
    ensures after { day <ℤ result }
    ensures to { result ≤ℤ end }
    ensures good { result <ℤ end → IsGood (G.days days.now) result }
    ensures none { (x : ℤ) → day <ℤ x → x <ℤ result → IsGood (G.days days.now) x → ⊥ }
{
    let _range = end.number();
    match good_near(days, ahead(day, 1), near) {
        Some(next) => if next < end { next } else { end },
        None => end,
    }
}

/// The members of an observation period, which lies in the cover; an empty one has none.
pub(crate) fn members<G: GoodDays>(
    alloc: Global,
    days: &G,
    start: Day,
    end: Day,
) -> Result<DayList, Memory>
    requires covered { LeavesCover (G.days days.now) start end → ⊥ }
    ensures { IfOk result (AreMembers (G.days days.now) start end) }
{
    let mut found = DayList::new(alloc);
    let mut day = start;
    let mut near = 0;
    while day < end {
        found.push(day)?;
        day = next_or_end(days, day, end, &mut near);
    }
    Ok(found)
}
