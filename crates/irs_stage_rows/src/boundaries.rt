//! The boundaries of a row: days with a space between them; the adjusted day follows after a `/`,
//! where it is another.
ghost use Rattle.std.specs.Prelude.{ℤ, ◌≤ℤ◌, IsTrue};
ghost use Rattle.irs_base.specs.Lists.{AllAfter, IsRising, Member, RunsFromTo};

use irs_base::{Day, DayList, read_date};
use std::alloc::Global;

/// Boundaries of calculation periods.
#[derive(Drop)]
pub struct Boundaries {
    /// The unadjusted days.
    pub unadjusted: DayList,
    /// The adjusted ones.
    pub adjusted: DayList,
}

/// A day that is written `YYYY-MM-DD`.
pub fn day(text: &str) -> Option<Day> {
    read_date(text.as_bytes())
}

/// An unadjusted day and the adjusted one.
pub fn dates(text: &str) -> Option<(Day, Day)> {
    let (first, second) = text.split_once('/').unwrap_or((text, text));
    Some((day(first)?, day(second)?))
}

fn push_boundaries(boundaries: &mut Boundaries, text: &str) -> Option<()> {
    for word in text.split(' ') {
        let (first, second) = dates(word)?;
        boundaries.unadjusted.push(first).ok()?;
        boundaries.adjusted.push(second).ok()?;
    }
    Some(())
}

/// The boundaries of a text.
pub fn boundaries_of(alloc: Global, text: &str) -> Option<Boundaries> {
    let mut boundaries = Boundaries {
        unadjusted: DayList::new(alloc),
        adjusted: DayList::new(alloc),
    };
    push_boundaries(&mut boundaries, text)?;
    Some(boundaries)
}

fn is_before_all(d: Day, days: &[Day]) -> bool
    ensures { IsTrue result → AllAfter d days.now }
{
    match days {
        [] => true,
        [first, rest @ ..] => d < *first && is_before_all(d, rest),
    }
}

/// Whether each day is before all that follow.
pub fn is_rising(days: &[Day]) -> bool
    ensures { IsTrue result → IsRising days.now }
{
    match days {
        [] => true,
        [first, rest @ ..] => is_before_all(*first, rest) && is_rising(rest),
    }
}

fn lie_within(days: &[Day], from: Day, to: Day) -> bool
    ensures from { IsTrue result → (d : ℤ) → Member d days.now → from ≤ℤ d }
    ensures to { IsTrue result → (d : ℤ) → Member d days.now → d ≤ℤ to }
{
    match days {
        [] => true,
        [first, rest @ ..] => from <= *first && *first <= to && lie_within(rest, from, to),
    }
}

fn has_day(days: &[Day], d: Day) -> bool
    ensures { IsTrue result → Member d days.now }
{
    match days {
        [] => false,
        [first, rest @ ..] => *first == d || has_day(rest, d),
    }
}

/// Whether the days are the boundaries of a stream from the first of them to the last.
pub fn run_from_to(days: &[Day], from: Day, to: Day) -> bool
    ensures { IsTrue result → RunsFromTo from to days.now }
{
    is_rising(days) && lie_within(days, from, to) && has_day(days, from) && has_day(days, to)
}
