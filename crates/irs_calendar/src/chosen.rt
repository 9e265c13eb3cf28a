//! The business days of several centres together: a payment waits for all of them.
ghost use Rattle.std.specs.Prelude.{◌≡◌, ◌<◌, ◌^◌, pos, ◌+ℤ◌, ◌≤ℤ◌, IfOk, map};
ghost use Rattle.irs_base.specs.Days.{first_day, last_day};
ghost use Rattle.irs_calendar.specs.GoodDays.{SameDays, set_of_runs};
ghost use Rattle.irs_calendar.specs.Sections.{later_day, earlier_day, latest_first, earliest_last, set_of_sections};

use crate::RunSet;
use crate::openings::open_runs;
use crate::sections::Section;
use irs_base::{Day, Memory};
use std::alloc::Global;

/// The first and the last day of what the covers have in common.
fn common_cover(sections: &[&Section]) -> (Day, Day)
    ensures first { result.0 ≡ latest_first first_day (map (λ s. s.now) sections.now) }
    ensures last { result.1 ≡ earliest_last last_day (map (λ s. s.now) sections.now) }
{
    let mut first = Day::earliest();
    let mut last = Day::latest();
    for s in sections {
        first = later(first, s.first);
        last = earlier(last, s.last);
    }
    (first, last)
}

fn later(a: Day, b: Day) -> Day
    ensures { result ≡ later_day a b }
{
    if a < b { b } else { a }
}

fn earlier(a: Day, b: Day) -> Day
    ensures { result ≡ earlier_day a b }
{
    if b < a { b } else { a }
}

/// How many days after first the last one is.
pub fn days_after(first: Day, last: Day) -> u32
    requires { first ≤ℤ last }
    ensures sum { first +ℤ pos result ≡ last }
    ensures few { result < 2 ^ 20 }
{
    (last.number() - first.number()) as u32
}

/// The business days of all the sections together.
pub fn chosen_days(alloc: Global, sections: &[&Section]) -> Result<RunSet, Memory>
    ensures { IfOk result (λ s. SameDays (set_of_runs s) (set_of_sections (map (λ s. s.now) sections.now))) }
{
    let (first, last) = common_cover(sections);
    let runs = open_runs(alloc, sections, first, last)?;
    Ok(RunSet::of_runs(first, last, runs))
}
