//! The runs of days that several sections leave open, from one closed day to the next. So a set is
//! made in a time that grows with its runs and the holidays.
ghost use Rattle.std.specs.Prelude.{IfOk, map};
ghost use Rattle.irs_calendar.specs.Private.Closed.{Represents};
ghost use Rattle.irs_calendar.specs.Sections.{all_open};

use crate::chosen::days_after;
use crate::marks::{behind_marked, marked_from, marks_of};
use crate::runs::Run;
use crate::sections::Section;
use crate::weekends::{day_after, first_weekend, week_of, weekend_after};
use irs_base::{Day, Memory, ahead};
use std::alloc::Global;

/// The runs of the days that all sections leave open.
pub fn open_runs(
    alloc: Global,
    sections: &[&Section],
    first: Day,
    last: Day,
) -> Result<Vec<Run>, Memory>
    ensures { IfOk result
        (λ runs. Represents (all_open (map (λ s. s.now) sections.now))
        (record { first = first; last = last; runs = runs.items })) }
{
    let mut runs = Vec::new(alloc);
    if last < first {
        return Ok(runs);
    }
    let days = days_after(first, last) + 1;
    let marks = marks_of(alloc, first, days, sections)?;
    let week = week_of(sections);
    let mut weekend = first_weekend(sections, first, days);
    let mut listed = 0;
    let mut k = 0;
    while k < days {
        listed = marked_from(&marks, k, listed, days);
        let end = weekend.day.min(listed);
        if k < end {
            runs.push(Run {
                first: ahead(first, k),
                last: ahead(first, end - 1),
            })?;
        }
        let behind = behind_marked(&marks, end, weekend.day, days);
        k = day_after(&week, weekend, end, behind);
        weekend = weekend_after(&week, weekend, end);
    }
    Ok(runs)
}
