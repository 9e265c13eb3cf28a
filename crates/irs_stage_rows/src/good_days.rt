//! The business days of the centres that adjustments list.
use irs_base::{MOST_CENTERS, Names};
use irs_calendar::{Calendars, RunSet};
use irs_terms::Centers;
use std::alloc::Global;

/// The business days of centres; all days where none are listed.
pub fn days_of(alloc: Global, calendars: &Calendars, centers: &Centers) -> Option<RunSet> {
    match centers {
        Centers::Absent | Centers::Dangling => Some(RunSet::all()),
        Centers::Listed(names) => selected(alloc, calendars, names),
    }
}

/// The days that are business days at all of the centres.
pub fn selected(alloc: Global, calendars: &Calendars, names: &Names) -> Option<RunSet> {
    if names.len() > MOST_CENTERS as usize {
        return None;
    }
    calendars.select(alloc, names).ok()
}
