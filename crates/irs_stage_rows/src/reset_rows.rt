//! What is reported of resets: `none` where there are none, or the rule that is broken. Else there
//! is a line of the reset date and the fixing date of each period, and a line of its observed rate.
//!
//! The regular span of a row is from its first regular date to its last, where it gives them, else
//! the whole term. A row gives the boundaries, and after them a file of fixings where it has its
//! own.
ghost use Rattle.std.specs.Prelude.{IsTrue};
ghost use Rattle.irs_terms.specs.Lawful.{IsLawfulStream, FitsLeg};
ghost use Rattle.irs_terms.specs.Centers.{IsSaid, IsSaidFixing, IsSaidReset};

use crate::boundaries::{boundaries_of, is_rising};
use crate::files::file_of;
use crate::good_days::days_of;
use crate::sources::{Sources, fixings_of};
use crate::telling::Told;
use irs_base::DayList;
use irs_calendar::{Calendars, RunSet};
use irs_resets::{Fixings, resets};
use irs_terms::{DayKind, FixTerms, Leg, Offset, Resets, Span, Stream};
use std::alloc::Global;

fn is_said(offset: &Offset) -> bool
    ensures { IsTrue result → IsSaid offset.now }
{
    match offset.kind {
        DayKind::Business | DayKind::Calendar => true,
        DayKind::Unsaid => offset.days == 0,
    }
}

fn is_said_fixing(fixing: &Option<FixTerms>) -> bool
    ensures { IsTrue result → IsSaidFixing fixing.now }
{
    match fixing {
        Some(fixing) => is_said(&fixing.offset),
        None => true,
    }
}

// Whether the offset of the fixing dates says which days it counts.
fn is_said_reset(s: &Stream) -> bool
    ensures { IsTrue result → IsSaidReset s.now }
{
    match &s.reset {
        Some(reset) => is_said_fixing(&reset.fixing),
        None => true,
    }
}

// Whether there are reset dates with a floating rate alone, and stubs' rates with it alone.
fn fits_leg(s: &Stream) -> bool
    ensures { IsTrue result → FitsLeg s.now }
{
    match &s.leg {
        Leg::Fixed(_) => s.reset.is_none() && s.stubs.is_none(),
        Leg::Floating(_) => s.reset.is_some(),
    }
}

fn regular_part(s: &Stream) -> Span {
    let first = s.first_regular.unwrap_or(s.first_day());
    let last = s.last_regular.unwrap_or(s.termination.day);
    Span {
        first,
        last,
        anchor: first,
    }
}

// The business days of the reset dates; all days where there are none.
fn reset_days(alloc: Global, calendars: &Calendars, s: &Stream) -> Option<RunSet> {
    match &s.reset {
        Some(reset) => days_of(alloc, calendars, &reset.adj.centers),
        None => Some(RunSet::all()),
    }
}

// The business days of the fixing dates; all days where there are none.
fn fixing_days(alloc: Global, calendars: &Calendars, s: &Stream) -> Option<RunSet> {
    let Some(reset) = &s.reset else {
        return Some(RunSet::all());
    };
    match &reset.fixing {
        Some(fixing) => days_of(alloc, calendars, &fixing.adj.centers),
        None => Some(RunSet::all()),
    }
}

fn dates_told(told: &mut Told, list: &Resets) {
    let mut between = "";
    for reset in list.as_slice() {
        told.day(between, reset.reset);
        told.day(" fixed ", reset.fixing);
        between = ", ";
    }
    told.end();
}

fn rates_told(told: &mut Told, list: &Resets) {
    let mut between = "";
    for reset in list.as_slice() {
        told.given_rate(between, reset.observed);
        between = " ";
    }
    told.end();
}

/// What is reported of a list of resets.
pub fn resets_told(told: &mut Told, list: &Resets) {
    if list.as_slice().is_empty() {
        told.line("none");
    } else {
        dates_told(told, list);
        rates_told(told, list);
    }
}

fn resets_over(
    told: &mut Told,
    alloc: Global,
    calendars: &Calendars,
    fixings: &Fixings,
    s: &Stream,
    list: &DayList,
) -> Option<()>
    requires { IsLawfulStream s.now }
{
    if !fits_leg(s) || !is_said_reset(s) || !is_rising(list.as_slice()) {
        return None;
    }
    let span = regular_part(s);
    let days = reset_days(alloc, calendars, s)?;
    let fixing_days = fixing_days(alloc, calendars, s)?;
    match resets(alloc, s, &span, list, &days, &fixing_days, fixings) {
        Ok(list) => {
            resets_told(told, &list);
            Some(())
        }
        Err(stopped) => told.stopped(stopped),
    }
}

// The resets over boundaries, by the fixings of a file.
fn resets_by(
    told: &mut Told,
    rt: &HostRuntime,
    sources: &Sources,
    s: &Stream,
    list: &DayList,
    file: &str,
) -> Option<()>
    requires { IsLawfulStream s.now }
{
    let bytes = file_of(rt, file)?;
    let fixings = fixings_of(rt.alloc(), &bytes)?;
    resets_over(told, rt.alloc(), &sources.calendars, &fixings, s, list)
}

/// The resets of a stream over boundaries, by the fixings after them, or else by those of all rows.
pub fn reset_lines(
    told: &mut Told,
    rt: &HostRuntime,
    sources: &Sources,
    s: &Stream,
    beside: &str,
) -> Option<()>
    requires { IsLawfulStream s.now }
{
    let (days, file) = match beside.split_once(" | ") {
        Some((days, file)) => (days, Some(file)),
        None => (beside, None),
    };
    let boundaries = boundaries_of(rt.alloc(), days)?;
    let list = &boundaries.adjusted;
    match file {
        Some(file) => resets_by(told, rt, sources, s, list, file),
        None => {
            let Sources {
                calendars,
                fixings,
                ..
            } = sources;
            resets_over(told, rt.alloc(), calendars, fixings, s, list)
        }
    }
}
