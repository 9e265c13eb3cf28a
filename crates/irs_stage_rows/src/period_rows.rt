//! What is reported of calculation periods: the rule that is broken, or the regular span with its
//! anchor, and their boundaries. Where there are many, it is the number of periods, and the first
//! and the last boundary.
ghost use Rattle.std.specs.Prelude.{◌≡◌, ◌≤ℤ◌, ◌<ℤ◌, IfSome, IsTrue, unwrap_or};
ghost use Rattle.irs_terms.specs.Lawful.{IsLawfulStream};
ghost use Rattle.irs_terms.specs.TermDates.{DatesInOrder, FrequencySuits};
ghost use Rattle.irs_terms.specs.declared.frequency.Unit.TheVariants.{D};
ghost use Rattle.irs_periods.specs.Spans.{SpanKept, Regular};

use crate::good_days::days_of;
use crate::telling::Told;
use irs_base::{Day, DayList};
use irs_calendar::Calendars;
use irs_periods::{PerErr, adjusted, boundaries, boundaries_by, regular_span};
use irs_roll::{EveryDays, suits};
use irs_terms::{Span, Stream, Unit};
use std::alloc::Global;

/// The most boundaries that are reported a day each.
const FEW: usize = 100;

fn given(d: Option<Day>, other: Day) -> Day
    ensures { result ≡ unwrap_or d other }
{
    match d {
        Some(given) => given,
        None => other,
    }
}

fn starts_before_effective(s: &Stream) -> bool
    ensures { IsTrue result → IfSome s.now.first_start (λ start. start.day <ℤ s.now.effective.day) }
{
    match &s.first_start {
        Some(start) => start.day < s.effective.day,
        None => true,
    }
}

fn are_in_order(begin: Day, termination: Day, first: Option<Day>, last: Option<Day>) -> bool
    ensures first { IsTrue result → IfSome first (λ f. (begin ≤ℤ f) × (f ≤ℤ termination)) }
    ensures last { IsTrue result → IfSome last (λ l. (unwrap_or first begin ≤ℤ l) × (l ≤ℤ termination)) }
{
    let from = given(first, begin);
    let to = given(last, termination);
    begin <= from && from <= termination && from <= to && to <= termination
}

// Whether the dates of the term are in order.
fn keeps_dates(s: &Stream) -> bool
    ensures { IsTrue result → DatesInOrder s.now }
{
    if s.effective.day >= s.termination.day || !starts_before_effective(s) {
        return false;
    }
    are_in_order(
        s.first_day(),
        s.termination.day,
        s.first_regular,
        s.last_regular,
    )
}

// Whether the frequency and the roll suit each other.
fn keeps_frequency(s: &Stream) -> bool
    ensures { IsTrue result → FrequencySuits s.now }
{
    if s.freq.unit == Unit::T
        && (s.freq.count != 1 || s.first_regular.is_some() || s.last_regular.is_some())
    {
        return false;
    }
    suits(s.freq, s.roll)
}

// A line of how many periods there are, and one of the first and the last boundary.
fn ends_told(told: &mut Told, days: &[Day]) {
    told.number("", days.len().saturating_sub(1));
    told.line(" periods");
    if let (Some(first), Some(last)) = (days.first(), days.last()) {
        told.day("from ", *first);
        told.day(" to ", *last);
        told.end();
    }
}

fn days_told(told: &mut Told, days: &[Day]) {
    if days.len() > FEW {
        ends_told(told, days);
        return;
    }
    let mut between = "";
    for day in days {
        told.day(between, *day);
        between = " ";
    }
    told.end();
}

fn list_told(told: &mut Told, answer: Result<DayList, PerErr>) -> Option<()> {
    match answer {
        Ok(list) => {
            days_told(told, list.as_slice());
            Some(())
        }
        Err(stopped) => told.stopped(stopped),
    }
}

fn span_told(told: &mut Told, span: &Span) {
    told.day("regular ", span.first);
    told.day(" to ", span.last);
    told.day(" from anchor ", span.anchor);
    told.end();
}

// The regular span, and after it the boundaries or the rule that they break.
fn span_and_days(told: &mut Told, alloc: Global, s: &Stream, span: &Span) -> Option<()>
    requires lawful { IsLawfulStream s.now }
    requires dates { DatesInOrder s.now }
    requires frequency { FrequencySuits s.now }
    requires span { Regular s.now span.now }
    requires kept { SpanKept s.now span.now }
{
    let answer = boundaries_by(alloc, s, span);
    span_told(told, span);
    list_told(told, answer)
}
/// The regular span and the unadjusted boundaries of a stream.
pub fn period_lines(told: &mut Told, alloc: Global, s: &Stream) -> Option<()>
    requires { IsLawfulStream s.now }
{
    if !keeps_dates(s) || !keeps_frequency(s) {
        return None;
    }
    match regular_span(s) {
        Ok(span) => span_and_days(told, alloc, s, &span),
        Err(fault) => {
            told.fault(fault);
            Some(())
        }
    }
}

// The boundaries over a grid of days that is handed in.
fn over_days(told: &mut Told, alloc: Global, s: &Stream, span: &Span) -> Option<()>
    requires lawful { IsLawfulStream s.now }
    requires dates { DatesInOrder s.now }
    requires unit { s.now.freq.unit ≡ D }
    requires span { Regular s.now span.now }
    requires kept { SpanKept s.now span.now }
{
    let grid = EveryDays::new(span.anchor, u32::from(s.freq.count));
    list_told(told, boundaries(alloc, s, span, &grid))
}

/// The unadjusted boundaries of a stream of periods of days, over the grid of its days.
pub fn day_lines(told: &mut Told, alloc: Global, s: &Stream) -> Option<()>
    requires { IsLawfulStream s.now }
{
    if s.freq.unit != Unit::D || !keeps_dates(s) || !keeps_frequency(s) {
        return None;
    }
    match regular_span(s) {
        Ok(span) => over_days(told, alloc, s, &span),
        Err(fault) => {
            told.fault(fault);
            Some(())
        }
    }
}

// The boundaries, each adjusted by the days of the centres that go with it.
fn adjusted_boundaries(
    told: &mut Told,
    alloc: Global,
    calendars: &Calendars,
    s: &Stream,
    list: &DayList,
) -> Option<()>
    requires dates { DatesInOrder s.now }
    requires listed { (span : Span) × Boundaries s.now span list.now }
{
    let start = days_of(alloc, calendars, &s.first_date().adj.centers)?;
    let end = days_of(alloc, calendars, &s.termination.adj.centers)?;
    let middle = days_of(alloc, calendars, &s.period_adj.centers)?;
    list_told(told, adjusted(alloc, s, list, &start, &end, &middle))
}

/// The adjusted boundaries of a stream.
pub fn adjusted_lines(
    told: &mut Told,
    alloc: Global,
    calendars: &Calendars,
    s: &Stream,
) -> Option<()>
    requires { IsLawfulStream s.now }
{
    if !keeps_dates(s) || !keeps_frequency(s) {
        return None;
    }
    let span = match regular_span(s) {
        Ok(span) => span,
        Err(fault) => {
            told.fault(fault);
            return Some(());
        }
    };
    match boundaries_by(alloc, s, &span) {
        Ok(list) => adjusted_boundaries(told, alloc, calendars, s, &list),
        Err(stopped) => told.stopped(stopped),
    }
}

ghost use Rattle.irs_terms.specs.declared.results.Span.{Span};
ghost use Rattle.irs_periods.specs.Boundaries.{Boundaries};
