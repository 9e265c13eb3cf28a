//! The adjusted boundaries of a stream. The start of the first period is adjusted as FpML
//! `firstPeriodStartDate` where that is given, else as the effective date. The termination date has
//! its own adjustments. Every other boundary has the period adjustments (FpML
//! `calculationPeriodDatesAdjustments`; 2006 ISDA Definitions, 4.10 and 4.12). That they have to
//! rise is our rule.
ghost use Rattle.std.specs.Prelude.{◌≡◌, ◌<◌, ◌≤◌, ◌^◌, ℕ, ℤ, length, IfSome, IfNone};
ghost use Rattle.irs_base.specs.Outcomes.{Determined, IfMemory, Meets};
ghost use Rattle.irs_terms.specs.Faults.{fault_at};
ghost use Rattle.irs_terms.specs.declared.places.Rule.TheVariants.{K33};
ghost use Rattle.irs_terms.specs.TermDates.{DatesInOrder};
ghost use Rattle.irs_terms.specs.declared.results.Span.{Span};
ghost use Rattle.irs_periods.specs.Boundaries.{AdjustedList, AdjustsAt, MissesResult, NotAfter, boundary_days_by};
ghost use Rattle.irs_periods.specs.Boundaries.{no_result_at, not_after_at, Boundaries, adjusted_of};
ghost use Rattle.irs_periods.specs.Private.Spans.{FirstLaterNoResult, FirstNoResult, FirstNotAfter, EachHasResult};
ghost use Rattle.irs_periods.specs.Private.Spans.{EachLaterHasResult};

use crate::PerErr;
use crate::span::first_day_elem;
use irs_adjust::adjust_by;
use irs_base::{Day, DayList};
use irs_calendar::GoodDays;
use irs_terms::{Elem, Fault, Rule, Stream};
use std::alloc::Global;

/// The adjusted boundaries of a stream. The condition is that `unadjusted` are the stream's
/// boundaries. `start` are the business days by which the first day is adjusted
/// (`firstPeriodStartDate` where it is given, else the effective date). `end` are those of the
/// termination date, and `middle` those of the periods.
///
/// `Broken` is the first rule broken. A boundary has no adjusted day (K33), or each has one and an
/// adjusted day isn't after the one before it (K34). K33 takes elements and then boundaries in order:
/// effective date, termination date, the other boundaries, `firstPeriodStartDate`. K33 is reported
/// also where memory runs out.
pub fn adjusted<G: GoodDays>(
    alloc: Global,
    s: &Stream,
    unadjusted: &DayList,
    start: &G,
    end: &G,
    middle: &G,
) -> Result<DayList, PerErr>
    requires dates { DatesInOrder s.now }
    requires listed { (span : Span) × Boundaries s.now span unadjusted.now }
    ensures meets { let sets = boundary_days_by G.days start.now end.now middle.now in
        Meets (adjusted_of s.now sets unadjusted.now) result }
    // Running out of memory doesn't hide K33.
    ensures memory { let sets = boundary_days_by G.days start.now end.now middle.now in
        IfMemory result ((f : Fault) → MissesResult s.now sets unadjusted.now f → ⊥) }
{
    let days = unadjusted.as_slice();
    // No list: a boundary has no adjusted day, or memory ran out. K33 takes precedence.
    let Some(list) = adjust_each(alloc, s, days, start, end, middle) else {
        return match first_without(s, days, start, end, middle) {
            Some(number) => Err(PerErr::Broken(no_result(s, days.len() - 1, number))),
            None => Err(PerErr::Memory),
        };
    };
    match first_not_after(list.as_slice()) {
        Some(number) => Err(PerErr::Broken(not_after(number))),
        None => Ok(list),
    }
}

/// A law: boundaries have one list of adjusted days that rise, or one first rule that they break.
pub fn adjusted_is_determined<G: GoodDays>(
    s: &Stream,
    unadjusted: &DayList,
    start: &G,
    end: &G,
    middle: &G,
)
    ensures { let sets = boundary_days_by G.days start.now end.now middle.now in
        Determined (adjusted_of s.now sets unadjusted.now) }
{
    // hands the prover the range of the business days and of the boundaries
    let _covers = (start.cover(), end.cover(), middle.cover());
    let _days = unadjusted.as_slice();
}

// Boundary i, adjusted as its place requires.
fn adjust_at<G: GoodDays>(
    s: &Stream,
    start: &G,
    end: &G,
    middle: &G,
    last: usize,
    i: usize,
    d: Day,
) -> Option<Day>
    ensures some { IfSome result (AdjustsAt s.now (boundary_days_by G.days start.now end.now middle.now) last i d) }
    ensures none { let Adjusts = AdjustsAt s.now (boundary_days_by G.days start.now end.now middle.now) last i d in
        IfNone result ((r : ℤ) → Adjusts r → ⊥) }
{
    if i == 0 {
        adjust_by(s.first_date().adj.code, start, d)
    } else if i == last {
        adjust_by(s.termination.adj.code, end, d)
    } else {
        adjust_by(s.period_adj.code, middle, d)
    }
}

// The first boundary, in the order of the elements, that has no adjusted day. Boundary 0 comes last
// where it is `firstPeriodStartDate`, as that element is after those of the other boundaries.
fn first_without<G: GoodDays>(
    s: &Stream,
    days: &[Day],
    start: &G,
    end: &G,
    middle: &G,
) -> Option<usize>
    requires { 2 ≤ length days.now }
    ensures some { IfSome result (FirstNoResult s.now (boundary_days_by G.days start.now end.now middle.now) days.now) }
    ensures none { IfNone result (EachHasResult s.now (boundary_days_by G.days start.now end.now middle.now) days.now) }
{
    let later = later_without(s, days, start, end, middle);
    if let Some(_first) = adjust_at(s, start, end, middle, days.len() - 1, 0, days[0]) {
        return later;
    }
    match (&s.first_start, later) {
        (Some(_), Some(number)) => Some(number),
        (Some(_), None) => Some(0),
        (None, _) => Some(0),
    }
}

// The first boundary after boundary 0, in the order of the elements, that has no adjusted day.
fn later_without<G: GoodDays>(
    s: &Stream,
    days: &[Day],
    start: &G,
    end: &G,
    middle: &G,
) -> Option<usize>
    requires { 2 ≤ length days.now }
    ensures some { IfSome result (FirstLaterNoResult s.now (boundary_days_by G.days start.now end.now middle.now) days.now) }
    ensures none { IfNone result (EachLaterHasResult s.now (boundary_days_by G.days start.now end.now middle.now) days.now) }
{
    let last = days.len() - 1;
    let Some(_last) = adjust_at(s, start, end, middle, last, last, days[last]) else {
        return Some(last);
    };
    for i in 1..last {
        let Some(_middle) = adjust_at(s, start, end, middle, last, i, days[i]) else {
            return Some(i);
        };
    }
    None
}

// Each boundary adjusted; there is no list where one has no adjusted day, or where memory ran out.
fn adjust_each<G: GoodDays>(
    alloc: Global,
    s: &Stream,
    days: &[Day],
    start: &G,
    end: &G,
    middle: &G,
) -> Option<DayList>
    requires { 0 < length days.now }
    ensures { IfSome result (AdjustedList s.now (boundary_days_by G.days start.now end.now middle.now) days.now) }
{
    let last = days.len() - 1;
    let mut list = DayList::new(alloc);
    for i in 0..days.len() {
        let adjusted = adjust_at(s, start, end, middle, last, i, days[i])?;
        let Ok(()) = list.push(adjusted) else {
            return None;
        };
    }
    Some(list)
}

// The first day that isn't after the one before it.
fn first_not_after(days: &[Day]) -> Option<usize>
    ensures some { IfSome result (FirstNotAfter days.now) }
    ensures none { IfNone result ((i : ℕ) → NotAfter days.now i → ⊥) }
{
    for i in 1..days.len() {
        if days[i] <= days[i - 1] {
            return Some(i);
        }
    }
    None
}

// Boundary `number` of the boundaries up to `last` has no adjusted day.
fn no_result(s: &Stream, last: usize, number: usize) -> Fault
    requires { number < 2 ^ 32 }
    ensures { result ≡ no_result_at s.now last number }
{
    if number == 0 {
        missing(first_day_elem(s), 0)
    } else if number == last {
        missing(Elem::TERMINATION_DATE, 0)
    } else {
        missing(Elem::PERIOD_DATES_ADJUSTMENTS, number as u32)
    }
}

// K33 at an element.
fn missing(elem: Elem, index: u32) -> Fault
    ensures { result ≡ fault_at K33 elem index }
{
    Fault {
        rule: Rule::K33,
        elem,
        index,
    }
}

// Adjusted boundary `number` isn't after the one before it.
fn not_after(number: usize) -> Fault
    requires { number < 2 ^ 32 }
    ensures { result ≡ not_after_at number }
{
    Fault {
        rule: Rule::K34,
        elem: Elem::CALCULATION_PERIOD_DATES,
        index: number as u32,
    }
}
