//! The resets of a floating stream, one for each calculation period (2006 ISDA Definitions, article
//! 6; FpML `resetDates`).
ghost use Rattle.std.specs.Prelude.{◌≡◌, ◌<◌, ◌^◌, ◌↔◌, Some, length, IsTrue, IfOk, IfSome, All};
ghost use Rattle.irs_base.specs.Lists.{IsRising};
ghost use Rattle.irs_base.specs.Outcomes.{IsFirst, Determined, IfMemory, Meets};
ghost use Rattle.irs_terms.specs.Faults.{comes_before};
ghost use Rattle.irs_terms.specs.declared.amounts.Leg.TheVariants.{Floating as OfFloating};
ghost use Rattle.irs_terms.specs.Centers.{IsSaidFixing, IsSaidReset};
ghost use Rattle.irs_terms.specs.Lawful.{IsLawfulFloat, IsLawfulStubs, IsLawfulStream, FitsLeg};
ghost use Rattle.irs_resets.specs.Resets.{resets_of, reset_days_by, source_of, HasSmallRate, HasResets, GivesInitial};
ghost use Rattle.irs_resets.specs.Resets.{GivesFinal, InitialUnmet, FinalUnmet, BreaksStubs, date_fault};
ghost use Rattle.irs_resets.specs.Resets.{BreaksResetDates, BreaksResets};

use crate::Fixings;
use crate::dates::{DateFault, first_with, period_dates};
use crate::observed::{observed, period_kind};
use irs_base::{Day, DayList, Stopped};
use irs_calendar::GoodDays;
use irs_terms::{
    Elem, Fault, FloatTerms, Leg, Reset, ResetTerms, Resets, Rule, Span, Stream, StubTerms,
};
use std::alloc::Global;

/// Why there are no resets: the first broken rule of K37, K33 and K38, or memory ran out. The index
/// of a rule is the number of the period, 0 for a stub.
pub type ResErr = Stopped<Fault>;

fn gives_initial(stubs: &Option<StubTerms>) -> bool
    ensures { IsTrue result ↔ GivesInitial stubs.now }
{
    match stubs {
        Some(stubs) => stubs.initial.is_some(),
        None => false,
    }
}

fn gives_final(stubs: &Option<StubTerms>) -> bool
    ensures { IsTrue result ↔ GivesFinal stubs.now }
{
    match stubs {
        Some(stubs) => stubs.last.is_some(),
        None => false,
    }
}

fn lacks_initial(s: &Stream, span: &Span) -> bool
    ensures { IsTrue result ↔ InitialUnmet s.now span.now }
{
    if !gives_initial(&s.stubs) {
        return false;
    }
    span.first <= s.first_day()
}

fn lacks_final(s: &Stream, span: &Span) -> bool
    ensures { IsTrue result ↔ FinalUnmet s.now span.now }
{
    if !gives_final(&s.stubs) {
        return false;
    }
    s.termination.day <= span.last
}

// K37: a rate is given for a stub that doesn't exist.
fn stub_fault(s: &Stream, span: &Span) -> Option<Fault>
    ensures { IsFirst comes_before (BreaksStubs s.now span.now) result }
{
    if lacks_initial(s, span) {
        return Some(Fault {
            rule: Rule::K37,
            elem: Elem::INITIAL_STUB,
            index: 0,
        });
    }
    if lacks_final(s, span) {
        return Some(Fault {
            rule: Rule::K37,
            elem: Elem::FINAL_STUB,
            index: 0,
        });
    }
    None
}

// The rule that a period breaks for this reason.
fn broken_by(why: DateFault, index: u32) -> Fault
    ensures { result ≡ date_fault why index }
{
    match why {
        DateFault::NoReset => Fault {
            rule: Rule::K33,
            elem: Elem::RESET_DATES,
            index,
        },
        DateFault::NoFixing => Fault {
            rule: Rule::K33,
            elem: Elem::FIXING_DATES,
            index,
        },
        DateFault::OutOfRange => Fault {
            rule: Rule::K38,
            elem: Elem::FIXING_DATES,
            index,
        },
    }
}

// K33 of reset dates, then K33 of fixing dates, then K38 of fixing dates, each by the period.
fn date_broken<G: GoodDays>(
    terms: &ResetTerms,
    adjusted: &[Day],
    reset_days: &G,
    fixing_days: &G,
) -> Option<Fault>
    requires few { length adjusted.now < 2 ^ 32 }
    requires offset { IsSaidFixing terms.now.fixing }
    ensures { let days = reset_days_by adjusted.now (G.days reset_days.now) (G.days fixing_days.now) in
        IsFirst comes_before (BreaksResetDates terms.now days) result }
{
    let without_reset = first_with(DateFault::NoReset, terms, adjusted, reset_days, fixing_days);
    if let Some(i) = without_reset {
        return Some(broken_by(DateFault::NoReset, i));
    }
    let without_fixing = first_with(
        DateFault::NoFixing,
        terms,
        adjusted,
        reset_days,
        fixing_days,
    );
    if let Some(i) = without_fixing {
        return Some(broken_by(DateFault::NoFixing, i));
    }
    let out_of_range = first_with(
        DateFault::OutOfRange,
        terms,
        adjusted,
        reset_days,
        fixing_days,
    );
    if let Some(i) = out_of_range {
        return Some(broken_by(DateFault::OutOfRange, i));
    }
    None
}

// The first broken rule of resets: K37, then those of dates.
fn first_fault<G: GoodDays>(
    s: &Stream,
    terms: &ResetTerms,
    span: &Span,
    adjusted: &[Day],
    reset_days: &G,
    fixing_days: &G,
) -> Option<Fault>
    requires few { length adjusted.now < 2 ^ 32 }
    requires offset { IsSaidFixing terms.now.fixing }
    requires reset { s.now.reset ≡ Some terms.now }
    ensures { let source = source_of s.now span.now adjusted.now (G.days reset_days.now) (G.days fixing_days.now) in
        IsFirst comes_before (BreaksResets source) result }
{
    if let Some(fault) = stub_fault(s, span) {
        return Some(fault);
    }
    date_broken(terms, adjusted, reset_days, fixing_days)
}

// One reset for each period; there is no list where a period lacks a date, or where memory ran out.
fn listed<G: GoodDays>(
    alloc: Global,
    s: &Stream,
    float: &FloatTerms,
    terms: &ResetTerms,
    span: &Span,
    adjusted: &[Day],
    reset_days: &G,
    fixing_days: &G,
    fixings: &Fixings,
) -> Option<Resets>
    requires offset { IsSaidFixing terms.now.fixing }
    requires float { IsLawfulFloat float.now }
    requires stubs { IfSome s.now.stubs IsLawfulStubs }
    ensures some { let source =
        source_of s.now span.now adjusted.now (G.days reset_days.now) (G.days fixing_days.now) in
        IfSome result (HasResets source float.now terms.now fixings.now) }
    ensures small { IfSome result (All HasSmallRate) }
{
    let mut rows = Resets::new(alloc);
    for number in 1..adjusted.len() {
        let Ok(dates) = period_dates(terms, adjusted, number, reset_days, fixing_days) else {
            return None;
        };
        let kind = period_kind(s, span, adjusted.len() - 1, number);
        let rate = observed(kind, float, &s.stubs, fixings, dates.fixing);
        let row = Reset {
            reset: dates.reset,
            fixing: dates.fixing,
            observed: rate,
        };
        let Ok(()) = rows.push(row) else {
            return None;
        };
    }
    Some(rows)
}

// The resets of a floating stream.
fn floating_resets<G: GoodDays>(
    alloc: Global,
    s: &Stream,
    float: &FloatTerms,
    terms: &ResetTerms,
    span: &Span,
    adjusted: &DayList,
    reset_days: &G,
    fixing_days: &G,
    fixings: &Fixings,
) -> Result<Resets, ResErr>
    requires lawful { IsLawfulStream s.now }
    requires leg { s.now.leg ≡ OfFloating float.now }
    requires reset { s.now.reset ≡ Some terms.now }
    requires offset { IsSaidFixing terms.now.fixing }
    requires rising { IsRising adjusted.now }
    ensures meets { let source = source_of s.now span.now adjusted.now (G.days reset_days.now) (G.days fixing_days.now) in
        Meets (resets_of source fixings.now) result }
    ensures memory { let source =
        source_of s.now span.now adjusted.now (G.days reset_days.now) (G.days fixing_days.now) in
        IfMemory result ((f : Fault) → BreaksResets source f → ⊥) }
    ensures small { IfOk result (All HasSmallRate) }
{
    let days = adjusted.as_slice();
    if stub_fault(s, span).is_none() {
        if let Some(rows) = listed(
            alloc,
            s,
            float,
            terms,
            span,
            days,
            reset_days,
            fixing_days,
            fixings,
        ) {
            return Ok(rows);
        }
    }
    // No list: a rule is broken, or memory ran out. The rule takes precedence.
    match first_fault(s, terms, span, days, reset_days, fixing_days) {
        Some(fault) => Err(ResErr::Broken(fault)),
        None => Err(ResErr::Memory),
    }
}

/// The resets of a stream over its adjusted boundaries. Each calculation period of a floating stream
/// has a reset date, a fixing date and an observed rate. A fixed stream has no resets.
/// `reset_days` are the good business days of `resetDates`, and `fixing_days` those of `fixingDates`.
///
/// `Broken` is the first broken rule. First comes K37: a rate is given for a stub that the stream
/// doesn't have. Then come K33 of a reset date without a result and K33 of a fixing date without one.
/// Last comes K38: the offset of a fixing date leaves the range of dates. K33 and K38 are reported for
/// the first such period. `Memory` is returned only where no rule is broken.
pub fn resets<G: GoodDays>(
    alloc: Global,
    s: &Stream,
    span: &Span,
    adjusted: &DayList,
    reset_days: &G,
    fixing_days: &G,
    fixings: &Fixings,
) -> Result<Resets, ResErr>
    requires lawful { IsLawfulStream s.now }
    requires legs { FitsLeg s.now }
    requires offset { IsSaidReset s.now }
    requires rising { IsRising adjusted.now }
    ensures meets { let source = source_of s.now span.now adjusted.now (G.days reset_days.now) (G.days fixing_days.now) in
        Meets (resets_of source fixings.now) result }
    // Running out of memory hides no rule.
    ensures memory { let source =
        source_of s.now span.now adjusted.now (G.days reset_days.now) (G.days fixing_days.now) in
        IfMemory result ((f : Fault) → BreaksResets source f → ⊥) }
    // Each observed rate is at most 10 in size.
    ensures small { IfOk result (All HasSmallRate) }
{
    match (&s.leg, &s.reset) {
        (Leg::Floating(float), Some(terms)) => floating_resets(
            alloc,
            s,
            float,
            terms,
            span,
            adjusted,
            reset_days,
            fixing_days,
            fixings,
        ),
        (Leg::Floating(_), None) | (Leg::Fixed(_), _) => Ok(Resets::new(alloc)),
    }
}

/// A law: a stream has one list of resets, or one first rule of K37, K33 and K38 that it breaks.
pub fn resets_are_determined<G: GoodDays>(
    s: &Stream,
    span: &Span,
    adjusted: &DayList,
    reset_days: &G,
    fixing_days: &G,
    fixings: &Fixings,
)
    requires legs { FitsLeg s.now }
    requires offset { IsSaidReset s.now }
    ensures { let source = source_of s.now span.now adjusted.now (G.days reset_days.now) (G.days fixing_days.now) in
        Determined (resets_of source fixings.now) }
{
    // hands the prover the range of the boundaries and of the business days
    let _days = adjusted.as_slice();
    let _covers = (reset_days.cover(), fixing_days.cover());
}
