//! The observed rates of the calculation periods of a stream with calculation parameters. A stub with a
//! rate of its own has that rate, and every other period the rate of its daily rates.
ghost use Rattle.std.specs.Prelude.{◌≡◌, ◌↔◌, ◌<◌, ◌^◌, ◌<ℤ◌, length, All, IfOk, IfSome, IsTrue, nat_lt};
ghost use Rattle.irs_base.specs.Outcomes.{IfBroken, First, IsFirst, Meets};
ghost use Rattle.irs_terms.specs.Faults.{comes_before};
ghost use Rattle.irs_base.specs.Lists.{IsRising, day_at};
ghost use Rattle.irs_terms.specs.Lawful.{IsLawfulStubs};
ghost use Rattle.irs_resets.specs.Resets.{IsPeriod};
ghost use Rattle.irs_observed.specs.ObservedRates.{daily_rates};
ghost use Rattle.irs_observed.specs.Observations.{observed_period};
ghost use Rattle.irs_observed.specs.OvernightRates.{overnight_rates_of, AreOvernightRates, BreaksObservations};
ghost use Rattle.irs_observed.specs.OvernightRates.{HasBounds, LacksAt, method_by, observation_fault, overnight_source};
ghost use Rattle.irs_observed.specs.OvernightRates.{year_by};
ghost use Rattle.irs_observed.specs.Private.OvernightRates.{rate_at_of, rate_over_of, HasFewAfter, NoneLacks, StopsAt};
ghost use Rattle.irs_observed.specs.Private.OvernightRates.{fault_by};
ghost use Rattle.irs_observed.specs.declared.observation.NoObservations.TheVariants.{FewMembers as TooFew};

use crate::method::{DailyRateMethod, YearDays};
use crate::observation::NoObservations;
use crate::origin::own_rate;
use crate::overnight_rate::{OvernightRate, OvernightRates, rate_by_days};
use crate::walk::observations;
use irs_base::{Day, Memory, Stopped, Text};
use irs_calendar::GoodDays;
use irs_resets::{Fixings, period_kind};
use irs_terms::{
    CalculationMethod, CalculationParameters, DayCountCode, Elem, Fault, FloatTerms,
    ObservationOffset, Rule, Span, Stream,
};
use std::alloc::Global;

// The days of a year by a day count; compounding goes with the first two alone (K47).
fn year_by(code: DayCountCode) -> YearDays
    ensures { result ≡ year_by code }
{
    match code {
        DayCountCode::Act360 => YearDays::Days360,
        DayCountCode::Act365Fixed => YearDays::Days365,
        DayCountCode::OneOne
        | DayCountCode::ActActIsda
        | DayCountCode::Thirty360
        | DayCountCode::ThirtyE360
        | DayCountCode::ThirtyE360Isda => YearDays::Days365,
    }
}

/// How daily rates become the rate of a period, by the method and the day count.
pub fn method_by(method: CalculationMethod, code: DayCountCode) -> DailyRateMethod
    ensures { result ≡ method_by method code }
{
    match method {
        CalculationMethod::Compounding => DailyRateMethod::Compounding(year_by(code)),
        CalculationMethod::Averaging => DailyRateMethod::Averaging,
    }
}

// The rate by the daily rates of a calculation period.
fn rate_over<G: GoodDays>(
    alloc: Global,
    method: DailyRateMethod,
    offset: ObservationOffset,
    applicable: &G,
    start: Day,
    end: Day,
    daily: &Fixings,
    index: &Text,
) -> Result<OvernightRate, Stopped<NoObservations>>
    requires order { start <ℤ end }
    ensures meets { let p = observed_period offset (G.days applicable.now) start end in
        Meets (rate_over_of method (daily_rates daily.now index.now) p) result }
    ensures bounds { IfOk result HasBounds }
{
    match observations(alloc, offset, applicable, start, end) {
        Ok(all) => Ok(rate_by_days(method, &all, daily, index)),
        Err(stopped) => Err(stopped),
    }
}

// The adjusted boundary at a place.
fn boundary(adjusted: &[Day], place: usize) -> Day
    requires { place < length adjusted.now }
    ensures { result ≡ day_at adjusted.now place }
{
    adjusted[place]
}

// The observed rate of a period, or why it has no observations.
fn rate_at<G: GoodDays>(
    alloc: Global,
    s: &Stream,
    float: &FloatTerms,
    parameters: &CalculationParameters,
    span: &Span,
    adjusted: &[Day],
    number: usize,
    applicable: &G,
    daily: &Fixings,
) -> Result<OvernightRate, Stopped<NoObservations>>
    requires period { IsPeriod adjusted.now number }
    requires rising { IsRising adjusted.now }
    requires stubs { IfSome s.now.stubs IsLawfulStubs }
    ensures meets { let source =
        overnight_source s.now span.now adjusted.now (G.days applicable.now) float.now parameters.now in
        Meets (rate_at_of source daily.now number) result }
    ensures bounds { IfOk result HasBounds }
{
    let kind = period_kind(s, span, adjusted.len() - 1, number);
    match own_rate(kind, &s.stubs) {
        Some(rate) => Ok(OvernightRate::Stated(rate)),
        None => {
            let start = boundary(adjusted, number - 1);
            let end = boundary(adjusted, number);
            rate_over(
                alloc,
                method_by(parameters.method, s.day_count),
                parameters.offset,
                applicable,
                start,
                end,
                daily,
                &float.index,
            )
        }
    }
}

/// The first period that has no observations, and why.
#[derive(Clone, Copy)]
pub(crate) struct Unobserved {
    /// The number of the period, from 1.
    pub number: u32,
    /// Why it has none.
    pub why: NoObservations,
}

// One observed rate for each period, or the first period that has no observations.
fn listed<G: GoodDays>(
    alloc: Global,
    s: &Stream,
    float: &FloatTerms,
    parameters: &CalculationParameters,
    span: &Span,
    adjusted: &[Day],
    applicable: &G,
    daily: &Fixings,
) -> Result<OvernightRates, Stopped<Unobserved>>
    requires few { length adjusted.now < 2 ^ 32 }
    requires rising { IsRising adjusted.now }
    requires stubs { IfSome s.now.stubs IsLawfulStubs }
    ensures ok { let source =
        overnight_source s.now span.now adjusted.now (G.days applicable.now) float.now parameters.now in
        IfOk result (AreOvernightRates source daily.now) }
    ensures none { let source =
        overnight_source s.now span.now adjusted.now (G.days applicable.now) float.now parameters.now in
        IfOk result (λ _. NoneLacks source) }
    ensures bounds { IfOk result (All HasBounds) }
    ensures broken { let source =
        overnight_source s.now span.now adjusted.now (G.days applicable.now) float.now parameters.now in
        IfBroken result (StopsAt source) }
{
    let mut rates = OvernightRates::new(alloc);
    for number in 1..adjusted.len() {
        match rate_at(
            alloc, s, float, parameters, span, adjusted, number, applicable, daily,
        ) {
            Ok(rate) => rates.push(rate)?,
            Err(Stopped::Broken(why)) => {
                return Err(Stopped::Broken(Unobserved {
                    number: number as u32,
                    why,
                }));
            }
            Err(Stopped::Memory) => return Err(Stopped::Memory),
        }
    }
    Ok(rates)
}

// Whether a period has too few members.
fn has_few<G: GoodDays>(
    alloc: Global,
    s: &Stream,
    float: &FloatTerms,
    parameters: &CalculationParameters,
    span: &Span,
    adjusted: &[Day],
    number: usize,
    applicable: &G,
    daily: &Fixings,
) -> Result<bool, Memory>
    requires period { IsPeriod adjusted.now number }
    requires rising { IsRising adjusted.now }
    requires stubs { IfSome s.now.stubs IsLawfulStubs }
    ensures { let source =
        overnight_source s.now span.now adjusted.now (G.days applicable.now) float.now parameters.now in
        IfOk result (λ few. IsTrue few ↔ LacksAt source number TooFew) }
{
    match rate_at(
        alloc, s, float, parameters, span, adjusted, number, applicable, daily,
    ) {
        Ok(_) => Ok(false),
        Err(Stopped::Broken(why)) => Ok(is_few(why)),
        Err(Stopped::Memory) => Err(Memory),
    }
}

// Whether there are too few members.
fn is_few(why: NoObservations) -> bool
    ensures { IsTrue result ↔ why ≡ TooFew }
{
    why == NoObservations::FewMembers
}

// The first period after the one with this number that has too few members.
fn first_few<G: GoodDays>(
    alloc: Global,
    s: &Stream,
    float: &FloatTerms,
    parameters: &CalculationParameters,
    span: &Span,
    adjusted: &[Day],
    after: u32,
    applicable: &G,
    daily: &Fixings,
) -> Result<Option<u32>, Memory>
    requires few { length adjusted.now < 2 ^ 32 }
    requires rising { IsRising adjusted.now }
    requires stubs { IfSome s.now.stubs IsLawfulStubs }
    ensures { let source =
        overnight_source s.now span.now adjusted.now (G.days applicable.now) float.now parameters.now in
        IfOk result (IsFirst nat_lt (HasFewAfter source after)) }
{
    for number in after as usize + 1..adjusted.len() {
        if has_few(
            alloc, s, float, parameters, span, adjusted, number, applicable, daily,
        )? {
            return Ok(Some(number as u32));
        }
    }
    Ok(None)
}

// The fault of a period without observations.
fn observation_fault(why: NoObservations, index: u32) -> Fault
    ensures { result ≡ observation_fault why index }
{
    match why {
        NoObservations::FewMembers => Fault {
            rule: Rule::K48,
            elem: Elem::CALCULATION_PARAMETERS,
            index,
        },
        NoObservations::NoDay => Fault {
            rule: Rule::K33,
            elem: Elem::CALCULATION_PARAMETERS,
            index,
        },
    }
}

// What the first period without observations breaks, or a later one with too few members.
fn first_broken<G: GoodDays>(
    alloc: Global,
    s: &Stream,
    float: &FloatTerms,
    parameters: &CalculationParameters,
    span: &Span,
    adjusted: &[Day],
    first: Unobserved,
    applicable: &G,
    daily: &Fixings,
) -> Result<Fault, Memory>
    requires few { length adjusted.now < 2 ^ 32 }
    requires rising { IsRising adjusted.now }
    requires stubs { IfSome s.now.stubs IsLawfulStubs }
    requires first { let source =
        overnight_source s.now span.now adjusted.now (G.days applicable.now) float.now parameters.now in
        StopsAt source first }
    ensures { let source =
        overnight_source s.now span.now adjusted.now (G.days applicable.now) float.now parameters.now in
        IfOk result (First comes_before (BreaksObservations source)) }
{
    match first.why {
        NoObservations::FewMembers => Ok(observation_fault(
            NoObservations::FewMembers,
            first.number,
        )),
        NoObservations::NoDay => {
            let few = first_few(
                alloc,
                s,
                float,
                parameters,
                span,
                adjusted,
                first.number,
                applicable,
                daily,
            )?;
            Ok(few_or_none(few, first.number))
        }
    }
}

// K48 of the first period with too few members, else K33 of the first one without a day.
fn few_or_none(few: Option<u32>, no_day: u32) -> Fault
    ensures { result ≡ fault_by few no_day }
{
    match few {
        Some(number) => observation_fault(NoObservations::FewMembers, number),
        None => observation_fault(NoObservations::NoDay, no_day),
    }
}

/// The observed rates of a stream with calculation parameters, one for each calculation period.
/// `Broken` is the first K48, or else the first K33.
pub(crate) fn overnight_rates<G: GoodDays>(
    alloc: Global,
    s: &Stream,
    float: &FloatTerms,
    parameters: &CalculationParameters,
    span: &Span,
    adjusted: &[Day],
    applicable: &G,
    daily: &Fixings,
) -> Result<OvernightRates, Stopped<Fault>>
    requires few { length adjusted.now < 2 ^ 32 }
    requires rising { IsRising adjusted.now }
    requires stubs { IfSome s.now.stubs IsLawfulStubs }
    ensures meets { let source =
        overnight_source s.now span.now adjusted.now (G.days applicable.now) float.now parameters.now in
        Meets (overnight_rates_of source daily.now) result }
    ensures bounds { IfOk result (All HasBounds) }
{
    match listed(
        alloc, s, float, parameters, span, adjusted, applicable, daily,
    ) {
        Ok(rates) => Ok(rates),
        Err(Stopped::Broken(first)) => Err(Stopped::Broken(first_broken(
            alloc, s, float, parameters, span, adjusted, first, applicable, daily,
        )?)),
        Err(Stopped::Memory) => Err(Stopped::Memory),
    }
}
