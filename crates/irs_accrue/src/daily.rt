//! What has accrued in a stream with calculation parameters (FpML `calculationParameters`). It is the
//! running period's notional times the rate by daily rates times the fraction that has run.
//!
//! The rate is that of the daily rates of the period's members before the day. They are compounded or averaged
//! as for the whole period (the words are those of the 2021 ISDA Definitions). Under an observation shift, what is
//! observed ends on the day moved back. So on the first days nothing has accrued yet, not even the
//! spread. These rules are ours.
ghost use Rattle.std.specs.Prelude.{◌≡◌, ◌<ℤ◌, ◌≤ℤ◌, ℤ, IfOk};
ghost use Rattle.irs_terms.specs.Lawful.{decimals_of, IsLawfulLeg, IsLawfulStream, IsNotional};
ghost use Rattle.irs_terms.specs.TermDates.{LegStepsRise, FrequencySuits, DatesInOrder};
ghost use Rattle.irs_observed.specs.Observations.{Shifts};
ghost use Rattle.irs_observed.specs.OvernightRates.{HasBounds};
ghost use Rattle.irs_accrue.specs.Accruals.{Runs};
ghost use Rattle.irs_periods.specs.Boundaries.{HasSpan};
ghost use Rattle.irs_accrue.specs.DailyAccruals.{AccruesAs, AccruesDaily, EarnsBefore, GivesRate, IsDailyAccrual};
ghost use Rattle.irs_accrue.specs.DailyAccruals.{daily_terms, no_amount_yet};
ghost use Rattle.irs_accrue.specs.Private.Sizes.{IsSmall};

use crate::Accrual;
use crate::interest::amount_of;
use crate::running::{RunningPeriod, running_period};
use crate::shares::share_of;
use irs_base::{Day, Dec, Memory};
use irs_calendar::GoodDays;
use irs_compound::rates_of_period;
use irs_observed::{OvernightRate, method_by, observation_period, own_rate, rate_before};
use irs_periods::span_of;
use irs_resets::{Fixings, PeriodKind, period_kind};
use irs_schedule::{CalculationPeriod, StreamPart};
use irs_terms::{CalculationParameters, Currency, DayCountCode, FloatTerms, Frac, Leg, Stream};
use std::alloc::Global;

// No amount yet.
fn nothing(currency: Currency) -> Dec
    ensures { result ≡ no_amount_yet (decimals_of currency.letters) }
{
    Dec {
        units: 0,
        places: currency.places(),
    }
}

// The rate that an observed rate gives, by the multiplier and the spread in force on a day.
fn rate_given(leg: &Leg, start: Day, observed: OvernightRate) -> Option<i64>
    requires leg { IsLawfulLeg leg.now }
    requires rises { LegStepsRise leg.now }
    requires bounds { HasBounds observed }
    ensures { GivesRate leg.now start observed result }
{
    match rates_of_period(leg, start, None, &Some(observed)) {
        Some(rates) => Some(rates.all_in),
        None => None,
    }
}

// What the notional of a period earns at the rate by the members before a day.
fn earned_before<G: GoodDays>(
    alloc: Global,
    leg: &Leg,
    code: DayCountCode,
    float: &FloatTerms,
    parameters: &CalculationParameters,
    applicable: &G,
    fixings: &Fixings,
    currency: Currency,
    period: &CalculationPeriod,
    before: Day,
    frac: Frac,
) -> Result<Option<Dec>, Memory>
    requires leg { IsLawfulLeg leg.now }
    requires rises { LegStepsRise leg.now }
    requires order { period.now.adjusted_start <ℤ period.now.adjusted_end }
    requires begun { (a : ℤ) → Shifts parameters.now.offset (G.days applicable.now) period.now.adjusted_start a → a <ℤ before }
    requires notional { IsNotional period.now.notional }
    requires frac { IsSmall frac }
    ensures { let t = daily_terms leg.now code float.now parameters.now (G.days applicable.now) fixings.now in
        IfOk result (EarnsBefore t (decimals_of currency.letters) period.now before frac) }
{
    let observed = rate_before(
        alloc,
        method_by(parameters.method, code),
        parameters.offset,
        applicable,
        period.adjusted_start,
        period.adjusted_end,
        before,
        fixings,
        &float.index,
    )?;
    let known = rate_given(leg, period.start, observed);
    Ok(amount_of(currency, period.notional, known, frac))
}

// What has accrued before a day that is after the first.
fn amount_after<G: GoodDays>(
    alloc: Global,
    leg: &Leg,
    code: DayCountCode,
    float: &FloatTerms,
    parameters: &CalculationParameters,
    applicable: &G,
    fixings: &Fixings,
    currency: Currency,
    period: &CalculationPeriod,
    d: Day,
    frac: Frac,
) -> Result<Option<Dec>, Memory>
    requires leg { IsLawfulLeg leg.now }
    requires rises { LegStepsRise leg.now }
    requires after { period.now.adjusted_start <ℤ d }
    requires not_ended { d <ℤ period.now.adjusted_end }
    requires notional { IsNotional period.now.notional }
    requires frac { IsSmall frac }
    ensures { let t = daily_terms leg.now code float.now parameters.now (G.days applicable.now) fixings.now in
        IfOk result (AccruesDaily t (decimals_of currency.letters) period.now d frac) }
{
    let Some(run) = observation_period(parameters.offset, applicable, period.adjusted_start, d)
    else {
        return Ok(None);
    };
    if run.to <= run.from {
        return Ok(Some(nothing(currency)));
    }
    earned_before(
        alloc, leg, code, float, parameters, applicable, fixings, currency, period, run.to, frac,
    )
}

// What has accrued before a day of a period that takes daily rates.
fn daily_amount<G: GoodDays>(
    alloc: Global,
    leg: &Leg,
    code: DayCountCode,
    float: &FloatTerms,
    parameters: &CalculationParameters,
    applicable: &G,
    fixings: &Fixings,
    currency: Currency,
    period: &CalculationPeriod,
    d: Day,
    frac: Frac,
) -> Result<Option<Dec>, Memory>
    requires leg { IsLawfulLeg leg.now }
    requires rises { LegStepsRise leg.now }
    requires started { period.now.adjusted_start ≤ℤ d }
    requires not_ended { d <ℤ period.now.adjusted_end }
    requires notional { IsNotional period.now.notional }
    requires frac { IsSmall frac }
    ensures { let t = daily_terms leg.now code float.now parameters.now (G.days applicable.now) fixings.now in
        IfOk result (AccruesDaily t (decimals_of currency.letters) period.now d frac) }
{
    if d <= period.adjusted_start {
        return Ok(Some(nothing(currency)));
    }
    amount_after(
        alloc, leg, code, float, parameters, applicable, fixings, currency, period, d, frac,
    )
}

// What has accrued before a day of a period of this kind.
fn amount_as<G: GoodDays>(
    alloc: Global,
    s: &Stream,
    float: &FloatTerms,
    parameters: &CalculationParameters,
    applicable: &G,
    fixings: &Fixings,
    kind: PeriodKind,
    currency: Currency,
    period: &CalculationPeriod,
    d: Day,
    frac: Frac,
) -> Result<Option<Dec>, Memory>
    requires lawful { IsLawfulStream s.now }
    requires rises { LegStepsRise s.now.leg }
    requires started { period.now.adjusted_start ≤ℤ d }
    requires not_ended { d <ℤ period.now.adjusted_end }
    requires notional { IsNotional period.now.notional }
    requires frac { IsSmall frac }
    ensures { let t = daily_terms s.now.leg s.now.day_count float.now parameters.now (G.days applicable.now) fixings.now in
        IfOk result (AccruesAs t s.now.stubs kind (decimals_of currency.letters) period.now d frac) }
{
    match own_rate(kind, &s.stubs) {
        Some(_) => Ok(amount_of(currency, period.notional, period.rate, frac)),
        None => daily_amount(
            alloc,
            &s.leg,
            s.day_count,
            float,
            parameters,
            applicable,
            fixings,
            currency,
            period,
            d,
            frac,
        ),
    }
}

// What has accrued of the period that runs on the day.
fn inside<G: GoodDays>(
    alloc: Global,
    s: &Stream,
    float: &FloatTerms,
    parameters: &CalculationParameters,
    applicable: &G,
    fixings: &Fixings,
    part: &StreamPart,
    running: &RunningPeriod,
    d: Day,
) -> Result<Accrual, Memory>
    requires lawful { IsLawfulStream s.now }
    requires rises { LegStepsRise s.now.leg }
    requires dates { DatesInOrder s.now }
    requires frequency { FrequencySuits s.now }
    requires span { HasSpan s.now }
    requires runs { Runs part.now d running.now.number running.now.period }
    ensures accrual { let t = daily_terms s.now.leg s.now.day_count float.now parameters.now (G.days applicable.now) fixings.now in
        IfOk result (IsDailyAccrual t s.now part.now d) }
{
    let period = &running.period;
    let share = share_of(
        part.day_count(),
        period.adjusted_start,
        d,
        period.adjusted_end,
    );
    let kind = period_kind(s, &span_of(s), part.periods(), running.number as usize);
    let amount = amount_as(
        alloc,
        s,
        float,
        parameters,
        applicable,
        fixings,
        kind,
        part.currency(),
        period,
        d,
        share.frac,
    )?;
    Ok(Accrual::Inside {
        period: running.number,
        days: share.days,
        frac: share.frac,
        amount,
    })
}

/// What has accrued on a day in a stream with calculation parameters.
pub(crate) fn daily_accrued<G: GoodDays>(
    alloc: Global,
    s: &Stream,
    float: &FloatTerms,
    parameters: &CalculationParameters,
    applicable: &G,
    fixings: &Fixings,
    part: &StreamPart,
    d: Day,
) -> Result<Accrual, Memory>
    requires lawful { IsLawfulStream s.now }
    requires rises { LegStepsRise s.now.leg }
    requires dates { DatesInOrder s.now }
    requires frequency { FrequencySuits s.now }
    requires span { HasSpan s.now }
    ensures accrual { let t = daily_terms s.now.leg s.now.day_count float.now parameters.now (G.days applicable.now) fixings.now in
        IfOk result (IsDailyAccrual t s.now part.now d) }
{
    match running_period(part, d) {
        Some(running) => inside(
            alloc, s, float, parameters, applicable, fixings, part, &running, d,
        ),
        None => Ok(Accrual::Outside),
    }
}
