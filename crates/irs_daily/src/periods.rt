//! The rows of one calculation period.
ghost use Rattle.std.specs.Prelude.{◌≡◌, ◌^◌, ◌<◌, ◌<ℤ◌, [], length, IfOk, IfSome};
ghost use Rattle.irs_base.specs.Lists.{IsRising, day_at};
ghost use Rattle.irs_base.specs.Outcomes.{Meets};
ghost use Rattle.irs_terms.specs.Lawful.{IsLawfulStubs};
ghost use Rattle.irs_resets.specs.Resets.{IsPeriod};
ghost use Rattle.irs_observed.specs.ObservedRates.{daily_rates, rates_by};
ghost use Rattle.irs_observed.specs.Observations.{observed_period, HasWeights};
ghost use Rattle.irs_observed.specs.OvernightRates.{overnight_source};
ghost use Rattle.irs_daily.specs.Private.FactorSteps.{IsGrowthOf, daily_rows_of, period_rows_of, rows_by_of};
ghost use Rattle.irs_daily.specs.ObservedRows.{day_rows};
ghost use Rattle.irs_daily.specs.declared.rows.ObservedRow.TheVariants.{Stub as OfStub};

use crate::factors::{first_growth, grown};
use crate::growth::Growth;
use crate::rows::{DayRow, NoRowsWhy, ObservedRow, ObservedRows, PeriodRow};
use irs_base::{Day, Memory, Stopped, Text};
use irs_calendar::GoodDays;
use irs_observed::{
    DailyRateMethod, Observation, ObservationList, daily_rate_near, method_by, observations,
    own_rate,
};
use irs_resets::{Fixings, IndexRates, period_kind};
use irs_terms::{CalculationParameters, FloatTerms, ObservationOffset, Span, Stream};
use std::alloc::Global;

/// The rows of a calculation period.
#[derive(Drop)]
pub(crate) struct PeriodRows {
    /// The row of the period.
    pub head: ObservedRow,
    /// The rows of its observations.
    pub days: ObservedRows,
}

// What is known of the factor of some observations, and their rows.
#[derive(Drop)]
struct RatedDays {
    growth: Growth,
    days: ObservedRows,
}

// The rows of observations, and their factor. Each daily rate is looked up once.
fn rated(
    alloc: Global,
    method: DailyRateMethod,
    number: u32,
    observations: &[Observation],
    daily: &IndexRates<'_>,
) -> Result<RatedDays, Memory>
    requires weights { HasWeights observations.now }
    ensures days { IfOk result (λ r. r.days ≡ day_rows (rates_by daily.now) number observations.now) }
    ensures growth { IfOk result (λ r. IsGrowthOf method (rates_by daily.now) observations.now r.growth) }
{
    let mut days = ObservedRows::with_room(alloc, observations.len())?;
    let mut growth = first_growth(method);
    let mut near = 0;
    for o in observations {
        let rate = daily_rate_near(daily, o.observed, &mut near);
        growth = grown(method, growth, rate, o.weight);
        days.push(ObservedRow::Observed(DayRow {
            number,
            observation: *o,
            rate,
        }))?;
    }
    Ok(RatedDays { growth, days })
}

// The row of a period that takes daily rates.
fn daily_head(number: u32, method: DailyRateMethod, factor: Option<i128>) -> ObservedRow
    ensures { result ≡ ObservedRow.Daily (record { number = number; method = method; factor = factor }) }
{
    ObservedRow::Daily(PeriodRow {
        number,
        method,
        factor,
    })
}

// The rows of a period by its observations.
fn rows_by(
    alloc: Global,
    method: DailyRateMethod,
    number: u32,
    all: &ObservationList,
    daily: &IndexRates<'_>,
) -> Result<PeriodRows, Stopped<NoRowsWhy>>
    ensures meets { Meets (rows_by_of method (rates_by daily.now) number all.now) result }
{
    let RatedDays { growth, days } = rated(alloc, method, number, all.as_slice(), daily)?;
    match growth {
        Growth::Known(factor) => Ok(PeriodRows {
            head: daily_head(number, method, Some(factor)),
            days,
        }),
        Growth::Passed => Err(Stopped::Broken(NoRowsWhy::OutOfRange)),
        Growth::Absent => Ok(PeriodRows {
            head: daily_head(number, method, None),
            days,
        }),
    }
}

// The rows of a calculation period that takes daily rates.
fn daily_rows<G: GoodDays>(
    alloc: Global,
    method: DailyRateMethod,
    offset: ObservationOffset,
    applicable: &G,
    start: Day,
    end: Day,
    number: u32,
    fixings: &Fixings,
    index: &Text,
) -> Result<PeriodRows, Stopped<NoRowsWhy>>
    requires order { start <ℤ end }
    ensures meets { let p = observed_period offset (G.days applicable.now) start end in
        Meets (daily_rows_of method (daily_rates fixings.now index.now) p number) result }
{
    match observations(alloc, offset, applicable, start, end) {
        Ok(all) => rows_by(alloc, method, number, &all, &fixings.of(index)),
        Err(Stopped::Broken(why)) => Err(Stopped::Broken(NoRowsWhy::Unobserved(why))),
        Err(Stopped::Memory) => Err(Stopped::Memory),
    }
}

// The row of a stub with a rate of its own.
fn stub_rows(alloc: Global, number: u32) -> PeriodRows
    ensures head { result.head ≡ OfStub number }
    ensures days { result.days ≡ [] }
{
    PeriodRows {
        head: ObservedRow::Stub(number),
        days: ObservedRows::new(alloc),
    }
}

// The adjusted boundary at a place.
fn boundary(adjusted: &[Day], place: usize) -> Day
    requires { place < length adjusted.now }
    ensures { result ≡ day_at adjusted.now place }
{
    adjusted[place]
}

/// The rows of the calculation period with a number, from 1, or why it has none.
pub(crate) fn period_rows<G: GoodDays>(
    alloc: Global,
    s: &Stream,
    float: &FloatTerms,
    parameters: &CalculationParameters,
    span: &Span,
    adjusted: &[Day],
    number: usize,
    applicable: &G,
    fixings: &Fixings,
) -> Result<PeriodRows, Stopped<NoRowsWhy>>
    requires few { number < 2 ^ 32 }
    requires period { IsPeriod adjusted.now number }
    requires rising { IsRising adjusted.now }
    requires stubs { IfSome s.now.stubs IsLawfulStubs }
    ensures meets { let source =
        overnight_source s.now span.now adjusted.now (G.days applicable.now) float.now parameters.now in
        Meets (period_rows_of source fixings.now number) result }
{
    let kind = period_kind(s, span, adjusted.len() - 1, number);
    match own_rate(kind, &s.stubs) {
        Some(_) => Ok(stub_rows(alloc, number as u32)),
        None => {
            let start = boundary(adjusted, number - 1);
            let end = boundary(adjusted, number);
            daily_rows(
                alloc,
                method_by(parameters.method, s.day_count),
                parameters.offset,
                applicable,
                start,
                end,
                number as u32,
                fixings,
                &float.index,
            )
        }
    }
}
