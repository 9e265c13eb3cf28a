//! The fixing that the rate of a calculation period rests on, where no line of the fixings has it.
ghost use Rattle.std.specs.Prelude.{◌≡◌, ◌<◌, ◌≤◌, ℤ, Some, IfOk, length};
ghost use Rattle.irs_terms.specs.declared.amounts.Leg.TheVariants.{Floating as OfFloating};
ghost use Rattle.irs_terms.specs.declared.results.Reset.{Reset as ResetRow};
ghost use Rattle.irs_base.specs.Lists.{HoldsOf, day_at};
ghost use Rattle.irs_resets.specs.Rates.{Line as LineOf, Stated};
ghost use Rattle.irs_resets.specs.Private.Resets.{source_by};
ghost use Rattle.irs_unfixed.specs.Unfixed.{IsAbsentDay, LacksFixing, daily_period};
ghost use Rattle.irs_unfixed.specs.Private.Made.{IsGap, fixing_in};
ghost use Rattle.irs_observed.specs.ObservedRates.{daily_rates};

use crate::days::absent_day;
use crate::lines::{RateLine, line_of};
use irs_base::{Day, Memory, Text};
use irs_calendar::Calendars;
use irs_periods::span_of;
use irs_resets::{Fixings, PeriodKind, period_kind};
use irs_schedule::{StreamPart, applicable_days};
use irs_terms::{CalculationParameters, FloatTerms, Frequency, Leg, Stream, StubTerms, Unit};
use std::alloc::Global;

// The tenor of daily rates.
const ONE_DAY: Frequency = Frequency {
    count: 1,
    unit: Unit::D,
};

/// The fixing that a calculation period needs.
#[derive(Clone, Copy)]
pub(crate) struct Needed<'a> {
    /// The index (FpML `floatingRateIndex`).
    pub index: &'a Text,
    /// The tenor, where it has one (FpML `indexTenor`).
    pub tenor: Option<Frequency>,
    /// The day on which the rate is fixed.
    pub day: Day,
}

// The line that the rate of a period of this kind is, where the terms don't state it.
fn line_for<'a>(
    kind: PeriodKind,
    float: &'a FloatTerms,
    stubs: &'a Option<StubTerms>,
) -> RateLine<'a>
    requires { (rate : ℤ) → source_by kind float.now stubs.now ≡ Stated rate → ⊥ }
    ensures { source_by kind float.now stubs.now ≡ LineOf result.index.now result.tenor }
{
    match line_of(kind, float, stubs) {
        Some(line) => line,
        None => unreachable!(),
    }
}

// The fixing date of the reset of a period, counted from 1.
fn fixing_date(part: &StreamPart, number: u32) -> Day
    requires low { 0 < number }
    requires high { number ≤ length part.now.resets }
    ensures { HoldsOf (λ (r : ResetRow). r.fixing ≡ result) part.now.resets number }
{
    part.resets()[number as usize - 1].fixing
}

// The fixing of a period without calculation parameters: that of its line on its fixing date.
fn reset_fixing<'a>(
    s: &'a Stream,
    float: &'a FloatTerms,
    calendars: &Calendars,
    fixings: &Fixings,
    part: &StreamPart,
    number: u32,
) -> Needed<'a>
    requires gap { IsGap calendars.now fixings.now s.now part.now number }
    requires pays { s.now.leg ≡ OfFloating float.now }
    requires plain { float.now.parameters ≡ None }
    ensures { LacksFixing calendars.now fixings.now s.now part.now number (fixing_in result) }
{
    let kind = period_kind(s, &span_of(s), part.periods(), number as usize);
    let line = line_for(kind, float, &s.stubs);
    Needed {
        index: line.index,
        tenor: line.tenor,
        day: fixing_date(part, number),
    }
}

// The first observation day without a daily rate, of a period that takes daily rates.
fn observation_day(
    alloc: Global,
    s: &Stream,
    float: &FloatTerms,
    parameters: &CalculationParameters,
    calendars: &Calendars,
    fixings: &Fixings,
    part: &StreamPart,
    number: u32,
) -> Result<Day, Memory>
    requires gap { IsGap calendars.now fixings.now s.now part.now number }
    requires pays { s.now.leg ≡ OfFloating float.now }
    requires daily { float.now.parameters ≡ Some parameters.now }
    ensures { let p = daily_period calendars.now s.now parameters.now part.now number in
        IfOk result (IsAbsentDay (daily_rates fixings.now float.now.index) p) }
{
    let days = applicable_days(alloc, calendars, s)?;
    let start = boundary(part, number - 1);
    let end = boundary(part, number);
    absent_day(
        alloc,
        parameters.offset,
        &days,
        start,
        end,
        fixings,
        &float.index,
    )
}

// The adjusted boundary at a place.
fn boundary(part: &StreamPart, place: u32) -> Day
    requires { place < length part.now.adjusted }
    ensures { result ≡ day_at part.now.adjusted place }
{
    part.adjusted()[place as usize]
}

// The fixing of a period with calculation parameters: that of its first observation day without one.
fn daily_fixing<'a>(
    alloc: Global,
    s: &'a Stream,
    float: &'a FloatTerms,
    parameters: &CalculationParameters,
    calendars: &Calendars,
    fixings: &Fixings,
    part: &StreamPart,
    number: u32,
) -> Result<Needed<'a>, Memory>
    requires gap { IsGap calendars.now fixings.now s.now part.now number }
    requires pays { s.now.leg ≡ OfFloating float.now }
    requires daily { float.now.parameters ≡ Some parameters.now }
    ensures { IfOk result (λ n. LacksFixing calendars.now fixings.now s.now part.now number (fixing_in n)) }
{
    let day = observation_day(
        alloc, s, float, parameters, calendars, fixings, part, number,
    )?;
    Ok(Needed {
        index: &float.index,
        tenor: Some(ONE_DAY),
        day,
    })
}

// The fixing of a period of a floating stream.
fn floating_fixing<'a>(
    alloc: Global,
    s: &'a Stream,
    float: &'a FloatTerms,
    calendars: &Calendars,
    fixings: &Fixings,
    part: &StreamPart,
    number: u32,
) -> Result<Needed<'a>, Memory>
    requires gap { IsGap calendars.now fixings.now s.now part.now number }
    requires pays { s.now.leg ≡ OfFloating float.now }
    ensures { IfOk result (λ n. LacksFixing calendars.now fixings.now s.now part.now number (fixing_in n)) }
{
    match &float.parameters {
        Some(parameters) => daily_fixing(
            alloc, s, float, parameters, calendars, fixings, part, number,
        ),
        None => Ok(reset_fixing(s, float, calendars, fixings, part, number)),
    }
}

/// The fixing that a calculation period of a stream needs, whose rate isn't known. `part` is the stream's
/// part of the schedule, and `number` the number of the period, from 1.
pub(crate) fn needed_fixing<'a>(
    alloc: Global,
    s: &'a Stream,
    calendars: &Calendars,
    fixings: &Fixings,
    part: &StreamPart,
    number: u32,
) -> Result<Needed<'a>, Memory>
    requires { IsGap calendars.now fixings.now s.now part.now number }
    ensures { IfOk result (λ n. LacksFixing calendars.now fixings.now s.now part.now number (fixing_in n)) }
{
    match &s.leg {
        Leg::Floating(float) => {
            floating_fixing(alloc, s, float, calendars, fixings, part, number)
        }
        Leg::Fixed(_) => unreachable!(),
    }
}
