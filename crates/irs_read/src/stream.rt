//! The stream that a value says.
ghost use Rattle.irs_base.specs.Lists.{Pairs};
ghost use Rattle.irs_elements.specs.Elements.{seen};
ghost use Rattle.irs_read.specs.Private.Sayings.{IsSaid, RoundingSaid, StreamParts};
ghost use Rattle.irs_read.specs.StreamElements.{StreamSays, SwapSays, exchanges as exchanges_by, stub as stub_by};
ghost use Rattle.irs_read.specs.StreamElements.{fixing_dates as fixing_dates_by, floating, indexed as indexed_by};
ghost use Rattle.irs_read.specs.StreamElements.{leg as leg_by, payment_dates, places_by, reset_dates, rounding_read};
ghost use Rattle.irs_read.specs.StreamElements.{stubs as stubs_by};
ghost use Rattle.serde_json.specs.View.{view};
ghost use Rattle.std.specs.Prelude.{◌≡◌, IfOk, Some, map};

use crate::blocks::{
    Lists, adjustable_date, adjusting, adjustments_or, frequency, offset, parameters, schedule,
    schedule_or, tenor,
};
use crate::leaf_value;
use crate::leaf_values::{
    Scale, compounding, currency, day_count, maybe, maybe_day, must, one, or, or_else, roll,
    stub_kind, word,
};
use crate::references::{lists, reference};
use irs_base::{Direction, Memory, Text};
use irs_elements::{codes, leaf_text, numbers, once, values_at};
use irs_json::Value;
use irs_terms::{
    DayKind, ExchangeFlags, FixTerms, FloatTerms, Frequency, Leg, Offset, PayTerms, RefState,
    Relative, ResetTerms, Rounding, Stream, StreamList, StubRate, StubTerms, Swap, Treatment,
};
use itoa::Buffer;
use std::alloc::Global;

// The default number of decimals of a rate: 7 if daily rates give it, else 9.
fn default_places(parameters: Option<&Value>) -> u8
    ensures { result ≡ places_by (seen parameters.entry) }
{
    match parameters {
        None => 9,
        Some(_) => 7,
    }
}

fn rounding(v: &Value) -> Rounding
    requires { IsSaid (rounding_read.says (view v.now)) }
    ensures { rounding_read.says (view v.now) result }
{
    let dir = must!(v, "roundingDirection", text => codes::direction(text));
    let places = must!(v, "precision", text => numbers::precision(text.as_bytes()));
    Rounding { dir, places }
}

// How a rate is rounded; absent is Nearest at the default number of decimals.
fn rounding_or(v: &Value) -> Rounding
    requires { IsSaid (RoundingSaid (view v.now)) }
    ensures { RoundingSaid (view v.now) result }
{
    let places = default_places(once(v, "calculationParameters"));
    or!(v, "finalRateRounding", Rounding { dir: Direction::Nearest, places }, v => rounding(v))
}

// An index of a rate, with its tenor.
fn indexed(alloc: Global, v: &Value) -> Result<(Text, Option<Frequency>), Memory>
    requires { IsSaid (indexed_by.says (view v.now)) }
    ensures { IfOk result (indexed_by.says (view v.now)) }
{
    let index = one!(v, "floatingRateIndex", v => word(alloc, Some(v))?);
    let tenor = maybe!(v, "indexTenor", v => tenor(v));
    Ok((index, tenor))
}

// The terms of a floating rate.
fn float_terms(alloc: Global, v: &Value) -> Result<FloatTerms, Memory>
    requires { IsSaid (floating.says (view v.now)) }
    ensures { IfOk result (floating.says (view v.now)) }
{
    let found = indexed(alloc, v)?;
    Ok(FloatTerms {
        index: found.0,
        tenor: found.1,
        multiplier: schedule_or(alloc, 1_000_000_000, v, "floatingRateMultiplierSchedule")?,
        spread: schedule_or(alloc, 0, v, "spreadSchedule")?,
        initial_rate: leaf_value!(once(v, "initialRate"), text => numbers::small_rate(text.as_bytes())),
        rounding: rounding_or(v),
        treatment: or_else!(v, "negativeInterestRateTreatment", Treatment::AsIs, text => codes::treatment(text)),
        parameters: maybe!(v, "calculationParameters", v => parameters(alloc, v)?),
    })
}

// The floating rate if it is present, else the fixed rate.
fn leg(alloc: Global, v: &Value) -> Result<Leg, Memory>
    requires { IsSaid (leg_by.says (view v.now)) }
    ensures { IfOk result (leg_by.says (view v.now)) }
{
    match once(v, "floatingRateCalculation") {
        None => Ok(Leg::Fixed(
            one!(v, "fixedRateSchedule", v => schedule(alloc, Scale::Rates, v)?),
        )),
        Some(float) => Ok(Leg::Floating(float_terms(alloc, float)?)),
    }
}

fn pay_terms(alloc: Global, lists: Lists, dates: &Value, v: &Value) -> Result<PayTerms, Memory>
    requires { IsSaid ((payment_dates (map seen lists.now) (Some (view dates.now))).says (view v.now)) }
    ensures { IfOk result ((payment_dates (map seen lists.now) (Some (view dates.now))).says (view v.now)) }
{
    Ok(PayTerms {
        calc_ref: reference(dates, v, "calculationPeriodDatesReference"),
        freq: one!(v, "paymentFrequency", v => frequency(v)),
        first: maybe_day(v, "firstPaymentDate"),
        last: maybe_day(v, "lastRegularPaymentDate"),
        relative: must!(v, "payRelativeTo", text => codes::relative(text)),
        offset: or!(v, "paymentDaysOffset", Offset { days: 0, kind: DayKind::Unsaid }, v => offset(v)),
        adj: adjustments_or(alloc, lists, v, "paymentDatesAdjustments")?,
    })
}

// The offset and the adjustments of fixing dates, and how their reference to the resets resolves.
fn fixing_dates(
    alloc: Global,
    lists: Lists,
    resets: &Value,
    v: &Value,
) -> Result<(FixTerms, RefState), Memory>
    requires { IsSaid ((fixing_dates_by (map seen lists.now) (Some (view resets.now))).says (view v.now)) }
    ensures { IfOk result ((fixing_dates_by (map seen lists.now) (Some (view resets.now))).says (view v.now)) }
{
    let offset = offset(v);
    let adj = adjusting(alloc, lists, v)?;
    let target = reference(resets, v, "dateRelativeTo");
    Ok((FixTerms { offset, adj }, target))
}

fn reset_terms(alloc: Global, lists: Lists, dates: &Value, v: &Value) -> Result<ResetTerms, Memory>
    requires { IsSaid ((reset_dates (map seen lists.now) (Some (view dates.now))).says (view v.now)) }
    ensures { IfOk result ((reset_dates (map seen lists.now) (Some (view dates.now))).says (view v.now)) }
{
    let (fixing, fixing_ref) = match once(v, "fixingDates") {
        None => (None, RefState::Absent),
        Some(fixings) => {
            let found = fixing_dates(alloc, lists, v, fixings)?;
            (Some(found.0), found.1)
        }
    };
    Ok(ResetTerms {
        calc_ref: reference(dates, v, "calculationPeriodDatesReference"),
        fixing_ref,
        relative: or_else!(v, "resetRelativeTo", Relative::Start, text => codes::relative(text)),
        fixing,
        freq: one!(v, "resetFrequency", v => frequency(v)),
        adj: adjustments_or(alloc, lists, v, "resetDatesAdjustments")?,
    })
}

// The index of a stub if it is present, else its rate.
fn stub(alloc: Global, v: &Value) -> Result<StubRate, Memory>
    requires { IsSaid (stub_by.says (view v.now)) }
    ensures { IfOk result (stub_by.says (view v.now)) }
{
    match once(v, "floatingRate") {
        None => Ok(StubRate::Fixed(
            must!(v, "stubRate", text => numbers::small_rate(text.as_bytes())),
        )),
        Some(float) => {
            let found = indexed(alloc, float)?;
            Ok(StubRate::Index(found.0, found.1))
        }
    }
}

fn stub_terms(alloc: Global, dates: &Value, v: &Value) -> Result<StubTerms, Memory>
    requires { IsSaid ((stubs_by (Some (view dates.now))).says (view v.now)) }
    ensures { IfOk result ((stubs_by (Some (view dates.now))).says (view v.now)) }
{
    Ok(StubTerms {
        calc_ref: reference(dates, v, "calculationPeriodDatesReference"),
        initial: maybe!(v, "initialStub", v => stub(alloc, v)?),
        last: maybe!(v, "finalStub", v => stub(alloc, v)?),
    })
}

fn exchanges(v: &Value) -> ExchangeFlags
    requires { IsSaid (exchanges_by.says (view v.now)) }
    ensures { exchanges_by.says (view v.now) result }
{
    ExchangeFlags {
        initial: must!(v, "initialExchange", text => codes::truth(text)),
        intermediate: must!(v, "intermediateExchange", text => codes::truth(text)),
        last: must!(v, "finalExchange", text => codes::truth(text)),
    }
}

// The stream of which these are the dates, the frequency, the calculation and the notionals.
fn stream_of(
    alloc: Global,
    lists: Lists,
    v: &Value,
    dates: &Value,
    freq: &Value,
    calc: &Value,
    notionals: &Value,
) -> Result<Stream, Memory>
    requires { IsSaid (StreamParts (map seen lists.now) (view v.now) (view dates.now) (view freq.now) (view calc.now)
        (view notionals.now)) }
    ensures { IfOk result (StreamParts (map seen lists.now) (view v.now) (view dates.now) (view freq.now)
        (view calc.now) (view notionals.now)) }
{
    Ok(Stream {
        effective: one!(dates, "effectiveDate", v => adjustable_date(alloc, lists, v)?),
        first_start: maybe!(dates, "firstPeriodStartDate", v => adjustable_date(alloc, lists, v)?),
        termination: one!(dates, "terminationDate", v => adjustable_date(alloc, lists, v)?),
        period_adj: one!(dates, "calculationPeriodDatesAdjustments", v => adjusting(alloc, lists, v)?),
        first_regular: maybe_day(dates, "firstRegularPeriodStartDate"),
        last_regular: maybe_day(dates, "lastRegularPeriodEndDate"),
        stub: stub_kind(dates, "stubPeriodType"),
        freq: frequency(freq),
        roll: roll(freq, "rollConvention"),
        pay: one!(v, "paymentDates", v => pay_terms(alloc, lists, dates, v)?),
        reset: maybe!(v, "resetDates", v => reset_terms(alloc, lists, dates, v)?),
        notional: schedule(alloc, Scale::Notionals, notionals)?,
        currency: currency(notionals, "currency"),
        leg: leg(alloc, calc)?,
        day_count: day_count(calc, "dayCountFraction"),
        compounding: compounding(calc, "compoundingMethod"),
        stubs: maybe!(v, "stubCalculationPeriodAmount", v => stub_terms(alloc, dates, v)?),
        // No principal is exchanged where it isn't said.
        exchanges: or!(v, "principalExchanges",
            ExchangeFlags { initial: false, intermediate: false, last: false }, v => exchanges(v)),
    })
}

#[tactic(auto, using(crate::proofs::StreamParts::parts_say), unfolding(crate::specs::StreamElements::StreamSays))]
fn stream(alloc: Global, lists: Lists, v: &Value) -> Result<Stream, Memory>
    requires { IsSaid (StreamSays (map seen lists.now) (view v.now)) }
    ensures { IfOk result (StreamSays (map seen lists.now) (view v.now)) }
{
    let dates = one!(v, "calculationPeriodDates", v => v);
    let freq = one!(dates, "calculationPeriodFrequency", v => v);
    let amount = one!(v, "calculationPeriodAmount", v => v);
    let calc = one!(amount, "calculation", v => v);
    let notional = one!(calc, "notionalSchedule", v => v);
    let notionals = one!(notional, "notionalStepSchedule", v => v);
    stream_of(alloc, lists, v, dates, freq, calc, notionals)
}

#[tactic(auto, using(crate::proofs::EachSaid::says_more, crate::proofs::EachSaid::says_all))]
fn each_stream(alloc: Global, lists: Lists, streams: &[Value]) -> Result<StreamList, Memory>
    requires { IsSaid (Pairs (StreamSays (map seen lists.now)) (map view streams.now)) }
    ensures { IfOk result (Pairs (StreamSays (map seen lists.now)) (map view streams.now)) }
{
    let mut list = StreamList::new(alloc);
    for found in streams {
        list.push(stream(alloc, lists, found)?)?;
    }
    Ok(list)
}

/// The swap that a value says.
pub fn swap_of(alloc: Global, v: &Value) -> Result<Swap, Memory>
    requires { IsSaid (SwapSays (view v.now)) }
    ensures { IfOk result (SwapSays (view v.now)) }
{
    let found = values_at(v, "swapStream");
    let lists = lists(alloc, found)?;
    let streams = each_stream(alloc, &lists, found)?;
    Ok(Swap { streams })
}
