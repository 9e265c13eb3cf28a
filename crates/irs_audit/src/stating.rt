//! The cash flows that state a schedule: a row for each of its rows, with each field that it knows.
//! It is our rule that they state every field, and fractions with ten decimals.
ghost use Rattle.std.specs.Prelude.{◌≡◌, ◌+◌, ◌-◌, ◌<◌, ◌*◌, ◌^◌, ◌*ℤ◌, unsigned_abs, map};
ghost use Rattle.std.specs.Prelude.{option_map, slice_get, IfOk, IfSome};
ghost use Rattle.irs_audit.specs.Verdicts.{Agrees};
ghost use Rattle.irs_audit.specs.StatedFlows.{IsBoundedFraction, IsStatable, IsStatableDec, period_with, stated_amount};
ghost use Rattle.irs_audit.specs.StatedFlows.{stated_exchange, stated_flows, stated_fraction, stated_number, stated_part};
ghost use Rattle.irs_audit.specs.StatedFlows.{stated_payment, stated_periods_from, stated_reset};
ghost use Rattle.irs_audit.specs.Private.Comparisons.{IsComparedPayment, IsStatablePeriod, IsStatableRate};

use crate::comparisons::{power_of_ten, scaled};
use crate::rows::item;
use irs_base::{Day, Dec, Direction, Memory, round};
use irs_flows::{
    FlowExchange, FlowPayment, FlowPeriod, FlowReset, FlowStream, Flows, StatedFraction,
};
use irs_schedule::{CalculationPeriod, PaymentEntry, Schedule, StreamPart};
use irs_terms::{Currency, Exchange, Frac, Reset};
use std::alloc::Global;

// The decimals with which a fraction is stated.
const STATED_PLACES: u8 = 10;

fn product(a: i128, b: i128) -> i128
    requires { unsigned_abs a * unsigned_abs b < 2 ^ 127 }
    ensures { result ≡ a *ℤ b }
{
    a * b
}

// Units of 10^-places in units of 10^-12.
fn number(units: i128, places: u8) -> i128
    requires { IsStatable units places }
    ensures { result ≡ stated_number units places }
{
    product(units, power_of_ten(12 - places))
}

/// An amount as flows state it, in units of 10^-12; that is our rule.
pub fn stated_amount(v: Dec) -> i128
    requires { IsStatableDec v }
    ensures { result ≡ stated_amount v }
{
    number(v.units, v.places)
}

fn known_amount(amount_of: Option<Dec>) -> Option<i128>
    requires { IfSome amount_of IsStatableDec }
    ensures { result ≡ option_map stated_amount amount_of }
{
    match amount_of {
        Some(v) => Some(stated_amount(v)),
        None => None,
    }
}

fn known_rate(rate: Option<i64>) -> Option<i128>
    requires { IfSome rate IsStatableRate }
    ensures { result ≡ option_map (λ r. stated_number r 9) rate }
{
    match rate {
        Some(r) => Some(number(i128::from(r), 9)),
        None => None,
    }
}

fn fraction(frac: Frac) -> StatedFraction
    requires { IsBoundedFraction frac }
    ensures { result ≡ stated_fraction frac }
{
    let num = scaled(frac.num, STATED_PLACES);
    StatedFraction {
        units: round(Direction::Nearest, num, i128::from(frac.den)),
        places: STATED_PLACES,
    }
}

// How many calculation periods a payment has.
fn period_count(y: &PaymentEntry) -> usize
    requires { IsComparedPayment y.now }
    ensures { result ≡ y.now.last_period + 1 - y.now.first_period }
{
    (y.last_period + 1 - y.first_period) as usize
}

fn reset(r: &Reset) -> FlowReset
    requires { IfSome r.now.observed IsStatableRate }
    ensures { result ≡ stated_reset r.now }
{
    FlowReset {
        reset: Some(r.reset),
        fixing: Some(r.fixing),
        observed: known_rate(r.observed),
    }
}

/// What states the reset of the period at a place, from 0.
pub(crate) fn reset_at(part: &StreamPart, place: usize) -> Option<FlowReset>
    ensures { result ≡ option_map stated_reset (slice_get part.now.resets place) }
{
    match item(part.resets(), place) {
        Some(r) => Some(reset(r)),
        None => None,
    }
}

// The period that starts on a day, with its reset, where it has one.
fn period(start: Day, x: &CalculationPeriod, reset: Option<FlowReset>) -> FlowPeriod
    requires start { start ≡ x.now.start }
    requires fraction { IsBoundedFraction x.now.frac }
    requires statable { IsStatablePeriod x.now }
    ensures { result ≡ period_with x.now reset }
{
    FlowPeriod {
        start: Some(start),
        end: Some(x.end),
        adjusted_start: Some(x.adjusted_start),
        adjusted_end: Some(x.adjusted_end),
        days: Some(x.days),
        notional: Some(number(x.notional, 4)),
        rate: known_rate(x.rate),
        fraction: Some(fraction(x.frac)),
        reset,
    }
}

fn exchange(x: &Exchange) -> FlowExchange
    requires { IsStatableDec x.now.amount }
    ensures { result ≡ stated_exchange x.now }
{
    FlowExchange {
        unadjusted: Some(x.unadjusted),
        adjusted: Some(x.adjusted),
        amount: Some(stated_amount(x.amount)),
    }
}

fn payment(currency: Currency, y: &PaymentEntry) -> FlowPayment
    requires payment { IsComparedPayment y.now }
    requires statable { IfSome y.now.amount IsStatableDec }
    ensures { result ≡ stated_payment currency y.now }
{
    FlowPayment {
        unadjusted: Some(y.unadjusted),
        adjusted: Some(y.adjusted),
        periods: period_count(y),
        currency: Some(currency),
        amount: known_amount(y.amount),
    }
}

/// What states the principal exchange at a place, from 0.
pub(crate) fn exchange_at(part: &StreamPart, place: usize) -> Option<FlowExchange>
    ensures { result ≡ option_map stated_exchange (slice_get part.now.exchanges place) }
{
    match item(part.exchanges(), place) {
        Some(x) => Some(exchange(x)),
        None => None,
    }
}

/// What states the payment at a place, from 0.
pub(crate) fn payment_at(part: &StreamPart, place: usize) -> Option<FlowPayment>
    ensures { result ≡ option_map (stated_payment part.now.currency) (slice_get part.now.payments place) }
{
    match item(part.payments(), place) {
        Some(y) => Some(payment(part.currency(), y)),
        None => None,
    }
}

/// What states the calculation period at a place, from 0.
pub(crate) fn period_at(part: &StreamPart, place: usize) -> Option<FlowPeriod>
    ensures { result ≡ slice_get (stated_part part.now).periods place }
{
    match part.period(place) {
        Some(x) => Some(period(x.start, &x, reset_at(part, place))),
        None => None,
    }
}

fn exchanges(alloc: Global, part: &StreamPart) -> Result<Vec<FlowExchange>, Memory>
    ensures { IfOk result (λ list. list.items ≡ map stated_exchange part.now.exchanges) }
{
    let mut list = Vec::new(alloc);
    for x in part.exchanges() {
        let unadjusted = Some(x.unadjusted);
        let adjusted = Some(x.adjusted);
        let amount = Some(stated_amount(x.amount));
        list.push(FlowExchange {
            unadjusted,
            adjusted,
            amount,
        })?;
    }
    Ok(list)
}

fn payments(alloc: Global, part: &StreamPart) -> Result<Vec<FlowPayment>, Memory>
    ensures { IfOk result (λ list. list.items ≡ map (stated_payment part.now.currency) part.now.payments) }
{
    let currency = part.currency();
    let mut list = Vec::new(alloc);
    for y in part.payments() {
        list.push(payment(currency, y))?;
    }
    Ok(list)
}

fn periods(alloc: Global, part: &StreamPart) -> Result<Vec<FlowPeriod>, Memory>
    ensures { IfOk result (λ list. list.items ≡ stated_periods_from part.now 0 part.now.periods) }
{
    let mut list = Vec::new(alloc);
    for place in 0..part.periods() {
        if let Some(x) = part.period(place) {
            let start = x.start;
            list.push(period(start, &x, reset_at(part, place)))?;
        }
    }
    Ok(list)
}

fn stream(alloc: Global, part: &StreamPart) -> Result<FlowStream, Memory>
    ensures { IfOk result (λ flows. flows ≡ stated_part part.now) }
{
    let exchanges = exchanges(alloc, part)?;
    let payments = payments(alloc, part)?;
    let periods = periods(alloc, part)?;
    Ok(FlowStream::new(exchanges, payments, periods))
}

fn flows(alloc: Global, s: &Schedule) -> Result<Flows, Memory>
    ensures { IfOk result (λ f. f ≡ stated_flows s.now) }
{
    let mut streams = Vec::new(alloc);
    for part in s.streams() {
        streams.push(stream(alloc, part)?)?;
    }
    Ok(Flows::new(streams))
}

/// The cash flows that state a schedule (FpML 5, `cashflows` of an InterestRateStream). There is a
/// row for each of its rows, with every field that is compared; which fields are stated is our
/// rule. Amounts, notionals and rates are stated as they are, in units of 10^-12. A fraction has
/// ten decimals, rounded to the nearest. What the schedule doesn't know isn't stated. These flows
/// agree with the schedule, so `audit` says yes to them. `Memory` comes only where memory ran out.
pub fn flows_of(alloc: Global, s: &Schedule) -> Result<Flows, Memory>
    ensures value { IfOk result (λ f. f ≡ stated_flows s.now) }
    ensures agrees { Agrees (stated_flows s.now) s.now }
{
    s.bounds();
    flows(alloc, s)
}
