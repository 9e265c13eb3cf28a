//! The rows of cash flows: exchanges, payments with their calculation periods, and resets.
ghost use Rattle.irs_elements.specs.Elements.{once as once_of, seen};
ghost use Rattle.irs_flows.specs.{FlowFaults.flow_periods_of, FlowReading.reset_at};
ghost use Rattle.irs_flows.specs.FlowReading.{exchange_in, flow_part_in, flow_reset_in, payment_in, period_in};
ghost use Rattle.serde_json.specs.View.{view};
ghost use Rattle.std.specs.Prelude.{◌≡◌, IfOk, codes, map};

use crate::flow_faults::payments_of;
use crate::flow_leaves::{amount, currency, day, days, fraction};
use crate::{FlowExchange, FlowPayment, FlowPeriod, FlowReset, FlowStream};
use irs_base::Memory;
use irs_elements::{member, once, values, values_at};
use irs_json::Value;
use std::alloc::Global;

fn reset(v: &Value) -> FlowReset
    ensures { result ≡ flow_reset_in (view v.now) }
{
    FlowReset {
        reset: day(once(v, "resetDate")),
        fixing: day(once(v, "adjustedFixingDate")),
        observed: amount(once(v, "observedRate")),
    }
}

// The calculation period `v`, which has this floating rate and this reset.
fn period(v: &Value, float: Option<&Value>, reset: Option<FlowReset>) -> FlowPeriod
    requires float { seen float ≡ once_of (codes "floatingRateDefinition") (view v.now) }
    requires reset { reset ≡ reset_at (view v.now) }
    ensures { result ≡ period_in (view v.now) }
{
    let fixed = amount(once(v, "fixedRate"));
    FlowPeriod {
        start: day(once(v, "unadjustedStartDate")),
        end: day(once(v, "unadjustedEndDate")),
        adjusted_start: day(once(v, "adjustedStartDate")),
        adjusted_end: day(once(v, "adjustedEndDate")),
        days: days(once(v, "calculationPeriodNumberOfDays")),
        notional: amount(once(v, "notionalAmount")),
        rate: fixed.or(amount(member(float, "calculatedRate"))),
        fraction: fraction(once(v, "dayCountYearFraction")),
        reset,
    }
}

fn exchanges(alloc: Global, found: &[Value]) -> Result<Vec<FlowExchange>, Memory>
    ensures { IfOk result (λ list. list.items ≡ map exchange_in (map view found.now)) }
{
    let mut list = Vec::with_capacity(alloc, found.len())?;
    for v in found {
        list.push(FlowExchange {
            unadjusted: day(once(v, "unadjustedPrincipalExchangeDate")),
            adjusted: day(once(v, "adjustedPrincipalExchangeDate")),
            amount: amount(once(v, "principalExchangeAmount")),
        })?;
    }
    Ok(list)
}

// The payments, and the calculation periods of all of them.
fn payments(alloc: Global, found: &[Value]) -> Result<(Vec<FlowPayment>, Vec<FlowPeriod>), Memory>
    ensures payments { IfOk result (λ both. both.0.items ≡ map payment_in (map view found.now)) }
    ensures periods { IfOk result (λ both. both.1.items ≡ map period_in (flow_periods_of (map view found.now))) }
{
    let mut payments = Vec::with_capacity(alloc, found.len())?;
    let mut periods = Vec::new(alloc);
    for v in found {
        let inside = values_at(v, "calculationPeriod");
        let forecast = once(v, "forecastPaymentAmount");
        payments.push(FlowPayment {
            unadjusted: day(once(v, "unadjustedPaymentDate")),
            adjusted: day(once(v, "adjustedPaymentDate")),
            periods: inside.len(),
            currency: currency(member(forecast, "currency")),
            amount: amount(member(forecast, "amount")),
        })?;
        for one in inside {
            let float = once(one, "floatingRateDefinition");
            let reset = member(float, "rateObservation").map(reset);
            periods.push(period(one, float, reset))?;
        }
    }
    Ok((payments, periods))
}

/// The flows of a stream, of which those count that have no fault.
pub fn stream_flows(alloc: Global, v: &Value) -> Result<FlowStream, Memory>
    ensures { IfOk result (λ flows. flows ≡ flow_part_in (view v.now)) }
{
    let v = once(v, "cashflows");
    let exchanges = exchanges(alloc, values(v, "principalExchange"))?;
    let (payments, periods) = payments(alloc, payments_of(v))?;
    Ok(FlowStream::new(exchanges, payments, periods))
}
