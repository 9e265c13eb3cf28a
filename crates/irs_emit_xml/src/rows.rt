//! The rows of cash flows as elements of FpML, fields in the order of its schema. A field that isn't known
//! isn't there.
ghost use Rattle.std.specs.Prelude.{◌≡◌, ◌++◌, ◌≤◌, ◌<ℤ◌, IfSome, OnOk, option_map, pos};
ghost use Rattle.irs_base.specs.Texts.{most_places};
ghost use Rattle.irs_emit_xml.specs.Flows.{definition_node, exchange_node, forecast_node, observation_node};
ghost use Rattle.irs_emit_xml.specs.Flows.{front_content, period_node, rate_content};
ghost use Rattle.irs_emit_xml.specs.Private.Flows.{lines};
ghost use Rattle.irs_emit_xml.specs.Trees.{node_text};
ghost use Rattle.irs_schedule.specs.RowsOf.{IsFew};

use crate::leaves::{amount, count, currency, day, fraction, known_amount, known_rate, notional};
use crate::writer::{close_tag, open_tag};
use irs_base::Memory;
use irs_schedule::{CalculationPeriod, PaymentEntry};
use irs_terms::{Currency, Exchange, Reset};

/// The level of a principal exchange.
const EXCHANGE: u8 = 3;

/// The level of a calculation period, and of the amount of a payment.
const PERIOD: u8 = 4;

/// The level of the definition of a floating rate.
const DEFINITION: u8 = 5;

/// The level of the observation of a rate.
const OBSERVATION: u8 = 6;

/// A principal exchange.
#[tactic(auto, unfolding(crate::specs::Flows::exchange_node))]
pub(crate) fn exchange(out: &mut Vec<u8>, x: &Exchange) -> Result<(), Memory>
    requires { x.now.amount.places ≤ most_places }
    ensures { OnOk result (out.new.items ≡ out.old.items ++ node_text 3 (exchange_node x.now)) }
{
    let fields = EXCHANGE + 1;
    open_tag(out, EXCHANGE, "principalExchange")?;
    day(out, fields, "unadjustedPrincipalExchangeDate", x.unadjusted)?;
    day(out, fields, "adjustedPrincipalExchangeDate", x.adjusted)?;
    amount(out, fields, "principalExchangeAmount", x.amount)?;
    close_tag(out, EXCHANGE, "principalExchange")?;
    Ok(())
}

/// The amount of a payment, in the currency of its stream.
#[tactic(auto, unfolding(crate::specs::Flows::forecast_node))]
pub(crate) fn forecast(out: &mut Vec<u8>, of: Currency, y: &PaymentEntry) -> Result<(), Memory>
    requires { IfSome y.now.amount IsFew }
    ensures { OnOk result (out.new.items ≡ out.old.items ++ node_text 4 (forecast_node of y.now)) }
{
    let fields = PERIOD + 1;
    open_tag(out, PERIOD, "forecastPaymentAmount")?;
    currency(out, fields, "currency", of)?;
    known_amount(out, fields, "amount", y.amount)?;
    close_tag(out, PERIOD, "forecastPaymentAmount")?;
    Ok(())
}

// A reset, with its rate where that is known.
#[tactic(auto, unfolding(crate::specs::Flows::observation_node))]
fn observation(out: &mut Vec<u8>, r: &Reset) -> Result<(), Memory>
    ensures { OnOk result (out.new.items ≡ out.old.items ++ node_text 6 (observation_node r.now)) }
{
    let fields = OBSERVATION + 1;
    open_tag(out, OBSERVATION, "rateObservation")?;
    day(out, fields, "resetDate", r.reset)?;
    day(out, fields, "adjustedFixingDate", r.fixing)?;
    known_rate(out, fields, "observedRate", r.observed)?;
    close_tag(out, OBSERVATION, "rateObservation")?;
    Ok(())
}

// The rate of a period and its reset.
#[tactic(auto, unfolding(crate::specs::Flows::definition_node))]
fn definition(out: &mut Vec<u8>, x: &CalculationPeriod, r: &Reset) -> Result<(), Memory>
    ensures { OnOk result (out.new.items ≡ out.old.items ++ node_text 5 (definition_node x.now r.now)) }
{
    open_tag(out, DEFINITION, "floatingRateDefinition")?;
    known_rate(out, DEFINITION + 1, "calculatedRate", x.rate)?;
    observation(out, r)?;
    close_tag(out, DEFINITION, "floatingRateDefinition")?;
    Ok(())
}

// The rate of a period, with its reset on a floating stream.
fn rate(out: &mut Vec<u8>, x: &CalculationPeriod, reset: Option<&Reset>) -> Result<(), Memory>
    ensures { OnOk result (out.new.items ≡ out.old.items
        ++ lines 5 (rate_content x.now (option_map (λ r. r.now) reset.entry))) }
{
    match reset {
        Some(r) => {
            definition(out, x, r)?;
            Ok(())
        },
        None => known_rate(out, DEFINITION, "fixedRate", x.rate),
    }
}

// What comes before the rate of a period: its dates, days and notional.
fn front(out: &mut Vec<u8>, x: &CalculationPeriod) -> Result<(), Memory>
    ensures { OnOk result (out.new.items ≡ out.old.items ++ lines 5 (front_content x.now)) }
{
    let fields = PERIOD + 1;
    day(out, fields, "unadjustedStartDate", x.start)?;
    day(out, fields, "unadjustedEndDate", x.end)?;
    day(out, fields, "adjustedStartDate", x.adjusted_start)?;
    day(out, fields, "adjustedEndDate", x.adjusted_end)?;
    count(out, fields, "calculationPeriodNumberOfDays", x.days)?;
    notional(out, fields, "notionalAmount", x.notional)?;
    Ok(())
}

/// A calculation period, with its reset on a floating stream.
#[tactic(auto, unfolding(crate::specs::Flows::period_node))]
pub(crate) fn period(
    out: &mut Vec<u8>,
    x: &CalculationPeriod,
    reset: Option<&Reset>,
) -> Result<(), Memory>
    requires { pos 0 <ℤ x.now.frac.den }
    ensures { OnOk result (out.new.items ≡ out.old.items
        ++ node_text 4 (period_node x.now (option_map (λ r. r.now) reset.entry))) }
{
    open_tag(out, PERIOD, "calculationPeriod")?;
    front(out, x)?;
    rate(out, x, reset)?;
    fraction(out, PERIOD + 1, "dayCountYearFraction", x.frac)?;
    close_tag(out, PERIOD, "calculationPeriod")?;
    Ok(())
}
