//! The rows of emitted cash flows: the text of an object for each exchange, payment and calculation
//! period. Members are in the byte order of their names. A value that the schedule doesn't know isn't
//! stated.
ghost use Rattle.std.specs.Prelude.{◌≡◌, ◌++◌, ◌≤◌, IfSome, OnOk, pos, ◌<ℤ◌, option_map};
ghost use Rattle.serde_json.specs.Written.{compact_text};
ghost use Rattle.irs_schedule.specs.Parts.{IsCode};
ghost use Rattle.irs_schedule.specs.RowsOf.{IsFew};
ghost use Rattle.irs_emit.specs.Emitted.{definition_value, exchange_value, forecast_value, observation_value};
ghost use Rattle.irs_emit.specs.Emitted.{period_value};
ghost use Rattle.irs_emit.specs.Private.Texts.{period_back, period_front, rate_text};

use crate::leaves::{amount, count, currency, day, fraction, known_amount, known_rate, notional};
use irs_base::Memory;
use irs_schedule::{CalculationPeriod, PaymentEntry};
use irs_terms::{Currency, Exchange, Reset};

/// A principal exchange.
pub(crate) fn exchange(out: &mut Vec<u8>, x: &Exchange) -> Result<(), Memory>
    requires { x.now.amount.places ≤ 12 }
    ensures { OnOk result (out.new.items ≡ out.old.items ++ compact_text (exchange_value x.now)) }
{
    out.extend_from_slice(b"{\"adjustedPrincipalExchangeDate\":")?;
    day(out, x.adjusted)?;
    out.extend_from_slice(b",\"principalExchangeAmount\":")?;
    amount(out, x.amount)?;
    out.extend_from_slice(b",\"unadjustedPrincipalExchangeDate\":")?;
    day(out, x.unadjusted)?;
    out.extend_from_slice(b"}")?;
    Ok(())
}

/// The amount of a payment, in the currency of its stream.
pub(crate) fn forecast(out: &mut Vec<u8>, of: Currency, y: &PaymentEntry) -> Result<(), Memory>
    requires currency { IsCode of }
    requires amount { IfSome y.now.amount IsFew }
    ensures { OnOk result (out.new.items ≡ out.old.items ++ compact_text (forecast_value of y.now)) }
{
    out.extend_from_slice(b"{")?;
    known_amount(out, b"\"amount\":", y.amount)?;
    out.extend_from_slice(b"\"currency\":")?;
    currency(out, of)?;
    out.extend_from_slice(b"}")?;
    Ok(())
}

// A reset, with its rate where that is known.
fn observation(out: &mut Vec<u8>, r: &Reset) -> Result<(), Memory>
    ensures { OnOk result (out.new.items ≡ out.old.items ++ compact_text (observation_value r.now)) }
{
    out.extend_from_slice(b"{\"adjustedFixingDate\":")?;
    day(out, r.fixing)?;
    out.extend_from_slice(b",")?;
    known_rate(out, b"\"observedRate\":", r.observed)?;
    out.extend_from_slice(b"\"resetDate\":")?;
    day(out, r.reset)?;
    out.extend_from_slice(b"}")?;
    Ok(())
}

// The rate of a period and its reset.
fn definition(out: &mut Vec<u8>, x: &CalculationPeriod, r: &Reset) -> Result<(), Memory>
    ensures { OnOk result (out.new.items ≡ out.old.items ++ compact_text (definition_value x.now r.now)) }
{
    out.extend_from_slice(b"{")?;
    known_rate(out, b"\"calculatedRate\":", x.rate)?;
    out.extend_from_slice(b"\"rateObservation\":")?;
    observation(out, r)?;
    out.extend_from_slice(b"}")?;
    Ok(())
}

// What comes before the rate of a period: its adjusted days, its number of days and its fraction.
fn front(out: &mut Vec<u8>, x: &CalculationPeriod) -> Result<(), Memory>
    requires { pos 0 <ℤ x.now.frac.den }
    ensures { OnOk result (out.new.items ≡ out.old.items ++ period_front x.now) }
{
    out.extend_from_slice(b"{\"adjustedEndDate\":")?;
    day(out, x.adjusted_end)?;
    out.extend_from_slice(b",\"adjustedStartDate\":")?;
    day(out, x.adjusted_start)?;
    out.extend_from_slice(b",\"calculationPeriodNumberOfDays\":")?;
    count(out, x.days)?;
    out.extend_from_slice(b",\"dayCountYearFraction\":")?;
    fraction(out, x.frac)?;
    out.extend_from_slice(b",")?;
    Ok(())
}

// The rate of a period, with its reset on a floating stream.
fn rate(out: &mut Vec<u8>, x: &CalculationPeriod, reset: Option<&Reset>) -> Result<(), Memory>
    ensures { OnOk result (out.new.items ≡ out.old.items
        ++ rate_text x.now (option_map (λ r. r.now) reset.entry)) }
{
    match reset {
        Some(r) => {
            out.extend_from_slice(b"\"floatingRateDefinition\":")?;
            definition(out, x, r)?;
            out.extend_from_slice(b",")?;
            Ok(())
        },
        None => known_rate(out, b"\"fixedRate\":", x.rate),
    }
}

// What comes after the rate of a period: its notional and its unadjusted days.
fn back(out: &mut Vec<u8>, x: &CalculationPeriod) -> Result<(), Memory>
    ensures { OnOk result (out.new.items ≡ out.old.items ++ period_back x.now) }
{
    out.extend_from_slice(b"\"notionalAmount\":")?;
    notional(out, x.notional)?;
    out.extend_from_slice(b",\"unadjustedEndDate\":")?;
    day(out, x.end)?;
    out.extend_from_slice(b",\"unadjustedStartDate\":")?;
    day(out, x.start)?;
    out.extend_from_slice(b"}")?;
    Ok(())
}

/// A calculation period, with its reset on a floating stream.
pub(crate) fn period(
    out: &mut Vec<u8>,
    x: &CalculationPeriod,
    reset: Option<&Reset>,
) -> Result<(), Memory>
    requires { pos 0 <ℤ x.now.frac.den }
    ensures { OnOk result (out.new.items ≡ out.old.items
        ++ compact_text (period_value x.now (option_map (λ r. r.now) reset.entry))) }
{
    front(out, x)?;
    rate(out, x, reset)?;
    back(out, x)?;
    Ok(())
}
