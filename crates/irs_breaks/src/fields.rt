//! The fields of a pair of rows with the values of both sides, in the order in which they are compared.
ghost use Rattle.std.specs.Prelude.{◌≡◌, ◌≤◌, IfSome};
ghost use Rattle.irs_audit.specs.StatedFlows.{IsBoundedFraction};
ghost use Rattle.irs_audit.specs.Verdicts.{ExchangeDeparts, PaymentDeparts, PeriodDeparts, ResetDeparts};
ghost use Rattle.irs_base.specs.Lists.{Every};
ghost use Rattle.irs_breaks.specs.Findings.{IsComparable, TiesTo, exchange_fields, notional_of, payment_fields};
ghost use Rattle.irs_breaks.specs.Findings.{period_fields, rate_decimal, reset_fields, reset_or_nothing};

use crate::values::{FieldValues, Values};
use irs_audit::Field;
use irs_base::{Day, Dec};
use irs_flows::{FlowExchange, FlowPayment, FlowPeriod, FlowReset};
use irs_schedule::{CalculationPeriod, PaymentEntry};
use irs_terms::{Currency, Exchange, Reset};

// A field of dates.
fn dates(field: Field, day: Day, stated: Option<Day>) -> FieldValues
    ensures { result ≡ record { field = field; values = Values.Dates day stated } }
{
    let values = Values::Dates(day, stated);
    FieldValues { field, values }
}

// A field of numbers.
fn numbers(field: Field, number: Option<Dec>, stated: Option<i128>) -> FieldValues
    ensures { result ≡ record { field = field; values = Values.Numbers number stated } }
{
    let values = Values::Numbers(number, stated);
    FieldValues { field, values }
}

/// A notional, in units of 10^-4.
pub(crate) fn notional(units: i128) -> Dec
    ensures { result ≡ notional_of units }
{
    Dec { units, places: 4 }
}

// A rate in units of 10^-9, where it is known.
fn rate(units: Option<i64>) -> Option<Dec>
    ensures { result ≡ rate_decimal units }
{
    match units {
        Some(r) => Some(Dec {
            units: i128::from(r),
            places: 9,
        }),
        None => None,
    }
}

/// The fields of a principal exchange.
pub fn exchange_fields(x: &Exchange, y: &FlowExchange) -> [FieldValues; 3]
    ensures fields { result ≡ exchange_fields x.now y.now }
    ensures ties { Every (TiesTo (ExchangeDeparts x.now y.now)) (exchange_fields x.now y.now) }
    ensures comparable { x.now.amount.places ≤ 12 → Every IsComparable (exchange_fields x.now y.now) }
{
    [
        dates(
            Field::UnadjustedPrincipalExchangeDate,
            x.unadjusted,
            y.unadjusted,
        ),
        dates(Field::AdjustedPrincipalExchangeDate, x.adjusted, y.adjusted),
        numbers(Field::PrincipalExchangeAmount, Some(x.amount), y.amount),
    ]
}

/// The fields of a payment of a stream in this currency. How many calculation periods it has isn't one of them.
pub fn payment_fields(currency: Currency, x: &PaymentEntry, y: &FlowPayment) -> [FieldValues; 4]
    ensures fields { result ≡ payment_fields currency x.now y.now }
    ensures ties { Every (TiesTo (PaymentDeparts currency x.now y.now)) (payment_fields currency x.now y.now) }
    ensures comparable { IfSome x.now.amount (λ v. v.places ≤ 12)
        → Every IsComparable (payment_fields currency x.now y.now) }
{
    [
        dates(Field::UnadjustedPaymentDate, x.unadjusted, y.unadjusted),
        dates(Field::AdjustedPaymentDate, x.adjusted, y.adjusted),
        FieldValues {
            field: Field::Currency,
            values: Values::Currencies(currency, y.currency),
        },
        numbers(Field::Amount, x.amount, y.amount),
    ]
}

/// The fields of a calculation period.
pub fn period_fields(x: &CalculationPeriod, y: &FlowPeriod) -> [FieldValues; 8]
    ensures fields { result ≡ period_fields x.now y.now }
    ensures ties { Every (TiesTo (PeriodDeparts x.now y.now)) (period_fields x.now y.now) }
    ensures comparable { IsBoundedFraction x.now.frac → Every IsComparable (period_fields x.now y.now) }
{
    [
        dates(Field::UnadjustedStartDate, x.start, y.start),
        dates(Field::UnadjustedEndDate, x.end, y.end),
        dates(Field::AdjustedStartDate, x.adjusted_start, y.adjusted_start),
        dates(Field::AdjustedEndDate, x.adjusted_end, y.adjusted_end),
        FieldValues {
            field: Field::CalculationPeriodNumberOfDays,
            values: Values::Counts(x.days, y.days),
        },
        numbers(
            Field::NotionalAmount,
            Some(notional(x.notional)),
            y.notional,
        ),
        numbers(Field::Rate, rate(x.rate), y.rate),
        FieldValues {
            field: Field::DayCountYearFraction,
            values: Values::Fractions(x.frac, y.fraction),
        },
    ]
}

// What a calculation period states of its reset: nothing, where it states none.
fn reset_or_nothing(reset: Option<FlowReset>) -> FlowReset
    ensures { result ≡ reset_or_nothing reset }
{
    match reset {
        Some(y) => y,
        None => FlowReset {
            reset: None,
            fixing: None,
            observed: None,
        },
    }
}

/// The fields of the reset of a calculation period. A period of theirs that has none states none of them.
pub fn reset_fields(x: &Reset, stated: Option<FlowReset>) -> [FieldValues; 3]
    ensures fields { result ≡ reset_fields x.now (reset_or_nothing stated) }
    ensures ties { Every (TiesTo (ResetDeparts x.now (reset_or_nothing stated))) (reset_fields x.now (reset_or_nothing stated)) }
    ensures comparable { Every IsComparable (reset_fields x.now (reset_or_nothing stated)) }
{
    let y = reset_or_nothing(stated);
    [
        dates(Field::ResetDate, x.reset, y.reset),
        dates(Field::AdjustedFixingDate, x.fixing, y.fixing),
        numbers(Field::ObservedRate, rate(x.observed), y.observed),
    ]
}
