//! The first field of a row that departs: each kind of rows is a table of its fields in order, with
//! whether each departs.
ghost use Rattle.std.specs.Prelude.{◌≡◌, ◌+◌, ◌-◌, ◌≤◌, IfSome, IsTrue, ◌↔◌};
ghost use Rattle.irs_audit.specs.StatedFlows.{IsBoundedFraction};
ghost use Rattle.irs_audit.specs.Private.Comparisons.{IsComparedPayment, first_true};
ghost use Rattle.irs_audit.specs.Verdicts.{field_before, ExchangeDeparts, PaymentDeparts, PeriodDeparts, ResetDeparts};
ghost use Rattle.irs_audit.specs.Verdicts.{StatesNumber, StatesAmount, StatedWrongly, NotStatedRightly, WhereKnown};
ghost use Rattle.irs_base.specs.Outcomes.{IsFirst};

use crate::Field;
use crate::comparisons::{
    amount_is_not_right, count_is_wrong, currency_is_wrong, day_is_not_right, day_is_wrong,
    fraction_is_wrong, number_is_wrong,
};
use irs_base::Dec;
use irs_flows::{FlowExchange, FlowPayment, FlowPeriod, FlowReset};
use irs_schedule::{CalculationPeriod, PaymentEntry};
use irs_terms::{Currency, Exchange, Reset};

// The first field of a table that departs.
fn first_of(tests: &[(Field, bool)]) -> Option<Field>
    ensures { result ≡ first_true tests.now }
{
    for (field, departs) in tests {
        if *departs {
            return Some(*field);
        }
    }
    None
}

// An amount that the schedule knows is left out, or stated as another one.
fn known_amount_departs(amount: Option<Dec>, stated: Option<i128>) -> bool
    requires { IfSome amount (λ v. v.places ≤ 12) }
    ensures { IsTrue result ↔ WhereKnown (λ v. NotStatedRightly (StatesAmount v) stated) amount }
{
    match amount {
        Some(v) => amount_is_not_right(v, stated),
        None => false,
    }
}

// A rate that the schedule knows is stated otherwise.
fn known_rate_departs(rate: Option<i64>, stated: Option<i128>) -> bool
    ensures { IsTrue result ↔ WhereKnown (λ r. StatedWrongly (StatesNumber r 9) stated) rate }
{
    match rate {
        Some(r) => number_is_wrong(i128::from(r), 9, stated),
        None => false,
    }
}

/// The first field of an exchange that departs.
pub(crate) fn exchange_field(x: &Exchange, y: &FlowExchange) -> Option<Field>
    requires { x.now.amount.places ≤ 12 }
    ensures { IsFirst field_before (ExchangeDeparts x.now y.now) result }
{
    first_of(&[
        (
            Field::UnadjustedPrincipalExchangeDate,
            day_is_wrong(x.unadjusted, y.unadjusted),
        ),
        (
            Field::AdjustedPrincipalExchangeDate,
            day_is_not_right(x.adjusted, y.adjusted),
        ),
        (
            Field::PrincipalExchangeAmount,
            amount_is_not_right(x.amount, y.amount),
        ),
    ])
}

// The stated number of calculation periods is not that of the payment.
fn has_other_count(x: &PaymentEntry, stated: usize) -> bool
    requires { IsComparedPayment x.now }
    ensures { IsTrue result ↔ ¬ (stated ≡ x.now.last_period + 1 - x.now.first_period) }
{
    stated != (x.last_period + 1 - x.first_period) as usize
}

/// The first field of a payment that departs.
pub(crate) fn payment_field(currency: Currency, x: &PaymentEntry, y: &FlowPayment) -> Option<Field>
    requires { IsComparedPayment x.now }
    ensures { IsFirst field_before (PaymentDeparts currency x.now y.now) result }
{
    first_of(&[
        (
            Field::UnadjustedPaymentDate,
            day_is_wrong(x.unadjusted, y.unadjusted),
        ),
        (
            Field::AdjustedPaymentDate,
            day_is_not_right(x.adjusted, y.adjusted),
        ),
        (Field::CalculationPeriod, has_other_count(x, y.periods)),
        (Field::Currency, currency_is_wrong(currency, y.currency)),
        (Field::Amount, known_amount_departs(x.amount, y.amount)),
    ])
}

/// The first field of a calculation period that departs.
pub(crate) fn period_field(x: &CalculationPeriod, y: &FlowPeriod) -> Option<Field>
    requires { IsBoundedFraction x.now.frac }
    ensures { IsFirst field_before (PeriodDeparts x.now y.now) result }
{
    first_of(&[
        (Field::UnadjustedStartDate, day_is_wrong(x.start, y.start)),
        (Field::UnadjustedEndDate, day_is_wrong(x.end, y.end)),
        (
            Field::AdjustedStartDate,
            day_is_not_right(x.adjusted_start, y.adjusted_start),
        ),
        (
            Field::AdjustedEndDate,
            day_is_not_right(x.adjusted_end, y.adjusted_end),
        ),
        (
            Field::CalculationPeriodNumberOfDays,
            count_is_wrong(x.days, y.days),
        ),
        (
            Field::NotionalAmount,
            number_is_wrong(x.notional, 4, y.notional),
        ),
        (Field::Rate, known_rate_departs(x.rate, y.rate)),
        (
            Field::DayCountYearFraction,
            fraction_is_wrong(x.frac, y.fraction),
        ),
    ])
}

/// The first field of a reset that departs.
pub(crate) fn reset_field(x: &Reset, y: &FlowReset) -> Option<Field>
    ensures { IsFirst field_before (ResetDeparts x.now y.now) result }
{
    first_of(&[
        (Field::ResetDate, day_is_wrong(x.reset, y.reset)),
        (
            Field::AdjustedFixingDate,
            day_is_not_right(x.fixing, y.fixing),
        ),
        (
            Field::ObservedRate,
            known_rate_departs(x.observed, y.observed),
        ),
    ])
}
