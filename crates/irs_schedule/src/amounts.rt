//! The amounts of a stream's payments: what their calculation periods pay by the stream's compounding.
//! They are rounded to the decimals of its currency (2006 ISDA Definitions, articles 5, 6 and 8).
ghost use Rattle.std.specs.Prelude.{◌≡◌, ◌↔◌, ◌-◌, ◌<◌, ◌≤◌, ℕ, length, IfNone, IfOk, IfSome, IsTrue, option_map};
ghost use Rattle.irs_base.specs.Lists.{Every};
ghost use Rattle.irs_base.specs.Outcomes.{Meets, MeetsExactly};
ghost use Rattle.irs_terms.specs.Lawful.{IsLawfulStream};
ghost use Rattle.irs_terms.specs.Private.TermDates.{AllStepsRise};
ghost use Rattle.irs_observed.specs.declared.overnight_rate.OvernightRate.TheVariants.{OutOfRange as PassesLimit};
ghost use Rattle.irs_payments.specs.Payments.{Covers};
ghost use Rattle.irs_schedule.specs.Schedules.{entries_of, entry_of, passed_at, paying, AreTerms, IsPeriodTerm, dec_of};
ghost use Rattle.irs_schedule.specs.Parts.{HasAmount, FactorPassesAt, with_factors};
ghost use Rattle.irs_schedule.specs.Private.Layouts.{HasPeriods, IsTable, table_dates, IsFirstPassing, first_refusal};

use crate::PaymentEntry;
use crate::entries::PaymentEntries;
use crate::periods::{day_at, observed_at, overnight_at};
use irs_base::{Day, Dec, Memory, Stopped};
use irs_compound::{PeriodTerm, in_force_of_rising, payment_amount, rates_of_period};
use irs_daycount::fraction_by;
use irs_observed::{OvernightRate, earlier_fault};
use irs_terms::{Elem, Fault, Payment, Reset, Rule, Stream};
use std::alloc::Global;
use std::slice;

/// What the periods of a stream are worked out of: its unadjusted and adjusted boundaries, its resets,
/// and with calculation parameters its observed rates.
#[derive(Clone, Copy)]
pub(crate) struct PeriodTable<'a> {
    /// The boundaries before adjustment, one more than there are periods.
    pub(crate) unadjusted: &'a [Day],
    /// The same boundaries, adjusted.
    pub(crate) adjusted: &'a [Day],
    /// The reset of each period; none where the rate is fixed.
    pub(crate) resets: &'a [Reset],
    /// The observed rate of each period, not rounded; none without calculation parameters.
    pub(crate) rates: &'a [OvernightRate],
}

/// The payments with their amounts. An amount is absent where the observed rate of a period is.
///
/// `Broken` is K39 at the first period at which a compounded factor passes its limit. It is also K39
/// at the first period at which a rate or an amount leaves its range. That counts only in a payment
/// whose rates are all there. The earlier of the two is reported. The index is the period's number.
/// `Memory` comes where memory ran out.
pub(crate) fn paid_within(
    alloc: Global,
    s: &Stream,
    table: &PeriodTable<'_>,
    payments: &[Payment],
) -> Result<PaymentEntries, Stopped<Fault>>
    requires lawful { IsLawfulStream s.now }
    requires rises { AllStepsRise s.now }
    requires table { IsTable (table_dates s.now table.now) }
    requires covers { Covers 1 payments.now (length table.now.unadjusted.now - 1) }
    ensures meets { let amounts = entries_of (table_dates s.now table.now) payments.now in
        Meets (with_factors passed_at table.now.rates.now amounts) result }
    ensures bounds { IfOk result (Every (HasAmount s.now.currency)) }
{
    match first_passing(table.rates) {
        None => paid(alloc, s, table, payments),
        Some(place) => {
            let entries = paid(alloc, s, table, payments);
            Err(first_refusal(&entries, passed_at(place as u32 + 1)))
        }
    }
}

// The place, from 0, of the first period in which a compounded factor passes its limit.
fn first_passing(rates: &[OvernightRate]) -> Option<usize>
    ensures some { IfSome result (IsFirstPassing rates.now) }
    ensures none { IfNone result ((k : ℕ) → FactorPassesAt rates.now k → ⊥) }
{
    rates.iter().position(is_out_of_range)
}

// Whether each daily rate is there, and a compounded factor passes its limit.
fn is_out_of_range(rate: &OvernightRate) -> bool
    ensures { IsTrue result ↔ rate.now ≡ PassesLimit }
{
    match rate {
        OvernightRate::OutOfRange => true,
        OvernightRate::Stated(_) | OvernightRate::Known(_) | OvernightRate::Absent => false,
    }
}

// K39 of a factor, or that of the amounts where it is reported before.
fn first_refusal(entries: &Result<PaymentEntries, Stopped<Fault>>, factor: Fault) -> Stopped<Fault>
    ensures { result ≡ first_refusal entries.now factor }
{
    match entries {
        Ok(_) => Stopped::Broken(factor),
        Err(Stopped::Broken(other)) => Stopped::Broken(earlier_fault(*other, factor)),
        Err(Stopped::Memory) => Stopped::Memory,
    }
}

// The payments with their amounts, whether or not a compounded factor passes its limit.
fn paid(
    alloc: Global,
    s: &Stream,
    table: &PeriodTable<'_>,
    payments: &[Payment],
) -> Result<PaymentEntries, Stopped<Fault>>
    requires lawful { IsLawfulStream s.now }
    requires rises { AllStepsRise s.now }
    requires table { IsTable (table_dates s.now table.now) }
    requires covers { Covers 1 payments.now (length table.now.unadjusted.now - 1) }
    ensures meets { Meets (entries_of (table_dates s.now table.now) payments.now) result }
    ensures bounds { IfOk result (Every (HasAmount s.now.currency)) }
{
    let mut entries = PaymentEntries::with_room(alloc, payments.len())?;
    for payment in payments {
        let entry = paid_by(alloc, s, table, payment)?;
        entries.push(entry)?;
    }
    Ok(entries)
}

// A payment with its amount, or K39 at the first of its periods that breaks it. One period takes no memory.
fn paid_by(
    alloc: Global,
    s: &Stream,
    table: &PeriodTable<'_>,
    payment: &Payment,
) -> Result<PaymentEntry, Stopped<Fault>>
    requires lawful { IsLawfulStream s.now }
    requires rises { AllStepsRise s.now }
    requires table { IsTable (table_dates s.now table.now) }
    requires periods { HasPeriods table.now payment.now }
    ensures meets { Meets (entry_of (table_dates s.now table.now) payment.now) result }
    ensures bound { IfOk result (HasAmount s.now.currency) }
{
    if payment.first_period == payment.last_period {
        let term = period_term(s, table, payment.first_period as usize);
        Ok(paid_over(s, table, payment, slice::from_ref(&term))?)
    } else {
        let terms = terms_of(alloc, s, table, payment)?;
        Ok(paid_over(s, table, payment, &terms)?)
    }
}

// The same by the terms of its periods.
#[inline(always)]
fn paid_over(
    s: &Stream,
    table: &PeriodTable<'_>,
    payment: &Payment,
    terms: &[PeriodTerm],
) -> Result<PaymentEntry, Fault>
    requires lawful { IsLawfulStream s.now }
    requires table { IsTable (table_dates s.now table.now) }
    requires periods { HasPeriods table.now payment.now }
    requires terms { AreTerms (table_dates s.now table.now) payment.now terms.now }
    ensures meets { MeetsExactly (entry_of (table_dates s.now table.now) payment.now) result }
    ensures bound { IfOk result (HasAmount s.now.currency) }
{
    let places = s.currency.places();
    match payment_amount(s.compounding, terms, places) {
        Ok(units) => Ok(paying(*payment, decimal(units, places))),
        Err(out) => Err(passed_at(payment.first_period + out.period - 1)),
    }
}

// The payment with this amount.
fn paying(payment: Payment, amount: Option<Dec>) -> PaymentEntry
    ensures { result ≡ paying payment amount }
{
    PaymentEntry {
        unadjusted: payment.unadjusted,
        adjusted: payment.adjusted,
        first_period: payment.first_period,
        last_period: payment.last_period,
        amount,
    }
}

// These units with this number of decimals, where they are known.
fn decimal(units: Option<i128>, places: u8) -> Option<Dec>
    ensures { result ≡ option_map (dec_of places) units }
{
    units.map(|units| Dec { units, places })
}

// K39 at a period.
fn passed_at(period: u32) -> Fault
    ensures { result ≡ passed_at period }
{
    Fault {
        rule: Rule::K39,
        elem: Elem::CALCULATION_PERIOD_AMOUNT,
        index: period,
    }
}

// The terms of a payment's periods.
fn terms_of(
    alloc: Global,
    s: &Stream,
    table: &PeriodTable<'_>,
    payment: &Payment,
) -> Result<Vec<PeriodTerm>, Memory>
    requires lawful { IsLawfulStream s.now }
    requires rises { AllStepsRise s.now }
    requires table { IsTable (table_dates s.now table.now) }
    requires periods { HasPeriods table.now payment.now }
    ensures { IfOk result (λ ts. AreTerms (table_dates s.now table.now) payment.now ts.items) }
{
    let mut terms = Vec::new(alloc);
    for number in payment.first_period..payment.last_period + 1 {
        terms.push(period_term(s, table, number as usize))?;
    }
    Ok(terms)
}

// Notional, rates and fraction of a period, counted from 1.
#[inline(always)]
fn period_term(s: &Stream, table: &PeriodTable<'_>, number: usize) -> PeriodTerm
    requires lawful { IsLawfulStream s.now }
    requires rises { AllStepsRise s.now }
    requires table { IsTable (table_dates s.now table.now) }
    requires low { 1 ≤ number }
    requires high { number < length table.now.unadjusted.now }
    ensures { IsPeriodTerm (table_dates s.now table.now) number result }
{
    let start = day_at(table.unadjusted, number - 1);
    PeriodTerm {
        notional: in_force_of_rising(&s.notional, start),
        rates: rates_of_period(
            &s.leg,
            start,
            observed_at(table.resets, number - 1),
            &overnight_at(table.rates, number - 1),
        ),
        frac: fraction_by(
            s.day_count,
            day_at(table.adjusted, number - 1),
            day_at(table.adjusted, number),
            number == table.adjusted.len() - 1,
        ),
    }
}
