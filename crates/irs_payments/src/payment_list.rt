//! The payments of a stream in order. A rule that is broken by any of them is K33 before K38, and
//! under each the first payment.
ghost use Rattle.std.specs.Prelude.{◌≡◌, ◌+◌, ◌-◌, ◌^◌, ◌<◌, ◌<ℤ◌, List, length, IfOk, Err};
ghost use Rattle.irs_terms.specs.Elements.{payment_dates};
ghost use Rattle.irs_terms.specs.declared.places.Rule.TheVariants.{K33};
ghost use Rattle.irs_terms.specs.declared.places.Fault.{Fault};
ghost use Rattle.irs_base.specs.Outcomes.{IfBroken, Determined, IfMemory, Meets};
ghost use Rattle.irs_terms.specs.Faults.{fault_at};
ghost use Rattle.irs_terms.specs.TermDates.{first_day_of};
ghost use Rattle.irs_terms.specs.Lawful.{IsLawfulStream};
ghost use Rattle.irs_payments.specs.Payments.{BreaksGrouping, payments_of, ArePayments, Covers};
ghost use Rattle.irs_payments.specs.Private.Dating.{IsOutcome, Settles, earliest, paid_at, ArePlaces};
ghost use Rattle.irs_terms.specs.declared.results.Payment.{Payment};
ghost use Rattle.irs_terms.specs.Centers.{IsSaid};
ghost use Rattle.irs_base.specs.Lists.{RunsFromTo};

use crate::PayErr;
use crate::cuts::payment_places;
use crate::dating::pay_place;
use crate::faults::fault;
use crate::grouping::check_grouping;
use irs_adjust::{NoDate, move_and_adjust};
use irs_base::{Day, DayList};
use irs_calendar::GoodDays;
use irs_terms::{Elem, Payment, Payments, Rule, Span, Stream};
use std::alloc::Global;

// Payment j, from the places at which payment periods end.
fn payment<G: GoodDays>(
    s: &Stream,
    unadjusted: &[Day],
    adjusted: &[Day],
    places: &[usize],
    j: usize,
    days: &G,
) -> Result<Payment, NoDate>
    requires said { IsSaid s.now.pay.offset }
    requires places { ArePlaces unadjusted.now places.now }
    requires adjusted { length adjusted.now ≡ length unadjusted.now }
    requires few { length unadjusted.now < 2 ^ 32 }
    requires from_one { 0 < j }
    requires within { j < length places.now }
    ensures { IsOutcome s.now (G.days days.now) unadjusted.now adjusted.now places.now j result }
{
    let place = places[pay_place(s.pay.relative, j)];
    match move_and_adjust(s.pay.offset, s.pay.adj.code, days, adjusted[place]) {
        Ok(date) => Ok(Payment {
            unadjusted: unadjusted[place],
            adjusted: date,
            first_period: places[j - 1] as u32 + 1,
            last_period: places[j] as u32,
        }),
        Err(reason) => Err(reason),
    }
}

// The earlier payment that leaves the range, where there is one, else this one.
fn earliest(beyond: Option<usize>, number: usize) -> Option<usize>
    ensures { result ≡ earliest beyond number }
{
    match beyond {
        Some(earlier) => Some(earlier),
        None => Some(number),
    }
}

// Adds the payment with that number to the others. An out-of-range date (K38) is remembered, since a
// later K33 takes precedence.
fn settle(
    list: &mut Payments,
    beyond: Option<usize>,
    number: usize,
    payment: Result<Payment, NoDate>,
) -> Result<Option<usize>, PayErr>
    requires { number < 2 ^ 32 }
    ensures settles { IfOk result (Settles payment beyond number list.old list.new) }
    ensures lacks { IfBroken result (λ f. (payment ≡ Err NoDate.NoResult) × (f ≡ fault_at K33 payment_dates number)) }
{
    match payment {
        Ok(payment) => {
            list.push(payment)?;
            Ok(beyond)
        }
        Err(NoDate::OutOfRange) => Ok(earliest(beyond, number)),
        Err(NoDate::NoResult) => Err(PayErr::Broken(fault(Rule::K33, Elem::PAYMENT_DATES, number))),
    }
}

// The payments, one for each place after the first.
fn payments_at<G: GoodDays>(
    alloc: Global,
    s: &Stream,
    unadjusted: &[Day],
    adjusted: &[Day],
    places: &[usize],
    days: &G,
) -> Result<Payments, PayErr>
    requires said { IsSaid s.now.pay.offset }
    requires places { ArePlaces unadjusted.now places.now }
    requires adjusted { length adjusted.now ≡ length unadjusted.now }
    requires few { length unadjusted.now < 2 ^ 32 }
    requires some { 0 < length places.now }
    requires short { length places.now < 2 ^ 32 }
    ensures { Meets (paid_at s.now (G.days days.now) unadjusted.now adjusted.now places.now) result }
{
    let mut list = Payments::with_room(alloc, places.len())?;
    let mut beyond = None;
    for j in 1..places.len() {
        let payment = payment(s, unadjusted, adjusted, places, j, days);
        beyond = settle(&mut list, beyond, j, payment)?;
    }
    match beyond {
        Some(number) => Err(PayErr::Broken(fault(Rule::K38, Elem::PAYMENT_DATES, number))),
        None => Ok(list),
    }
}

/// The payments of a stream, over the boundaries of its calculation periods and the adjusted ones.
///
/// A payment period ends at the termination date. It also ends at each boundary on the grid of the
/// payment frequency that isn't before `firstPaymentDate` nor after `lastRegularPaymentDate`. Its
/// unadjusted date is its end, or its start under `CalculationPeriodStartDate`. The adjusted date
/// starts from the adjusted boundary at that place. It is moved by `paymentDaysOffset` and then
/// adjusted by `paymentDatesAdjustments`, whose business days are `days`.
///
/// `Broken` is the first of K35 (`firstPaymentDate`, then `lastRegularPaymentDate`), then K33 and
/// then K38 of the payment dates. The index of a payment date is the payment's number from 1. K35
/// is reported also where memory runs out, since it is decided before memory is taken.
///
/// The conditions are those of the terms that make a list possible. The termination date is after
/// the first day. K13 says so: it is after the effective date, and a `firstPeriodStartDate` is
/// before that. An offset other than 0 has a kind of days (K17). A payment may fall before the
/// effective date.
pub fn payments<G: GoodDays>(
    alloc: Global,
    s: &Stream,
    _span: &Span,
    unadjusted: &DayList,
    adjusted: &DayList,
    days: &G,
) -> Result<Payments, PayErr>
    requires lawful { IsLawfulStream s.now }
    requires term { first_day_of s.now <ℤ s.now.termination.day }
    requires said { IsSaid s.now.pay.offset }
    requires boundaries { RunsFromTo (first_day_of s.now) s.now.termination.day unadjusted.now }
    requires adjusted { length adjusted.now ≡ length unadjusted.now }
    ensures meets { Meets (payments_of s.now (G.days days.now) unadjusted.now adjusted.now) result }
    // Running out of memory hides no K35.
    ensures memory { IfMemory result ((f : Fault) → BreaksGrouping s.now unadjusted.now f → ⊥) }
{
    let boundaries = unadjusted.as_slice();
    if let Err(grouping) = check_grouping(s, boundaries) {
        return Err(PayErr::Broken(grouping));
    }
    let places = payment_places(alloc, s, boundaries)?;
    payments_at(alloc, s, boundaries, adjusted.as_slice(), &places, days)
}

/// A law: the payments cover the calculation periods in order, without a gap.
pub fn payments_cover_all_periods<G: GoodDays>(
    s: &Stream,
    unadjusted: &DayList,
    adjusted: &DayList,
    days: &G,
)
    requires lawful { IsLawfulStream s.now }
    requires term { first_day_of s.now <ℤ s.now.termination.day }
    requires boundaries { RunsFromTo (first_day_of s.now) s.now.termination.day unadjusted.now }
    ensures { (ps : List Payment) → ArePayments s.now (G.days days.now) unadjusted.now adjusted.now ps →
        Covers 1 ps (length unadjusted.now - 1) }
{
    // hands the prover the range of the boundaries
    let _boundaries = unadjusted.as_slice();
}

/// A law: a stream has one list of payments over its boundaries, or one first rule that they break.
pub fn payments_are_determined<G: GoodDays>(
    s: &Stream,
    unadjusted: &DayList,
    adjusted: &DayList,
    days: &G,
)
    requires lawful { IsLawfulStream s.now }
    requires said { IsSaid s.now.pay.offset }
    requires boundaries { RunsFromTo (first_day_of s.now) s.now.termination.day unadjusted.now }
    requires adjusted { length adjusted.now ≡ length unadjusted.now }
    ensures { Determined (payments_of s.now (G.days days.now) unadjusted.now adjusted.now) }
{
    // hands the prover the range of the business days and of the boundaries
    let _cover = days.cover();
    let _boundaries = unadjusted.as_slice();
    let _adjusted = adjusted.as_slice();
}
