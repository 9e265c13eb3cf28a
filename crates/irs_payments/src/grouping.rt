//! How payments group calculation periods (FpML `paymentFrequency`, `firstPaymentDate`,
//! `lastRegularPaymentDate`). A payment is due at the termination date, and at each boundary of
//! calculation periods that is on the grid of the payment frequency.
//!
//! The anchor of that grid is our rule. It is the first payment date where that is given. Else it
//! is the end of the first calculation period, where there is a payment for each period. Else it is
//! the first day of the first calculation period, which may be before the effective date. The
//! anchor need not be a roll day.
ghost use Rattle.std.specs.Prelude.{◌≡◌, ◌↔◌, ◌<◌, ◌<ℤ◌, ◌≤ℤ◌, IsTrue, IfSome, length};
ghost use Rattle.irs_base.specs.Lists.{Member, IsRising};
ghost use Rattle.irs_base.specs.Outcomes.{MeetsExactly, unbroken};
ghost use Rattle.irs_terms.specs.Faults.{comes_before};
ghost use Rattle.irs_terms.specs.TermDates.{first_day_of};
ghost use Rattle.irs_terms.specs.Lawful.{IsLawfulStream, IsLawfulFrequency, IsLawfulRoll};
ghost use Rattle.irs_roll.specs.Rolls.{OnGrid};
ghost use Rattle.irs_payments.specs.Payments.{pay_anchor, IsRegularPay, EndsPayment, IsBadFirst, IsBadLast};
ghost use Rattle.irs_payments.specs.Payments.{BreaksGrouping};

use crate::faults::fault;
use crate::steps::has_day;
use irs_base::Day;
use irs_roll::{Anchor, on_grid_from};
use irs_terms::{Elem, Fault, Frequency, RollCode, Rule, Stream, Unit};

/// The anchor of the payment grid.
pub fn payment_anchor(s: &Stream, boundaries: &[Day]) -> Anchor
    requires { 1 < length boundaries.now }
    ensures { result ≡ pay_anchor s.now boundaries.now }
{
    Anchor::new(anchor_day(s, boundaries))
}

fn anchor_day(s: &Stream, boundaries: &[Day]) -> Day
    requires { 1 < length boundaries.now }
    ensures { result ≡ pay_anchor s.now boundaries.now }
{
    match s.pay.first {
        Some(first) => first,
        None => if s.pay.freq.is_as_long_as(s.freq) {
            boundaries[1]
        } else {
            s.first_day()
        },
    }
}

// Whether the day is on the grid; the term has none.
fn is_on_grid(freq: Frequency, roll: RollCode, anchor: &Anchor, d: Day) -> bool
    requires freq { IsLawfulFrequency freq }
    requires roll { IsLawfulRoll roll }
    ensures { IsTrue result ↔ OnGrid freq roll anchor.now d }
{
    match freq.unit {
        Unit::D | Unit::W | Unit::M | Unit::Y => on_grid_from(freq, roll, anchor, d),
        Unit::T => false,
    }
}

// Not before the first payment date.
fn is_from(first: Option<Day>, d: Day) -> bool
    ensures { IsTrue result ↔ IfSome first (λ f. f ≤ℤ d) }
{
    match first {
        Some(f) => f <= d,
        None => true,
    }
}

// Not after the last regular payment date.
fn is_to(last: Option<Day>, d: Day) -> bool
    ensures { IsTrue result ↔ IfSome last (λ l. d ≤ℤ l) }
{
    match last {
        Some(l) => d <= l,
        None => true,
    }
}

fn is_regular(s: &Stream, anchor: &Anchor, d: Day) -> bool
    requires { IsLawfulStream s.now }
    ensures { IsTrue result ↔ IsRegularPay s.now anchor.now d }
{
    is_from(s.pay.first, d) && is_to(s.pay.last, d) && is_on_grid(s.pay.freq, s.roll, anchor, d)
}

/// Whether a payment period ends at this boundary.
pub fn ends_payment(s: &Stream, anchor: &Anchor, d: Day) -> bool
    requires { IsLawfulStream s.now }
    ensures { IsTrue result ↔ EndsPayment s.now anchor.now d }
{
    d == s.termination.day || is_regular(s, anchor, d)
}

fn is_boundary_after(s: &Stream, boundaries: &[Day], d: Day) -> bool
    requires { IsRising boundaries.now }
    ensures { IsTrue result ↔ (Member d boundaries.now × (first_day_of s.now <ℤ d)) }
{
    has_day(boundaries, d) && s.first_day() < d
}

fn is_grid_boundary(s: &Stream, boundaries: &[Day], d: Day) -> bool
    requires lawful { IsLawfulStream s.now }
    requires rising { IsRising boundaries.now }
    requires some { 1 < length boundaries.now }
    ensures { IsTrue result ↔ (Member d boundaries.now ×
        OnGrid s.now.pay.freq s.now.roll (pay_anchor s.now boundaries.now) d) }
{
    has_day(boundaries, d) && is_on_grid(s.pay.freq, s.roll, &payment_anchor(s, boundaries), d)
}

fn is_bad_first(s: &Stream, boundaries: &[Day]) -> bool
    requires { IsRising boundaries.now }
    ensures { IsTrue result ↔ IsBadFirst s.now boundaries.now }
{
    match s.pay.first {
        Some(first) => !is_boundary_after(s, boundaries, first),
        None => false,
    }
}

fn is_bad_last(s: &Stream, boundaries: &[Day]) -> bool
    requires lawful { IsLawfulStream s.now }
    requires rising { IsRising boundaries.now }
    requires some { 1 < length boundaries.now }
    ensures { IsTrue result ↔ IsBadLast s.now boundaries.now }
{
    match s.pay.last {
        Some(last) => last != s.termination.day && !is_grid_boundary(s, boundaries, last),
        None => false,
    }
}

/// The first of the given payment dates that breaks K35. `firstPaymentDate` breaks it where it is
/// no boundary after the first day. `lastRegularPaymentDate` does where it isn't the termination
/// date and no boundary on the payment grid.
pub fn check_grouping(s: &Stream, boundaries: &[Day]) -> Result<(), Fault>
    requires lawful { IsLawfulStream s.now }
    requires rising { IsRising boundaries.now }
    requires some { 1 < length boundaries.now }
    ensures { MeetsExactly (unbroken comes_before (BreaksGrouping s.now boundaries.now)) result }
{
    if is_bad_first(s, boundaries) {
        return Err(fault(Rule::K35, Elem::FIRST_PAYMENT_DATE, 0));
    }
    if is_bad_last(s, boundaries) {
        return Err(fault(Rule::K35, Elem::LAST_REGULAR_PAYMENT_DATE, 0));
    }
    Ok(())
}
