//! K16: where the first and the last regular payment date may be, and when a first one is needed.
ghost use Rattle.std.specs.Prelude.{◌≤ℤ◌, ◌↔◌, IsTrue, IsSome, IfSome};
ghost use Rattle.irs_terms.specs.TermDates.{GroupsPeriods, AsksInitialStub, FirstPaymentStands, HasInitialKind};
ghost use Rattle.irs_terms.specs.TermDates.{HasRegularPayments, IsFirstPayment, IsInitialKind, IsLastPayment};
ghost use Rattle.irs_terms.specs.TermDates.{IsPaymentInside, LastPaymentStands, NeedsFirstPayment, StartsLater};
ghost use Rattle.irs_terms.specs.Lawful.{IsLawfulStream};
ghost use Rattle.irs_terms.specs.Private.TermDates.{IsPositive};
ghost use Rattle.irs_rules.specs.Private.TermsKept.{IsFirstHere};
ghost use Rattle.irs_rules.specs.TermsRules.{BreaksK16};

use crate::faults::{earlier, fault_unless};
use crate::multiples::is_larger_multiple;
use irs_base::Day;
use irs_terms::{Elem, Fault, Length, PayTerms, Relative, Rule, Stream, StubKind, Unit};

/// K16: the first of the two regular payment dates that may not be there, or the first one where it
/// is needed and absent.
pub(crate) fn payment_date_misfit(s: &Stream) -> Option<Fault>
    requires { IsLawfulStream s.now }
    ensures { IsFirstHere (BreaksK16 s.now) result }
{
    let first = fault_unless(first_stands(s), Rule::K16, Elem::FIRST_PAYMENT_DATE);
    let last = fault_unless(last_stands(s), Rule::K16, Elem::LAST_REGULAR_PAYMENT_DATE);
    earlier(first, last)
}

fn first_stands(s: &Stream) -> bool
    requires { IsLawfulStream s.now }
    ensures { IsTrue result ↔ FirstPaymentStands s.now }
{
    has_needed_first(s) && given_first_stands(s)
}

fn has_needed_first(s: &Stream) -> bool
    requires { IsLawfulStream s.now }
    ensures { IsTrue result ↔ (NeedsFirstPayment s.now → IsSome s.now.pay.first) }
{
    s.pay.first.is_some() || !needs_first(s)
}

fn needs_first(s: &Stream) -> bool
    requires { IsLawfulStream s.now }
    ensures { IsTrue result ↔ NeedsFirstPayment s.now }
{
    groups_periods(s.pay.freq.length(), s.freq.length()) && asks_initial_stub(s)
}

fn groups_periods(pay: Length, calc: Length) -> bool
    requires { IsPositive calc }
    ensures { IsTrue result ↔ GroupsPeriods pay calc }
{
    match (pay, calc) {
        (Length::Days(pay), Length::Days(calc)) => is_larger_multiple(pay, calc),
        (Length::Months(pay), Length::Months(calc)) => is_larger_multiple(pay, calc),
        (Length::Days(_), Length::Months(_) | Length::Term(_)) => false,
        (Length::Months(_), Length::Days(_) | Length::Term(_)) => false,
        (Length::Term(_), _) => false,
    }
}

fn asks_initial_stub(s: &Stream) -> bool
    ensures { IsTrue result ↔ AsksInitialStub s.now }
{
    s.freq.unit != Unit::T && (starts_later(s) || has_initial_kind(s))
}

fn starts_later(s: &Stream) -> bool
    ensures { IsTrue result ↔ StartsLater s.now }
{
    match s.first_regular {
        None => false,
        Some(day) => day != s.first_day(),
    }
}

fn has_initial_kind(s: &Stream) -> bool
    ensures { IsTrue result ↔ HasInitialKind s.now }
{
    s.first_regular.is_none() && s.last_regular.is_none() && is_initial(s.stub)
}

fn is_initial(stub: Option<StubKind>) -> bool
    ensures { IsTrue result ↔ IsInitialKind stub }
{
    match stub {
        Some(StubKind::ShortInitial | StubKind::LongInitial) => true,
        Some(StubKind::ShortFinal | StubKind::LongFinal) | None => false,
    }
}

fn given_first_stands(s: &Stream) -> bool
    ensures { IsTrue result ↔ IfSome s.now.pay.first (IsFirstPayment s.now) }
{
    match s.pay.first {
        None => true,
        Some(first) => has_regular_payments(&s.pay) && is_payment_inside(s, first),
    }
}

fn last_stands(s: &Stream) -> bool
    ensures { IsTrue result ↔ LastPaymentStands s.now }
{
    match s.pay.last {
        None => true,
        Some(last) => is_last_payment(s, last),
    }
}

fn is_last_payment(s: &Stream, last: Day) -> bool
    ensures { IsTrue result ↔ IsLastPayment s.now last }
{
    has_regular_payments(&s.pay) && is_payment_inside(s, last) && is_from_first(s.pay.first, last)
}

fn has_regular_payments(pay: &PayTerms) -> bool
    ensures { IsTrue result ↔ HasRegularPayments pay.now }
{
    pay.relative == Relative::End && pay.freq.unit != Unit::T
}

fn is_payment_inside(s: &Stream, day: Day) -> bool
    ensures { IsTrue result ↔ IsPaymentInside s.now day }
{
    s.first_day() < day && day <= s.termination.day
}

/// Whether the last date isn't before the first, where there is one.
fn is_from_first(first: Option<Day>, last: Day) -> bool
    ensures { IsTrue result ↔ IfSome first (λ d. d ≤ℤ last) }
{
    match first {
        None => true,
        Some(first) => first <= last,
    }
}
