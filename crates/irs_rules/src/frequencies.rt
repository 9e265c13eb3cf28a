//! K14, K15 and K20. The roll suits the calculation frequency, and a payment has whole calculation
//! periods. The reset frequency is as long as the calculation frequency, or 1D for a rate by daily
//! rates.
ghost use Rattle.std.specs.Prelude.{◌↔◌, IsTrue, IfSome};
ghost use Rattle.irs_terms.specs.TermDates.{HasWholePeriods, PaymentSuits, ResetSuits, FrequencySuits, IsWholeTerm};
ghost use Rattle.irs_terms.specs.Lawful.{IsLawfulStream};
ghost use Rattle.irs_terms.specs.Private.TermDates.{IsPositive};
ghost use Rattle.irs_rules.specs.Private.TermsKept.{IsFirstHere, IsTermAlone};
ghost use Rattle.irs_rules.specs.TermsRules.{BreaksK14, BreaksK15, BreaksK20};
ghost use Rattle.irs_rules.specs.Parameters.{IsOneDay, ResetFits};

use crate::faults::fault_unless;
use crate::multiples::is_multiple;
use crate::parameters::{has_parameters, is_one_day};
use irs_terms::{Elem, Fault, Length, ResetTerms, Rule, Stream, Unit, suits};

/// K14: the calculation frequency, where the roll doesn't suit it.
pub(crate) fn roll_misfit(s: &Stream) -> Option<Fault>
    requires { IsLawfulStream s.now }
    ensures { IsFirstHere (BreaksK14 s.now) result }
{
    fault_unless(
        frequency_suits(s),
        Rule::K14,
        Elem::CALCULATION_PERIOD_FREQUENCY,
    )
}

fn frequency_suits(s: &Stream) -> bool
    requires { IsLawfulStream s.now }
    ensures { IsTrue result ↔ FrequencySuits s.now }
{
    suits(s.freq, s.roll) && fits_term(s)
}

/// Whether the term, where it is the calculation frequency, counts once and has no regular dates.
fn fits_term(s: &Stream) -> bool
    ensures { IsTrue result ↔ (IsWholeTerm s.now.freq → IsTermAlone s.now) }
{
    s.freq.unit != Unit::T || is_term_alone(s)
}

fn is_term_alone(s: &Stream) -> bool
    ensures { IsTrue result ↔ IsTermAlone s.now }
{
    s.freq.count == 1 && s.first_regular.is_none() && s.last_regular.is_none()
}

/// K15: the payment frequency, where a payment doesn't have whole calculation periods.
pub(crate) fn payment_misfit(s: &Stream) -> Option<Fault>
    requires { IsLawfulStream s.now }
    ensures { IsFirstHere (BreaksK15 s.now) result }
{
    fault_unless(payment_suits(s), Rule::K15, Elem::PAYMENT_FREQUENCY)
}

fn payment_suits(s: &Stream) -> bool
    requires { IsLawfulStream s.now }
    ensures { IsTrue result ↔ PaymentSuits s.now }
{
    has_whole_periods(s.pay.freq.length(), s.freq.length())
}

fn has_whole_periods(pay: Length, calc: Length) -> bool
    requires { IsPositive calc }
    ensures { IsTrue result ↔ HasWholePeriods pay calc }
{
    match (pay, calc) {
        (Length::Days(pay), Length::Days(calc)) => is_multiple(pay, calc),
        (Length::Months(pay), Length::Months(calc)) => is_multiple(pay, calc),
        (Length::Days(_), Length::Months(_) | Length::Term(_)) => false,
        (Length::Months(_), Length::Days(_) | Length::Term(_)) => false,
        (Length::Term(multiplier), _) => multiplier == 1,
    }
}

/// K20: the reset frequency, where it is neither as long as the calculation frequency nor 1D beside
/// `calculationParameters`.
pub(crate) fn reset_misfit(s: &Stream) -> Option<Fault>
    ensures { IsFirstHere (BreaksK20 s.now) result }
{
    fault_unless(reset_fits(s), Rule::K20, Elem::RESET_FREQUENCY)
}

fn reset_fits(s: &Stream) -> bool
    ensures { IsTrue result ↔ ResetFits s.now }
{
    reset_suits(s) || (has_parameters(&s.leg) && resets_daily(&s.reset))
}

fn resets_daily(reset: &Option<ResetTerms>) -> bool
    ensures { IsTrue result ↔ IfSome reset.now (λ r. IsOneDay r.freq) }
{
    match reset {
        None => true,
        Some(reset) => is_one_day(reset.freq),
    }
}

fn reset_suits(s: &Stream) -> bool
    ensures { IsTrue result ↔ ResetSuits s.now }
{
    match &s.reset {
        None => true,
        Some(reset) => reset.freq.is_as_long_as(s.freq),
    }
}
