//! K47: what goes with `calculationParameters`. Daily rates then give the rate of a period. So the
//! index has the tenor 1D, no rate is given for the first period, and no stub has an index of its
//! own. Compounding counts by years of 360 or of 365 days.
ghost use Rattle.std.specs.Prelude.{◌≡◌, ◌↔◌, IsTrue, IfSome, option_copied};
ghost use Rattle.irs_rules.specs.TermsRules.{BreaksK47};
ghost use Rattle.irs_rules.specs.Private.TermsKept.{IsFirstHere};
ghost use Rattle.irs_rules.specs.Parameters.{DayCountFits, FinalStubFits, FitsMethod, HasParameters, InitialRateFits};
ghost use Rattle.irs_rules.specs.Parameters.{InitialStubFits, IsStubNumber, IsOneDay, TenorFits, applicable_names};
ghost use Rattle.irs_rules.specs.Parameters.{centers_of};

use crate::faults::{earlier, fault_unless};
use irs_base::Names;
use irs_terms::{
    CalculationMethod, CalculationParameters, DayCountCode, Elem, Fault, Frequency, Leg, Rule,
    Stream, StubRate, StubTerms, Unit,
};

/// The centres that give the applicable business days (FpML `applicableBusinessDays`); `None` exactly
/// if the leg has no `calculationParameters`.
pub fn applicable_names(leg: &Leg) -> Option<&Names>
    ensures { option_copied result ≡ applicable_names leg.now }
{
    match leg {
        Leg::Fixed(_) => None,
        Leg::Floating(f) => centers_of(&f.parameters),
    }
}

fn centers_of(parameters: &Option<CalculationParameters>) -> Option<&Names>
    ensures { option_copied result ≡ centers_of parameters.now }
{
    match parameters {
        None => None,
        Some(parameters) => Some(&parameters.centers),
    }
}

/// Whether the leg has `calculationParameters`.
pub(crate) fn has_parameters(leg: &Leg) -> bool
    ensures { IsTrue result ↔ HasParameters leg.now }
{
    match leg {
        Leg::Fixed(_) => false,
        Leg::Floating(f) => f.parameters.is_some(),
    }
}

/// Whether the frequency is 1D.
pub(crate) fn is_one_day(freq: Frequency) -> bool
    ensures { IsTrue result ↔ IsOneDay freq }
{
    freq.count == 1 && freq.unit == Unit::D
}

/// K47: the first element that doesn't go with the `calculationParameters` of a stream.
pub(crate) fn parameters_misfit(s: &Stream) -> Option<Fault>
    ensures { IsFirstHere (BreaksK47 s.now) result }
{
    let tenor = fault_unless(tenor_fits(&s.leg), Rule::K47, Elem::INDEX_TENOR);
    let rate = fault_unless(initial_rate_fits(&s.leg), Rule::K47, Elem::INITIAL_RATE);
    let day_count = fault_unless(day_count_fits(s), Rule::K47, Elem::DAY_COUNT_FRACTION);
    let initial = fault_unless(
        initial_stub_fits(s),
        Rule::K47,
        Elem::INITIAL_STUB_FLOATING_RATE,
    );
    let last = fault_unless(
        final_stub_fits(s),
        Rule::K47,
        Elem::FINAL_STUB_FLOATING_RATE,
    );
    earlier(
        tenor,
        earlier(rate, earlier(day_count, earlier(initial, last))),
    )
}

fn tenor_fits(leg: &Leg) -> bool
    ensures { IsTrue result ↔ TenorFits leg.now }
{
    match leg {
        Leg::Fixed(_) => true,
        Leg::Floating(f) => f.parameters.is_none() || is_daily(f.tenor),
    }
}

/// Whether the tenor, where one is given, is 1D.
fn is_daily(tenor: Option<Frequency>) -> bool
    ensures { IsTrue result ↔ IfSome tenor IsOneDay }
{
    match tenor {
        None => true,
        Some(tenor) => is_one_day(tenor),
    }
}

fn initial_rate_fits(leg: &Leg) -> bool
    ensures { IsTrue result ↔ InitialRateFits leg.now }
{
    match leg {
        Leg::Fixed(_) => true,
        Leg::Floating(f) => f.parameters.is_none() || f.initial_rate.is_none(),
    }
}

fn day_count_fits(s: &Stream) -> bool
    ensures { IsTrue result ↔ DayCountFits s.now }
{
    match &s.leg {
        Leg::Fixed(_) => true,
        Leg::Floating(f) => is_counted_by(&f.parameters, s.day_count),
    }
}

/// Whether the day count goes with the method of the parameters, where they are given.
fn is_counted_by(parameters: &Option<CalculationParameters>, code: DayCountCode) -> bool
    ensures { IsTrue result ↔ IfSome parameters.now (λ p. FitsMethod p.method code) }
{
    match parameters {
        None => true,
        Some(parameters) => fits_method(parameters.method, code),
    }
}

fn fits_method(method: CalculationMethod, code: DayCountCode) -> bool
    ensures { IsTrue result ↔ FitsMethod method code }
{
    match method {
        CalculationMethod::Compounding => {
            code == DayCountCode::Act360 || code == DayCountCode::Act365Fixed
        }
        CalculationMethod::Averaging => true,
    }
}

fn initial_stub_fits(s: &Stream) -> bool
    ensures { IsTrue result ↔ InitialStubFits s.now }
{
    !has_parameters(&s.leg) || has_initial_number(&s.stubs)
}

fn has_initial_number(stubs: &Option<StubTerms>) -> bool
    ensures { IsTrue result ↔ IfSome stubs.now (λ t. IsStubNumber t.initial) }
{
    match stubs {
        None => true,
        Some(stubs) => is_number(&stubs.initial),
    }
}

fn final_stub_fits(s: &Stream) -> bool
    ensures { IsTrue result ↔ FinalStubFits s.now }
{
    !has_parameters(&s.leg) || has_final_number(&s.stubs)
}

fn has_final_number(stubs: &Option<StubTerms>) -> bool
    ensures { IsTrue result ↔ IfSome stubs.now (λ t. IsStubNumber t.last) }
{
    match stubs {
        None => true,
        Some(stubs) => is_number(&stubs.last),
    }
}

/// Whether the rate of a stub, where one is given, is a number and not that of an index.
fn is_number(rate: &Option<StubRate>) -> bool
    ensures { IsTrue result ↔ IsStubNumber rate.now }
{
    match rate {
        None => true,
        Some(StubRate::Index(_, _)) => false,
        Some(StubRate::Fixed(_)) => true,
    }
}
