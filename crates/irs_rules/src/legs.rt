//! K19 and K21. Only a floating rate has reset dates and stub rates, and it needs reset dates.
//! Compounding doesn't go with a fixed rate, nor with ZeroInterestRateMethod.
ghost use Rattle.std.specs.Prelude.{◌↔◌, IsTrue};
ghost use Rattle.irs_terms.specs.Lawful.{FitsCompounding, FitsResets, FitsStubs, MayCompound};
ghost use Rattle.irs_rules.specs.Private.TermsKept.{IsFirstHere};
ghost use Rattle.irs_rules.specs.TermsRules.{BreaksK19, BreaksK21};

use crate::faults::{earlier, fault_unless};
use irs_terms::{CompCode, Elem, Fault, Leg, ResetTerms, Rule, Stream, StubTerms, Treatment};

/// K19: the first element that doesn't go with the rate of a stream, or that it lacks.
pub(crate) fn element_of_other_leg(s: &Stream) -> Option<Fault>
    ensures { IsFirstHere (BreaksK19 s.now) result }
{
    let resets = fault_unless(fits_resets(&s.leg, &s.reset), Rule::K19, Elem::RESET_DATES);
    let stubs = fault_unless(fits_stubs(&s.leg, &s.stubs), Rule::K19, Elem::STUB_AMOUNT);
    earlier(resets, stubs)
}

fn fits_resets(leg: &Leg, reset: &Option<ResetTerms>) -> bool
    ensures { IsTrue result ↔ FitsResets leg.now reset.now }
{
    match leg {
        Leg::Fixed(_) => reset.is_none(),
        Leg::Floating(_) => reset.is_some(),
    }
}

fn fits_stubs(leg: &Leg, stubs: &Option<StubTerms>) -> bool
    ensures { IsTrue result ↔ FitsStubs leg.now stubs.now }
{
    match leg {
        Leg::Fixed(_) => stubs.is_none(),
        Leg::Floating(_) => true,
    }
}

/// K21: the compounding method of a stream whose rate may not be compounded.
pub(crate) fn compounding_misfit(s: &Stream) -> Option<Fault>
    ensures { IsFirstHere (BreaksK21 s.now) result }
{
    fault_unless(fits_compounding(s), Rule::K21, Elem::COMPOUNDING_METHOD)
}

fn fits_compounding(s: &Stream) -> bool
    ensures { IsTrue result ↔ FitsCompounding s.now }
{
    s.compounding == CompCode::Simple || may_compound(&s.leg)
}

fn may_compound(leg: &Leg) -> bool
    ensures { IsTrue result ↔ MayCompound leg.now }
{
    match leg {
        Leg::Fixed(_) => false,
        Leg::Floating(f) => f.treatment == Treatment::AsIs,
    }
}
