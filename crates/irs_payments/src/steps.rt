//! Steps begin at boundaries: a notional, rate, multiplier or spread changes only on the first day
//! of a calculation period (K36). It is our rule: the amount of a period then has one value of each.
ghost use Rattle.std.specs.Prelude.{◌↔◌, ◌≤◌, IsTrue, length};
ghost use Rattle.irs_base.specs.Lists.{Member, IsRising};
ghost use Rattle.irs_base.specs.Outcomes.{Determined, MeetsExactly, unbroken};
ghost use Rattle.irs_terms.specs.Faults.{comes_before};
ghost use Rattle.irs_terms.specs.Lawful.{IsLawfulStream, IsLawfulLeg};
ghost use Rattle.irs_base.specs.Limits.{most_steps};
ghost use Rattle.irs_payments.specs.Payments.{steps_of};
ghost use Rattle.irs_payments.specs.Exchanges.{BreaksUnder, BreaksRateSteps};

use crate::faults::fault;
use irs_base::{Day, DayList};
use irs_terms::{Elem, Fault, Leg, Rule, Step, Stream};

/// Whether the day is in the rising list.
pub fn has_day(days: &[Day], d: Day) -> bool
    requires { IsRising days.now }
    ensures { IsTrue result ↔ Member d days.now }
{
    days.binary_search(&d).is_ok()
}

// The first step of a list whose date is no boundary, at the element of its dates.
fn check_list(steps: &[Step], elem: Elem, boundaries: &[Day]) -> Result<(), Fault>
    requires few { length steps.now ≤ most_steps }
    requires rising { IsRising boundaries.now }
    ensures { MeetsExactly (unbroken comes_before (BreaksUnder boundaries.now elem steps.now)) result }
{
    for (i, step) in steps.iter().enumerate() {
        if !has_day(boundaries, step.day) {
            return Err(fault(Rule::K36, elem, i + 1));
        }
    }
    Ok(())
}

// The first step of a leg whose date is no boundary.
fn check_rate_steps(leg: &Leg, boundaries: &[Day]) -> Result<(), Fault>
    requires lawful { IsLawfulLeg leg.now }
    requires rising { IsRising boundaries.now }
    ensures { MeetsExactly (unbroken comes_before (BreaksRateSteps leg.now boundaries.now)) result }
{
    match leg {
        Leg::Fixed(rates) => check_list(
            rates.steps.as_slice(),
            Elem::FIXED_RATE_STEP_DATE,
            boundaries,
        ),
        Leg::Floating(terms) => {
            check_list(
                terms.multiplier.steps.as_slice(),
                Elem::MULTIPLIER_STEP_DATE,
                boundaries,
            )?;
            check_list(
                terms.spread.steps.as_slice(),
                Elem::SPREAD_STEP_DATE,
                boundaries,
            )
        }
    }
}

/// Whether the date of each step is an unadjusted boundary (K36). The error is the first step whose
/// date is none. Elements come in the order notional, then the fixed rate, or the multiplier and
/// the spread. A step's number in its element, from 1, is the index. It takes no memory.
pub fn check_steps(s: &Stream, unadjusted: &DayList) -> Result<(), Fault>
    requires lawful { IsLawfulStream s.now }
    requires rising { IsRising unadjusted.now }
    ensures meets { MeetsExactly (steps_of s.now unadjusted.now) result }
{
    let boundaries = unadjusted.as_slice();
    let steps = s.notional.steps.as_slice();
    match check_list(steps, Elem::NOTIONAL_STEP_DATE, boundaries) {
        Err(off) => Err(off),
        Ok(()) => check_rate_steps(&s.leg, boundaries),
    }
}

/// A law: a step is the first whose date is no boundary, or the date of each step is one.
pub fn steps_are_determined(s: &Stream, unadjusted: &DayList)
    ensures { Determined (steps_of s.now unadjusted.now) }
{}
