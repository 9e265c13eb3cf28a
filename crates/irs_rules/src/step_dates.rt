//! K18: the steps of notionals, fixed rates, multipliers and spreads rise strictly by date. They lie
//! strictly between the effective and the termination date, wherever the first period starts.
ghost use Rattle.std.specs.Prelude.{◌<◌, ◌≤◌, ◌<ℤ◌, ◌↔◌, IsTrue, IfSome, length};
ghost use Rattle.irs_base.specs.Limits.{most_steps};
ghost use Rattle.irs_terms.specs.declared.places.Rule.TheVariants.{K18};
ghost use Rattle.irs_terms.specs.Lawful.{IsLawfulStream, IsLawfulLeg};
ghost use Rattle.irs_terms.specs.TermDates.{IsStepInside, StepStands, step_before};
ghost use Rattle.irs_rules.specs.Private.TermsKept.{IsFirstHere};
ghost use Rattle.irs_rules.specs.TermsRules.{BreaksItem, BreaksK18, BreaksK18InLeg};

use crate::faults::{earlier, fault_of_item};
use irs_base::Day;
use irs_terms::{Elem, Fault, Leg, Rule, Step, StepValues, Stream};

/// K18: the first step of a stream whose date is out of order or outside the term.
pub(crate) fn step_out_of_order(s: &Stream) -> Option<Fault>
    requires { IsLawfulStream s.now }
    ensures { IsFirstHere (BreaksK18 s.now) result }
{
    let (from, to) = (s.effective.day, s.termination.day);
    let notional = first_out(&s.notional, from, to, Elem::NOTIONAL_STEP_DATE);
    earlier(notional, first_in_leg(&s.leg, from, to))
}

fn first_in_leg(leg: &Leg, from: Day, to: Day) -> Option<Fault>
    requires { IsLawfulLeg leg.now }
    ensures { IsFirstHere (BreaksK18InLeg from to leg.now) result }
{
    match leg {
        Leg::Fixed(rate) => first_out(rate, from, to, Elem::FIXED_RATE_STEP_DATE),
        Leg::Floating(f) => {
            let multiplier = first_out(&f.multiplier, from, to, Elem::MULTIPLIER_STEP_DATE);
            let spread = first_out(&f.spread, from, to, Elem::SPREAD_STEP_DATE);
            earlier(multiplier, spread)
        }
    }
}

fn first_out(values: &StepValues, from: Day, to: Day, elem: Elem) -> Option<Fault>
    requires { length values.now.steps ≤ most_steps }
    ensures { IsFirstHere (BreaksItem K18 elem (StepStands from to values.now.steps)) result }
{
    let steps = values.steps.as_slice();
    for i in 0..steps.len() {
        if !stands(steps, i, from, to) {
            return Some(fault_of_item(Rule::K18, elem, i));
        }
    }
    None
}

fn stands(steps: &[Step], i: usize, from: Day, to: Day) -> bool
    requires { i < length steps.now }
    ensures { IsTrue result ↔ StepStands from to steps.now i }
{
    let step = steps[i];
    is_inside(steps, i, step, from, to)
}

/// Whether the step may be the i-th.
fn is_inside(steps: &[Step], i: usize, step: Step, from: Day, to: Day) -> bool
    requires { i < length steps.now }
    ensures { IsTrue result ↔ IsStepInside from to steps.now i step }
{
    from < step.day && step.day < to && is_in_order(steps, i, step.day)
}

/// Whether the day is after that of the step before the i-th.
fn is_in_order(steps: &[Step], i: usize, day: Day) -> bool
    requires { i < length steps.now }
    ensures { IsTrue result ↔ IfSome (step_before steps.now i) (λ before. before.day <ℤ day) }
{
    i == 0 || steps[i - 1].day < day
}
