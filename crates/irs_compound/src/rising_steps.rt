//! The value in force where the steps rise: the steps that aren't after the day are counted.
ghost use Rattle.std.specs.Prelude.{◌≡◌, ℤ};
ghost use Rattle.irs_terms.specs.TermDates.{StepsRise};
ghost use Rattle.irs_compound.specs.PeriodRates.{InForce, last_from, value_in_force};

use crate::step_counts::count_to;
use irs_base::Day;
use irs_terms::{Step, StepValues};

/// The value in force on day `d` of steps that rise by day, as the rules of the terms require. It is
/// that of the last step not after `d`, or the initial value if there is none (FpML `Schedule`).
pub fn in_force_of_rising(values: &StepValues, d: Day) -> i128
    requires rises { StepsRise values.now.steps }
    ensures relation { InForce values.now d result }
    ensures value { result ≡ value_in_force values.now d }
{
    value_of_rising(values, d)
}

/// A law: where the days of the steps rise there is one value in force on a day.
pub fn value_in_force_is_determined(values: &StepValues, d: Day)
    requires { StepsRise values.now.steps }
    ensures { (v w : ℤ) → InForce values.now d v → InForce values.now d w → v ≡ w }
{}

fn value_of_rising(values: &StepValues, d: Day) -> i128
    requires { StepsRise values.now.steps }
    ensures { result ≡ value_in_force values.now d }
{
    match last_of_rising(values.steps.as_slice(), d) {
        None => values.initial,
        Some(step) => step.value,
    }
}

// The last of the steps that aren't after the day; most schedules have no step.
#[tactic(auto, using(crate::proofs::FoundSteps::found_none, crate::proofs::FoundSteps::found_some))]
fn last_of_rising(steps: &[Step], d: Day) -> Option<Step>
    requires { StepsRise steps.now }
    ensures { result ≡ last_from d None steps.now }
{
    if steps.is_empty() {
        return None;
    }
    let count = count_to(steps, d);
    if count == 0 {
        None
    } else {
        Some(steps[count - 1])
    }
}
