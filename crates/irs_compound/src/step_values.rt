//! The value that a schedule of steps gives on a day, in whatever order they are. It is that of the last
//! step not after the day, else the initial value (FpML `Schedule`).
ghost use Rattle.std.specs.Prelude.{◌≡◌};
ghost use Rattle.irs_compound.specs.PeriodRates.{InForce, counted_step, last_from, value_in_force};

use irs_base::Day;
use irs_terms::{Step, StepValues};

/// The value in force on day `d`. It is that of the step with the greatest date not after `d`, or the
/// initial value if there is none. Where several steps have that date, the first of them counts.
pub(crate) fn in_force(values: &StepValues, d: Day) -> i128
    ensures relation { InForce values.now d result }
    ensures value { result ≡ value_in_force values.now d }
{
    value_on(values, d)
}

fn value_on(values: &StepValues, d: Day) -> i128
    ensures { result ≡ value_in_force values.now d }
{
    match last_step(values.steps.as_slice(), d) {
        None => values.initial,
        Some(step) => step.value,
    }
}

fn last_step(steps: &[Step], d: Day) -> Option<Step>
    ensures { result ≡ last_from d None steps.now }
{
    let mut last: Option<Step> = None;
    for step in steps {
        last = counted_step(last, *step, d);
    }
    last
}

// Takes one more step into account; a step after the day doesn't count.
fn counted_step(last: Option<Step>, step: Step, d: Day) -> Option<Step>
    ensures { result ≡ counted_step d last step }
{
    if d < step.day {
        return last;
    }
    match last {
        None => Some(step),
        Some(other) => if other.day < step.day {
            Some(step)
        } else {
            Some(other)
        },
    }
}
