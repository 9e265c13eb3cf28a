//! How many of the steps that rise aren't after a day. Where the steps are evenly spaced, as where each
//! period has one, the day itself says how many; else they are counted by halves.
ghost use Rattle.std.specs.Prelude.{◌≡◌, ◌<◌, ◌≤◌, pos, ◌+ℤ◌, ◌≤ℤ◌, length, IsTrue, ◌↔◌};
ghost use Rattle.irs_base.specs.Days.{all_days};
ghost use Rattle.irs_terms.specs.TermDates.{StepsRise};
ghost use Rattle.irs_compound.specs.Private.RateLaws.{IsCountTo};

use irs_base::Day;
use irs_terms::Step;

/// The number of steps that aren't after the day; they come before those that are.
pub(crate) fn count_to(steps: &[Step], d: Day) -> usize
    requires rises { StepsRise steps.now }
    requires some { 0 < length steps.now }
    ensures { IsCountTo d steps.now result }
{
    let guess = even_count(steps, d);
    if is_count(steps, d, guess) {
        guess
    } else {
        count_by_halves(steps, d)
    }
}

// The count if the steps are evenly spaced, else a guess. The step nearest to the day is taken, since
// most periods begin on the day of a step.
#[tactic(auto, using(crate::proofs::CountedSteps::few_gaps))]
fn even_count(steps: &[Step], d: Day) -> usize
    requires rises { StepsRise steps.now }
    requires some { 0 < length steps.now }
    ensures { result ≤ length steps.now }
{
    let gaps = steps.len() - 1;
    let first = steps[0].day;
    let last = steps[gaps].day;
    if d < first {
        return 0;
    }
    if last <= d {
        return steps.len();
    }
    nearest_gap(gaps, days_after(first, d), days_after(first, last)) + 1
}

// The index of the evenly spaced step that is nearest to `days`.
#[tactic(auto, using(crate::proofs::CountedSteps::within_gaps))]
fn nearest_gap(gaps: usize, days: usize, whole: usize) -> usize
    requires some { 0 < whole }
    requires whole_fits { whole < all_days }
    requires gaps_fit { gaps ≤ whole }
    requires inside { days ≤ whole }
    ensures { result ≤ gaps }
{
    (gaps * days + whole / 2) / whole
}

// How many days the second is after the first.
fn days_after(first: Day, d: Day) -> usize
    requires { first ≤ℤ d }
    ensures sum { first +ℤ pos result ≡ d }
    ensures few { result < all_days }
{
    (d.number() - first.number()) as usize
}

// Whether the first `count` steps alone aren't after the day: the last of them isn't, the next one is.
fn is_count(steps: &[Step], d: Day, count: usize) -> bool
    requires rises { StepsRise steps.now }
    requires bound { count ≤ length steps.now }
    ensures { IsTrue result ↔ IsCountTo d steps.now count }
{
    (count == 0 || steps[count - 1].day <= d) && (count == steps.len() || d < steps[count].day)
}

fn count_by_halves(steps: &[Step], d: Day) -> usize
    requires { StepsRise steps.now }
    ensures { IsCountTo d steps.now result }
{
    steps.partition_point(|step| step.day <= d)
}
