//! The observations of a calculation period for an average: one every `step` days from its start.
ghost use Rattle.std.specs.Prelude.{◌≡◌, ◌↔◌, ℕ, ℤ, ◌+◌, ◌*◌, ◌^◌, ◌<◌, ◌≤◌, IfOk, IfSome, IfNone, All};
ghost use Rattle.std.specs.Prelude.{◌<ℤ◌, ◌-ℤ◌};
ghost use Rattle.irs_base.specs.Days.{IsDay};
ghost use Rattle.irs_calendar.specs.GoodDays.{Prev};
ghost use Rattle.irs_overnight.specs.Private.Bounds.{IsSmall};
ghost use Rattle.irs_average.specs.Private.Means.{ShareOut};
ghost use Rattle.irs_average.specs.Averages.{own_lines, AreSamples, IsSample, LacksSample, step_day, step_end};

use irs_base::{Day, Memory, ahead};
use irs_calendar::GoodDays;
use irs_overnight::{Observation, days_ahead, days_between};
use irs_resets::Fixings;
use irs_terms::FloatTerms;
use std::alloc::Global;

/// The steps of a period: one every `step` days from its start, as many as begin before its end.
#[derive(Drop)]
pub(crate) struct Steps {
    start: Day,
    end: Day,
    step: u32,
    count: u32,
    ghost days: { IsDay start × IsDay end },
    ghost few: { count < 2 ^ 32 },
    ghost counted: { (k : ℕ) → k < count ↔ step_day start step k <ℤ end },
}

// How many multiples of a step, from 0 on, lie below a number of days.
fn multiples(days: u32, step: u32) -> u32
    requires days { 1 ≤ days }
    requires step { 1 ≤ step }
    ensures { (k : ℕ) → k < result ↔ k * step < days }
{
    (days - 1) / step + 1
}

impl Steps {
    /// The steps of a period from one day to another.
    pub(crate) fn of(start: Day, end: Day, step: u32) -> Steps
        requires order { start <ℤ end }
        requires some { 1 ≤ step }
        ensures start { result.start ≡ start }
        ensures end { result.end ≡ end }
        ensures step { result.step ≡ step }
        ensures some { 0 < result.count }
    {
        // hands the prover the range of the days
        let _numbers = (start.number(), end.number());
        Steps {
            start,
            end,
            step,
            count: multiples(days_ahead(start, end), step),
        }
    }

    // The day of a step.
    fn day(&self, k: u32) -> Day
        requires { k < self.now.count }
        ensures { result ≡ step_day self.now.start self.now.step k }
    {
        ahead(self.start, k * self.step)
    }

    // The day of the step after it, or the end of the period after the last.
    fn next_day(&self, k: u32) -> Day
        requires { k < self.now.count }
        ensures { result ≡ step_end self.now.start self.now.end self.now.step self.now.count k }
    {
        if k + 1 < self.count {
            self.day(k + 1)
        } else {
            self.end
        }
    }
}

// The observation of a step; `None` where it has no day.
fn sample<G: GoodDays>(
    days: &G,
    fix: &Fixings,
    float: &FloatTerms,
    steps: &Steps,
    k: u32,
) -> Option<Observation>
    requires { k < steps.now.count }
    ensures some { let lines = own_lines fix.now float.now in
        let s = steps.now in
        IfSome result (IsSample lines (G.days days.now) s.start s.end s.step s.count k) }
    ensures small { IfSome result IsSmall }
    ensures none { let from = step_day steps.now.start steps.now.step k in
        IfNone result ((q : ℤ) → Prev (G.days days.now) from q → ⊥) }
{
    let from = steps.day(k);
    match days.prev_good(from) {
        Some(day) => Some(Observation {
            day,
            weight: days_between(from, steps.next_day(k)),
            rate: fix.rate_on(&float.index, float.tenor, day),
        }),
        None => None,
    }
}

/// The observations of a period; `None` exactly where one of them has no day.
pub(crate) fn samples<G: GoodDays>(
    alloc: Global,
    days: &G,
    fix: &Fixings,
    float: &FloatTerms,
    steps: &Steps,
) -> Result<Option<Vec<Observation>>, Memory>
    requires some { 0 < steps.now.count }
    ensures some { let lines = own_lines fix.now float.now in
        let s = steps.now in
        IfOk result (λ o. IfSome o (λ v. AreSamples lines (G.days days.now) s.step s.start s.end v.items)) }
    ensures small { IfOk result (λ o. IfSome o (λ v. All IsSmall v.items)) }
    ensures shares { IfOk result (λ o. IfSome o (λ v. ShareOut (steps.now.end -ℤ steps.now.start) v.items)) }
    ensures unbroken { let s = steps.now in
        IfOk result (λ o. IfSome o (λ _. LacksSample (G.days days.now) s.step s.start s.end → ⊥)) }
    ensures none { let s = steps.now in
        IfOk result (λ o. IfNone o (LacksSample (G.days days.now) s.step s.start s.end)) }
{
    let mut all = Vec::new(alloc);
    for k in 0..steps.count {
        let Some(found) = sample(days, fix, float, steps, k) else {
            return Ok(None);
        };
        all.push(found)?;
    }
    Ok(Some(all))
}
