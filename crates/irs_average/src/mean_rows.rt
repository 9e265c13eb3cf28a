//! The averages of a stream, one for each calculation period.
ghost use Rattle.std.specs.Prelude.{◌≡◌, ◌≤◌, All, IfOk, IfSome, IfNone, IsTrue, ◌<ℤ◌};
ghost use Rattle.irs_base.specs.Outcomes.{IfBroken, First};
ghost use Rattle.irs_terms.specs.declared.places.Fault.{Fault as BrokenRule};
ghost use Rattle.irs_resets.specs.Resets.{IsPeriod};
ghost use Rattle.irs_overnight.specs.Overnight.{derived_before};
ghost use Rattle.irs_overnight.specs.Texts.{IsSmallFound};
ghost use Rattle.irs_overnight.specs.Private.Bounds.{IsInRange};
ghost use Rattle.irs_average.specs.Averages.{FindsMean, AreMeans, IsMeanRow, BreaksMeans, BreaksSamples};
ghost use Rattle.irs_average.specs.Averages.{LacksSampleDay, lacking_at, averaging_by, mean_period, mean_period_at};
ghost use Rattle.irs_average.specs.Averages.{mean_source, own_lines};

use crate::means::{Mean, mean_found};
use crate::samples::{Steps, samples};
use irs_base::{Day, Memory, Stopped};
use irs_calendar::GoodDays;
use irs_overnight::{
    Derived, DerivedRow, Found, days_between, first_unrising, fixing_date, unrising,
};
use irs_resets::Fixings;
use irs_schedule::StreamPart;
use irs_terms::{Elem, Fault, FloatTerms, Rule};
use std::alloc::Global;

// The mean of a period, or its first day whose rate is missing; `None` where an observation has no
// day.
fn period_mean<G: GoodDays>(
    alloc: Global,
    kind: Mean,
    step: u32,
    days: &G,
    fix: &Fixings,
    float: &FloatTerms,
    start: Day,
    end: Day,
) -> Result<Option<Found>, Memory>
    requires order { start <ℤ end }
    requires some { 1 ≤ step }
    ensures some { let by = averaging_by kind step (G.days days.now) (own_lines fix.now float.now) in
        IfOk result (λ o. IfSome o (FindsMean (mean_period by start end))) }
    ensures small { IfOk result (λ o. IfSome o IsSmallFound) }
    ensures unbroken { let by = averaging_by kind step (G.days days.now) (own_lines fix.now float.now) in
        IfOk result (λ o. IfSome o (λ _. LacksSampleDay (mean_period by start end) → ⊥)) }
    ensures none { let by = averaging_by kind step (G.days days.now) (own_lines fix.now float.now) in
        IfOk result (λ o. IfNone o (LacksSampleDay (mean_period by start end))) }
{
    let steps = Steps::of(start, end, step);
    match samples(alloc, days, fix, float, &steps)? {
        Some(observations) => Ok(Some(mean_found(kind, days_between(start, end), &observations))),
        None => Ok(None),
    }
}

// The row of a period, counted from 1; `None` where an observation has no day.
fn mean_row<G: GoodDays>(
    alloc: Global,
    part: &StreamPart,
    number: usize,
    kind: Mean,
    step: u32,
    days: &G,
    fix: &Fixings,
    float: &FloatTerms,
) -> Result<Option<DerivedRow>, Memory>
    requires floating { IsTrue part.now.floating }
    requires period { IsPeriod part.now.adjusted number }
    requires some { 1 ≤ step }
    ensures some { let by = averaging_by kind step (G.days days.now) (own_lines fix.now float.now) in
        IfOk result (λ o. IfSome o (IsMeanRow (mean_source part.now by) number)) }
    ensures range { IfOk result (λ o. IfSome o IsInRange) }
    ensures unbroken { let by = averaging_by kind step (G.days days.now) (own_lines fix.now float.now) in
        IfOk result (λ o. IfSome o (λ _. LacksSampleDay (mean_period_at (mean_source part.now by) number) → ⊥)) }
    ensures none { let by = averaging_by kind step (G.days days.now) (own_lines fix.now float.now) in
        IfOk result (λ o. IfNone o (LacksSampleDay (mean_period_at (mean_source part.now by) number))) }
{
    let adjusted = part.adjusted();
    let fixing = fixing_date(part, number);
    let (start, end) = (adjusted[number - 1], adjusted[number]);
    match period_mean(alloc, kind, step, days, fix, float, start, end)? {
        Some(found) => Ok(Some(DerivedRow {
            period: number as u32,
            fixing,
            found,
        })),
        None => Ok(None),
    }
}

// K43 of the period with that number.
fn lacking(number: u32) -> Fault
    ensures { result ≡ lacking_at number }
{
    Fault {
        rule: Rule::K43,
        elem: Elem::RESET_DATES,
        index: number,
    }
}

// One row for each period. `Broken` is the lowest K43.
fn mean_rows<G: GoodDays>(
    alloc: Global,
    part: &StreamPart,
    kind: Mean,
    step: u32,
    days: &G,
    fix: &Fixings,
    float: &FloatTerms,
) -> Result<Derived, Stopped<Fault>>
    requires floating { IsTrue part.now.floating }
    requires some { 1 ≤ step }
    ensures ok { let by = averaging_by kind step (G.days days.now) (own_lines fix.now float.now) in
        IfOk result (AreMeans (mean_source part.now by)) }
    ensures range { IfOk result (All IsInRange) }
    ensures kept { let by = averaging_by kind step (G.days days.now) (own_lines fix.now float.now) in
        IfOk result (λ _. (f : BrokenRule) → BreaksSamples (mean_source part.now by) f → ⊥) }
    ensures broken { let by = averaging_by kind step (G.days days.now) (own_lines fix.now float.now) in
        IfBroken result (First derived_before (BreaksSamples (mean_source part.now by))) }
{
    let mut rows = Derived::new(alloc);
    for number in 1..part.adjusted().len() {
        let found = mean_row(alloc, part, number, kind, step, days, fix, float)?;
        let Some(row) = found else {
            return Err(Stopped::Broken(lacking(number as u32)));
        };
        rows.push(row)?;
    }
    Ok(rows)
}

/// The averages of a floating stream of a schedule. `Broken` is the lowest K41, else the lowest
/// K43.
pub(crate) fn averages<G: GoodDays>(
    alloc: Global,
    part: &StreamPart,
    kind: Mean,
    step: u32,
    days: &G,
    fix: &Fixings,
    float: &FloatTerms,
) -> Result<Derived, Stopped<Fault>>
    requires floating { IsTrue part.now.floating }
    requires some { 1 ≤ step }
    ensures ok { let by = averaging_by kind step (G.days days.now) (own_lines fix.now float.now) in
        IfOk result (AreMeans (mean_source part.now by)) }
    ensures range { IfOk result (All IsInRange) }
    ensures kept { let by = averaging_by kind step (G.days days.now) (own_lines fix.now float.now) in
        IfOk result (λ _. (f : BrokenRule) → BreaksMeans (mean_source part.now by) f → ⊥) }
    ensures broken { let by = averaging_by kind step (G.days days.now) (own_lines fix.now float.now) in
        IfBroken result (First derived_before (BreaksMeans (mean_source part.now by))) }
{
    if let Some(number) = first_unrising(part.resets()) {
        return Err(Stopped::Broken(unrising(number)));
    }
    mean_rows(alloc, part, kind, step, days, fix, float)
}
