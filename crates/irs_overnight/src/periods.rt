//! The rate of a calculation period by its daily rates.
ghost use Rattle.std.specs.Prelude.{◌≡◌, ◌≤◌, All, Some, IfOk, IfSome, IfNone, IsTrue, ◌<ℤ◌, ◌-ℤ◌};
ghost use Rattle.irs_base.specs.Outcomes.{IfBroken, First};
ghost use Rattle.irs_resets.specs.Resets.{IsPeriod};
ghost use Rattle.irs_overnight.specs.Overnight.{derived_period_at, AreDerived, IsDerivedRow, BreaksPeriod};
ghost use Rattle.irs_overnight.specs.Overnight.{derived_before, period_fault, derived_source, fixing_at};
ghost use Rattle.irs_overnight.specs.Private.Bounds.{IsSmall, IsInRange, FirstWay, NoneFails};
ghost use Rattle.irs_overnight.specs.Observations.{DerivedPassesLimit, FindsRate, IsFound, basis_of, daily_lines};
ghost use Rattle.irs_overnight.specs.Texts.{IsSmallFound};
ghost use Rattle.irs_base.specs.Days.{IsDay};
ghost use Rattle.irs_overnight.specs.declared.periods.PeriodFault.{PeriodFault as WayToFail};

use crate::derived::{Derived, DerivedRow, Found};
use crate::factors::compounded_rate;
use crate::observations::{Observation, observations};
use crate::starts::days_between;
use irs_base::{Day, Stopped, Text};
use irs_calendar::GoodDays;
use irs_resets::Fixings;
use irs_schedule::StreamPart;
use irs_terms::{Elem, Fault, Rule};
use std::alloc::Global;

/// Why a period has no rate.
#[derive(Clone, Copy)]
pub(crate) enum PeriodFault {
    /// Its observations lack a day.
    NoDays,
    /// A factor or the rate passes its limit.
    OutOfRange,
}

// What the observations of a period give.
fn period_found(basis: u16, start: Day, end: Day, observations: &[Observation]) -> Option<Found>
    requires order { start <ℤ end }
    requires range { (1 ≤ basis) × (basis ≤ 365) }
    requires small { All IsSmall observations.now }
    ensures some { IfSome result (IsFound basis (end -ℤ start) observations.now) }
    ensures size { IfSome result IsSmallFound }
    ensures kept { IfSome result (λ _. DerivedPassesLimit basis (end -ℤ start) observations.now → ⊥) }
    ensures none { IfNone result (DerivedPassesLimit basis (end -ℤ start) observations.now) }
{
    compounded_rate(basis, days_between(start, end), observations)
}

// The rate of a period, or its first day without a daily rate.
fn period_rate<G: GoodDays>(
    alloc: Global,
    days: &G,
    start: Day,
    end: Day,
    basis: u16,
    daily: &Fixings,
    index: &Text,
) -> Result<Found, Stopped<PeriodFault>>
    requires order { start <ℤ end }
    requires range { (1 ≤ basis) × (basis ≤ 365) }
    ensures ok { let p = derived_period basis (daily_lines daily.now index.now) (G.days days.now) start end in
        IfOk result (FindsRate p) }
    ensures size { IfOk result IsSmallFound }
    ensures kept { let p = derived_period basis (daily_lines daily.now index.now) (G.days days.now) start end in
        IfOk result (λ _. NoneFails p) }
    ensures broken { let p = derived_period basis (daily_lines daily.now index.now) (G.days days.now) start end in
        IfBroken result (FirstWay p) }
{
    let Some(observations) = observations(alloc, days, start, end, daily, index)? else {
        return Err(Stopped::Broken(PeriodFault::NoDays));
    };
    match period_found(basis, start, end, &observations) {
        Some(found) => Ok(found),
        None => Err(Stopped::Broken(PeriodFault::OutOfRange)),
    }
}

// The rule that a period breaks.
fn broken_by(why: PeriodFault, index: u32) -> Fault
    ensures { result ≡ period_fault why index }
{
    match why {
        PeriodFault::NoDays => Fault {
            rule: Rule::K43,
            elem: Elem::RESET_DATES,
            index,
        },
        PeriodFault::OutOfRange => Fault {
            rule: Rule::K44,
            elem: Elem::CALCULATION_PERIOD_AMOUNT,
            index,
        },
    }
}

/// The fixing date of a period of a floating stream, counted from 1.
pub fn fixing_date(part: &StreamPart, number: usize) -> Day
    requires floating { IsTrue part.now.floating }
    requires period { IsPeriod part.now.adjusted number }
    ensures value { result ≡ fixing_at part.now.resets number }
    ensures day { IsDay result }
{
    let fixing = part.resets()[number - 1].fixing;
    // hands the prover the range of the fixing date
    let _number = fixing.number();
    fixing
}

// The row of a period, counted from 1.
fn period_row<G: GoodDays>(
    alloc: Global,
    part: &StreamPart,
    number: usize,
    basis: u16,
    days: &G,
    daily: &Fixings,
    index: &Text,
) -> Result<DerivedRow, Stopped<Fault>>
    requires floating { IsTrue part.now.floating }
    requires basis { basis_of part.now.day_count ≡ Some basis }
    requires range { (1 ≤ basis) × (basis ≤ 365) }
    requires period { IsPeriod part.now.adjusted number }
    ensures ok { let source = derived_source part.now index.now (G.days days.now) daily.now in
        IfOk result (IsDerivedRow source number) }
    ensures range { IfOk result IsInRange }
    ensures kept { let source = derived_source part.now index.now (G.days days.now) daily.now in
        IfOk result (λ _. NoneFails (derived_period_at source basis number)) }
    ensures broken { let source = derived_source part.now index.now (G.days days.now) daily.now in
        IfBroken result (λ f. (why : WayToFail) × FirstWay (derived_period_at source basis number) why
        × (f ≡ period_fault why number)) }
{
    let adjusted = part.adjusted();
    let fixing = fixing_date(part, number);
    let (start, end) = (adjusted[number - 1], adjusted[number]);
    match period_rate(alloc, days, start, end, basis, daily, index) {
        Ok(found) => Ok(DerivedRow {
            period: number as u32,
            fixing,
            found,
        }),
        Err(Stopped::Broken(why)) => Err(Stopped::Broken(broken_by(why, number as u32))),
        Err(Stopped::Memory) => Err(Stopped::Memory),
    }
}

/// One row for each period. `Broken` is the lowest period with K43 or K44, K43 first.
pub(crate) fn period_rows<G: GoodDays>(
    alloc: Global,
    part: &StreamPart,
    basis: u16,
    days: &G,
    daily: &Fixings,
    index: &Text,
) -> Result<Derived, Stopped<Fault>>
    requires floating { IsTrue part.now.floating }
    requires basis { basis_of part.now.day_count ≡ Some basis }
    requires range { (1 ≤ basis) × (basis ≤ 365) }
    ensures ok { let source = derived_source part.now index.now (G.days days.now) daily.now in
        IfOk result (AreDerived source) }
    ensures range { IfOk result (All IsInRange) }
    ensures kept { let source = derived_source part.now index.now (G.days days.now) daily.now in
        IfOk result (λ _. (f : BrokenRule) → BreaksPeriod source f → ⊥) }
    ensures broken { let source = derived_source part.now index.now (G.days days.now) daily.now in
        IfBroken result (First derived_before (BreaksPeriod source)) }
{
    let mut rows = Derived::new(alloc);
    for number in 1..part.adjusted().len() {
        let row = period_row(alloc, part, number, basis, days, daily, index)?;
        rows.push(row)?;
    }
    Ok(rows)
}

ghost use Rattle.irs_terms.specs.declared.places.Fault.{Fault as BrokenRule};
ghost use Rattle.irs_overnight.specs.Observations.{derived_period};
