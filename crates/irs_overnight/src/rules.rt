//! The rules of a stream whose daily rates are compounded: its day count, and the order of its fixing
//! dates.
ghost use Rattle.std.specs.Prelude.{◌≡◌, All, ◌<◌, ◌≤◌, ◌^◌, IfOk, IfSome, None, Some, IsTrue, length, nat_lt};
ghost use Rattle.irs_base.specs.Outcomes.{IfBroken, First, IsFirst};
ghost use Rattle.irs_terms.specs.declared.places.Fault.{Fault as BrokenRule};
ghost use Rattle.irs_overnight.specs.Overnight.{AreDerived, BreaksDerived, FixingNotAfter, derived_before, no_basis};
ghost use Rattle.irs_overnight.specs.Overnight.{fixing_not_after_at, derived_source};
ghost use Rattle.irs_overnight.specs.Private.Bounds.{IsInRange};
ghost use Rattle.irs_overnight.specs.Observations.{basis_of};

use crate::derived::Derived;
use crate::periods::period_rows;
use irs_base::{Stopped, Text};
use irs_calendar::GoodDays;
use irs_resets::Fixings;
use irs_schedule::StreamPart;
use irs_terms::{DayCountCode, Elem, Fault, Reset, Rule};
use std::alloc::Global;

// The days of the year by which daily interest counts.
fn basis_of(code: DayCountCode) -> Option<u16>
    ensures value { result ≡ basis_of code }
    ensures range { IfSome result (λ basis. (1 ≤ basis) × (basis ≤ 365)) }
{
    match code {
        DayCountCode::OneOne => None,
        DayCountCode::ActActIsda => None,
        DayCountCode::Act365Fixed => Some(365),
        DayCountCode::Act360 => Some(360),
        DayCountCode::Thirty360 => None,
        DayCountCode::ThirtyE360 => None,
        DayCountCode::ThirtyE360Isda => None,
    }
}

// K42: daily rates can't be compounded with the day count.
fn without_basis() -> Fault
    ensures { result ≡ no_basis }
{
    Fault {
        rule: Rule::K42,
        elem: Elem::DAY_COUNT_FRACTION,
        index: 0,
    }
}

/// K41, the fixing date isn't after that of the period before it, at the period with that number,
/// from 1.
pub fn unrising(number: u32) -> Fault
    ensures { result ≡ fixing_not_after_at number }
{
    Fault {
        rule: Rule::K41,
        elem: Elem::RESET_DATES,
        index: number,
    }
}

/// The number, from 1, of the lowest period whose fixing date isn't after that of the period before
/// it.
pub fn first_unrising(resets: &[Reset]) -> Option<u32>
    requires { length resets.now < 2 ^ 32 }
    ensures { IsFirst nat_lt (FixingNotAfter resets.now) result }
{
    for place in 1..resets.len() {
        if resets[place].fixing <= resets[place - 1].fixing {
            return Some(place as u32 + 1);
        }
    }
    None
}

/// The rates of a floating stream of a schedule by the daily rates of an index. `Broken` is the first
/// rule of K41 to K44 that is broken.
pub(crate) fn derived_rows<G: GoodDays>(
    alloc: Global,
    part: &StreamPart,
    days: &G,
    daily: &Fixings,
    index: &Text,
) -> Result<Derived, Stopped<Fault>>
    requires floating { IsTrue part.now.floating }
    ensures ok { let source = derived_source part.now index.now (G.days days.now) daily.now in
        IfOk result (AreDerived source) }
    ensures range { IfOk result (All IsInRange) }
    ensures kept { let source = derived_source part.now index.now (G.days days.now) daily.now in
        IfOk result (λ _. (f : BrokenRule) → BreaksDerived source f → ⊥) }
    ensures broken { let source = derived_source part.now index.now (G.days days.now) daily.now in
        IfBroken result (First derived_before (BreaksDerived source)) }
{
    let Some(basis) = basis_of(part.day_count()) else {
        return Err(Stopped::Broken(without_basis()));
    };
    if let Some(number) = first_unrising(part.resets()) {
        return Err(Stopped::Broken(unrising(number)));
    }
    period_rows(alloc, part, basis, days, daily, index)
}
