//! Daily rates of a stream's index compounded into one rate for each calculation period (2006 ISDA
//! Definitions, section 7.1, on compounded overnight rates). The product and its rounding are our
//! rule.
ghost use Rattle.std.specs.Prelude.{◌≡◌, All, List, IfOk};
ghost use Rattle.irs_base.specs.Outcomes.{IfBroken};
ghost use Rattle.irs_terms.specs.declared.places.Broken.{Broken as BrokenRule};
ghost use Rattle.irs_overnight.specs.Overnight.{IsAsked, IsFirstDerived, IsOvernight, OvernightKept, RowsReadBack};
ghost use Rattle.irs_overnight.specs.Overnight.{asked};
ghost use Rattle.irs_overnight.specs.Private.Bounds.{IsInRange};
ghost use Rattle.irs_overnight.specs.declared.derived.DerivedRow.{DerivedRow as Row};

use crate::derived::Derived;
use crate::rules::derived_rows;
use crate::streams::floating_at;
use irs_base::Stopped;
use irs_calendar::GoodDays;
use irs_resets::Fixings;
use irs_schedule::Schedule;
use irs_terms::{Broken, Swap};
use std::alloc::Global;

/// Why no rates are derived: the first broken rule, with the stream's number in its place, or memory
/// ran out.
pub type DerErr = Stopped<Broken>;

/// The rate that the daily rates of a floating stream's index give for each calculation period,
/// from its adjusted start to its adjusted end. It is in units of 10^-9, with the fixing date of
/// the period. Where a daily rate has no line of tenor 1D, the first such day comes in its place.
/// `stream` counts from 1, and `s` is the schedule of the swap without fixings. `days` are the
/// business days of the stream's reset dates.
///
/// A daily rate holds from the start of the period, or from a business day in it. It holds to the
/// next of these days, or to the end, and is observed on the day from which it holds. The first is
/// observed on the last business day at or before the start. Factors are rounded at 15 decimals, a
/// half up.
///
/// `Broken` is exactly the first of four. K42: the day count is neither ACT/360 nor ACT/365.FIXED.
/// K41: the fixing date of a period isn't after that of the period before it. K43: a day of a
/// period lies outside the cover, or no business day comes before its start. K44: all daily rates
/// of a period are there, and a factor passes 10^20 units of 10^-15 or the rate 10 in size. The
/// lowest K41 comes before the lowest period with K43 or K44. `Memory` comes where memory ran out.
pub fn overnight<G: GoodDays>(
    alloc: Global,
    s: &Schedule,
    swap: &Swap,
    stream: u8,
    days: &G,
    daily: &Fixings,
) -> Result<Derived, DerErr>
    // `check_stream` finds nothing, and schedule and business days are those of the swap.
    requires { IsAsked (asked swap.now stream s.now (G.days days.now) daily.now) }
    ensures ok { let a = asked swap.now stream s.now (G.days days.now) daily.now in IfOk result (IsOvernight a) }
    // The rows print a fixing file that has exactly their rates.
    ensures fixings { let a = asked swap.now stream s.now (G.days days.now) daily.now in IfOk result (RowsReadBack a) }
    ensures kept { let a = asked swap.now stream s.now (G.days days.now) daily.now in
        IfOk result (λ _. OvernightKept a) }
    ensures broken { let a = asked swap.now stream s.now (G.days days.now) daily.now in
        IfBroken result (IsFirstDerived a) }
    // At every exit: where no rule is broken there is a list of rates. There is at most one list,
    // and one rule that is broken first.
    ensures exists { let a = asked swap.now stream s.now (G.days days.now) daily.now in
        OvernightKept a → (rows : List Row) × IsOvernight a rows }
    ensures one { let a = asked swap.now stream s.now (G.days days.now) daily.now in
        (rows others : List Row) → IsOvernight a rows → IsOvernight a others → rows ≡ others }
    ensures one_broken { let a = asked swap.now stream s.now (G.days days.now) daily.now in
        (x y : BrokenRule) → IsFirstDerived a x → IsFirstDerived a y → x ≡ y }
{
    // hands the prover the bounds of the schedule
    s.bounds();
    numbered_rows(alloc, s, swap, stream, days, daily)
}

// The same; a broken rule is named by the number of the stream.
fn numbered_rows<G: GoodDays>(
    alloc: Global,
    s: &Schedule,
    swap: &Swap,
    stream: u8,
    days: &G,
    daily: &Fixings,
) -> Result<Derived, DerErr>
    requires { IsAsked (asked swap.now stream s.now (G.days days.now) daily.now) }
    ensures ok { let a = asked swap.now stream s.now (G.days days.now) daily.now in IfOk result (IsOvernight a) }
    ensures range { IfOk result (All IsInRange) }
    ensures kept { let a = asked swap.now stream s.now (G.days days.now) daily.now in
        IfOk result (λ _. OvernightKept a) }
    ensures broken { let a = asked swap.now stream s.now (G.days days.now) daily.now in
        IfBroken result (IsFirstDerived a) }
{
    let Some(float) = floating_at(swap, stream) else {
        unreachable!()
    };
    let part = &s.streams()[stream as usize - 1];
    match derived_rows(alloc, part, days, daily, &float.index) {
        Ok(rows) => Ok(rows),
        Err(Stopped::Broken(fault)) => Err(Stopped::Broken(fault.in_stream(stream))),
        Err(Stopped::Memory) => Err(Stopped::Memory),
    }
}
