//! Averages of a stream's rate over each calculation period (2006 ISDA Definitions, section 6.2, on
//! two or more reset dates in a calculation period). Two things are our rule: days of observation
//! follow each other by a step from the start of the period, and averages are rounded.
ghost use Rattle.std.specs.Prelude.{◌≡◌, All, List, IfOk};
ghost use Rattle.irs_base.specs.Outcomes.{IfBroken};
ghost use Rattle.irs_terms.specs.declared.places.Broken.{Broken as BrokenRule};
ghost use Rattle.irs_overnight.specs.Private.Bounds.{IsInRange};
ghost use Rattle.irs_overnight.specs.Overnight.{asked};
ghost use Rattle.irs_overnight.specs.declared.derived.DerivedRow.{DerivedRow as Row};
ghost use Rattle.irs_average.specs.Averages.{AverageKept, AverageReadsBack, IsAverage, IsAverageAsked};
ghost use Rattle.irs_average.specs.Averages.{IsFirstOfAverage, LieAmong, averaged};

use crate::mean_rows::averages;
use crate::means::Mean;
use irs_base::Stopped;
use irs_calendar::GoodDays;
use irs_overnight::{DerErr, Derived, floating_at};
use irs_resets::Fixings;
use irs_schedule::Schedule;
use irs_terms::Swap;
use std::alloc::Global;

/// The average of a floating stream's rates for each calculation period, from its adjusted start to
/// its adjusted end. It is in units of 10^-9, with the fixing date of the period. Where a rate has
/// no line, the first such day comes in its place. `stream` counts from 1, and `step` is 1 to 6,993
/// days. `s` is the schedule of the swap without fixings, and `days` are the business days of the
/// stream's reset dates.
///
/// A rate is observed every `step` days from the start of the period. Its day is the last business
/// day at or before that one. It is read in the line of the stream's index and tenor. In the weighted
/// mean it weighs the days to the next of these days, or from the last one to the end of the
/// period. The average is rounded at 9 decimals, a half up.
///
/// `Broken` is exactly the first of two. K41 is in the lowest period whose fixing date isn't after
/// that of the period before it. K43 is in the lowest period where the cover has no business day at
/// or before a day of observation. `Memory` comes where memory ran out.
pub fn average<G: GoodDays>(
    alloc: Global,
    s: &Schedule,
    swap: &Swap,
    stream: u8,
    kind: Mean,
    step: u32,
    days: &G,
    fix: &Fixings,
) -> Result<Derived, DerErr>
    // `check_stream` finds nothing, and schedule and business days are those of the swap.
    requires { IsAverageAsked (averaged (asked swap.now stream s.now (G.days days.now) fix.now) kind step) }
    ensures ok { let a = averaged (asked swap.now stream s.now (G.days days.now) fix.now) kind step in
        IfOk result (IsAverage a) }
    // The rows print a fixing file that has exactly their rates.
    ensures fixings { let a = averaged (asked swap.now stream s.now (G.days days.now) fix.now) kind step in
        IfOk result (AverageReadsBack a) }
    ensures kept { let a = averaged (asked swap.now stream s.now (G.days days.now) fix.now) kind step in
        IfOk result (λ _. AverageKept a) }
    ensures broken { let a = averaged (asked swap.now stream s.now (G.days days.now) fix.now) kind step in
        IfBroken result (IsFirstOfAverage a) }
{
    // hands the prover the bounds of the schedule
    s.bounds();
    numbered_means(alloc, s, swap, stream, kind, step, days, fix)
}

/// A law: where no rule is broken there is a list of averages. There is at most one list, and one rule
/// that is broken first.
pub fn averages_are_determined<G: GoodDays>(
    s: &Schedule,
    swap: &Swap,
    stream: u8,
    kind: Mean,
    step: u32,
    days: &G,
    fix: &Fixings,
)
    requires { IsAverageAsked (averaged (asked swap.now stream s.now (G.days days.now) fix.now) kind step) }
    ensures exists { let a = averaged (asked swap.now stream s.now (G.days days.now) fix.now) kind step in
        AverageKept a → (rows : List Row) × IsAverage a rows }
    ensures one { let a = averaged (asked swap.now stream s.now (G.days days.now) fix.now) kind step in
        (rows others : List Row) → IsAverage a rows → IsAverage a others → rows ≡ others }
    ensures one_broken { let a = averaged (asked swap.now stream s.now (G.days days.now) fix.now) kind step in
        (x y : BrokenRule) → IsFirstOfAverage a x → IsFirstOfAverage a y → x ≡ y }
{
    // hands the prover the bounds of the schedule
    s.bounds();
}

/// A law: each average lies between the least and the greatest rate that it uses.
pub fn averages_lie_among_rates<G: GoodDays>(
    s: &Schedule,
    swap: &Swap,
    stream: u8,
    kind: Mean,
    step: u32,
    days: &G,
    fix: &Fixings,
)
    ensures { let a = averaged (asked swap.now stream s.now (G.days days.now) fix.now) kind step in
        (rows : List Row) → IsAverage a rows → LieAmong a rows }
{
    // hands the prover the bounds of the schedule
    s.bounds();
}

// The same; a broken rule is named by the number of the stream.
fn numbered_means<G: GoodDays>(
    alloc: Global,
    s: &Schedule,
    swap: &Swap,
    stream: u8,
    kind: Mean,
    step: u32,
    days: &G,
    fix: &Fixings,
) -> Result<Derived, DerErr>
    requires { IsAverageAsked (averaged (asked swap.now stream s.now (G.days days.now) fix.now) kind step) }
    ensures ok { let a = averaged (asked swap.now stream s.now (G.days days.now) fix.now) kind step in
        IfOk result (IsAverage a) }
    ensures range { IfOk result (All IsInRange) }
    ensures kept { let a = averaged (asked swap.now stream s.now (G.days days.now) fix.now) kind step in
        IfOk result (λ _. AverageKept a) }
    ensures broken { let a = averaged (asked swap.now stream s.now (G.days days.now) fix.now) kind step in
        IfBroken result (IsFirstOfAverage a) }
{
    let Some(float) = floating_at(swap, stream) else {
        unreachable!()
    };
    let part = &s.streams()[stream as usize - 1];
    match averages(alloc, part, kind, step, days, fix, float) {
        Ok(rows) => Ok(rows),
        Err(Stopped::Broken(fault)) => Err(Stopped::Broken(fault.in_stream(stream))),
        Err(Stopped::Memory) => Err(Stopped::Memory),
    }
}
