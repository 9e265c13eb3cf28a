//! The unadjusted boundaries of a stream's calculation periods. They are the start of the first one
//! (FpML `firstPeriodStartDate`, else the effective date), every grid day of the regular span, and
//! the termination date. By the 2006 ISDA Definitions, 4.13, a Calculation Period runs from one
//! period end date, included, to the next, excluded. The limit on the number of periods is ours.
ghost use Rattle.std.specs.Prelude.{◌≡◌, ◌↔◌, ◌<◌, ◌≤◌, ◌+◌, ◌++◌, [], ◌∷◌, ℕ, ℤ, List, length, pos, neg_ℤ, ◌+ℤ◌, ◌≤ℤ◌};
ghost use Rattle.std.specs.Prelude.{IfOk};
ghost use Rattle.jiff_core.specs.Calendar.{IsBetween};
ghost use Rattle.irs_base.specs.Days.{IsDay, all_days};
ghost use Rattle.irs_base.specs.Limits.{most_periods};
ghost use Rattle.irs_base.specs.Outcomes.{Determined, IfMemory, Meets};
ghost use Rattle.irs_terms.specs.Lawful.{IsLawfulStream};
ghost use Rattle.irs_terms.specs.TermDates.{FrequencySuits, IsWholeTerm, first_day_of, DatesInOrder, termination_of};
ghost use Rattle.irs_roll.specs.Rolls.{OnGrid};
ghost use Rattle.irs_periods.specs.Boundaries.{Boundaries, BreaksPeriods, RegularEnd, RegularStart, too_many_periods};
ghost use Rattle.irs_periods.specs.Boundaries.{boundaries_of};
ghost use Rattle.irs_periods.specs.Private.Spans.{boundaries_on, days_from, where_before};
ghost use Rattle.irs_periods.specs.Spans.{SpanKept, Regular};

use crate::PerErr;
use crate::span::is_whole_term;
use irs_base::{Day, DayList, MOST_PERIODS, Memory};
use irs_roll::{Grid, StreamGrid};
use irs_terms::{Elem, Fault, Rule, Span, Stream};
use std::alloc::Global;

/// The unadjusted boundaries of a stream, in order: with n periods the n + 1 days at which they
/// begin and end. The frequency isn't T, and the stream's dates are in order (K13). The span is the
/// stream's and breaks neither K30 nor K31. The grid is that of the stream's frequency and roll
/// from the span's anchor.
///
/// `Broken` comes exactly where there are more than `MOST_PERIODS` periods (K32), also where memory
/// runs out.
pub fn boundaries<G: Grid>(
    alloc: Global,
    s: &Stream,
    span: &Span,
    grid: &G,
) -> Result<DayList, PerErr>
    requires lawful { IsLawfulStream s.now }
    requires dates { DatesInOrder s.now }
    requires timed { ¬ (IsWholeTerm s.now.freq) }
    requires span { Regular s.now span.now }
    requires kept { SpanKept s.now span.now }
    requires first { G.at grid.now (pos 0) ≡ span.now.anchor }
    requires on { (d : ℤ) → G.on grid.now d ↔ OnGrid s.now.freq s.now.roll span.now.anchor d }
    ensures meets { Meets (boundaries_of s.now span.now) result }
    // Running out of memory hides no broken rule.
    ensures memory { IfMemory result ((f : Fault) → BreaksPeriods s.now span.now f → ⊥) }
{
    let (start, steps) = regular_part(s, span, grid);
    let stubs = stub(s.first_day(), span.first) + stub(span.last, s.termination.day);
    if steps > MOST_PERIODS - stubs {
        return Err(PerErr::Broken(too_many()));
    }
    Ok(list_days(alloc, s, span, grid, start, steps)?)
}

// The first day, the grid days of the span from a number on, and the termination date.
fn list_days<G: Grid>(
    alloc: Global,
    s: &Stream,
    span: &Span,
    grid: &G,
    start: i64,
    steps: u32,
) -> Result<DayList, Memory>
    requires few { steps ≤ most_periods }
    requires near { IsBetween (neg_ℤ (pos all_days)) (pos all_days) start }
    requires days { (j : ℕ) → j ≤ steps → IsDay (G.at grid.now (start +ℤ pos j)) }
    ensures { IfOk result (λ b. b ≡ boundaries_on (G.at grid.now) start steps s.now span.now) }
{
    let list = front(alloc, s.first_day(), span.first)?;
    let list = grid_days(list, grid, start, steps + 1)?;
    close(list, span.last, s.termination.day)
}

// The number of the span's first day, and the number of steps from it to the last day.
fn regular_part<G: Grid>(s: &Stream, span: &Span, grid: &G) -> (i64, u32)
    requires lawful { IsLawfulStream s.now }
    requires dates { DatesInOrder s.now }
    requires timed { ¬ (IsWholeTerm s.now.freq) }
    requires span { Regular s.now span.now }
    requires kept { SpanKept s.now span.now }
    requires first { G.at grid.now (pos 0) ≡ span.now.anchor }
    requires on { (d : ℤ) → G.on grid.now d ↔ OnGrid s.now.freq s.now.roll span.now.anchor d }
    ensures listed { Boundaries s.now span.now (boundaries_on (G.at grid.now) result.0 result.1 s.now span.now) }
    ensures days { (j : ℕ) → j ≤ result.1 → IsDay (G.at grid.now (result.0 +ℤ pos j)) }
    ensures near { IsBetween (neg_ℤ (pos all_days)) (pos all_days) result.0 }
{
    // hands the prover the range of the days
    let _in_range = (
        span.anchor.number(),
        span.first.number(),
        span.last.number(),
    );
    let first = number_of(grid, span.first);
    let last = number_of(grid, span.last);
    (first, steps_between(first, last))
}

// The number of a day of the grid.
fn number_of<G: Grid>(grid: &G, d: Day) -> i64
    requires { G.on grid.now d }
    ensures { G.at grid.now result ≡ d }
{
    match grid.index(d) {
        Some(number) => number,
        None => unreachable!(),
    }
}

// The number of steps from one number to another.
fn steps_between(first: i64, last: i64) -> u32
    requires low { neg_ℤ (pos all_days) ≤ℤ first }
    requires order { first ≤ℤ last }
    requires high { last ≤ℤ pos all_days }
    ensures { first +ℤ pos result ≡ last }
{
    (last - first) as u32
}

// The number of periods that a stub adds between two days: one if the first comes before the second.
fn stub(from: Day, to: Day) -> u32
    ensures count { result ≡ length (where_before from to from) }
    ensures same { (d : ℤ) → result ≡ length (where_before from to d) }
    ensures most { result ≤ 1 }
{
    if from < to { 1 } else { 0 }
}

// K32, broken.
fn too_many() -> Fault
    ensures { result ≡ too_many_periods }
{
    Fault {
        rule: Rule::K32,
        elem: Elem::CALCULATION_PERIOD_FREQUENCY,
        index: 0,
    }
}

// The start of the first period alone, if it comes before the regular span.
fn front(alloc: Global, begin: Day, first: Day) -> Result<DayList, Memory>
    ensures { IfOk result (λ b. b ≡ where_before begin first begin) }
{
    let mut list = DayList::new(alloc);
    if begin < first {
        list.push(begin)?;
    }
    Ok(list)
}

// `count` days of the grid, from a number on, are appended to the list.
fn grid_days<G: Grid>(
    mut list: DayList,
    grid: &G,
    start: i64,
    count: u32,
) -> Result<DayList, Memory>
    requires near { IsBetween (neg_ℤ (pos all_days)) (pos all_days) start }
    requires days { (j : ℕ) → j < count → IsDay (G.at grid.now (start +ℤ pos j)) }
    ensures { IfOk result (λ b. b ≡ list ++ days_from (G.at grid.now) start count) }
{
    for j in 0..count {
        match grid.nth(start + i64::from(j)) {
            Some(d) => list.push(d)?,
            None => unreachable!(),
        }
    }
    Ok(list)
}

// The list, with the termination date appended if it comes after the regular span.
fn close(mut list: DayList, last: Day, termination: Day) -> Result<DayList, Memory>
    ensures { IfOk result (λ b. b ≡ list ++ where_before last termination termination) }
{
    if last < termination {
        list.push(termination)?;
    }
    Ok(list)
}

/// The unadjusted boundaries of every stream, on the grid that its terms give. For frequency T they
/// are the first day and the termination date alone. The stream's dates have to be in order (K13),
/// and its frequency and roll have to suit each other (K14). The span is the stream's and breaks
/// neither K30 nor K31.
///
/// `Broken` comes exactly where there are more than `MOST_PERIODS` periods (K32), also where memory
/// runs out.
pub fn boundaries_by(alloc: Global, s: &Stream, span: &Span) -> Result<DayList, PerErr>
    requires lawful { IsLawfulStream s.now }
    requires dates { DatesInOrder s.now }
    requires frequency { FrequencySuits s.now }
    requires span { Regular s.now span.now }
    requires kept { SpanKept s.now span.now }
    ensures meets { Meets (boundaries_of s.now span.now) result }
    // Running out of memory hides no broken rule.
    ensures memory { IfMemory result ((f : Fault) → BreaksPeriods s.now span.now f → ⊥) }
{
    if is_whole_term(s.freq) {
        Ok(whole_term(alloc, s)?)
    } else {
        boundaries(
            alloc,
            s,
            span,
            &StreamGrid::new(s.freq, s.roll, span.anchor),
        )
    }
}

/// A law: over its span a stream has one list of boundaries, or too many periods (K32).
pub fn boundaries_are_determined(s: &Stream, span: &Span)
    requires lawful { IsLawfulStream s.now }
    requires dates { DatesInOrder s.now }
    requires span { Regular s.now span.now }
    requires kept { SpanKept s.now span.now }
    ensures { Determined (boundaries_of s.now span.now) }
{}

/// A law on the regular periods. They run from boundary 0, or from boundary 1 after an initial
/// stub. They end at the last boundary, or at the last but one before a final stub.
pub fn regular_periods_lie_between_stubs(s: &Stream, span: &Span)
    requires lawful { IsLawfulStream s.now }
    requires dates { DatesInOrder s.now }
    requires span { Regular s.now span.now }
    requires kept { SpanKept s.now span.now }
    ensures start { (b : List ℤ) → Boundaries s.now span.now b → RegularStart s.now span.now b }
    ensures end { (b : List ℤ) → Boundaries s.now span.now b → RegularEnd s.now span.now b }
{}

// The ends of the term.
fn whole_term(alloc: Global, s: &Stream) -> Result<DayList, Memory>
    ensures { IfOk result (λ b. b ≡ first_day_of s.now ∷ termination_of s.now ∷ []) }
{
    let mut list = DayList::new(alloc);
    list.push(s.first_day())?;
    list.push(s.termination.day)?;
    Ok(list)
}
