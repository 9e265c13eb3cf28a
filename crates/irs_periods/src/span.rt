//! The regular span of a stream and the anchor of its grid (FpML `firstRegularPeriodStartDate`,
//! `lastRegularPeriodEndDate`, `stubPeriodType`). Where the stub is if only its type is given is
//! our rule.
//!
//! Here E is the day on which the first period begins (FpML `firstPeriodStartDate`, else the effective
//! date), and T the termination date.
//!
//! | given | anchor | first day of the span | its last day |
//! |---|---|---|---|
//! | frequency T | E | E | T |
//! | a regular date | the span's first day | the first regular date, else E | the last regular date, else T |
//! | nothing | E | E | T |
//! | ShortInitial | T | the first grid day at or after E | T |
//! | LongInitial | T | that day if it is E, else the next grid day if it isn't after T, else T | T |
//! | ShortFinal | E | E | the last grid day at or before T |
//! | LongFinal | E | E | that day if it is T, else the grid day before it if it isn't before E, else E |
ghost use Rattle.std.specs.Prelude.{◌≡◌, ◌↔◌, false, true, pos, ◌<ℤ◌, IsTrue};
ghost use Rattle.irs_base.specs.Days.{IsDay};
ghost use Rattle.irs_base.specs.Outcomes.{Determined, MeetsExactly};
ghost use Rattle.irs_terms.specs.Lawful.{IsLawfulStream};
ghost use Rattle.irs_terms.specs.TermDates.{first_day_of, IsWholeTerm, FrequencySuits, DatesInOrder, first_day_element};
ghost use Rattle.irs_terms.specs.TermDates.{termination_of};
ghost use Rattle.irs_periods.specs.Boundaries.{HasSpan, regular_span_of};
ghost use Rattle.irs_periods.specs.Spans.{Regular, StubSpan, anchor_of, given_anchor_of, is_term, stub_anchor};
ghost use Rattle.irs_periods.specs.Spans.{anchor_element, last_element, last_off_grid, roll_misfits};
ghost use Rattle.irs_periods.specs.Private.Spans.{GivenSpanOf};

use crate::nearest::{Way, long_end, short_end};
use irs_base::Day;
use irs_roll::{Grid, StreamGrid, fits};
use irs_terms::{Elem, Fault, Frequency, Rule, Span, Stream, StubKind, Unit};

/// The regular span of a stream. The conditions are that its dates are in order (K13) and that its
/// frequency and roll suit each other (K14).
///
/// An error is the first of K30 and K31 that is broken. The frequency isn't T, and the roll doesn't
/// fit the anchor (K30) or the last day of the span isn't on the grid (K31). No memory is taken.
pub fn regular_span(s: &Stream) -> Result<Span, Fault>
    requires lawful { IsLawfulStream s.now }
    requires dates { DatesInOrder s.now }
    requires frequency { FrequencySuits s.now }
    ensures meets { MeetsExactly (regular_span_of s.now) result }
{
    if is_whole_term(s.freq) {
        return Ok(whole_term(s));
    }
    timed_span(s)
}

/// The regular span of a stream that has one: it breaks neither K30 nor K31.
pub fn span_of(s: &Stream) -> Span
    requires lawful { IsLawfulStream s.now }
    requires dates { DatesInOrder s.now }
    requires frequency { FrequencySuits s.now }
    requires span { HasSpan s.now }
    ensures { Regular s.now result }
{
    match regular_span(s) {
        Ok(span) => span,
        Err(_) => unreachable!(),
    }
}

/// A law: a stream has one regular span, or one first rule of K30 and K31 that it breaks.
pub fn regular_span_is_determined(s: &Stream)
    requires lawful { IsLawfulStream s.now }
    requires dates { DatesInOrder s.now }
    ensures { Determined (regular_span_of s.now) }
{}

/// Whether the frequency is the whole term.
pub fn is_whole_term(freq: Frequency) -> bool
    ensures test { result ≡ is_term freq.unit }
    ensures exact { IsTrue result ↔ IsWholeTerm freq }
{
    match freq.unit {
        Unit::T => true,
        Unit::D | Unit::W | Unit::M | Unit::Y => false,
    }
}

// The span of a stream whose frequency is the term.
fn whole_term(s: &Stream) -> Span
    requires { is_term s.now.freq.unit ≡ true }
    ensures { Regular s.now result }
{
    let begin = s.first_day();
    Span {
        first: begin,
        last: s.termination.day,
        anchor: begin,
    }
}

// The span of a stream whose frequency isn't the term.
fn timed_span(s: &Stream) -> Result<Span, Fault>
    requires lawful { IsLawfulStream s.now }
    requires dates { DatesInOrder s.now }
    requires frequency { FrequencySuits s.now }
    requires timed { is_term s.now.freq.unit ≡ false }
    ensures { MeetsExactly (regular_span_of s.now) result }
{
    let anchor = anchor(s);
    if !fits(s.roll, s.freq, anchor) {
        return Err(misfit(s));
    }
    let grid = StreamGrid::new(s.freq, s.roll, anchor);
    let (first, last) = ends(s, &grid);
    if !grid.on_grid(last) {
        return Err(off_grid(s));
    }
    Ok(Span {
        first,
        last,
        anchor,
    })
}

// K30 at the element of the anchor.
fn misfit(s: &Stream) -> Fault
    ensures { result ≡ roll_misfits s.now }
{
    Fault {
        rule: Rule::K30,
        elem: anchor_elem(s),
        index: 0,
    }
}

// K31 at the element of the last day.
fn off_grid(s: &Stream) -> Fault
    ensures { result ≡ last_off_grid s.now }
{
    Fault {
        rule: Rule::K31,
        elem: last_elem(s),
        index: 0,
    }
}

fn anchor(s: &Stream) -> Day
    requires { is_term s.now.freq.unit ≡ false }
    ensures { result ≡ anchor_of s.now }
{
    match (s.first_regular, s.last_regular) {
        (Some(first), _) => first,
        (None, Some(_)) => s.first_day(),
        (None, None) => anchor_by_stub(s.stub, s.first_day(), s.termination.day),
    }
}

fn anchor_by_stub(stub: Option<StubKind>, begin: Day, termination: Day) -> Day
    ensures { result ≡ stub_anchor stub begin termination }
{
    match stub {
        Some(StubKind::ShortInitial) | Some(StubKind::LongInitial) => termination,
        None | Some(StubKind::ShortFinal) | Some(StubKind::LongFinal) => begin,
    }
}

fn anchor_elem(s: &Stream) -> Elem
    ensures { result ≡ anchor_element s.now }
{
    match (s.first_regular, s.last_regular, s.stub) {
        (Some(_), _, _) => Elem::FIRST_REGULAR_PERIOD_START_DATE,
        (None, None, Some(StubKind::ShortInitial) | Some(StubKind::LongInitial)) =>
            Elem::TERMINATION_DATE,
        (None, _, _) => first_day_elem(s),
    }
}

/// The element that gives the day on which the first period begins.
pub fn first_day_elem(s: &Stream) -> Elem
    ensures { result ≡ first_day_element s.now }
{
    match &s.first_start {
        Some(_) => Elem::FIRST_PERIOD_START_DATE,
        None => Elem::EFFECTIVE_DATE,
    }
}

fn last_elem(s: &Stream) -> Elem
    ensures { result ≡ last_element s.now }
{
    match s.last_regular {
        Some(_) => Elem::LAST_REGULAR_PERIOD_END_DATE,
        None => Elem::TERMINATION_DATE,
    }
}

// The first and the last day of the span, on the grid from the stream's anchor.
fn ends<G: Grid>(s: &Stream, grid: &G) -> (Day, Day)
    requires days { IsDay (first_day_of s.now) × IsDay (termination_of s.now) }
    requires order { first_day_of s.now <ℤ termination_of s.now }
    requires anchored { G.at grid.now (pos 0) ≡ given_anchor_of s.now }
    ensures { GivenSpanOf s.now (G.on grid.now) result.0 result.1 }
{
    let begin = s.first_day();
    let termination = s.termination.day;
    match (s.first_regular, s.last_regular) {
        (Some(first), Some(last)) => (first, last),
        (Some(first), None) => (first, termination),
        (None, Some(last)) => (begin, last),
        (None, None) => stub_ends(s.stub, begin, termination, grid),
    }
}

// The same by the stub type alone.
fn stub_ends<G: Grid>(stub: Option<StubKind>, begin: Day, termination: Day, grid: &G) -> (Day, Day)
    requires days { IsDay begin × IsDay termination }
    requires order { begin <ℤ termination }
    requires anchored { G.at grid.now (pos 0) ≡ stub_anchor stub begin termination }
    ensures { StubSpan stub (G.on grid.now) begin termination result.0 result.1 }
{
    match stub {
        None => (begin, termination),
        Some(StubKind::ShortInitial) => (short_end(grid, Way::Back, begin), termination),
        Some(StubKind::LongInitial) => (long_end(grid, Way::Back, termination, begin), termination),
        Some(StubKind::ShortFinal) => (begin, short_end(grid, Way::Ahead, termination)),
        Some(StubKind::LongFinal) => (begin, long_end(grid, Way::Ahead, begin, termination)),
    }
}
