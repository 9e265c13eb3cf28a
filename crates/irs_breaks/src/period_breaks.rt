//! The findings of the calculation periods of a pair of payments, and of their resets.
ghost use Rattle.std.specs.Prelude.{◌≡◌, ◌+◌, ◌<◌, ◌≤◌, ◌++◌, IfSome, IfOk, OnOk, length, map, option_copied};
ghost use Rattle.std.specs.Prelude.{option_and_then, option_map, take};
ghost use Rattle.irs_audit.specs.StatedFlows.{IsBoundedFraction};
ghost use Rattle.irs_base.specs.Lists.{Every};
ghost use Rattle.irs_breaks.specs.Findings.{counts_in, notional_of, EachRow, joined_findings, one_break};
ghost use Rattle.irs_breaks.specs.Private.Findings.{Adds};
ghost use Rattle.irs_breaks.specs.Pairing.{IsPlacedRow};
ghost use Rattle.irs_breaks.specs.BreakLists.{ArePeriods, ArePeriodsOf, IsPeriodRow, FindsReset, counted_reset};
ghost use Rattle.irs_breaks.specs.BreakLists.{extra_reset, moved, our_starts, reset_place};
ghost use Rattle.irs_flows.specs.declared.flows.FlowPeriod.{FlowPeriod};
ghost use Rattle.irs_schedule.specs.RowsOf.{period_at};

use crate::PairedRow;
use crate::counting::{Counts, both, counts_of};
use crate::fields::{notional, period_fields, reset_fields};
use crate::findings::{BreakList, BreakPlace, What};
use crate::pairing::pair_rows;
use crate::row_breaks::{member_at, place_of, push_fields, push_ours, push_theirs};
use crate::values::FieldValues;
use irs_audit::RowKind;
use irs_base::{Day, Dec, Memory};
use irs_flows::{FlowPayment, FlowPeriod, FlowReset, FlowStream};
use irs_schedule::{CalculationPeriod, PaymentEntry, StreamPart};
use irs_terms::Reset;
use std::alloc::Global;

// Appends the break of a reset that is stated for a fixed stream.
fn push_extra_reset(
    list: &mut BreakList,
    place: &BreakPlace,
    stated: FlowReset,
) -> Result<(), Memory>
    ensures { OnOk result (list.new ≡ joined_findings list.old (one_break (extra_reset place.now stated))) }
{
    let place = BreakPlace {
        stream: place.stream,
        kind: RowKind::Reset,
        day: place.day,
        ours: None,
        theirs: place.theirs,
    };
    list.push_break(&place, &What::Extra(9, stated.observed))
}

// The rows of a reset are those of its pair of calculation periods.
fn reset_place(place: &BreakPlace) -> BreakPlace
    ensures { result ≡ reset_place place.now }
{
    BreakPlace {
        stream: place.stream,
        kind: RowKind::Reset,
        day: place.day,
        ours: place.ours,
        theirs: place.theirs,
    }
}

// Appends the findings of the reset of a pair of calculation periods.
fn push_reset(
    list: &mut BreakList,
    place: &BreakPlace,
    reset: Option<&Reset>,
    stated: Option<FlowReset>,
) -> Result<(), Memory>
    ensures { OnOk result (Adds (FindsReset place.now (option_copied reset.entry) stated) list.old list.new) }
{
    match (reset, stated) {
        (Some(r), stated) => push_fields(list, &reset_place(place), &reset_fields(r, stated)),
        (None, Some(y)) => push_extra_reset(list, place, y),
        (None, None) => Ok(()),
    }
}

// How the fields of a pair of periods are counted, those of its reset among them.
fn period_counts(fields: &[FieldValues], reset: Option<&Reset>, stated: Option<FlowReset>) -> Counts
    requires { length fields.now ≤ 8 }
    ensures { result ≡ counts_in (fields.now ++ counted_reset (option_copied reset.entry) stated) }
{
    match reset {
        Some(r) => both(counts_of(fields), counts_of(&reset_fields(r, stated))),
        None => counts_of(fields),
    }
}

// Appends the findings of a pair of calculation periods.
fn push_period_pair(
    list: &mut BreakList,
    place: &BreakPlace,
    reset: Option<&Reset>,
    x: &CalculationPeriod,
    y: &FlowPeriod,
) -> Result<(), Memory>
    requires { IsBoundedFraction x.now.frac }
    ensures { OnOk result (Adds (ArePeriods place.now (option_copied reset.entry) x.now y.now) list.old list.new) }
{
    let fields = period_fields(x, y);
    list.push_pair(period_counts(&fields, reset, y.reset))?;
    push_fields(list, place, &fields)?;
    push_reset(list, place, reset, y.reset)?;
    Ok(())
}

// The calculation period of ours at a place.
fn period_at(part: &StreamPart, place: Option<usize>) -> Option<CalculationPeriod>
    ensures value { result ≡ option_and_then (period_at part.now) place }
    ensures small { IfSome result (λ x. IsBoundedFraction x.frac) }
{
    match place {
        Some(n) => part.period(n),
        None => None,
    }
}

// The notional of a calculation period.
fn notional_of(x: &CalculationPeriod) -> Dec
    ensures { result ≡ notional_of x.now.notional }
{
    notional(x.notional)
}

// Appends the findings of a row of the pairing of calculation periods, with its places in the stream.
fn push_period(
    list: &mut BreakList,
    stream: usize,
    part: &StreamPart,
    flow: &FlowStream,
    row: &PairedRow,
) -> Result<(), Memory>
    requires { IsPlacedRow (length part.now.periods) (length flow.now.periods) row.now }
    ensures { OnOk result (Adds (IsPeriodRow stream part.now flow.now row.now) list.old list.new) }
{
    let ys = flow.periods();
    let place = place_of(stream, RowKind::Period, row, part.periods(), ys.len());
    let reset = member_at(part.resets(), row.ours);
    let ours = period_at(part, row.ours);
    let theirs = member_at(ys, row.theirs);
    match (ours, theirs) {
        (Some(x), Some(y)) => push_period_pair(list, &place, reset, &x, y),
        (Some(x), None) => push_ours(list, &place, Some(notional_of(&x))),
        (None, Some(y)) => push_theirs(list, &place, 4, y.notional),
        (None, None) => Ok(()),
    }
}

// A place in a longer list of `count` rows, which begins `before` rows earlier.
fn moved_place(before: usize, count: usize, place: Option<usize>) -> Option<usize>
    requires { IfSome (option_map (λ n. before + n) place) (λ n. n < count) }
    ensures { result ≡ option_map (λ n. before + n) place }
{
    match place {
        Some(n) => Some(before + n),
        None => None,
    }
}

// A row with its places in longer lists of `counts` rows, which begin `before` rows earlier.
fn moved(before: (usize, usize), counts: (usize, usize), row: &PairedRow) -> PairedRow
    requires { IsPlacedRow counts.0 counts.1 (moved before.0 before.1 row.now) }
    ensures { result ≡ moved before.0 before.1 row.now }
{
    PairedRow {
        day: row.day,
        ours: moved_place(before.0, counts.0, row.ours),
        theirs: moved_place(before.1, counts.1, row.theirs),
    }
}

// Appends the findings of the rows of the pairing of the periods of a payment.
fn push_period_rows(
    list: &mut BreakList,
    stream: usize,
    part: &StreamPart,
    flow: &FlowStream,
    before: (usize, usize),
    rows: &[PairedRow],
) -> Result<(), Memory>
    requires { Every (λ m. IsPlacedRow (length part.now.periods) (length flow.now.periods) (moved before.0 before.1 m)) rows.now }
    ensures { OnOk result (Adds (EachRow (λ m. IsPeriodRow stream part.now flow.now (moved before.0 before.1 m)) rows.now) list.old list.new) }
{
    let counts = (part.periods(), flow.periods().len());
    for row in rows {
        push_period(list, stream, part, flow, &moved(before, counts, row))?;
    }
    Ok(())
}

// The adjusted starts of the periods of a payment of ours.
fn our_starts(
    alloc: Global,
    part: &StreamPart,
    x: &PaymentEntry,
) -> Result<Vec<Option<Day>>, Memory>
    requires first { 0 < x.now.first_period }
    requires order { x.now.first_period ≤ x.now.last_period }
    requires last { x.now.last_period ≤ length part.now.periods }
    ensures { IfOk result (λ dates. dates.items ≡ our_starts part.now x.now) }
{
    let starts = &part.adjusted()[x.first_period as usize - 1..x.last_period as usize];
    let mut dates = Vec::new(alloc);
    for start in starts {
        dates.push(Some(*start))?;
    }
    Ok(dates)
}

// The stated adjusted starts of the first of these periods of theirs.
fn their_starts(
    alloc: Global,
    periods: &[FlowPeriod],
    count: usize,
) -> Result<Vec<Option<Day>>, Memory>
    ensures { IfOk result (λ dates. dates.items ≡ map (λ (y : FlowPeriod). y.adjusted_start) (take count periods.now)) }
{
    let few = periods.len().min(count);
    let mut dates = Vec::new(alloc);
    for period in &periods[..few] {
        dates.push(period.adjusted_start)?;
    }
    Ok(dates)
}

/// Appends the findings of the calculation periods of a pair of payments. Theirs begin at a place.
pub(crate) fn push_periods(
    alloc: Global,
    list: &mut BreakList,
    stream: usize,
    part: &StreamPart,
    flow: &FlowStream,
    x: &PaymentEntry,
    start: usize,
    y: &FlowPayment,
) -> Result<(), Memory>
    requires first { 0 < x.now.first_period }
    requires order { x.now.first_period ≤ x.now.last_period }
    requires last { x.now.last_period ≤ length part.now.periods }
    requires start { start ≤ length flow.now.periods }
    ensures { OnOk result (Adds (ArePeriodsOf stream part.now flow.now x.now start y.now) list.old list.new) }
{
    let ours = our_starts(alloc, part, x)?;
    let theirs = their_starts(alloc, &flow.periods()[start..], y.periods)?;
    let rows = pair_rows(alloc, Day::earliest(), &ours, &theirs)?;
    let before = (x.first_period as usize - 1, start);
    push_period_rows(list, stream, part, flow, before, &rows)?;
    Ok(())
}
