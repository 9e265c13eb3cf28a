//! The findings of the payments of a stream.
ghost use Rattle.std.specs.Prelude.{◌≡◌, ◌+◌, ◌<◌, ◌≤◌, min, IfSome, IfOk, OnOk, length, unwrap_or};
ghost use Rattle.irs_base.specs.Lists.{Every};
ghost use Rattle.irs_breaks.specs.BreakLists.{ArePaymentsOf, payment_row_dates, stated_payment_dates, FindsPayment};
ghost use Rattle.irs_breaks.specs.BreakLists.{IsPaymentRow, member_at, payment_counts};
ghost use Rattle.irs_breaks.specs.Findings.{counts_in, EachRow};
ghost use Rattle.irs_breaks.specs.Private.Findings.{Adds, AreStarts};
ghost use Rattle.irs_breaks.specs.Pairing.{IsPlacedRow};

use crate::PairedRow;
use crate::counting::{Counts, counts_of};
use crate::fields::payment_fields;
use crate::findings::{BreakList, BreakPlace};
use crate::pairing::pair_rows;
use crate::period_breaks::push_periods;
use crate::row_breaks::{member_at, place_of, push_fields, push_ours, push_theirs};
use crate::values::FieldValues;
use irs_audit::RowKind;
use irs_base::{Day, Memory};
use irs_flows::{FlowPayment, FlowStream};
use irs_schedule::{PaymentEntry, StreamPart};
use std::alloc::Global;

// How the fields of a pair of payments are counted.
fn payment_counts(fields: &[FieldValues], bare: bool) -> Counts
    requires { length fields.now ≤ 8 }
    ensures { result ≡ payment_counts bare (counts_in fields.now) }
{
    let counts = counts_of(fields);
    Counts {
        compared: counts.compared,
        unstated: if bare {
            counts.unstated + 1
        } else {
            counts.unstated
        },
        unknown: counts.unknown,
    }
}

// Appends the findings of a pair of payments. The periods of their payment begin at place `start`.
fn push_payment_pair(
    alloc: Global,
    list: &mut BreakList,
    place: &BreakPlace,
    part: &StreamPart,
    flow: &FlowStream,
    x: &PaymentEntry,
    start: usize,
    y: &FlowPayment,
) -> Result<(), Memory>
    requires first { 0 < x.now.first_period }
    requires order { x.now.first_period ≤ x.now.last_period }
    requires last { x.now.last_period ≤ length part.now.periods }
    requires start { start ≤ length flow.now.periods }
    requires amount { IfSome x.now.amount (λ v. v.places ≤ 12) }
    ensures { OnOk result (Adds (FindsPayment place.now part.now flow.now start x.now y.now) list.old list.new) }
{
    let fields = payment_fields(part.currency(), x, y);
    let bare = y.periods == 0;
    list.push_pair(payment_counts(&fields, bare))?;
    push_fields(list, place, &fields)?;
    if bare {
        Ok(())
    } else {
        push_periods(alloc, list, place.stream, part, flow, x, start, y)
    }
}

// How many periods come before those of the payment at a place, by the places at which those of each payment
// begin.
fn start_at(starts: &[usize], place: Option<usize>) -> usize
    ensures { result ≡ unwrap_or (member_at starts.now place) 0 }
{
    match member_at(starts, place) {
        Some(start) => *start,
        None => 0,
    }
}

// Appends the findings of a row of the pairing of payments. `starts` are the places at which the calculation
// periods of each payment of theirs begin.
fn push_payment(
    alloc: Global,
    list: &mut BreakList,
    stream: usize,
    part: &StreamPart,
    flow: &FlowStream,
    starts: &[usize],
    row: &PairedRow,
) -> Result<(), Memory>
    requires placed { IsPlacedRow (length part.now.payments) (length flow.now.payments) row.now }
    requires starts { AreStarts flow.now starts.now }
    ensures { OnOk result (Adds (IsPaymentRow stream part.now flow.now row.now) list.old list.new) }
{
    let (xs, ys) = (part.payments(), flow.payments());
    let place = place_of(stream, RowKind::Payment, row, xs.len(), ys.len());
    let ours = member_at(xs, row.ours);
    let theirs = member_at(ys, row.theirs);
    match (ours, theirs) {
        (Some(x), Some(y)) => {
            push_payment_pair(
                alloc,
                list,
                &place,
                part,
                flow,
                x,
                start_at(starts, row.theirs),
                y,
            )
        }
        (Some(x), None) => push_ours(list, &place, x.amount),
        (None, Some(y)) => push_theirs(list, &place, part.currency().places(), y.amount),
        (None, None) => Ok(()),
    }
}

// The place at which the calculation periods of each payment of theirs begin.
fn first_places(alloc: Global, flow: &FlowStream) -> Result<Vec<usize>, Memory>
    ensures { IfOk result (λ starts. AreStarts flow.now starts.items) }
{
    let count = flow.periods().len();
    let mut starts = Vec::new(alloc);
    let mut next = 0;
    for payment in flow.payments() {
        starts.push(next)?;
        next = next_place(next, payment.periods, count);
    }
    Ok(starts)
}

// The place after this number of periods, at most the last one.
fn next_place(place: usize, periods: usize, count: usize) -> usize
    requires { place ≤ count }
    ensures { result ≡ min count (place + periods) }
{
    place + periods.min(count - place)
}

// Appends the findings of the rows of the pairing of payments.
fn push_payment_rows(
    alloc: Global,
    list: &mut BreakList,
    stream: usize,
    part: &StreamPart,
    flow: &FlowStream,
    rows: &[PairedRow],
) -> Result<(), Memory>
    requires { Every (IsPlacedRow (length part.now.payments) (length flow.now.payments)) rows.now }
    ensures { OnOk result (Adds (EachRow (IsPaymentRow stream part.now flow.now) rows.now) list.old list.new) }
{
    let starts = first_places(alloc, flow)?;
    for row in rows {
        push_payment(alloc, list, stream, part, flow, &starts, row)?;
    }
    Ok(())
}

/// Appends the findings of the payments of a stream that both have.
pub(crate) fn push_payments(
    alloc: Global,
    list: &mut BreakList,
    from: Day,
    stream: usize,
    part: &StreamPart,
    flow: &FlowStream,
) -> Result<(), Memory>
    ensures { OnOk result (Adds (ArePaymentsOf from stream part.now flow.now) list.old list.new) }
{
    let ours = payment_dates(alloc, part.payments())?;
    let theirs = stated_payment_dates(alloc, flow.payments())?;
    let rows = pair_rows(alloc, from, &ours, &theirs)?;
    push_payment_rows(alloc, list, stream, part, flow, &rows)?;
    Ok(())
}

fn payment_dates(alloc: Global, payments: &[PaymentEntry]) -> Result<Vec<Option<Day>>, Memory>
    ensures { IfOk result (λ dates. dates.items ≡ payment_row_dates payments.now) }
{
    let mut dates = Vec::new(alloc);
    for payment in payments {
        dates.push(Some(payment.adjusted))?;
    }
    Ok(dates)
}

fn stated_payment_dates(alloc: Global, payments: &[FlowPayment]) -> Result<Vec<Option<Day>>, Memory>
    ensures { IfOk result (λ dates. dates.items ≡ stated_payment_dates payments.now) }
{
    let mut dates = Vec::new(alloc);
    for payment in payments {
        dates.push(payment.adjusted)?;
    }
    Ok(dates)
}
