//! The first row of a stream that departs, in a stream that both the schedule and the flows have.
ghost use Rattle.std.specs.Prelude.{◌≡◌, option_copied, slice_get};
ghost use Rattle.irs_audit.specs.Verdicts.{KindDeparts, departs_before, field_before};
ghost use Rattle.irs_audit.specs.Private.Comparisons.{AmongRows, AmongStream, rows_in};
ghost use Rattle.irs_base.specs.Outcomes.{IsFirst};

use crate::row_fields::{exchange_field, payment_field, period_field, reset_field};
use crate::stated_rows::StatedRows;
use crate::{Departure, Field, RowKind};
use irs_schedule::StreamPart;

/// The item at a place, from 0, where there is one.
pub(crate) fn item<T>(items: &[T], place: usize) -> Option<&T>
    ensures { option_copied result ≡ slice_get items.now place }
{
    items.get(place)
}

fn exchange_at(ours: &StreamPart, theirs: &StatedRows<'_>, place: usize) -> Option<Field>
    ensures { IsFirst field_before (KindDeparts RowKind.Exchange ours.now (rows_in theirs.now) place) result }
{
    match (item(ours.exchanges(), place), theirs.exchange(place)) {
        (Some(x), Some(y)) => exchange_field(x, &y),
        (Some(_), None) => Some(Field::Missing),
        (None, Some(_)) => Some(Field::Extra),
        (None, None) => None,
    }
}

fn payment_at(ours: &StreamPart, theirs: &StatedRows<'_>, place: usize) -> Option<Field>
    ensures { IsFirst field_before (KindDeparts RowKind.Payment ours.now (rows_in theirs.now) place) result }
{
    match (item(ours.payments(), place), theirs.payment(place)) {
        (Some(x), Some(y)) => payment_field(ours.currency(), x, &y),
        (Some(_), None) => Some(Field::Missing),
        (None, Some(_)) => Some(Field::Extra),
        (None, None) => None,
    }
}

fn period_at(ours: &StreamPart, theirs: &StatedRows<'_>, place: usize) -> Option<Field>
    ensures { IsFirst field_before (KindDeparts RowKind.Period ours.now (rows_in theirs.now) place) result }
{
    match (ours.period(place), theirs.period(place)) {
        (Some(x), Some(y)) => period_field(&x, &y),
        (Some(_), None) => Some(Field::Missing),
        (None, Some(_)) => Some(Field::Extra),
        (None, None) => None,
    }
}

fn reset_at(ours: &StreamPart, theirs: &StatedRows<'_>, place: usize) -> Option<Field>
    ensures { IsFirst field_before (KindDeparts RowKind.Reset ours.now (rows_in theirs.now) place) result }
{
    match (item(ours.resets(), place), theirs.reset(place)) {
        (Some(x), Some(y)) => reset_field(x, &y),
        (Some(_), None) => Some(Field::Missing),
        (None, Some(_)) => Some(Field::Extra),
        (None, None) => None,
    }
}

// The first field of the rows at a place that departs.
fn row_field(
    kind: RowKind,
    ours: &StreamPart,
    theirs: &StatedRows<'_>,
    place: usize,
) -> Option<Field>
    ensures { IsFirst field_before (KindDeparts kind ours.now (rows_in theirs.now) place) result }
{
    match kind {
        RowKind::Stream => None,
        RowKind::Exchange => exchange_at(ours, theirs, place),
        RowKind::Payment => payment_at(ours, theirs, place),
        RowKind::Period => period_at(ours, theirs, place),
        RowKind::Reset => reset_at(ours, theirs, place),
    }
}

// The first departure among the rows of a kind up to the one of that number.
fn first_row(
    stream: u8,
    kind: RowKind,
    ours: &StreamPart,
    theirs: &StatedRows<'_>,
    last: u32,
) -> Option<Departure>
    ensures { IsFirst departs_before (AmongRows stream kind ours.now (rows_in theirs.now) last) result }
{
    for place in 0..last {
        if let Some(field) = row_field(kind, ours, theirs, place as usize) {
            return Some(Departure {
                stream,
                kind,
                row: place + 1,
                field,
            });
        }
    }
    None
}

/// The first departure among the rows of a stream. Where a row departs that is past the one after
/// the schedule's last, that one departs too. So does a period where a reset departs that is past
/// the schedule's last period.
pub(crate) fn first_of_rows(
    stream: u8,
    ours: &StreamPart,
    theirs: &StatedRows<'_>,
) -> Option<Departure>
    ensures { IsFirst departs_before (AmongStream stream ours.now (rows_in theirs.now)) result }
{
    let exchanges = ours.exchanges().len() as u32;
    let payments = ours.payments().len() as u32;
    let periods = ours.periods() as u32;
    first_row(stream, RowKind::Exchange, ours, theirs, exchanges + 1)
        .or(first_row(stream, RowKind::Payment, ours, theirs, payments + 1))
        .or(first_row(stream, RowKind::Period, ours, theirs, periods + 1))
        .or(first_row(stream, RowKind::Reset, ours, theirs, periods))
}
