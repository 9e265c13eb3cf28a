//! The rows of a list that have a date, in the order of their dates.
ghost use Rattle.std.specs.Prelude.{◌≡◌, IfOk};
ghost use Rattle.std.specs.List.Sorted.{IsPermutation};
ghost use Rattle.irs_breaks.specs.Private.Blocks.{AreRising};
ghost use Rattle.irs_breaks.specs.Pairing.{dated_row, rows_from};

use irs_base::{Day, Memory};
use std::alloc::Global;

/// A row that has a date.
#[derive(Clone, Copy, PartialEq, Eq, PartialOrd, Ord)]
pub struct DatedRow {
    /// Its date.
    pub day: Day,
    /// Its place in its list, counted from 0.
    pub place: usize,
}

/// A row of two lists that were paired: one of ours with one of theirs, or one alone.
#[derive(Clone, Copy)]
pub struct PairedRow {
    /// The date of ours, else of theirs, where it has one.
    pub day: Option<Day>,
    /// The place of the row of ours, counted from 0.
    pub ours: Option<usize>,
    /// The place of the row of theirs, counted from 0.
    pub theirs: Option<usize>,
}

// The row with its date, where it has one that isn't before `from`.
fn dated_row(from: Day, date: Option<Day>, place: usize) -> Option<DatedRow>
    ensures { result ≡ dated_row from date place }
{
    match date {
        Some(day) if from <= day => Some(DatedRow { day, place }),
        Some(_) | None => None,
    }
}

// The rows that have a date and are due, in the order of their places.
fn rows_of(alloc: Global, from: Day, dates: &[Option<Day>]) -> Result<Vec<DatedRow>, Memory>
    ensures { IfOk result (λ rows. rows.items ≡ rows_from from 0 dates.now) }
{
    let mut rows = Vec::new(alloc);
    for place in 0..dates.len() {
        if let Some(row) = dated_row(from, dates[place], place) {
            rows.push(row)?;
        }
    }
    Ok(rows)
}

/// The rows that have a date and are due, by date, and by place within one date.
pub(crate) fn rows_in_order(
    alloc: Global,
    from: Day,
    dates: &[Option<Day>],
) -> Result<Vec<DatedRow>, Memory>
    ensures rising { IfOk result (λ rows. AreRising rows.items) }
    ensures same { IfOk result (λ rows. IsPermutation (rows_from from 0 dates.now) rows.items) }
{
    let mut rows = rows_of(alloc, from, dates)?;
    rows.sort()?;
    Ok(rows)
}
