//! The calendar of `bulk`.
ghost use Rattle.std.specs.Prelude.{◌≡◌, ◌<◌, ◌≤◌, ◌++◌, length, IfOk, OnOk};
ghost use Rattle.irs_base.specs.Limits.{most_bytes};
ghost use Rattle.irs_bulk.specs.BulkRuns.{calendar_text, holidays_text};

use crate::digits::{put, put_date};
use irs_base::Memory;
use std::alloc::Global;

// Appends the two holidays of a year.
fn put_holidays(text: &mut Vec<u8>, year: u32) -> Result<(), Memory>
    requires { year < 10_000 }
    ensures { OnOk result (text.new.items ≡ text.old.items ++ holidays_text year) }
{
    put_date(text, year, 1, 1)?;
    put(text, "\n")?;
    put_date(text, year, 12, 25)?;
    put(text, "\n")
}

/// The calendar file of `bulk`, in a format of ours. Its one centre is BULK, from 1949-01-01 to
/// 2012-12-31. It is closed on Saturdays, Sundays, and each first of January and 25th of December.
/// `Memory` comes only where memory ran out.
#[tactic(auto, using(crate::proofs::CalendarLengths::calendar_short), unfolding(crate::specs::BulkRuns::calendar_text))]
pub fn bulk_calendar(alloc: Global) -> Result<Vec<u8>, Memory>
    ensures value { IfOk result (λ text. text.items ≡ calendar_text) }
    ensures short { length calendar_text ≤ most_bytes }
{
    let mut text = Vec::from_slice(
        alloc,
        b"center BULK\ncover 1949-01-01 2012-12-31\nweekend SAT SUN\n",
    )?;
    for year in 1949..2013 {
        put_holidays(&mut text, year)?;
    }
    Ok(text)
}
