//! The text of `accrue`: what has accrued on a day, a line a stream. No standard has such a text, so its
//! format is our rule.
ghost use Rattle.std.specs.Prelude.{◌≡◌, ◌+◌, ◌<◌, Some, length, slice_get, IfOk};
ghost use Rattle.irs_base.specs.Outcomes.{Only};
ghost use Rattle.irs_schedule.specs.Parts.{Part};
ghost use Rattle.irs_accrue.specs.Accruals.{AccrualHasPlaces};
ghost use Rattle.irs_answers.specs.Tasks.{AccruesAt, TellsAccrued, accrued_header, accruing};
ghost use Rattle.irs_answers.specs.Private.Outcomes.{IsAccruing};

use crate::due::Found;
use irs_accrue::{Accrual, accrued_of, accrued_text};
use irs_base::{Day, Line, Memory};
use irs_schedule::applicable_days;
use std::alloc::Global;

/// What has accrued on a day in each stream.
pub(crate) fn accrued_page(alloc: Global, found: &Found<'_>, date: Day) -> Result<Vec<u8>, Memory>
    requires { IsAccruing (accruing found.now.swap found.now.calendars.now found.now.fixings.now) found.now.schedule }
    ensures { let x = accruing found.now.swap found.now.calendars.now found.now.fixings.now in
        IfOk result (λ t. TellsAccrued date x found.now.schedule t.items) }
{
    let mut text = header(alloc, date)?;
    let mut line = Line::new();
    for index in 0..found.schedule.stream_count() {
        let accrual = accrual_in(alloc, found, index, date)?;
        accrued_text(index + 1, &accrual, &mut line);
        text.extend_from_slice(line.bytes())?;
    }
    text.extend_from_slice(b"end\n")?;
    Ok(text)
}

// What has accrued on a day in the stream at a place.
fn accrual_in(alloc: Global, found: &Found<'_>, index: u8, date: Day) -> Result<Accrual, Memory>
    requires files { IsAccruing (accruing found.now.swap found.now.calendars.now found.now.fixings.now) found.now.schedule }
    requires place { index < length found.now.schedule }
    ensures accrues { let x = accruing found.now.swap found.now.calendars.now found.now.fixings.now in
        (p : Part) → slice_get found.now.schedule index ≡ Some p
        → IfOk result (Only (AccruesAt x date (index + 1) p)) }
    ensures places { IfOk result AccrualHasPlaces }
{
    let place = index as usize;
    let stream = &found.swap.streams.as_slice()[place];
    let part = &found.schedule.streams()[place];
    let days = applicable_days(alloc, found.calendars, stream)?;
    accrued_of(alloc, stream, &days, found.fixings, part, date)
}

fn header(alloc: Global, date: Day) -> Result<Vec<u8>, Memory>
    ensures { IfOk result (λ t. t.items ≡ accrued_header date) }
{
    let mut line = Line::new();
    line.push(b"irs-accrued 1 ");
    line.push_day(date);
    line.push(b"\n");
    Ok(Vec::from_slice(alloc, line.bytes())?)
}
