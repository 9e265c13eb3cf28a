//! The schedule of a swap, or the first broken rule of dates and amounts. The schedule has the
//! boundaries, payments, exchanges, resets and amounts of each stream (2006 ISDA Definitions, articles
//! 4, 5, 6 and 8).
ghost use Rattle.std.specs.Prelude.{◌≡◌, IfOk, List, ℕ, Some, slice_get, ◌+◌};
ghost use Rattle.irs_base.specs.Outcomes.{Only, Determined, Meets, RefusesNothing, refused_as};
ghost use Rattle.irs_terms.specs.Faults.{in_stream};
ghost use Rattle.irs_terms.specs.declared.places.Broken.{Broken as BrokenRule};
ghost use Rattle.irs_terms.specs.Lawful.{IsLawfulSwap, IsLawfulStream};
ghost use Rattle.irs_terms.specs.declared.stream.Stream.{Stream as StreamTerms};
ghost use Rattle.irs_calendar.specs.declared.sections.Section.{Section};
ghost use Rattle.irs_rules.specs.TermsRules.{TermsKept, BreaksTerms};
ghost use Rattle.irs_schedule.specs.Private.Layouts.{HasSwap, sets_of};
ghost use Rattle.irs_schedule.specs.Schedules.{schedule_of, stream_of, IsSchedule};
ghost use Rattle.irs_schedule.specs.Parts.{KeepsBounds, Part};

use crate::Schedule;
use crate::center_table::{CenterTable, StreamDays};
use crate::stream::stream_part;
use crate::streams::StreamPart;
use irs_base::{Memory, Stopped};
use irs_calendar::Calendars;
use irs_resets::Fixings;
use irs_terms::{Broken, Stream, Swap};
use std::alloc::Global;

/// Why there is no schedule: the first broken rule of K30 to K39 and K48, or memory ran out. The rule
/// is that of the first stream that breaks one. Within a stream the order is span, periods, payments,
/// steps, exchanges, resets, amounts.
pub type SchedErr = Stopped<Broken>;

/// The schedule of a lawful swap that breaks no rule of its terms. Its dates use the good business days of the
/// calendars, and its rates the observed rates of the fixings.
///
/// `Broken` is the first of K30 to K39 and K48 that is broken, with the stream's number in the place.
pub fn make_schedule(
    alloc: Global,
    swap: &Swap,
    cal: &Calendars,
    fix: &Fixings,
) -> Result<Schedule, SchedErr>
    requires lawful { IsLawfulSwap swap.now }
    // `check_terms` finds nothing.
    requires terms { (f : BrokenRule) → BreaksTerms swap.now cal.now f → ⊥ }
    ensures meets { Meets (schedule_of swap.now cal.now fix.now) result }
    ensures ok { IfOk result (IsSchedule swap.now cal.now fix.now) }
{
    let table = CenterTable::new(alloc, swap, cal)?;
    schedule_by(alloc, swap, &table, fix)
}

/// The good business days of the lists of centres that a lawful swap names, which breaks no rule of its terms.
/// `make_schedule_by` needn't look up these lists again for another swap. `Memory` comes only where memory ran
/// out.
pub fn find_centers<'cal, 'swap>(
    alloc: Global,
    swap: &'swap Swap,
    cal: &'cal Calendars,
) -> Result<CenterTable<'cal, 'swap>, Memory>
    requires lawful { IsLawfulSwap swap.now }
    requires terms { (f : BrokenRule) → BreaksTerms swap.now cal.now f → ⊥ }
    ensures { IfOk result (λ t. t.sections ≡ cal.now) }
{
    let table = CenterTable::new(alloc, swap, cal)?;
    Ok(table)
}

/// What `make_schedule` gives with the calendars of the table. Where the table has each list of centres that the
/// swap names, none is looked up again.
pub fn make_schedule_by(
    alloc: Global,
    swap: &Swap,
    table: &CenterTable<'_, '_>,
    fix: &Fixings,
) -> Result<Schedule, SchedErr>
    requires lawful { IsLawfulSwap swap.now }
    requires terms { (f : BrokenRule) → BreaksTerms swap.now table.now.sections f → ⊥ }
    ensures meets { Meets (schedule_of swap.now table.now.sections fix.now) result }
    ensures ok { IfOk result (IsSchedule swap.now table.now.sections fix.now) }
{
    if table.has_swap(swap) {
        schedule_by(alloc, swap, table, fix)
    } else {
        make_schedule(alloc, swap, table.calendars(), fix)
    }
}

/// A law: a swap has one schedule, or one first rule that it breaks. Where it breaks none, exactly one
/// list of parts is its schedule.
pub fn schedule_is_determined(swap: &Swap, cal: &Calendars, fix: &Fixings)
    requires lawful { IsLawfulSwap swap.now }
    requires terms { (f : BrokenRule) → BreaksTerms swap.now cal.now f → ⊥ }
    ensures outcome { Determined (schedule_of swap.now cal.now fix.now) }
    ensures only { RefusesNothing (schedule_of swap.now cal.now fix.now)
        → (s : List Part) × Only (IsSchedule swap.now cal.now fix.now) s }
{}

// The schedule by a table of the good business days.
fn schedule_by(
    alloc: Global,
    swap: &Swap,
    table: &CenterTable<'_, '_>,
    fix: &Fixings,
) -> Result<Schedule, SchedErr>
    requires lawful { IsLawfulSwap swap.now }
    requires kept { (i : ℕ) (s : StreamTerms) → slice_get swap.now.streams i ≡ Some s → TermsKept table.now.sections s }
    requires table { HasSwap table.now.sections swap.now table.now }
    ensures { Meets (schedule_of swap.now table.now.sections fix.now) result }
{
    let mut parts = Vec::new(alloc);
    for (i, stream) in swap.streams.as_slice().iter().enumerate() {
        let days = table.stream_days(stream);
        let part = numbered_part(alloc, stream, &days, fix, i as u8 + 1)?;
        parts.push(part)?;
    }
    Ok(Schedule::of_parts(parts))
}

// The part of the stream with that number, which a broken rule is reported with.
fn numbered_part(
    alloc: Global,
    s: &Stream,
    days: &StreamDays<'_>,
    fix: &Fixings,
    number: u8,
) -> Result<StreamPart, SchedErr>
    requires lawful { IsLawfulStream s.now }
    requires kept { (cal : List Section) × TermsKept cal s.now }
    ensures meets { Meets (refused_as (in_stream number) (stream_of (sets_of days.now) fix.now s.now)) result }
    ensures bounds { IfOk result KeepsBounds }
{
    match stream_part(alloc, s, days, fix) {
        Ok(part) => Ok(part),
        Err(Stopped::Broken(fault)) => Err(Stopped::Broken(fault.in_stream(number))),
        Err(Stopped::Memory) => Err(Stopped::Memory),
    }
}
