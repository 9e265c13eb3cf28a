//! A run of `bulk`: the schedules of its documents, added up.
//!
//! The calendar is read once, and its centre looked up once. A document's own faults are reported before
//! those of the calendar, as `schedule` reports them. The memory of one document is freed before the next.
ghost use Rattle.std.specs.Prelude.{◌≡◌, ◌<◌, ◌≤◌, ◌^◌, [], ◌∷◌, map, IfErr, IfOk, IfSome};
ghost use Rattle.irs_terms.specs.Lawful.{IsLawfulSwap};
ghost use Rattle.irs_answers.specs.Due.{SpellsTask, found_of, one_schedule_of, Ends, MeetsTask, RefusedBy};
ghost use Rattle.irs_answers.specs.Forms.{json_text};
ghost use Rattle.irs_answers.specs.Private.Outcomes.{IfAnswered};
ghost use Rattle.irs_answers.specs.Messages.{reply_status, reply_text};
ghost use Rattle.irs_answers.specs.declared.tasks.Task.TheVariants.{Schedule as OfSchedule};
ghost use Rattle.irs_bulk.specs.BulkRuns.{calendar_text, AreRunTotals, line_text, DueBulk, IsOneBulk, files_of};
ghost use Rattle.irs_bulk.specs.BulkRuns.{schedule_at, total_at, totals_to, agree_of, first_departing_row, one_total};
ghost use Rattle.irs_bulk.specs.Private.BulkRuns.{IsCalendar, IsTable};
ghost use Rattle.irs_bulk.specs.Documents.{bulk_document_text, most_bulk};

use crate::summing::sums_of;
use crate::{Totals, bulk_calendar, bulk_doc, bulk_text};
use irs_answers::{Form, Refusal, Reply, Source, read_document};
use irs_audit::{Verdict, audit_stated};
use irs_base::{Line, Memory};
use irs_calendar::{CalErr, Calendars};
use irs_read::read_swap;
use irs_resets::Fixings;
use irs_rules::check_terms;
use irs_schedule::{CenterTable, Schedule, find_centers, make_schedule_by};
use irs_terms::Swap;
use std::alloc::Global;

/// What `bulk N` comes to; the command is ours. For each k from 1 to N it makes the schedule of
/// document k and that of its plain form. The calendar is that of their centre, and there are no
/// fixings. Where one of them can't be made, the reply is what `schedule` prints for the first such k.
/// It is that of the document where it has no schedule, otherwise that of its plain form. Else the
/// status is 0 and the text is the line of the sums. They are payments and calculation periods, amounts and days
/// of the documents' schedules. AGREE counts the schedules that agree with the flows that state their
/// plain schedule. FIRST adds up the numbers of the first rows that depart in the others. `Memory`
/// comes only where memory ran out.
pub fn bulk(alloc: Global, n: u32) -> Result<Reply, Memory>
    requires { n ≤ most_bulk }
    ensures due { IfOk result (λ r. Ends (DueBulk n) (reply_status r) (reply_text r)) }
    ensures one { IsOneBulk n }
{
    match run(alloc, n) {
        Ok(reply) => Ok(reply),
        Err(refusal) => refusal.reply(),
    }
}

// The reply of a run, or why there is none.
fn run(alloc: Global, n: u32) -> Result<Reply, Refusal>
    requires { n ≤ most_bulk }
    ensures { IfAnswered result (Ends (DueBulk n)) }
{
    let calendars = calendars(alloc);
    let sample = sample(alloc);
    let days = days_by(alloc, &calendars, &sample);
    let totals = totals(alloc, n, &days)?;
    Ok(Reply::Text(line(alloc, &totals)?))
}

fn line(alloc: Global, totals: &Totals) -> Result<Vec<u8>, Memory>
    requires { AreRunTotals totals.now }
    ensures { IfOk result (λ t. t.items ≡ line_text totals.now) }
{
    let mut line = Line::new();
    bulk_text(totals, &mut line);
    Ok(Vec::from_slice(alloc, line.bytes())?)
}

// The sums over the documents 1 to n, or what is due for the first without a schedule.
fn totals(
    alloc: Global,
    n: u32,
    days: &Result<CenterTable<'_, '_>, CalErr>,
) -> Result<Totals, Refusal>
    requires few { n ≤ most_bulk }
    requires calendar { IsTable days.now }
    ensures meets { MeetsTask (totals_to n) result }
    ensures run { IfOk result AreRunTotals }
{
    let mut totals = Totals::none();
    for before in 0..n {
        match one_total(alloc, before + 1, days) {
            Ok(more) => totals = totals.with(more),
            Err(refusal) => return Err(refusal),
        }
    }
    Ok(totals)
}

// The calendar of all documents, or why it can't be read.
fn calendars(alloc: Global) -> Result<Calendars, CalErr>
    ensures { IsCalendar result }
{
    match calendar_files(alloc) {
        Ok(files) => Calendars::read(alloc, &files),
        Err(Memory) => Err(CalErr::Memory),
    }
}

// The swap of document 2, which names the centre as most documents do; none where memory ran out.
fn sample(alloc: Global) -> Option<Swap>
    ensures { IfSome result IsLawfulSwap }
{
    match swap_at(alloc, 2, false) {
        Ok(swap) => Some(swap),
        Err(_) => None,
    }
}

// The good business days of the centre, by the calendar, or why it can't be read.
fn days_by<'a>(
    alloc: Global,
    calendars: &'a Result<Calendars, CalErr>,
    sample: &'a Option<Swap>,
) -> Result<CenterTable<'a, 'a>, CalErr>
    requires calendar { IsCalendar calendars.now }
    requires lawful { IfSome sample.now IsLawfulSwap }
    ensures { IsTable result }
{
    match calendars {
        Ok(calendars) => Ok(table_by(alloc, calendars, sample)),
        Err(fault) => Err(*fault),
    }
}

// The good business days of the centres that the sample names, where there is one.
fn table_by<'a>(
    alloc: Global,
    calendars: &'a Calendars,
    sample: &'a Option<Swap>,
) -> CenterTable<'a, 'a>
    requires { IfSome sample.now IsLawfulSwap }
    ensures { result.sections ≡ calendars.now }
{
    match sample {
        Some(swap) => table_of(alloc, calendars, swap),
        None => CenterTable::none(alloc, calendars),
    }
}

// The good business days of the centres that a swap names; none where its terms break a rule or memory ran out.
fn table_of<'a>(alloc: Global, calendars: &'a Calendars, swap: &'a Swap) -> CenterTable<'a, 'a>
    requires { IsLawfulSwap swap.now }
    ensures { result.sections ≡ calendars.now }
{
    match check_terms(swap, calendars) {
        Some(_) => CenterTable::none(alloc, calendars),
        None => match find_centers(alloc, swap, calendars) {
            Ok(table) => table,
            Err(Memory) => CenterTable::none(alloc, calendars),
        },
    }
}

// The calendar files: one, of the centre BULK.
fn calendar_files(alloc: Global) -> Result<Vec<Vec<u8>>, Memory>
    ensures { IfOk result (λ files. map (λ f. f.items) files.items ≡ calendar_text ∷ []) }
{
    let mut files = Vec::new(alloc);
    files.push(bulk_calendar(alloc)?)?;
    Ok(files)
}

// What document k adds, or what is due for it where it has no schedule, or its plain form has none.
fn one_total(
    alloc: Global,
    k: u32,
    days: &Result<CenterTable<'_, '_>, CalErr>,
) -> Result<Totals, Refusal>
    requires low { 0 < k }
    requires high { k ≤ most_bulk }
    requires calendar { IsTable days.now }
    ensures meets { MeetsTask (total_at k) result }
    ensures run { IfOk result AreRunTotals }
    ensures one { IfOk result (λ t. t.documents ≡ 1) }
{
    let schedule = schedule_at(alloc, k, false, days)?;
    let plain = schedule_at(alloc, k, true, days)?;
    Ok(totals_by(&schedule, audit_stated(&schedule, &plain)))
}

// The schedule of document k, or of its plain form; or what `schedule` says where there is none.
fn schedule_at(
    alloc: Global,
    k: u32,
    plain: bool,
    days: &Result<CenterTable<'_, '_>, CalErr>,
) -> Result<Schedule, Refusal>
    requires low { 0 < k }
    requires high { k ≤ most_bulk }
    requires calendar { IsTable days.now }
    ensures { MeetsTask (schedule_at plain k) result }
{
    let swap = swap_at(alloc, k, plain)?;
    match days {
        Ok(days) => schedule_by(alloc, &swap, days, &Fixings::none()),
        Err(fault) => Err(Refusal::Calendars(*fault)),
    }
}

// The schedule of a swap, or the first broken rule of K10 to K39.
fn schedule_by(
    alloc: Global,
    swap: &Swap,
    days: &CenterTable<'_, '_>,
    fixings: &Fixings,
) -> Result<Schedule, Refusal>
    requires { IsLawfulSwap swap.now }
    ensures { MeetsTask (one_schedule_of swap.now days.now.sections fixings.now) result }
{
    match check_terms(swap, days.calendars()) {
        Some(broken) => Err(Refusal::Rule(broken)),
        None => Ok(make_schedule_by(alloc, swap, days, fixings)?),
    }
}

// The swap of document k, or of its plain form; or what `schedule` says where there is none.
fn swap_at(alloc: Global, k: u32, plain: bool) -> Result<Swap, Refusal>
    requires low { 0 < k }
    requires high { k ≤ most_bulk }
    ensures spells { IfOk result (λ swap. SpellsTask OfSchedule (json_text (bulk_document_text plain k)) swap None) }
    ensures lawful { IfOk result IsLawfulSwap }
    ensures refused { IfErr result (λ r. RefusedBy (found_of OfSchedule (files_of plain k)) r) }
{
    let bytes = bulk_doc(alloc, k, plain)?;
    let form = Form::Json;
    let document = read_document(alloc, &Source { form, bytes })?;
    Ok(read_swap(alloc, &document)?)
}

// What is added up of one schedule, and of a verdict on flows against it.
fn totals_by(schedule: &Schedule, verdict: Verdict) -> Totals
    ensures value { result ≡ one_total schedule.now verdict }
    ensures run { AreRunTotals result }
{
    let sums = sums_of(schedule);
    Totals {
        documents: 1,
        rows: u64::from(sums.rows),
        total: sums.total,
        days: sums.days,
        agree: agree_of(verdict),
        first: first_of(verdict),
    }
}

// 1 where the flows agree.
fn agree_of(verdict: Verdict) -> u32
    ensures value { result ≡ agree_of verdict }
    ensures few { result ≤ 1 }
{
    match verdict {
        Verdict::Yes { .. } => 1,
        Verdict::No(_) => 0,
    }
}

// The number of the first row that departs, 0 where none does.
fn first_of(verdict: Verdict) -> u64
    ensures value { result ≡ first_departing_row verdict }
    ensures small { result < 2 ^ 32 }
{
    match verdict {
        Verdict::Yes { .. } => 0,
        Verdict::No(departure) => u64::from(departure.row),
    }
}
