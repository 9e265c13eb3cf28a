//! The crates as a library. A document becomes a schedule, of which two rows are printed. Then come
//! the next payment after a day in each stream, and the verdict on another party's cash flows. The
//! page docs/LIBRARY.md goes through it step by step.
#![tactic(auto)]

ghost use Rattle.irs_schedule.specs.RowsOf.{RowHasPlaces};

use anyhow::{Context, Result, bail};
use irs_audit::{Verdict, audit};
use irs_base::{Day, Line, read_date};
use irs_calendar::Calendars;
use irs_flows::read_flows;
use irs_json::parse;
use irs_read::read_swap;
use irs_resets::Fixings;
use irs_rules::check_terms;
use irs_schedule::{PaymentEntry, Row, Schedule, make_schedule, row_text};
use std::alloc::Global;
use std::fs;

/// The day after which a payment is sought.
const TODAY: &str = "2024-08-01";

// Steps 1 to 6: from the bytes of a document to its schedule. There are no calendars and no fixings, as
// no date of this document is adjusted and its rate is fixed.
fn schedule_of(alloc: Global, document: &[u8]) -> Result<Schedule> {
    let value = parse(alloc, document)?;
    let swap = read_swap(alloc, &value)?;
    let calendars = Calendars::read(alloc, &[])?;
    let fixings = Fixings::none();
    match check_terms(&swap, &calendars) {
        Some(_) => bail!("the terms break a rule"),
        None => Ok(make_schedule(alloc, &swap, &calendars, &fixings)?),
    }
}

// A row of the schedule, as its text has it; the line is used again for each row.
fn print_row(rt: &HostRuntime, row: &Row, line: &mut Line) -> Result<()>
    requires { RowHasPlaces row.now }
{
    row_text(row, line);
    print!(rt; "{}", str::from_utf8(line.bytes())?)?;
    Ok(())
}

// The first two rows: the header of the first stream and what falls due first.
fn print_first_rows(rt: &HostRuntime, schedule: &Schedule) -> Result<()> {
    let mut line = Line::new();
    let mut rows = schedule.rows();
    if let Some(row) = rows.next() {
        print_row(rt, &row, &mut line)?;
    }
    if let Some(row) = rows.next() {
        print_row(rt, &row, &mut line)?;
    }
    Ok(())
}

// The first payment of a stream that is due after a day, by its adjusted date; payments are in
// order.
fn next_payment(payments: &[PaymentEntry], today: Day) -> Option<&PaymentEntry> {
    payments.iter().find(|payment| today < payment.adjusted)
}

// The line of a payment that is due: its date as the schedule's text has it.
fn print_due(rt: &HostRuntime, payment: &PaymentEntry) -> Result<()> {
    let mut line = Line::new();
    line.push_day(payment.adjusted);
    let date = str::from_utf8(line.bytes())?;
    println!(rt; "next payment: {date}, for period {}", payment.first_period)?;
    Ok(())
}

// What the audit says of the bytes of another party's cash flows.
fn print_verdict(rt: &HostRuntime, schedule: &Schedule, flows: &[u8]) -> Result<()> {
    let value = parse(rt.alloc(), flows)?;
    match audit(schedule, &read_flows(rt.alloc(), &value)?) {
        Verdict::Yes { rows, .. } => println!(rt; "the flows agree in {rows} rows")?,
        Verdict::No(departure) => println!(rt; "the flows depart in row {}", departure.row)?,
    }
    Ok(())
}

fn main(rt: HostRuntime) -> Result<()> {
    let schedule = schedule_of(rt.alloc(), &fs::read(&rt, "B.json")?)?;
    print_first_rows(&rt, &schedule)?;
    let today = read_date(TODAY.as_bytes()).context("no such day")?;
    for part in schedule.streams() {
        if let Some(payment) = next_payment(part.payments(), today) {
            print_due(&rt, payment)?;
        }
    }
    print_verdict(&rt, &schedule, &fs::read(&rt, "flows.json")?)
}
