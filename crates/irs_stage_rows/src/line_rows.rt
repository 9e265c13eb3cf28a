//! What is reported of a line. It is one of those that `accrue`, `net` and `overnight` print, with
//! its feed as `\n`, or one that is made from its parts.
//!
//! A row says whose line it is. `accrued` has the stream's number, then `none` or the period, its
//! days, their fraction and the amount or `-`. `net` has the date, the currency, the amount and how
//! many amounts aren't known. `derived` has the period and its fixing date, the rate or `missing`
//! and a day, the tenor or `-`, and the index. `parts` has a day, a decimal, and after a `/` a
//! whole number. `numbers` has two numbers, in a line that held a text and was cleared. `path` has
//! the name of an element, whose path is reported.
ghost use Rattle.std.specs.Prelude.{◌≤◌, IfSome};
ghost use Rattle.irs_accrue.specs.Accruals.{AccrualHasPlaces};

use crate::boundaries::day;
use crate::telling::Told;
use crate::values::{amount_of, fraction_of, rate_of, tenor_of};
use irs_accrue::{Accrual, accrued_text};
use irs_base::{Dec, Line, MOST_INDEX, Text};
use irs_elements::words::currency;
use irs_net::{NetRow, NetTable, net_text};
use irs_overnight::{DerivedRow, Found, derived_text};
use irs_terms::{Elem, Frequency};
use std::alloc::Global;

// A line that holds a text already; what is reported replaces it.
fn held() -> Line {
    let mut line = Line::new();
    line.push(b"held before");
    line
}

fn printed(told: &mut Told, line: &Line) -> Option<()> {
    let text = str::from_utf8(line.bytes()).ok()?;
    told.text(text.strip_suffix('\n')?);
    told.line("\\n");
    Some(())
}

fn known_amount(text: &str) -> Option<Option<Dec>>
    ensures { IfSome result (λ amount. IfSome amount (λ v. v.places ≤ 12)) }
{
    if text == "-" {
        return Some(None);
    }
    Some(Some(amount_of(text)?))
}

fn accrual_of(text: &str) -> Option<Accrual>
    ensures { IfSome result AccrualHasPlaces }
{
    if text == "none" {
        return Some(Accrual::Outside);
    }
    let (period, rest) = text.split_once(' ')?;
    let (days, rest) = rest.split_once(' ')?;
    let (fraction, amount) = rest.split_once(' ')?;
    Some(Accrual::Inside {
        period: period.parse::<u32>().ok()?,
        days: days.parse::<i64>().ok()?,
        frac: fraction_of(fraction)?,
        amount: known_amount(amount)?,
    })
}

fn accrued_told(told: &mut Told, row: &str) -> Option<()> {
    let (stream, accrual) = row.split_once(" | ")?;
    let stream = stream.parse::<u8>().ok()?;
    let accrual = accrual_of(accrual)?;
    let mut line = held();
    accrued_text(stream, &accrual, &mut line);
    printed(told, &line)
}

fn net_row_of(text: &str) -> Option<NetRow>
    ensures { IfSome result (λ row. row.amount.places ≤ 12) }
{
    let (date, rest) = text.split_once(' ')?;
    let (letters, rest) = rest.split_once(' ')?;
    let (amount, unknown) = rest.split_once(' ')?;
    Some(NetRow {
        date: day(date)?,
        currency: currency(letters.as_bytes())?,
        amount: amount_of(amount)?,
        unknown: unknown.parse::<u32>().ok()?,
    })
}

// The line of the one row of a table.
fn net_told(told: &mut Told, alloc: Global, row: &str) -> Option<()> {
    let row = net_row_of(row)?;
    let mut table = NetTable::new(alloc);
    let Ok(()) = table.push(row) else {
        return None;
    };
    let [row] = table.as_slice() else {
        return None;
    };
    let mut line = held();
    net_text(row, &mut line);
    printed(told, &line)
}

fn found_of(text: &str) -> Option<Found> {
    match text.strip_prefix("missing ") {
        Some(date) => Some(Found::Missing(day(date)?)),
        None => Some(Found::Rate(rate_of(text)?)),
    }
}

// A row of derived rates, on a line.
fn derived_line(place: &str, found: &str, tenor: Option<Frequency>, index: &Text) -> Option<Line> {
    let (period, fixing) = place.split_once(' ')?;
    if index.len() > MOST_INDEX {
        return None;
    }
    let row = DerivedRow {
        period: period.parse::<u32>().ok()?,
        fixing: day(fixing)?,
        found: found_of(found)?,
    };
    let mut line = held();
    derived_text(&row, tenor, index, &mut line);
    Some(line)
}

fn derived_told(told: &mut Told, alloc: Global, row: &str) -> Option<()> {
    let (place, rest) = row.split_once(" | ")?;
    let (found, rest) = rest.split_once(" | ")?;
    let (tenor, index) = rest.split_once(" | ")?;
    let tenor = tenor_of(tenor)?;
    let index = Text::from_bytes(alloc, index.as_bytes()).ok()?;
    let line = derived_line(place, found, tenor, &index)?;
    printed(told, &line)
}

// The line of a day, a decimal and a whole number.
fn parts_told(told: &mut Told, row: &str) -> Option<()> {
    let (date, rest) = row.split_once(' ')?;
    let (decimal, whole) = rest.split_once('/')?;
    let date = day(date)?;
    let decimal = amount_of(decimal)?;
    let whole = whole.parse::<i128>().ok()?;
    let mut line = Line::new();
    line.push_day(date);
    line.put_dec(decimal);
    line.put_whole(b'/', whole);
    told.bytes("", line.bytes());
    told.end();
    Some(())
}

// The line of two numbers, which held a text before.
fn numbers_told(told: &mut Told, row: &str) -> Option<()> {
    let (first, second) = row.split_once(' ')?;
    let (first, second) = (first.parse::<u32>().ok()?, second.parse::<u32>().ok()?);
    let mut line = held();
    line.clear();
    line.put_number(first);
    line.put_number(second);
    told.bytes("", line.bytes());
    told.end();
    Some(())
}

// The path of the one element that rows name.
fn path_told(told: &mut Told, name: &str) -> Option<()> {
    if name != "FIXING_DATES_RELATIVE_TO" {
        return None;
    }
    told.line(Elem::FIXING_DATES_RELATIVE_TO.path());
    Some(())
}

/// The line of a row.
pub fn line_lines(told: &mut Told, alloc: Global, row: &str) -> Option<()> {
    let (kind, given) = row.split_once(" | ")?;
    match kind {
        "accrued" => accrued_told(told, given),
        "net" => net_told(told, alloc, given),
        "derived" => derived_told(told, alloc, given),
        "parts" => parts_told(told, given),
        "numbers" => numbers_told(told, given),
        "path" => path_told(told, given),
        _ => None,
    }
}
