//! The text of the days that make up each rate: a line for each row, between a first line and a last one. The format
//! is ours.
//!
//! `c PERIOD METHOD FACTOR` and `o PERIOD DAY WEIGHT OBSERVED RATE`: a compounded factor has 18 decimals, and a sum of
//! rates and a rate have 9. What is absent is `-`. A stub with a rate of its own is `c PERIOD stub -`.
ghost use Rattle.std.specs.Prelude.{◌≡◌, ◌+◌, ◌≤◌, [], ◌∷◌, ◌++◌, length, IfOk, OnOk};
ghost use Rattle.std.specs.List.{flat_map};
ghost use Rattle.irs_daily.specs.ObservedRows.{day_fields, number_or_dash, factor_decimals, observations_first_line};
ghost use Rattle.irs_daily.specs.ObservedRows.{method_name, observations_text, period_row_text, rate_places};
ghost use Rattle.irs_daily.specs.ObservedRows.{row_fields, row_line, stub_fields};
ghost use Rattle.irs_base.specs.Texts.{factor_places};

use crate::rows::{DayRow, ObservedRow, ObservedRows, PeriodRow};
use irs_base::{Dec, Line, Memory};
use irs_observed::DailyRateMethod;
use std::alloc::Global;

fn method_name(method: DailyRateMethod) -> &'static str
    ensures text { result.now ≡ method_name method }
    ensures short { length result.now ≤ 11 }
{
    match method {
        DailyRateMethod::Compounding(_) => "Compounding",
        DailyRateMethod::Averaging => "Averaging",
    }
}

// Appends a space and a compounded factor, or a space and `-` where there is none.
fn put_compounded(line: &mut Line, factor: Option<i128>)
    requires { length line.old + 60 ≤ 512 }
    ensures text { line.new ≡ line.old ++ 32 ∷ number_or_dash factor_places factor }
    ensures grows { length line.new ≤ length line.old + 60 }
{
    match factor {
        Some(units) => put_factor(line, units),
        None => line.put_field(b"-"),
    }
}

// Appends a space and a compounded factor.
fn put_factor(line: &mut Line, units: i128)
    requires { length line.old + 60 ≤ 512 }
    ensures text { line.new ≡ line.old ++ 32 ∷ number_or_dash factor_places (Some units) }
    ensures grows { length line.new ≤ length line.old + 60 }
{
    line.push(b" ");
    line.push_factor(units);
}

// Appends a space and a number with the decimals of a rate, or a space and `-` where there is none.
fn put_sum(line: &mut Line, sum: Option<i128>)
    requires { length line.old + 60 ≤ 512 }
    ensures text { line.new ≡ line.old ++ 32 ∷ number_or_dash rate_places sum }
    ensures grows { length line.new ≤ length line.old + 60 }
{
    match sum {
        Some(units) => line.put_dec(Dec { units, places: 9 }),
        None => line.put_field(b"-"),
    }
}

// Appends a space and a rate, or a space and `-` where there is none.
fn put_rate(line: &mut Line, rate: Option<i64>)
    requires { length line.old + 60 ≤ 512 }
    ensures text { line.new ≡ line.old ++ 32 ∷ number_or_dash rate_places rate }
    ensures grows { length line.new ≤ length line.old + 60 }
{
    match rate {
        Some(rate) => line.put_dec(Dec {
            units: i128::from(rate),
            places: 9,
        }),
        None => line.put_field(b"-"),
    }
}

// Appends a space and a factor with its decimals, or a space and `-` where there is none.
fn put_by_method(line: &mut Line, method: DailyRateMethod, factor: Option<i128>)
    requires { length line.old + 60 ≤ 512 }
    ensures text { line.new ≡ line.old ++ 32 ∷ number_or_dash (factor_decimals method) factor }
    ensures grows { length line.new ≤ length line.old + 60 }
{
    match method {
        DailyRateMethod::Compounding(_) => put_compounded(line, factor),
        DailyRateMethod::Averaging => put_sum(line, factor),
    }
}

// Writes the fields of a period to an empty line.
fn put_period(line: &mut Line, row: &PeriodRow)
    requires { line.old ≡ [] }
    ensures text { line.new ≡ period_row_text row.now }
    ensures grows { length line.new ≤ 150 }
{
    line.push(b"c");
    line.put_number(row.number);
    line.put_field(method_name(row.method).as_bytes());
    put_by_method(line, row.method, row.factor);
}

// Writes the fields of a stub with a rate of its own to an empty line.
fn put_stub(line: &mut Line, number: u32)
    requires { line.old ≡ [] }
    ensures text { line.new ≡ stub_fields number }
    ensures grows { length line.new ≤ 150 }
{
    line.push(b"c");
    line.put_number(number);
    line.push(b" stub -");
}

// Writes the fields of an observation to an empty line.
fn put_observed(line: &mut Line, row: &DayRow)
    requires { line.old ≡ [] }
    ensures text { line.new ≡ day_fields row.now }
    ensures grows { length line.new ≤ 180 }
{
    line.push(b"o");
    line.put_number(row.number);
    line.put_day(row.observation.day);
    line.put_number(row.observation.weight);
    line.put_day(row.observation.observed);
    put_rate(line, row.rate);
}

// Writes the fields of a row to an empty line.
fn put_row(line: &mut Line, row: &ObservedRow)
    requires { line.old ≡ [] }
    ensures text { line.new ≡ row_fields row.now }
    ensures grows { length line.new ≤ 180 }
{
    match row {
        ObservedRow::Daily(row) => put_period(line, row),
        ObservedRow::Stub(number) => put_stub(line, *number),
        ObservedRow::Observed(row) => put_observed(line, row),
    }
}

// Replaces what the line holds with the line of a row.
#[tactic(auto, unfolding(crate::specs::ObservedRows::row_line))]
fn row_line(row: &ObservedRow, line: &mut Line)
    ensures { line.new ≡ row_line row.now }
{
    line.clear();
    put_row(line, row);
    line.push(b"\n");
}

// The lines of the rows.
fn push_lines(text: &mut Vec<u8>, rows: &[ObservedRow]) -> Result<(), Memory>
    ensures { OnOk result (text.new.items ≡ text.old.items ++ flat_map row_line rows.now) }
{
    let mut line = Line::new();
    for row in rows {
        row_line(row, &mut line);
        text.extend_from_slice(line.bytes())?;
    }
    Ok(())
}

// The first line.
fn first_line(stream: u8) -> Line
    ensures { result ≡ observations_first_line stream }
{
    let mut line = Line::new();
    line.push(b"irs-observations 1");
    line.put_number(u32::from(stream));
    line.push(b"\n");
    line
}

/// The text of the rows of the stream with this number: the first line `irs-observations 1 STREAM`, a line for each
/// row, and the last line `end`. Each line has fewer than 512 bytes. `Memory` comes only where memory ran out.
pub fn observations_text(alloc: Global, stream: u8, rows: &ObservedRows) -> Result<Vec<u8>, Memory>
    ensures { IfOk result (λ t. t.items ≡ observations_text stream rows.now) }
{
    let mut text = Vec::from_slice(alloc, first_line(stream).bytes())?;
    push_lines(&mut text, rows.as_slice())?;
    text.extend_from_slice(b"end\n")?;
    Ok(text)
}
