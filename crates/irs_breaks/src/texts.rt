//! The text of the breaks: a line each, and a last line with the counts. The standard has no format for
//! breaks, so this one is our rule.
//!
//! `b STREAM KIND DATE N M WHAT OURS THEIRS`: what is absent is `-`. A value of ours is written as in the
//! text of a schedule, and a value of theirs likewise. An amount, a notional or a rate of theirs has as many
//! decimals as ours, and more only as far as its value needs them. A day count fraction of theirs has its own
//! decimals.
ghost use Rattle.std.specs.Prelude.{◌≡◌, ◌+◌, ◌<◌, ◌≤◌, ◌^◌, [], ◌∷◌, ◌++◌, length, sum_by, decimal, min, pos, IfOk, OnOk};
ghost use Rattle.std.specs.Fmt.{signed_decimal};
ghost use Rattle.std.specs.Int.{int_div_euclid, int_rem_euclid};
ghost use Rattle.std.specs.Ordering.{int_eq};
ghost use Rattle.std.specs.List.{flat_map};
ghost use Rattle.irs_base.specs.Lists.{Every};
ghost use Rattle.irs_base.specs.Texts.{day_text};
ghost use Rattle.irs_breaks.specs.BreakTexts.{break_text, breaks_text, breaks_first_line, last_line, or_dash};
ghost use Rattle.irs_breaks.specs.BreakTexts.{fraction_text, our_value, ours_text, place_fields, places_of, shortest, stated_text};
ghost use Rattle.irs_breaks.specs.BreakTexts.{their_value, theirs_text, what_name};
ghost use Rattle.irs_breaks.specs.Findings.{counted_as, IsPrintable, IsPrintableWhat, CanBeCompared};
ghost use Rattle.irs_terms.specs.declared.currency.Currency.{Currency};

use crate::counting::Counts;
use crate::findings::{Break, BreakList, BreakPlace, What};
use crate::values::{Standing, Values};
use irs_base::{Day, Dec, Line, Memory};
use irs_flows::StatedFraction;
use irs_schedule::{put_frac, put_optional};
use irs_terms::Currency;
use std::alloc::Global;

// ---- names

fn what_name(what: &What) -> &'static str
    ensures text { result.now ≡ what_name what.now }
    ensures short { length result.now ≤ 31 }
{
    match what {
        What::Missing(_) => "missing",
        What::Extra(_, _) => "extra",
        What::Undated(_, _) => "undated",
        What::Field(field) => field.field.name(),
    }
}

// ---- values

// Appends a space and a day, or a space and `-` where there is none.
fn put_day(line: &mut Line, day: &Option<Day>)
    requires { length line.old + 82 < 512 }
    ensures text { line.new ≡ line.old ++ 32 ∷ or_dash day_text day.now }
    ensures grows { length line.new ≤ length line.old + 11 }
{
    match day {
        Some(d) => line.put_day(*d),
        None => line.put_field(b"-"),
    }
}

// Appends a space and a number of days, or a space and `-` where there is none.
fn put_count(line: &mut Line, count: Option<i64>)
    requires { length line.old + 82 < 512 }
    ensures text { line.new ≡ line.old ++ 32 ∷ or_dash signed_decimal count }
    ensures grows { length line.new ≤ length line.old + 41 }
{
    match count {
        Some(n) => line.put_signed(b' ', n),
        None => line.put_field(b"-"),
    }
}

// Appends a space and a currency, or a space and `-` where there is none.
fn put_currency(line: &mut Line, currency: Option<Currency>)
    requires { length line.old + 82 < 512 }
    ensures text { line.new ≡ line.old ++ 32 ∷ or_dash (λ (c : Currency). c.letters) currency }
    ensures grows { length line.new ≤ length line.old + 4 }
{
    match currency {
        Some(c) => line.put_field(&c.letters),
        None => line.put_field(b"-"),
    }
}

fn is_round(units: i128) -> bool
    ensures { result ≡ int_eq (int_rem_euclid units (pos 10)) (pos 0) }
{
    units.rem_euclid(10) == 0
}

fn tenth(units: i128) -> i128
    ensures { result ≡ int_div_euclid units (pos 10) }
{
    units.div_euclid(10)
}

// A number of units of 10^-(places + more), without the last of the `more` decimals while they are 0.
fn shortest(more: u8, places: u8, units: i128) -> Dec
    requires { places + more ≤ 12 }
    ensures value { result ≡ shortest more places units }
    ensures few { result.places ≤ 12 }
{
    if more == 0 {
        Dec { units, places }
    } else if is_round(units) {
        shortest(more - 1, places, tenth(units))
    } else {
        Dec {
            units,
            places: places + more,
        }
    }
}

// Appends a space and a stated number in units of 10^-12, or a space and `-` where there is none.
fn put_stated(line: &mut Line, places: u8, stated: Option<i128>)
    requires places { places ≤ 12 }
    requires room { length line.old + 82 < 512 }
    ensures text { line.new ≡ line.old ++ 32 ∷ or_dash (stated_text places) stated }
    ensures grows { length line.new ≤ length line.old + 54 }
{
    match stated {
        Some(units) => line.put_dec(shortest(12 - places, places, units)),
        None => line.put_field(b"-"),
    }
}

// Appends a space and a stated fraction, or a space and `-` where there is none.
fn put_fraction(line: &mut Line, stated: Option<StatedFraction>)
    requires { length line.old + 82 < 512 }
    ensures text { line.new ≡ line.old ++ 32 ∷ or_dash fraction_text stated }
    ensures grows { length line.new ≤ length line.old + 54 }
{
    match stated {
        Some(f) => line.put_dec(Dec {
            units: f.units,
            places: f.places.min(12),
        }),
        None => line.put_field(b"-"),
    }
}

// The decimals of a number of ours.
fn places_of(number: Option<Dec>) -> u8
    ensures { result ≡ places_of number }
{
    match number {
        Some(v) => v.places,
        None => 0,
    }
}

// Appends a space and our value.
fn put_our_value(line: &mut Line, values: &Values)
    requires values { CanBeCompared values.now }
    requires room { length line.old + 82 < 512 }
    ensures text { line.new ≡ line.old ++ 32 ∷ our_value values.now }
    ensures grows { length line.new ≤ length line.old + 82 }
{
    match values {
        Values::Dates(day, _) => line.put_day(*day),
        Values::Counts(count, _) => line.put_signed(b' ', *count),
        Values::Currencies(currency, _) => line.put_field(&currency.letters),
        Values::Numbers(number, _) => put_optional(line, *number),
        Values::Fractions(frac, _) => put_frac(line, *frac),
    }
}

// Appends a space and their value.
fn put_their_value(line: &mut Line, values: &Values)
    requires values { CanBeCompared values.now }
    requires room { length line.old + 82 < 512 }
    ensures text { line.new ≡ line.old ++ 32 ∷ their_value values.now }
    ensures grows { length line.new ≤ length line.old + 82 }
{
    match values {
        Values::Dates(_, stated) => put_day(line, stated),
        Values::Counts(_, stated) => put_count(line, *stated),
        Values::Currencies(_, stated) => put_currency(line, *stated),
        Values::Numbers(number, stated) => put_stated(line, places_of(*number), *stated),
        Values::Fractions(_, stated) => put_fraction(line, *stated),
    }
}

// Appends a space and the text of our side.
fn put_ours(line: &mut Line, what: &What)
    requires what { IsPrintableWhat what.now }
    requires room { length line.old + 82 < 512 }
    ensures text { line.new ≡ line.old ++ 32 ∷ ours_text what.now }
    ensures grows { length line.new ≤ length line.old + 82 }
{
    match what {
        What::Missing(value) => put_optional(line, *value),
        What::Extra(_, _) => line.put_field(b"-"),
        What::Undated(_, _) => line.put_field(b"-"),
        What::Field(field) => put_our_value(line, &field.values),
    }
}

// Appends a space and the text of their side.
fn put_theirs(line: &mut Line, what: &What)
    requires what { IsPrintableWhat what.now }
    requires room { length line.old + 82 < 512 }
    ensures text { line.new ≡ line.old ++ 32 ∷ theirs_text what.now }
    ensures grows { length line.new ≤ length line.old + 82 }
{
    match what {
        What::Missing(_) => line.put_field(b"-"),
        What::Extra(places, value) => put_stated(line, *places, *value),
        What::Undated(places, value) => put_stated(line, *places, *value),
        What::Field(field) => put_their_value(line, &field.values),
    }
}

// ---- lines

// Appends a space and the number of a row, or a space and `-` where there is none.
fn put_number(line: &mut Line, number: Option<usize>)
    requires { length line.old + 82 < 512 }
    ensures text { line.new ≡ line.old ++ 32 ∷ or_dash decimal number }
    ensures grows { length line.new ≤ length line.old + 41 }
{
    match number {
        Some(n) => line.put_whole(b' ', n as i128),
        None => line.put_field(b"-"),
    }
}

// Writes the start of a line into an empty line: where the break is.
fn put_place(line: &mut Line, place: &BreakPlace)
    requires { line.old ≡ [] }
    ensures text { line.new ≡ place_fields place.now }
    ensures grows { length line.new ≤ 150 }
{
    line.push(b"b");
    line.put_whole(b' ', place.stream as i128);
    line.put_field(place.kind.name().as_bytes());
    put_day(line, &place.day);
    put_number(line, place.ours);
    put_number(line, place.theirs);
}

// Replaces what the line holds by the line of a break.
#[tactic(auto, unfolding(crate::specs::BreakTexts::break_text))]
fn break_text(found: &Break, line: &mut Line)
    requires { IsPrintable found.now }
    ensures text { line.new ≡ break_text found.now }
    ensures short { length line.new < 512 }
{
    line.clear();
    put_place(line, &found.place);
    line.put_field(what_name(&found.what).as_bytes());
    put_ours(line, &found.what);
    put_theirs(line, &found.what);
    line.push(b"\n");
}

// Appends the lines of the breaks.
fn push_lines(text: &mut Vec<u8>, breaks: &[Break]) -> Result<(), Memory>
    requires { Every IsPrintable breaks.now }
    ensures { OnOk result (text.new.items ≡ text.old.items ++ flat_map break_text breaks.now) }
{
    let mut line = Line::new();
    for found in breaks {
        break_text(found, &mut line);
        text.extend_from_slice(line.bytes())?;
    }
    Ok(())
}

// The first line.
fn first_line(from: &Option<Day>) -> Line
    ensures { result ≡ breaks_first_line from.now }
{
    let mut line = Line::new();
    line.push(b"irs-breaks 1");
    put_day(&mut line, from);
    line.push(b"\n");
    line
}

// How many fields of a pair are counted this way.
fn counted_as(way: Standing, counts: &Counts) -> u32
    ensures { result ≡ counted_as way counts.now }
{
    match way {
        Standing::Compared => counts.compared,
        Standing::Unstated => counts.unstated,
        Standing::Unknown => counts.unknown,
    }
}

// How many fields of all pairs are counted this way.
fn total(way: Standing, pairs: &[Counts]) -> u128
    ensures value { result ≡ sum_by (counted_as way) pairs.now }
    ensures small { result < 2 ^ 127 }
{
    let mut sum = 0;
    for counts in pairs {
        sum += u128::from(counted_as(way, counts));
    }
    sum
}

// Appends a space and a count.
fn put_total(line: &mut Line, n: u128)
    requires small { n < 2 ^ 127 }
    requires room { length line.old + 41 ≤ 512 }
    ensures text { line.new ≡ line.old ++ 32 ∷ decimal n }
    ensures grows { length line.new ≤ length line.old + 41 }
{
    line.put_whole(b' ', n as i128);
}

// The last line.
fn last_line(list: &BreakList) -> Line
    ensures { result ≡ last_line list.now }
{
    let pairs = list.pairs();
    let mut line = Line::new();
    line.push(b"end");
    put_total(&mut line, list.breaks().len() as u128);
    put_total(&mut line, pairs.len() as u128);
    put_total(&mut line, total(Standing::Compared, pairs));
    put_total(&mut line, total(Standing::Unstated, pairs));
    put_total(&mut line, total(Standing::Unknown, pairs));
    line.push(b"\n");
    line
}

/// The text of a list of breaks: the first line `irs-breaks 1 FROM`, a line for each break, and the last line
/// `end BREAKS PAIRS COMPARED UNSTATED UNKNOWN`. Each line has fewer than 512 bytes. `Memory` comes only where memory
/// ran out.
pub fn breaks_text(alloc: Global, from: &Option<Day>, list: &BreakList) -> Result<Vec<u8>, Memory>
    ensures { IfOk result (λ t. t.items ≡ breaks_text from.now list.now) }
{
    let mut text = Vec::from_slice(alloc, first_line(from).bytes())?;
    push_lines(&mut text, list.breaks())?;
    text.extend_from_slice(last_line(list).bytes())?;
    Ok(text)
}
