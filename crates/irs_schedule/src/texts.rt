//! The text of a row: its mark and its fields, one space before each field, and a line feed.
//!
//! The format is ours. Dates are YYYY-MM-DD, amounts have the decimals of their
//! currency, notionals 4 and rates 9; what isn't known is `-`.
ghost use Rattle.std.specs.Prelude.{◌≡◌, ◌+◌, ◌<◌, ◌≤◌, [], ◌∷◌, ◌++◌, length, IfSome};
ghost use Rattle.std.specs.Fmt.{decimal, signed_decimal};
ghost use Rattle.irs_base.specs.Texts.{day_text, dec_text};
ghost use Rattle.irs_schedule.specs.RowsOf.{row_text_of, schedule_row_fields, code_text, kind_text, dec_or_dash};
ghost use Rattle.irs_schedule.specs.RowsOf.{rate_or_dash, RowHasPlaces, IsFew};

use crate::Row;
use irs_base::{Day, Dec, Line, day_digits};
use irs_terms::{DayCountCode, Frac};

/// Appends a space and a decimal, or a space and `-` where there is none.
pub fn put_optional(line: &mut Line, v: Option<Dec>)
    requires places { IfSome v IsFew }
    requires room { length line.old + 54 ≤ 512 }
    ensures text { line.new ≡ line.old ++ 32 ∷ dec_or_dash v }
    ensures grows { length line.new ≤ length line.old + 54 }
{
    match v {
        Some(v) => line.put_dec(v),
        None => line.put_field(b"-"),
    }
}

// An adjusted day. Mostly it is the unadjusted day, whose text is known already.
fn put_adjusted(line: &mut Line, adjusted: Day, unadjusted: Day, digits: &[u8; 10])
    requires same { digits.now ≡ day_text unadjusted }
    requires room { length line.old + 11 ≤ 512 }
    ensures text { line.new ≡ line.old ++ 32 ∷ day_text adjusted }
    ensures grows { length line.new ≡ length line.old + 11 }
{
    if adjusted == unadjusted {
        line.put_field(digits);
    } else {
        line.put_day(adjusted);
    }
}

// A day before and after its adjustment.
#[inline(always)]
fn put_moved(line: &mut Line, unadjusted: Day, adjusted: Day)
    requires { length line.old + 22 ≤ 512 }
    ensures text { line.new ≡ line.old ++ 32 ∷ day_text unadjusted ++ 32 ∷ day_text adjusted }
    ensures grows { length line.new ≡ length line.old + 22 }
{
    let digits = day_digits(unadjusted);
    line.put_field(&digits);
    put_adjusted(line, adjusted, unadjusted, &digits);
}

// The start and the end of a period, and both after their adjustment.
fn put_span(line: &mut Line, start: Day, end: Day, adjusted_start: Day, adjusted_end: Day)
    requires { length line.old + 44 ≤ 512 }
    ensures text { line.new ≡ line.old ++ 32 ∷ day_text start ++ 32 ∷ day_text end
        ++ 32 ∷ day_text adjusted_start ++ 32 ∷ day_text adjusted_end }
    ensures grows { length line.new ≡ length line.old + 44 }
{
    let (from, to) = (day_digits(start), day_digits(end));
    line.put_field(&from);
    line.put_field(&to);
    put_adjusted(line, adjusted_start, start, &from);
    put_adjusted(line, adjusted_end, end, &to);
}

/// Appends a space and a fraction, not reduced, as `NUMERATOR/DENOMINATOR`.
pub fn put_frac(line: &mut Line, frac: Frac)
    requires { length line.old + 82 ≤ 512 }
    ensures text { line.new ≡ line.old ++ 32 ∷ signed_decimal frac.num ++ 47 ∷ signed_decimal frac.den }
    ensures grows { length line.new ≤ length line.old + 82 }
{
    line.put_signed(b' ', frac.num);
    line.put_signed(b'/', frac.den);
}

fn put_notional(line: &mut Line, units: i128)
    requires { length line.old + 54 ≤ 512 }
    ensures text { line.new ≡ line.old ++ 32 ∷ dec_text units 4 }
    ensures grows { length line.new ≤ length line.old + 54 }
{
    line.put_dec(Dec { units, places: 4 });
}

// What a line begins with.
fn put_head(line: &mut Line, kind: &[u8], stream: u8, number: u32)
    requires empty { line.old ≡ [] }
    requires short { length kind.now ≤ 10 }
    ensures text { line.new ≡ kind.now ++ 32 ∷ decimal stream ++ 32 ∷ decimal number }
    ensures grows { length line.new ≤ 92 }
{
    line.push(kind);
    line.put_number(u32::from(stream));
    line.put_number(number);
}

fn put_rate(line: &mut Line, v: Option<i64>)
    requires { length line.old + 54 ≤ 512 }
    ensures text { line.new ≡ line.old ++ 32 ∷ rate_or_dash v }
    ensures grows { length line.new ≤ length line.old + 54 }
{
    match v {
        Some(v) => line.put_dec(Dec {
            units: i128::from(v),
            places: 9,
        }),
        None => line.put_field(b"-"),
    }
}

/// Replaces what the line holds with the text of a row and its line feed.
#[tactic(auto, unfolding(crate::specs::RowsOf::row_text_of))]
pub fn row_text(row: &Row, line: &mut Line)
    requires { RowHasPlaces row.now }
    ensures { line.new ≡ row_text_of row.now }
{
    line.clear();
    put_fields(row, line);
    line.push(b"\n");
}

// Writes the fields of a row to an empty line.
fn put_fields(row: &Row, line: &mut Line)
    requires places { RowHasPlaces row.now }
    requires empty { line.old ≡ [] }
    ensures text { line.new ≡ schedule_row_fields row.now }
    ensures fits { length line.new < 512 }
{
    match *row {
        Row::Stream {
            stream,
            currency,
            day_count,
            floating,
        } => {
            line.push(b"stream");
            line.put_number(u32::from(stream));
            line.put_field(&currency.letters);
            line.put_field(code_text(day_count).as_bytes());
            line.put_field(kind_text(floating).as_bytes());
        }
        Row::Exchange {
            stream,
            number,
            unadjusted,
            adjusted,
            amount,
        } => {
            line.push(b"x");
            line.put_number(u32::from(stream));
            line.put_number(number);
            put_moved(line, unadjusted, adjusted);
            line.put_dec(amount);
        }
        Row::Payment {
            stream,
            number,
            unadjusted,
            adjusted,
            first_period,
            last_period,
            amount,
        } => {
            line.push(b"p");
            line.put_number(u32::from(stream));
            line.put_number(number);
            put_moved(line, unadjusted, adjusted);
            line.put_number(first_period);
            line.put_number(last_period);
            put_optional(line, amount);
        }
        Row::Period {
            stream,
            number,
            start,
            end,
            adjusted_start,
            adjusted_end,
            days,
            frac,
            notional,
            rate,
        } => {
            put_head(line, b"c", stream, number);
            put_span(line, start, end, adjusted_start, adjusted_end);
            line.put_signed(b' ', days);
            put_frac(line, frac);
            put_notional(line, notional);
            put_rate(line, rate);
        }
        Row::Reset {
            stream,
            number,
            reset,
            fixing,
            observed,
        } => {
            line.push(b"r");
            line.put_number(u32::from(stream));
            line.put_number(number);
            line.put_day(reset);
            line.put_day(fixing);
            put_rate(line, observed);
        }
    }
}

fn kind_text(floating: bool) -> &'static str
    ensures text { result.now ≡ kind_text floating }
    ensures short { length result.now ≤ 5 }
{
    if floating { "float" } else { "fixed" }
}

fn code_text(code: DayCountCode) -> &'static str
    ensures text { result.now ≡ code_text code }
    ensures short { length result.now ≤ 13 }
{
    match code {
        DayCountCode::OneOne => "1/1",
        DayCountCode::ActActIsda => "ACT/ACT.ISDA",
        DayCountCode::Act365Fixed => "ACT/365.FIXED",
        DayCountCode::Act360 => "ACT/360",
        DayCountCode::Thirty360 => "30/360",
        DayCountCode::ThirtyE360 => "30E/360",
        DayCountCode::ThirtyE360Isda => "30E/360.ISDA",
    }
}
