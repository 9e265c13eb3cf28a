//! The document: the streams of a schedule with their cash flows, appended token by token.
ghost use Rattle.std.specs.Prelude.{◌≡◌, ◌-◌, ◌≤◌, ◌++◌, IfOk, OnOk, map, false};
ghost use Rattle.serde_json.specs.Written.{compact_text};
ghost use Rattle.irs_json.specs.Reading.{Reads};
ghost use Rattle.irs_schedule.specs.Parts.{IsCode};
ghost use Rattle.irs_emit.specs.Private.Texts.{IsPaid, exchanges_text, is_later, listed_text};
ghost use Rattle.irs_emit.specs.RowLaws.{StatesFlows};
ghost use Rattle.irs_emit.specs.Emitted.{cashflows_value, emit_text, emit_value, exchange_value, one_period};
ghost use Rattle.irs_emit.specs.Emitted.{payment_value, period_values, stream_value};

use crate::leaves::day;
use crate::rows::{exchange, forecast, period};
use crate::writer::comma;
use irs_base::Memory;
use irs_schedule::{PaymentEntry, Schedule, StreamPart};
use std::alloc::Global;

// The principal exchanges, with a comma between them.
fn listed_exchanges(out: &mut Vec<u8>, part: &StreamPart) -> Result<(), Memory>
    ensures { OnOk result (out.new.items ≡ out.old.items
        ++ listed_text false (map exchange_value part.now.exchanges)) }
{
    let rows = part.exchanges();
    let mut later = false;
    for j in 0..rows.len() {
        comma(out, later)?;
        exchange(out, &rows[j])?;
        later = true;
    }
    Ok(())
}

// The member of the principal exchanges, where there are any.
fn exchanges(out: &mut Vec<u8>, part: &StreamPart) -> Result<(), Memory>
    ensures { OnOk result (out.new.items ≡ out.old.items ++ exchanges_text part.now.exchanges) }
{
    if part.exchanges().is_empty() {
        return Ok(());
    }
    out.extend_from_slice(b",\"principalExchange\":[")?;
    listed_exchanges(out, part)?;
    out.extend_from_slice(b"]")?;
    Ok(())
}

// The calculation period at a place, counted from 0, if there is one; and whether something is before
// the next one.
#[tactic(auto, using(crate::proofs::Bounds::period_above))]
fn one_period(
    out: &mut Vec<u8>,
    later: bool,
    part: &StreamPart,
    place: usize,
) -> Result<bool, Memory>
    ensures text { OnOk result (out.new.items ≡ out.old.items ++ listed_text later (one_period part.now place)) }
    ensures later { IfOk result (λ b. b ≡ is_later later (one_period part.now place)) }
{
    match part.period(place) {
        None => Ok(later),
        Some(x) => {
            comma(out, later)?;
            period(out, &x, part.resets().get(place))?;
            Ok(true)
        },
    }
}

// The calculation periods from a place up to another, counted from 0, with a comma between them.
fn periods(out: &mut Vec<u8>, part: &StreamPart, first: usize, last: usize) -> Result<(), Memory>
    requires { first ≤ last }
    ensures { OnOk result (out.new.items ≡ out.old.items
        ++ listed_text false (period_values part.now first (last - first))) }
{
    let mut later = false;
    for place in first..last {
        later = one_period(out, later, part, place)?;
    }
    Ok(())
}

// A payment, with the calculation periods that it pays.
fn payment(out: &mut Vec<u8>, part: &StreamPart, y: &PaymentEntry) -> Result<(), Memory>
    requires currency { IsCode part.now.currency }
    requires paid { IsPaid y.now }
    ensures { OnOk result (out.new.items ≡ out.old.items ++ compact_text (payment_value part.now y.now)) }
{
    let first = y.first_period as usize - 1;
    let last = y.last_period as usize;
    out.extend_from_slice(b"{\"adjustedPaymentDate\":")?;
    day(out, y.adjusted)?;
    out.extend_from_slice(b",\"calculationPeriod\":[")?;
    periods(out, part, first, last)?;
    out.extend_from_slice(b"],\"forecastPaymentAmount\":")?;
    forecast(out, part.currency(), y)?;
    out.extend_from_slice(b",\"unadjustedPaymentDate\":")?;
    day(out, y.unadjusted)?;
    out.extend_from_slice(b"}")?;
    Ok(())
}

// The payments, with a comma between them.
#[tactic(auto, using(crate::proofs::Bounds::paid_at))]
fn payments(out: &mut Vec<u8>, part: &StreamPart) -> Result<(), Memory>
    ensures { OnOk result (out.new.items ≡ out.old.items
        ++ listed_text false (map (payment_value part.now) part.now.payments)) }
{
    let paid = part.payments();
    let mut later = false;
    for j in 0..paid.len() {
        comma(out, later)?;
        payment(out, part, &paid[j])?;
        later = true;
    }
    Ok(())
}

// The `cashflows` of a stream.
fn cashflows(out: &mut Vec<u8>, part: &StreamPart) -> Result<(), Memory>
    ensures { OnOk result (out.new.items ≡ out.old.items ++ compact_text (cashflows_value part.now)) }
{
    out.extend_from_slice(
        b"{\"cashflowsMatchParameters\":\"true\",\"paymentCalculationPeriod\":[",
    )?;
    payments(out, part)?;
    out.extend_from_slice(b"]")?;
    exchanges(out, part)?;
    out.extend_from_slice(b"}")?;
    Ok(())
}

// A stream: its cash flows alone.
fn stream(out: &mut Vec<u8>, part: &StreamPart) -> Result<(), Memory>
    ensures { OnOk result (out.new.items ≡ out.old.items ++ compact_text (stream_value part.now)) }
{
    out.extend_from_slice(b"{\"cashflows\":")?;
    cashflows(out, part)?;
    out.extend_from_slice(b"}")?;
    Ok(())
}

// The streams, with a comma between them.
fn streams(out: &mut Vec<u8>, parts: &[StreamPart]) -> Result<(), Memory>
    ensures { OnOk result (out.new.items ≡ out.old.items ++ listed_text false (map stream_value parts.now)) }
{
    let mut later = false;
    for j in 0..parts.len() {
        comma(out, later)?;
        stream(out, &parts[j])?;
        later = true;
    }
    Ok(())
}

/// The cash flows of a schedule as a JSON document in FpML's elements. It has `swap`, and in it for
/// each stream its `cashflows` (FpML `cashflows` of an InterestRateStream). They have a row for
/// each exchange, payment and calculation period. Each field that the schedule knows is stated, and
/// no other. A date is `YYYY-MM-DD`, and an amount has the decimals of its currency. A notional has
/// 4 decimals, a rate 9 and a fraction 10, rounded to the nearest. The text is the compact one that
/// `serde_json` writes, members in the byte order of their names, with a line feed at its end.
/// `Memory` comes where memory runs out. The layout is ours.
pub fn emit_flows(alloc: Global, s: &Schedule) -> Result<Vec<u8>, Memory>
    ensures text { IfOk result (λ bytes. bytes.items ≡ emit_text s.now) }
    ensures reads { IfOk result (λ bytes. Reads bytes.items (emit_value s.now)) }
    ensures states { IfOk result (λ bytes. StatesFlows bytes.items s.now) }
{
    let mut out = Vec::new(alloc);
    out.extend_from_slice(b"{\"swap\":{\"swapStream\":[")?;
    streams(&mut out, s.streams())?;
    out.extend_from_slice(b"]}}\n")?;
    Ok(out)
}
