//! The document: the streams of a schedule with their cash flows, in FpML's elements.
ghost use Rattle.std.specs.Prelude.{◌≡◌, ◌++◌, ◌-◌, ◌≤◌, IfOk, OnOk, map};
ghost use Rattle.irs_emit.specs.Emitted.{emit_value};
ghost use Rattle.irs_emit.specs.Private.Texts.{IsPaid};
ghost use Rattle.irs_emit_xml.specs.Flows.{cashflows_node, exchange_node, flows_text, one_period_nodes, payment_node};
ghost use Rattle.irs_emit_xml.specs.Flows.{period_nodes, stream_node, StatesInXml};
ghost use Rattle.irs_emit_xml.specs.Private.Flows.{lines};
ghost use Rattle.irs_emit_xml.specs.Trees.{ones, node_text};
ghost use Rattle.irs_xml.specs.Document.{XmlReads};

use crate::leaves::day;
use crate::rows::{exchange, forecast, period};
use crate::writer::{begin, close_tag, leaf, open_tag};
use irs_base::Memory;
use irs_schedule::{PaymentEntry, Schedule, StreamPart};
use std::alloc::Global;

/// The level of the root.
const ROOT: u8 = 0;

/// The level of a stream.
const STREAM: u8 = 1;

/// The level of the cash flows of a stream.
const CASHFLOWS: u8 = 2;

/// The level of a payment.
const PAYMENT: u8 = 3;

// The principal exchanges.
fn exchanges(out: &mut Vec<u8>, part: &StreamPart) -> Result<(), Memory>
    ensures { OnOk result (out.new.items ≡ out.old.items ++ lines 3 (map exchange_node part.now.exchanges)) }
{
    let rows = part.exchanges();
    for j in 0..rows.len() {
        exchange(out, &rows[j])?;
    }
    Ok(())
}

// The calculation period at a place, counted from 0, if there is one.
#[tactic(auto, using(irs_emit::proofs::Bounds::period_above))]
fn one_period(out: &mut Vec<u8>, part: &StreamPart, place: usize) -> Result<(), Memory>
    ensures { OnOk result (out.new.items ≡ out.old.items ++ lines 4 (one_period_nodes part.now place)) }
{
    match part.period(place) {
        None => Ok(()),
        Some(x) => {
            period(out, &x, part.resets().get(place))?;
            Ok(())
        },
    }
}

// The calculation periods from a place up to another, counted from 0.
fn periods(out: &mut Vec<u8>, part: &StreamPart, first: usize, last: usize) -> Result<(), Memory>
    requires { first ≤ last }
    ensures { OnOk result (out.new.items ≡ out.old.items ++ lines 4 (period_nodes part.now first (last - first))) }
{
    for place in first..last {
        one_period(out, part, place)?;
    }
    Ok(())
}

// A payment, with the calculation periods that it pays.
#[tactic(auto, unfolding(crate::specs::Flows::payment_node))]
fn payment(out: &mut Vec<u8>, part: &StreamPart, y: &PaymentEntry) -> Result<(), Memory>
    requires { IsPaid y.now }
    ensures { OnOk result (out.new.items ≡ out.old.items ++ node_text 3 (payment_node part.now y.now)) }
{
    let first = y.first_period as usize - 1;
    let last = y.last_period as usize;
    open_tag(out, PAYMENT, "paymentCalculationPeriod")?;
    day(out, PAYMENT + 1, "unadjustedPaymentDate", y.unadjusted)?;
    day(out, PAYMENT + 1, "adjustedPaymentDate", y.adjusted)?;
    periods(out, part, first, last)?;
    forecast(out, part.currency(), y)?;
    close_tag(out, PAYMENT, "paymentCalculationPeriod")?;
    Ok(())
}

// The payments.
fn payments(out: &mut Vec<u8>, part: &StreamPart) -> Result<(), Memory>
    ensures { OnOk result (out.new.items ≡ out.old.items ++ lines 3 (map (payment_node part.now) part.now.payments)) }
{
    let paid = part.payments();
    for j in 0..paid.len() {
        payment(out, part, &paid[j])?;
    }
    Ok(())
}

// The `cashflows` of a stream.
#[tactic(auto, unfolding(crate::specs::Flows::cashflows_node))]
fn cashflows(out: &mut Vec<u8>, part: &StreamPart) -> Result<(), Memory>
    ensures { OnOk result (out.new.items ≡ out.old.items ++ node_text 2 (cashflows_node part.now)) }
{
    open_tag(out, CASHFLOWS, "cashflows")?;
    leaf(out, CASHFLOWS + 1, "cashflowsMatchParameters", b"true")?;
    exchanges(out, part)?;
    payments(out, part)?;
    close_tag(out, CASHFLOWS, "cashflows")?;
    Ok(())
}

// A stream: its cash flows alone.
#[tactic(auto, unfolding(crate::specs::Flows::stream_node))]
fn stream(out: &mut Vec<u8>, part: &StreamPart) -> Result<(), Memory>
    ensures { OnOk result (out.new.items ≡ out.old.items ++ node_text 1 (stream_node part.now)) }
{
    open_tag(out, STREAM, "swapStream")?;
    cashflows(out, part)?;
    close_tag(out, STREAM, "swapStream")?;
    Ok(())
}

// The streams.
fn streams(out: &mut Vec<u8>, parts: &[StreamPart]) -> Result<(), Memory>
    ensures { OnOk result (out.new.items ≡ out.old.items ++ lines 1 (map stream_node parts.now)) }
{
    for j in 0..parts.len() {
        stream(out, &parts[j])?;
    }
    Ok(())
}

/// The cash flows of a schedule as a document in XML. In its root `swap` each stream has its
/// `cashflows` (FpML `cashflows` of an InterestRateStream). Elements are in the order of FpML's schema.
/// There is one for each field that the schedule knows, and no other. A date is `YYYY-MM-DD`, and an
/// amount has the decimals of its currency. A notional has 4 decimals, a rate 9 and a fraction 10,
/// rounded to the nearest. Read as XML the document means what `emit_flows` of irs_emit writes as
/// JSON, where each array of one value is that value. `Memory` comes where memory runs out. The
/// layout is ours.
pub fn emit_xml(alloc: Global, s: &Schedule) -> Result<Vec<u8>, Memory>
    ensures text { IfOk result (λ bytes. bytes.items ≡ flows_text s.now) }
    ensures reads { IfOk result (λ bytes. XmlReads bytes.items (ones (emit_value s.now))) }
    ensures states { IfOk result (λ bytes. StatesInXml bytes.items s.now) }
{
    let mut out = Vec::new(alloc);
    begin(&mut out, "swap")?;
    streams(&mut out, s.streams())?;
    close_tag(&mut out, ROOT, "swap")?;
    Ok(out)
}
