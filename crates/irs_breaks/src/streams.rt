//! The list of the breaks between a schedule and cash flows.
//!
//! Streams come in order. In each stream the exchanges come first, then the payments. A pair of payments is
//! followed by its calculation periods, and a pair of periods by its reset. Within a kind the rows come in
//! the order of the pairing. The standard has no such list; its order is our rule.
ghost use Rattle.std.specs.Prelude.{◌≡◌, max, IfOk, OnOk, length, option_copied};
ghost use Rattle.irs_breaks.specs.BreakLists.{IsBreakList, IsStream, StreamAt, first_due, whole_stream};
ghost use Rattle.irs_breaks.specs.Findings.{Findings, IsPrintableWhat, UpTo, joined_findings};
ghost use Rattle.irs_breaks.specs.Private.Findings.{Adds};

use crate::exchange_breaks::push_exchanges;
use crate::findings::{BreakList, BreakPlace, What};
use crate::payment_breaks::push_payments;
use irs_audit::RowKind;
use irs_base::{Day, Memory};
use irs_flows::{FlowStream, Flows};
use irs_schedule::{Schedule, StreamPart};
use std::alloc::Global;

// Appends the finding of a stream that only one side has.
fn push_stream(list: &mut BreakList, stream: usize, what: What) -> Result<(), Memory>
    requires { IsPrintableWhat what }
    ensures { OnOk result (list.new ≡ joined_findings list.old (whole_stream stream what)) }
{
    let place = BreakPlace {
        stream,
        kind: RowKind::Stream,
        day: None,
        ours: None,
        theirs: None,
    };
    list.push_break(&place, &what)
}

// Appends the findings of a stream of ours and one of theirs, each where there is one.
fn push_both(
    alloc: Global,
    list: &mut BreakList,
    from: Day,
    stream: usize,
    ours: Option<&StreamPart>,
    theirs: Option<&FlowStream>,
) -> Result<(), Memory>
    ensures { OnOk result (Adds (IsStream from stream (option_copied ours.entry) (option_copied theirs.entry)) list.old list.new) }
{
    match (ours, theirs) {
        (Some(part), Some(flow)) => {
            push_exchanges(alloc, list, from, stream, part, flow)?;
            push_payments(alloc, list, from, stream, part, flow)
        }
        (Some(_), None) => push_stream(list, stream, What::Missing(None)),
        (None, Some(_)) => push_stream(list, stream, What::Extra(0, None)),
        (None, None) => Ok(()),
    }
}

// The first day to be compared: the earliest possible day where none is named.
fn first_due(from: &Option<Day>) -> Day
    ensures { result ≡ first_due from.now }
{
    match from {
        Some(day) => *day,
        None => Day::earliest(),
    }
}

// Appends the findings of the streams, in order.
fn push_streams(
    alloc: Global,
    list: &mut BreakList,
    from: Day,
    ours: &[StreamPart],
    theirs: &[FlowStream],
) -> Result<(), Memory>
    ensures { OnOk result (Adds (UpTo (StreamAt from ours.now theirs.now) (max (length ours.now) (length theirs.now))) list.old list.new) }
{
    let count = ours.len().max(theirs.len());
    for place in 0..count {
        push_both(
            alloc,
            list,
            from,
            place + 1,
            ours.get(place),
            theirs.get(place),
        )?;
    }
    Ok(())
}

/// The breaks between a schedule and cash flows, and how the fields of each pair of rows are counted. With a day as
/// `from` the exchanges and payments before it are left aside, on both sides. `Memory` comes only where memory ran out.
pub fn breaks(
    alloc: Global,
    from: &Option<Day>,
    schedule: &Schedule,
    flows: &Flows,
) -> Result<BreakList, Memory>
    ensures list { IfOk result (λ l. IsBreakList from.now schedule.now flows.now l) }
    ensures only { (l m : Findings) → IsBreakList from.now schedule.now flows.now l
        → IsBreakList from.now schedule.now flows.now m → l ≡ m }
{
    let mut list = BreakList::new(alloc);
    let from = first_due(from);
    push_streams(alloc, &mut list, from, schedule.streams(), flows.streams())?;
    Ok(list)
}
