//! The findings of the principal exchanges of a stream.
ghost use Rattle.std.specs.Prelude.{◌≡◌, ◌≤◌, IfOk, OnOk, length};
ghost use Rattle.irs_base.specs.Lists.{Every};
ghost use Rattle.irs_breaks.specs.BreakLists.{AreExchangesOf, exchange_dates, stated_exchange_dates, FindsExchange};
ghost use Rattle.irs_breaks.specs.BreakLists.{IsExchangeRow};
ghost use Rattle.irs_breaks.specs.Findings.{EachRow};
ghost use Rattle.irs_breaks.specs.Private.Findings.{Adds};
ghost use Rattle.irs_breaks.specs.Pairing.{IsPlacedRow};

use crate::PairedRow;
use crate::counting::counts_of;
use crate::fields::exchange_fields;
use crate::findings::{BreakList, BreakPlace};
use crate::pairing::pair_rows;
use crate::row_breaks::{member_at, place_of, push_fields, push_ours, push_theirs};
use irs_audit::RowKind;
use irs_base::{Day, Memory};
use irs_flows::{FlowExchange, FlowStream};
use irs_schedule::StreamPart;
use irs_terms::Exchange;
use std::alloc::Global;

// Appends the findings of a pair of exchanges.
fn push_exchange_pair(
    list: &mut BreakList,
    place: &BreakPlace,
    x: &Exchange,
    y: &FlowExchange,
) -> Result<(), Memory>
    requires { x.now.amount.places ≤ 12 }
    ensures { OnOk result (Adds (FindsExchange place.now x.now y.now) list.old list.new) }
{
    let fields = exchange_fields(x, y);
    list.push_pair(counts_of(&fields))?;
    push_fields(list, place, &fields)?;
    Ok(())
}

// Appends the findings of a row of the pairing of exchanges.
fn push_exchange(
    list: &mut BreakList,
    stream: usize,
    part: &StreamPart,
    flow: &FlowStream,
    row: &PairedRow,
) -> Result<(), Memory>
    requires { IsPlacedRow (length part.now.exchanges) (length flow.now.exchanges) row.now }
    ensures { OnOk result (Adds (IsExchangeRow stream part.now flow.now row.now) list.old list.new) }
{
    let (xs, ys) = (part.exchanges(), flow.exchanges());
    let place = place_of(stream, RowKind::Exchange, row, xs.len(), ys.len());
    let ours = member_at(xs, row.ours);
    let theirs = member_at(ys, row.theirs);
    match (ours, theirs) {
        (Some(x), Some(y)) => push_exchange_pair(list, &place, x, y),
        (Some(x), None) => push_ours(list, &place, Some(x.amount)),
        (None, Some(y)) => push_theirs(list, &place, part.currency().places(), y.amount),
        (None, None) => Ok(()),
    }
}

// Appends the findings of the rows of the pairing of exchanges.
fn push_exchange_rows(
    list: &mut BreakList,
    stream: usize,
    part: &StreamPart,
    flow: &FlowStream,
    rows: &[PairedRow],
) -> Result<(), Memory>
    requires { Every (IsPlacedRow (length part.now.exchanges) (length flow.now.exchanges)) rows.now }
    ensures { OnOk result (Adds (EachRow (IsExchangeRow stream part.now flow.now) rows.now) list.old list.new) }
{
    for row in rows {
        push_exchange(list, stream, part, flow, row)?;
    }
    Ok(())
}

/// Appends the findings of the principal exchanges of a stream that both have.
pub(crate) fn push_exchanges(
    alloc: Global,
    list: &mut BreakList,
    from: Day,
    stream: usize,
    part: &StreamPart,
    flow: &FlowStream,
) -> Result<(), Memory>
    ensures { OnOk result (Adds (AreExchangesOf from stream part.now flow.now) list.old list.new) }
{
    let ours = exchange_dates(alloc, part.exchanges())?;
    let theirs = stated_exchange_dates(alloc, flow.exchanges())?;
    let rows = pair_rows(alloc, from, &ours, &theirs)?;
    push_exchange_rows(list, stream, part, flow, &rows)?;
    Ok(())
}

fn exchange_dates(alloc: Global, exchanges: &[Exchange]) -> Result<Vec<Option<Day>>, Memory>
    ensures { IfOk result (λ dates. dates.items ≡ exchange_dates exchanges.now) }
{
    let mut dates = Vec::new(alloc);
    for exchange in exchanges {
        dates.push(Some(exchange.adjusted))?;
    }
    Ok(dates)
}

fn stated_exchange_dates(
    alloc: Global,
    exchanges: &[FlowExchange],
) -> Result<Vec<Option<Day>>, Memory>
    ensures { IfOk result (λ dates. dates.items ≡ stated_exchange_dates exchanges.now) }
{
    let mut dates = Vec::new(alloc);
    for exchange in exchanges {
        dates.push(exchange.adjusted)?;
    }
    Ok(dates)
}
