//! The audit: whether cash flows agree with a schedule, row by row and field by field.
ghost use Rattle.std.specs.Prelude.{◌≡◌, ◌↔◌, ◌≤◌, length, option_copied, option_map};
ghost use Rattle.irs_audit.specs.Verdicts.{Departs, departs_before, IsNo, IsVerdict};
ghost use Rattle.irs_audit.specs.Private.Comparisons.{rows_in, flow_parts_of, OfStream};
ghost use Rattle.irs_audit.specs.StatedFlows.{stated_flows};
ghost use Rattle.irs_audit.specs.declared.departures.Departure.{Departure};
ghost use Rattle.irs_audit.specs.declared.departures.Verdict.{Verdict};
ghost use Rattle.irs_base.specs.Outcomes.{IsFirst};

use crate::counts::{row_count, unfixed_count};
use crate::rows::{first_of_rows, item};
use crate::stated_rows::{StatedRows, StatedStreams};
use crate::{Departure, Field, RowKind, Verdict};
use irs_flows::Flows;
use irs_schedule::{Schedule, StreamPart};

// A whole stream departs.
fn whole_stream(stream: u8, field: Field) -> Departure
    ensures { result ≡ record { stream = stream; kind = RowKind.Stream; row = 0; field = field } }
{
    Departure {
        stream,
        kind: RowKind::Stream,
        row: 0,
        field,
    }
}

// The first departure of a stream of the schedule and one of the flows, each where there is one.
fn first_of_stream(
    stream: u8,
    ours: Option<&StreamPart>,
    theirs: Option<StatedRows<'_>>,
) -> Option<Departure>
    ensures { IsFirst departs_before (OfStream stream (option_copied ours.entry) (option_map rows_in theirs.entry)) result }
{
    match (ours, theirs) {
        (Some(x), Some(y)) => first_of_rows(stream, x, &y),
        (Some(_), None) => Some(whole_stream(stream, Field::Missing)),
        (None, Some(_)) => Some(whole_stream(stream, Field::Extra)),
        (None, None) => None,
    }
}

// The first departure. Where a stream of the flows is past the one after the schedule's last, that
// one departs too.
fn first_departure(ours: &[StreamPart], theirs: StatedStreams<'_>) -> Option<Departure>
    requires { length ours.now ≤ 8 }
    ensures { IsFirst departs_before (Departs (flow_parts_of theirs.entry) ours.now) result }
{
    for place in 0..ours.len() + 1 {
        let stream = place as u8 + 1;
        if let Some(d) = first_of_stream(stream, item(ours, place), theirs.at(place)) {
            return Some(d);
        }
    }
    None
}

fn verdict(s: &Schedule, theirs: StatedStreams<'_>) -> Verdict
    ensures { IsVerdict (flow_parts_of theirs.entry) s.now result }
{
    let parts = s.streams();
    match first_departure(parts, theirs) {
        Some(d) => Verdict::No(d),
        None => Verdict::Yes {
            rows: row_count(parts),
            unfixed: unfixed_count(parts),
        },
    }
}

/// Whether the flows agree with the schedule (FpML 5, `cashflows` of an InterestRateStream). The
/// rules of agreement are ours. `No` comes exactly where a row or a field departs, with the first
/// departure by stream, kind of row, row and field. `Yes` counts the schedule's exchanges,
/// payments, calculation periods and resets, and its payments without amount. It takes no memory.
pub fn audit(s: &Schedule, f: &Flows) -> Verdict
    ensures verdict { IsVerdict f.now s.now result }
    ensures no { IsNo result ↔ ((d : Departure) × Departs f.now s.now d) }
    ensures only { (v : Verdict) → IsVerdict f.now s.now v → v ≡ result }
{
    verdict(s, StatedStreams::Flows(f.streams()))
}

/// What `audit` says of a schedule and the flows that state another one. The flows aren't made: a row is stated
/// when it is compared. It takes no memory.
pub fn audit_stated(s: &Schedule, stated: &Schedule) -> Verdict
    ensures { IsVerdict (stated_flows stated.now) s.now result }
{
    verdict(s, StatedStreams::Schedule(stated.streams()))
}
