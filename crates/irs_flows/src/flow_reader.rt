//! Reading cash flows: the flows that a document states, or its first fault.
ghost use Rattle.irs_base.specs.Outcomes.{Determined};
ghost use Rattle.irs_flows.specs.FlowReading.{FlowPart, FlowsAreWithin, FlowsOf, HidesNone, IsFirstFlowFault};
ghost use Rattle.irs_flows.specs.FlowReading.{flow_parts_in, flows_of_document, shape_kind_of as kind_by};
ghost use Rattle.serde_json.specs.{Data.Data, View.view};
ghost use Rattle.std.specs.Prelude.{◌≡◌, IfErr, IfOk, List};

use crate::flow_faults::{clean_swap, first_in_flows};
use crate::flow_rows::stream_flows;
use crate::{FlowErr, Flows, ShapeKind};
use irs_base::Memory;
use irs_elements::values_at;
use irs_json::Value;
use irs_terms::Rule;
use std::alloc::Global;

// The kind of a fault by its rule. The tables of elements have the rules K2 to K7.
fn kind_of(rule: Rule) -> ShapeKind
    ensures { result ≡ kind_by rule }
{
    match rule {
        Rule::K2 => ShapeKind::Missing,
        Rule::K3 => ShapeKind::Kind,
        Rule::K4 => ShapeKind::Unknown,
        Rule::K5 => ShapeKind::Profile,
        Rule::K6 => ShapeKind::Value,
        Rule::K7 => ShapeKind::Count,
        _ => ShapeKind::NotJson,
    }
}

// The flows of a swap; they count where it has no fault.
fn flows_of(alloc: Global, v: &Value) -> Result<Flows, Memory>
    ensures { IfOk result (λ flows. flows ≡ flow_parts_in (view v.now)) }
{
    let mut streams = Vec::new(alloc);
    for stream in values_at(v, "swapStream") {
        streams.push(stream_flows(alloc, stream)?)?;
    }
    Ok(Flows::new(streams))
}

/// The cash flows that a document states. `Shape` comes exactly where the document has a fault, and
/// has the first. Faults are in the order of their streams, and then of their kinds (`ShapeKind`).
/// Those of one kind are in the order of the table's elements, and then of the index. The faults
/// are the rules K2 to K7 on the tables of cash flows; `NotJson` never comes. Dates are day numbers
/// from 1970-01-01, amounts and rates in units of 10^-12.
pub fn read_flows(alloc: Global, v: &Value) -> Result<Flows, FlowErr>
    ensures flows { IfOk result (λ flows. FlowsOf (view v.now) flows) }
    ensures fault { IfErr result (λ e. IsFirstFlowFault (view v.now) e) }
    // Running out of memory hides no fault.
    ensures memory { IfErr result (λ e. HidesNone (view v.now) e) }
{
    match clean_swap(v) {
        Err(fault) => Err(FlowErr::Shape(kind_of(fault.rule), fault.place)),
        Ok(found) => Ok(flows_of(alloc, found)?),
    }
}

/// A law: a document states one list of flows and has no fault, or one fault is its first.
pub fn flows_of_document_are_determined(v: &Value)
    ensures { Determined (flows_of_document (view v.now)) }
{
    // hands the prover what the faults are
    let _fault = first_in_flows(v);
}

/// The cash flows of every document keep bounds. The calculation periods of a stream are those of its payments. Each
/// adjusted date that is stated is a day of the range.
pub fn read_flows_are_within()
    ensures { (d : Data) (flows : List FlowPart) → FlowsOf d flows → FlowsAreWithin flows }
{}
