//! The rows that an audit compares with those of a schedule: of cash flows that were read, or of a schedule
//! that they would state. A row of a schedule is stated when it is compared.
ghost use Rattle.std.specs.Prelude.{◌≡◌, option_map, slice_get};
ghost use Rattle.irs_audit.specs.Verdicts.{stated_reset_at};
ghost use Rattle.irs_audit.specs.Private.Comparisons.{rows_in, flow_parts_of};
ghost use Rattle.irs_audit.specs.StatedFlows.{stated_part};

use crate::rows::item;
use crate::stating::{exchange_at, payment_at, period_at, reset_at};
use irs_flows::{FlowExchange, FlowPayment, FlowPeriod, FlowReset, FlowStream};
use irs_schedule::StreamPart;

/// The rows of one stream.
#[derive(Clone, Copy)]
pub(crate) enum StatedRows<'a> {
    /// Those of cash flows.
    Flows(&'a FlowStream),
    /// Those of a stream of a schedule, as cash flows state them.
    Schedule(&'a StreamPart),
}

impl StatedRows<'_> {
    /// The principal exchange at a place, from 0.
    pub(crate) fn exchange(&self, place: usize) -> Option<FlowExchange>
        ensures { result ≡ slice_get (rows_in self.now).exchanges place }
    {
        match self {
            StatedRows::Flows(flows) => flows.exchanges().get(place).copied(),
            StatedRows::Schedule(part) => exchange_at(part, place),
        }
    }

    /// The payment at a place, from 0.
    pub(crate) fn payment(&self, place: usize) -> Option<FlowPayment>
        ensures { result ≡ slice_get (rows_in self.now).payments place }
    {
        match self {
            StatedRows::Flows(flows) => flows.payments().get(place).copied(),
            StatedRows::Schedule(part) => payment_at(part, place),
        }
    }

    /// The calculation period at a place, from 0.
    pub(crate) fn period(&self, place: usize) -> Option<FlowPeriod>
        ensures { result ≡ slice_get (rows_in self.now).periods place }
    {
        match self {
            StatedRows::Flows(flows) => flows.periods().get(place).copied(),
            StatedRows::Schedule(part) => period_at(part, place),
        }
    }

    /// The reset of the calculation period at a place, from 0.
    pub(crate) fn reset(&self, place: usize) -> Option<FlowReset>
        ensures { result ≡ stated_reset_at (rows_in self.now) place }
    {
        match self {
            StatedRows::Flows(flows) => item(flows.periods(), place)?.reset,
            StatedRows::Schedule(part) => {
                // hands the prover the bounds of the part
                let _periods = part.periods();
                reset_at(part, place)
            }
        }
    }
}

/// The streams of cash flows, or of a schedule that they would state.
#[derive(Clone, Copy)]
pub(crate) enum StatedStreams<'a> {
    /// Those of cash flows.
    Flows(&'a [FlowStream]),
    /// Those of a schedule, as cash flows state them.
    Schedule(&'a [StreamPart]),
}

impl<'a> StatedStreams<'a> {
    /// The rows of the stream at a place, from 0.
    pub(crate) fn at(&self, place: usize) -> Option<StatedRows<'a>>
        ensures { option_map rows_in result ≡ slice_get (flow_parts_of self.now) place }
    {
        match self {
            StatedStreams::Flows(flows) => flows_at(flows, place),
            StatedStreams::Schedule(parts) => part_at(parts, place),
        }
    }
}

// The rows of the stream of flows at a place.
fn flows_at<'a>(flows: &'a [FlowStream], place: usize) -> Option<StatedRows<'a>>
    ensures { option_map rows_in result ≡ slice_get flows.now place }
{
    match item(flows, place) {
        Some(stream) => Some(StatedRows::Flows(stream)),
        None => None,
    }
}

// The rows that state the stream of a schedule at a place.
fn part_at<'a>(parts: &'a [StreamPart], place: usize) -> Option<StatedRows<'a>>
    ensures { option_map rows_in result ≡ option_map stated_part (slice_get parts.now place) }
{
    match item(parts, place) {
        Some(part) => Some(StatedRows::Schedule(part)),
        None => None,
    }
}
