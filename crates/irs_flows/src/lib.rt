//! The cash flows that another party's document states (FpML 5, `cashflows` of an InterestRateStream): the
//! table of their elements, the first fault of a document, and the flows of one that has none.
#![tactic(auto)]

mod error;
mod flow_faults;
mod flow_leaves;
mod flow_reader;
mod flow_rows;
mod flow_table;
mod flows;

pub use error::{FlowErr, ShapeKind};
pub use flow_faults::first_in_flows;
pub use flow_reader::{flows_of_document_are_determined, read_flows, read_flows_are_within};
pub use flow_table::{
    FLOW_NAMES, FLOW_ROWS, PERIOD_NAMES, PERIOD_ROWS, flow_lines_follow, flow_rows_whole,
    flow_tables_listed, period_rows_whole,
};
pub use flows::{
    FlowExchange, FlowPayment, FlowPeriod, FlowReset, FlowStream, Flows, StatedFraction,
};
